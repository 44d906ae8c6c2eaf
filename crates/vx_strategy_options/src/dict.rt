//! Tests of what dictionaries hold.

ghost use Rattle.std.specs.Prelude.{◌≡◌};
ghost use Rattle.vx_model.specs.ChunkData.{is_dict_type};
ghost use Rattle.vx_model.specs.TyView.{ty};

use vx_model::DType;

/// Whether a dictionary can hold the type: integers, texts and bytes.
pub fn dict_layout_supported(dtype: &DType) -> bool
    ensures { result ≡ is_dict_type (ty dtype.now) }
{
    match dtype {
        DType::Primitive(..) | DType::Utf8(_) | DType::Binary(_) => true,
        DType::Bool(_) | DType::List(..) | DType::Struct(..) | DType::Extension(_) => false,
    }
}
