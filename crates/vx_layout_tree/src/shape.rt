//! What the types of the kinds look like.

ghost use Rattle.std.specs.Prelude.{◌≡◌};
ghost use Rattle.vx_layout_spec.specs.LayoutTree.{layout_type};
ghost use Rattle.vx_layout_spec.specs.Refusal.{child_type};
ghost use Rattle.vx_layout_tree.specs.LayoutView.{layout_data};
ghost use Rattle.vx_layout_tree.specs.Views.{Fails};
ghost use Rattle.vx_model.specs.TyView.{ty};
ghost use Rattle.vx_metadata.specs.Kept.{integers_of};
ghost use Rattle.vx_layout_tree.specs.Made.{refused};

use crate::error::LayoutError;
use crate::layout::Layout;
use vx_model::{DType, PType};

/// Why a child that isn't of this type is refused.
pub(crate) fn other_type(child: &Layout, needs: DType) -> LayoutError
    ensures { Fails result (refused (child_type (layout_type (layout_data child.now)) (ty needs))) }
{
    let Ok(has) = child.dtype().clone() else {
        drop(needs);
        return LayoutError::OutOfMemory;
    };
    LayoutError::ChildType { has, needs }
}

/// The integers of the type; U64 where it has none.
#[tactic(auto, using(vx_model::proofs::Views::view_rules))]
pub fn integers_in(dtype: &DType) -> PType
    ensures { result ≡ integers_of (ty dtype.now) }
{
    match dtype {
        DType::Primitive(ptype, _) => *ptype,
        DType::Bool(_) | DType::Utf8(_) | DType::Binary(_) => PType::U64,
        DType::List(..) | DType::Struct(..) | DType::Extension(_) => PType::U64,
    }
}
