ghost use Rattle.std.specs.Prelude.{◌≡◌, ◌∷◌, map, length, IfOk, option_map};
ghost use Rattle.vx_layout_tree.specs.LayoutView.{layout_data};
ghost use Rattle.vx_layout_tree.specs.Made.{listed};

use crate::error::LayoutError;
use crate::layout::Layout;
use crate::shape::other_type;
use std::alloc::{AllocError, Global};
use std::marker::Model;
use vx_layout_shape::{integer_type, is_primitive, validity_count};
use vx_model::{DType, SegmentId};

/// Elements, offsets, and a validity where the type is nullable.
#[derive(Drop)]
#[cycle(layout)]
pub struct ListLayout {
    pub(crate) row_count: u64,
    pub(crate) dtype: DType,
    pub(crate) segment_ids: Vec<SegmentId>,
    pub(crate) children: Vec<Layout>,
}

impl Model for ListLayout {
    ghost use Rattle.std.specs.Prelude.{ℕ};
    ghost use Rattle.vx_layout_spec.specs.LayoutTree.{LayoutData};
    ghost use Rattle.vx_layout_tree.specs.LayoutCode.{lay_code};

    ghost Value = { LayoutData ℕ };

    ghost coded = { lay_code };

    ghost use Rattle.vx_layout_spec.specs.LayoutTree.{list_kind};
    ghost use Rattle.vx_layout_tree.specs.LayoutView.{seen};

    ghost view = { λ c. seen list_kind c.dtype c.row_count c.segment_ids c.children };

    ghost use Rattle.std.specs.Prelude.{◌≡◌, ◌+◌, length};
    ghost use Rattle.vx_model.specs.TyView.{ty};
    ghost use Rattle.vx_layout_shape.specs.Shape.{validity_count};

    ghost invariant = { λ c. length c.children.items ≡ 2 + validity_count (ty c.dtype) };

    ghost use Rattle.vx_layout_tree.specs.LayDepth.{depth};

    ghost size = { depth };

    ghost use Rattle.vx_layout_tree.specs.DepthFalls.{children_fall};

    ghost size_decreases = { λ c h. children_fall c.children.items };
}

impl ListLayout {
    ghost use Rattle.std.specs.Prelude.{option_map};
    ghost use Rattle.vx_model.specs.TyView.{ty};
    ghost use Rattle.vx_layout_tree.specs.LayoutView.{layout_data};
    ghost use Rattle.vx_layout_tree.specs.Made.{make_list};
    ghost use Rattle.vx_layout_tree.specs.Views.{Gives, itself};

    /// One row less than offsets, at least none. Refuses `NotAList`, then `ChildCount` where a validity is missing or too
    /// many, then `ChildType` where the offsets are no integers.
    pub fn new(
        alloc: Global,
        dtype: DType,
        elements: Layout,
        offsets: Layout,
        validity: Option<Layout>,
    ) -> Result<ListLayout, LayoutError>
        ensures { Gives itself result (make_list (ty dtype) (layout_data elements) (layout_data offsets) (option_map layout_data validity)) }
    {
        if !dtype.is_list() {
            drop((dtype, elements, offsets, validity));
            return Err(LayoutError::NotAList);
        }
        let needs = validity_count(&dtype);
        let has = present(&validity);
        if has != needs {
            drop((dtype, elements, offsets, validity));
            return Err(LayoutError::ChildCount {
                has: 2 + has,
                needs: 2 + needs,
            });
        }
        if !is_primitive(offsets.dtype()) {
            let error = other_type(&offsets, integer_type());
            drop((dtype, elements, offsets, validity));
            return Err(error);
        }
        let row_count = offsets.row_count().saturating_sub(1);
        let Ok(children) = list_children(alloc, elements, offsets, validity) else {
            drop(dtype);
            return Err(LayoutError::OutOfMemory);
        };
        Ok(ListLayout {
            row_count,
            dtype,
            segment_ids: Vec::new(alloc),
            children,
        })
    }
}

/// One where there is a layout.
fn present(layout: &Option<Layout>) -> u64
    ensures { result ≡ length (listed (option_map layout_data layout.now)) }
{
    if layout.is_some() { 1 } else { 0 }
}

fn list_children(
    alloc: Global,
    elements: Layout,
    offsets: Layout,
    validity: Option<Layout>,
) -> Result<Vec<Layout>, AllocError>
    ensures { IfOk result (λ v. map layout_data v.items ≡ layout_data elements ∷ layout_data offsets ∷ listed (option_map layout_data validity)) }
{
    match validity {
        None => Ok(vec![in alloc; elements, offsets]?),
        Some(validity) => Ok(vec![in alloc; elements, offsets, validity]?),
    }
}
