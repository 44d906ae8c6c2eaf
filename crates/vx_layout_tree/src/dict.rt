use crate::error::LayoutError;
use crate::layout::Layout;
use crate::shape::other_type;
use std::alloc::Global;
use std::marker::Model;
use vx_layout_shape::{integer_type, is_primitive};
use vx_model::{DType, SegmentId};

/// Values, and a code a row.
#[derive(Drop)]
#[cycle(layout)]
pub struct DictLayout {
    pub(crate) row_count: u64,
    pub(crate) dtype: DType,
    pub(crate) segment_ids: Vec<SegmentId>,
    pub(crate) children: Vec<Layout>,
    pub(crate) all_values_referenced: bool,
}

impl Model for DictLayout {
    ghost use Rattle.std.specs.Prelude.{ℕ};
    ghost use Rattle.vx_layout_spec.specs.LayoutTree.{LayoutData};
    ghost use Rattle.vx_layout_tree.specs.LayoutCode.{lay_code};

    ghost Value = { LayoutData ℕ };

    ghost coded = { lay_code };

    ghost use Rattle.vx_layout_spec.specs.LayoutTree.{dict_kind};
    ghost use Rattle.vx_layout_tree.specs.LayoutView.{seen};

    ghost view = { λ c. seen (dict_kind c.all_values_referenced) c.dtype c.row_count c.segment_ids c.children };

    ghost use Rattle.vx_layout_tree.specs.LayDepth.{depth};

    ghost size = { depth };

    ghost use Rattle.vx_layout_tree.specs.DepthFalls.{children_fall};

    ghost size_decreases = { λ c h. children_fall c.children.items };
}

impl DictLayout {
    ghost use Rattle.vx_layout_tree.specs.LayoutView.{layout_data};
    ghost use Rattle.vx_layout_tree.specs.Made.{make_dict};
    ghost use Rattle.vx_layout_tree.specs.Views.{Gives, itself};

    /// Of the values' type and the codes' rows. Refuses `ChildType` where the codes are no integers.
    pub fn new(alloc: Global, values: Layout, codes: Layout) -> Result<DictLayout, LayoutError>
        ensures { Gives itself result (make_dict (layout_data values) (layout_data codes)) }
    {
        let children = vec![in alloc; values, codes]?;
        if !is_primitive(children[1].dtype()) {
            return Err(other_type(&children[1], integer_type()));
        }
        let row_count = children[1].row_count();
        let dtype = children[0].dtype().clone()?;
        Ok(DictLayout {
            row_count,
            dtype,
            segment_ids: Vec::new(alloc),
            children,
            all_values_referenced: false,
        })
    }
}
