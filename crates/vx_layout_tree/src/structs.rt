use crate::children::LayoutChildren;
use crate::error::LayoutError;
use crate::layout::Layout;
use std::marker::Model;
use vx_layout_shape::struct_children;
use vx_model::{DType, SegmentId};

/// A validity where the type is nullable, then a layout a field.
#[derive(Drop)]
#[cycle(layout)]
pub struct StructLayout {
    pub(crate) row_count: u64,
    pub(crate) dtype: DType,
    pub(crate) segment_ids: Vec<SegmentId>,
    pub(crate) children: LayoutChildren,
}

impl Model for StructLayout {
    ghost use Rattle.std.specs.Prelude.{ℕ};
    ghost use Rattle.vx_layout_spec.specs.LayoutTree.{LayoutData};
    ghost use Rattle.vx_layout_tree.specs.LayoutCode.{lay_code};

    ghost Value = { LayoutData ℕ };

    ghost coded = { lay_code };

    ghost use Rattle.vx_layout_spec.specs.LayoutTree.{struct_kind};
    ghost use Rattle.std.specs.Prelude.{◌≡◌, length};
    ghost use Rattle.vx_model.specs.TyView.{ty};
    ghost use Rattle.vx_session.specs.Kinds.{struct_types};
    ghost use Rattle.vx_layout_tree.specs.LayoutView.{seen_layout};
    ghost use Rattle.vx_layout_tree.specs.KidsView.{fields, layout_kids};

    ghost view = { λ c. seen_layout struct_kind c.dtype c.row_count c.segment_ids (fields (ty c.dtype) c.children) };

    ghost invariant = { λ c. length (layout_kids c.children) ≡ length (struct_types (ty c.dtype)) };

    ghost use Rattle.vx_layout_tree.specs.LayDepth.{depth};

    ghost size = { depth };

    ghost use Rattle.vx_layout_tree.specs.DepthFalls.{fields_fall};

    ghost size_decreases = { λ c h. fields_fall (ty c.dtype) c.children };
}

impl StructLayout {
    ghost use Rattle.std.specs.Prelude.{◌≡◌, ◌≢◌, map, IfErr};
    ghost use Rattle.vx_model.specs.TyView.{ty};
    ghost use Rattle.vx_layout_spec.specs.LayoutTree.{layout_type, children_of};
    ghost use Rattle.vx_layout_tree.specs.KidsView.{fields};
    ghost use Rattle.vx_layout_tree.specs.LayoutView.{layout_data};
    ghost use Rattle.vx_layout_tree.specs.Made.{make_struct};
    ghost use Rattle.vx_layout_tree.specs.Views.{Gives, itself};
    ghost use Rattle.vx_layout_tree.specs.declared.error.LayoutError.TheVariants.{OutOfMemory};

    /// Refuses `NotAStruct`, then `ChildCount`. Takes no memory.
    #[tactic(auto, using(crate::proofs::KidSteps::field_rules))]
    pub fn new(
        row_count: u64,
        dtype: DType,
        children: Vec<Layout>,
    ) -> Result<StructLayout, LayoutError>
        ensures made { Gives itself result (make_struct (ty dtype) row_count (map layout_data children.items)) }
        ensures room { IfErr result (λ e. e ≢ OutOfMemory) }
    {
        if !dtype.is_struct() {
            drop((dtype, children));
            return Err(LayoutError::NotAStruct);
        }
        let has = children.len() as u64;
        let needs = struct_children(&dtype);
        if has != needs {
            drop((dtype, children));
            return Err(LayoutError::ChildCount { has, needs });
        }
        Ok(StructLayout {
            row_count,
            dtype,
            segment_ids: Vec::new(*children.allocator()),
            children: LayoutChildren::Owned(children),
        })
    }

    /// The validity and the fields, built when they are asked for where they are nodes of bytes.
    #[tactic(auto, using(crate::proofs::KidSteps::place_rules))]
    pub fn children(&self) -> &LayoutChildren
        ensures { fields (layout_type self.now) result.now ≡ children_of self.now }
    {
        &self.children
    }
}
