use crate::matching::matches_of;
use std::alloc::Global;
use vx_field_path::FieldMask;
use vx_layout_tree::{LayoutError, StructLayout};

/// The fields of a struct layout that masks mean.
pub trait LayoutFields {
    ghost use Rattle.std.specs.Prelude.{List, IfOk};
    ghost use Rattle.vx_model.specs.Ty.{Named};
    ghost use Rattle.vx_layout_tree.specs.Views.{Gives};
    ghost use Rattle.vx_layout_fields.specs.Matching.{matching};
    ghost use Rattle.vx_layout_fields.specs.Numbers.{AreNumbers};
    ghost use Rattle.vx_layout_fields.specs.Views.{matches_in};

    // The fields, in order.
    ghost named: { Self → List Named };

    /// Each field that is meant: the mask as seen from it, and its number, from 0. Where a mask matches every field these
    /// are all fields, each with `All`. Else each mask that has a first name means the first field of that name, in order
    /// of the masks; `FieldNotFound` tells the first name that no field has. Takes time for each mask and each field up to
    /// the one of its name, and copies the masks.
    fn matching_fields(
        &self,
        alloc: Global,
        masks: &[FieldMask],
    ) -> Result<Vec<(FieldMask, u64)>, LayoutError>
        ensures exact { Gives matches_in result (matching (named self.now) masks.now) }
        ensures within { IfOk result (λ v. AreNumbers (named self.now) v.items) };
}

impl LayoutFields for StructLayout {
    ghost use Rattle.std.specs.Prelude.{IfOk};
    ghost use Rattle.vx_layout_spec.specs.LayoutTree.{layout_type};
    ghost use Rattle.vx_layout_shape.specs.Shape.{fields_of};
    ghost use Rattle.vx_layout_tree.specs.Views.{Gives};
    ghost use Rattle.vx_layout_fields.specs.Matching.{matching};
    ghost use Rattle.vx_layout_fields.specs.Numbers.{AreNumbers};
    ghost use Rattle.vx_layout_fields.specs.Views.{matches_in};

    ghost named = { λ s. fields_of (layout_type s) };

    #[tactic(auto, using(crate::proofs::Numbers::gives_numbers))]
    fn matching_fields(
        &self,
        alloc: Global,
        masks: &[FieldMask],
    ) -> Result<Vec<(FieldMask, u64)>, LayoutError>
        ensures exact { Gives matches_in result (matching (fields_of (layout_type self.now)) masks.now) }
        ensures within { IfOk result (λ v. AreNumbers (fields_of (layout_type self.now)) v.items) }
    {
        matches_of(alloc, self.struct_fields(), masks)
    }
}
