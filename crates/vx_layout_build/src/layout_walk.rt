//! The children that a layout has, and all layouts below it.

use crate::child::LayoutChild;
use crate::viewed::{chunk, field, kept_child, zoned_child};
use crate::walk::DepthFirst;
use std::alloc::Global;
use vx_layout_slots::LayoutSlots;
use vx_layout_tree::{KindRef, Layout, LayoutError};

/// Calls of `Layout` that give the layouts below it. Children that are nodes of bytes are built when they are asked for.
pub trait LayoutWalk {
    ghost use Rattle.std.specs.Prelude.{◌≡◌, ◌<◌, ℕ, length, map, option_map};
    ghost use Rattle.vx_layout_spec.specs.LayoutTree.{LayoutData, children_of};
    ghost use Rattle.vx_layout_tree.specs.Children.{child_in};
    ghost use Rattle.vx_layout_build.specs.ChildView.{child_lay};
    ghost use Rattle.vx_layout_tree.specs.Views.{Gives};
    ghost use Rattle.vx_layout_build.specs.PreOrder.{pre_order};
    ghost use Rattle.vx_layout_build.specs.Present.{child_in_slot, all_answered};
    ghost use Rattle.vx_layout_build.specs.TreeWalk.{nodes_left};

    // The layout that it is.
    ghost walked: { Self → LayoutData ℕ };

    /// The child at the place, which is below `nchildren`, or why it can't be built.
    fn child(&self, i: u64) -> Result<LayoutChild<'_>, LayoutError>
        requires { i < length (children_of (walked self.now)) }
        ensures { Gives child_lay result (child_in (children_of (walked self.now)) i) };

    /// The child in the slot, nothing where the slot has none, or why it can't be built.
    fn slot(&self, slot: u64) -> Result<Option<LayoutChild<'_>>, LayoutError>
        ensures { Gives (option_map child_lay) result (child_in_slot (walked self.now) slot) };

    /// The children in slot order, or why the first that can't be built has none.
    fn children(&self, alloc: Global) -> Result<Vec<LayoutChild<'_>>, LayoutError>
        ensures { Gives (λ v. map child_lay v.items) result (all_answered (children_of (walked self.now))) };

    /// The layout and all below it, each before its children. One that has a child which can't be built comes without
    /// children. What is kept in memory is lent; below a layout that was built, what it keeps is copied. Takes no memory
    /// before the first.
    fn depth_first_traversal(&self, alloc: Global) -> DepthFirst<'_>
        ensures { nodes_left result ≡ pre_order (walked self.now) };
}

impl LayoutWalk for Layout {
    ghost use Rattle.std.specs.Prelude.{◌≡◌, ◌<◌, length, map, option_map};
    ghost use Rattle.vx_layout_spec.specs.LayoutTree.{children_of};
    ghost use Rattle.vx_layout_tree.specs.Children.{child_in};
    ghost use Rattle.vx_layout_build.specs.ChildView.{child_lay};
    ghost use Rattle.vx_layout_tree.specs.LayoutView.{layout_data};
    ghost use Rattle.vx_layout_tree.specs.Views.{Gives};
    ghost use Rattle.vx_layout_build.specs.PreOrder.{pre_order};
    ghost use Rattle.vx_layout_build.specs.Present.{child_in_slot, all_answered};
    ghost use Rattle.vx_layout_build.specs.TreeWalk.{nodes_left};

    ghost walked = { layout_data };

    #[tactic(auto, using(vx_layout_tree::proofs::KidSteps::place_rules))]
    fn child(&self, i: u64) -> Result<LayoutChild<'_>, LayoutError>
        requires { i < length (children_of (layout_data self.now)) }
        ensures { Gives child_lay result (child_in (children_of (layout_data self.now)) i) }
    {
        match self.by_kind() {
            KindRef::Flat(_) => Err(LayoutError::SlotRange {
                index: i,
                children: 0,
            }),
            KindRef::Chunked(children) => chunk(children, i, self.dtype()),
            KindRef::Struct(children) => field(children, i, self.dtype()),
            KindRef::List(kept) => kept_child(kept, i),
            KindRef::Dict(kept, _) => kept_child(kept, i),
            KindRef::Zoned(kept, _, _) => kept_child(kept, i),
            KindRef::Unread(kept, _, zones) => zoned_child(kept, zones, i),
            KindRef::LegacyStats(kept, _, _) => kept_child(kept, i),
            KindRef::Foreign(kept, _, _) => kept_child(kept, i),
        }
    }

    #[tactic(auto, using(crate::proofs::PresentSteps::slot_rules))]
    fn slot(&self, slot: u64) -> Result<Option<LayoutChild<'_>>, LayoutError>
        ensures { Gives (option_map child_lay) result (child_in_slot (layout_data self.now) slot) }
    {
        let Some(place) = self.slot_to_child(slot) else {
            return Ok(None);
        };
        if place >= self.nchildren() {
            return Ok(None);
        }
        match self.child(place) {
            Ok(child) => Ok(Some(child)),
            Err(error) => Err(error),
        }
    }

    #[tactic(auto, using(crate::proofs::PresentSteps::children_rules))]
    fn children(&self, alloc: Global) -> Result<Vec<LayoutChild<'_>>, LayoutError>
        ensures { Gives (λ v. map child_lay v.items) result (all_answered (children_of (layout_data self.now))) }
    {
        let mut children = Vec::with_capacity(alloc, self.nchildren() as usize)?;
        for i in 0..self.nchildren() {
            children.push(self.child(i)?)?;
        }
        Ok(children)
    }

    fn depth_first_traversal(&self, alloc: Global) -> DepthFirst<'_>
        ensures { nodes_left result ≡ pre_order (layout_data self.now) }
    {
        DepthFirst::new(alloc, self)
    }
}
