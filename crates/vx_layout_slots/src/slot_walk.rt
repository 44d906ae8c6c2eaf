//! The slots of a layout that have a child, one after the other.

ghost use Rattle.std.specs.Prelude.{◌≡◌, ◌+◌, ◌-◌, ◌<◌, [], ◌∷◌, take, Some, MatchOption};
ghost use Rattle.vx_model.specs.Words.{total_by};
ghost use Rattle.vx_session.specs.Made.{kid_rows};
ghost use Rattle.vx_layout_slots.specs.declared.child_type.LayoutChildType.{LayoutChildType};
ghost use Rattle.vx_layout_slots.specs.Slots.{slot_type};
ghost use Rattle.vx_layout_tree.specs.KidsView.{layout_kids};
ghost use Rattle.vx_layout_tree.specs.LayoutView.{layout_data};
ghost use Rattle.vx_layout_slots.specs.SlotTypes.{chunk_row, types_from};

use crate::slots::{place_of, slot_count};
use vx_layout_tree::{KindRef, Layout, LayoutChildren};

/// A slot, and the layout's row at which a chunk in it begins.
#[derive(Clone, Copy)]
pub(crate) struct Place {
    pub(crate) slot: u64,
    pub(crate) row: u64,
}

/// The slots from one on.
#[derive(Drop)]
pub(crate) struct Slots<'a> {
    pub(crate) layout: &'a Layout,
    count: u64,
    at: Place,
    ghost begins: { at.row ≡ chunk_row (layout_data layout.now) at.slot },
}

impl<'a> Slots<'a> {
    ghost use Rattle.std.specs.Prelude.{◌≡◌, [], ◌∷◌, Some, MatchOption};
    ghost use Rattle.vx_layout_slots.specs.declared.child_type.LayoutChildType.{LayoutChildType};
    ghost use Rattle.vx_layout_slots.specs.Slots.{slot_type};
    ghost use Rattle.vx_layout_tree.specs.LayoutView.{layout_data};
    ghost use Rattle.vx_layout_slots.specs.SlotTypes.{chunk_row, child_types};
    ghost use Rattle.vx_layout_slots.specs.SlotWalk.{slots_left};

    #[tactic(auto, using(crate::proofs::SlotSteps::first_rules))]
    pub(crate) fn new(layout: &'a Layout) -> Slots<'a>
        ensures { slots_left result ≡ child_types (layout_data layout.now) }
    {
        Slots {
            layout,
            count: slot_count(layout),
            at: Place { slot: 0, row: 0 },
        }
    }

    /// Goes past the next slot that has a child.
    #[tactic(auto, using(crate::proofs::SlotSteps::pass_rules))]
    pub(crate) fn pass(&mut self) -> Option<Place>
        ensures step { MatchOption result
            ((slots_left self.old ≡ []) × (slots_left self.new ≡ []))
            (λ p. (t : LayoutChildType) × (slots_left self.old ≡ t ∷ slots_left self.new) × (slot_type (layout_data self.old.layout.now) p.slot ≡ Some t) × (p.row ≡ chunk_row (layout_data self.old.layout.now) p.slot)) }
        ensures same { layout_data self.new.layout.now ≡ layout_data self.old.layout.now }
    {
        let place = next_place(self.layout, self.at, self.count)?;
        let row = row_behind(self.layout, place);
        self.at = Place {
            slot: place.slot + 1,
            row,
        };
        Some(place)
    }
}

/// The first slot from the one on that has a child.
#[tactic(auto, using(crate::proofs::SlotSteps::next_rules))]
fn next_place(layout: &Layout, from: Place, count: u64) -> Option<Place>
    requires { from.row ≡ chunk_row (layout_data layout.now) from.slot }
    ensures { MatchOption result
        (types_from (layout_data layout.now) from.slot (count - from.slot) ≡ [])
        (λ p. (t : LayoutChildType) × (types_from (layout_data layout.now) from.slot (count - from.slot) ≡ t ∷ types_from (layout_data layout.now) (p.slot + 1) (count - (p.slot + 1))) × (slot_type (layout_data layout.now) p.slot ≡ Some t) × (p.row ≡ chunk_row (layout_data layout.now) p.slot) × (p.slot < count)) }
{
    let mut row = from.row;
    for slot in from.slot..count {
        if place_of(layout, slot).is_some() {
            return Some(Place { slot, row });
        }
        row = row_behind(layout, Place { slot, row });
    }
    None
}

/// The row at which a chunk behind the place begins.
#[tactic(auto, using(crate::proofs::SlotSteps::chunk_rules))]
fn row_behind(layout: &Layout, at: Place) -> u64
    requires { at.row ≡ chunk_row (layout_data layout.now) at.slot }
    ensures { result ≡ chunk_row (layout_data layout.now) (at.slot + 1) }
{
    match layout.by_kind() {
        KindRef::Chunked(children) => rows_through(children, layout.row_count(), at),
        KindRef::Flat(_) => 0,
        KindRef::Struct(_) => 0,
        KindRef::List(_) => 0,
        KindRef::Dict(..) => 0,
        KindRef::Zoned(..) => 0,
        KindRef::Unread(..) => 0,
        KindRef::LegacyStats(..) => 0,
        KindRef::Foreign(..) => 0,
    }
}

/// Rows up to the place and of the child there, of `rows` together.
#[tactic(auto, using(vx_layout_tree::proofs::KidSteps::sum_rules))]
fn rows_through(children: &LayoutChildren, rows: u64, at: Place) -> u64
    requires all { total_by kid_rows (layout_kids children.now) ≡ rows }
    requires before { at.row ≡ total_by kid_rows (take at.slot (layout_kids children.now)) }
    ensures { result ≡ total_by kid_rows (take (at.slot + 1) (layout_kids children.now)) }
{
    let _ = rows;
    if at.slot < children.nchildren() {
        at.row + children.child_row_count(at.slot)
    } else {
        at.row
    }
}
