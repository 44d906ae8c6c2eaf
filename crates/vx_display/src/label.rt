//! The name of a child in its parent's text.

ghost use Rattle.std.specs.Prelude.{◌≡◌, ◌+◌, ◌<◌, ◌^◌, length, IfOk};
ghost use Rattle.vx_layout_spec.specs.LayoutTree.{layout_kind, layout_type, children_of};
ghost use Rattle.vx_layout_tree.specs.LayoutView.{layout_data};
ghost use Rattle.vx_layout_slots.specs.Slots.{slot_type};
ghost use Rattle.vx_display.specs.Text.{child_slot as slot_of_child, name_of, label};

use std::alloc::{AllocError, Global};
use vx_layout_slots::LayoutSlots;
use vx_layout_tree::{Layout, LayoutKind};
use vx_model::Text;

/// The name of child `i`, by its slot. A chunk's rows are not summed for it.
#[tactic(auto, using(crate::proofs::LabelSteps::label_rules), unfolding(crate::specs::Text::label))]
pub(crate) fn child_label(alloc: Global, layout: &Layout, i: u64) -> Result<Text, AllocError>
    requires place { i < length (children_of (layout_data layout.now)) }
    requires fits { i + 1 < 2 ^ 64 }
    ensures { IfOk result (λ text. text ≡ label (layout_data layout.now) i) }
{
    if layout.is(LayoutKind::Chunked) {
        Ok(Text::from(format!(in alloc; "[{i}]")?))
    } else {
        slot_label(alloc, layout, child_slot(layout, i))
    }
}

/// A struct that isn't nullable has no child in its first slot.
#[tactic(auto, using(crate::proofs::LabelSteps::slot_rules))]
fn child_slot(layout: &Layout, i: u64) -> u64
    requires { i + 1 < 2 ^ 64 }
    ensures { result ≡ slot_of_child (layout_kind (layout_data layout.now)) (layout_type (layout_data layout.now)) i }
{
    if layout.is(LayoutKind::Struct) && !layout.dtype().is_nullable() {
        i + 1
    } else {
        i
    }
}

fn slot_label(alloc: Global, layout: &Layout, slot: u64) -> Result<Text, AllocError>
    ensures { IfOk result (λ text. text ≡ name_of (slot_type (layout_data layout.now) slot)) }
{
    match layout.slot_type(alloc, slot)? {
        Some(child_type) => child_type.name(alloc),
        None => Text::from_str(alloc, ""),
    }
}
