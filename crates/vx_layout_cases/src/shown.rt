//! What layouts tell of themselves and of their slots.

use std::alloc::{AllocError, Global};
use vx_case_lines::Answer;
use vx_layout::{Layout, LayoutChildType, LayoutKind, LayoutSlots};
use vx_model::Text;

pub(crate) fn tell_slots(alloc: Global, answer: &mut Answer, layout: &Layout) {
    answer.push_str(layout.encoding_id());
    answer.push_str(" ");
    answer.push(layout.row_count());
    answer.push_str(" ");
    answer.push(layout.nchildren());
    answer.push_str(":");
    for slot in 0..layout.nslots() {
        push_slot(alloc, answer, layout, slot);
    }
}

fn push_slot(alloc: Global, answer: &mut Answer, layout: &Layout, slot: u64) {
    match layout.slot_type(alloc, slot) {
        Ok(Some(child)) => {
            let place = layout.slot_to_child(slot);
            answer.push_str(" ");
            answer.push_str(kind_of(&child));
            push_name(answer, child.name(alloc));
            write!(answer, " {:?} {place:?},", child.row_offset());
            drop(child);
        }
        Ok(None) => {}
        Err(error) => answer.push(error),
    }
}

fn kind_of(child: &LayoutChildType) -> &'static str {
    match child {
        LayoutChildType::Transparent(_) => "transparent",
        LayoutChildType::Auxiliary(_) => "auxiliary",
        LayoutChildType::Chunk(_) => "chunk",
        LayoutChildType::Field(_) => "field",
    }
}

pub(crate) fn tell_names(alloc: Global, answer: &mut Answer, layout: &Layout) {
    answer.push_str(layout.encoding_id());
    for name in layout.child_names(alloc) {
        push_name(answer, name);
    }
    for row in layout.child_row_offsets() {
        write!(answer, " {row:?}");
    }
    for child in layout.child_types(alloc) {
        answer.push_str(" ");
        match child {
            Ok(child) => {
                answer.push_str(kind_of(&child));
                drop(child);
            }
            Err(error) => answer.push(error),
        }
    }
}

fn push_name(answer: &mut Answer, name: Result<Text, AllocError>) {
    answer.push_str(" ");
    match name {
        Ok(name) => {
            answer.push_str(name.as_str());
            drop(name);
        }
        Err(error) => answer.push(error),
    }
}

/// First the id where the layout is chunked.
pub(crate) fn tell_kinds(answer: &mut Answer, layout: &Layout) {
    if layout.is(LayoutKind::Chunked) {
        answer.push_str(layout.as_(LayoutKind::Chunked).encoding_id());
    }
    answer.push_str(" ");
    answer.push(layout.as_opt(LayoutKind::Chunked).is_some());
    answer.push_str(" ");
    answer.push(layout.as_flat().is_some());
    answer.push_str(" ");
    answer.push(layout.segment_ids().len());
    answer.push_str(" ");
    answer.push(layout.is_indivisible());
    answer.push_str(" ");
    answer.push(layout.dtype());
}
