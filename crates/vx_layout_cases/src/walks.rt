//! Children by their slots, and walks over trees.

ghost use Rattle.std.specs.Iterator.{IsFinite};

use anyhow::{Result, bail};
use std::alloc::{AllocError, Global};
use vx_case_lines::Answer;
use vx_layout::{Layout, LayoutChild, LayoutWalk};

/// A layout by itself that equals what stands in the slot.
pub(crate) fn in_slot(layout: &Layout, slot: u64) -> Result<Layout> {
    match layout.slot(slot)? {
        Some(child) => Ok(child.into_layout()?),
        None => bail!("nothing"),
    }
}

pub(crate) fn tell_present(alloc: Global, answer: &mut Answer, layout: &Layout) {
    match layout.children(alloc) {
        Ok(children) => {
            answer.push(children.len());
            drop(children);
        }
        Err(error) => answer.push(error),
    }
}

pub(crate) fn tell_walk(alloc: Global, answer: &mut Answer, layout: &Layout) {
    push_ids(answer, layout.depth_first_traversal(alloc));
}

/// The ids of the nodes.
fn push_ids<'a, I: Iterator<Item = Result<LayoutChild<'a>, AllocError>>>(
    answer: &mut Answer,
    nodes: I,
)
    requires can { I.can_next nodes }
    requires ends { IsFinite (I.remaining nodes) }
{
    let mut later = false;
    for node in nodes {
        if later {
            answer.push_str(" ");
        }
        match node {
            Ok(node) => {
                answer.push_str(node.layout().encoding_id());
                drop(node);
            }
            Err(error) => answer.push(error),
        }
        later = true;
    }
}
