//! What each word prints.

use crate::children::tell_children;
use crate::opened::tell_opened;
use crate::own::{tell_own, with};
use crate::segments::{tell_lengths, tell_rows, tell_tree};
use crate::sessions::{tell_known, tell_registered, tell_scope};
use crate::shown::{tell_kinds, tell_names, tell_slots};
use crate::spelling::{tell_codes, tell_metadata, tell_node, tell_viewed};
use crate::walks::{in_slot, tell_present, tell_walk};
use anyhow::Result;
use std::alloc::Global;
use std::thread::Threads;
use vx_case_lines::{Answer, number};
use vx_layout::Layout;

pub(crate) fn tell_layout(
    rt: &impl Threads,
    alloc: Global,
    answer: &mut Answer,
    word: &str,
    args: &str,
    layout: &Layout,
) {
    match word {
        "copy" | "slot" | "with" => tell_other(alloc, answer, word, args, layout),
        "viewed" | "sent" | "again" => tell_viewed(rt, alloc, answer, word, layout),
        "lengths" => tell_lengths(alloc, answer, layout, args),
        "rows" => tell_rows(alloc, answer, layout, args),
        "build" | "slots" => tell_slots(alloc, answer, layout),
        "names" => tell_names(alloc, answer, layout),
        "kinds" => tell_kinds(answer, layout),
        "own" => tell_own(alloc, answer, layout),
        "present" => tell_present(alloc, answer, layout),
        "walk" => tell_walk(alloc, answer, layout),
        "tree" => tell_tree(alloc, answer, layout),
        _ => answer.push_str("no such word"),
    }
}

/// The layout that the word makes of the layout.
fn other(alloc: Global, word: &str, args: &str, layout: &Layout) -> Result<Layout> {
    match word {
        "copy" => Ok(layout.to_layout()?),
        "slot" => in_slot(layout, number(args)),
        _ => with(alloc, layout, args),
    }
}

fn tell_other(alloc: Global, answer: &mut Answer, word: &str, args: &str, layout: &Layout) {
    match other(alloc, word, args, layout) {
        Ok(other) => {
            tell_slots(alloc, answer, &other);
            drop(other);
        }
        Err(error) => answer.push(error),
    }
}

/// Of a word without a layout.
pub(crate) fn tell_alone(alloc: Global, answer: &mut Answer, word: &str, args: &str) {
    match word {
        "children" | "children_copy" => tell_children(alloc, answer, word, args),
        "known" => tell_known(alloc, answer, args),
        "register" => tell_registered(alloc, answer, args),
        "scope" => tell_scope(alloc, answer, args),
        "node" => tell_node(alloc, answer, args),
        "opened" => tell_opened(alloc, answer, args),
        "metadata" => tell_metadata(alloc, answer, args),
        "codes" => tell_codes(alloc, answer, args),
        _ => answer.push_str("no such word"),
    }
}
