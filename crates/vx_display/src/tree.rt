//! The lines of a tree.

ghost use Rattle.std.specs.Prelude.{◌≡◌, ◌++◌, ◌+◌, ◌<◌, ◌^◌, length, string_bytes, codes, OnOk, IfOk, Ok};
ghost use Rattle.vx_layout_spec.specs.LayoutTree.{layout_kind, segments_of, children_of};
ghost use Rattle.vx_layout_tree.specs.Children.{child_in};
ghost use Rattle.vx_layout_tree.specs.LayoutView.{layout_data};
ghost use Rattle.vx_layout_codec_spec.specs.Permitted.{built as all_built};
ghost use Rattle.vx_display.specs.Lengths.{first_fault, kind_fault};
ghost use Rattle.vx_display.specs.Text.{tree_text, node_text, branch_to, trunk_by, label as name_of_child};
ghost use Rattle.vx_display.specs.Views.{map_of, style as seen, Faults, GivesChild};

use crate::label::child_label;
use crate::node::push_node;
use crate::style::{Stop, Style};
use std::alloc::{AllocError, Global};
use vx_layout_build::{LayoutChild, LayoutWalk};
use vx_layout_tree::{Layout, LayoutError};

/// `first` stands before the layout's own line, and `rest` before those below it.
#[tactic(auto, using(crate::proofs::TreeSteps::tree_rules))]
pub(crate) fn push_tree(
    style: &Style,
    out: &mut String,
    first: &str,
    rest: &str,
    layout: &Layout,
) -> Result<(), Stop>
    ensures text { OnOk result (string_bytes out.new ≡ string_bytes out.old ++ tree_text (seen style.now) first.now rest.now (layout_data layout.now)) }
    ensures fault { Faults result (first_fault (map_of style.now) (layout_data layout.now)) (all_built (layout_data layout.now)) }
{
    layout.built();
    push_line(style, out, first, layout)?;
    let count = layout.nchildren();
    for i in 0..count {
        let last = i + 1 == count;
        let first = branch(style.alloc, rest, last, layout, i)?;
        let below = trunk(style.alloc, rest, last)?;
        let child = child_at(layout, i)?;
        let pushed = push_tree(style, out, &first, &below, child.layout());
        drop(child);
        pushed?;
    }
    Ok(())
}

#[tactic(auto, using(crate::proofs::TreeSteps::child_rules))]
fn child_at(layout: &Layout, i: u64) -> Result<LayoutChild<'_>, Stop>
    requires { i < length (children_of (layout_data layout.now)) }
    ensures { GivesChild result (child_in (children_of (layout_data layout.now)) i) }
{
    match layout.child(i) {
        Ok(child) => Ok(child),
        Err(LayoutError::OutOfMemory) => Err(Stop::OutOfMemory),
        Err(error) => {
            drop(error);
            Err(Stop::Refused)
        }
    }
}

/// The node's own line.
#[tactic(auto, using(crate::proofs::NodeSteps::text_rules))]
fn push_line(style: &Style, out: &mut String, first: &str, layout: &Layout) -> Result<(), Stop>
    ensures text { OnOk result (string_bytes out.new ≡ string_bytes out.old ++ (first.now ++ (node_text (seen style.now) (layout_data layout.now) ++ codes "\n"))) }
    ensures fault { Faults result (kind_fault (map_of style.now) (layout_kind (layout_data layout.now)) (segments_of (layout_data layout.now))) (Ok tt) }
{
    out.push_str(first)?;
    push_node(style, out, layout)?;
    out.push_str("\n")?;
    Ok(())
}

/// What stands before a child's own line.
#[tactic(auto, using(crate::proofs::NodeSteps::text_rules))]
fn branch(
    alloc: Global,
    rest: &str,
    last: bool,
    layout: &Layout,
    i: u64,
) -> Result<String, AllocError>
    requires place { i < length (children_of (layout_data layout.now)) }
    requires fits { i + 1 < 2 ^ 64 }
    ensures { IfOk result (λ text. string_bytes text ≡ rest.now ++ (branch_to last ++ (name_of_child (layout_data layout.now) i ++ codes ": "))) }
{
    let branch = if last { "└── " } else { "├── " };
    let name = child_label(alloc, layout, i)?;
    let name = name.as_str();
    format!(in alloc; "{rest}{branch}{name}: ")
}

/// What stands before the lines below a child.
#[tactic(auto, using(crate::proofs::NodeSteps::text_rules))]
fn trunk(alloc: Global, rest: &str, last: bool) -> Result<String, AllocError>
    ensures { IfOk result (λ text. string_bytes text ≡ rest.now ++ trunk_by last) }
{
    let mut text = String::from_str(alloc, rest)?;
    text.push_str(if last { "    " } else { "│   " })?;
    Ok(text)
}
