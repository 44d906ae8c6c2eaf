//! Rows of a node, put together from those of its children that are read.

ghost use Rattle.std.specs.Prelude.{ℕ, List, Option, ◌≡◌, ◌≤◌, ◌∷◌, [], true, None, length, map, IsTrue, OnOk};
ghost use Rattle.vx_model.specs.Words.{head_or};
ghost use Rattle.vx_layout_spec.specs.Rows.{and_then, counted, joined, struct_rows, under_validity, lists_of, list_rows, dict_rows};
ghost use Rattle.vx_layout_spec.specs.Codec.{Codec};
ghost use Rattle.vx_layout_spec.specs.LayoutTree.{layout_kind};
ghost use Rattle.vx_layout_tree.specs.Children.{kind_name};
ghost use Rattle.vx_layout_tree.specs.declared.kind.LayoutKind.TheVariants.{Foreign};
ghost use Rattle.vx_layout_tree.specs.LayoutView.{layout_data};
ghost use Rattle.vx_read.specs.Parts.{rows_in, parts_in};
ghost use Rattle.vx_read.specs.Reading.{count_fault, counts_fault, ends_fault, offsets_fault, children_fault, list_children, validity_fault, list_fault, dict_fault, first_fault};
ghost use Rattle.vx_segment_map.specs.FirstFault.{first_of};
ghost use Rattle.vx_read.specs.Answers.{IsFault, TellsFault, Reads};

use crate::counts::{joined, test_count, test_counts, test_ends};
use crate::dicts::picked;
use crate::lists::lists;
use crate::structs::{kept, zipped};
use std::alloc::Global;
use vx_layout_tree::{Layout, LayoutError};
use vx_model::{Text, Value};
use vx_segment_map::ReadError;

/// The layout is of a kind that isn't known.
#[tactic(auto, using(crate::proofs::NodeSteps::foreign_rules))]
pub(crate) fn unknown_kind(alloc: Global, layout: &Layout) -> ReadError
    requires { kind_name (layout_kind (layout_data layout.now)) ≡ Foreign }
    ensures { (c : Codec) (look : ℕ → Option (List ℕ)) → IsFault result (first_fault c look (layout_data layout.now)) }
{
    layout.built();
    match Text::from_str(alloc, layout.encoding_id()) {
        Ok(id) => ReadError::Foreign(id),
        Err(_) => ReadError::OutOfMemory,
    }
}

/// Whether a node has the children of its kind.
#[tactic(auto, using(crate::proofs::NodeSteps::own_rules))]
pub(crate) fn test_children(has: u64, needs: u64) -> Result<(), ReadError>
    ensures same { OnOk result (has ≡ needs) }
    ensures fault { TellsFault result (children_fault has needs) }
{
    if has != needs {
        return Err(ReadError::Layout(LayoutError::ChildCount { has, needs }));
    }
    Ok(())
}

/// Whether a struct's validity is there, where it has one.
#[tactic(auto, using(crate::proofs::NodeSteps::own_rules))]
pub(crate) fn test_validity(nullable: bool, has: u64) -> Result<(), ReadError>
    ensures some { OnOk result (IsTrue nullable → 1 ≤ has) }
    ensures fault { TellsFault result (validity_fault nullable has) }
{
    if nullable && has == 0 {
        return Err(ReadError::Layout(LayoutError::ChildCount { has: 0, needs: 1 }));
    }
    Ok(())
}

/// Children of a list: elements, offsets, and a validity where it is nullable.
pub(crate) fn list_children(nullable: bool) -> u64
    ensures { result ≡ list_children nullable }
{
    if nullable { 3 } else { 2 }
}

#[tactic(auto, using(crate::proofs::NodeSteps::count_rules))]
pub(crate) fn chunked_rows(
    alloc: Global,
    row_count: u64,
    parts: Vec<Vec<Value>>,
) -> Result<Vec<Value>, ReadError>
    ensures { Reads rows_in result (counted row_count (joined (parts_in parts))) (count_fault row_count (joined (parts_in parts))) }
{
    let rows = joined(alloc, parts)?;
    test_count(&rows, row_count)?;
    Ok(rows)
}

#[tactic(auto, using(crate::proofs::NodeSteps::struct_rules))]
pub(crate) fn struct_rows(
    alloc: Global,
    row_count: u64,
    nullable: bool,
    parts: Vec<Vec<Value>>,
) -> Result<Vec<Value>, ReadError>
    requires { IsTrue nullable → 1 ≤ length parts.items }
    ensures { Reads rows_in result (and_then (counted row_count) (struct_rows nullable row_count (parts_in parts))) (counts_fault row_count (parts_in parts)) }
{
    test_counts(&parts, row_count)?;
    if nullable {
        return valid_structs(alloc, row_count, parts);
    }
    Ok(zipped(alloc, parts, row_count)?)
}

/// Structs of a validity and columns of so many rows.
#[tactic(auto, using(crate::proofs::NodeSteps::struct_rules))]
fn valid_structs(
    alloc: Global,
    row_count: u64,
    mut parts: Vec<Vec<Value>>,
) -> Result<Vec<Value>, ReadError>
    requires some { 1 ≤ length parts.items }
    requires counts { counts_fault row_count (parts_in parts) ≡ None }
    ensures { Reads rows_in result (and_then (counted row_count) (struct_rows true row_count (parts_in parts))) None }
{
    let flags = parts.remove(0);
    let rows = zipped(alloc, parts, row_count)?;
    Ok(kept(rows, &flags))
}

#[tactic(auto, using(crate::proofs::NodeSteps::list_rules))]
pub(crate) fn list_rows(
    alloc: Global,
    row_count: u64,
    nullable: bool,
    mut parts: Vec<Vec<Value>>,
) -> Result<Vec<Value>, ReadError>
    requires { length parts.items ≡ list_children nullable }
    ensures { Reads rows_in result (and_then (counted row_count) (list_rows nullable row_count (parts_in parts))) (list_fault row_count (parts_in parts)) }
{
    let elements = parts.remove(0);
    let offsets = parts.remove(0);
    let rows = whole_lists(alloc, row_count, elements, offsets)?;
    if nullable {
        return valid_rows(row_count, rows, parts.remove(0));
    }
    Ok(rows)
}

/// Lists of all elements between offsets, one less than there are offsets.
#[tactic(auto, using(crate::proofs::NodeSteps::list_rules))]
fn whole_lists(
    alloc: Global,
    row_count: u64,
    elements: Vec<Value>,
    offsets: Vec<Value>,
) -> Result<Vec<Value>, ReadError>
    ensures { Reads rows_in result (and_then (counted row_count) (lists_of (rows_in elements) (rows_in offsets))) (first_of (ends_fault row_count (rows_in offsets)) (offsets_fault (length elements.items) 0 (rows_in offsets))) }
{
    test_ends(&offsets, row_count)?;
    lists(alloc, elements, &offsets)
}

/// The rows, null where their flag is false.
#[tactic(auto, using(crate::proofs::NodeSteps::count_rules))]
fn valid_rows(row_count: u64, rows: Vec<Value>, flags: Vec<Value>) -> Result<Vec<Value>, ReadError>
    ensures { Reads rows_in result (under_validity row_count (rows_in flags) (rows_in rows)) (count_fault row_count (rows_in flags)) }
{
    test_count(&flags, row_count)?;
    Ok(kept(rows, &flags))
}

#[tactic(auto, using(crate::proofs::NodeSteps::dict_rules))]
pub(crate) fn dict_rows(
    alloc: Global,
    row_count: u64,
    mut parts: Vec<Vec<Value>>,
) -> Result<Vec<Value>, ReadError>
    requires { length parts.items ≡ 2 }
    ensures { Reads rows_in result (and_then (counted row_count) (dict_rows (parts_in parts))) (dict_fault row_count (parts_in parts)) }
{
    let values = parts.remove(0);
    let codes = parts.remove(0);
    test_count(&codes, row_count)?;
    picked(alloc, &values, &codes)
}

/// The rows of the first child.
#[tactic(auto, using(crate::proofs::NodeSteps::data_rules))]
pub(crate) fn data_rows(row_count: u64, mut parts: Vec<Vec<Value>>) -> Result<Vec<Value>, ReadError>
    requires { length parts.items ≡ 1 }
    ensures { Reads rows_in result (counted row_count (head_or [] (parts_in parts))) (counts_fault row_count (parts_in parts)) }
{
    let rows = parts.remove(0);
    test_count(&rows, row_count)?;
    Ok(rows)
}
