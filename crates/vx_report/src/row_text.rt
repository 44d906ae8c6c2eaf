//! Rows as lines of JSON.

ghost use Rattle.std.specs.Prelude.{◌≡◌, ◌≤◌, ◌∷◌, ◌++◌, string_bytes, length, map, IfOk, OnOk, false};
ghost use Rattle.std.specs.Fmt.{signed_decimal};
ghost use Rattle.serde_json.specs.Data.{string};
ghost use Rattle.serde_json.specs.Written.{compact_text, items_text, comma_if};
ghost use Rattle.vx_model.specs.ValueData.{vals_of};
ghost use Rattle.vx_model.specs.TreeView.{val};
ghost use Rattle.vx_chunk_cells.specs.Window.{window};
ghost use Rattle.vx_read_chunk.specs.Held.{part_rows};
ghost use Rattle.vx_report.specs.RowText.{row_text, row_lines, items_json};

use serde_json::Value as Json;
use std::alloc::{AllocError, Global};
use vx_model::Value;
use vx_read_chunk::HeldPart;

/// A line a row, of rows `from` to `to`, the last not included.
pub fn row_lines(alloc: Global, part: &HeldPart, from: u64, to: u64) -> Result<String, AllocError>
    requires order { from ≤ to }
    requires within { to ≤ length (part_rows part.now) }
    ensures { IfOk result (λ text. string_bytes text ≡ row_lines (window from to (part_rows part.now))) }
{
    let rows = part.rows_between(alloc, from, to)?;
    let mut out = String::new(alloc);
    push_rows(alloc, &mut out, &rows)?;
    Ok(out)
}

/// A line a row.
#[tactic(auto, using(crate::proofs::RowSteps::row_rules))]
pub(crate) fn push_rows(alloc: Global, out: &mut String, rows: &[Value]) -> Result<(), AllocError>
    ensures { OnOk result (string_bytes out.new ≡ string_bytes out.old ++ row_lines (map val rows.now)) }
{
    for row in rows {
        push_row(alloc, out, row)?;
        out.push_str("\n")?;
    }
    Ok(())
}

/// Bytes as hex text, lists and structs as lists.
#[cycle(row)]
#[tactic(auto, using(crate::proofs::RowSteps::value_rules))]
fn push_row(alloc: Global, out: &mut String, row: &Value) -> Result<(), AllocError>
    ensures { OnOk result (string_bytes out.new ≡ string_bytes out.old ++ row_text (val row.now)) }
{
    match row {
        Value::Null => out.push_str("null"),
        Value::Bool(b) => out.push_str(if *b { "true" } else { "false" }),
        Value::Int(n) => push_integer(out, *n),
        Value::Utf8(text) => push_quoted(alloc, out, String::from_str(alloc, text.as_str())?),
        Value::Binary(bytes) => push_quoted(alloc, out, hex::encode(alloc, bytes.as_slice())?),
        Value::List(items) => push_items(alloc, out, items),
        Value::Struct(fields) => push_items(alloc, out, fields),
    }
}

#[cycle(row)]
#[tactic(auto, using(crate::proofs::RowSteps::value_rules))]
fn push_items(alloc: Global, out: &mut String, items: &[Value]) -> Result<(), AllocError>
    ensures { OnOk result (string_bytes out.new ≡ string_bytes out.old ++ (91 ∷ items_text false (items_json (vals_of (map val items.now))))) }
{
    out.push_str("[")?;
    for i in 0..items.len() {
        push_comma(out, i > 0)?;
        push_row(alloc, out, &items[i])?;
    }
    out.push_str("]")
}

fn push_comma(out: &mut String, later: bool) -> Result<(), AllocError>
    ensures { OnOk result (string_bytes out.new ≡ string_bytes out.old ++ comma_if later) }
{
    if later {
        out.push_str(",")?;
    }
    Ok(())
}

fn push_integer(out: &mut String, number: i128) -> Result<(), AllocError>
    ensures { OnOk result (string_bytes out.new ≡ string_bytes out.old ++ signed_decimal number) }
{
    write!(out, "{number}")?;
    Ok(())
}

fn push_quoted(alloc: Global, out: &mut String, text: String) -> Result<(), AllocError>
    ensures { OnOk result (string_bytes out.new ≡ string_bytes out.old ++ compact_text (string (string_bytes text))) }
{
    let quoted = Json::String(text).to_string(alloc)?;
    out.push_str(&quoted)
}
