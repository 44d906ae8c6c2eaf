//! Zone tables as lines.

ghost use Rattle.std.specs.Prelude.{◌≡◌, ◌++◌, string_bytes, OnOk};
ghost use Rattle.vx_model.specs.TyView.{ty};
ghost use Rattle.vx_report.specs.ZoneText.{comma_if, column_names};
ghost use Rattle.vx_report.specs.TableView.{told_table, told_tables};

use crate::row_text::push_rows;
use std::alloc::{AllocError, Global};
use vx_layout_shape::fields_in;
use vx_model::{DType, Value};

/// A zone table that is read: its zone length, its type, and its rows.
#[derive(Debug, Drop)]
pub struct TableRows {
    pub zone_len: u32,
    pub dtype: DType,
    pub rows: Vec<Value>,
}

/// A line a table, with its columns, and below it a line a row.
#[tactic(auto, using(crate::proofs::ZoneSteps::table_rules))]
pub(crate) fn push_tables(
    alloc: Global,
    out: &mut String,
    tables: &[TableRows],
) -> Result<(), AllocError>
    ensures { OnOk result (string_bytes out.new ≡ string_bytes out.old ++ told_tables 0 tables.now) }
{
    for i in 0..tables.len() {
        push_table(alloc, out, i, &tables[i])?;
    }
    Ok(())
}

#[tactic(auto, using(crate::proofs::ZoneSteps::table_rules))]
fn push_table(
    alloc: Global,
    out: &mut String,
    number: usize,
    table: &TableRows,
) -> Result<(), AllocError>
    ensures { OnOk result (string_bytes out.new ≡ string_bytes out.old ++ told_table number table.now) }
{
    write!(out, "table {} zone {}: ", number, table.zone_len)?;
    push_names(out, &table.dtype)?;
    out.push_str("\n")?;
    push_rows(alloc, out, &table.rows)
}

/// The names of the columns, with commas between them.
#[tactic(auto, using(crate::proofs::ZoneSteps::name_rules))]
fn push_names(out: &mut String, dtype: &DType) -> Result<(), AllocError>
    ensures { OnOk result (string_bytes out.new ≡ string_bytes out.old ++ column_names (ty dtype.now)) }
{
    let fields = fields_in(dtype);
    for i in 0..fields.len() {
        push_comma(out, i > 0)?;
        out.push_str(fields[i].name.as_str())?;
    }
    Ok(())
}

fn push_comma(out: &mut String, later: bool) -> Result<(), AllocError>
    ensures { OnOk result (string_bytes out.new ≡ string_bytes out.old ++ comma_if later) }
{
    if later {
        out.push_str(", ")?;
    }
    Ok(())
}
