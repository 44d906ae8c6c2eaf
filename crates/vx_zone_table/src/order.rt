//! Which columns stay, and in which order.

ghost use Rattle.std.specs.Prelude.{◌≡◌, not, map, OnOk};
ghost use Rattle.std.specs.Ordering.{nat_cmp};
ghost use Rattle.std.specs.Cmp.Lexicographic.{slice_cmp};
ghost use Rattle.vx_model.specs.Words.{all_by};
ghost use Rattle.vx_model.specs.ValueData.{is_null_value};
ghost use Rattle.vx_model.specs.TreeView.{val};
ghost use Rattle.vx_zone_spec.specs.ZoneTable.{some_values, ordered};
ghost use Rattle.vx_zone_table.specs.Columns.{filled_column};

use crate::cells::all_null;
use crate::column::TableColumn;
use std::alloc::AllocError;
use std::cmp::Ordering;

/// Leaves columns that are null in every zone out.
pub(crate) fn drop_null_columns(table: &mut Vec<TableColumn>)
    ensures { map filled_column table.new.items ≡ some_values (map filled_column table.old.items) }
{
    table.retain(|column| has_values(column));
}

fn has_values(column: &TableColumn) -> bool
    ensures { result ≡ not (all_by is_null_value (map val column.now.values.items)) }
{
    !all_null(&column.values)
}

/// Sorts the columns by their names, in time by `n log n` of the columns; two of one name stay as they stand.
pub(crate) fn sort_columns(table: &mut Vec<TableColumn>) -> Result<(), AllocError>
    ensures { OnOk result (map filled_column table.new.items ≡ ordered (map filled_column table.old.items)) }
{
    table.sort_by(|a, b| by_name(a, b))?;
    Ok(())
}

fn by_name(a: &TableColumn, b: &TableColumn) -> Ordering
    ensures { result ≡ slice_cmp nat_cmp a.now.name b.now.name }
{
    a.name.as_str().cmp(b.name.as_str())
}
