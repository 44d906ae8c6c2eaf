//! Layouts that constructors make.

ghost use Rattle.std.specs.Prelude.{◌≤◌, length, IsTrue, IfOk};
ghost use Rattle.vx_metadata.specs.Values.{are_in_order};

use crate::given::{NUMBERS, TEXTS, dtype_in, leaf_with, leaves, place, push};
use crate::nodes::children_in;
use anyhow::{Result, bail};
use bytes::Bytes;
use std::alloc::{AllocError, Global};
use std::num::NonZeroU32;
use vx_aggregate::{AggregateFn, Stat, aggregate_stats_table_dtype, legacy_stats_table_dtype};
use vx_case_lines::{cut, number};
use vx_encodings::all_encodings;
use vx_layout_tree::{
    ChunkedLayout, DictLayout, FlatLayout, ForeignLayout, Layout, LegacyStatsLayout, ListLayout,
    StructLayout, ZonedLayout,
};
use vx_metadata::are_in_order;
use vx_model::{DType, Nullability, StructField, StructFields, Text};

/// The layout that constructors make by these words.
pub(crate) fn layout_in(alloc: Global, text: &str) -> Result<Layout> {
    match cut(text) {
        ("foreign", rest) => foreign(alloc, rest),
        (kind, rest) => of_kind(alloc, kind, rest),
    }
}

fn of_kind(alloc: Global, kind: &str, rest: &str) -> Result<Layout> {
    match kind {
        "flat" => {
            let (word, tree) = cut(rest);
            leaf_with(alloc, word, tree)
        }
        "chunked" => chunked(alloc, rest),
        "struct" => fields(alloc, Nullability::NonNullable, rest),
        "struct?" => fields(alloc, Nullability::Nullable, rest),
        "list" => list(alloc, Nullability::NonNullable, rest),
        "list?" => list(alloc, Nullability::Nullable, rest),
        "dict" => dict(alloc, rest),
        "zoned" => zoned(alloc, rest),
        "stats" => statistics(alloc, rest),
        _ => bail!("no such kind"),
    }
}

fn chunked(alloc: Global, text: &str) -> Result<Layout> {
    let (rows, rest) = cut(text);
    let children = children_in(alloc, rest)?;
    Ok(ChunkedLayout::new(number(rows), NUMBERS, children)?.into_layout())
}

fn fields(alloc: Global, nullability: Nullability, text: &str) -> Result<Layout> {
    let (rows, rest) = cut(text);
    let (field, rest) = cut(rest);
    let dtype = record_of(alloc, field, nullability)?;
    match leaves(alloc, rest) {
        Ok(leaves) => Ok(StructLayout::new(number(rows), dtype, leaves)?.into_layout()),
        Err(error) => {
            drop(dtype);
            Err(error)
        }
    }
}

/// A struct with the field a of the type.
fn record_of(alloc: Global, word: &str, nullability: Nullability) -> Result<DType, AllocError> {
    let name = Text::from_str(alloc, "a")?;
    let dtype = dtype_in(word);
    let fields = vec![in alloc; StructField { name, dtype }]?;
    Ok(DType::Struct(StructFields { fields }, nullability))
}

fn list(alloc: Global, nullability: Nullability, text: &str) -> Result<Layout> {
    let (elements, rest) = cut(text);
    let dtype = DType::List(Box::new(alloc, dtype_in(elements))?, nullability);
    match leaves(alloc, rest) {
        Ok(leaves) => list_above(alloc, dtype, leaves),
        Err(error) => {
            drop(dtype);
            Err(error)
        }
    }
}

/// The list of elements, offsets and, where there is a third leaf, a validity.
fn list_above(alloc: Global, dtype: DType, mut leaves: Vec<Layout>) -> Result<Layout> {
    if leaves.len() < 2 {
        drop(leaves);
        drop(dtype);
        bail!("a list without offsets");
    }
    let elements = leaves.remove(0);
    let offsets = leaves.remove(0);
    let validity = leaves.pop();
    drop(leaves);
    Ok(ListLayout::new(alloc, dtype, elements, offsets, validity)?.into_layout())
}

/// The dictionary of values and codes.
fn dict(alloc: Global, text: &str) -> Result<Layout> {
    let mut leaves = leaves(alloc, text)?;
    if leaves.len() < 2 {
        drop(leaves);
        bail!("a dictionary without codes");
    }
    let values = leaves.remove(0);
    let codes = leaves.remove(0);
    drop(leaves);
    Ok(DictLayout::new(alloc, values, codes)?.into_layout())
}

fn zoned(alloc: Global, text: &str) -> Result<Layout> {
    let (column, rest) = cut(text);
    let (zones, aggregate) = cut(rest);
    let maxima = maxima(alloc, aggregate)?;
    let column = leaf_with(alloc, column, "")?;
    match zones_of(alloc, column.dtype(), &maxima, zones) {
        Ok(zones) => {
            Ok(ZonedLayout::try_new(alloc, column, zones, NonZeroU32::MIN, maxima)?.into_layout())
        }
        Err(error) => {
            drop(column);
            Err(error)
        }
    }
}

fn maxima(alloc: Global, word: &str) -> Result<Vec<AggregateFn>, AllocError>
    ensures { IfOk result (λ v. length v.items ≤ 1) }
{
    if word == "max" {
        Ok(vec![in alloc; AggregateFn::Max]?)
    } else {
        Ok(Vec::new(alloc))
    }
}

fn zones_of(alloc: Global, column: &DType, maxima: &[AggregateFn], text: &str) -> Result<Layout> {
    let (rows, segment) = place(text);
    let encodings = all_encodings(alloc)?;
    let table = aggregate_stats_table_dtype(alloc, column, maxima)?;
    Ok(FlatLayout::new(rows, table, segment, encodings).into_layout())
}

fn statistics(alloc: Global, text: &str) -> Result<Layout> {
    let (column, rest) = cut(text);
    let (zones, stat) = cut(rest);
    let maxima = older_maxima(alloc, stat)?;
    let column = leaf_with(alloc, column, "")?;
    match older_zones_of(alloc, column.dtype(), &maxima, zones) {
        Ok(zones) => Ok(LegacyStatsLayout::new(alloc, column, zones, 2, maxima)?.into_layout()),
        Err(error) => {
            drop(column);
            Err(error)
        }
    }
}

fn older_maxima(alloc: Global, word: &str) -> Result<Vec<Stat>>
    ensures { IfOk result (λ v. IsTrue (are_in_order v.items)) }
{
    let mut maxima = Vec::new(alloc);
    if word == "max" {
        maxima.push(Stat::Max)?;
    }
    if !are_in_order(&maxima) {
        drop(maxima);
        bail!("statistics out of order");
    }
    Ok(maxima)
}

fn older_zones_of(alloc: Global, column: &DType, maxima: &[Stat], text: &str) -> Result<Layout> {
    let (rows, segment) = place(text);
    let encodings = all_encodings(alloc)?;
    let table = legacy_stats_table_dtype(alloc, column, maxima)?;
    Ok(FlatLayout::new(rows, table, segment, encodings).into_layout())
}

/// Four rows of an unknown kind above other layouts.
fn foreign(alloc: Global, text: &str) -> Result<Layout> {
    let id = Text::from_str(alloc, "x.y")?;
    let metadata = Bytes::copy_from_slice(alloc, &[1])?;
    let children = below(alloc, text)?;
    Ok(ForeignLayout::new(4, TEXTS, Vec::new(alloc), children, id, metadata).into_layout())
}

fn below(alloc: Global, text: &str) -> Result<Vec<Layout>> {
    let mut layouts = Vec::new(alloc);
    match push_below(alloc, &mut layouts, text) {
        Ok(()) => Ok(layouts),
        Err(error) => {
            drop(layouts);
            Err(error)
        }
    }
}

fn push_below(alloc: Global, layouts: &mut Vec<Layout>, text: &str) -> Result<()> {
    if text.is_empty() {
        return Ok(());
    }
    for text in text.split(" / ") {
        let (kind, rest) = cut(text);
        push(layouts, of_kind(alloc, kind, rest)?)?;
    }
    Ok(())
}
