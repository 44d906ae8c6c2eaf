//! Strategies, and what stands for a table at a type.

use anyhow::bail;
use serde_json::Value;
use std::alloc::{AllocError, Global};
use vx_case_lines::{Answer, halves};
use vx_chunk_json::read_type;
use vx_model::{DType, Text};
use vx_strategy::{
    BuildError, DictLayoutOptions, FlatLayoutStrategy, RepartitionWriterOptions, Strategy,
    StructStrategy, ZonedLayoutOptions, dict_layout_supported,
};
use vx_strategy_json::read_strategy;
use vx_table_dispatch::dispatch;

pub(crate) fn flat() -> Strategy {
    FlatLayoutStrategy::default().into_strategy()
}

/// Of blocks of at most 8192 rows that aim at so many bytes.
pub(crate) fn tell_block(answer: &mut Answer, dtype: &DType, target: &str) {
    let blocks = RepartitionWriterOptions {
        block_size_minimum: 0,
        block_len_multiple: 8192,
        block_size_target: target.parse().ok(),
        canonicalize: false,
    };
    let rows = blocks.effective_block_len(dtype);
    let dictionary = dict_layout_supported(dtype);
    write!(answer, "{rows} rows, dictionary {dictionary}");
}

pub(crate) fn tell_defaults(answer: &mut Answer) {
    let most = DictLayoutOptions::default().constraints.max_len;
    let rows = ZonedLayoutOptions::default().block_size;
    write!(answer, "dictionary {most}, zone {rows}");
}

/// A strategy of structs that has a writer of the fields of this name.
fn by_name(alloc: Global, name: &str) -> Result<Strategy, BuildError> {
    let name = Text::from_str(alloc, name)?;
    let made = StructStrategy::new(alloc, flat(), flat())?;
    Ok(made.with_field_writer(alloc, name, flat())?.into_strategy())
}

fn kind(strategy: &Strategy) -> &'static str {
    match strategy {
        Strategy::Flat(_) => "flat",
        Strategy::Chunked(_) => "chunked",
        Strategy::Struct(_) => "struct",
        Strategy::List(_) => "list",
        Strategy::Dict(_) => "dict",
        Strategy::Zoned(_) => "zoned",
        Strategy::Repartition(_) => "repartition",
        Strategy::Buffered(_) => "buffered",
        Strategy::Collect(_) => "collect",
        Strategy::Compressing(_) => "compress",
        Strategy::Table(_) => "table",
    }
}

/// What a struct writes the field by, or what a wrapper wraps.
fn within<'a>(strategy: &'a Strategy, field: &Text) -> Option<&'a Strategy> {
    match strategy {
        Strategy::Struct(it) => Some(it.writer(field).strategy()),
        Strategy::Zoned(it) => Some(it.child().strategy()),
        Strategy::Repartition(it) => Some(it.child().strategy()),
        Strategy::Buffered(it) => Some(it.child().strategy()),
        Strategy::Flat(_) | Strategy::Chunked(_) | Strategy::List(_) | Strategy::Dict(_) => None,
        Strategy::Collect(_) | Strategy::Compressing(_) | Strategy::Table(_) => None,
    }
}

/// Of the words `copy` and `dispatch`.
pub(crate) fn tell(alloc: Global, answer: &mut Answer, word: &str, of: &Value, given: &str) {
    match read_strategy(alloc, of) {
        Ok(strategy) => {
            if word == "copy" {
                push_copied(alloc, answer, &strategy);
            } else {
                push_dispatched(alloc, answer, &strategy, given);
            }
            drop(strategy);
        }
        Err(error) => answer.push(error),
    }
}

/// Of a copy.
pub(crate) fn tell_field(alloc: Global, answer: &mut Answer, name: &str) {
    match by_name(alloc, name) {
        Ok(strategy) => {
            match strategy.clone() {
                Ok(copy) => {
                    push_kinds(alloc, answer, &copy, name);
                    drop(copy);
                }
                Err(error) => answer.push(error),
            }
            drop(strategy);
        }
        Err(error) => answer.push(error),
    }
}

/// The kind of the strategy, and whether a copy has its text.
fn push_copied(alloc: Global, answer: &mut Answer, strategy: &Strategy) {
    match strategy.clone() {
        Ok(copy) => {
            answer.push_str(kind(strategy));
            answer.push_str(", ");
            answer.push_given(have_same_text(alloc, strategy, &copy));
            drop(copy);
        }
        Err(error) => answer.push(error),
    }
}

fn have_same_text(alloc: Global, one: &Strategy, other: &Strategy) -> Result<bool, AllocError> {
    let text = format!(in alloc; "{one:?}")?;
    Ok(format!(in alloc; "{other:?}")?.as_str() == text.as_str())
}

/// What the table stands for at a type.
fn push_dispatched(alloc: Global, answer: &mut Answer, table: &Strategy, given: &str) {
    let (of, field) = halves(given);
    match at_type(alloc, table, of) {
        Ok(strategy) => {
            push_kinds(alloc, answer, &strategy, field);
            drop(strategy);
        }
        Err(error) => answer.push(error),
    }
}

fn at_type(alloc: Global, table: &Strategy, of: &str) -> anyhow::Result<Strategy> {
    let Strategy::Table(table) = table else {
        bail!("no table");
    };
    let dtype = dtype(alloc, of)?;
    let strategy = dispatch(table, &dtype);
    drop(dtype);
    Ok(strategy?)
}

fn dtype(alloc: Global, json: &str) -> anyhow::Result<DType> {
    let value = Value::from_str(alloc, json)?;
    let dtype = read_type(alloc, &value);
    drop(value);
    Ok(dtype?)
}

/// The kind of the strategy, and of what stands within.
fn push_kinds(alloc: Global, answer: &mut Answer, strategy: &Strategy, field: &str) {
    answer.push_str(kind(strategy));
    match Text::from_str(alloc, field) {
        Ok(field) => {
            if let Some(inner) = within(strategy, &field) {
                answer.push_str(", ");
                answer.push_str(kind(inner));
            }
            drop(field);
        }
        Err(error) => answer.push(error),
    }
}
