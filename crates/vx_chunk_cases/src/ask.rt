//! Predicates, and what a zone map answers.

use anyhow::{Context, bail};
use serde_json::Value as Json;
use std::alloc::Global;
use vx_case_lines::{Answer, bytes_of};
use vx_case_objects::{Case, list_in};
use vx_model::{Blob, Text, Value};
use vx_zone_map::{Predicate, ZoneMap};

/// A line a predicate.
pub(crate) fn tell_asked(alloc: Global, answer: &mut Answer, case: Case, map: &ZoneMap) {
    match list_in(case.object, "ask") {
        Ok(asked) => {
            for i in 0..asked.len() {
                write!(answer, "{} {i}: ", case.name);
                tell_one(alloc, answer, map, &asked[i]);
                answer.push_str("\n");
            }
        }
        Err(error) => answer.push_refusal(case.name, error),
    }
}

fn tell_one(alloc: Global, answer: &mut Answer, map: &ZoneMap, asked: &Json) {
    match read_predicate(alloc, asked) {
        Ok(predicate) => {
            match map.prune(alloc, &predicate) {
                Ok(flags) => {
                    push_flags(answer, &flags);
                    drop(flags);
                }
                Err(error) => answer.push(error),
            }
            drop(predicate);
        }
        Err(error) => answer.push(error),
    }
}

fn push_flags(answer: &mut Answer, flags: &[bool]) {
    for i in 0..flags.len() {
        if i > 0 {
            answer.push_str(", ");
        }
        answer.push(flags[i]);
    }
}

/// The predicate of these parts, each behind those that it joins.
fn read_predicate(alloc: Global, asked: &Json) -> anyhow::Result<Predicate> {
    let parts = asked.as_array().context("no list of parts")?;
    let mut stack = Vec::new(alloc);
    match push_parts(alloc, &mut stack, parts) {
        Ok(()) => {
            let last = stack.pop();
            drop(stack);
            last.context("no predicate")
        }
        Err(error) => {
            drop(stack);
            Err(error)
        }
    }
}

fn push_parts(alloc: Global, stack: &mut Vec<Predicate>, parts: &[Json]) -> anyhow::Result<()> {
    for part in parts {
        let made = read_part(alloc, stack, part)?;
        stack.push(made)?;
    }
    Ok(())
}

fn read_part(alloc: Global, stack: &mut Vec<Predicate>, part: &Json) -> anyhow::Result<Predicate> {
    match part.as_str() {
        Some("not") => Ok(Predicate::Not(taken(alloc, stack)?)),
        Some("is_null") => Ok(Predicate::IsNull),
        Some("is_not_null") => Ok(Predicate::IsNotNull),
        Some(word) => joined(alloc, stack, word),
        None => compared(alloc, part),
    }
}

/// Of the words `and` and `or`.
fn joined(alloc: Global, stack: &mut Vec<Predicate>, word: &str) -> anyhow::Result<Predicate> {
    let right = taken(alloc, stack)?;
    match taken(alloc, stack) {
        Ok(left) => Ok(if word == "and" {
            Predicate::And(left, right)
        } else {
            Predicate::Or(left, right)
        }),
        Err(error) => {
            drop(right);
            Err(error)
        }
    }
}

/// The last predicate that no other has taken.
fn taken(alloc: Global, stack: &mut Vec<Predicate>) -> anyhow::Result<Box<Predicate>> {
    match stack.pop() {
        Some(last) => Ok(Box::new(alloc, last)?),
        None => bail!("nothing to join"),
    }
}

/// A pair of a comparison and a literal; `gt_eq` is the comparison that is left.
fn compared(alloc: Global, part: &Json) -> anyhow::Result<Predicate> {
    let [word, literal] = part.as_array().context("no pair")?.as_slice() else {
        bail!("no pair");
    };
    let word = word.as_str().context("no comparison")?;
    let literal = read_literal(alloc, literal)?;
    Ok(match word {
        "eq" => Predicate::Eq(literal),
        "not_eq" => Predicate::NotEq(literal),
        "lt" => Predicate::Lt(literal),
        "lt_eq" => Predicate::LtEq(literal),
        "gt" => Predicate::Gt(literal),
        _ => Predicate::GtEq(literal),
    })
}

fn read_literal(alloc: Global, literal: &Json) -> anyhow::Result<Value> {
    match literal {
        Json::Null => Ok(Value::Null),
        Json::Bool(b) => Ok(Value::Bool(*b)),
        Json::Number(number) => Ok(Value::Int(number.as_i128().context("no whole number")?)),
        Json::String(text) => Ok(Value::Utf8(Text::from_str(alloc, text.as_str())?)),
        Json::Array(items) => read_bytes(alloc, items),
        Json::Object(_) => bail!("no literal"),
    }
}

/// Bytes as hex text in a list; the list without elements where it has none.
fn read_bytes(alloc: Global, items: &[Json]) -> anyhow::Result<Value> {
    let Some(text) = items.first() else {
        return Ok(Value::List(Vec::new(alloc)));
    };
    let bytes = bytes_of(alloc, text.as_str().context("no bytes")?)?;
    Ok(Value::Binary(Blob::from(bytes)))
}
