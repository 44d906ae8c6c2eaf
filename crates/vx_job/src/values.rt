//! The values at the keys of a job.

ghost use Rattle.std.specs.Prelude.{◌≡◌};
ghost use Rattle.serde_json.specs.View.{view};
ghost use Rattle.vx_model.specs.declared.encoding.EncodingId.{EncodingId};
ghost use Rattle.vx_json.specs.Values.{all, at, whole};
ghost use Rattle.vx_session.specs.Ids.{aggregate_ids};
ghost use Rattle.vx_encodings.specs.AllEncodings.{all_encodings};
ghost use Rattle.vx_job.specs.JobParts.{first_named, encoding_of, encodings_of, is_among, id_of, aggregates_of, next_of, faults_of, distinct};
ghost use Rattle.vx_job.specs.JobView.{faults_view, ids_view};
ghost use Rattle.vx_json.specs.Views.{Gives};

use crate::faults::Faults;
use serde_json::Value;
use std::alloc::Global;
use vx_aggregate::{AggregateFn, SpecError};
use vx_json::{JsonError, has_members, read_items, read_numbers, read_u64, value_at};
use vx_model::{ArrayContext, EncodingId, Text};

/// The number of the first segment.
#[tactic(auto, unfolding(crate::specs::JobParts::next_of, vx_json::specs::Values::whole_below))]
pub(crate) fn read_next(value: &Value) -> Result<u64, JsonError>
    ensures { Gives (λ n. n) result (next_of (view value.now)) }
{
    let number = read_u64(value)?;
    if number > 4_294_967_296 {
        return Err(JsonError::Wrong);
    }
    Ok(number)
}

/// The encoding of that name.
fn encoding_named(name: &str) -> Option<EncodingId>
    ensures { result ≡ first_named name.now all_encodings }
{
    EncodingId::from_id(name)
}

#[tactic(auto, unfolding(crate::specs::JobParts::encoding_of))]
fn read_encoding(value: &Value) -> Result<EncodingId, JsonError>
    ensures { Gives (λ e. e) result (encoding_of (view value.now)) }
{
    let Some(name) = value.as_str() else {
        return Err(JsonError::Wrong);
    };
    match encoding_named(name) {
        Some(id) => Ok(id),
        None => Err(JsonError::Wrong),
    }
}

#[tactic(auto, using(vx_json::proofs::Items::item_rules), unfolding(vx_json::specs::Values::all))]
fn read_ids(alloc: Global, value: &Value) -> Result<Vec<EncodingId>, JsonError>
    ensures { Gives (λ v. v.items) result (all encoding_of (view value.now)) }
{
    let items = read_items(value)?;
    let mut ids = Vec::with_capacity(alloc, items.len())?;
    for item in items {
        ids.push(read_encoding(item)?)?;
    }
    Ok(ids)
}

/// The ids, where none stands twice.
#[tactic(auto, using(crate::proofs::Names::context_rules), unfolding(crate::specs::JobParts::distinct))]
fn in_context(ids: Vec<EncodingId>) -> Result<ArrayContext, JsonError>
    ensures { Gives (λ c. c) result (distinct ids.items) }
{
    match ArrayContext::try_new(ids) {
        Ok(context) => Ok(context),
        Err(_) => Err(JsonError::Wrong),
    }
}

#[tactic(auto, unfolding(crate::specs::JobParts::encodings_of))]
pub(crate) fn read_encodings(alloc: Global, value: &Value) -> Result<ArrayContext, JsonError>
    ensures { Gives (λ c. c) result (encodings_of (view value.now)) }
{
    in_context(read_ids(alloc, value)?)
}

/// Whether an aggregate has this id.
#[tactic(auto, using(crate::proofs::Aggregates::id_rules))]
fn is_aggregate(name: &str) -> bool
    ensures { result ≡ is_among name.now aggregate_ids }
{
    match AggregateFn::from_spec(name, &[]) {
        Ok(_) | Err(SpecError::Options) => true,
        Err(SpecError::UnknownAggregate) => false,
    }
}

#[tactic(auto, unfolding(crate::specs::JobParts::id_of))]
fn read_aggregate_id(alloc: Global, value: &Value) -> Result<Text, JsonError>
    ensures { Gives (λ t. t) result (id_of (view value.now)) }
{
    let Some(name) = value.as_str() else {
        return Err(JsonError::Wrong);
    };
    if !is_aggregate(name) {
        return Err(JsonError::Wrong);
    }
    Ok(Text::from_str(alloc, name)?)
}

#[tactic(auto, using(vx_json::proofs::Items::item_rules), unfolding(vx_json::specs::Values::all))]
fn read_aggregate_ids(alloc: Global, value: &Value) -> Result<Vec<Text>, JsonError>
    ensures { Gives (λ v. v.items) result (all id_of (view value.now)) }
{
    let items = read_items(value)?;
    let mut ids = Vec::with_capacity(alloc, items.len())?;
    for item in items {
        ids.push(read_aggregate_id(alloc, item)?)?;
    }
    Ok(ids)
}

/// Ids, or null for no limit.
#[tactic(auto, unfolding(crate::specs::JobParts::aggregates_of, vx_json::specs::Values::or_null))]
pub(crate) fn read_aggregates(alloc: Global, value: &Value) -> Result<Option<Vec<Text>>, JsonError>
    ensures { Gives ids_view result (aggregates_of (view value.now)) }
{
    match value {
        Value::Null => Ok(None),
        Value::Bool(_) | Value::Number(_) | Value::String(_) | Value::Array(_) | Value::Object(_) =>
            Ok(Some(read_aggregate_ids(alloc, value)?)),
    }
}

#[tactic(auto, unfolding(vx_json::specs::Values::at))]
fn numbers_at(alloc: Global, value: &Value, key: &str) -> Result<Vec<u64>, JsonError>
    ensures { Gives (λ v. v.items) result (at (all whole) key.now (view value.now)) }
{
    read_numbers(alloc, value_at(value, key)?)
}

#[tactic(auto, unfolding(crate::specs::JobParts::faults_of))]
pub(crate) fn read_faults(alloc: Global, value: &Value) -> Result<Faults, JsonError>
    ensures { Gives faults_view result (faults_of (view value.now)) }
{
    if !has_members(value, 3) {
        return Err(JsonError::Wrong);
    }
    let source = numbers_at(alloc, value, "source")?;
    let sink = numbers_at(alloc, value, "sink")?;
    let compress = numbers_at(alloc, value, "compress")?;
    Ok(Faults {
        source,
        sink,
        compress,
    })
}
