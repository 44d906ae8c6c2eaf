//! Options of strategies.

ghost use Rattle.std.specs.Prelude.{◌≡◌, map, option_map, pos};
ghost use Rattle.std.specs.Int.NonZero.{non_zero_u32_get};
ghost use Rattle.serde_json.specs.View.{view};
ghost use Rattle.vx_aggregate.specs.AggregateView.{aggregate};
ghost use Rattle.vx_strategy.specs.FlatViews.{flat_options};
ghost use Rattle.vx_strategy_options.specs.OptionViews.{block_options, zoned_options, dict_options, asked};
ghost use Rattle.vx_json.specs.Values.{all, at, or_null};
ghost use Rattle.vx_strategy_json.specs.Options.{named_aggregate, numbered_aggregate, bound, bounded, aggregate_of, flat_of, blocks_of, zones_of, dict_of};
ghost use Rattle.vx_strategy_json.specs.Forms.{blocks_around, bytes_around};
ghost use Rattle.vx_strategy_json.specs.Views.{wrap};
ghost use Rattle.vx_json.specs.Views.{Gives};

use serde_json::Value;
use std::alloc::Global;
use std::num::NonZeroU32;
use vx_aggregate::AggregateFn;
use vx_json::{
    JsonError, flag_at, has_members, optional_at, read_items, read_pair, read_u32, u16_at, u32_at,
    u64_at, value_at,
};
use vx_strategy::{
    DictLayoutConstraints, FlatLayoutStrategy, ListWrapper, RepartitionWriterOptions,
    ZonedLayoutOptions,
};

/// What is recorded of zones. A text, or a pair of a text and a number from 1 to 2^32 - 1.
#[tactic(auto, unfolding(crate::specs::Options::aggregate_of))]
pub fn read_aggregate(value: &Value) -> Result<AggregateFn, JsonError>
    ensures { Gives aggregate result (aggregate_of (view value.now)) }
{
    match value {
        Value::String(name) => named(name.as_str()),
        Value::Array(_) => read_bounded(value),
        Value::Null | Value::Bool(_) | Value::Number(_) | Value::Object(_) => Err(JsonError::Wrong),
    }
}

#[tactic(auto, unfolding(crate::specs::Options::named_aggregate))]
fn named(name: &str) -> Result<AggregateFn, JsonError>
    ensures { Gives aggregate result (named_aggregate name.now) }
{
    match name {
        "max" => Ok(AggregateFn::Max),
        "min" => Ok(AggregateFn::Min),
        "null_count" => Ok(AggregateFn::NullCount),
        "sum" => Ok(AggregateFn::Sum),
        _ => Err(JsonError::Wrong),
    }
}

#[tactic(auto, unfolding(crate::specs::Options::numbered_aggregate))]
fn numbered(name: &str, number: NonZeroU32) -> Result<AggregateFn, JsonError>
    ensures { Gives aggregate result (numbered_aggregate name.now (non_zero_u32_get number)) }
{
    match name {
        "bounded_max" => Ok(AggregateFn::BoundedMax(number)),
        "bounded_min" => Ok(AggregateFn::BoundedMin(number)),
        "bloom_filter" => Ok(AggregateFn::Bloom(number)),
        _ => Err(JsonError::Wrong),
    }
}

#[tactic(auto, unfolding(crate::specs::Options::bound))]
fn read_bound(value: &Value) -> Result<NonZeroU32, JsonError>
    ensures { Gives non_zero_u32_get result (bound (view value.now)) }
{
    match NonZeroU32::new(read_u32(value)?) {
        Some(bound) => Ok(bound),
        None => Err(JsonError::Wrong),
    }
}

#[tactic(auto, unfolding(crate::specs::Options::bounded, vx_json::specs::Values::pair))]
fn read_bounded(value: &Value) -> Result<AggregateFn, JsonError>
    ensures { Gives aggregate result (bounded (view value.now)) }
{
    let (name, number) = read_pair(value)?;
    match name.as_str() {
        Some(name) => numbered(name, read_bound(number)?),
        None => Err(JsonError::Wrong),
    }
}

#[tactic(auto, using(vx_json::proofs::Items::item_rules), unfolding(vx_json::specs::Values::all))]
fn read_aggregates(alloc: Global, value: &Value) -> Result<Vec<AggregateFn>, JsonError>
    ensures { Gives (λ v. map aggregate v.items) result (all aggregate_of (view value.now)) }
{
    let items = read_items(value)?;
    let mut aggregates = Vec::with_capacity(alloc, items.len())?;
    for item in items {
        aggregates.push(read_aggregate(item)?)?;
    }
    Ok(aggregates)
}

/// Aggregates, or null.
#[tactic(auto, unfolding(vx_json::specs::Values::or_null))]
fn read_asked(alloc: Global, value: &Value) -> Result<Option<Vec<AggregateFn>>, JsonError>
    ensures { Gives asked result (or_null (all aggregate_of) (view value.now)) }
{
    match value {
        Value::Null => Ok(None),
        Value::Bool(_) | Value::Number(_) | Value::String(_) | Value::Array(_) | Value::Object(_) =>
            Ok(Some(read_aggregates(alloc, value)?)),
    }
}

#[tactic(auto, unfolding(vx_json::specs::Values::at))]
fn asked_at(alloc: Global, value: &Value, key: &str) -> Result<Option<Vec<AggregateFn>>, JsonError>
    ensures { Gives asked result (at (or_null (all aggregate_of)) key.now (view value.now)) }
{
    read_asked(alloc, value_at(value, key)?)
}

#[tactic(auto, unfolding(crate::specs::Options::flat_of))]
pub(crate) fn read_flat(value: &Value) -> Result<FlatLayoutStrategy, JsonError>
    ensures { Gives flat_options result (flat_of (view value.now)) }
{
    if !has_members(value, 2) {
        return Err(JsonError::Wrong);
    }
    let padding = flag_at(value, "padding")?;
    let inline = flag_at(value, "inline")?;
    Ok(FlatLayoutStrategy {
        include_padding: padding,
        inline_array_node: inline,
    })
}

/// The options of blocks; other keys aren't looked at.
#[tactic(auto, unfolding(crate::specs::Options::blocks_of))]
pub(crate) fn read_blocks(value: &Value) -> Result<RepartitionWriterOptions, JsonError>
    ensures { Gives block_options result (blocks_of (view value.now)) }
{
    Ok(RepartitionWriterOptions {
        block_size_minimum: u64_at(value, "minimum")?,
        block_len_multiple: u64_at(value, "rows")?,
        block_size_target: optional_at(value, "target")?,
        canonicalize: flag_at(value, "canonicalize")?,
    })
}

/// The options of zones; other keys aren't looked at.
#[tactic(auto, unfolding(crate::specs::Options::zones_of))]
pub(crate) fn read_zones(alloc: Global, value: &Value) -> Result<ZonedLayoutOptions, JsonError>
    ensures { Gives zoned_options result (zones_of (view value.now)) }
{
    Ok(ZonedLayoutOptions {
        block_size: u64_at(value, "zone")?,
        aggregate_fns: asked_at(alloc, value, "aggregates")?,
        concurrency: u64_at(value, "concurrency")?,
    })
}

/// The options of dictionaries, and the probe; other keys aren't looked at.
#[tactic(auto, unfolding(crate::specs::Options::dict_of))]
pub(crate) fn read_dict(value: &Value) -> Result<(DictLayoutConstraints, u32), JsonError>
    ensures { Gives (λ p. dict_options p.0 p.1) result (dict_of (view value.now)) }
{
    let constraints = DictLayoutConstraints {
        max_bytes: u64_at(value, "max_bytes")?,
        max_len: u16_at(value, "max_len")?,
    };
    Ok((constraints, u32_at(value, "probe")?))
}

#[tactic(auto, unfolding(crate::specs::Forms::blocks_around))]
pub(crate) fn read_grouped_around(value: &Value) -> Result<ListWrapper, JsonError>
    ensures { Gives wrap result (blocks_around (view value.now)) }
{
    if !has_members(value, 4) {
        return Err(JsonError::Wrong);
    }
    Ok(ListWrapper::Repartition(read_blocks(value)?))
}

#[tactic(auto, unfolding(crate::specs::Forms::bytes_around))]
pub(crate) fn read_buffered_around(value: &Value) -> Result<ListWrapper, JsonError>
    ensures { Gives wrap result (bytes_around (view value.now)) }
{
    if !has_members(value, 1) {
        return Err(JsonError::Wrong);
    }
    Ok(ListWrapper::Buffered(u64_at(value, "size")?))
}
