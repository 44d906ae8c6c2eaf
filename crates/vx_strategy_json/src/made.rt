//! Strategies of parts that were read. What a constructor refuses is wrong. A part stays in its box until a constructor
//! takes it.

ghost use Rattle.std.specs.Prelude.{◌≡◌, map, Some, false};
ghost use Rattle.vx_strategy.specs.FlatViews.{default_flat};
ghost use Rattle.vx_strategy_options.specs.OptionViews.{block_options, dict_options, zoned_options};
ghost use Rattle.vx_strategy.specs.NodeViews.{list_way, table_way};
ghost use Rattle.vx_strategy.specs.PairWays.{named_way, path_way};
ghost use Rattle.vx_strategy.specs.StrategyView.{strategy_data};
ghost use Rattle.vx_strategy_spec.specs.StrategyData.{coded, listed, tabled, no_wraps};
ghost use Rattle.vx_strategy_json.specs.Forms.{in_blocks, in_bytes, in_images, in_zones, with_fields, without_lists, with_lists, with_overrides};
ghost use Rattle.vx_strategy_json.specs.Views.{Gives, list_wraps};

use crate::error::StrategyError;
use std::alloc::Global;
use vx_field_path::FieldPath;
use vx_model::Text;
use vx_strategy::{
    BufferedStrategy, CompressingStrategy, DictLayoutOptions, DictStrategy, ListLayoutStrategy,
    ListWrapper, RepartitionStrategy, RepartitionWriterOptions, Strategy, StructStrategy,
    TableStrategy, ZonedLayoutOptions, ZonedStrategy,
};

pub(crate) fn boxed(alloc: Global, strategy: Strategy) -> Result<Box<Strategy>, StrategyError>
    ensures { Gives (λ b. strategy_data b.value) result (Some (strategy_data strategy)) }
{
    Ok(Box::new(alloc, strategy)?)
}

#[tactic(auto, using(crate::proofs::Refused::block_rules))]
pub(crate) fn in_blocks(
    alloc: Global,
    options: RepartitionWriterOptions,
    child: Box<Strategy>,
) -> Result<Strategy, StrategyError>
    ensures { Gives strategy_data result (in_blocks (block_options options) (strategy_data child.value)) }
{
    Ok(RepartitionStrategy::new(alloc, Box::into_inner(child), options)?.into_strategy())
}

pub(crate) fn in_bytes(
    alloc: Global,
    child: Box<Strategy>,
    size: u64,
) -> Result<Strategy, StrategyError>
    ensures { Gives strategy_data result (Some (in_bytes (strategy_data child.value) size)) }
{
    Ok(BufferedStrategy::new(alloc, Box::into_inner(child), size)?.into_strategy())
}

#[tactic(auto, using(crate::proofs::Refused::concurrency_rules))]
pub(crate) fn in_images(
    alloc: Global,
    child: Box<Strategy>,
    which: u32,
    concurrency: u64,
) -> Result<Strategy, StrategyError>
    ensures { Gives strategy_data result (in_images (strategy_data child.value) which concurrency) }
{
    let strategy = CompressingStrategy::new(alloc, Box::into_inner(child), which)?;
    Ok(strategy.with_concurrency(concurrency)?.into_strategy())
}

#[tactic(auto, using(crate::proofs::Refused::zone_rules))]
pub(crate) fn in_zones(
    alloc: Global,
    options: ZonedLayoutOptions,
    child: Box<Strategy>,
    stats: Box<Strategy>,
) -> Result<Strategy, StrategyError>
    ensures { Gives strategy_data result (in_zones (zoned_options options) (strategy_data child.value) (strategy_data stats.value)) }
{
    let child = Box::into_inner(child);
    Ok(ZonedStrategy::new(alloc, child, Box::into_inner(stats), options)?.into_strategy())
}

pub(crate) fn with_codes(
    alloc: Global,
    options: DictLayoutOptions,
    probe: u32,
    codes: Box<Strategy>,
    values: Box<Strategy>,
    fallback: Box<Strategy>,
) -> Result<Strategy, StrategyError>
    ensures { Gives strategy_data result (Some (coded (dict_options options.constraints probe) (strategy_data codes.value) (strategy_data values.value) (strategy_data fallback.value))) }
{
    let codes = Box::into_inner(codes);
    let values = Box::into_inner(values);
    let fallback = Box::into_inner(fallback);
    Ok(DictStrategy::new(alloc, codes, values, fallback, options, probe)?.into_strategy())
}

/// Elements and offsets; the rest is flat.
fn with_columns(
    alloc: Global,
    elements: Box<Strategy>,
    offsets: Box<Strategy>,
) -> Result<ListLayoutStrategy, StrategyError>
    ensures { Gives list_way result (Some (listed (strategy_data elements.value) (strategy_data offsets.value) default_flat default_flat)) }
{
    let Ok(list) = ListLayoutStrategy::default(alloc) else {
        drop((elements, offsets));
        return Err(StrategyError::OutOfMemory);
    };
    let Ok(list) = list.with_elements(alloc, Box::into_inner(elements)) else {
        drop(offsets);
        return Err(StrategyError::OutOfMemory);
    };
    Ok(list.with_offsets(alloc, Box::into_inner(offsets))?)
}

pub(crate) fn listed(
    alloc: Global,
    elements: Box<Strategy>,
    offsets: Box<Strategy>,
    validity: Box<Strategy>,
    fallback: Box<Strategy>,
) -> Result<Strategy, StrategyError>
    ensures { Gives strategy_data result (Some (listed (strategy_data elements.value) (strategy_data offsets.value) (strategy_data validity.value) (strategy_data fallback.value))) }
{
    let Ok(list) = with_columns(alloc, elements, offsets) else {
        drop((validity, fallback));
        return Err(StrategyError::OutOfMemory);
    };
    let Ok(list) = list.with_validity(alloc, Box::into_inner(validity)) else {
        drop(fallback);
        return Err(StrategyError::OutOfMemory);
    };
    Ok(
        list.with_fallback(alloc, Box::into_inner(fallback))?
            .into_strategy(),
    )
}

pub(crate) fn with_fields(
    alloc: Global,
    validity: Box<Strategy>,
    default: Box<Strategy>,
    fields: Vec<(Text, Strategy)>,
) -> Result<Strategy, StrategyError>
    ensures { Gives strategy_data result (Some (with_fields (strategy_data validity.value) (strategy_data default.value) (map named_way fields.items))) }
{
    let validity = Box::into_inner(validity);
    let Ok(strategy) = StructStrategy::new(alloc, validity, Box::into_inner(default)) else {
        drop(fields);
        return Err(StrategyError::OutOfMemory);
    };
    Ok(strategy.with_field_writers(alloc, fields)?.into_strategy())
}

/// A table that doesn't lay out lists.
fn with_paths(
    alloc: Global,
    validity: Box<Strategy>,
    leaf: Box<Strategy>,
    overrides: Vec<(FieldPath, Strategy)>,
) -> Result<TableStrategy, StrategyError>
    ensures { Gives table_way result (without_lists (strategy_data validity.value) (strategy_data leaf.value) (map path_way overrides.items)) }
{
    let validity = Box::into_inner(validity);
    let leaf = Box::into_inner(leaf);
    let Ok(table) = TableStrategy::new(alloc, validity, leaf) else {
        drop(overrides);
        return Err(StrategyError::OutOfMemory);
    };
    Ok(table.with_field_writers(alloc, overrides)?)
}

fn with_lists(
    alloc: Global,
    table: TableStrategy,
    lists: Option<Vec<ListWrapper>>,
) -> Result<Strategy, StrategyError>
    requires { table_way table ≡ tabled table.validity.item table.leaf.item table.overrides.item false no_wraps }
    ensures { Gives strategy_data result (with_lists table.validity.item table.leaf.item table.overrides.item (list_wraps lists)) }
{
    match lists {
        None => Ok(table.into_strategy()),
        Some(wrappers) => Ok(
            table
                .with_list_layout_factory(alloc, wrappers)?
                .into_strategy(),
        ),
    }
}

pub(crate) fn with_overrides(
    alloc: Global,
    validity: Box<Strategy>,
    leaf: Box<Strategy>,
    overrides: Vec<(FieldPath, Strategy)>,
    lists: Option<Vec<ListWrapper>>,
) -> Result<Strategy, StrategyError>
    ensures { Gives strategy_data result (with_overrides (strategy_data validity.value) (strategy_data leaf.value) (map path_way overrides.items) (list_wraps lists)) }
{
    match with_paths(alloc, validity, leaf, overrides) {
        Ok(table) => with_lists(alloc, table, lists),
        Err(error) => {
            drop(lists);
            Err(error)
        }
    }
}
