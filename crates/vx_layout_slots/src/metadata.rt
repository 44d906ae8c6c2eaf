//! What a layout keeps in bytes besides its children, by its kind.

ghost use Rattle.std.specs.Prelude.{◌≡◌, ◌<◌, ◌^◌, map, length, IfOk, IsTrue, Option, List, ℕ, Bool};
ghost use Rattle.vx_aggregate_spec.specs.Aggregate.{spec};
ghost use Rattle.vx_layout_spec.specs.LayoutTree.{children_of};
ghost use Rattle.vx_aggregate.specs.AggregateView.{aggregate as aggregate_of};
ghost use Rattle.vx_aggregate.specs.Stats.{stat_number};
ghost use Rattle.vx_metadata.specs.Kept.{integers_of, metadata_bytes, second_type, stats_bytes};
ghost use Rattle.vx_metadata.specs.Spelled.{flat_bytes, dict_bytes, zoned_bytes};
ghost use Rattle.vx_model.specs.Ty.{nullable};
ghost use Rattle.vx_model.specs.TyView.{ty};
ghost use Rattle.vx_metadata.specs.Values.{are_in_order};
ghost use Rattle.vx_metadata.specs.Views.{spec_of};
ghost use Rattle.vx_layout_tree.specs.LayoutView.{layout_data};

use std::alloc::{AllocError, Global};
use vx_aggregate::{AggregateFn, Stat};
use vx_layout_tree::{KindRef, Layout, integers_in};
use vx_metadata::{
    AggregateSpec, DictLayoutMetadata, LegacyStatsMetadata, ListLayoutMetadata, ZonedMetadata,
};
use vx_model::{Blob, PType, Text};

/// The bytes that a reader of the layout needs besides its children.
#[tactic(auto, using(crate::proofs::MetadataSteps::second_rules))]
pub(crate) fn metadata_of(alloc: Global, layout: &Layout) -> Result<Vec<u8>, AllocError>
    ensures { IfOk result (λ v. v.items ≡ metadata_bytes (layout_data layout.now)) }
{
    match layout.by_kind() {
        KindRef::Flat(flat) => flat_metadata(alloc, flat.array_tree()),
        KindRef::Chunked(_) => Ok(Vec::new(alloc)),
        KindRef::Struct(_) => Ok(Vec::new(alloc)),
        KindRef::List(children) => {
            let (offsets, _) = second_integers(children);
            ListLayoutMetadata::new(offsets).serialize(alloc)
        }
        KindRef::Dict(children, all_values_referenced) => {
            dict_metadata(alloc, second_integers(children), all_values_referenced)
        }
        KindRef::Zoned(_, zone_len, aggregates) => zoned_metadata(alloc, zone_len, aggregates),
        KindRef::Unread(_, metadata, _) => Vec::from_slice(alloc, metadata.as_slice()),
        KindRef::LegacyStats(_, zone_len, stats) => stats_metadata(alloc, zone_len, stats),
        KindRef::Foreign(_, _, metadata) => Vec::from_slice(alloc, metadata.as_slice()),
    }
}

/// The array tree behind a 1, where it is kept.
fn flat_metadata(alloc: Global, array_tree: &Option<Blob>) -> Result<Vec<u8>, AllocError>
    ensures { IfOk result (λ v. v.items ≡ flat_bytes array_tree.now) }
{
    let mut out = Vec::new(alloc);
    if let Some(tree) = array_tree {
        out.push(1)?;
        out.extend_from_slice(tree.as_slice())?;
    }
    Ok(out)
}

/// The integers of the second child, and whether they are nullable: of a list's offsets, of a dictionary's codes.
#[tactic(auto, using(crate::proofs::MetadataSteps::second_rules))]
fn second_integers(children: &[Layout]) -> (PType, bool)
    ensures integers { result.0 ≡ integers_of (second_type (map layout_data children.now)) }
    ensures nullable { result.1 ≡ nullable (second_type (map layout_data children.now)) }
{
    match children.get(1) {
        Some(child) => (integers_in(child.dtype()), child.dtype().is_nullable()),
        None => (PType::U64, false),
    }
}

fn dict_metadata(
    alloc: Global,
    codes: (PType, bool),
    all_values_referenced: bool,
) -> Result<Vec<u8>, AllocError>
    ensures { IfOk result (λ v. v.items ≡ dict_bytes (record { codes_ptype = codes.0; is_nullable_codes = codes.1; all_values_referenced = all_values_referenced })) }
{
    let metadata = DictLayoutMetadata {
        codes_ptype: codes.0,
        is_nullable_codes: codes.1,
        all_values_referenced,
    };
    metadata.serialize(alloc)
}

#[tactic(auto, using(crate::proofs::MetadataSteps::zoned_rules))]
fn zoned_metadata(
    alloc: Global,
    zone_len: u32,
    aggregates: &[AggregateFn],
) -> Result<Vec<u8>, AllocError>
    requires { length aggregates.now < 2 ^ 32 }
    ensures { IfOk result (λ v. v.items ≡ zoned_bytes (record { zone_len = zone_len; specs = map spec (map aggregate_of aggregates.now) })) }
{
    let specs = specs_of(alloc, aggregates)?;
    ZonedMetadata { zone_len, specs }.serialize(alloc)
}

/// The id and the options of each aggregate.
#[tactic(auto, using(crate::proofs::MetadataSteps::spec_rules))]
fn specs_of(alloc: Global, aggregates: &[AggregateFn]) -> Result<Vec<AggregateSpec>, AllocError>
    ensures { IfOk result (λ v. map spec_of v.items ≡ map spec (map aggregate_of aggregates.now)) }
{
    let mut specs = Vec::new(alloc);
    for aggregate in aggregates {
        specs.push(one_spec(alloc, aggregate)?)?;
    }
    Ok(specs)
}

fn one_spec(alloc: Global, aggregate: &AggregateFn) -> Result<AggregateSpec, AllocError>
    ensures { IfOk result (λ s. spec_of s ≡ spec (aggregate_of aggregate.now)) }
{
    Ok(AggregateSpec {
        id: Text::from_str(alloc, aggregate.id())?,
        options: Blob::from(aggregate.options(alloc)?),
    })
}

#[tactic(auto, using(crate::proofs::MetadataSteps::stat_rules))]
fn stats_metadata(alloc: Global, zone_len: u32, stats: &[Stat]) -> Result<Vec<u8>, AllocError>
    requires { IsTrue (are_in_order stats.now) }
    ensures { IfOk result (λ v. v.items ≡ stats_bytes zone_len (map stat_number stats.now)) }
{
    let stats = Vec::from_slice(alloc, stats)?;
    LegacyStatsMetadata::new(zone_len, stats).serialize(alloc)
}
