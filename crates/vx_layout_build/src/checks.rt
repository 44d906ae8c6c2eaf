//! Checks of parts, and metadata as layouts need it.

ghost use Rattle.std.specs.Prelude.{◌≡◌, ◌<◌, ◌^◌, length, map, IfOk, IfSome};
ghost use Rattle.vx_metadata.specs.Reading.{flat_in, list_in, dict_in, zoned_in, legacy_in};
ghost use Rattle.vx_metadata.specs.Views.{kept_tree, the_same, zoned, spec_of};
ghost use Rattle.vx_session.specs.Made.{spelled, has_children as counted, has_rows as rows_counted, all_have_rows as all_rows, one_segment as the_segment};
ghost use Rattle.vx_session.specs.Aggregates.{all_named};
ghost use Rattle.vx_session.specs.Kinds.{nothing_in, read_specs as specs_read};
ghost use Rattle.vx_session.specs.Views.{context};
ghost use Rattle.vx_layout_tree.specs.KidsView.{layout_kids};
ghost use Rattle.vx_layout_tree.specs.LayoutView.{number};
ghost use Rattle.vx_layout_tree.specs.Views.{Gives, done};

use bytes::Bytes;
use std::alloc::Global;
use vx_aggregate::AggregateFn;
use vx_layout_tree::{LayoutChildren, LayoutError};
use vx_metadata::{
    AggregateSpec, DictLayoutMetadata, FlatLayoutMetadata, LegacyStatsMetadata, ListLayoutMetadata,
    MetadataError, ZonedMetadata,
};
use vx_model::{Blob, SegmentId};
use vx_session::{AggregatesError, LayoutBuildContext};

pub(crate) fn has_children(children: &LayoutChildren, needs: u64) -> Result<(), LayoutError>
    ensures { Gives done result (counted needs (layout_kids children.now)) }
{
    let has = children.nchildren();
    if has == needs {
        Ok(())
    } else {
        Err(LayoutError::ChildCount { has, needs })
    }
}

pub(crate) fn has_rows(has: u128, needs: u64) -> Result<(), LayoutError>
    ensures { Gives done result (rows_counted has needs) }
{
    let needs = needs as u128;
    if has == needs {
        Ok(())
    } else {
        Err(LayoutError::RowCount { has, needs })
    }
}

/// Whether each child has these rows.
#[tactic(auto, using(crate::proofs::PartSteps::check_rules))]
pub(crate) fn all_have_rows(children: &LayoutChildren, needs: u64) -> Result<(), LayoutError>
    ensures { Gives done result (all_rows needs (layout_kids children.now)) }
{
    let count = children.nchildren();
    for i in 0..count {
        has_rows(children.child_row_count(i) as u128, needs)?;
    }
    Ok(())
}

/// The segment, where there is just one.
pub(crate) fn one_segment(segment_ids: &[SegmentId]) -> Result<SegmentId, LayoutError>
    ensures { Gives number result (the_segment (map number segment_ids.now)) }
{
    match segment_ids {
        [segment_id] => Ok(*segment_id),
        [] => Err(LayoutError::SegmentCount(0)),
        [_, _, ..] => Err(LayoutError::SegmentCount(segment_ids.len() as u64)),
    }
}

/// Chunked and struct layouts have no metadata.
pub(crate) fn no_metadata(alloc: Global, bytes: &Bytes) -> Result<(), LayoutError>
    ensures { Gives done result (spelled bytes.now (nothing_in bytes.now)) }
{
    match bytes.as_slice() {
        [] => Ok(()),
        [_, ..] => Err(LayoutError::Metadata(Blob::from_slice(alloc, bytes.as_slice())?)),
    }
}

pub(crate) fn flat_metadata(alloc: Global, bytes: &Bytes) -> Result<FlatLayoutMetadata, LayoutError>
    ensures { Gives kept_tree result (spelled bytes.now (flat_in bytes.now)) }
{
    match FlatLayoutMetadata::deserialize(alloc, bytes.as_slice()) {
        Ok(metadata) => Ok(metadata),
        Err(MetadataError::Metadata(kept)) => Err(LayoutError::Metadata(kept)),
        Err(MetadataError::OutOfMemory) => Err(LayoutError::OutOfMemory),
    }
}

pub(crate) fn list_metadata(alloc: Global, bytes: &Bytes) -> Result<ListLayoutMetadata, LayoutError>
    ensures { Gives the_same result (spelled bytes.now (list_in bytes.now)) }
{
    match ListLayoutMetadata::deserialize(alloc, bytes.as_slice()) {
        Ok(metadata) => Ok(metadata),
        Err(MetadataError::Metadata(kept)) => Err(LayoutError::Metadata(kept)),
        Err(MetadataError::OutOfMemory) => Err(LayoutError::OutOfMemory),
    }
}

pub(crate) fn dict_metadata(alloc: Global, bytes: &Bytes) -> Result<DictLayoutMetadata, LayoutError>
    ensures { Gives the_same result (spelled bytes.now (dict_in bytes.now)) }
{
    match DictLayoutMetadata::deserialize(alloc, bytes.as_slice()) {
        Ok(metadata) => Ok(metadata),
        Err(MetadataError::Metadata(kept)) => Err(LayoutError::Metadata(kept)),
        Err(MetadataError::OutOfMemory) => Err(LayoutError::OutOfMemory),
    }
}

pub(crate) fn zoned_metadata(alloc: Global, bytes: &Bytes) -> Result<ZonedMetadata, LayoutError>
    ensures exact { Gives zoned result (spelled bytes.now (zoned_in bytes.now)) }
    ensures few { IfOk result (λ m. length m.specs.items < 2 ^ 32) }
{
    match ZonedMetadata::deserialize(alloc, bytes.as_slice()) {
        Ok(metadata) => Ok(metadata),
        Err(MetadataError::Metadata(kept)) => Err(LayoutError::Metadata(kept)),
        Err(MetadataError::OutOfMemory) => Err(LayoutError::OutOfMemory),
    }
}

pub(crate) fn stats_metadata(
    alloc: Global,
    bytes: &Bytes,
) -> Result<LegacyStatsMetadata, LayoutError>
    ensures { Gives the_same result (spelled bytes.now (legacy_in bytes.now)) }
{
    match LegacyStatsMetadata::deserialize(alloc, bytes.as_slice()) {
        Ok(metadata) => Ok(metadata),
        Err(MetadataError::Metadata(kept)) => Err(LayoutError::Metadata(kept)),
        Err(MetadataError::OutOfMemory) => Err(LayoutError::OutOfMemory),
    }
}

/// The aggregates of the specs; nothing where one is unknown and let through.
#[tactic(auto, using(crate::proofs::OpenSteps::named_rules))]
pub(crate) fn known_aggregates(
    alloc: Global,
    within: &LayoutBuildContext,
    specs: &[AggregateSpec],
) -> Result<Option<Vec<AggregateFn>>, LayoutError>
    ensures exact { Gives all_named result (specs_read (context within.now) (map spec_of specs.now)) }
    ensures count { IfOk result (λ o. IfSome o (λ v. length v.items ≡ length specs.now)) }
{
    match within.read_specs(alloc, specs) {
        Ok(aggregates) => Ok(aggregates),
        Err(AggregatesError::UnknownAggregate(id)) => Err(LayoutError::UnknownAggregate(id)),
        Err(AggregatesError::OutOfMemory) => Err(LayoutError::OutOfMemory),
    }
}
