//! Kinds that are built of their children: what is refused before them, and what is wanted.

ghost use Rattle.std.specs.Prelude.{◌≡◌, ◌≤◌, ◌<◌, ◌^◌, false, ◌+◌, length, map, Some, None, IfOk, IfErr, IfSome, MatchResult};
ghost use Rattle.vx_aggregate.specs.AggregateView.{aggregate};
ghost use Rattle.vx_model.specs.Ty.{Ty, primitive};
ghost use Rattle.vx_model.specs.TyView.{ty};
ghost use Rattle.vx_session.specs.Aggregates.{all_named};
ghost use Rattle.vx_session.specs.Views.{context as context_of};
ghost use Rattle.vx_session.specs.Kinds.{build_list as list_built, element_type as type_of_elements, build_dict as dict_built, build_stats as stats_built, build_zoned as zoned_built, build_zones as zones_built};
ghost use Rattle.vx_layout_tree.specs.declared.error.LayoutError.TheVariants.{OutOfMemory};
ghost use Rattle.vx_layout_tree.specs.KidsView.{layout_kids};
ghost use Rattle.vx_layout_shape.specs.Shape.{validity_count};
ghost use Rattle.vx_layout_build.specs.OpenView.{Opens, head_of, pair_kids, list_kids, column_kids, column_made, one_alone, all_built, wanted_depths};
ghost use Rattle.vx_layout_build.specs.PartsView.{parts_of, one_depth, children_depth};
ghost use Rattle.vx_layout_tree.specs.Views.{Fails};

use crate::checks::{
    dict_metadata, has_children, has_rows, known_aggregates, list_metadata, stats_metadata,
    zoned_metadata,
};
use crate::one_child::{OneChild, two};
use crate::open::{Frame, Open, RowsRule, Wanted, pair_of, standing, triple_of};
use bytes::Bytes;
use std::alloc::{AllocError, Global};
use vx_aggregate::{AggregateFn, aggregate_stats_table_dtype, legacy_stats_table_dtype};
use vx_layout_tree::{LayoutChildren, LayoutError, LayoutHead, LayoutParts, ZonedLayout};
use vx_metadata::DictLayoutMetadata;
use vx_model::{DType, Nullability, PType};
use vx_session::LayoutBuildContext;

#[tactic(auto, using(crate::proofs::OpenSteps::dict_rules))]
pub(crate) fn open_dict(
    alloc: Global,
    parts: LayoutParts,
    metadata: &Bytes,
) -> Result<Open, LayoutError>
    ensures { Opens result (dict_built (parts_of parts) metadata.now) (children_depth parts.children) }
{
    match dict_metadata(alloc, metadata) {
        Ok(dict) => {
            let rows = RowsRule::Same(parts.row_count);
            let (head, wanted) = both(alloc, parts, codes_type(&dict), rows)?;
            let frame = Frame::Dict(head, dict.all_values_referenced);
            Ok(Open { frame, wanted })
        }
        Err(error) => {
            drop(parts);
            Err(error)
        }
    }
}

/// The head of the parts, and both children, of which the first is of the type of the parts.
fn both(
    alloc: Global,
    parts: LayoutParts,
    second_type: DType,
    rows: RowsRule,
) -> Result<(LayoutHead, Vec<Wanted>), LayoutError>
    ensures head { IfOk result (λ r. r.0 ≡ head_of parts) }
    ensures children { IfOk result (λ r. pair_kids (layout_kids parts.children) (ty parts.dtype) (ty second_type) rows ≡ all_built r.1.items) }
    ensures depth { IfOk result (λ r. wanted_depths r.1.items ≤ children_depth parts.children) }
    ensures refused { IfErr result (λ e. Fails e (pair_kids (layout_kids parts.children) (ty parts.dtype) (ty second_type) rows)) }
{
    let head = LayoutHead {
        row_count: parts.row_count,
        dtype: parts.dtype,
        segment_ids: parts.segment_ids,
    };
    let Ok(first_type) = head.dtype.clone() else {
        drop((head, parts.children, second_type));
        return Err(LayoutError::OutOfMemory);
    };
    match pair_of(alloc, parts.children, first_type, second_type, rows) {
        Ok(wanted) => Ok((head, wanted)),
        Err(error) => {
            drop(head);
            Err(error)
        }
    }
}

fn codes_type(dict: &DictLayoutMetadata) -> DType
    ensures { ty result ≡ primitive dict.now.codes_ptype dict.now.is_nullable_codes }
{
    let nullability = if dict.is_nullable_codes {
        Nullability::Nullable
    } else {
        Nullability::NonNullable
    };
    DType::Primitive(dict.codes_ptype, nullability)
}

#[tactic(auto, using(crate::proofs::OpenSteps::stats_rules))]
pub(crate) fn open_stats(
    alloc: Global,
    parts: LayoutParts,
    metadata: &Bytes,
) -> Result<Open, LayoutError>
    ensures { Opens result (stats_built (parts_of parts) metadata.now) (children_depth parts.children) }
{
    match stats_metadata(alloc, metadata) {
        Ok(stats) => {
            let Ok(table) = legacy_stats_table_dtype(alloc, &parts.dtype, stats.stats()) else {
                drop(parts);
                return Err(LayoutError::OutOfMemory);
            };
            let (head, wanted) = both(alloc, parts, table, RowsRule::Any)?;
            let Ok(kept) = Vec::from_slice(alloc, stats.stats()) else {
                drop(head);
                return Err(LayoutError::OutOfMemory);
            };
            let frame = Frame::LegacyStats(head, stats.zone_len(), kept);
            Ok(Open { frame, wanted })
        }
        Err(error) => {
            drop(parts);
            Err(error)
        }
    }
}

#[tactic(auto, using(crate::proofs::OpenSteps::list_rules))]
pub(crate) fn open_list(
    alloc: Global,
    parts: LayoutParts,
    metadata: &Bytes,
) -> Result<Open, LayoutError>
    ensures { Opens result (list_built (parts_of parts) metadata.now) (children_depth parts.children) }
{
    match list_metadata(alloc, metadata) {
        Ok(offsets) => {
            if !parts.dtype.is_list() {
                drop(parts);
                return Err(LayoutError::NotAList);
            }
            let ends = offsets_type(offsets.offsets_ptype);
            let (head, wanted) = list_wanted(alloc, parts, ends)?;
            let frame = Frame::List(head);
            Ok(Open { frame, wanted })
        }
        Err(error) => {
            drop(parts);
            Err(error)
        }
    }
}

/// The head of a list's parts, and its children.
fn list_wanted(
    alloc: Global,
    parts: LayoutParts,
    ends: DType,
) -> Result<(LayoutHead, Vec<Wanted>), LayoutError>
    ensures head { IfOk result (λ r. r.0 ≡ head_of parts) }
    ensures children { IfOk result (λ r. list_kids (layout_kids parts.children) (ty parts.dtype) (ty ends) parts.row_count ≡ all_built r.1.items) }
    ensures depth { IfOk result (λ r. wanted_depths r.1.items ≤ children_depth parts.children) }
    ensures count { IfOk result (λ r. length r.1.items ≡ 2 + validity_count (ty parts.dtype)) }
    ensures refused { IfErr result (λ e. Fails e (list_kids (layout_kids parts.children) (ty parts.dtype) (ty ends) parts.row_count)) }
{
    let head = LayoutHead {
        row_count: parts.row_count,
        dtype: parts.dtype,
        segment_ids: parts.segment_ids,
    };
    match list_children(alloc, parts.children, &head.dtype, ends, head.row_count) {
        Ok(wanted) => Ok((head, wanted)),
        Err(error) => {
            drop(head);
            Err(error)
        }
    }
}

#[tactic(auto, using(vx_model::proofs::Views::view_rules))]
fn offsets_type(ptype: PType) -> DType
    ensures { ty result ≡ primitive ptype false }
{
    DType::Primitive(ptype, Nullability::NonNullable)
}

fn list_children(
    alloc: Global,
    children: LayoutChildren,
    dtype: &DType,
    ends: DType,
    rows: u64,
) -> Result<Vec<Wanted>, LayoutError>
    ensures { MatchResult result
        (λ v. (list_kids (layout_kids children) (ty dtype.now) (ty ends) rows ≡ all_built v.items) × (wanted_depths v.items ≤ children_depth children) × (length v.items ≡ 2 + validity_count (ty dtype.now)))
        (λ e. Fails e (list_kids (layout_kids children) (ty dtype.now) (ty ends) rows)) }
{
    let Ok(elements) = element_type(dtype).clone() else {
        drop((children, ends));
        return Err(LayoutError::OutOfMemory);
    };
    if dtype.is_nullable() {
        triple_of(alloc, children, elements, ends, rows)
    } else {
        pair_of(alloc, children, elements, ends, RowsRule::OneMore(rows))
    }
}

/// The type of a list's elements; another type itself.
#[tactic(auto, using(vx_model::proofs::Views::view_rules))]
fn element_type(dtype: &DType) -> &DType
    ensures { ty result.now ≡ type_of_elements (ty dtype.now) }
{
    match dtype {
        DType::List(items, _) => items,
        DType::Bool(_) | DType::Primitive(..) | DType::Utf8(_) | DType::Binary(_) => dtype,
        DType::Struct(..) | DType::Extension(_) => dtype,
    }
}

pub(crate) fn open_zoned(
    alloc: Global,
    within: &LayoutBuildContext,
    parts: LayoutParts,
    metadata: &Bytes,
) -> Result<Open, LayoutError>
    ensures { Opens result (zoned_built (context_of within.now) (parts_of parts) metadata.now) (children_depth parts.children) }
{
    match read_zones(alloc, within, &parts, metadata) {
        Ok((zone_len, aggregates)) => open_zones(alloc, parts, metadata, zone_len, aggregates),
        Err(error) => {
            drop(parts);
            Err(error)
        }
    }
}

/// The zone length and the aggregates that the metadata tells, where the parts may be zones of a table.
#[tactic(auto, using(crate::proofs::OpenSteps::zoned_rules))]
fn read_zones(
    alloc: Global,
    within: &LayoutBuildContext,
    parts: &LayoutParts,
    metadata: &Bytes,
) -> Result<(u32, Option<Vec<AggregateFn>>), LayoutError>
    ensures exact { IfOk result (λ r. zoned_built (context_of within.now) (parts_of parts.now) metadata.now ≡ zones_built (parts_of parts.now) metadata.now r.0 (all_named r.1)) }
    ensures count { IfOk result (λ r. length (layout_kids parts.now.children) ≡ 2) }
    ensures few { IfOk result (λ r. IfSome r.1 (λ v. length v.items < 2 ^ 32)) }
    ensures refused { IfErr result (λ e. Fails e (zoned_built (context_of within.now) (parts_of parts.now) metadata.now)) }
{
    let zoned = zoned_metadata(alloc, metadata)?;
    has_children(&parts.children, 2)?;
    has_rows(parts.children.child_row_count(0) as u128, parts.row_count)?;
    let aggregates = known_aggregates(alloc, within, &zoned.specs)?;
    Ok((zoned.zone_len, aggregates))
}

/// Zones of a table of the aggregates, where all are known.
fn open_zones(
    alloc: Global,
    parts: LayoutParts,
    metadata: &Bytes,
    zone_len: u32,
    aggregates: Option<Vec<AggregateFn>>,
) -> Result<Open, LayoutError>
    requires count { length (layout_kids parts.children) ≡ 2 }
    requires few { IfSome aggregates (λ v. length v.items < 2 ^ 32) }
    ensures { Opens result (zones_built (parts_of parts) metadata.now zone_len (all_named aggregates)) (children_depth parts.children) }
{
    match aggregates {
        Some(aggregates) => open_table(alloc, parts, metadata, zone_len, aggregates),
        None => open_unread(alloc, parts, metadata, zone_len),
    }
}

/// Zones of a table of the aggregates.
#[tactic(auto, using(crate::proofs::OpenSteps::table_rules))]
fn open_table(
    alloc: Global,
    parts: LayoutParts,
    metadata: &Bytes,
    zone_len: u32,
    aggregates: Vec<AggregateFn>,
) -> Result<Open, LayoutError>
    requires count { length (layout_kids parts.children) ≡ 2 }
    requires few { length aggregates.items < 2 ^ 32 }
    ensures { Opens result (zones_built (parts_of parts) metadata.now zone_len (Some (map aggregate aggregates.items))) (children_depth parts.children) }
{
    let _ = metadata;
    let Ok(table) = aggregate_stats_table_dtype(alloc, &parts.dtype, &aggregates) else {
        drop(parts);
        return Err(LayoutError::OutOfMemory);
    };
    let (head, wanted) = both(alloc, parts, table, RowsRule::Any)?;
    let frame = Frame::Zoned(head, zone_len, aggregates);
    Ok(Open { frame, wanted })
}

/// Zones of a table that isn't read: only the column is built.
#[tactic(auto, using(crate::proofs::OpenSteps::unread_rules))]
fn open_unread(
    alloc: Global,
    parts: LayoutParts,
    metadata: &Bytes,
    zone_len: u32,
) -> Result<Open, LayoutError>
    requires { length (layout_kids parts.children) ≡ 2 }
    ensures { Opens result (zones_built (parts_of parts) metadata.now zone_len None) (children_depth parts.children) }
{
    let _ = zone_len;
    let Ok(metadata) = metadata.clone() else {
        drop(parts);
        return Err(LayoutError::OutOfMemory);
    };
    let head = LayoutHead {
        row_count: parts.row_count,
        dtype: parts.dtype,
        segment_ids: parts.segment_ids,
    };
    match column_of(alloc, parts.children, &head.dtype) {
        Ok((wanted, zones)) => {
            let frame = Frame::Unread(head, metadata, zones);
            Ok(Open { frame, wanted })
        }
        Err(error) => {
            drop((head, metadata));
            Err(error)
        }
    }
}

/// The first child, which is to be built, and the second as it stands.
#[tactic(auto, using(crate::proofs::OpenSteps::column_rules))]
fn column_of(
    alloc: Global,
    children: LayoutChildren,
    dtype: &DType,
) -> Result<(Vec<Wanted>, LayoutChildren), LayoutError>
    requires { length (layout_kids children) ≡ 2 }
    ensures { MatchResult result
        (λ r. ((t : Ty) → column_kids (layout_kids children) (ty dtype.now) t ≡ column_made r.0.items t r.1) × (wanted_depths r.0.items ≤ children_depth children))
        (λ e. e ≡ OutOfMemory) }
{
    let (column, zones) = two(children)?;
    let Ok(wanted) = column_wanted(alloc, column, dtype) else {
        drop(zones);
        return Err(LayoutError::OutOfMemory);
    };
    let zones = standing(alloc, zones)?;
    Ok((wanted, zones))
}

/// The child as one of the type, alone.
#[tactic(auto, using(crate::proofs::OpenSteps::column_rules))]
fn column_wanted(alloc: Global, child: OneChild, dtype: &DType) -> Result<Vec<Wanted>, AllocError>
    ensures built { IfOk result (λ v. all_built v.items ≡ one_alone child (ty dtype.now)) }
    ensures depth { IfOk result (λ v. wanted_depths v.items ≡ one_depth child) }
{
    let Ok(dtype) = dtype.clone() else {
        drop(child);
        return Err(AllocError);
    };
    let column = Wanted {
        child,
        dtype,
        rows: RowsRule::Any,
    };
    Ok(vec![in alloc; column]?)
}
