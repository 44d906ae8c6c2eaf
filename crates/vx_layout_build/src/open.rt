//! Layouts whose children are still to be built, and what each child must be.

ghost use Rattle.std.specs.Prelude.{◌≡◌, ◌≤◌, ◌∷◌, [], length, map, IfOk, MatchResult};
ghost use Rattle.vx_model.specs.Ty.{Ty};
ghost use Rattle.vx_model.specs.TyView.{ty};
ghost use Rattle.vx_session.specs.Kinds.{validity_type};
ghost use Rattle.vx_layout_tree.specs.KidsView.{chunks, layout_kids};
ghost use Rattle.vx_layout_tree.specs.LayoutView.{layout_data};
ghost use Rattle.vx_layout_build.specs.OpenView.{rows_ruled, pair_kids, triple_kids, all_built, wanted_depths, framed, fits};
ghost use Rattle.vx_layout_build.specs.PartsView.{one_kid, one_depth, one_built, children_depth};
ghost use Rattle.vx_layout_tree.specs.Views.{Gives, Fails, done};

use crate::checks::has_rows;
use crate::one_child::{OneChild, three, two};
use bytes::Bytes;
use std::alloc::{AllocError, Global};
use vx_aggregate::{AggregateFn, Stat};
use vx_layout_tree::{KindParts, Layout, LayoutChildren, LayoutError, LayoutHead, ViewedChildren};
use vx_model::{DType, Nullability};

/// What the rows of a child must be.
#[derive(Clone, Copy)]
pub(crate) enum RowsRule {
    Any,
    /// So many.
    Same(u64),
    /// One more than this; where this is 0, also none.
    OneMore(u64),
}

/// A child that is to be built, of this type.
#[derive(Drop)]
pub(crate) struct Wanted {
    pub(crate) child: OneChild,
    pub(crate) dtype: DType,
    pub(crate) rows: RowsRule,
}

/// A layout without the children that are to be built.
#[derive(Drop)]
pub(crate) enum Frame {
    List(LayoutHead),
    /// With whether all values are referenced.
    Dict(LayoutHead, bool),
    /// With the zone length, and what the table records.
    Zoned(LayoutHead, u32, Vec<AggregateFn>),
    /// The table isn't read: its metadata, and the table as it was found.
    Unread(LayoutHead, Bytes, LayoutChildren),
    /// With the zone length, and what the table records.
    LegacyStats(LayoutHead, u32, Vec<Stat>),
}

/// A layout whose first children are to be built.
#[derive(Drop)]
pub(crate) struct Open {
    pub(crate) frame: Frame,
    pub(crate) wanted: Vec<Wanted>,
}

impl RowsRule {
    ghost use Rattle.vx_layout_build.specs.OpenView.{rows_ruled};
    ghost use Rattle.vx_layout_tree.specs.Views.{Gives, done};

    pub(crate) fn check(self, rows: u64) -> Result<(), LayoutError>
        ensures { Gives done result (rows_ruled self rows) }
    {
        match self {
            RowsRule::Any => Ok(()),
            RowsRule::Same(needs) => has_rows(rows as u128, needs),
            RowsRule::OneMore(needs) => has_rows(rows.saturating_sub(1) as u128, needs),
        }
    }
}

/// Two children.
#[tactic(auto, using(crate::proofs::OpenSteps::pair_rules))]
pub(crate) fn pair_of(
    alloc: Global,
    children: LayoutChildren,
    first_type: DType,
    second_type: DType,
    rows: RowsRule,
) -> Result<Vec<Wanted>, LayoutError>
    ensures { MatchResult result
        (λ v. (pair_kids (layout_kids children) (ty first_type) (ty second_type) rows ≡ all_built v.items) × (wanted_depths v.items ≤ children_depth children) × (length v.items ≡ 2))
        (λ e. Fails e (pair_kids (layout_kids children) (ty first_type) (ty second_type) rows)) }
{
    match two(children) {
        Ok((first, second)) => {
            let first = Wanted {
                child: first,
                dtype: first_type,
                rows: RowsRule::Any,
            };
            let second = Wanted {
                child: second,
                dtype: second_type,
                rows,
            };
            Ok(vec![in alloc; first, second]?)
        }
        Err(error) => {
            drop((first_type, second_type));
            Err(error)
        }
    }
}

/// Three children, of which the last has these rows and no nulls, and is true or false.
#[tactic(auto, using(crate::proofs::OpenSteps::triple_rules))]
pub(crate) fn triple_of(
    alloc: Global,
    children: LayoutChildren,
    first_type: DType,
    second_type: DType,
    rows: u64,
) -> Result<Vec<Wanted>, LayoutError>
    ensures { MatchResult result
        (λ v. (triple_kids (layout_kids children) (ty first_type) (ty second_type) rows ≡ all_built v.items) × (wanted_depths v.items ≤ children_depth children) × (length v.items ≡ 3))
        (λ e. Fails e (triple_kids (layout_kids children) (ty first_type) (ty second_type) rows)) }
{
    match three(children) {
        Ok((first, second, third)) => {
            let first = Wanted {
                child: first,
                dtype: first_type,
                rows: RowsRule::Any,
            };
            let second = Wanted {
                child: second,
                dtype: second_type,
                rows: RowsRule::OneMore(rows),
            };
            let third = Wanted {
                child: third,
                dtype: flags(),
                rows: RowsRule::Same(rows),
            };
            Ok(vec![in alloc; first, second, third]?)
        }
        Err(error) => {
            drop((first_type, second_type));
            Err(error)
        }
    }
}

/// The type of a validity.
#[tactic(auto, using(vx_model::proofs::Views::view_rules))]
fn flags() -> DType
    ensures { ty result ≡ validity_type }
{
    DType::Bool(Nullability::NonNullable)
}

/// The child as it stands, without a type of its own.
#[tactic(auto, using(crate::proofs::OpenSteps::standing_rules))]
pub(crate) fn standing(alloc: Global, child: OneChild) -> Result<LayoutChildren, AllocError>
    ensures { IfOk result (λ c. (t : Ty) → chunks t c ≡ (one_kid child).stands t ∷ []) }
{
    match child {
        OneChild::Kept(layout) => { Ok(LayoutChildren::Owned(vec![in alloc; layout]?)) }
        OneChild::Node(scope, node) => {
            Ok(LayoutChildren::Viewed(ViewedChildren::new(scope, node.alone(alloc)?)))
        }
    }
}

/// The layout with the built children.
pub(crate) fn with_built(alloc: Global, frame: Frame, built: Vec<Layout>) -> Layout
    requires { fits frame (length built.items) }
    ensures { layout_data result ≡ framed frame (map layout_data built.items) }
{
    match frame {
        Frame::List(head) => Layout::from_parts(alloc, KindParts::List(head, built)),
        Frame::Dict(head, all_values_referenced) => {
            Layout::from_parts(alloc, KindParts::Dict(head, built, all_values_referenced))
        }
        Frame::Zoned(head, zone_len, aggregates) => {
            Layout::from_parts(alloc, KindParts::Zoned(head, built, zone_len, aggregates))
        }
        Frame::Unread(head, metadata, zones) => {
            Layout::from_parts(alloc, KindParts::Unread(head, built, metadata, zones))
        }
        Frame::LegacyStats(head, zone_len, stats) => {
            Layout::from_parts(alloc, KindParts::LegacyStats(head, built, zone_len, stats))
        }
    }
}
