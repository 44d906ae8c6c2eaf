//! Comparisons, and how a bound stands to a literal.

ghost use Rattle.std.specs.Prelude.{◌≡◌};
ghost use Rattle.vx_zone_record.specs.Scalars.{scalar_value};
ghost use Rattle.vx_zone_map.specs.Tests.{stands};
ghost use Rattle.vx_zone_map.specs.Comparisons.{turned_comparison, opposite_comparison};

use vx_zone_record::{Scalar, is_at_most};

/// The comparisons of a predicate.
#[derive(Clone, Copy)]
pub(crate) enum Comparison {
    Eq,
    NotEq,
    Lt,
    LtEq,
    Gt,
    GtEq,
}

/// How a bound stands to a literal.
#[derive(Clone, Copy)]
pub(crate) enum Relation {
    Below,
    AtMost,
    Same,
    AtLeast,
    Above,
}

/// The comparison, or where it is negated its opposite.
pub(crate) fn turned(negated: bool, comparison: Comparison) -> Comparison
    ensures { result ≡ turned_comparison negated comparison }
{
    if negated {
        opposite(comparison)
    } else {
        comparison
    }
}

fn opposite(comparison: Comparison) -> Comparison
    ensures { result ≡ opposite_comparison comparison }
{
    match comparison {
        Comparison::Eq => Comparison::NotEq,
        Comparison::NotEq => Comparison::Eq,
        Comparison::Lt => Comparison::GtEq,
        Comparison::LtEq => Comparison::Gt,
        Comparison::Gt => Comparison::LtEq,
        Comparison::GtEq => Comparison::Lt,
    }
}

/// Whether the bound stands so to the literal; never where one of the two is null, or they are of two kinds.
#[tactic(auto, using(crate::proofs::OrderSteps::order_rules))]
pub(crate) fn stands(relation: Relation, bound: Scalar<'_>, literal: Scalar<'_>) -> bool
    ensures { result ≡ stands relation (scalar_value literal.entry) (scalar_value bound.entry) }
{
    match relation {
        Relation::Below => is_at_most(bound, literal) && !is_at_most(literal, bound),
        Relation::AtMost => is_at_most(bound, literal),
        Relation::Same => is_at_most(bound, literal) && is_at_most(literal, bound),
        Relation::AtLeast => is_at_most(literal, bound),
        Relation::Above => is_at_most(literal, bound) && !is_at_most(bound, literal),
    }
}
