//! Which zones a predicate rules out.

ghost use Rattle.std.specs.Prelude.{◌≡◌, if◌then◌else◌, IsTrue};
ghost use Rattle.vx_hash.specs.XxHash3.{xxhash3_64};
ghost use Rattle.vx_model.specs.TyView.{ty};
ghost use Rattle.vx_model.specs.TreeView.{val};
ghost use Rattle.vx_model.specs.ValueData.{is_row_value};
ghost use Rattle.vx_zone_spec.specs.Pruning.{predicate_fits, ruled_out, null_count_is};
ghost use Rattle.vx_zone_map.specs.PredicateView.{predicate_data};
ghost use Rattle.vx_zone_map.specs.Comparisons.{comparison_data, turned};
ghost use Rattle.vx_zone_map.specs.Columns.{entries};

use crate::comparison::{Comparison, Relation, turned};
use crate::predicate::Predicate;
use crate::zone::{Test, Zone, some_passes};
use vx_model::Value;

/// Whether the zone's record rules the predicate out, or where it is negated its opposite.
#[tactic(auto, using(crate::proofs::RuleSteps::rule_rules))]
pub(crate) fn rules_out(predicate: &Predicate, negated: bool, zone: Zone<'_>) -> bool
    requires { IsTrue (predicate_fits (ty zone.dtype.now) (predicate_data predicate.now)) }
    ensures { result ≡ ruled_out xxhash3_64 (ty zone.entry.dtype.now) (entries zone.entry.place zone.entry.columns.now) zone.entry.rows (turned negated (predicate_data predicate.now)) }
{
    match predicate {
        Predicate::Eq(v) => comparison_ruled_out(turned(negated, Comparison::Eq), v, zone),
        Predicate::NotEq(v) => comparison_ruled_out(turned(negated, Comparison::NotEq), v, zone),
        Predicate::Lt(v) => comparison_ruled_out(turned(negated, Comparison::Lt), v, zone),
        Predicate::LtEq(v) => comparison_ruled_out(turned(negated, Comparison::LtEq), v, zone),
        Predicate::Gt(v) => comparison_ruled_out(turned(negated, Comparison::Gt), v, zone),
        Predicate::GtEq(v) => comparison_ruled_out(turned(negated, Comparison::GtEq), v, zone),
        Predicate::IsNull => nulls_ruled_out(negated, zone),
        Predicate::IsNotNull => nulls_ruled_out(!negated, zone),
        Predicate::And(a, b) => {
            if negated {
                rules_out(a, true, zone) && rules_out(b, true, zone)
            } else {
                rules_out(a, false, zone) || rules_out(b, false, zone)
            }
        }
        Predicate::Or(a, b) => {
            if negated {
                rules_out(a, true, zone) || rules_out(b, true, zone)
            } else {
                rules_out(a, false, zone) && rules_out(b, false, zone)
            }
        }
        Predicate::Not(inner) => rules_out(inner, !negated, zone),
    }
}

/// Of being null, or where it is negated of not being null.
#[tactic(auto, using(crate::proofs::RuleSteps::null_rules))]
fn nulls_ruled_out(negated: bool, zone: Zone<'_>) -> bool
    ensures { result ≡ null_count_is (if negated then zone.entry.rows else 0) (entries zone.entry.place zone.entry.columns.now) }
{
    let rows = if negated { zone.rows } else { 0 };
    some_passes(zone, Test::Nulls(rows))
}

#[tactic(auto, using(crate::proofs::RuleSteps::comparison_rules))]
fn comparison_ruled_out(comparison: Comparison, literal: &Value, zone: Zone<'_>) -> bool
    requires { IsTrue (is_row_value (ty zone.dtype.now) (val literal.now)) }
    ensures { result ≡ ruled_out xxhash3_64 (ty zone.entry.dtype.now) (entries zone.entry.place zone.entry.columns.now) zone.entry.rows (comparison_data comparison (val literal.now)) }
{
    let nulls = Test::Nulls(zone.rows);
    match comparison {
        Comparison::Eq => {
            some_passes(zone, Test::Upper(Relation::Below, literal))
                || some_passes(zone, Test::Lower(Relation::Above, literal))
                || some_passes(zone, Test::Lacks(literal))
                || some_passes(zone, nulls)
        }
        Comparison::NotEq => {
            some_passes(zone, Test::Upper(Relation::Same, literal))
                && some_passes(zone, Test::Lower(Relation::Same, literal))
                || some_passes(zone, nulls)
        }
        Comparison::Lt => {
            some_passes(zone, Test::Lower(Relation::AtLeast, literal)) || some_passes(zone, nulls)
        }
        Comparison::LtEq => {
            some_passes(zone, Test::Lower(Relation::Above, literal)) || some_passes(zone, nulls)
        }
        Comparison::Gt => {
            some_passes(zone, Test::Upper(Relation::AtMost, literal)) || some_passes(zone, nulls)
        }
        Comparison::GtEq => {
            some_passes(zone, Test::Upper(Relation::Below, literal)) || some_passes(zone, nulls)
        }
    }
}
