//! Predicates over a column.

ghost use Rattle.std.specs.Prelude.{◌≡◌};
ghost use Rattle.vx_model.specs.TyView.{ty};
ghost use Rattle.vx_model.specs.TreeView.{val};
ghost use Rattle.vx_model.specs.ValueData.{is_null_value};
ghost use Rattle.vx_zone_spec.specs.Pruning.{is_literal, predicate_fits};
ghost use Rattle.vx_zone_map.specs.PredicateView.{predicate_data};

use vx_bloom::has_order;
use vx_model::{DType, Value, is_row_value};

/// What is asked of each row of a column: comparisons with a literal, whether it is null, and what these are joined to.
/// A comparison with a null row is unknown, and a row matches only where the whole is true of it.
#[derive(Debug, Drop)]
pub enum Predicate {
    Eq(Value),
    NotEq(Value),
    Lt(Value),
    LtEq(Value),
    Gt(Value),
    GtEq(Value),
    IsNull,
    IsNotNull,
    And(Box<Predicate>, Box<Predicate>),
    Or(Box<Predicate>, Box<Predicate>),
    Not(Box<Predicate>),
}

/// Whether each comparison is of a type whose values are compared, with a value of it that isn't null.
#[tactic(auto, using(crate::proofs::PredicateSteps::predicate_rules))]
pub(crate) fn fits(predicate: &Predicate, column: &DType) -> bool
    ensures { result ≡ predicate_fits (ty column.now) (predicate_data predicate.now) }
{
    match predicate {
        Predicate::Eq(literal) | Predicate::NotEq(literal) => is_literal(column, literal),
        Predicate::Lt(literal) | Predicate::LtEq(literal) => is_literal(column, literal),
        Predicate::Gt(literal) | Predicate::GtEq(literal) => is_literal(column, literal),
        Predicate::IsNull | Predicate::IsNotNull => true,
        Predicate::And(a, b) | Predicate::Or(a, b) => fits(a, column) && fits(b, column),
        Predicate::Not(inner) => fits(inner, column),
    }
}

fn is_literal(column: &DType, value: &Value) -> bool
    ensures { result ≡ is_literal (ty column.now) (val value.now) }
{
    has_order(column) && !is_null(value) && is_row_value(column, value)
}

fn is_null(value: &Value) -> bool
    ensures { result ≡ is_null_value (val value.now) }
{
    matches!(value, Value::Null)
}
