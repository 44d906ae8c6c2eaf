//! Folds over rows, each one walk.

ghost use Rattle.std.specs.Prelude.{◌≡◌, ◌+◌, ◌^◌, ◌<◌, ◌≤◌, ◌+ℤ◌, ◌-ℤ◌, pos, map, IsTrue};
ghost use Rattle.vx_model.specs.Words.{all_by};
ghost use Rattle.vx_zone_spec.specs.Record.{nulls, number_of_value, exact_sum};
ghost use Rattle.vx_zone_spec.specs.ValueOrder.{greatest, least};
ghost use Rattle.vx_zone_record.specs.Scalars.{scalar_value, shallow_rows, is_small};

use crate::row::Row;
use crate::scalar::{Scalar, greater, is_null, lesser, number};

/// The null rows.
#[tactic(auto, using(crate::proofs::FoldSteps::fold_rules))]
pub(crate) fn null_count<R: Row>(rows: &[R]) -> u64
    ensures { result ≡ nulls (map R.seen rows.now) }
{
    let mut count = 0;
    for row in rows {
        if is_null(row.scalar()) {
            count += 1;
        }
    }
    count
}

/// The greatest row that isn't null; null where there is none.
#[tactic(auto, using(crate::proofs::FoldSteps::fold_rules))]
pub(crate) fn greatest<R: Row>(rows: &[R]) -> Scalar<'_>
    ensures { scalar_value result ≡ greatest (shallow_rows R.seen rows.now) }
{
    let mut found = Scalar::Null;
    let mut place = rows.len();
    while place > 0 {
        place -= 1;
        found = greater(rows[place].scalar(), found);
    }
    found
}

/// The least row that isn't null; null where there is none.
#[tactic(auto, using(crate::proofs::FoldSteps::fold_rules))]
pub(crate) fn least<R: Row>(rows: &[R]) -> Scalar<'_>
    ensures { scalar_value result ≡ least (shallow_rows R.seen rows.now) }
{
    let mut found = Scalar::Null;
    let mut place = rows.len();
    while place > 0 {
        place -= 1;
        found = lesser(rows[place].scalar(), found);
    }
    found
}

/// A sum in two parts, so that no part overflows.
#[derive(Clone, Copy)]
pub(crate) struct SumParts {
    /// The sum of the numbers above 0.
    pub(crate) above: u128,
    /// The sum of those below, without their signs.
    pub(crate) below: u128,
}

/// The exact sum of the rows.
pub(crate) fn total<R: Row>(rows: &[R]) -> SumParts
    requires { IsTrue (all_by is_small (map R.seen rows.now)) }
    ensures { pos result.above -ℤ pos result.below ≡ exact_sum (map R.seen rows.now) }
{
    let _count = rows.len();
    let mut sum = SumParts { above: 0, below: 0 };
    for row in rows {
        sum = with_row(sum, row.scalar());
    }
    sum
}

/// The sum with one row more.
#[tactic(auto, using(crate::proofs::FoldSteps::term_rules))]
fn with_row(sum: SumParts, scalar: Scalar<'_>) -> SumParts
    requires small { IsTrue (is_small (scalar_value scalar)) }
    requires room_above { sum.above + 2 ^ 64 < 2 ^ 128 }
    requires room_below { sum.below + 2 ^ 64 < 2 ^ 128 }
    ensures summed { pos result.above -ℤ pos result.below ≡ (pos sum.above -ℤ pos sum.below) +ℤ number_of_value (scalar_value scalar.entry) }
    ensures above { result.above ≤ sum.above + 2 ^ 64 }
    ensures below { result.below ≤ sum.below + 2 ^ 64 }
{
    let term = number(scalar);
    if term >= 0 {
        return SumParts {
            above: sum.above + term as u128,
            below: sum.below,
        };
    }
    SumParts {
        above: sum.above,
        below: sum.below + term.unsigned_abs(),
    }
}
