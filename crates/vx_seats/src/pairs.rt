ghost use Rattle.std.specs.Prelude.{ℕ, List, [], Option, None};
ghost use Rattle.vx_seats.specs.History.{Pair};

use std::marker::Brand;

/// What all columns of a write may write, how many there are, and what their sink was at first: for contracts alone.
/// Who makes a shared sink picks it.
pub trait Pairs {
    /// Which bytes may be written at which path.
    ghost pairs: { List Pair };

    /// How many columns there are.
    ghost columns: { ℕ };

    /// The sink's next number.
    ghost first: { ℕ };

    /// Its segments, where it tells them.
    ghost told: { Option (List (List ℕ)) };

    /// Its count of faults.
    ghost faults: { ℕ };

    /// Whether the append after so many others may fail.
    ghost may_fail: { ℕ → Type 0 };

    /// Of a borrowed sink the name of the borrow.
    ghost borrow: { ℕ };
}

impl Pairs for Brand {
    ghost pairs = { [] };

    ghost columns = { 0 };

    ghost first = { 0 };

    ghost told = { None };

    ghost faults = { 0 };

    ghost may_fail = { λ _. ⊥ };

    ghost borrow = { 0 };
}
