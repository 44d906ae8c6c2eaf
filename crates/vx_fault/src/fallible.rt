//! Objects whose calls may fail.

ghost use Rattle.std.specs.Prelude.{ℕ};

/// An object whose calls may fail, and that counts how often they did.
pub trait Fallible {
    /// How often a call failed. The count never falls, and stays at the greatest u64.
    ghost faults: { Self → ℕ };

    /// Whether the call after so many others may fail.
    ghost may_fail: { Self → ℕ → Type 0 };

    /// Whether the call after so many others must fail.
    ghost must_fail: { Self → ℕ → Type 0 } = { λ _ _. ⊥ };
}

/// What is lent fails as its owner does.
impl<T: Fallible> Fallible for &mut T {
    ghost faults = { λ x. T.faults x.now };

    ghost may_fail = { λ x k. T.may_fail x.now k };

    ghost must_fail = { λ x k. T.must_fail x.now k };
}
