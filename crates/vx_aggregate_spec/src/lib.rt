//! Aggregates as data: names, options and the type of their values.
#![tactic(auto)]

ghost use Rattle.vx_aggregate_spec.specs.Statements.{SpecsAreRead};
/// An aggregate is read from its spec.
pub fn specs_are_read()
    ensures { SpecsAreRead }
{}
