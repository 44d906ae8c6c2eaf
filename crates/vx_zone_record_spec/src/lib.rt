//! Which aggregates a column can hold, and records with a value for each. Definitions alone.
#![tactic(auto)]
