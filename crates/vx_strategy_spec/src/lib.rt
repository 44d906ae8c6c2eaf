//! Strategies as data: what a walk over one makes, which are admitted, and what a table stands for at a type. Definitions,
//! with their laws.
#![tactic(auto)]
