//! What the columns of a struct write each by itself, against the plan of them all; and what stands of it in a sink that they
//! share. Each function here has an empty body; its contract is a law, proved for every plan.
#![tactic(auto)]

ghost use Rattle.vx_column_plan.specs.Columns.{StructIsColumns};
ghost use Rattle.vx_column_plan.specs.Shared.{ColumnsAreAllowed, WholeIsPlanned, ColumnsAreLaid, HistoryIsOfPlan};

/// A struct's plan is that of its columns, beside each other.
pub fn structs_are_columns()
    ensures { StructIsColumns }
{}

/// Each pair of a column may be written.
pub fn columns_are_allowed()
    ensures { ColumnsAreAllowed }
{}

/// A history of all pairs has the plan's segments and numbers, and numbers the columns' layouts.
pub fn wholes_are_planned()
    ensures whole { WholeIsPlanned }
    ensures laid { ColumnsAreLaid }
{}

/// Whatever was written is of the plan, in ascending order.
pub fn histories_are_of_plans()
    ensures { HistoryIsOfPlan }
{}
