//! What a struct's column writes, against what its chunks are written as at the ids that the struct's node makes.
//! The function here has an empty body; its contract is a law, proved for every struct and all batches.
#![tactic(auto)]

ghost use Rattle.vx_own_plans.specs.OwnPlans.{ColumnsWriteTheirOwn};

/// Each column's plan is that of its chunks, as a stream at the column's ids.
pub fn columns_write_their_own()
    ensures { ColumnsWriteTheirOwn }
{}
