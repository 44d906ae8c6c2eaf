//! Aggregates by their names.

use serde_json::Value;
use std::alloc::Global;
use vx_aggregate::{AggregateFn, default_zoned_aggregate_fns};
use vx_case_lines::Answer;
use vx_model::DType;
use vx_strategy_json::read_aggregate;

/// The aggregate, and whether it is the one that its id and its options name.
pub(crate) fn tell(alloc: Global, answer: &mut Answer, given: &Value) {
    match read_aggregate(given) {
        Ok(aggregate) => {
            write!(answer, "{aggregate}, again ");
            match aggregate.options(alloc) {
                Ok(options) => {
                    answer.push(AggregateFn::from_spec(aggregate.id(), &options) == Ok(aggregate));
                    drop(options);
                }
                Err(error) => answer.push(error),
            }
        }
        Err(error) => answer.push(error),
    }
}

/// Those that are kept of the type by themselves.
pub(crate) fn tell_kept(alloc: Global, answer: &mut Answer, dtype: &DType) {
    match default_zoned_aggregate_fns(alloc, dtype) {
        Ok(kept) => {
            for i in 0..kept.len() {
                answer.push_str(if i > 0 { ", " } else { "" });
                answer.push(kept[i]);
            }
            drop(kept);
        }
        Err(error) => answer.push(error),
    }
}
