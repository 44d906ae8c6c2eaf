//! What stands for tables, for list nodes of other types, and for dictionary nodes of types that no dictionary can hold.

ghost use Rattle.std.specs.Prelude.{◌≡◌, IfOk};
ghost use Rattle.vx_model.specs.TyView.{ty};
ghost use Rattle.vx_strategy.specs.StrategyView.{strategy_data};
ghost use Rattle.vx_table_dispatch.specs.Settled.{further as next_of, passes_on as has_next, settled};

use crate::at_type::dispatch;
use std::alloc::AllocError;
use vx_model::DType;
use vx_strategy::Strategy;

/// Whether another strategy stands for it at this type.
#[tactic(auto, using(vx_model::proofs::Views::view_rules))]
pub fn passes_on(strategy: &Strategy, dtype: &DType) -> bool
    ensures { result ≡ has_next (strategy_data strategy.now) (ty dtype.now) }
{
    match strategy {
        Strategy::Table(_) => true,
        Strategy::List(_) => match dtype {
            DType::List(..) => false,
            DType::Bool(_) | DType::Primitive(..) | DType::Utf8(_) | DType::Binary(_) => true,
            DType::Struct(..) | DType::Extension(_) => true,
        },
        Strategy::Dict(_) => match dtype {
            DType::Primitive(..) | DType::Utf8(_) | DType::Binary(_) => false,
            DType::Bool(_) | DType::List(..) | DType::Struct(..) | DType::Extension(_) => true,
        },
        Strategy::Flat(_) | Strategy::Chunked(_) | Strategy::Struct(_) => false,
        Strategy::Zoned(_) | Strategy::Repartition(_) | Strategy::Buffered(_) => false,
        Strategy::Collect(_) | Strategy::Compressing(_) => false,
    }
}

/// What stands for it next, a strategy that shares its parts.
#[tactic(auto, using(vx_model::proofs::Views::view_rules))]
fn further(strategy: &Strategy, dtype: &DType) -> Result<Strategy, AllocError>
    ensures { IfOk result (λ s. strategy_data s ≡ next_of (strategy_data strategy.now) (ty dtype.now)) }
{
    match strategy {
        Strategy::Table(table) => dispatch(table, dtype),
        Strategy::List(lists) => match dtype {
            DType::List(..) => strategy.clone(),
            DType::Bool(_) | DType::Primitive(..) | DType::Utf8(_) | DType::Binary(_) => {
                lists.fallback.strategy().clone()
            }
            DType::Struct(..) | DType::Extension(_) => lists.fallback.strategy().clone(),
        },
        Strategy::Dict(by) => match dtype {
            DType::Primitive(..) | DType::Utf8(_) | DType::Binary(_) => strategy.clone(),
            DType::Bool(_) | DType::List(..) | DType::Struct(..) | DType::Extension(_) => {
                by.fallback().strategy().clone()
            }
        },
        Strategy::Flat(_) | Strategy::Chunked(_) | Strategy::Struct(_) => strategy.clone(),
        Strategy::Zoned(_) | Strategy::Repartition(_) => strategy.clone(),
        Strategy::Buffered(_) | Strategy::Collect(_) | Strategy::Compressing(_) => strategy.clone(),
    }
}

/// The strategy that writes at this type what the strategy writes, and for which no other stands: no table, a list node of a
/// list type alone, and a dictionary node of a type that a dictionary can hold.
pub fn settled(strategy: &Strategy, dtype: &DType) -> Result<Strategy, AllocError>
    ensures { IfOk result (λ s. strategy_data s ≡ settled (strategy_data strategy.now) (ty dtype.now)) }
{
    let mut found = further(strategy, dtype)?;
    'further: while passes_on(&found, dtype) {
        let Ok(next) = further(&found, dtype) else {
            drop(found);
            return Err(AllocError);
        };
        drop(found);
        found = next;
    }
    Ok(found)
}
