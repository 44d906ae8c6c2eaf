//! How many columns a strategy writes side by side.

ghost use Rattle.std.specs.Prelude.{◌≡◌};
ghost use Rattle.vx_model.specs.TyView.{ty};
ghost use Rattle.vx_strategy.specs.StrategyView.{strategy_data};
ghost use Rattle.vx_column_ways.specs.ColumnCount.{column_count, columns_of};

use vx_model::DType;
use vx_strategy::Strategy;

/// The number of columns of the type: a struct's fields, and a validity where it is nullable. None where the strategy
/// doesn't write structs column by column, or the type is no struct.
pub fn column_count(strategy: &Strategy, dtype: &DType) -> Option<u64>
    ensures { result ≡ column_count (strategy_data strategy.now) (ty dtype.now) }
{
    match strategy {
        Strategy::Struct(_) | Strategy::Table(_) => columns_of(dtype),
        Strategy::Flat(_) | Strategy::Chunked(_) | Strategy::List(_) | Strategy::Dict(_) => None,
        Strategy::Zoned(_) | Strategy::Repartition(_) | Strategy::Buffered(_) => None,
        Strategy::Collect(_) | Strategy::Compressing(_) => None,
    }
}

#[tactic(auto, using(vx_layout_shape::proofs::Fields::field_rules))]
fn columns_of(dtype: &DType) -> Option<u64>
    ensures { result ≡ columns_of (ty dtype.now) }
{
    match dtype {
        DType::Struct(fields, _) => {
            let count = fields.fields.len() as u64;
            Some(if dtype.is_nullable() {
                count + 1
            } else {
                count
            })
        }
        DType::Bool(_) | DType::Primitive(..) | DType::Utf8(_) | DType::Binary(_) => None,
        DType::List(..) | DType::Extension(_) => None,
    }
}
