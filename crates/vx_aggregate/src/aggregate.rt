use crate::ids;
use crate::state::{bound_state, byte_bound_state, filter_state, sum_state};
use std::alloc::AllocError;
use std::fmt;
use std::num::NonZeroU32;
use vx_model::{DType, Nullability, PType};

/// What is recorded of a zone's rows.
#[derive(Clone, Copy, Debug, PartialEq, Eq)]
pub enum AggregateFn {
    Max,
    Min,
    /// The greatest value, or an upper bound of at most so many bytes.
    BoundedMax(NonZeroU32),
    /// The least value, or a lower bound of at most so many bytes.
    BoundedMin(NonZeroU32),
    NullCount,
    Sum,
    /// A filter of so many blocks.
    Bloom(NonZeroU32),
}

impl AggregateFn {
    ghost use Rattle.std.specs.Prelude.{◌≡◌, IsOkAnd, option_map};
    ghost use Rattle.vx_model.specs.TyView.{ty};
    ghost use Rattle.vx_aggregate_spec.specs.Aggregate.{aggregate_id, state_type};
    ghost use Rattle.vx_aggregate.specs.AggregateView.{aggregate};

    /// The ids of all aggregates.
    pub const IDS: [&'static str; 7] = [
        ids::MAX,
        ids::MIN,
        ids::BOUNDED_MAX,
        ids::BOUNDED_MIN,
        ids::NULL_COUNT,
        ids::SUM,
        ids::BLOOM,
    ];

    /// The id by which layouts name it; one of `IDS`.
    pub fn id(&self) -> &'static str
        ensures { result.now ≡ aggregate_id (aggregate self.now) }
    {
        match self {
            AggregateFn::Max => ids::MAX,
            AggregateFn::Min => ids::MIN,
            AggregateFn::BoundedMax(_) => ids::BOUNDED_MAX,
            AggregateFn::BoundedMin(_) => ids::BOUNDED_MIN,
            AggregateFn::NullCount => ids::NULL_COUNT,
            AggregateFn::Sum => ids::SUM,
            AggregateFn::Bloom(_) => ids::BLOOM,
        }
    }

    /// The type of the values, always nullable; nothing where the column's type has none. An extension has its
    /// storage's. Never fails, since no such type takes memory.
    pub fn state_dtype(&self, column: &DType) -> Result<Option<DType>, AllocError>
        ensures { IsOkAnd result (λ state. option_map ty state ≡ state_type (aggregate self.now) (ty column.now)) }
    {
        match self {
            AggregateFn::Max | AggregateFn::Min => Ok(bound_state(column)),
            AggregateFn::BoundedMax(_) | AggregateFn::BoundedMin(_) => Ok(byte_bound_state(column)),
            AggregateFn::NullCount => Ok(Some(DType::Primitive(PType::U64, Nullability::Nullable))),
            AggregateFn::Sum => Ok(sum_state(column)),
            AggregateFn::Bloom(_) => Ok(filter_state(column)),
        }
    }
}

impl fmt::Display for AggregateFn {
    ghost use Rattle.std.specs.Prelude.{Some};
    ghost use Rattle.vx_aggregate_spec.specs.Aggregate.{display};
    ghost use Rattle.vx_aggregate.specs.AggregateView.{aggregate};

    ghost output = { λ a. Some (display (aggregate a)) };

    fn fmt<W: fmt::Write>(&self, f: &mut fmt::Formatter<W>) -> fmt::Result {
        match self {
            AggregateFn::Max => write!(f, "max"),
            AggregateFn::Min => write!(f, "min"),
            AggregateFn::BoundedMax(n) => write!(f, "bounded_max({})", n.get()),
            AggregateFn::BoundedMin(n) => write!(f, "bounded_min({})", n.get()),
            AggregateFn::NullCount => write!(f, "null_count"),
            AggregateFn::Sum => write!(f, "sum"),
            AggregateFn::Bloom(n) => {
                write!(f, "bloom_filter(blocks={}, hash_fn=xxhash3_64)", n.get())
            }
        }
    }
}
