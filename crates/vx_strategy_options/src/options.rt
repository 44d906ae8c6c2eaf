//! Options of strategies.

ghost use Rattle.std.specs.Prelude.{◌≡◌, ◌<◌, max, min};
ghost use Rattle.vx_rules.specs.Blocks.{rounded_up};

use vx_aggregate::AggregateFn;
use vx_model::DType;

/// How rows are cut into blocks.
#[derive(Clone, Copy, Debug, PartialEq, Eq)]
pub struct RepartitionWriterOptions {
    /// The row size in bytes that a block has at least.
    pub block_size_minimum: u64,
    /// Each block but the last has a multiple of so many rows.
    pub block_len_multiple: u64,
    /// The row size in bytes to aim at, where rows have one size each.
    pub block_size_target: Option<u64>,
    /// Kept without effect: blocks are plain, and sizes are row sizes.
    pub canonicalize: bool,
}

impl RepartitionWriterOptions {
    ghost use Rattle.std.specs.Prelude.{◌≡◌};
    ghost use Rattle.vx_model.specs.TyView.{ty};
    ghost use Rattle.vx_rules.specs.Blocks.{block_len};
    ghost use Rattle.vx_strategy_options.specs.OptionViews.{block_options};

    /// The block length in rows at a column's type: the multiple, or fewer rows where a target and the size of an
    /// element say so, at least 1.
    #[tactic(auto, using(crate::proofs::BlockLen::block_rules))]
    pub fn effective_block_len(&self, dtype: &DType) -> u64
        ensures { result ≡ block_len (block_options self.now) (ty dtype.now) }
    {
        let Some(target) = self.block_size_target else {
            return self.block_len_multiple;
        };
        let Some(size) = dtype.element_size() else {
            return self.block_len_multiple;
        };
        aimed(self.block_len_multiple, target, size)
    }
}

/// The rows that take so many bytes, at most the multiple and at least 1.
#[tactic(auto, using(crate::proofs::BlockLen::block_rules))]
fn aimed(multiple: u64, target: u64, size: u64) -> u64
    requires { 0 < size }
    ensures { result ≡ max 1 (min multiple (rounded_up target size)) }
{
    let rows = (u128::from(target) + u128::from(size) - 1) / u128::from(size);
    if rows < u128::from(multiple) {
        (rows as u64).max(1)
    } else {
        multiple.max(1)
    }
}

/// When a dictionary is full: the bytes that its values cost, and their number.
#[derive(Clone, Copy, Debug, PartialEq, Eq)]
pub struct DictLayoutConstraints {
    pub max_bytes: u64,
    pub max_len: u16,
}

impl Default for DictLayoutConstraints {
    ghost use Rattle.std.specs.Prelude.{◌≡◌};

    ghost is_default = { λ c. (c.max_bytes ≡ 1048576) × (c.max_len ≡ 65535) };

    fn default() -> DictLayoutConstraints {
        DictLayoutConstraints {
            max_bytes: 1_048_576,
            max_len: 65_535,
        }
    }
}

/// Options of a dictionary: how large one may be.
#[derive(Clone, Copy, Debug, PartialEq, Eq)]
pub struct DictLayoutOptions {
    pub constraints: DictLayoutConstraints,
}

impl Default for DictLayoutOptions {
    ghost use Rattle.std.specs.Prelude.{◌≡◌};

    ghost is_default = { λ o. (o.constraints.max_bytes ≡ 1048576) × (o.constraints.max_len ≡ 65535) };

    fn default() -> DictLayoutOptions {
        DictLayoutOptions {
            constraints: DictLayoutConstraints::default(),
        }
    }
}

/// How zones are recorded.
#[derive(Debug, Drop)]
pub struct ZonedLayoutOptions {
    /// Rows of a zone, from 1 to 2^32 - 1.
    pub block_size: u64,
    /// Nothing: those of `default_zoned_aggregate_fns`.
    pub aggregate_fns: Option<Vec<AggregateFn>>,
    /// How many chunks may wait behind the node.
    pub concurrency: u64,
}

impl Default for ZonedLayoutOptions {
    ghost use Rattle.std.specs.Prelude.{◌≡◌, None};

    ghost is_default = { λ o. (o.block_size ≡ 8192) × (o.aggregate_fns ≡ None) × (o.concurrency ≡ 1) };

    fn default() -> ZonedLayoutOptions {
        ZonedLayoutOptions {
            block_size: 8192,
            aggregate_fns: None,
            concurrency: 1,
        }
    }
}
