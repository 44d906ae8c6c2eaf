//! Options of blocks that were tested.

use crate::error::BuildError;
use crate::options::RepartitionWriterOptions;
use std::num::NonZeroU64;

/// Options of which the block length isn't 0.
#[derive(Clone, Copy, Debug)]
pub struct BlockRule {
    pub minimum: u64,
    pub multiple: NonZeroU64,
    pub target: Option<u64>,
    pub canonicalize: bool,
}

impl BlockRule {
    ghost use Rattle.std.specs.Prelude.{◌≡◌, ◌<◌, IfOk, IfErr};
    ghost use Rattle.vx_strategy_options.specs.OptionViews.{block_options};
    ghost use Rattle.vx_strategy_options.specs.RuleViews.{block_rule};
    ghost use Rattle.vx_strategy_options.specs.Causes.{ZeroBlockLenOf};

    /// Refuses `ZeroBlockLen` exactly where the block length is 0.
    pub fn new(options: RepartitionWriterOptions) -> Result<BlockRule, BuildError>
        ensures ok { IfOk result (λ r. block_rule r ≡ block_options options) }
        ensures some { IfOk result (λ r. 0 < options.block_len_multiple) }
        ensures refused { IfErr result (ZeroBlockLenOf options) }
    {
        let Some(multiple) = NonZeroU64::new(options.block_len_multiple) else {
            return Err(BuildError::ZeroBlockLen);
        };
        Ok(BlockRule {
            minimum: options.block_size_minimum,
            multiple,
            target: options.block_size_target,
            canonicalize: options.canonicalize,
        })
    }
}
