use std::alloc::{AllocError, AllocFailed};
use thiserror::Error;
use vx_json::JsonError;
use vx_strategy::BuildError;

/// Why a JSON value gave no strategy.
#[derive(Debug, Drop, Error)]
pub enum StrategyError {
    /// A key is missing or too many, a value has another form, or a constructor refuses it.
    #[error("no strategy")]
    Wrong,
    #[error("out of memory")]
    OutOfMemory,
}

impl From<AllocError> for StrategyError {
    ghost use Rattle.std.specs.Prelude.{◌≡◌};
    ghost use Rattle.vx_strategy_json.specs.declared.error.StrategyError.TheVariants.{OutOfMemory};

    ghost from_gives = { λ _ e. e ≡ OutOfMemory };

    fn from(_error: AllocError) -> StrategyError {
        StrategyError::OutOfMemory
    }
}

impl<T: Drop> From<AllocFailed<T>> for StrategyError {
    ghost use Rattle.std.specs.Prelude.{◌≡◌};
    ghost use Rattle.vx_strategy_json.specs.declared.error.StrategyError.TheVariants.{OutOfMemory};

    ghost from_gives = { λ _ e. e ≡ OutOfMemory };

    fn from(_error: AllocFailed<T>) -> StrategyError {
        StrategyError::OutOfMemory
    }
}

impl From<JsonError> for StrategyError {
    ghost use Rattle.std.specs.Prelude.{◌≡◌};
    ghost use Rattle.vx_strategy_json.specs.Refusals.{part_refusal};

    ghost from_gives = { λ cause e. e ≡ part_refusal cause };

    fn from(error: JsonError) -> StrategyError {
        match error {
            JsonError::Wrong => StrategyError::Wrong,
            JsonError::OutOfMemory => StrategyError::OutOfMemory,
        }
    }
}

/// For those who read a strategy as a part of a value.
impl From<StrategyError> for JsonError {
    ghost use Rattle.std.specs.Prelude.{◌≡◌};
    ghost use Rattle.vx_strategy_json.specs.Refusals.{as_part};

    ghost from_gives = { λ cause e. e ≡ as_part cause };

    fn from(error: StrategyError) -> JsonError {
        match error {
            StrategyError::Wrong => JsonError::Wrong,
            StrategyError::OutOfMemory => JsonError::OutOfMemory,
        }
    }
}

impl From<BuildError> for StrategyError {
    ghost use Rattle.std.specs.Prelude.{◌≡◌};
    ghost use Rattle.vx_strategy_json.specs.Refusals.{refusal};

    ghost from_gives = { λ cause e. e ≡ refusal cause };

    fn from(error: BuildError) -> StrategyError {
        match error {
            BuildError::OutOfMemory => StrategyError::OutOfMemory,
            BuildError::ZeroBlockLen
            | BuildError::ZeroConcurrency
            | BuildError::ZoneLength(_)
            | BuildError::RootPath
            | BuildError::OverlappingPath(..) => StrategyError::Wrong,
        }
    }
}
