use crate::strategy::Strategy;
use std::alloc::{AllocError, AllocFailed, Global};
use std::marker::Model;
use std::sync::Arc;

/// A strategy that another holds; its clones share it. Contracts see its tree of nodes, which constructors can make.
#[cycle(strategy)]
pub struct ChildStrategy {
    inner: Arc<Strategy>,
}

impl Model for ChildStrategy {
    ghost use Rattle.std.specs.Prelude.{IsTrue};
    ghost use Rattle.vx_strategy_spec.specs.Admitted.{is_admitted};
    ghost use Rattle.vx_strategy.specs.AdmittedStrategy.{AdmittedStrategy, admitted_code, as_admitted};

    ghost Value = { AdmittedStrategy };

    ghost coded = { admitted_code };

    ghost use Rattle.vx_strategy.specs.StrategyView.{strategy_data};

    ghost view = { λ c. as_admitted (strategy_data c.inner.value) };

    ghost invariant = { λ c. IsTrue (is_admitted (strategy_data c.inner.value)) };

    ghost use Rattle.vx_strategy.specs.WayDepth.{depth};

    ghost size = { λ a. depth a.item };

    ghost use Rattle.vx_strategy.specs.DepthFalls.{child_falls};

    ghost size_decreases = { λ c h. child_falls c.inner.value h };
}

// Written out, so that whoever drops a strategy makes a call for each that it holds, and no proof goes through its nodes again.
impl Drop for ChildStrategy {
    #[cycle(strategy)]
    fn drop(self) {
        let ChildStrategy { inner } = self;
        drop(inner);
    }
}

impl ChildStrategy {
    ghost use Rattle.std.specs.Prelude.{◌≡◌, IsTrue, IfOk};
    ghost use Rattle.vx_strategy_spec.specs.Admitted.{is_admitted};
    ghost use Rattle.vx_strategy.specs.StrategyView.{strategy_data};

    /// The strategy behind a count of those who share it.
    #[tactic(auto, using(crate::proofs::AllAdmitted::child_rules))]
    pub fn new(alloc: Global, strategy: Strategy) -> Result<ChildStrategy, AllocFailed<Strategy>>
        ensures { IfOk result (λ c. c.item ≡ strategy_data strategy) }
    {
        Ok(ChildStrategy {
            inner: Arc::new(alloc, strategy)?,
        })
    }

    /// As `new`, without the strategy back where memory runs out.
    pub(crate) fn held(alloc: Global, strategy: Strategy) -> Result<ChildStrategy, AllocError>
        ensures { IfOk result (λ c. c.item ≡ strategy_data strategy) }
    {
        Ok(ChildStrategy::new(alloc, strategy)?)
    }

    /// Two strategies, each as `held`.
    pub(crate) fn both_held(
        alloc: Global,
        one: Strategy,
        other: Strategy,
    ) -> Result<(ChildStrategy, ChildStrategy), AllocError>
        ensures one { IfOk result (λ p. p.0.item ≡ strategy_data one) }
        ensures other { IfOk result (λ p. p.1.item ≡ strategy_data other) }
    {
        let Ok(one) = ChildStrategy::held(alloc, one) else {
            drop(other);
            return Err(AllocError);
        };
        let Ok(other) = ChildStrategy::held(alloc, other) else {
            drop(one);
            return Err(AllocError);
        };
        Ok((one, other))
    }

    /// A clone of this strategy, and one of another.
    pub(crate) fn clone_with(
        &self,
        other: &ChildStrategy,
    ) -> Result<(ChildStrategy, ChildStrategy), AllocError>
        ensures own { IfOk result (λ p. p.0 ≡ self.now) }
        ensures other { IfOk result (λ p. p.1 ≡ other.now) }
    {
        let own = self.clone()?;
        let Ok(other) = other.clone() else {
            drop(own);
            return Err(AllocError);
        };
        Ok((own, other))
    }

    /// The strategy itself.
    #[tactic(auto, using(crate::proofs::AllAdmitted::child_rules))]
    pub fn strategy(&self) -> &Strategy
        ensures same { strategy_data result.now ≡ self.now.item }
        ensures admitted { IsTrue (is_admitted self.now.item) }
    {
        &self.inner
    }
}

impl Clone for ChildStrategy {
    ghost use Rattle.std.specs.Prelude.{◌≡◌};

    ghost is_clone = { λ c copy. copy ≡ c };

    fn clone(&self) -> Result<ChildStrategy, AllocError> {
        Ok(ChildStrategy {
            inner: Arc::try_clone(&self.inner)?,
        })
    }
}
