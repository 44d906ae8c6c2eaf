//! Writers of a table by paths of field names.

ghost use Rattle.std.specs.Prelude.{◌≡◌, [], ◌∷◌, ◌++◌, IfOk};
ghost use Rattle.vx_strategy.specs.Overridden.{overlap_place};

use crate::child::ChildStrategy;
use crate::strategy::Strategy;
use std::alloc::{AllocError, Global};
use std::marker::Model;
use vx_field_path::FieldPath;
use vx_strategy_options::BuildError;

/// The writer of the field at a path.
#[derive(Drop)]
#[cycle(strategy)]
pub struct PathWriter {
    pub path: FieldPath,
    pub writer: ChildStrategy,
}

/// Writers by path: none is the root's, and no path overlaps another. Contracts see the strategies by their paths.
#[derive(Drop)]
#[cycle(strategy)]
pub struct Overrides {
    pub list: Vec<PathWriter>,
}

impl Model for Overrides {
    ghost use Rattle.std.specs.Prelude.{IsTrue};
    ghost use Rattle.vx_strategy.specs.AdmittedStrategy.{AdmittedOverrides, are_overrides, as_overrides, overrides_code};

    ghost Value = { AdmittedOverrides };

    ghost coded = { overrides_code };

    ghost use Rattle.vx_strategy.specs.PathWays.{path_ways};

    ghost view = { λ c. as_overrides (path_ways c.list.items) };

    ghost invariant = { λ c. IsTrue (are_overrides (path_ways c.list.items)) };

    ghost use Rattle.vx_strategy.specs.WayDepth.{depths};

    ghost size = { λ a. depths a.item };

    ghost use Rattle.vx_strategy.specs.PathFalls.{overrides_fall};

    ghost size_decreases = { λ c h. overrides_fall c.list.items h };
}

impl Overrides {
    ghost use Rattle.std.specs.Prelude.{◌≡◌, map, IfOk, IfErr};
    ghost use Rattle.vx_strategy_spec.specs.StrategyData.{no_ways};
    ghost use Rattle.vx_strategy.specs.Overridden.{appended, all_appended, Fits, AllFit};
    ghost use Rattle.vx_strategy.specs.PairWays.{path_way};
    ghost use Rattle.vx_strategy.specs.Causes.{OverrideRefused, OverridesRefused};
    ghost use Rattle.vx_strategy.specs.StrategyView.{strategy_data};

    /// No overrides.
    #[tactic(auto, using(crate::proofs::Apart::apart_rules))]
    pub fn none(alloc: Global) -> Overrides
        ensures { result.item ≡ no_ways }
    {
        Overrides {
            list: Vec::new(alloc),
        }
    }

    /// One more, behind the others.
    #[tactic(auto, using(crate::proofs::Apart::apart_rules))]
    pub(crate) fn with(
        self,
        alloc: Global,
        path: FieldPath,
        writer: Strategy,
    ) -> Result<Overrides, BuildError>
        ensures ok { IfOk result (λ o. o.item ≡ appended self.item path (strategy_data writer)) }
        ensures fits { IfOk result (λ o. Fits self.item path) }
        ensures refused { IfErr result (OverrideRefused self.item path) }
    {
        let Overrides { mut list } = self;
        if path.is_root() {
            drop((list, writer));
            return Err(BuildError::RootPath);
        }
        if let Some(place) = find_overlap(&list, &path) {
            drop(writer);
            let standing = list.swap_remove(place);
            drop((list, standing.writer));
            return Err(BuildError::OverlappingPath(standing.path, path));
        }
        let Ok(writer) = ChildStrategy::held(alloc, writer) else {
            drop(list);
            return Err(BuildError::OutOfMemory);
        };
        let list = pushed(list, PathWriter { path, writer })?;
        Ok(Overrides { list })
    }

    /// Each of these as `with`, in order.
    pub(crate) fn with_all(
        self,
        alloc: Global,
        list: Vec<(FieldPath, Strategy)>,
    ) -> Result<Overrides, BuildError>
        ensures ok { IfOk result (λ o. o.item ≡ all_appended self.item (map path_way list.items)) }
        ensures fits { IfOk result (λ o. AllFit self.item (map path_way list.items)) }
        ensures refused { IfErr result (OverridesRefused self.item (map path_way list.items)) }
    {
        let mut overrides = self;
        for (path, writer) in list {
            overrides = overrides.with(alloc, path, writer)?;
        }
        Ok(overrides)
    }
}

/// The list with one more behind.
fn pushed<T: Drop>(mut list: Vec<T>, item: T) -> Result<Vec<T>, AllocError>
    ensures { IfOk result (λ v. v.items ≡ list.items ++ item ∷ []) }
{
    list.push(item)?;
    Ok(list)
}

/// The place of the first path that overlaps this one.
#[tactic(auto, using(crate::proofs::PlaceSteps::place_rules))]
fn find_overlap(list: &[PathWriter], path: &FieldPath) -> Option<usize>
    ensures { result ≡ overlap_place path.now list.now }
{
    for i in 0..list.len() {
        if list[i].path.overlap(path) {
            return Some(i);
        }
    }
    None
}

impl Clone for PathWriter {
    ghost use Rattle.std.specs.Prelude.{◌≡◌};

    ghost is_clone = { λ w copy. copy ≡ w };

    fn clone(&self) -> Result<PathWriter, AllocError> {
        let path = self.path.clone()?;
        Ok(PathWriter {
            path,
            writer: self.writer.clone()?,
        })
    }
}

impl Clone for Overrides {
    ghost use Rattle.std.specs.Prelude.{◌≡◌};

    ghost is_clone = { λ o copy. copy ≡ o };

    fn clone(&self) -> Result<Overrides, AllocError> {
        Ok(Overrides {
            list: Vec::from_clones(*self.list.allocator(), &self.list)?,
        })
    }
}
