//! Rules of nodes as one.

use crate::error::NodeError;
use crate::outputs::{Output, Outputs, to_child, to_columns, to_places};
use std::alloc::Global;
use vx_chunk::Chunk;
use vx_react::Place;
use vx_regroup::Regroup;
use vx_runs::RunCutter;
use vx_split::{ColumnSplit, ListSplit};
use vx_zone_guard::ZoneGuard;

/// A rule that is handed a stream's chunks one by one.
pub trait Rule {
    ghost use Rattle.std.specs.Prelude.{◌≡◌, Bool, false, List, Option, IfOk, OnOk, IfErr};
    ghost use Rattle.vx_model.specs.ValueData.{ValueData};
    ghost use Rattle.vx_model.specs.ChunkData.{ChunkData};
    ghost use Rattle.vx_react.specs.Reactor.{Output as Sent};
    ghost use Rattle.vx_nodes.specs.declared.error.NodeError.{NodeError};
    ghost use Rattle.vx_nodes.specs.Given.{outputs_in, zone_in};

    // the chunks that it takes
    ghost takes: { Self → ChunkData → Type 0 };

    // what it gives at one, told whether it is the last
    ghost gives: { Self → ChunkData → Bool → List Sent };

    // the record of a chunk
    ghost records: { Self → ChunkData → Option (List ValueData) };

    // what it keeps behind one that isn't the last
    ghost holds: { Self → ChunkData → Self };

    // what it doesn't go on without: no number of it is too large, and a chunk that is recorded makes a zone
    ghost fits: { Self → ChunkData → Bool → Type 0 };

    // why it refuses one
    ghost refuses: { Self → ChunkData → Bool → NodeError → Type 0 };

    /// What the rule gives at the next chunk, by its own `react`; an output a chunk more is moved.
    fn outputs(&mut self, alloc: Global, item: Chunk, last: bool) -> Result<Outputs, NodeError>
        requires { takes self.old item }
        ensures given { IfOk result (λ o. outputs_in o.items ≡ gives self.old item last) }
        ensures zone { IfOk result (λ o. zone_in o.zone ≡ records self.old item) }
        ensures next { OnOk result (last ≡ false → self.new ≡ holds self.old item) }
        ensures fits { OnOk result (fits self.old item last) }
        ensures refused { IfErr result (refuses self.old item last) };
}

impl Rule for Regroup {
    ghost use Rattle.std.specs.Prelude.{◌≡◌, None};
    ghost use Rattle.vx_react.specs.Reactor.{child_outputs};
    ghost use Rattle.vx_regroup.specs.Refusals.{first_past, Refuses};
    ghost use Rattle.vx_regroup.specs.Regrouping.{Takes, given_by, after, numbers_at};
    ghost use Rattle.vx_nodes.specs.Joined.{Because, of_chunk};

    ghost takes = { Takes };

    ghost gives = { λ r c last. child_outputs (given_by r c last) };

    ghost records = { λ r c. None };

    ghost holds = { after };

    ghost fits = { λ r c last. first_past (numbers_at r c last) ≡ None };

    ghost refuses = { λ r c last e. Because of_chunk (Refuses (first_past (numbers_at r c last))) e };

    fn outputs(&mut self, alloc: Global, item: Chunk, last: bool) -> Result<Outputs, NodeError> {
        let chunks = self.react(alloc, item, last)?;
        let items = to_child(alloc, chunks)?;
        Ok(Outputs { items, zone: None })
    }
}

impl Rule for RunCutter {
    ghost use Rattle.std.specs.Prelude.{◌≡◌, ◌<◌, ◌^◌, None};
    ghost use Rattle.vx_model.specs.ChunkData.{piece_type};
    ghost use Rattle.vx_chunk.specs.Conditions.{IsTooLarge};
    ghost use Rattle.vx_runs.specs.CutterData.{gives_at, held_at, with_cutting};
    ghost use Rattle.vx_nodes.specs.Joined.{Because, of_chunk};

    ghost takes = { λ c p. piece_type p ≡ c.typed };

    ghost gives = { λ c p last. gives_at 0 c p last };

    ghost records = { λ c p. None };

    ghost holds = { λ c p. with_cutting c (held_at 0 c p) };

    ghost fits = { λ c p last. (held_at 0 c p).number < 2 ^ 64 };

    ghost refuses = { λ c p last e. Because of_chunk (IsTooLarge (held_at 0 c p).number) e };

    fn outputs(&mut self, alloc: Global, item: Chunk, last: bool) -> Result<Outputs, NodeError> {
        let outputs = self.react(alloc, item, last)?;
        let items = to_places(alloc, outputs)?;
        Ok(Outputs { items, zone: None })
    }
}

impl Rule for ColumnSplit {
    ghost use Rattle.std.specs.Prelude.{◌≡◌, None};
    ghost use Rattle.vx_model.specs.Ty.{nullable};
    ghost use Rattle.vx_model.specs.ChunkData.{piece_type};
    ghost use Rattle.vx_chunk_cells.specs.Parts.{struct_fields};
    ghost use Rattle.vx_react.specs.Splitter.{struct_splitter};
    ghost use Rattle.vx_nodes.specs.declared.error.NodeError.TheVariants.{OutOfMemory};

    ghost takes = { λ t p. piece_type p ≡ t };

    ghost gives = { λ t p last. (struct_splitter (struct_fields t) (nullable t)).gives tt p last };

    ghost records = { λ t p. None };

    ghost holds = { λ t p. t };

    ghost fits = { λ t p last. Unit {0} };

    ghost refuses = { λ t p last e. e ≡ OutOfMemory };

    fn outputs(&mut self, alloc: Global, item: Chunk, _last: bool) -> Result<Outputs, NodeError> {
        let columns = self.react(alloc, item)?;
        let items = to_columns(alloc, columns)?;
        Ok(Outputs { items, zone: None })
    }
}

impl Rule for ListSplit {
    ghost use Rattle.std.specs.Prelude.{◌≡◌, ◌<◌, ◌^◌, None};
    ghost use Rattle.vx_model.specs.ChunkData.{piece_type};
    ghost use Rattle.vx_split.specs.ListState.{splitting_of, splitter_at, elements_to, behind};
    ghost use Rattle.vx_split.specs.Causes.{IsPast};
    ghost use Rattle.vx_nodes.specs.Joined.{Because, of_split};

    ghost takes = { λ s p. piece_type p ≡ s.typed };

    ghost gives = { λ s p last. (splitter_at s.typed).gives (splitting_of s) p last };

    ghost records = { λ s p. None };

    ghost holds = { behind };

    ghost fits = { λ s p last. elements_to s p < 2 ^ 64 };

    ghost refuses = { λ s p last e. Because of_split (IsPast (elements_to s p)) e };

    fn outputs(&mut self, alloc: Global, item: Chunk, _last: bool) -> Result<Outputs, NodeError> {
        let columns = self.react(alloc, item)?;
        let items = to_columns(alloc, columns)?;
        Ok(Outputs { items, zone: None })
    }
}

impl Rule for ZoneGuard {
    ghost use Rattle.std.specs.Prelude.{◌≡◌, None, [], ◌∷◌};
    ghost use Rattle.vx_hash.specs.XxHash3.{xxhash3_64};
    ghost use Rattle.vx_model.specs.ChunkData.{piece_type};
    ghost use Rattle.vx_react.specs.declared.place.Place.TheVariants.{Child};
    ghost use Rattle.vx_turn_laws.specs.Guard.{refused_at, zone_at, behind};
    ghost use Rattle.vx_zone_guard.specs.Causes.{Refuses};
    ghost use Rattle.vx_nodes.specs.Joined.{Because, of_guard};

    ghost takes = { λ g p. piece_type p ≡ g.typed };

    ghost gives = { λ g p last. (Child, p) ∷ [] };

    ghost records = { zone_at xxhash3_64 };

    ghost holds = { behind };

    ghost fits = { λ g p last. refused_at g p ≡ None };

    ghost refuses = { λ g p last e. Because of_guard (Refuses g p) e };

    fn outputs(&mut self, alloc: Global, item: Chunk, _last: bool) -> Result<Outputs, NodeError> {
        let mut items = Vec::with_capacity(alloc, 1)?;
        let zone = self.react(alloc, &item)?;
        let place = Place::Child;
        items.push(Output { place, chunk: item })?;
        Ok(Outputs { items, zone })
    }
}
