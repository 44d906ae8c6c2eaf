//! Dictionary nodes.

ghost use Rattle.std.specs.Prelude.{◌≡◌, ◌+◌, ◌*◌, ◌<◌, ◌≤◌, ◌^◌, length, IsTrue};
ghost use Rattle.std.specs.Arc.{arc_value};
ghost use Rattle.std.specs.Coded.{Coded-set, coded_list, coded_ℕ};
ghost use Rattle.vx_path.specs.Path.{eof_path, next};
ghost use Rattle.vx_model.specs.TyView.{ty};
ghost use Rattle.vx_model.specs.ChunkData.{piece_type, is_dict_type, cells};
ghost use Rattle.vx_split.specs.ListState.{ty_coded};
ghost use Rattle.vx_machine_node.specs.RunPaths.{eof_at, begun_paths};

use crate::item::Item;
use std::sync::Arc;
use vx_model::DType;
use vx_runs::RunCutter;
use vx_sequence::{SequenceId, SequencePointer};
use vx_strategy::{ChildStrategy, DictLayoutConstraints};

/// A node that writes runs of codes and values, where the first chunk's image is a dictionary.
#[derive(Drop)]
pub struct DictNode {
    pub dtype: Arc<DType>,
    /// A nullable struct stands above.
    pub marked: bool,
    pub constraints: DictLayoutConstraints,
    /// The compressor's number for the first chunk.
    pub probe: u32,
    pub codes: ChildStrategy,
    pub values: ChildStrategy,
    pub fallback: ChildStrategy,
    ghost dict: { IsTrue (is_dict_type (ty (arc_value dtype))) },
}

/// How far the runs of a stream came.
pub struct RunsSoFar {
    /// Behind the eof paths of the runs that have begun, each of which has two.
    pub pointer: SequencePointer,
    /// Whether the run that goes on has begun: its codes and values are children.
    pub begun: bool,
    /// Of the run that goes on.
    pub rows: u64,
    /// The rows of each run before it.
    pub ended: Vec<u64>,
    ghost behind: { 2 * length ended.items + begun_paths begun ≤ pointer.last },
}

/// A dictionary node that cuts its stream into runs. The newest chunk is cut once the next one comes, or the end.
pub struct DictRuns {
    pub node: Arc<DictNode>,
    pub cutter: RunCutter,
    pub newest: Item,
    /// Of all chunks so far.
    pub rows: u64,
    pub runs: RunsSoFar,
    ghost typed: { cutter.typed ≡ ty (arc_value (arc_value node).dtype) } by { Coded-set ty_coded cutter.typed (ty (arc_value (arc_value node).dtype)) },
    ghost bytes: { cutter.max_bytes ≡ (arc_value node).constraints.max_bytes },
    ghost len: { cutter.max_len ≡ (arc_value node).constraints.max_len },
    ghost number: { cutter.number ≡ length runs.ended.items },
    ghost same: { piece_type newest.chunk ≡ ty (arc_value (arc_value node).dtype) } by { Coded-set ty_coded (piece_type newest.chunk) (ty (arc_value (arc_value node).dtype)) },
    ghost few: { runs.rows + length (cells newest.chunk) ≤ rows },
}

/// The first chunk of a dictionary node, for which the compressor is called.
pub struct DictProbe {
    pub node: Arc<DictNode>,
    pub pointer: SequencePointer,
    pub item: Item,
    ghost same: { piece_type item.chunk ≡ ty (arc_value (arc_value node).dtype) } by { Coded-set ty_coded (piece_type item.chunk) (ty (arc_value (arc_value node).dtype)) },
}

/// What starts a run: the strategies of codes and values, and their eof paths.
pub struct RunStart {
    pub node: Arc<DictNode>,
    /// The number of the codes' child. The values' comes next.
    pub child: usize,
    pub codes: SequenceId,
    pub values: SequenceId,
    ghost few: { child + 1 < 2 ^ 64 },
    ghost first: { codes ≡ eof_path (eof_at codes) } by { Coded-set (coded_list coded_ℕ) codes (eof_path (eof_at codes)) },
    ghost second: { values ≡ eof_path (next (eof_at codes)) } by { Coded-set (coded_list coded_ℕ) values (eof_path (next (eof_at codes))) },
}
