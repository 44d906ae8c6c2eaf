//! A column's own machine, step by step.

ghost use Rattle.std.specs.Prelude.{◌≡◌, ◌≤◌, ◌<◌, ◌+◌, false, true, [], length, vec_len, IsTrue, IfOk, IfErr, OnOk};
ghost use Rattle.std.specs.Vec.{vec_capacity};
ghost use Rattle.vx_model.specs.TyView.{ty};
ghost use Rattle.vx_seats.specs.Turns.{NeverFails};
ghost use Rattle.vx_strategy.specs.StrategyView.{strategy_data};
ghost use Rattle.vx_sink.specs.ContextView.{is_marked, allowed_in, counted};
ghost use Rattle.vx_layout_tree.specs.LayoutView.{layout_data};
ghost use Rattle.vx_write_answer.specs.Causes.{is_compress_fault};
ghost use Rattle.vx_desk.specs.DeskView.{universe_of};
ghost use Rattle.vx_column_ids.specs.Outsets.{outset_of};
ghost use Rattle.vx_machine_view.specs.Machine.{is_finished as has_finished};
ghost use Rattle.vx_machine_node.specs.Ledger.{told_by};
ghost use Rattle.vx_machine.specs.View.{machine_of};
ghost use Rattle.vx_machine.specs.Whole.{is_finished};
ghost use Rattle.vx_column_machine.specs.Course.{Course, plan_of};
ghost use Rattle.vx_column_machine.specs.Underway.{InBalance, Underway, IsFront, IsSet, IsGiven, Wrote};
ghost use Rattle.vx_column_machine.specs.Causes.{IsDone, HasCause, StepPressed};

use std::alloc::{AllocError, Global};
use vx_column_ids::ColumnPart;
use vx_desk::Desk;
use vx_layout_paths::paths_in_order;
use vx_layout_tree::Layout;
use vx_machine::Machine;
use vx_path::owned::Path;
use vx_sink::{BatchSource, CompressorPlugin, LayoutWriterContext};
use vx_strategy::Strategy;
use vx_write_answer::WriteError;

/// A column of a struct that is written by itself, at the ids that the struct's node makes for it. Its segments are handed out; in its
/// layout they have their numbers in order of path, from 0.
///
/// It must be spent, by `finish_with_paths` or `refuse`.
pub struct ColumnMachine<B> {
    alloc: Global,
    column: u64,
    machine: Machine,
    desk: Desk,
    source: B,
    ctx: LayoutWriterContext,
    paths: Vec<Path>,
    // Empty, with room for all of them.
    ordered: Vec<Path>,
}

impl<B: BatchSource + Drop> ColumnMachine<B> {
    /// The machine before its first step, with the column's part: it holds an id for each chunk that the source gives. The context is
    /// the column's own, and counts nothing yet. Refused, the part is given up.
    pub fn begin(
        alloc: Global,
        strategy: &Strategy,
        ctx: LayoutWriterContext,
        source: B,
        column: u64,
        part: ColumnPart,
    ) -> Result<Self, WriteError>
        requires enough { B.left source ≤ vec_len part.ids }
        requires none { counted ctx ≡ 0 }
        requires steady { NeverFails (B.may_fail source) }
        ensures balance { IfOk result (InBalance B.may_fail) }
        ensures underway { IfOk result (λ c. (x : Course) → IsGiven (allowed_in ctx) (strategy_data strategy.now) (B.kind source) (is_marked ctx) column (outset_of part) (B.to_come source) x → Underway B.to_come B.kind B.left x c) }
        ensures context { IfOk result (λ c. told_by c.ctx ≡ told_by ctx) }
        ensures unwritten { IfOk result (λ c. c.paths.items ≡ []) }
        ensures refused { IfErr result (λ e. (x : Course) → IsGiven (allowed_in ctx) (strategy_data strategy.now) (B.kind source) (is_marked ctx) column (outset_of part) (B.to_come source) x → HasCause x e) }
        ensures uncompressed { IfErr result (λ e. is_compress_fault e ≡ false) }
    {
        vx_plan::start_faults_stand();
        vx_machine_turns::start_faults_agree();
        vx_machine_runs::course_ends();
        let ColumnPart { universe, ids, eof } = part;
        let mut desk = Desk::new(alloc, universe);
        let machine = Machine::start_at(
            alloc,
            strategy,
            source.dtype(),
            &ctx,
            &mut desk,
            ids,
            eof,
        )?;
        let paths = Vec::new(alloc);
        let ordered = Vec::new(alloc);
        Ok(ColumnMachine {
            alloc,
            column,
            machine,
            desk,
            source,
            ctx,
            paths,
            ordered,
        })
    }

    /// Whether all is written.
    pub fn finished(&self) -> bool
        ensures told { result ≡ is_finished self.now.machine }
        ensures view { result ≡ has_finished (machine_of self.now.machine) }
    {
        self.machine.finished()
    }

    /// The least path at which it may still write; nothing where nothing more is written.
    pub fn front(&self) -> Result<Option<Path>, AllocError>
        ensures { IfOk result (IsFront (universe_of self.now.desk)) }
    {
        match self.desk.least() {
            Some(least) => Ok(Some(Path::from_slice(self.alloc, least)?)),
            None => Ok(None),
        }
    }

    /// How many bytes are held back.
    pub fn held(&self) -> u64
        ensures { result ≡ counted self.now.ctx }
    {
        self.ctx.buffered_bytes()
    }

    /// The paths of the segments so far, in order.
    pub fn paths(&self) -> &[Path]
        ensures { result.now ≡ self.now.paths.items }
    {
        self.paths.as_slice()
    }

    /// The first ready task's next act; and the segment, if it writes one. After an error `refuse` alone is left to call.
    pub fn step<C: CompressorPlugin>(
        &mut self,
        compressor: &mut C,
    ) -> Result<Option<Vec<u8>>, WriteError>
        requires balance { InBalance B.may_fail self.old }
        requires going { has_finished (machine_of self.old.machine) ≡ false }
        requires underway { (x : Course) × IsSet (C.image (C.kind compressor.old)) x self.old × Underway B.to_come B.kind B.left x self.old }
        ensures balance { InBalance B.may_fail self.new }
        ensures context { told_by self.new.ctx ≡ told_by self.old.ctx }
        ensures kind { C.kind compressor.new ≡ C.kind compressor.old }
        ensures pressed { StepPressed (C.faults compressor.old) (C.faults compressor.new) (C.may_fail compressor.old) (C.may_fail compressor.new) result }
        ensures led { OnOk result ((x : Course) → IsSet (C.image (C.kind compressor.old)) x self.old → Underway B.to_come B.kind B.left x self.old → Underway B.to_come B.kind B.left x self.new) }
        ensures wrote { IfOk result (λ w. (x : Course) → IsSet (C.image (C.kind compressor.old)) x self.old → Underway B.to_come B.kind B.left x self.old
            → Wrote x self.old.paths.items self.new.paths.items w) }
        ensures cause { IfErr result (λ e. (x : Course) → IsSet (C.image (C.kind compressor.old)) x self.old → Underway B.to_come B.kind B.left x self.old → HasCause x e) }
    {
        vx_least_writes::writes();
        vx_machine_runs::courses();
        vx_machine_runs::course_ends();
        let here = self.front()?;
        make_room(&mut self.paths, &mut self.ordered)?;
        let _step = self.machine.step(
            0,
            &mut self.ctx,
            &mut self.source,
            &mut self.desk,
            compressor,
        )?;
        let mut kept = self.desk.take();
        let Some(segment) = kept.pop() else {
            return Ok(None);
        };
        match here {
            Some(path) => self.paths.push_reserved(path),
            // Only what is held is written.
            None => unreachable!(),
        }
        Ok(Some(segment))
    }

    /// The layout, and the paths of its segments in its order, a node's before its children's. It takes no memory: each step made room.
    ///
    /// A layout that is written keeps its children, but its type would let them stay in their bytes: of such it would answer that memory
    /// is wanting.
    pub fn finish_with_paths(self) -> Result<(Layout, Vec<Path>), AllocError>
        requires done { IsTrue (is_finished self.machine) × (has_finished (machine_of self.machine) ≡ true) }
        requires balance { InBalance B.may_fail self }
        requires underway { (x : Course) × Underway B.to_come B.kind B.left x self }
        ensures done { IfOk result (λ r. (x : Course) → Underway B.to_come B.kind B.left x self → IsDone (plan_of x) (layout_data r.0) r.1.items) }
        ensures count { IfOk result (λ r. length r.1.items ≡ length self.paths.items) }
    {
        vx_machine_runs::course_ends();
        vx_machine_runs::course_counts();
        let ColumnMachine {
            alloc: _,
            column: _,
            machine,
            desk: _desk,
            source: _source,
            ctx: _ctx,
            paths,
            ordered,
        } = self;
        let layout = machine.finish();
        let Ok(in_order) = paths_in_order(&layout, paths, ordered) else {
            drop(layout);
            return Err(AllocError);
        };
        Ok((layout, in_order))
    }

    /// Gives all up that it holds.
    pub fn refuse(self)
        requires { InBalance B.may_fail self }
    {
        let ColumnMachine {
            alloc: _,
            column: _,
            machine,
            mut desk,
            source: _source,
            mut ctx,
            paths: _paths,
            ordered: _ordered,
        } = self;
        machine.refuse(&mut ctx, &mut desk);
    }
}

/// Makes room for one path more, and for as many in another order.
fn make_room(paths: &mut Vec<Path>, ordered: &mut Vec<Path>) -> Result<(), AllocError>
    ensures same { paths.new.items ≡ paths.old.items }
    ensures count { vec_len paths.new ≡ vec_len paths.old }
    ensures count_ordered { vec_len ordered.new ≡ vec_len ordered.old }
    ensures kept { vec_capacity ordered.old ≤ vec_capacity ordered.new }
    ensures room { OnOk result (vec_len paths.new < vec_capacity paths.new) }
    ensures room_ordered { OnOk result (vec_len ordered.new + vec_len paths.new + 1 ≤ vec_capacity ordered.new) }
{
    paths.reserve(1)?;
    ordered.reserve(paths.capacity())
}
