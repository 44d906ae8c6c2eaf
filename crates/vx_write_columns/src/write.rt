//! The write by columns.

ghost use Rattle.std.specs.Prelude.{◌≡◌, ◌+◌, ◌^◌, ◌<◌, ◌≤◌, max, ℕ, true, List, Some, map, length, sum_by, vec_len, vec_capacity, All, IfOk, IfErr, OnOk};
ghost use Rattle.vx_model.specs.ChunkData.{ChunkData};
ghost use Rattle.vx_model.specs.TyView.{ty};
ghost use Rattle.vx_fault.specs.Counts.{IsCalm};
ghost use Rattle.vx_strategy_spec.specs.StrategyData.{StrategyData};
ghost use Rattle.vx_strategy_spec.specs.Dispatch.{dispatch};
ghost use Rattle.vx_strategy.specs.NodeViews.{struct_way};
ghost use Rattle.vx_strategy.specs.StrategyView.{strategy_data};
ghost use Rattle.vx_sink.specs.ContextView.{is_marked};
ghost use Rattle.vx_layout_tree.specs.LayoutView.{layout_data};
ghost use Rattle.vx_plan.specs.Number.{segments};
ghost use Rattle.vx_plan.specs.Valid.{Valid, Keeps};
ghost use Rattle.vx_seats.specs.History.{numbered};
ghost use Rattle.vx_seats.specs.Turns.{NeverFails};
ghost use Rattle.vx_column_worker.specs.Course.{plan_of};
ghost use Rattle.vx_column_worker.specs.Jobs.{JobsFit};
ghost use Rattle.vx_column_worker.specs.Staffed.{IsStaffed, list_kind, list_may_fail, list_to_come, list_left};
ghost use Rattle.vx_write_answer.specs.declared.error.WriteError.TheVariants.{SinkFault, CompressFault, OutOfMemory};
ghost use Rattle.vx_machine_node.specs.Context.{setting_of};
ghost use Rattle.vx_write.specs.Written.{Planned, Wrote};
ghost use Rattle.vx_write.specs.Answer.{SameContext};
ghost use Rattle.vx_write.specs.ColumnCount.{column_count, columns_of};
ghost use Rattle.vx_write.specs.Readable.{IsReadable};
ghost use Rattle.vx_write_columns.specs.Beside.{kind_of, PassesBeside};
ghost use Rattle.vx_write_columns.specs.Courses.{courses_of, FitWithParts};
ghost use Rattle.vx_write_columns.specs.Ends.{IsFirstRefusal, EndsTell};
ghost use Rattle.vx_write_columns.specs.Shared.{SharedDone, SharedStopped};
ghost use Rattle.vx_write_columns.specs.Stopped.{ColumnsHalted, ReadWhole, AllKept, AllCalm, SinkFailed, CompressorFailed, KeptOrFailed, AllKeptOrFailed, Failed, IsBack};

use std::alloc::Global;
use std::marker::Brand;
use std::sync::Wait;
use std::sync::ledger::{Blank, Ledger};
use std::thread::Threads;
use vx_column_ids::{ColumnPart, column_parts, give_up_parts};
use vx_column_inputs::{Columns, Input, prepared};
use vx_column_layouts::joined;
use vx_column_worker::{Staff, Worker, dismiss, hire, run_workers};
use vx_gate::Gate;
use vx_layout_tree::Layout;
use vx_model::DType;
use vx_order_answer::Receipt;
use vx_path::owned::Path;
use vx_seats::Pairs;
use vx_shared::{OrderedSink, SharedBytesTracker};
use vx_sink::{BatchSource, CompressorPlugin, LayoutWriterContext, SegmentSink};
use vx_strategy::{Strategy, StructStrategy};
use vx_table_dispatch::dispatch;
use vx_write_answer::WriteError;

/// Writes the source's batches by a strategy that writes structs column by column: reads the source to its end, splits the
/// batches into columns, and runs a worker a column, each in a thread of its own and with a compressor of its own; the gate is
/// asked before each of its calls. Layout and segments are those of `write_stream`.
///
/// Sink and compressors are handed back, the compressors in order. Where columns are refused, the error is that of the first,
/// in order, that ended the write. A worker waits where another column has the smaller path; the call returns where all do.
/// Where no thread can be made, a column runs behind the others.
pub fn write_columns<
    B: BatchSource,
    S: SegmentSink + Send,
    C: CompressorPlugin + Send,
    G: Gate + Sync,
    R: Threads + Wait + Sync,
>(
    rt: &R,
    alloc: Global,
    strategy: &Strategy,
    ctx: &mut LayoutWriterContext,
    source: &mut B,
    sink: S,
    compressors: Vec<C>,
    gate: &G,
) -> Result<(Layout, S, Vec<C>), (WriteError, S, Vec<C>)>
    requires columns { column_count (strategy_data strategy.now) (B.kind source.old) ≡ Some (vec_len compressors) }
    requires some { 0 < vec_len compressors }
    requires kind { All (λ c. C.kind c ≡ kind_of (map C.kind compressors.items)) compressors.items }
    // Ok gives the plan of all batches, from which their rows are read back, and comes of valid input alone.
    ensures wrote { IfOk result (λ r. Planned (setting_of ctx.old (C.image (kind_of (map C.kind compressors.items)))) (strategy_data strategy.now) (B.kind source.old)
        (is_marked ctx.old) (B.to_come source.old)
        (Wrote (B.kind source.old) (S.next sink) (S.next r.1) (S.segments sink) (S.segments r.1) (layout_data r.0))) }
    // Readers build the same layout of its bytes, and prune by its zone tables without a loss.
    ensures readable { IfOk result (λ r. Planned (setting_of ctx.old (C.image (kind_of (map C.kind compressors.items)))) (strategy_data strategy.now) (B.kind source.old)
        (is_marked ctx.old) (B.to_come source.old)
        (λ xs p. IsReadable (setting_of ctx.old (C.image (kind_of (map C.kind compressors.items)))) (B.kind source.old) (S.next sink) (segments p) (layout_data r.0))) }
    // After a refusal the segments appended are of the plan of the batches taken, in ascending order, and the error has its cause there.
    // A column's refusal is the first, in order, that isn't a stop by another's.
    ensures halted { IfErr result (λ r. ColumnsHalted (setting_of ctx.old (C.image (kind_of (map C.kind compressors.items)))) (strategy_data strategy.now) (B.kind source.old)
        (is_marked ctx.old) (PassesBeside (setting_of ctx.old (C.image (kind_of (map C.kind compressors.items)))) (strategy_data strategy.now) (B.kind source.old) (is_marked ctx.old))
        (IsFirstRefusal (setting_of ctx.old (C.image (kind_of (map C.kind compressors.items)))) (strategy_data strategy.now) (B.kind source.old) (is_marked ctx.old) (S.next sink)
        (EndsTell (S.faults sink) (S.faults r.1) (S.may_fail sink) C.faults C.may_fail compressors.items r.2.items))
        (S.next sink) (S.next r.1) (B.faults source.old) (B.faults source.new) (B.may_fail source.old) (B.must_fail source.old) (B.to_come source.old) (B.to_come source.new) (S.segments sink) (S.segments r.1) r.0) }
    // A fault is told by the count of the object that failed, and comes where it may.
    ensures read { OnOk result (ReadWhole (B.faults source.old) (B.faults source.new) (B.may_fail source.old) (B.must_fail source.old) (B.to_come source.old) (B.to_come source.new)) }
    ensures kept { IfOk result (λ r. (S.faults r.1 ≡ S.faults sink) × AllKept C.faults compressors.items r.2.items) }
    ensures sink { IfErr result (λ r. r.0 ≡ SinkFault → SinkFailed (S.faults sink) (S.faults r.1) (S.may_fail sink)) }
    ensures sink_told { IfErr result (λ r. KeptOrFailed (S.faults sink) (S.faults r.1) (S.may_fail sink)) }
    ensures compressor { IfErr result (λ r. r.0 ≡ CompressFault → CompressorFailed C.faults C.may_fail compressors.items r.2.items) }
    ensures compressors_told { IfErr result (λ r. AllKeptOrFailed C.faults C.may_fail compressors.items r.2.items) }
    // Valid input, where nothing fails, gives Ok unless memory runs out.
    ensures complete { (xs : List ChunkData) → B.to_come source.old ≡ Some xs
        → Valid (setting_of ctx.old (C.image (kind_of (map C.kind compressors.items)))) (strategy_data strategy.now) (B.kind source.old) (is_marked ctx.old) (S.next sink) 0 xs
        → IsCalm (B.faults source.old) (B.faults source.new) → IfErr result (λ r. IsCalm (S.faults sink) (S.faults r.1) → AllCalm C.faults compressors.items r.2.items → r.0 ≡ OutOfMemory) }
    // Ok or refused, nothing is held back any more; the sink comes back as the same borrow, and a compressor for each, of its kind.
    ensures same { SameContext ctx.old ctx.new × (B.kind source.new ≡ B.kind source.old) }
    ensures back { IfOk result (λ r. IsBack S.borrow C.kind sink r.1 compressors.items r.2.items) }
    ensures back_refused { IfErr result (λ r. IsBack S.borrow C.kind sink r.1 compressors.items r.2.items) }
{
    vx_setting::real_settings_keep();
    vx_prune_laws::pruning_keeps_rows();
    vx_parse_back_laws::written_is_parsed();
    vx_machine_promises::anywhere();
    // No encoding is listed twice.
    ctx.array_ctx().ids();
    match strategy {
        Strategy::Struct(fields) => {
            write_fields(rt, alloc, fields, ctx, source, sink, compressors, gate)
        }
        Strategy::Table(table) => match dispatch(table, source.dtype()) {
            Ok(Strategy::Struct(fields)) => {
                write_fields(rt, alloc, &fields, ctx, source, sink, compressors, gate)
            }
            Ok(_) => unreachable!(),
            Err(_) => Err((WriteError::OutOfMemory, sink, compressors)),
        },
        // Other strategies have no columns.
        _ => unreachable!(),
    }
}

/// The same by a strategy of structs. `wrote` and `halted` are told for each strategy that stands for it at the type.
fn write_fields<
    B: BatchSource,
    S: SegmentSink + Send,
    C: CompressorPlugin + Send,
    G: Gate + Sync,
    R: Threads + Wait + Sync,
>(
    rt: &R,
    alloc: Global,
    fields: &StructStrategy,
    ctx: &LayoutWriterContext,
    source: &mut B,
    sink: S,
    compressors: Vec<C>,
    gate: &G,
) -> Result<(Layout, S, Vec<C>), (WriteError, S, Vec<C>)>
    requires columns { columns_of (B.kind source.old) ≡ Some (vec_len compressors) }
    requires some { 0 < vec_len compressors }
    requires kind { All (λ c. C.kind c ≡ kind_of (map C.kind compressors.items)) compressors.items }
    ensures wrote { IfOk result (λ r. (w : StrategyData) → dispatch w (B.kind source.old) ≡ struct_way fields.now → Keeps (setting_of ctx.now (C.image (kind_of (map C.kind compressors.items))))
        → Planned (setting_of ctx.now (C.image (kind_of (map C.kind compressors.items)))) w (B.kind source.old) (is_marked ctx.now) (B.to_come source.old)
        (Wrote (B.kind source.old) (S.next sink) (S.next r.1) (S.segments sink) (S.segments r.1) (layout_data r.0))) }
    ensures halted { IfErr result (λ r. (w : StrategyData) → dispatch w (B.kind source.old) ≡ struct_way fields.now
        → ColumnsHalted (setting_of ctx.now (C.image (kind_of (map C.kind compressors.items)))) w (B.kind source.old)
        (is_marked ctx.now) (PassesBeside (setting_of ctx.now (C.image (kind_of (map C.kind compressors.items)))) w (B.kind source.old) (is_marked ctx.now))
        (IsFirstRefusal (setting_of ctx.now (C.image (kind_of (map C.kind compressors.items)))) w (B.kind source.old) (is_marked ctx.now) (S.next sink)
        (EndsTell (S.faults sink) (S.faults r.1) (S.may_fail sink) C.faults C.may_fail compressors.items r.2.items))
        (S.next sink) (S.next r.1) (B.faults source.old) (B.faults source.new) (B.may_fail source.old) (B.must_fail source.old) (B.to_come source.old) (B.to_come source.new) (S.segments sink) (S.segments r.1) r.0) }
    ensures read { OnOk result (ReadWhole (B.faults source.old) (B.faults source.new) (B.may_fail source.old) (B.must_fail source.old) (B.to_come source.old) (B.to_come source.new)) }
    ensures kept { IfOk result (λ r. (S.faults r.1 ≡ S.faults sink) × AllKept C.faults compressors.items r.2.items) }
    ensures failed { IfErr result (λ r. Failed (S.faults sink) (S.faults r.1) (S.may_fail sink) C.faults C.may_fail compressors.items r.2.items r.0) }
    ensures source { B.kind source.new ≡ B.kind source.old }
    ensures back { IfOk result (λ r. IsBack S.borrow C.kind sink r.1 compressors.items r.2.items) }
    ensures back_refused { IfErr result (λ r. IsBack S.borrow C.kind sink r.1 compressors.items r.2.items) }
{
    vx_plan::rows_come_back();
    let count = compressors.len();
    match prepared(alloc, fields, ctx, source, count) {
        Ok(columns) => {
            let blanks = Blanks::new(count);
            write_shared::<S, C, G, R, Brand, Brand, Brand, Brand, Brand, Brand>(
                rt,
                alloc,
                columns,
                sink,
                compressors,
                gate,
                blanks,
            )
        }
        Err(error) => Err((error, sink, compressors)),
    }
}

/// The ledgers' blanks.
#[derive(Drop)]
struct Blanks {
    writes: Blank,
    faults: Blank,
    made: Blank,
    seen: Blank,
    bytes: Blank,
}

impl Blanks {
    /// Of so many parts each.
    fn new(parts: usize) -> Blanks
        ensures { (result.writes.parts ≡ parts) × (result.faults.parts ≡ parts) × (result.made.parts ≡ parts) × (result.seen.parts ≡ parts) × (result.bytes.parts ≡ parts) }
    {
        let parts = parts as u64;
        Blanks {
            writes: Blank::new(parts),
            faults: Blank::new(parts),
            made: Blank::new(parts),
            seen: Blank::new(parts),
            bytes: Blank::new(parts),
        }
    }
}

/// Writes the columns into a sink that they share.
fn write_shared<
    S: SegmentSink + Send,
    C: CompressorPlugin + Send,
    G: Gate + Sync,
    R: Threads + Wait + Sync,
    W: Ledger + Send + Sync,
    F: Ledger + Send + Sync,
    M: Ledger + Send + Sync,
    N: Ledger + Send + Sync,
    L: Ledger + Send + Sync,
    P: Pairs + Send + Sync,
>(
    rt: &R,
    alloc: Global,
    columns: Columns,
    sink: S,
    compressors: Vec<C>,
    gate: &G,
    blanks: Blanks,
) -> Result<(Layout, S, Vec<C>), (WriteError, S, Vec<C>)>
    requires count { (columns_of (ty columns.dtype) ≡ Some (vec_len compressors)) × (vec_len columns.fronts ≡ vec_len compressors) × (vec_len columns.inputs ≡ vec_len compressors)
        × (P.columns ≡ vec_len compressors) × (0 < vec_len compressors) × (vec_len compressors + 1 < 2 ^ 64) }
    requires writes { (blanks.writes.name ≡ W.name) × (blanks.writes.parts ≡ W.parts) × (W.parts ≡ P.columns) }
    requires faults { (blanks.faults.name ≡ F.name) × (blanks.faults.parts ≡ F.parts) × (F.parts ≡ P.columns) }
    requires made { (blanks.made.name ≡ M.name) × (blanks.made.parts ≡ M.parts) × (M.parts ≡ P.columns) }
    requires seen { (blanks.seen.name ≡ N.name) × (blanks.seen.parts ≡ N.parts) × (N.parts ≡ P.columns) }
    requires bytes { (blanks.bytes.name ≡ L.name) × (blanks.bytes.parts ≡ L.parts) × (L.parts ≡ P.columns) }
    requires sink { (S.next sink ≡ P.first) × (S.segments sink ≡ P.told) × (S.faults sink ≡ P.faults) × (S.borrow sink ≡ P.borrow) }
    requires may_fail { (NeverFails P.may_fail → NeverFails (S.may_fail sink)) × (NeverFails (S.may_fail sink) → NeverFails P.may_fail) }
    requires fits { FitWithParts P.pairs C.image C.kind columns.batches columns.inputs.items compressors.items }
    requires all { sum_by (λ x. length (plan_of x).pairs) (courses_of C.image C.kind list_to_come 0 columns.inputs.items compressors.items) ≡ length P.pairs }
    ensures done { IfOk result (λ r. SharedDone P.pairs (S.next sink) (S.next r.1) (S.segments sink) (S.segments r.1)
        (courses_of C.image C.kind list_to_come 0 columns.inputs.items compressors.items) (ty columns.dtype) columns.rows (layout_data r.0)) }
    ensures stopped { IfErr result (λ r. SharedStopped P.pairs (S.next sink) (S.next r.1) (S.segments sink) (S.segments r.1)
        (EndsTell (S.faults sink) (S.faults r.1) (S.may_fail sink) C.faults C.may_fail compressors.items r.2.items)
        (courses_of C.image C.kind list_to_come 0 columns.inputs.items compressors.items) r.0) }
    ensures kept { IfOk result (λ r. (S.faults r.1 ≡ S.faults sink) × AllKept C.faults compressors.items r.2.items) }
    ensures failed { IfErr result (λ r. Failed (S.faults sink) (S.faults r.1) (S.may_fail sink) C.faults C.may_fail compressors.items r.2.items r.0) }
    ensures back { IfOk result (λ r. IsBack S.borrow C.kind sink r.1 compressors.items r.2.items) }
    ensures back_refused { IfErr result (λ r. IsBack S.borrow C.kind sink r.1 compressors.items r.2.items) }
{
    let Columns {
        dtype,
        rows,
        batches,
        fronts,
        inputs,
    } = columns;
    let Ok(parts) = column_parts(alloc, batches, compressors.len()) else {
        return Err((WriteError::OutOfMemory, sink, compressors));
    };
    match staffed::<S, C, W, F, M, N, L, P>(alloc, fronts, sink, compressors, blanks) {
        Ok((shared, tracker, room, staff)) => {
            write_beside(
                rt, alloc, gate, shared, tracker, room, inputs, parts, staff, dtype, rows,
            )
        }
        Err((sink, compressors)) => {
            give_up_parts(parts);
            Err((WriteError::OutOfMemory, sink, compressors))
        }
    }
}

/// The shared sink and the shared tracker, places for workers, and what each worker is given besides its part.
fn staffed<
    S: SegmentSink,
    C: CompressorPlugin,
    W: Ledger,
    F: Ledger,
    M: Ledger,
    N: Ledger,
    L: Ledger,
    P: Pairs,
>(
    alloc: Global,
    fronts: Vec<Path>,
    sink: S,
    compressors: Vec<C>,
    blanks: Blanks,
) -> Result<
    (
        OrderedSink<S, W, F, M, N, P>,
        SharedBytesTracker<L>,
        Vec<Worker<C, W, F, M, N, L, P>>,
        Staff<C, W, F, M, N, L, P>,
    ),
    (S, Vec<C>),
>
    requires count { (vec_len fronts ≡ vec_len compressors) × (P.columns ≡ vec_len compressors) × (0 < vec_len compressors) }
    requires writes { (blanks.writes.name ≡ W.name) × (blanks.writes.parts ≡ W.parts) × (W.parts ≡ P.columns) }
    requires faults { (blanks.faults.name ≡ F.name) × (blanks.faults.parts ≡ F.parts) × (F.parts ≡ P.columns) }
    requires made { (blanks.made.name ≡ M.name) × (blanks.made.parts ≡ M.parts) × (M.parts ≡ P.columns) }
    requires seen { (blanks.seen.name ≡ N.name) × (blanks.seen.parts ≡ N.parts) × (N.parts ≡ P.columns) }
    requires bytes { (blanks.bytes.name ≡ L.name) × (blanks.bytes.parts ≡ L.parts) × (L.parts ≡ P.columns) }
    requires sink { (S.next sink ≡ P.first) × (S.segments sink ≡ P.told) × (S.faults sink ≡ P.faults) × (S.borrow sink ≡ P.borrow) }
    requires may_fail { NeverFails P.may_fail → NeverFails (S.may_fail sink) }
    ensures count { IfOk result (λ r. IsStaffed (vec_len compressors) r.3.seats r.3.bytes r.3.compressors) }
    ensures none { IfOk result (λ r. All (λ s. (s.writes.amount ≡ 0) × (s.faults.amount ≡ 0) × (s.made.amount ≡ 0) × (s.seen.amount ≡ 0)) r.3.seats.items) }
    ensures compressors { IfOk result (λ r. r.3.compressors ≡ compressors) }
    ensures outcomes { IfOk result (λ r. (vec_len r.3.outcomes ≡ 0) × (vec_len compressors ≤ vec_capacity r.3.outcomes)) }
    ensures room { IfOk result (λ r. (vec_len r.2 ≡ 0) × (vec_len compressors ≤ vec_capacity r.2)) }
    ensures refused { IfErr result (λ r. (r.0 ≡ sink) × (r.1 ≡ compressors)) }
{
    let count = compressors.len();
    let Ok(outcomes) = Vec::with_capacity(alloc, count) else {
        return Err((sink, compressors));
    };
    let Ok(room) = Vec::with_capacity(alloc, count) else {
        return Err((sink, compressors));
    };
    let (tracker, bytes) = match SharedBytesTracker::<L>::new(alloc, count, blanks.bytes) {
        Ok(made) => made,
        Err(_) => {
            room.destroy_empty();
            return Err((sink, compressors));
        }
    };
    match OrderedSink::new(
        sink,
        fronts,
        blanks.writes,
        blanks.faults,
        blanks.made,
        blanks.seen,
    ) {
        Ok((shared, seats)) => {
            let staff = Staff {
                seats,
                bytes,
                compressors,
                outcomes,
            };
            Ok((shared, tracker, room, staff))
        }
        Err((sink, _)) => {
            let _total = tracker.close(bytes);
            room.destroy_empty();
            Err((sink, compressors))
        }
    }
}

/// Hires a worker a column, runs them, and joins what comes of them.
fn write_beside<
    S: SegmentSink + Send,
    C: CompressorPlugin + Send,
    G: Gate + Sync,
    R: Threads + Wait + Sync,
    W: Ledger + Send + Sync,
    F: Ledger + Send + Sync,
    M: Ledger + Send + Sync,
    N: Ledger + Send + Sync,
    L: Ledger + Send + Sync,
    P: Pairs + Send + Sync,
>(
    rt: &R,
    alloc: Global,
    gate: &G,
    shared: OrderedSink<S, W, F, M, N, P>,
    tracker: SharedBytesTracker<L>,
    room: Vec<Worker<C, W, F, M, N, L, P>>,
    inputs: Vec<Input>,
    parts: Vec<ColumnPart>,
    mut staff: Staff<C, W, F, M, N, L, P>,
    dtype: DType,
    rows: u64,
) -> Result<(Layout, S, Vec<C>), (WriteError, S, Vec<C>)>
    requires count { (columns_of (ty dtype) ≡ Some (vec_len inputs)) × (0 < vec_len inputs) × IsStaffed (vec_len inputs) staff.seats staff.bytes staff.compressors }
    requires parts { vec_len parts ≡ vec_len inputs }
    requires ledgers { (W.parts ≡ vec_len inputs) × (F.parts ≡ vec_len inputs) × (M.parts ≡ vec_len inputs) }
    requires none { All (λ s. (s.writes.amount ≡ 0) × (s.faults.amount ≡ 0) × (s.made.amount ≡ 0) × (s.seen.amount ≡ 0)) staff.seats.items }
    requires room { (vec_len room ≡ 0) × (vec_len inputs ≤ vec_capacity room) }
    requires outcomes { (vec_len staff.outcomes ≡ 0) × (vec_len inputs ≤ vec_capacity staff.outcomes) }
    requires fits { JobsFit P.pairs C.image C.kind list_kind list_may_fail list_to_come list_left 0 inputs.items parts.items staff.compressors.items }
    requires all { sum_by (λ x. length (plan_of x).pairs) (courses_of C.image C.kind list_to_come 0 inputs.items staff.compressors.items) ≡ length P.pairs }
    ensures done { IfOk result (λ r. SharedDone P.pairs P.first (S.next r.1) P.told (S.segments r.1)
        (courses_of C.image C.kind list_to_come 0 inputs.items staff.compressors.items) (ty dtype) rows (layout_data r.0)) }
    ensures stopped { IfErr result (λ r. SharedStopped P.pairs P.first (S.next r.1) P.told (S.segments r.1)
        (EndsTell P.faults (S.faults r.1) P.may_fail C.faults C.may_fail staff.compressors.items r.2.items)
        (courses_of C.image C.kind list_to_come 0 inputs.items staff.compressors.items) r.0) }
    ensures kept { IfOk result (λ r. (S.faults r.1 ≡ P.faults) × AllKept C.faults staff.compressors.items r.2.items) }
    ensures failed { IfErr result (λ r. Failed P.faults (S.faults r.1) P.may_fail C.faults C.may_fail staff.compressors.items r.2.items r.0) }
    ensures back { IfOk result (λ r. (S.borrow r.1 ≡ P.borrow) × (map C.kind r.2.items ≡ map C.kind staff.compressors.items)) }
    ensures back_refused { IfErr result (λ r. (S.borrow r.1 ≡ P.borrow) × (map C.kind r.2.items ≡ map C.kind staff.compressors.items)) }
{
    let mut workers = hire(room, inputs, parts, &mut staff);
    run_workers(rt, alloc, gate, &shared, &tracker, &mut workers);
    dismiss(workers, &mut staff);
    let Staff {
        seats,
        bytes,
        compressors,
        outcomes,
    } = staff;
    let _total = tracker.close(bytes);
    let (sink, history) = shared.close(seats);
    numbers_fit(history.as_slice());
    match joined(alloc, dtype, rows, outcomes, history) {
        Ok(layout) => Ok((layout, sink, compressors)),
        Err(error) => Err((error, sink, compressors)),
    }
}

/// Does nothing that is seen; tells a caller's proof that numbers of segments, which have 32 bits, end at 2^32 at most.
fn numbers_fit(history: &[Receipt])
    ensures { (first : ℕ) → numbered first history.now ≡ true → first + length history.now ≤ max first (2 ^ 32) }
{
    let Some(last) = history.last() else {
        return;
    };
    has_32_bits(last.number);
}

/// Does nothing; tells a caller's proof what the type says.
fn has_32_bits(number: u32)
    ensures { number < 2 ^ 32 }
{}
