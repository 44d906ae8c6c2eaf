//! A flat node stores its one chunk as one segment.

ghost use Rattle.std.specs.Prelude.{◌≡◌, ◌≤◌, ℕ, List, Some, IsTrue, IfOk, IfErr, OnOk, OnErr};
ghost use Rattle.std.specs.Arc.{arc_value};
ghost use Rattle.vx_model.specs.declared.encoding.EncodingId.{EncodingId};
ghost use Rattle.vx_model.specs.ChunkData.{ChunkData};
ghost use Rattle.vx_model.specs.TyView.{ty};
ghost use Rattle.vx_layout_spec.specs.LayoutTree.{flat_layout};
ghost use Rattle.vx_layout_tree.specs.LayoutView.{layout_data};
ghost use Rattle.vx_segment_writer.specs.Segment.{encode, refused as refused_first};
ghost use Rattle.vx_array_tree.specs.Written.{IsEncoded};
ghost use Rattle.vx_sink.specs.ContextView.{listed, counted};
ghost use Rattle.vx_sequence.specs.Universe.{IsLeast};
ghost use Rattle.vx_machine_ids.specs.Stock.{none, both, id_stock};
ghost use Rattle.vx_machine_ids.specs.Balance.{Owned, Moved};
ghost use Rattle.vx_machine_turns.specs.Flat.{forbidden};
ghost use Rattle.vx_machine_state.specs.State.{Next, Tasks};
ghost use Rattle.vx_machine_nodes.specs.Acting.{IsAppended, AppendRefused, tree_kept, IsStored, WordRefused, first_word, is_flat, ChunkTaken, ChunkRefused};
ghost use Rattle.vx_machine_nodes.specs.Calls.{AppendTold};
ghost use Rattle.vx_machine_node.specs.Causes.{MayCome, AppendMay};
ghost use Rattle.vx_machine_node.specs.Ledger.{Paid, told_by, local_reserved};
ghost use Rattle.vx_machine_node.specs.Outcome.{Kept};
ghost use Rattle.vx_machine_node.specs.Stocks.{item_stock, local_stock, stored_stock};

use std::alloc::{AllocError, Global};
use std::sync::Arc;
use vx_array_tree::array_tree;
use vx_chunk::Chunk;
use vx_layout_tree::{FlatLayout, Layout};
use vx_machine_ids::give_up_id;
use vx_machine_node::{FlatNode, Item, Local, Segment, Stored, set_local};
use vx_model::{ArrayContext, Blob, DType, SegmentId};
use vx_order::{Attempt, Order};
use vx_segment_writer::encode_segment;
use vx_sequence::SequenceId;
use vx_sink::LayoutWriterContext;
use vx_write_answer::WriteError;

/// The segment's tree, where the node's layout keeps it.
fn kept_tree(alloc: Global, node: &FlatNode, segment: &[u8]) -> Result<Option<Blob>, AllocError>
    requires { IsEncoded segment.now }
    ensures { IfOk result (λ tree. (ids : List EncodingId) (p : ChunkData) → encode ids node.now.options.include_padding p ≡ Some segment.now → tree ≡ tree_kept ids node.now p) }
{
    if !node.options.inline_array_node {
        return Ok(None);
    }
    Ok(Some(Blob::from_slice(alloc, array_tree(segment))?))
}

/// The chunk's segment.
fn store(
    alloc: Global,
    ctx: &LayoutWriterContext,
    node: &FlatNode,
    chunk: &Chunk,
) -> Result<Segment, WriteError>
    ensures stored { IfOk result (IsStored (listed ctx.now) node.now chunk.now) }
    ensures refused { IfErr result (WordRefused (forbidden (refused_first (listed ctx.now) chunk.now))) }
    ensures cause { IfErr result MayCome }
{
    let bytes = encode_segment(alloc, ctx.array_ctx(), chunk, node.options.include_padding)?;
    let tree = kept_tree(alloc, node, &bytes)?;
    let dtype = Arc::try_clone(&node.dtype)?;
    Ok(Segment {
        bytes,
        tree,
        rows: chunk.len(),
        dtype,
    })
}

/// The segment of a first chunk; a further one is refused.
fn first_segment(
    alloc: Global,
    ctx: &LayoutWriterContext,
    local: &Local,
    chunk: &Chunk,
) -> Result<Segment, WriteError>
    ensures stored { IfOk result (λ x. (n : FlatNode) × (local.now ≡ Local.Empty n) × IsStored (listed ctx.now) n chunk.now x) }
    ensures refused { IfErr result (WordRefused (first_word (refused_first (listed ctx.now) chunk.now) local.now)) }
    ensures cause { IfErr result MayCome }
{
    match local {
        Local::Empty(node) => store(alloc, ctx, node, chunk),
        _ => Err(WriteError::ManyChunks),
    }
}

/// Takes the first chunk, or refuses a further one.
pub fn take_flat<O: Order>(
    alloc: Global,
    ctx: &mut LayoutWriterContext,
    order: &mut O,
    local: &mut Local,
    item: Item,
) -> Result<(), WriteError>
    requires owned { Owned (O.active order.old) (both (local_stock local.old) (item_stock item)) }
    requires reserved { local_reserved local.old ≤ counted ctx.old }
    ensures moved { Moved (O.active order.old) (O.active order.new) (both (local_stock local.old) (item_stock item)) (local_stock local.new) }
    ensures tracked { Paid ctx.old ctx.new (local_reserved local.old) (local_reserved local.new) }
    ensures context { told_by ctx.new ≡ told_by ctx.old }
    ensures done { OnOk result ((name : List ℕ) (ks : Tasks) (todo : List Next) → ChunkTaken ctx.old name ks item local.old local.new todo todo ks) }
    ensures refused { IsTrue (is_flat local.old) → IfErr result (λ e. (name : List ℕ) (ks : Tasks) → ChunkRefused ctx.old name ks item local.old e) }
    ensures outlet { O.outlet order.new ≡ O.outlet order.old }
    ensures sink { O.sink order.new ≡ O.sink order.old }
    ensures cause { IfErr result MayCome }
{
    let Item { id, chunk } = item;
    let segment = first_segment(alloc, ctx, local, &chunk);
    drop(chunk);
    match segment {
        Ok(segment) => {
            set_local(ctx, order, local, Local::Full(Stored { id, segment }));
            Ok(())
        }
        Err(error) => {
            give_up_id(order, id);
            Err(error)
        }
    }
}

/// Appends the bytes at the least path.
fn write<O: Order>(order: &mut O, id: SequenceId, bytes: &[u8]) -> Result<u32, WriteError>
    requires owned { Owned (O.active order.old) (id_stock id) }
    requires least { IsLeast (O.active order.old) id }
    requires allowed { O.may_write order.old id bytes.now }
    ensures moved { Moved (O.active order.old) (O.active order.new) (id_stock id) none }
    ensures appended { IfOk result (λ n. IsAppended (O.outlet order.old) n (id, bytes.now) (O.outlet order.new)) }
    ensures refused { IfErr result (AppendRefused (O.outlet order.old) (id, bytes.now)) }
    ensures kept { OnErr result (Kept (O.outlet order.old) (O.outlet order.new)) }
    ensures told { AppendTold (O.Sink.faults (O.sink order.old)) (O.Sink.faults (O.sink order.new)) (O.Sink.may_fail (O.sink order.old)) (O.Sink.may_fail (O.sink order.new))
        (O.Sink.must_fail (O.sink order.old)) (O.Sink.must_fail (O.sink order.new)) result }
    ensures cause { IfErr result AppendMay }
{
    match order.try_write(id, bytes) {
        Ok(Attempt::Written(receipt)) => Ok(receipt.number),
        Ok(
            Attempt::Waiting {
                id,
                smaller: _smaller,
            },
        ) => {
            prove!(false);
            order.release(id);
            Err(WriteError::OutOfMemory)
        }
        Err((id, error)) => {
            order.release(id);
            Err(error.into())
        }
    }
}

fn layout_parts(
    ctx: &LayoutWriterContext,
    dtype: &DType,
) -> Result<(DType, ArrayContext), AllocError>
    ensures dtype { IfOk result (λ p. ty p.0 ≡ ty dtype.now) }
    ensures encodings { IfOk result (λ p. p.1 ≡ listed ctx.now) }
{
    let encodings = ctx.array_ctx().clone()?;
    match dtype.clone() {
        Ok(dtype) => Ok((dtype, encodings)),
        Err(error) => {
            drop(encodings);
            Err(error)
        }
    }
}

/// Appends the segment. All memory is taken before the sink is called.
pub fn append<O: Order>(
    ctx: &LayoutWriterContext,
    order: &mut O,
    stored: Stored,
) -> Result<Layout, WriteError>
    requires owned { Owned (O.active order.old) (stored_stock stored) }
    requires least { IsLeast (O.active order.old) stored.id }
    requires allowed { O.may_write order.old stored.id stored.segment.bytes.items }
    ensures moved { Moved (O.active order.old) (O.active order.new) (stored_stock stored) none }
    ensures appended { IfOk result (λ l. (n : ℕ) × IsAppended (O.outlet order.old) n (stored.id, stored.segment.bytes.items) (O.outlet order.new)
        × (layout_data l ≡ flat_layout (ty (arc_value stored.segment.dtype)) stored.segment.rows (listed ctx.now) stored.segment.tree n)) }
    ensures refused { IfErr result (AppendRefused (O.outlet order.old) (stored.id, stored.segment.bytes.items)) }
    ensures kept { OnErr result (Kept (O.outlet order.old) (O.outlet order.new)) }
    ensures told { AppendTold (O.Sink.faults (O.sink order.old)) (O.Sink.faults (O.sink order.new)) (O.Sink.may_fail (O.sink order.old)) (O.Sink.may_fail (O.sink order.new))
        (O.Sink.must_fail (O.sink order.old)) (O.Sink.must_fail (O.sink order.new)) result }
    ensures cause { IfErr result AppendMay }
{
    let Stored { id, segment } = stored;
    match layout_parts(ctx, &segment.dtype) {
        Ok((dtype, encodings)) => {
            let written = write(order, id, &segment.bytes);
            let Segment {
                bytes,
                tree,
                rows,
                dtype: held,
            } = segment;
            drop((bytes, held));
            match written {
                Ok(number) => {
                    let id = SegmentId(number);
                    let flat = FlatLayout::new_with_metadata(rows, dtype, id, encodings, tree);
                    Ok(Layout::Flat(flat))
                }
                Err(error) => {
                    drop((dtype, encodings, tree));
                    Err(error)
                }
            }
        }
        Err(_) => {
            drop(segment);
            give_up_id(order, id);
            Err(WriteError::OutOfMemory)
        }
    }
}
