//! Nodes as they stand before their first chunk.

ghost use Rattle.std.specs.Prelude.{◌≡◌, None, true, IsTrue, IfOk, IfErr, OnOk};
ghost use Rattle.std.specs.Arc.{arc_value};
ghost use Rattle.vx_model.specs.Ty.{is_list};
ghost use Rattle.vx_model.specs.TyView.{ty};
ghost use Rattle.vx_chunk_cells.specs.Parts.{element_type, struct_fields};
ghost use Rattle.vx_model.specs.ChunkData.{is_dict_type};
ghost use Rattle.vx_path.specs.Path.{Eof};
ghost use Rattle.vx_split.specs.ListState.{state_at};
ghost use Rattle.vx_strategy.specs.NodeViews.{dict_way};
ghost use Rattle.vx_strategy_spec.specs.Walk.{duplicate};
ghost use Rattle.vx_machine_state.specs.Start.{first_mind};
ghost use Rattle.vx_machine_node.specs.Causes.{StartMay};
ghost use Rattle.vx_machine_fresh.specs.Fresh.{NodeRefused};
ghost use Rattle.vx_machine_node.specs.View.{form_at, mind_of};
ghost use Rattle.vx_machine_node.specs.declared.node.Local.TheVariants.{Probe};

use std::alloc::{AllocError, Global};
use std::sync::Arc;
use vx_machine_node::{ChunkedNode, ColumnsNode, DictNode, ListsNode};
use vx_model::DType;
use vx_split::{ColumnSplit, ListSplit};
use vx_strategy::{ChildStrategy, ChunkedLayoutStrategy, DictStrategy};
use vx_write_answer::WriteError;

/// With the child's strategy copied.
pub fn chunked_node(
    chunked: &ChunkedLayoutStrategy,
    dtype: Arc<DType>,
    marked: bool,
) -> Result<ChunkedNode, WriteError>
    ensures node { IfOk result (λ n. (n.dtype ≡ dtype) × (n.child ≡ chunked.now.child) × (n.marked ≡ marked)) }
    ensures memory { IfErr result (λ e. e ≡ WriteError.OutOfMemory) }
{
    match chunked.child().clone() {
        Ok(child) => Ok(ChunkedNode {
            dtype,
            child,
            marked,
        }),
        Err(_) => {
            drop(dtype);
            Err(WriteError::OutOfMemory)
        }
    }
}

/// Of a struct whose names are distinct.
pub fn columns_node(alloc: Global, dtype: Arc<DType>) -> Result<ColumnsNode, WriteError>
    ensures node { IfOk result (λ n. n.dtype ≡ dtype) }
    ensures distinct { OnOk result (duplicate (struct_fields (ty (arc_value dtype))) ≡ None) }
    ensures cause { IfErr result StartMay }
    ensures refused { IfErr result (NodeRefused (ty (arc_value dtype))) }
{
    let Ok(copy) = DType::clone(&dtype) else {
        drop(dtype);
        return Err(WriteError::OutOfMemory);
    };
    match ColumnSplit::new(alloc, copy) {
        Ok(split) => Ok(ColumnsNode { dtype, split }),
        Err(error) => {
            drop(dtype);
            Err(error.into())
        }
    }
}

/// Of a list type.
pub fn lists_node(dtype: Arc<DType>) -> Result<ListsNode, WriteError>
    requires { IsTrue (is_list (ty (arc_value dtype))) }
    ensures node { IfOk result (λ n. (n.dtype ≡ dtype) × (n.split ≡ state_at (ty (arc_value dtype)) true 0)) }
    ensures memory { IfErr result (λ e. e ≡ WriteError.OutOfMemory) }
{
    match DType::clone(&dtype) {
        Ok(copy) => Ok(ListsNode {
            dtype,
            split: ListSplit::new(copy),
        }),
        Err(_) => {
            drop(dtype);
            Err(WriteError::OutOfMemory)
        }
    }
}

/// The type of a list's elements.
#[tactic(auto, using(vx_model::proofs::Views::view_rules))]
pub fn element_copy(dtype: &DType) -> Result<DType, AllocError>
    requires { IsTrue (is_list (ty dtype.now)) }
    ensures { IfOk result (λ t. ty t ≡ element_type (ty dtype.now)) }
{
    match dtype {
        DType::List(elements, _) => DType::clone(elements),
        DType::Bool(_) | DType::Primitive(..) | DType::Utf8(_) | DType::Binary(_) => unreachable!(),
        DType::Struct(..) | DType::Extension(_) => unreachable!(),
    }
}

/// Of a type that dictionaries can hold, with the strategies copied.
pub fn runs_node(
    alloc: Global,
    by: &DictStrategy,
    dtype: Arc<DType>,
    marked: bool,
) -> Result<Arc<DictNode>, WriteError>
    requires dict { IsTrue (is_dict_type (ty (arc_value dtype))) }
    ensures mind { IfOk result (λ n. (e : Eof) → mind_of (Probe n e) ≡ first_mind (form_at (dict_way by.now) (ty (arc_value dtype))) marked e) }
    ensures memory { IfErr result (λ e. e ≡ WriteError.OutOfMemory) }
{
    match dict_children(by) {
        Ok((codes, values, fallback)) => {
            let node = DictNode {
                dtype,
                marked,
                constraints: by.constraints(),
                probe: by.probe(),
                codes,
                values,
                fallback,
            };
            Ok(Arc::new(alloc, node)?)
        }
        Err(_) => {
            drop(dtype);
            Err(WriteError::OutOfMemory)
        }
    }
}

/// Codes, values and fallback.
fn dict_children(
    by: &DictStrategy,
) -> Result<(ChildStrategy, ChildStrategy, ChildStrategy), AllocError>
    ensures { IfOk result (λ r. (r.0 ≡ by.now.codes) × (r.1 ≡ by.now.values) × (r.2 ≡ by.now.fallback)) }
{
    let codes = by.codes().clone()?;
    let values = by.values().clone()?;
    let fallback = by.fallback().clone()?;
    Ok((codes, values, fallback))
}
