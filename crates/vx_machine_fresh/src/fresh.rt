//! Nodes that regroup, as they stand before their first chunk.

ghost use Rattle.std.specs.Prelude.{◌≡◌, [], None, IsTrue, IfOk, IfErr};
ghost use Rattle.std.specs.Arc.{arc_value};
ghost use Rattle.vx_model.specs.TyView.{ty};
ghost use Rattle.vx_strategy_spec.specs.StrategyData.{by_blocks, by_bytes, into_one};
ghost use Rattle.vx_strategy_options.specs.RuleViews.{block_rule};
ghost use Rattle.vx_machine_node.specs.Regrouped.{is_of, is_idle, rows_counted, sizes_in};
ghost use Rattle.vx_machine_fresh.specs.Fresh.{IsFresh, Begins};

use std::alloc::Global;
use std::collections::VecDeque;
use std::sync::Arc;
use vx_machine_node::GroupedNode;
use vx_model::DType;
use vx_regroup::Regroup;
use vx_strategy::{BufferedStrategy, RepartitionStrategy};
use vx_write_answer::WriteError;

/// A node of a rule that holds nothing.
fn fresh(alloc: Global, rule: Regroup, dtype: Arc<DType>) -> GroupedNode
    requires typed { IsTrue (is_of rule (ty (arc_value dtype))) }
    requires idle { IsTrue (is_idle rule None) }
    requires counted { rows_counted rule None 0 ≡ 0 }
    requires sizes { sizes_in rule None ≡ [] }
    ensures dtype { result.dtype ≡ dtype }
    ensures rule { result.rule ≡ rule }
    ensures rows { result.rows ≡ 0 }
    ensures fresh { IsFresh result }
{
    GroupedNode {
        dtype,
        rule,
        newest: None,
        rows: 0,
        reserved: VecDeque::new(alloc),
    }
}

/// Of blocks, of the length at the type.
pub fn blocks_node(
    alloc: Global,
    by: &RepartitionStrategy,
    dtype: Arc<DType>,
) -> Result<GroupedNode, WriteError>
    ensures dtype { IfOk result (λ n. n.dtype ≡ dtype) }
    ensures fresh { IfOk result IsFresh }
    ensures begins { IfOk result (Begins (by_blocks (block_rule by.now.rule)) (ty (arc_value dtype))) }
    ensures memory { IfErr result (λ e. e ≡ WriteError.OutOfMemory) }
{
    let options = by.options();
    let len = options.effective_block_len(&dtype);
    match DType::clone(&dtype) {
        Ok(copy) => {
            let rule = Regroup::repartition(alloc, copy, len, options.block_size_minimum);
            Ok(fresh(alloc, rule, dtype))
        }
        Err(_) => {
            drop(dtype);
            Err(WriteError::OutOfMemory)
        }
    }
}

/// Of a held size.
pub fn buffer_node(alloc: Global, by: &BufferedStrategy, dtype: Arc<DType>) -> GroupedNode
    ensures dtype { result.dtype ≡ dtype }
    ensures fresh { IsFresh result }
    ensures begins { Begins (by_bytes by.now.buffer_size) (ty (arc_value dtype)) result }
{
    fresh(alloc, Regroup::buffered(alloc, by.buffer_size()), dtype)
}

/// Of one chunk for all.
pub fn collect_node(alloc: Global, dtype: Arc<DType>) -> Result<GroupedNode, WriteError>
    ensures dtype { IfOk result (λ n. n.dtype ≡ dtype) }
    ensures fresh { IfOk result IsFresh }
    ensures begins { IfOk result (Begins into_one (ty (arc_value dtype))) }
    ensures memory { IfErr result (λ e. e ≡ WriteError.OutOfMemory) }
{
    match DType::clone(&dtype) {
        Ok(copy) => Ok(fresh(alloc, Regroup::collect(alloc, copy), dtype)),
        Err(_) => {
            drop(dtype);
            Err(WriteError::OutOfMemory)
        }
    }
}

/// Ends a node that has taken nothing.
pub fn drop_fresh(node: GroupedNode)
    requires { IsFresh node }
{
    let GroupedNode {
        dtype,
        rule,
        newest,
        rows: _,
        reserved,
    } = node;
    drop((dtype, rule));
    reserved.destroy_empty();
    match newest {
        None => {}
        Some(_) => unreachable!(),
    }
}
