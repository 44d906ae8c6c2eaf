//! Walking behind nodes, which keeps nothing of them.

ghost use Rattle.vx_layout_bytes.specs.Reading.{node_at as node_read, many_nodes};
ghost use Rattle.vx_layout_bytes.specs.There.{behind};
ghost use Rattle.vx_layout_bytes.specs.Views.{Gives};

use crate::error::GrammarError;
use crate::fields::place_of;
use crate::read::own_at;
use bytes::Bytes;
use std::alloc::Global;

/// Goes behind a node, `depth` deep at most and of `left` nodes at most, and tells how many nodes may still come.
#[cycle(skipping)]
#[tactic(auto, using(crate::proofs::Skips::node_rules))]
pub(crate) fn skip_node(
    alloc: Global,
    stop: u64,
    depth: u64,
    left: u64,
    bytes: &mut Bytes,
) -> Result<u64, GrammarError>
    ensures { Gives (λ n. (n, bytes.new)) result (behind (node_read depth stop left bytes.old)) }
{
    if depth == 0 {
        return Err(GrammarError::TooDeep(place_of(stop, bytes)));
    }
    if left == 0 {
        return Err(GrammarError::TooManyNodes(place_of(stop, bytes)));
    }
    let (_, count) = own_at(alloc, stop, bytes)?;
    skip_nodes(alloc, stop, depth - 1, left - 1, count, bytes)
}

/// Goes behind so many nodes.
#[cycle(skipping)]
fn skip_nodes(
    alloc: Global,
    stop: u64,
    depth: u64,
    left: u64,
    count: u64,
    bytes: &mut Bytes,
) -> Result<u64, GrammarError>
    ensures { Gives (λ n. (n, bytes.new)) result (behind (many_nodes (node_read depth stop) count left bytes.old)) }
{
    let mut left = left;
    for _ in 0..count {
        let fewer = skip_node(alloc, stop, depth, left, bytes)?;
        left = fewer;
    }
    Ok(left)
}
