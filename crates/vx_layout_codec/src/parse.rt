//! Reading a layout from bytes.

ghost use Rattle.std.specs.Prelude.{◌≡◌, ◌≤◌, false, Ok, IfOk, OnOk};
ghost use Rattle.vx_model.specs.TyView.{ty};
ghost use Rattle.vx_layout_bytes.specs.Node.{Node};
ghost use Rattle.vx_layout_bytes.specs.Spelled.{spelling};
ghost use Rattle.vx_layout_bytes.specs.Values.{AreBytes, IsWithin};
ghost use Rattle.vx_layout_bytes.specs.Views.{seen_node};
ghost use Rattle.vx_session.specs.Builder.{builder};
ghost use Rattle.vx_session.specs.Views.{scope_in, scope_of};
ghost use Rattle.vx_layout_tree.specs.LayoutView.{layout_data};
ghost use Rattle.vx_layout_tree.specs.Views.{Gives};
ghost use Rattle.vx_layout_codec_spec.specs.Permitted.{built};
ghost use Rattle.vx_layout_codec_spec.specs.Bytes.{bytes_in};
ghost use Rattle.vx_layout_codec_spec.specs.Parsed.{node_within, parsed, ParsedWithin};

use bytes::Bytes;
use std::alloc::Global;
use std::sync::Arc;
use vx_layout_build::build_node;
use vx_layout_bytes::{GrammarError, Limits, NodeView, view_root};
use vx_layout_tree::{Layout, LayoutError};
use vx_model::{ArrayContext, DType};
use vx_session::{LayoutContext, Scope, Session};

/// As `layout_from_flatbuffer_with_options`, where every id must be registered.
pub fn layout_from_flatbuffer(
    alloc: Global,
    flatbuffer: Bytes,
    dtype: &DType,
    layout_ctx: &LayoutContext,
    ctx: &ArrayContext,
    session: &Session,
    limits: Limits,
) -> Result<Layout, LayoutError>
    requires { limits.depth ≤ 1024 }
    ensures within { IfOk result (λ l. ParsedWithin (scope_in layout_ctx.now ctx.now session.now false) (ty dtype.now) limits.depth limits.nodes flatbuffer (layout_data l)) }
    ensures again { IfOk result (λ l. built (layout_data l) ≡ Ok tt → bytes_in layout_ctx.now (layout_data l) ≡ Ok flatbuffer) }
    ensures only { (n : Node) → IsWithin limits.depth limits.nodes n → spelling n ≡ flatbuffer
        → Gives layout_data result (builder (scope_in layout_ctx.now ctx.now session.now false) n (ty dtype.now)) }
    ensures exact { Gives layout_data result (parsed (scope_in layout_ctx.now ctx.now session.now false) (ty dtype.now) limits.depth limits.nodes flatbuffer) }
{
    layout_from_flatbuffer_with_options(
        alloc, flatbuffer, dtype, layout_ctx, ctx, session, limits, false,
    )
}

/// The layout of the type that the bytes spell. Nothing is built before all of them are read. Where `allow_unknown`, a
/// node whose id isn't registered is kept as it is found, with all below it.
pub fn layout_from_flatbuffer_with_options(
    alloc: Global,
    flatbuffer: Bytes,
    dtype: &DType,
    layout_ctx: &LayoutContext,
    ctx: &ArrayContext,
    session: &Session,
    limits: Limits,
    allow_unknown: bool,
) -> Result<Layout, LayoutError>
    requires { limits.depth ≤ 1024 }
    // Nothing is built past the limits.
    ensures within { IfOk result (λ l. ParsedWithin (scope_in layout_ctx.now ctx.now session.now allow_unknown) (ty dtype.now) limits.depth limits.nodes flatbuffer (layout_data l)) }
    // A layout of which each node can be built is spelled as these bytes.
    ensures again { IfOk result (λ l. built (layout_data l) ≡ Ok tt → bytes_in layout_ctx.now (layout_data l) ≡ Ok flatbuffer) }
    // What spells a node within the limits is refused by the builds alone.
    ensures only { (n : Node) → IsWithin limits.depth limits.nodes n → spelling n ≡ flatbuffer
        → Gives layout_data result (builder (scope_in layout_ctx.now ctx.now session.now allow_unknown) n (ty dtype.now)) }
    ensures exact { Gives layout_data result (parsed (scope_in layout_ctx.now ctx.now session.now allow_unknown) (ty dtype.now) limits.depth limits.nodes flatbuffer) }
{
    layout_ctx.ids();
    let scope = Scope::new(layout_ctx, ctx, session, allow_unknown)?;
    read_in(alloc, flatbuffer, dtype, scope, limits)
}

/// The layout of the type that the bytes spell in the scope.
fn read_in(
    alloc: Global,
    flatbuffer: Bytes,
    dtype: &DType,
    scope: Scope,
    limits: Limits,
) -> Result<Layout, LayoutError>
    requires { limits.depth ≤ 1024 }
    ensures exact { Gives layout_data result (parsed (scope_of scope) (ty dtype.now) limits.depth limits.nodes flatbuffer) }
    ensures octets { OnOk result (AreBytes flatbuffer) }
{
    let node = read_within(alloc, flatbuffer, limits)?;
    let scope = Arc::new(alloc, scope)?;
    build_node(alloc, &scope, dtype, node)
}

/// The node that all of the bytes are.
fn read_within(alloc: Global, flatbuffer: Bytes, limits: Limits) -> Result<NodeView, LayoutError>
    requires { limits.depth ≤ 1024 }
    ensures exact { Gives seen_node result (node_within limits.depth limits.nodes flatbuffer) }
    ensures octets { OnOk result (AreBytes flatbuffer) }
{
    match view_root(alloc, flatbuffer, limits) {
        Ok(node) => Ok(node),
        Err(GrammarError::Grammar(place)) => Err(LayoutError::Grammar(place)),
        Err(GrammarError::TooDeep(place)) => Err(LayoutError::TooDeep(place)),
        Err(GrammarError::TooManyNodes(place)) => Err(LayoutError::TooManyNodes(place)),
        Err(GrammarError::OutOfMemory) => Err(LayoutError::OutOfMemory),
    }
}
