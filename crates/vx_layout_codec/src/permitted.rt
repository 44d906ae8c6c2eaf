//! Whether a context lists the ids of all nodes of a layout.

ghost use Rattle.std.specs.Prelude.{◌≡◌, ◌<◌, length, IfOk};
ghost use Rattle.vx_layout_spec.specs.LayoutTree.{children_of, layout_kind, kind_id};
ghost use Rattle.vx_layout_tree.specs.Children.{child_in};
ghost use Rattle.vx_layout_tree.specs.LayoutView.{layout_data};
ghost use Rattle.vx_layout_tree.specs.Views.{Gives};
ghost use Rattle.vx_layout_codec_spec.specs.Permitted.{listed, permitted};
ghost use Rattle.vx_layout_codec.specs.Views.{children_answer, kept};

use crate::indexed::IndexedContext;
use std::alloc::{AllocError, Global};
use vx_layout_build::{LayoutChild, LayoutWalk};
use vx_layout_tree::{Layout, LayoutError};
use vx_model::Text;

/// The first id in pre-order that isn't listed. A node that can't be built has no id.
#[tactic(auto, using(crate::proofs::WalkSteps::walk_rules))]
pub(crate) fn check_permitted(
    alloc: Global,
    layout: &Layout,
    ctx: &IndexedContext<'_>,
) -> Result<(), LayoutError>
    ensures { Gives (λ u. u) result (permitted ctx.now (layout_data layout.now)) }
{
    layout.built();
    check_listed(alloc, layout.encoding_id(), ctx)?;
    for i in 0..layout.nchildren() {
        match built_child(layout, i)? {
            Some(child) => {
                let checked = check_permitted(alloc, child.layout(), ctx);
                drop(child);
                checked?;
            }
            None => (),
        }
    }
    Ok(())
}

fn check_listed(alloc: Global, id: &str, ctx: &IndexedContext<'_>) -> Result<(), LayoutError>
    ensures { Gives (λ u. u) result (listed ctx.now id.now) }
{
    match ctx.place(id) {
        Some(_) => Ok(()),
        None => Err(LayoutError::NotPermitted(Text::from_str(alloc, id)?)),
    }
}

/// The child at the place, where it can be built.
fn built_child(layout: &Layout, i: u64) -> Result<Option<LayoutChild<'_>>, AllocError>
    requires { i < length (children_of (layout_data layout.now)) }
    ensures { IfOk result (λ child. kept child ≡ children_answer (child_in (children_of (layout_data layout.now)) i)) }
{
    match layout.child(i) {
        Ok(child) => Ok(Some(child)),
        Err(LayoutError::OutOfMemory) => Err(AllocError),
        Err(error) => {
            drop(error);
            Ok(None)
        }
    }
}
