//! Whether every node of a layout can be built.

ghost use Rattle.vx_layout_tree.specs.LayoutView.{layout_data};
ghost use Rattle.vx_layout_tree.specs.Views.{Gives};
ghost use Rattle.vx_layout_codec_spec.specs.Permitted.{built as all_built};

use vx_layout_build::LayoutWalk;
use vx_layout_tree::{Layout, LayoutError};

/// The first refusal in pre-order of the nodes.
#[tactic(auto, using(crate::proofs::BuildSteps::build_rules))]
pub(crate) fn check_built(layout: &Layout) -> Result<(), LayoutError>
    ensures { Gives (λ u. u) result (all_built (layout_data layout.now)) }
{
    layout.built();
    for i in 0..layout.nchildren() {
        let child = layout.child(i)?;
        let checked = check_built(child.layout());
        drop(child);
        checked?;
    }
    Ok(())
}
