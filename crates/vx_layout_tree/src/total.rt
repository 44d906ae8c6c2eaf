//! Rows of children together.

ghost use Rattle.std.specs.Prelude.{◌≡◌};
ghost use Rattle.vx_model.specs.Words.{total_by};
ghost use Rattle.vx_session.specs.Made.{kid_rows};
ghost use Rattle.vx_layout_tree.specs.KidsView.{layout_kids};

use crate::children::LayoutChildren;

/// The rows of all children together, by their own counts. Takes time by their number.
#[tactic(auto, using(crate::proofs::KidSteps::sum_rules))]
pub fn total_rows(children: &LayoutChildren) -> u128
    ensures { result ≡ total_by kid_rows (layout_kids children.now) }
{
    let count = children.nchildren();
    let mut rows = 0u128;
    for i in 0..count {
        rows += children.child_row_count(i) as u128;
    }
    rows
}
