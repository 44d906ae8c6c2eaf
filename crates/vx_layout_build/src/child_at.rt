//! A child of children by themselves.

ghost use Rattle.std.specs.Prelude.{◌≡◌, ◌↔◌, ◌<◌, length, map, IsTrue};
ghost use Rattle.vx_model.specs.TyView.{ty};
ghost use Rattle.vx_layout_bytes.specs.Node.{own_of};
ghost use Rattle.vx_session.specs.Builder.{is_flat_node};
ghost use Rattle.vx_session.specs.Made.{child_at};
ghost use Rattle.vx_session.specs.Views.{scope_of};
ghost use Rattle.vx_layout_bytes.specs.Views.{nth_node};
ghost use Rattle.vx_layout_build.specs.ChildView.{child_lay};
ghost use Rattle.vx_layout_build.specs.Asked.{is_flat_at};
ghost use Rattle.vx_layout_tree.specs.KidsView.{layout_kids, owned_kids, viewed_kids};
ghost use Rattle.vx_layout_tree.specs.LayoutView.{layout_data};
ghost use Rattle.vx_layout_tree.specs.Views.{Gives};

use crate::build::{build_node, check_type};
use crate::child::LayoutChild;
use vx_layout_bytes::NodeViews;
use vx_layout_tree::{Layout, LayoutChildren, LayoutError, ViewedChildren};
use vx_model::DType;
use vx_session::Scope;

/// Calls of `LayoutChildren` that give layouts, or tell of them.
pub trait LayoutChildrenWalk {
    ghost use Rattle.std.specs.Prelude.{◌≡◌, ◌<◌, length, List};
    ghost use Rattle.vx_model.specs.TyView.{ty};
    ghost use Rattle.vx_session.specs.Made.{ChildData, child_at};
    ghost use Rattle.vx_layout_build.specs.ChildView.{child_lay};
    ghost use Rattle.vx_layout_tree.specs.Views.{Gives};
    ghost use Rattle.vx_layout_build.specs.Asked.{is_flat_at};

    // The children that they are.
    ghost kids: { Self → List ChildData };

    /// The child at the place, as a layout of the type. Refuses `SlotRange` past the last. A layout that is kept refuses
    /// `ChildType` where its type is another, a node what its build refuses.
    fn child(&self, index: u64, dtype: &DType) -> Result<LayoutChild<'_>, LayoutError>
        ensures { Gives child_lay result (child_at (kids self.now) index (ty dtype.now)) };

    /// Whether readers may not split the rows of the child at the place, which is below `nchildren`. Nothing is built.
    fn child_is_indivisible(&self, index: u64) -> bool
        requires { index < length (kids self.now) }
        ensures { result ≡ is_flat_at (kids self.now) index };
}

impl LayoutChildrenWalk for LayoutChildren {
    ghost use Rattle.std.specs.Prelude.{◌≡◌, ◌<◌, length};
    ghost use Rattle.vx_model.specs.TyView.{ty};
    ghost use Rattle.vx_session.specs.Made.{child_at};
    ghost use Rattle.vx_layout_build.specs.ChildView.{child_lay};
    ghost use Rattle.vx_layout_tree.specs.KidsView.{layout_kids};
    ghost use Rattle.vx_layout_tree.specs.Views.{Gives};
    ghost use Rattle.vx_layout_build.specs.Asked.{is_flat_at};

    ghost kids = { layout_kids };

    #[tactic(auto, using(crate::proofs::ChildSteps::place_rules))]
    fn child(&self, index: u64, dtype: &DType) -> Result<LayoutChild<'_>, LayoutError>
        ensures { Gives child_lay result (child_at (layout_kids self.now) index (ty dtype.now)) }
    {
        let children = self.nchildren();
        if index >= children {
            return Err(LayoutError::SlotRange { index, children });
        }
        match self {
            LayoutChildren::Owned(layouts) => kept_at(layouts, index, dtype),
            LayoutChildren::Viewed(viewed) => built_at(viewed, index, dtype),
        }
    }

    #[tactic(auto, using(crate::proofs::ChildSteps::flat_rules))]
    fn child_is_indivisible(&self, index: u64) -> bool
        requires { index < length (layout_kids self.now) }
        ensures { result ≡ is_flat_at (layout_kids self.now) index }
    {
        match self {
            LayoutChildren::Owned(layouts) => layouts[index as usize].is_indivisible(),
            LayoutChildren::Viewed(viewed) => {
                let (scope, nodes) = viewed.as_parts();
                is_flat_in(scope, nodes, index)
            }
        }
    }
}

/// A layout that is kept, where it is of the type.
#[tactic(auto, using(crate::proofs::ChildSteps::kept_rules), unfolding(crate::specs::ChildView::child_lay))]
fn kept_at<'a>(
    layouts: &'a [Layout],
    index: u64,
    dtype: &DType,
) -> Result<LayoutChild<'a>, LayoutError>
    requires { index < length layouts.now }
    ensures { Gives child_lay result (child_at (owned_kids (map layout_data layouts.now)) index (ty dtype.now)) }
{
    let layout = &layouts[index as usize];
    check_type(layout, dtype)?;
    Ok(LayoutChild::Kept(layout))
}

/// The node as a layout of the type.
#[tactic(auto, using(crate::proofs::ChildSteps::viewed_rules), unfolding(crate::specs::ChildView::child_lay))]
fn built_at<'a>(
    viewed: &'a ViewedChildren,
    index: u64,
    dtype: &DType,
) -> Result<LayoutChild<'a>, LayoutError>
    requires { index < length (viewed_kids viewed.now) }
    ensures { Gives child_lay result (child_at (viewed_kids viewed.now) index (ty dtype.now)) }
{
    let (scope, nodes) = viewed.as_parts();
    let node = nodes.node(index)?;
    match build_node(nodes.allocator(), scope, dtype, node) {
        Ok(layout) => Ok(LayoutChild::Built(layout)),
        Err(error) => Err(error),
    }
}

/// Whether the id of the node at the place is registered as that of flat layouts.
fn is_flat_in(scope: &Scope, nodes: &NodeViews, index: u64) -> bool
    requires { index < length nodes.now.places.items }
    ensures { result ≡ is_flat_node (scope_of scope.now) (own_of (nth_node nodes.now index)) }
{
    let id = match scope.ids.id(nodes.index(index)) {
        Some(id) => id.as_str(),
        None => "",
    };
    match scope.registry.find(id) {
        Some(kind) => kind.is_indivisible(),
        None => false,
    }
}
