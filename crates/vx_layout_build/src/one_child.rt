//! Children taken out one by one.

ghost use Rattle.std.specs.Prelude.{◌≡◌, ◌≢◌, ◌≤◌, [], ◌∷◌, length, map, MatchOption, MatchResult};
ghost use Rattle.vx_layout_bytes.specs.Node.{nodes_of};
ghost use Rattle.vx_layout_bytes.specs.Values.{depths};
ghost use Rattle.vx_layout_bytes.specs.Views.{seen_nodes};
ghost use Rattle.vx_session.specs.Builder.{kids};
ghost use Rattle.vx_session.specs.Made.{has_children as children_needed};
ghost use Rattle.vx_session.specs.Views.{scope_of};
ghost use Rattle.vx_layout_tree.specs.KidsView.{layout_kids};
ghost use Rattle.vx_layout_build.specs.PartsView.{one_kid, one_depth, children_depth};
ghost use Rattle.vx_layout_tree.specs.Views.{Fails};

use std::sync::Arc;
use vx_layout_bytes::{NodeView, NodeViews};
use vx_layout_tree::{Layout, LayoutChildren, LayoutError};
use vx_session::Scope;

/// A child by itself.
#[derive(Drop)]
pub(crate) enum OneChild {
    Kept(Layout),
    Node(Arc<Scope>, NodeView),
}

/// Both children, where there are two.
#[tactic(auto, using(crate::proofs::PartSteps::two_rules))]
pub(crate) fn two(children: LayoutChildren) -> Result<(OneChild, OneChild), LayoutError>
    ensures { MatchResult result
        (λ p. (layout_kids children ≡ one_kid p.0 ∷ one_kid p.1 ∷ []) × (one_depth p.0 ≤ children_depth children) × (one_depth p.1 ≤ children_depth children))
        (λ e. Fails e (children_needed 2 (layout_kids children))) }
{
    let has = children.nchildren();
    match children.into_owned() {
        Ok(layouts) => match take_two(layouts) {
            Some((first, second)) => Ok((OneChild::Kept(first), OneChild::Kept(second))),
            None => Err(LayoutError::ChildCount { has, needs: 2 }),
        },
        Err(viewed) => {
            let (scope, nodes) = viewed.into_parts();
            two_nodes(scope, nodes)
        }
    }
}

/// All children, where there are three.
#[tactic(auto, using(crate::proofs::PartSteps::three_rules))]
pub(crate) fn three(children: LayoutChildren) -> Result<(OneChild, OneChild, OneChild), LayoutError>
    ensures { MatchResult result
        (λ p. (layout_kids children ≡ one_kid p.0 ∷ one_kid p.1 ∷ one_kid p.2 ∷ []) × (one_depth p.0 ≤ children_depth children) × (one_depth p.1 ≤ children_depth children) × (one_depth p.2 ≤ children_depth children))
        (λ e. Fails e (children_needed 3 (layout_kids children))) }
{
    let has = children.nchildren();
    match children.into_owned() {
        Ok(layouts) => match take_three(layouts) {
            Some((first, second, third)) => Ok((
                OneChild::Kept(first),
                OneChild::Kept(second),
                OneChild::Kept(third),
            )),
            None => Err(LayoutError::ChildCount { has, needs: 3 }),
        },
        Err(viewed) => {
            let (scope, nodes) = viewed.into_parts();
            three_nodes(scope, nodes)
        }
    }
}

/// Both nodes, where there are two.
#[tactic(auto, using(crate::proofs::PartSteps::two_rules))]
fn two_nodes(scope: Arc<Scope>, nodes: NodeViews) -> Result<(OneChild, OneChild), LayoutError>
    ensures { MatchResult result
        (λ p. (kids (scope_of scope.value) (nodes_of (seen_nodes nodes)) ≡ one_kid p.0 ∷ one_kid p.1 ∷ []) × (one_depth p.0 ≤ depths (nodes_of (seen_nodes nodes))) × (one_depth p.1 ≤ depths (nodes_of (seen_nodes nodes))))
        (λ e. Fails e (children_needed 2 (kids (scope_of scope.value) (nodes_of (seen_nodes nodes))))) }
{
    let has = nodes.len();
    if has != 2 {
        return Err(LayoutError::ChildCount { has, needs: 2 });
    }
    let first = nodes.node(0)?;
    let second = nodes.node(1)?;
    let same = scope.clone()?;
    Ok((OneChild::Node(same, first), OneChild::Node(scope, second)))
}

/// All nodes, where there are three.
#[tactic(auto, using(crate::proofs::PartSteps::three_rules))]
fn three_nodes(
    scope: Arc<Scope>,
    nodes: NodeViews,
) -> Result<(OneChild, OneChild, OneChild), LayoutError>
    ensures { MatchResult result
        (λ p. (kids (scope_of scope.value) (nodes_of (seen_nodes nodes)) ≡ one_kid p.0 ∷ one_kid p.1 ∷ one_kid p.2 ∷ []) × (one_depth p.0 ≤ depths (nodes_of (seen_nodes nodes))) × (one_depth p.1 ≤ depths (nodes_of (seen_nodes nodes))) × (one_depth p.2 ≤ depths (nodes_of (seen_nodes nodes))))
        (λ e. Fails e (children_needed 3 (kids (scope_of scope.value) (nodes_of (seen_nodes nodes))))) }
{
    let has = nodes.len();
    if has != 3 {
        return Err(LayoutError::ChildCount { has, needs: 3 });
    }
    let first = nodes.node(0)?;
    let second = nodes.node(1)?;
    let third = nodes.node(2)?;
    let same = scope.clone()?;
    let again = scope.clone()?;
    Ok((
        OneChild::Node(same, first),
        OneChild::Node(again, second),
        OneChild::Node(scope, third),
    ))
}

#[tactic(auto, using(crate::proofs::PartSteps::pop_rules))]
fn take_two<T: Drop>(items: Vec<T>) -> Option<(T, T)>
    ensures { MatchOption result (length items.items ≢ 2) (λ p. items.items ≡ p.0 ∷ p.1 ∷ []) }
{
    let mut items = items;
    if items.len() != 2 {
        return None;
    }
    let second = items.pop()?;
    let first = items.pop()?;
    Some((first, second))
}

#[tactic(auto, using(crate::proofs::PartSteps::pop_rules))]
fn take_three<T: Drop>(items: Vec<T>) -> Option<(T, T, T)>
    ensures { MatchOption result (length items.items ≢ 3) (λ p. items.items ≡ p.0 ∷ p.1 ∷ p.2 ∷ []) }
{
    let mut items = items;
    if items.len() != 3 {
        return None;
    }
    let third = items.pop()?;
    let second = items.pop()?;
    let first = items.pop()?;
    Some((first, second, third))
}
