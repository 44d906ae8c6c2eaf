//! The layouts of a tree in pre-order.

ghost use Rattle.std.specs.Prelude.{◌≡◌, ◌∷◌, ◌++◌, map, IfOk};
ghost use Rattle.vx_layout_build.specs.ChildView.{child_lay};
ghost use Rattle.vx_layout_tree.specs.LayoutView.{layout_data};
ghost use Rattle.vx_layout_build.specs.PreOrder.{below, all_pre_order, stacked};

use crate::child::LayoutChild;
use crate::layout_walk::LayoutWalk;
use std::alloc::{AllocError, Global};
use vx_layout_tree::{Layout, LayoutError};

/// A layout and all below it. Once memory ran out nothing comes.
#[derive(Drop)]
pub struct DepthFirst<'a> {
    alloc: Global,
    root: Option<LayoutChild<'a>>,
    stack: Vec<LayoutChild<'a>>,
}

impl<'a> DepthFirst<'a> {
    ghost use Rattle.std.specs.Prelude.{◌≡◌};
    ghost use Rattle.vx_layout_tree.specs.LayoutView.{layout_data};
    ghost use Rattle.vx_layout_build.specs.PreOrder.{pre_order};
    ghost use Rattle.vx_layout_build.specs.TreeWalk.{nodes_left};

    #[tactic(auto, using(crate::proofs::TreeSteps::root_rules), unfolding(crate::specs::ChildView::child_lay))]
    pub(crate) fn new(alloc: Global, layout: &'a Layout) -> DepthFirst<'a>
        ensures { nodes_left result ≡ pre_order (layout_data layout.now) }
    {
        DepthFirst {
            alloc,
            root: Some(LayoutChild::Kept(layout)),
            stack: Vec::new(alloc),
        }
    }
}

impl<'a> Iterator for DepthFirst<'a> {
    type Item = Result<LayoutChild<'a>, AllocError>;

    ghost use Rattle.std.specs.Iterator.{item_count};
    ghost use Rattle.vx_layout_build.specs.TreeWalk.{nodes_left, YieldsNode};

    ghost next_gives = { YieldsNode };

    ghost remaining = { item_count nodes_left };

    #[tactic(auto, using(crate::proofs::TreeSteps::next_rules))]
    fn next(&mut self) -> Option<Result<LayoutChild<'a>, AllocError>> {
        let node = self.first()?;
        match opened(self.alloc, &mut self.stack, node) {
            Ok(node) => Some(Ok(node)),
            Err(error) => {
                self.stack.clear();
                Some(Err(error))
            }
        }
    }
}

impl<'a> DepthFirst<'a> {
    ghost use Rattle.std.specs.Prelude.{◌≡◌, ◌++◌, [], None, map, MatchOption};
    ghost use Rattle.vx_layout_build.specs.ChildView.{child_lay};
    ghost use Rattle.vx_layout_build.specs.PreOrder.{pre_order, stacked};
    ghost use Rattle.vx_layout_build.specs.TreeWalk.{nodes_left};

    /// The root, or what is on top of the stack.
    #[tactic(auto, using(crate::proofs::TreeSteps::first_rules))]
    fn first(&mut self) -> Option<LayoutChild<'a>>
        ensures { MatchOption result
            ((nodes_left self.old ≡ []) × (nodes_left self.new ≡ []))
            (λ c. (nodes_left self.old ≡ pre_order (child_lay c) ++ stacked (map child_lay self.new.stack.items)) × (self.new.root ≡ None)) }
    {
        if let Some(root) = self.root.take() {
            return Some(root);
        }
        let node = self.stack.pop()?;
        Some(node)
    }
}

/// The node, with its children on the stack.
fn opened<'a>(
    alloc: Global,
    stack: &mut Vec<LayoutChild<'a>>,
    node: LayoutChild<'a>,
) -> Result<LayoutChild<'a>, AllocError>
    ensures { IfOk result (λ c. (child_lay c ≡ child_lay node.entry) × (stacked (map child_lay stack.new.items) ≡ below (child_lay node.entry) ++ stacked (map child_lay stack.old.items))) }
{
    match push_below(alloc, stack, &node) {
        Ok(()) => Ok(node),
        Err(error) => {
            drop(node);
            Err(error)
        }
    }
}

/// Pushes the node's children, where all can be built.
#[tactic(auto, unfolding(crate::specs::ChildView::child_lay))]
fn push_below<'a>(
    alloc: Global,
    stack: &mut Vec<LayoutChild<'a>>,
    node: &LayoutChild<'a>,
) -> Result<(), AllocError>
    ensures { IfOk result (λ u. stacked (map child_lay stack.new.items) ≡ below (child_lay node.now) ++ stacked (map child_lay stack.old.items)) }
{
    match node {
        LayoutChild::Kept(layout) => push_kept(alloc, stack, layout),
        LayoutChild::Built(layout) => push_copied(alloc, stack, layout),
    }
}

/// Pushes the layout's children, where all can be built.
#[tactic(auto, using(crate::proofs::TreeSteps::below_rules))]
fn push_kept<'a>(
    alloc: Global,
    stack: &mut Vec<LayoutChild<'a>>,
    layout: &'a Layout,
) -> Result<(), AllocError>
    ensures { IfOk result (λ u. stacked (map child_lay stack.new.items) ≡ below (layout_data layout.now) ++ stacked (map child_lay stack.old.items)) }
{
    match layout.children(alloc) {
        Ok(children) => push_all(stack, children),
        Err(LayoutError::OutOfMemory) => Err(AllocError),
        Err(error) => {
            drop(error);
            Ok(())
        }
    }
}

/// The same with copies of the children that the layout keeps.
#[tactic(auto, using(crate::proofs::TreeSteps::below_rules))]
fn push_copied(
    alloc: Global,
    stack: &mut Vec<LayoutChild<'_>>,
    layout: &Layout,
) -> Result<(), AllocError>
    ensures { IfOk result (λ u. stacked (map child_lay stack.new.items) ≡ below (layout_data layout.now) ++ stacked (map child_lay stack.old.items)) }
{
    match layout.children(alloc) {
        Ok(children) => push_owned(stack, children),
        Err(LayoutError::OutOfMemory) => Err(AllocError),
        Err(error) => {
            drop(error);
            Ok(())
        }
    }
}

/// The first of the children is pushed last.
#[tactic(auto, using(crate::proofs::TreeSteps::push_rules))]
fn push_all<'a>(
    stack: &mut Vec<LayoutChild<'a>>,
    children: Vec<LayoutChild<'a>>,
) -> Result<(), AllocError>
    ensures { IfOk result (λ u. stacked (map child_lay stack.new.items) ≡ all_pre_order (map child_lay children.entry.items) ++ stacked (map child_lay stack.old.items)) }
{
    let mut children = children;
    while let Some(child) = children.pop() {
        stack.push(child)?;
    }
    Ok(())
}

#[tactic(auto, using(crate::proofs::TreeSteps::push_rules), unfolding(crate::specs::ChildView::child_lay))]
fn push_owned(
    stack: &mut Vec<LayoutChild<'_>>,
    children: Vec<LayoutChild<'_>>,
) -> Result<(), AllocError>
    ensures { IfOk result (λ u. stacked (map child_lay stack.new.items) ≡ all_pre_order (map child_lay children.entry.items) ++ stacked (map child_lay stack.old.items)) }
{
    let mut children = children;
    while let Some(child) = children.pop() {
        stack.push(LayoutChild::Built(child.into_layout()?))?;
    }
    Ok(())
}
