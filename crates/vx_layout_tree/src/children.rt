//! The children of a layout: kept, or nodes of bytes that are built when they are asked for.

ghost use Rattle.std.specs.Prelude.{◌≡◌, ◌<◌, length, map, MatchResult};
ghost use Rattle.vx_layout_tree.specs.declared.children.LayoutChildren.TheVariants as children_variants;
ghost use Rattle.vx_layout_tree.specs.Children.{rows_at as rows_of_child};
ghost use Rattle.vx_layout_tree.specs.LayoutView.{layout_data};

use crate::layout::Layout;
use std::alloc::Global;
use std::sync::Arc;
use vx_layout_bytes::NodeViews;
use vx_session::Scope;

/// What a chunked or a struct layout has below it.
#[cycle(layout)]
pub enum LayoutChildren {
    Owned(Vec<Layout>),
    Viewed(ViewedChildren),
}

// Written out, as that of `Layout`.
impl Drop for LayoutChildren {
    #[cycle(layout)]
    fn drop(self) {
        match self {
            LayoutChildren::Owned(layouts) => drop(layouts),
            LayoutChildren::Viewed(viewed) => drop(viewed),
        }
    }
}

/// Nodes that stay in their bytes, and what they are built in.
#[derive(Drop)]
pub struct ViewedChildren {
    pub(crate) scope: Arc<Scope>,
    pub(crate) nodes: NodeViews,
}

impl ViewedChildren {
    ghost use Rattle.std.specs.Prelude.{◌≡◌};

    /// Takes no memory.
    pub fn new(scope: Arc<Scope>, nodes: NodeViews) -> ViewedChildren
        ensures { result ≡ record { scope = scope; nodes = nodes } }
    {
        ViewedChildren { scope, nodes }
    }

    /// What the nodes are built in, and the nodes.
    pub fn as_parts(&self) -> (&Arc<Scope>, &NodeViews)
        ensures scope { result.0.now ≡ self.now.scope }
        ensures nodes { result.1.now ≡ self.now.nodes }
    {
        (&self.scope, &self.nodes)
    }

    /// The same by themselves. Takes no memory.
    pub fn into_parts(self) -> (Arc<Scope>, NodeViews)
        ensures scope { result.0 ≡ self.scope }
        ensures nodes { result.1 ≡ self.nodes }
    {
        (self.scope, self.nodes)
    }
}

/// Children that are kept.
pub fn layout_children(children: Vec<Layout>) -> LayoutChildren
    ensures { result ≡ children_variants.Owned children }
{
    LayoutChildren::Owned(children)
}

impl LayoutChildren {
    ghost use Rattle.std.specs.Prelude.{◌≡◌, ◌<◌, ◌^◌, length};
    ghost use Rattle.vx_session.specs.Made.{rows_at};
    ghost use Rattle.vx_layout_tree.specs.KidsView.{layout_kids, place_in};

    /// How many there are, built or not.
    #[tactic(auto, using(crate::proofs::KidSteps::rows_rules))]
    pub fn nchildren(&self) -> u64
        ensures count { result ≡ length (layout_kids self.now) }
        ensures few { result < 2 ^ 63 }
    {
        match self {
            LayoutChildren::Owned(layouts) => layouts.len() as u64,
            LayoutChildren::Viewed(viewed) => viewed.nodes.len(),
        }
    }

    /// Rows of the child at the place, which is below `nchildren`.
    #[tactic(auto, using(crate::proofs::KidSteps::rows_rules))]
    pub fn child_row_count(&self, i: u64) -> u64
        requires { i < length (layout_kids self.now) }
        ensures { result ≡ rows_at (layout_kids self.now) i }
    {
        match self {
            LayoutChildren::Owned(layouts) => layouts[i as usize].row_count(),
            LayoutChildren::Viewed(viewed) => viewed.nodes.rows(i),
        }
    }

    /// The byte at which the node of the child begins, counted from the first of the bytes that were parsed. None of
    /// children that are kept, and where there is no such child. Takes no memory.
    pub fn place(&self, idx: u64) -> Option<u64>
        ensures { result ≡ place_in self.now idx }
    {
        match self {
            LayoutChildren::Owned(_) => None,
            LayoutChildren::Viewed(viewed) => viewed.nodes.place(idx),
        }
    }

    /// The layouts that are kept, or else the nodes. Takes no memory.
    pub fn into_owned(self) -> Result<Vec<Layout>, ViewedChildren>
        ensures { MatchResult result (λ v. self ≡ children_variants.Owned v) (λ v. self ≡ children_variants.Viewed v) }
    {
        match self {
            LayoutChildren::Owned(layouts) => Ok(layouts),
            LayoutChildren::Viewed(viewed) => Err(viewed),
        }
    }

    /// The allocator that they are in.
    pub fn allocator(&self) -> Global {
        match self {
            LayoutChildren::Owned(layouts) => *layouts.allocator(),
            LayoutChildren::Viewed(viewed) => viewed.nodes.allocator(),
        }
    }
}

/// Rows of a layout that is kept.
#[tactic(auto, using(crate::proofs::Steps::rows_rules))]
pub(crate) fn kept_rows(layouts: &[Layout], i: u64) -> u64
    requires { i < length layouts.now }
    ensures { result ≡ rows_of_child (map layout_data layouts.now) i }
{
    layouts[i as usize].row_count()
}
