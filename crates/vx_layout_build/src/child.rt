use std::alloc::AllocError;
use vx_layout_tree::Layout;

/// A child of a layout: kept by it, or built when it was asked for.
#[derive(Drop)]
pub enum LayoutChild<'a> {
    Kept(&'a Layout),
    Built(Layout),
}

impl LayoutChild<'_> {
    ghost use Rattle.std.specs.Prelude.{◌≡◌, IfOk};
    ghost use Rattle.vx_layout_build.specs.ChildView.{child_lay};
    ghost use Rattle.vx_layout_tree.specs.LayoutView.{layout_data};

    /// The layout, wherever it is held.
    pub fn layout(&self) -> &Layout
        ensures { layout_data result.now ≡ child_lay self.now }
    {
        match self {
            LayoutChild::Kept(layout) => layout,
            LayoutChild::Built(layout) => layout,
        }
    }
    /// An equal layout by itself; one that was built is not copied.
    #[tactic(auto, unfolding(crate::specs::ChildView::child_lay))]
    pub fn into_layout(self) -> Result<Layout, AllocError>
        ensures { IfOk result (λ l. layout_data l ≡ child_lay self.entry) }
    {
        match self {
            LayoutChild::Kept(layout) => layout.to_layout(),
            LayoutChild::Built(layout) => Ok(layout),
        }
    }
}
