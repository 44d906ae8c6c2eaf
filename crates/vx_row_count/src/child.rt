//! A child that is there.

ghost use Rattle.std.specs.Prelude.{◌≡◌, Ok, IfOk};
ghost use Rattle.vx_layout_spec.specs.LayoutTree.{children_of};
ghost use Rattle.vx_layout_tree.specs.Children.{child_in};
ghost use Rattle.vx_layout_tree.specs.LayoutView.{layout_data};
ghost use Rattle.vx_layout_build.specs.ChildView.{child_lay};
ghost use Rattle.vx_row_count.specs.Counting.{HasChild};

use std::alloc::AllocError;
use vx_layout_build::{LayoutChild, LayoutWalk};
use vx_layout_tree::{Layout, LayoutError};

/// The child at the place, where there is one that can be built.
pub fn child_there(layout: &Layout, i: u64) -> Result<LayoutChild<'_>, AllocError>
    requires { HasChild (children_of (layout_data layout.now)) i }
    ensures { IfOk result (λ c. child_in (children_of (layout_data layout.now)) i ≡ Ok (child_lay c)) }
{
    match layout.child(i) {
        Ok(child) => Ok(child),
        Err(LayoutError::OutOfMemory) => Err(AllocError),
        Err(_) => unreachable!(),
    }
}
