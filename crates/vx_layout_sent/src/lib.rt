//! Layouts go to other threads. Whoever hands one on cites `layout_sends` of `proofs/Crosses`, since a search by itself stops at its
//! limits.
#![tactic(auto)]

ghost use Rattle.std.specs.Prelude.{◌≡◌};

use std::thread;
use std::thread::Threads;
use vx_layout_tree::Layout;

/// Hands the layout to another thread, which hands it back.
pub fn through_a_thread<R: Threads>(rt: &R, layout: Layout) -> Layout
    ensures { result ≡ layout }
{
    let (back, _) = thread::join(rt, move || layout, || ());
    back
}
