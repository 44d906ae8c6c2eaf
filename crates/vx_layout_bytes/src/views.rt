//! Several nodes that stay in the bytes.

ghost use Rattle.std.specs.Prelude.{◌≡◌, ◌<◌, ◌^◌, ℕ, length, slice_get, IfOk};
ghost use Rattle.vx_layout_bytes.specs.Node.{own_of};
ghost use Rattle.vx_layout_bytes.specs.Views.{nth_node, seen_node};

use crate::open::head_at;
use crate::view::{NodeView, NodeViews};
use std::alloc::{AllocError, Global};

impl NodeViews {
    /// How many there are.
    pub fn len(&self) -> u64
        ensures count { result ≡ length self.now.places.items }
        ensures few { result < 2 ^ 63 }
    {
        self.places.len() as u64
    }

    /// The byte at which the node begins, counted from the first of all. None past the last.
    pub fn place(&self, i: u64) -> Option<u64>
        ensures { result ≡ slice_get self.now.places.items i }
    {
        self.places.get(i as usize).copied()
    }

    /// The place of the kind's id in the context, of the node at `i`, which is below `len`.
    #[tactic(auto, using(crate::proofs::There::at_place))]
    pub fn index(&self, i: u64) -> u16
        requires { i < length self.now.places.items }
        ensures { result ≡ (own_of (nth_node self.now i)).index }
    {
        head_at(self.bytes.as_slice(), self.places[i as usize]).0
    }

    /// The rows of the node at `i`, which is below `len`.
    #[tactic(auto, using(crate::proofs::There::at_place))]
    pub fn rows(&self, i: u64) -> u64
        requires { i < length self.now.places.items }
        ensures { result ≡ (own_of (nth_node self.now i)).rows }
    {
        head_at(self.bytes.as_slice(), self.places[i as usize]).1
    }

    /// The node at `i`, which is below `len`.
    #[tactic(auto, using(crate::proofs::There::at_place))]
    pub fn node(&self, i: u64) -> Result<NodeView, AllocError>
        requires { i < length self.now.places.items }
        ensures { IfOk result (λ n. seen_node n ≡ nth_node self.now i) }
    {
        let bytes = self.bytes.clone()?;
        let place = self.places[i as usize];
        Ok(NodeView { bytes, place })
    }

    /// The allocator that the places are in.
    pub fn allocator(&self) -> Global {
        *self.places.allocator()
    }
}

impl Clone for NodeViews {
    ghost use Rattle.std.specs.Prelude.{◌≡◌};

    ghost is_clone = { λ v copy. (copy.bytes ≡ v.bytes) × (copy.places.items ≡ v.places.items) };

    fn clone(&self) -> Result<NodeViews, AllocError> {
        let places = Vec::from_slice(*self.places.allocator(), &self.places)?;
        let bytes = self.bytes.clone()?;
        Ok(NodeViews { bytes, places })
    }
}
