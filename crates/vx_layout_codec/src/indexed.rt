//! A context in which many ids are found.

ghost use Rattle.std.specs.Prelude.{◌≡◌, IfOk, IsTrue};
ghost use Rattle.vx_session.specs.Ids.{is_context};
ghost use Rattle.vx_layout_codec.specs.Places.{TellsPlaces};

use std::alloc::{AllocError, Global};
use std::collections::BTreeMap;
use std::marker::Model;
use vx_model::Text;
use vx_session::LayoutContext;

/// A context beside a map of the places of its ids.
#[derive(Drop)]
pub(crate) struct IndexedContext<'a> {
    ctx: &'a LayoutContext,
    places: BTreeMap<&'a str, u16>,
}

impl<'a> Model for IndexedContext<'a> {
    ghost use Rattle.std.specs.Prelude.{ℕ, List};
    ghost use Rattle.vx_layout_codec.specs.Places.{TellsPlaces};

    ghost Value = { List (List ℕ) };

    ghost view = { λ c. c.ctx.now };

    ghost invariant = { λ c. TellsPlaces c.places c.ctx.now };
}

impl<'a> IndexedContext<'a> {
    ghost use Rattle.std.specs.Prelude.{◌≡◌, IfOk};
    ghost use Rattle.vx_session.specs.Ids.{place_of};

    /// Takes time by `n log n`.
    pub(crate) fn new(
        alloc: Global,
        ctx: &'a LayoutContext,
    ) -> Result<IndexedContext<'a>, AllocError>
        ensures { IfOk result (λ c. c ≡ ctx.now) }
    {
        let places = places_of(alloc, ctx.ids())?;
        Ok(IndexedContext { ctx, places })
    }

    /// The place of an id, where it is listed. Takes time by `log n`.
    pub(crate) fn place(&self, id: &str) -> Option<u16>
        ensures { result ≡ place_of id.now self.now }
    {
        self.places.get(id).copied()
    }
}

/// The place of each id.
fn places_of<'a>(alloc: Global, ids: &'a [Text]) -> Result<BTreeMap<&'a str, u16>, AllocError>
    requires { IsTrue (is_context ids.now) }
    ensures { IfOk result (λ places. TellsPlaces places ids.now) }
{
    let mut places = BTreeMap::new(alloc);
    for i in 0..ids.len() {
        places.insert(ids[i].as_str(), i as u16)?;
    }
    Ok(places)
}
