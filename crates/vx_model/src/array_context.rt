//! The encodings that a file may use.

ghost use Rattle.std.specs.Prelude.{◌≡◌, List, None, IfOk, IfErr, IsOk, ◌↔◌};
ghost use Rattle.vx_model.specs.declared.encoding.EncodingId.{EncodingId};
ghost use Rattle.vx_model.specs.Distinct.{is_listed, first_repeat};
ghost use Rattle.vx_model.specs.Context.{NamesRepeat};
ghost use Rattle.vx_model.specs.Places.{listed_place};

use crate::encoding::EncodingId;
use std::alloc::AllocError;
use std::marker::Model;
use thiserror::Error;

/// Encodings in an order of their own, none of them twice. In bytes an encoding is its place here.
#[derive(Debug, Drop)]
pub struct ArrayContext {
    ids: Vec<EncodingId>,
}

impl Model for ArrayContext {
    ghost use Rattle.std.specs.Prelude.{IsTrue, List, is_none};
    ghost use Rattle.vx_model.specs.declared.encoding.EncodingId.{EncodingId};
    ghost use Rattle.vx_model.specs.Distinct.{first_repeat};

    ghost Value = { List EncodingId };

    ghost view = { λ c. c.ids.items };

    ghost invariant = { λ c. IsTrue (is_none (first_repeat c.ids.items)) };
}

/// Why a list of encodings is no context.
#[derive(Debug, Drop, Error)]
pub enum ContextError {
    /// The first encoding that equals one before it.
    #[error("{0:?} is listed twice")]
    RepeatedEncoding(EncodingId),
}

impl ArrayContext {
    /// The context of these encodings; takes no memory.
    pub fn try_new(ids: Vec<EncodingId>) -> Result<ArrayContext, ContextError>
        ensures ok { IfOk result (λ c. c ≡ ids.items) }
        ensures distinct { IsOk result ↔ (first_repeat ids.items ≡ None) }
        ensures repeated { IfErr result (NamesRepeat ids.items) }
    {
        match find_repeat(&ids) {
            Some(id) => Err(ContextError::RepeatedEncoding(id)),
            None => Ok(ArrayContext { ids }),
        }
    }

    /// The encodings, in order; their places are the indices that array trees have.
    pub fn ids(&self) -> &[EncodingId]
        ensures ids { result.now ≡ self.now }
        ensures distinct { first_repeat self.now ≡ None }
    {
        self.ids.as_slice()
    }

    /// The place of an encoding, where it is listed: the number that stands for it in bytes.
    pub fn place(&self, id: EncodingId) -> Option<usize>
        ensures { result ≡ listed_place id self.now }
    {
        find_place(&self.ids, id)
    }
}

impl Clone for ArrayContext {
    ghost is_clone = { λ c copy. copy ≡ c };

    fn clone(&self) -> Result<ArrayContext, AllocError> {
        Ok(ArrayContext {
            ids: Vec::from_slice(*self.ids.allocator(), self.ids.as_slice())?,
        })
    }
}

#[tactic(auto, using(crate::proofs::Lists::repeat_rules))]
/// The first encoding that equals one before it. There are seven, so at most eight are looked at.
fn find_repeat(ids: &[EncodingId]) -> Option<EncodingId>
    ensures { result ≡ first_repeat ids.now }
{
    for i in 0..ids.len() {
        let (before, _) = ids.split_at(i);
        if contains(before, ids[i]) {
            return Some(ids[i]);
        }
    }
    None
}

#[tactic(auto, using(crate::proofs::Lists::repeat_rules))]
fn contains(ids: &[EncodingId], id: EncodingId) -> bool
    ensures { result ≡ is_listed id ids.now }
{
    for other in ids {
        if other.number() == id.number() {
            return true;
        }
    }
    false
}

#[tactic(auto, using(crate::proofs::Lists::place_rules))]
fn find_place(ids: &[EncodingId], id: EncodingId) -> Option<usize>
    ensures { result ≡ listed_place id ids.now }
{
    for i in 0..ids.len() {
        if ids[i].number() == id.number() {
            return Some(i);
        }
    }
    None
}
