ghost use Rattle.std.specs.Prelude.{◌≡◌};
ghost use Rattle.vx_session.specs.Encodings.{kind_of};

use crate::encoding::LayoutEncoding;
use std::alloc::{AllocError, Global};
use std::marker::Model;

/// The kinds that are built, by their ids.
#[derive(Debug, Drop)]
pub struct LayoutRegistry {
    kinds: Vec<LayoutEncoding>,
}

impl Model for LayoutRegistry {
    ghost use Rattle.std.specs.Prelude.{List};
    ghost use Rattle.vx_session.specs.declared.encoding.LayoutEncoding.{LayoutEncoding};

    ghost Value = { List LayoutEncoding };

    ghost view = { λ r. r.kinds.items };
}

impl LayoutRegistry {
    ghost use Rattle.std.specs.Prelude.{◌≡◌, [], OnOk, IfErr};
    ghost use Rattle.vx_session.specs.Encodings.{kind_of, with_kind, with_kinds};

    pub(crate) fn new(alloc: Global) -> LayoutRegistry
        ensures { result ≡ [] }
    {
        LayoutRegistry {
            kinds: Vec::new(alloc),
        }
    }

    /// The kind that is registered under the id.
    pub fn find(&self, id: &str) -> Option<LayoutEncoding>
        ensures { result ≡ kind_of id.now self.now }
    {
        find_kind(&self.kinds, id)
    }

    /// In the place of one that has the same id. Nothing changes where memory runs out.
    pub(crate) fn register(&mut self, layout: LayoutEncoding) -> Result<(), AllocError>
        ensures done { OnOk result (self.new ≡ with_kind layout self.old) }
        ensures kept { IfErr result (λ e. self.new ≡ self.old) }
    {
        if self.find(layout.id()).is_none() {
            self.kinds.push(layout)?;
        }
        Ok(())
    }
}

impl Clone for LayoutRegistry {
    ghost is_clone = { λ r copy. copy ≡ r };

    fn clone(&self) -> Result<LayoutRegistry, AllocError> {
        Ok(LayoutRegistry {
            kinds: Vec::from_slice(*self.kinds.allocator(), self.kinds.as_slice())?,
        })
    }
}

#[tactic(auto, using(crate::proofs::Lists::kind_rules))]
fn find_kind(kinds: &[LayoutEncoding], id: &str) -> Option<LayoutEncoding>
    ensures { result ≡ kind_of id.now kinds.now }
{
    for kind in kinds {
        if kind.id() == id {
            return Some(*kind);
        }
    }
    None
}
