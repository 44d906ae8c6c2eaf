ghost use Rattle.std.specs.Prelude.{◌≡◌};
ghost use Rattle.vx_metadata.specs.Reading.{list_in};
ghost use Rattle.vx_metadata.specs.Views.{Gives, the_same};

use crate::error::{MetadataError, refused};
use crate::fields::ptype_of;
use std::alloc::{AllocError, Global};
use vx_model::PType;

/// Of a list layout.
#[derive(Clone, Copy, Debug, PartialEq, Eq)]
pub struct ListLayoutMetadata {
    pub offsets_ptype: PType,
}

impl ListLayoutMetadata {
    ghost use Rattle.std.specs.Prelude.{◌≡◌, Some, IfOk};
    ghost use Rattle.vx_metadata.specs.declared.list.ListLayoutMetadata.{ListLayoutMetadata};
    ghost use Rattle.vx_metadata.specs.Spelled.{list_bytes};
    ghost use Rattle.vx_metadata.specs.Reading.{list_in};
    ghost use Rattle.vx_metadata.specs.Views.{Gives, the_same};

    /// Of a list with offsets of the type.
    pub fn new(offsets_ptype: PType) -> ListLayoutMetadata
        ensures { result.offsets_ptype ≡ offsets_ptype }
    {
        ListLayoutMetadata { offsets_ptype }
    }

    /// One byte.
    pub fn serialize(&self, alloc: Global) -> Result<Vec<u8>, AllocError>
        ensures { IfOk result (λ v. v.items ≡ list_bytes self.now) }
    {
        Vec::from_slice(alloc, &[self.offsets_ptype.number()])
    }

    /// `Metadata` where it is no number of an integer type, or there is not one byte.
    pub fn deserialize(alloc: Global, bytes: &[u8]) -> Result<ListLayoutMetadata, MetadataError>
        // What is read has these bytes.
        ensures found { IfOk result (λ m. list_bytes m ≡ bytes.now) }
        // A value that has these bytes is read.
        ensures only { (m : ListLayoutMetadata) → list_bytes m ≡ bytes.now → Gives the_same bytes.now result (Some m) }
        ensures exact { Gives the_same bytes.now result (list_in bytes.now) }
    {
        read(alloc, bytes)
    }
}

fn read(alloc: Global, bytes: &[u8]) -> Result<ListLayoutMetadata, MetadataError>
    ensures { Gives the_same bytes.now result (list_in bytes.now) }
{
    match value_of(bytes) {
        Some(metadata) => Ok(metadata),
        None => Err(refused(alloc, bytes)),
    }
}

fn value_of(bytes: &[u8]) -> Option<ListLayoutMetadata>
    ensures { result ≡ list_in bytes.now }
{
    let [ptype] = bytes else {
        return None;
    };
    Some(ListLayoutMetadata {
        offsets_ptype: ptype_of(*ptype)?,
    })
}
