ghost use Rattle.std.specs.Prelude.{◌≡◌};
ghost use Rattle.vx_metadata.specs.Reading.{dict_in};
ghost use Rattle.vx_metadata.specs.Views.{Gives, the_same};

use crate::error::{MetadataError, refused};
use crate::fields::{flag_of, ptype_of};
use std::alloc::{AllocError, Global};
use vx_model::PType;

/// Of a dictionary layout.
#[derive(Clone, Copy, Debug, PartialEq, Eq)]
pub struct DictLayoutMetadata {
    pub codes_ptype: PType,
    pub is_nullable_codes: bool,
    pub all_values_referenced: bool,
}

impl DictLayoutMetadata {
    ghost use Rattle.std.specs.Prelude.{◌≡◌, false, Some, IfOk};
    ghost use Rattle.vx_metadata.specs.declared.dict.DictLayoutMetadata.{DictLayoutMetadata};
    ghost use Rattle.vx_metadata.specs.Spelled.{dict_bytes};
    ghost use Rattle.vx_metadata.specs.Reading.{dict_in};
    ghost use Rattle.vx_metadata.specs.Views.{Gives, the_same};

    /// With both flags off.
    pub fn new(codes_ptype: PType) -> DictLayoutMetadata
        ensures codes { result.codes_ptype ≡ codes_ptype }
        ensures nullable { result.is_nullable_codes ≡ false }
        ensures referenced { result.all_values_referenced ≡ false }
    {
        DictLayoutMetadata {
            codes_ptype,
            is_nullable_codes: false,
            all_values_referenced: false,
        }
    }

    /// Three bytes.
    pub fn serialize(&self, alloc: Global) -> Result<Vec<u8>, AllocError>
        ensures { IfOk result (λ v. v.items ≡ dict_bytes self.now) }
    {
        let bytes = [
            self.codes_ptype.number(),
            u8::from(self.is_nullable_codes),
            u8::from(self.all_values_referenced),
        ];
        Vec::from_slice(alloc, &bytes)
    }

    /// `Metadata` where a byte is no number of an integer type, or a flag above 1, or there are not three.
    pub fn deserialize(alloc: Global, bytes: &[u8]) -> Result<DictLayoutMetadata, MetadataError>
        // What is read has these bytes.
        ensures found { IfOk result (λ m. dict_bytes m ≡ bytes.now) }
        // A value that has these bytes is read.
        ensures only { (m : DictLayoutMetadata) → dict_bytes m ≡ bytes.now → Gives the_same bytes.now result (Some m) }
        ensures exact { Gives the_same bytes.now result (dict_in bytes.now) }
    {
        read(alloc, bytes)
    }
}

fn read(alloc: Global, bytes: &[u8]) -> Result<DictLayoutMetadata, MetadataError>
    ensures { Gives the_same bytes.now result (dict_in bytes.now) }
{
    match value_of(bytes) {
        Some(metadata) => Ok(metadata),
        None => Err(refused(alloc, bytes)),
    }
}

fn value_of(bytes: &[u8]) -> Option<DictLayoutMetadata>
    ensures { result ≡ dict_in bytes.now }
{
    let [ptype, nullable, all] = bytes else {
        return None;
    };
    Some(DictLayoutMetadata {
        codes_ptype: ptype_of(*ptype)?,
        is_nullable_codes: flag_of(*nullable)?,
        all_values_referenced: flag_of(*all)?,
    })
}
