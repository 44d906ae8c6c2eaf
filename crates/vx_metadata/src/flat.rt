use crate::error::{MetadataError, refused};
use std::alloc::{AllocError, Global};
use vx_model::Blob;

/// Of a flat layout: the array tree of its segment, where it is kept. The tree is not read.
#[derive(Debug, Drop)]
pub struct FlatLayoutMetadata {
    pub array_encoding_tree: Option<Blob>,
}

impl FlatLayoutMetadata {
    ghost use Rattle.std.specs.Prelude.{◌≡◌, List, ℕ, Option, Some, IfOk};
    ghost use Rattle.vx_metadata.specs.Spelled.{flat_bytes};
    ghost use Rattle.vx_metadata.specs.Reading.{flat_in};
    ghost use Rattle.vx_metadata.specs.Views.{Gives, kept_tree};

    /// A 1 and the array tree, or nothing.
    pub fn serialize(&self, alloc: Global) -> Result<Vec<u8>, AllocError>
        ensures { IfOk result (λ v. v.items ≡ flat_bytes (kept_tree self.now)) }
    {
        let mut out = Vec::new(alloc);
        if let Some(tree) = &self.array_encoding_tree {
            out.push(1)?;
            out.extend_from_slice(tree.as_slice())?;
        }
        Ok(out)
    }

    /// `Metadata` where the first byte is no 1. The array tree is not read.
    pub fn deserialize(alloc: Global, bytes: &[u8]) -> Result<FlatLayoutMetadata, MetadataError>
        // What is read has these bytes.
        ensures found { IfOk result (λ m. flat_bytes (kept_tree m) ≡ bytes.now) }
        // A value that has these bytes is read, unless memory runs out.
        ensures only { (tree : Option (List ℕ)) → flat_bytes tree ≡ bytes.now → Gives kept_tree bytes.now result (Some tree) }
        ensures exact { Gives kept_tree bytes.now result (flat_in bytes.now) }
    {
        match bytes {
            [] => Ok(FlatLayoutMetadata {
                array_encoding_tree: None,
            }),
            [1, tree @ ..] => Ok(FlatLayoutMetadata {
                array_encoding_tree: Some(Blob::from_slice(alloc, tree)?),
            }),
            [_, ..] => Err(refused(alloc, bytes)),
        }
    }
}
