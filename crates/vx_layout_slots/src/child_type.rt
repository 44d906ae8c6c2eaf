use crate::slots::in_brackets;
use std::alloc::{AllocError, Global};
use vx_model::{FieldName, Text};

/// What a child is to its layout.
#[derive(Debug, PartialEq, Eq, Drop)]
pub enum LayoutChildType {
    /// It has the layout's own rows.
    Transparent(Text),
    Auxiliary(Text),
    /// The place among the chunks, and the layout's row at which it begins.
    Chunk((u64, u64)),
    Field(FieldName),
}

impl LayoutChildType {
    ghost use Rattle.std.specs.Prelude.{◌≡◌, IfOk};
    ghost use Rattle.vx_layout_slots.specs.Slots.{child_name, child_offset};

    /// Of a chunk its place in brackets.
    pub fn name(&self, alloc: Global) -> Result<Text, AllocError>
        ensures { IfOk result (λ name. name ≡ child_name self.now) }
    {
        match self {
            LayoutChildType::Transparent(name)
            | LayoutChildType::Auxiliary(name)
            | LayoutChildType::Field(name) => name.clone(),
            LayoutChildType::Chunk((place, _)) => in_brackets(alloc, *place),
        }
    }

    /// The layout's row at which the child begins, where it has rows of the layout.
    pub fn row_offset(&self) -> Option<u64>
        ensures { result ≡ child_offset self.now }
    {
        match self {
            LayoutChildType::Chunk((_, offset)) => Some(*offset),
            LayoutChildType::Transparent(_) | LayoutChildType::Field(_) => Some(0),
            LayoutChildType::Auxiliary(_) => None,
        }
    }
}
