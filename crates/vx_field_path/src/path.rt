ghost use Rattle.std.specs.Prelude.{◌≡◌, [], ◌∷◌, IfOk, Some, None, map};
ghost use Rattle.vx_field_path.specs.Paths.{Names, is_root, overlaps, stepped};

use std::alloc::{AllocError, Global};
use std::marker::Model;
use vx_model::FieldName;

/// Names of fields, the outermost first. Contracts see the list of names.
#[derive(Debug, Drop)]
pub struct FieldPath {
    parts: Vec<FieldName>,
}

impl Model for FieldPath {
    ghost use Rattle.std.specs.Prelude.{ℕ, List};

    ghost Value = { List (List ℕ) };

    ghost view = { λ p. p.parts.items };
}

impl FieldPath {
    /// The path of no names. It keeps the allocator and takes no memory.
    pub fn root(alloc: Global) -> FieldPath
        ensures { result ≡ [] }
    {
        FieldPath {
            parts: Vec::new(alloc),
        }
    }

    /// The path of one name.
    pub fn from_name(alloc: Global, name: FieldName) -> Result<FieldPath, AllocError>
        ensures { IfOk result (λ p. p ≡ name ∷ []) }
    {
        let mut parts = Vec::with_capacity(alloc, 1)?;
        parts.push(name)?;
        Ok(FieldPath { parts })
    }

    /// The names, the outermost first.
    pub fn parts(&self) -> &[FieldName]
        ensures { result.now ≡ self.now }
    {
        self.parts.as_slice()
    }

    /// Whether it is the path of no names.
    pub fn is_root(&self) -> bool
        ensures { result ≡ is_root self.now }
    {
        self.parts.is_empty()
    }

    /// Whether one is a prefix of the other; equal paths overlap.
    pub fn overlap(&self, other: &FieldPath) -> bool
        ensures { result ≡ overlaps self.now other.now }
    {
        agree(self.parts(), other.parts())
    }

    /// Without its first name; nothing at the root.
    pub fn step_into(mut self) -> Option<FieldPath>
        ensures { result ≡ stepped self }
    {
        if self.is_root() {
            return None;
        }
        let _first = self.parts.remove(0);
        Some(self)
    }
}

/// Whether two lists of names agree as far as the shorter one goes.
#[tactic(auto, using(crate::proofs::Steps::overlap_rules))]
fn agree(a: &[FieldName], b: &[FieldName]) -> bool
    ensures { result ≡ overlaps a.now b.now }
{
    for i in 0..a.len().min(b.len()) {
        if a[i] != b[i] {
            return false;
        }
    }
    true
}

impl From<Vec<FieldName>> for FieldPath {
    ghost from_gives = { λ names p. p ≡ names.items };

    fn from(parts: Vec<FieldName>) -> FieldPath {
        FieldPath { parts }
    }
}

impl Clone for FieldPath {
    ghost is_clone = { λ p copy. copy ≡ p };

    fn clone(&self) -> Result<FieldPath, AllocError> {
        let mut parts = Vec::with_capacity(*self.parts.allocator(), self.parts.len())?;
        for name in &self.parts {
            parts.push(name.clone()?)?;
        }
        Ok(FieldPath { parts })
    }
}
