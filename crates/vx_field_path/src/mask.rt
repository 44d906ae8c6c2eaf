use crate::path::FieldPath;
use vx_model::FieldName;

/// Which fields below a column are meant.
#[derive(Debug, Drop)]
pub enum FieldMask {
    /// Every field.
    All,
    /// The field at the path, and all below it.
    Prefix(FieldPath),
    /// The field at the path alone.
    Exact(FieldPath),
}

impl FieldMask {
    ghost use Rattle.std.specs.Prelude.{◌≡◌, option_copied};
    ghost use Rattle.vx_field_path.specs.Masks.{takes_all, starting, mask_stepped};

    /// Whether every field matches.
    pub fn matches_all(&self) -> bool
        ensures { result ≡ takes_all self.now }
    {
        match self {
            FieldMask::All => true,
            FieldMask::Prefix(path) => path.is_root(),
            FieldMask::Exact(_) => false,
        }
    }

    /// The path's first name; nothing where every field is meant, and at the root.
    pub fn starting_field(&self) -> Option<&FieldName>
        ensures { option_copied result ≡ starting self.now }
    {
        match self {
            FieldMask::All => None,
            FieldMask::Prefix(path) | FieldMask::Exact(path) => path.parts().first(),
        }
    }

    /// The mask as seen from below its first name: a prefix of one name becomes all. Nothing at the root.
    pub fn step_into(self) -> Option<FieldMask>
        ensures { result ≡ mask_stepped self }
    {
        match self {
            FieldMask::All => Some(FieldMask::All),
            FieldMask::Prefix(path) => match path.step_into() {
                None => None,
                Some(rest) => {
                    if rest.is_root() {
                        Some(FieldMask::All)
                    } else {
                        Some(FieldMask::Prefix(rest))
                    }
                }
            },
            FieldMask::Exact(path) => match path.step_into() {
                None => None,
                Some(rest) => Some(FieldMask::Exact(rest)),
            },
        }
    }
}
