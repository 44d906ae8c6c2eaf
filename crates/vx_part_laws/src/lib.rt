//! Parts of universes, against the ids and the pointer that are parted off.
//! The function here has an empty body; its contract is a law, proved for every universe.
#![tactic(auto)]

ghost use Rattle.vx_part_laws.specs.Parts.{HeldCanPart, PartIsExact, PartIsOwned, PartLeaves};

/// Ids and a pointer that are held may be parted off. Then they are all that is active in the part, and the rest is as if they
/// had been given up.
pub fn parts()
    ensures can { HeldCanPart }
    ensures exact { PartIsExact }
    ensures owned { PartIsOwned }
    ensures left { PartLeaves }
{}
