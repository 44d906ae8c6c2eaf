//! Records of zones, bounds, and what they rule out.
//! Each function here has an empty body; its contract is a law, proved for every record.
#![tactic(auto)]

ghost use Rattle.vx_zone_spec.specs.Statements.{PruningIsSound, TableIsExact, NotIsPushed, FilterContains, StoredFilterContains, BoundsHold, HashIsSmall};

/// Where a zone's record rules a predicate out, no row of the zone matches it.
pub fn pruning_is_sound()
    ensures { PruningIsSound }
{}

/// A record rules a predicate out exactly where the table says so.
pub fn table_is_exact()
    ensures { TableIsExact }
{}

/// Pushing Not to the leaves changes nothing that a predicate says.
pub fn not_is_pushed()
    ensures { NotIsPushed }
{}

/// A filter contains each value of its zone.
pub fn filters_contain_values()
    ensures { FilterContains }
{}

/// So does a filter as a record stores it.
pub fn stored_filters_contain_values()
    ensures { StoredFilterContains }
{}

/// A bounded maximum that isn't null is at least every value, a bounded minimum at most.
pub fn bounds_hold()
    ensures { BoundsHold }
{}

/// The hash of filters has 64 bits, so laws that ask for this hold of it.
pub fn hash_is_small()
    ensures { HashIsSmall }
{}
