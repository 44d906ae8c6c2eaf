//! Zones and the column's rows.

ghost use Rattle.std.specs.Prelude.{◌≡◌, suc, ◌-◌, ◌*◌, ◌<◌, nat_lt, if◌then◌else◌};
ghost use Rattle.vx_zone_spec.specs.ZoneMap.{zones_fit};

/// Whether all zones but the last lie within the column's rows. The product stops at the greatest u64.
#[tactic(auto, using(crate::proofs::CountSteps::count_rules))]
pub(crate) fn zones_fit(zone_len: u64, row_count: u64, zones: u64) -> bool
    ensures { result ≡ zones_fit zone_len row_count zones }
{
    zones == 0 || zone_len.saturating_mul(zones - 1) <= row_count
}

/// The rows of the zone at the place: each but the last has the zone length, the last has the rest.
#[tactic(auto, using(crate::proofs::CountSteps::count_rules))]
pub(crate) fn rows_at(zone_len: u64, row_count: u64, zones: u64, place: u64) -> u64
    requires { place < zones }
    ensures { result ≡ (if nat_lt (suc place) zones then zone_len else row_count - zone_len * place) }
{
    if place + 1 < zones {
        zone_len
    } else {
        row_count.saturating_sub(zone_len.saturating_mul(place))
    }
}
