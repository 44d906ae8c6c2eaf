//! The least front of another column.
ghost use Rattle.std.specs.Prelude.{◌≡◌, ◌≢◌, ◌⊎◌, ◌<◌, length, slice_get, Some, None, IfNone, IfSome};
ghost use Rattle.std.specs.Option.{option_copied};
ghost use Rattle.vx_seats.specs.Fronts.{NoneAhead, IsAhead, lesser};

use vx_path::owned::{Path, path_le};

/// The least front of another column, where it is below the path.
pub(crate) fn least_ahead<'a>(
    fronts: &'a [Option<Path>],
    column: usize,
    path: &[u64],
) -> Option<&'a [u64]>
    ensures none { IfNone result (NoneAhead fronts.now column path.now) }
    ensures some { IfSome result (λ q. IsAhead fronts.now column path.now q.now) }
{
    let mut best: Option<&'a [u64]> = None;
    for k in 0..fronts.len() {
        best = lesser(best, other_front(fronts, column, k));
    }
    let q = best?;
    if path_le(path, q) { None } else { Some(q) }
}

/// The front at this place, where it is another column's and that hasn't ended.
fn other_front(fronts: &[Option<Path>], column: usize, k: usize) -> Option<&[u64]>
    requires { k < length fronts.now }
    ensures none { IfNone result ((k ≡ column) ⊎ (slice_get fronts.now k ≡ Some None)) }
    ensures some { IfSome result (λ q. (k ≢ column) × (slice_get fronts.now k ≡ Some (Some q.now))) }
{
    if k == column {
        return None;
    }
    match fronts.get(k) {
        Some(Some(front)) => Some(front.as_slice()),
        _ => None,
    }
}

/// The lesser of two fronts.
fn lesser<'a>(best: Option<&'a [u64]>, front: Option<&'a [u64]>) -> Option<&'a [u64]>
    ensures { option_copied result ≡ lesser (option_copied best.entry) (option_copied front.entry) }
{
    match (best, front) {
        (Some(p), Some(q)) => { if path_le(p, q) { Some(p) } else { Some(q) } }
        (Some(p), None) => Some(p),
        (None, front) => front,
    }
}
