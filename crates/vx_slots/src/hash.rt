//! Hashes of cells.

ghost use Rattle.std.specs.Prelude.{◌≡◌, ◌≤◌};
ghost use Rattle.vx_typed.specs.Lent.{lent_cell};
ghost use Rattle.vx_slots.specs.Slots.{int_hash, cell_hash, first_slot};

use vx_hash::{ByteHash, XxHash3_64};
use vx_typed::Lent;

/// An odd number near 2^64 over the golden ratio: products with it spread neighbours.
const MULTIPLIER: u64 = 0x9e37_79b9_7f4a_7c15;

/// Where a walk for the cell begins: at most the mask, and the same for cells that are the same.
#[tactic(auto, using(std::proofs::lemmas::Nat::and_le_r))]
pub(crate) fn first_slot(cell: Lent<'_>, mask: u64) -> u64
    ensures slot { result ≡ first_slot mask (lent_cell cell.entry) }
    ensures within { result ≤ mask }
{
    cell_hash(cell) & mask
}

fn cell_hash(cell: Lent<'_>) -> u64
    ensures { result ≡ cell_hash (lent_cell cell.entry) }
{
    match cell {
        Lent::Int(n) => int_hash(n),
        Lent::Utf8(text) => XxHash3_64::oneshot(text.as_bytes()),
        Lent::Binary(bytes) => XxHash3_64::oneshot(bytes),
        Lent::Null | Lent::Bool(_) | Lent::List(..) | Lent::Struct(..) => 0,
    }
}

/// Multiplies the low 64 bits, which have the whole of an integer of any column.
#[tactic(auto, unfolding(crate::specs::Slots::int_hash))]
fn int_hash(n: i128) -> u64
    ensures { result ≡ int_hash n }
{
    let low = (n.cast_unsigned() % 0x1_0000_0000_0000_0000) as u64;
    let product = low.wrapping_mul(MULTIPLIER);
    product ^ (product >> 32)
}
