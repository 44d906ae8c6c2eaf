//! Fields at the front of bytes. Each reader returns a value and the bytes behind it, and nothing where the bytes are
//! too few or no such field. Numbers have their lowest byte first.

ghost use Rattle.std.specs.Prelude.{◌≡◌, ◌-◌, length, option_map, IfSome};
ghost use Rattle.std.specs.Int.{w16, w32, w64};
ghost use Rattle.vx_byte_reader.specs.Fields.{front_at, byte_at, flag_at, number_at};

/// The first `n` bytes.
#[tactic(auto, unfolding(crate::specs::Fields::front_at))]
pub fn front_at(n: u64, bytes: &[u8]) -> Option<(&[u8], &[u8])>
    ensures front { option_map (λ x. (x.0.now, x.1.now)) result ≡ front_at n bytes.now }
    ensures count { IfSome result (λ x. length x.0.now ≡ n) }
{
    if (bytes.len() as u64) < n {
        return None;
    }
    Some(bytes.split_at(n as usize))
}

/// A flag of one byte.
pub fn flag_at(bytes: &[u8]) -> Option<(bool, &[u8])>
    ensures { option_map (λ x. (x.0, x.1.now)) result ≡ flag_at bytes.now }
{
    match bytes {
        [] => None,
        [0, rest @ ..] => Some((false, rest)),
        [1, rest @ ..] => Some((true, rest)),
        [_, ..] => None,
    }
}

/// A byte.
pub fn u8_at(bytes: &[u8]) -> Option<(u8, &[u8])>
    ensures { option_map (λ x. (x.0, x.1.now)) result ≡ byte_at bytes.now }
{
    match bytes {
        [] => None,
        [byte, rest @ ..] => Some((*byte, rest)),
    }
}

/// A number of two bytes.
#[tactic(auto, unfolding(crate::specs::Fields::number_at, crate::specs::Fields::front_at))]
pub fn u16_at(bytes: &[u8]) -> Option<(u16, &[u8])>
    ensures { option_map (λ x. (x.0, x.1.now)) result ≡ number_at w16 bytes.now }
{
    if bytes.len() < 2 {
        return None;
    }
    let (front, rest) = bytes.split_at(2);
    Some((u16::from_le_bytes([front[0], front[1]]), rest))
}

/// A number of four bytes.
#[tactic(auto, unfolding(crate::specs::Fields::number_at, crate::specs::Fields::front_at))]
pub fn u32_at(bytes: &[u8]) -> Option<(u32, &[u8])>
    ensures { option_map (λ x. (x.0, x.1.now)) result ≡ number_at w32 bytes.now }
{
    if bytes.len() < 4 {
        return None;
    }
    let (front, rest) = bytes.split_at(4);
    let number = u32::from_le_bytes([front[0], front[1], front[2], front[3]]);
    Some((number, rest))
}

/// A number of eight bytes.
#[tactic(auto, unfolding(crate::specs::Fields::number_at, crate::specs::Fields::front_at))]
pub fn u64_at(bytes: &[u8]) -> Option<(u64, &[u8])>
    ensures { option_map (λ x. (x.0, x.1.now)) result ≡ number_at w64 bytes.now }
{
    if bytes.len() < 8 {
        return None;
    }
    let (front, rest) = bytes.split_at(8);
    let number = u64::from_le_bytes([
        front[0], front[1], front[2], front[3], front[4], front[5], front[6], front[7],
    ]);
    Some((number, rest))
}

/// The place at which the bytes that are left begin, where all of them end at `stop`.
pub fn place_of(stop: u64, rest: &[u8]) -> u64
    ensures { result ≡ stop - length rest.now }
{
    stop.saturating_sub(rest.len() as u64)
}
