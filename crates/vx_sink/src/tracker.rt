//! Counts of bytes that are held back.

ghost use Rattle.std.specs.Prelude.{◌≡◌, ◌+◌, ◌-◌, ◌<◌, ◌≤◌, ◌^◌, IfOk, IfErr, OnOk, OnErr};

use std::marker::Model;
use thiserror::Error;

/// A total that passes u64: this number.
#[derive(Debug, Drop, Error)]
#[error("{0} is too large")]
pub struct TooLarge(pub u128);

/// Counts the bytes that are reserved; contracts see their number.
#[derive(Debug, Drop)]
pub struct BufferedBytesTracker {
    bytes: u64,
}

impl Model for BufferedBytesTracker {
    ghost use Rattle.std.specs.Prelude.{ℕ};

    ghost Value = { ℕ };

    ghost view = { λ t. t.bytes };
}

impl BufferedBytesTracker {
    /// Nothing is reserved.
    pub fn new() -> BufferedBytesTracker
        ensures { result ≡ 0 }
    {
        BufferedBytesTracker { bytes: 0 }
    }

    /// How many bytes are reserved.
    pub fn buffered_bytes(&self) -> u64
        ensures { result ≡ self.now }
    {
        self.bytes
    }

    /// Counts the bytes to those that are reserved. A total that passes u64 is refused.
    pub fn reserve(&mut self, bytes: u64) -> Result<BufferedBytesReservation, TooLarge>
        ensures bytes { IfOk result (λ r. r ≡ bytes) }
        ensures total { OnOk result (self.new ≡ self.old + bytes) }
        ensures fits { OnOk result (self.old + bytes < 2 ^ 64) }
        ensures refused { IfErr result (λ e. (e.0 ≡ self.old + bytes) × (2 ^ 64 ≤ self.old + bytes)) }
        ensures unchanged { OnErr result (self.new ≡ self.old) }
    {
        let total = u128::from(self.bytes) + u128::from(bytes);
        if total > u128::from(u64::MAX) {
            return Err(TooLarge(total));
        }
        self.bytes = total as u64;
        Ok(BufferedBytesReservation { bytes })
    }
}

/// Bytes that a tracker counts; contracts see their number. A reservation must be spent, by `release`.
#[derive(Debug)]
pub struct BufferedBytesReservation {
    bytes: u64,
}

impl Model for BufferedBytesReservation {
    ghost use Rattle.std.specs.Prelude.{ℕ};

    ghost Value = { ℕ };

    ghost view = { λ r. r.bytes };
}

impl BufferedBytesReservation {
    /// How many bytes are reserved.
    pub fn bytes(&self) -> u64
        ensures { result ≡ self.now }
    {
        self.bytes
    }

    /// The tracker counts these bytes no more.
    pub fn release(self, tracker: &mut BufferedBytesTracker)
        requires { self ≤ tracker.old }
        ensures { tracker.new ≡ tracker.old - self }
    {
        let BufferedBytesReservation { bytes } = self;
        tracker.bytes -= bytes;
    }
}
