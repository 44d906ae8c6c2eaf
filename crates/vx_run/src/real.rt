//! The program's own input and output.

ghost use Rattle.std.specs.Prelude.{◌≡◌};

use crate::input::{Input, InputFailure};
use crate::output::{Output, OutputFailure};
use std::io::{Read, Write};
use vx_fault::Fallible;

/// A reader as an input; it tells what the reader tells.
#[derive(Drop)]
pub struct RealInput<R: Read> {
    inner: R,
    faults: u64,
}

impl<R: Read> RealInput<R> {
    /// Nothing is read before the first call.
    pub fn new(inner: R) -> RealInput<R>
        ensures to_come { ⟦<RealInput<R> as Input>⟧.to_come result ≡ R.remaining inner }
        ensures faults { ⟦<RealInput<R> as Fallible>⟧.faults result ≡ 0 }
    {
        RealInput { inner, faults: 0 }
    }
}

impl<R: Read> Fallible for RealInput<R> {
    ghost faults = { λ s. s.faults };

    ghost may_fail = { λ _ _. Unit {0} };
}

impl<R: Read> Input for RealInput<R> {
    ghost to_come = { λ s. R.remaining s.inner };

    fn read(&mut self, buf: &mut [u8]) -> Result<u64, InputFailure> {
        match self.inner.read(buf) {
            Ok(count) => Ok(count as u64),
            Err(_) => {
                self.faults = self.faults.saturating_add(1);
                Err(InputFailure::Failed)
            }
        }
    }
}

/// A writer as an output; it tells what the writer tells. A write of nothing is a failure.
#[derive(Drop)]
pub struct RealOutput<W: Write> {
    inner: W,
    faults: u64,
}

impl<W: Write> RealOutput<W> {
    /// Nothing is written before the first call.
    pub fn new(inner: W) -> RealOutput<W>
        ensures written { ⟦<RealOutput<W> as Output>⟧.written result ≡ W.contents inner }
        ensures faults { ⟦<RealOutput<W> as Fallible>⟧.faults result ≡ 0 }
    {
        RealOutput { inner, faults: 0 }
    }
}

impl<W: Write> Fallible for RealOutput<W> {
    ghost faults = { λ s. s.faults };

    ghost may_fail = { λ _ _. Unit {0} };
}

impl<W: Write> Output for RealOutput<W> {
    ghost written = { λ s. W.contents s.inner };

    fn write(&mut self, bytes: &[u8]) -> Result<u64, OutputFailure> {
        match self.inner.write(bytes) {
            Ok(count) if count > 0 || bytes.is_empty() => Ok(count as u64),
            Ok(_) | Err(_) => {
                self.faults = self.faults.saturating_add(1);
                Err(OutputFailure::Failed)
            }
        }
    }
}
