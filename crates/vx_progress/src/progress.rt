//! Who is told how far a write is.

ghost use Rattle.std.specs.Prelude.{◌≡◌, List, [], ◌∷◌, Option, None};
ghost use Rattle.vx_fault.specs.Told.{then_told};
ghost use Rattle.vx_progress.specs.Taken.{Taken};

/// Is told how far a write is. Nothing that is written hangs on it.
pub trait Progress {
    /// What was told so far, where it tells that again.
    ghost told: { Self → Option (List Taken) } = { λ _. None };

    /// So many batches were taken by now, so many rows in them, and so many segments were appended. Numbers that pass u64
    /// stay at the greatest.
    fn taken(&mut self, batches: u64, rows: u64, segments: u64)
        ensures { told self.new ≡ then_told (told self.old) (record { batches = batches; rows = rows; segments = segments } ∷ []) };
}

impl<P: Progress> Progress for &mut P {
    ghost told = { λ p. P.told p.now };

    fn taken(&mut self, batches: u64, rows: u64, segments: u64) {
        (**self).taken(batches, rows, segments);
    }
}

/// Nobody: what is told is dropped.
#[derive(Clone, Copy, Debug)]
pub struct Nobody;

impl Progress for Nobody {
    fn taken(&mut self, _batches: u64, _rows: u64, _segments: u64) {}
}
