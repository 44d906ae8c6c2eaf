//! A gate at which two columns meet.

use std::sync::{Mutex, Wait};
use std::thread;
use vx_gate::Gate;

/// Which columns have come to the gate, which of them saw the other, and whether one gave up waiting for it.
#[derive(Drop, Clone, Copy, Debug, PartialEq, Eq)]
pub(crate) struct Seen {
    pub first_came: bool,
    pub second_came: bool,
    pub first_saw: bool,
    pub second_saw: bool,
    pub gave_up: bool,
}

/// Lets no column's call pass until a call of the other has begun. After so many looks it gives up, and remembers that.
#[derive(Drop)]
pub(crate) struct Meeting<'a, R: Wait> {
    pub seen: Mutex<Seen>,
    pub looks: u64,
    pub rt: &'a R,
}

impl<'a, R: Wait> Meeting<'a, R> {
    pub fn new(rt: &'a R, looks: u64) -> Meeting<'a, R> {
        Meeting {
            seen: Mutex::new(Seen {
                first_came: false,
                second_came: false,
                first_saw: false,
                second_saw: false,
                gave_up: false,
            }),
            looks,
            rt,
        }
    }

    pub fn into_seen(self) -> Seen {
        let Meeting {
            seen,
            looks: _,
            rt: _,
        } = self;
        seen.into_inner()
    }

    fn give_up(&self) {
        let mut seen = self.seen.lock(self.rt);
        seen.gave_up = true;
    }

    /// Comes, and tells whether the other has.
    fn look(&self, column: u64) -> bool {
        let mut seen = self.seen.lock(self.rt);
        if column == 0 {
            seen.first_came = true;
            if seen.second_came {
                seen.first_saw = true;
            }
            seen.second_came
        } else {
            seen.second_came = true;
            if seen.first_came {
                seen.second_saw = true;
            }
            seen.first_came
        }
    }
}

impl<R: Wait> Gate for Meeting<'_, R> {
    fn before(&self, column: u64) {
        for _ in 0..self.looks {
            if self.look(column) {
                return;
            }
            thread::yield_now();
        }
        self.give_up();
    }
}
