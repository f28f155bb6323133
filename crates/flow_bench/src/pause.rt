//! How a thread waits for another one's step.

use std::{hint, thread};

/// The turns of the first spin.
const FIRST: u32 = 32;

/// The turns of the longest spin.
const LONGEST: u32 = 64;

/// Spins twice as long each time, and from its longest spin on yields each time.
#[derive(Clone, Copy)]
pub(crate) struct Pause {
    turns: u32,
}

impl Pause {
    pub(crate) fn new() -> Pause {
        Pause { turns: FIRST }
    }

    pub(crate) fn wait(&mut self) {
        if self.turns > LONGEST {
            thread::yield_now();
            return;
        }
        for _ in 0..self.turns {
            hint::spin_loop();
        }
        self.turns = self.turns.wrapping_mul(2);
    }
}
