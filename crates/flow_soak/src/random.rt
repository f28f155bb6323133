//! Numbers that look random.

use crate::fault::Fault;
use rand_core::{Rng, SeedableRng};
use rand_xoshiro::Xoshiro256PlusPlus;
use std::random::RandomSource;

#[derive(Drop)]
pub(crate) struct Random {
    numbers: Xoshiro256PlusPlus,
}

impl Random {
    /// Another seed in each run.
    pub(crate) fn new(rt: &impl RandomSource) -> Result<Random, Fault> {
        let mut seed = [0u8; 32];
        rt.fill_bytes(&mut seed)?;
        Ok(Random {
            numbers: Xoshiro256PlusPlus::from_seed(seed),
        })
    }

    /// A number below the bound, or 0.
    pub(crate) fn below(&mut self, bound: u64) -> u64 {
        self.numbers.next_u64() % bound.max(1)
    }

    /// Others, for another thread.
    pub(crate) fn split(&mut self) -> Random {
        Random {
            numbers: self.numbers.fork(),
        }
    }
}
