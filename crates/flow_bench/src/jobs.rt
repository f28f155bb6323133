//! What is measured of one who emits and of readers, whichever they are.

use crate::fan_out::{Drains, InOrder, fan_out};
use crate::fault::Fault;
use crate::measured::Measured;
use crate::receipts::{Takes, receipts};
use crate::sides::{Admits, Ends, Feeds, admit_all, end_all};
use std::alloc::AllocGlobal;
use std::random::RandomSource;
use std::rt::Clock;
use std::sync::Wait;
use std::thread::Threads;

/// What is measured.
#[derive(Clone, Copy)]
pub(crate) enum Job {
    /// So many emissions, each of which all readers take before the next one, on one thread.
    Receipts(u64),
    /// So many values, which each reader takes in a thread of its own.
    FanOut(u64),
}

impl Job {
    /// Measures it with so many readers of a flow that has none.
    pub(crate) fn on<R, F, L>(self, rt: &R, flow: &mut F, readers: u32) -> Result<Measured, Fault>
    where
        R: Clock + AllocGlobal + RandomSource + Threads + Wait + Sync,
        F: Admits<L> + Takes<L> + Feeds + Send,
        L: Drains<u64> + InOrder + Ends + Send,
    {
        let mut readers = admit_all(rt, flow, readers)?;
        let measured = self.measured(rt, flow, &mut readers);
        end_all(rt, readers);
        Ok(measured)
    }

    /// Measures it with these readers.
    pub(crate) fn measured<R, E, L>(self, rt: &R, emitter: &mut E, readers: &mut Vec<L>) -> Measured
    where
        R: Clock + Threads + Wait + Sync,
        E: Takes<L> + Feeds + Send,
        L: Drains<u64> + InOrder + Send,
    {
        match self {
            Job::Receipts(emissions) => receipts(rt, emitter, readers, emissions),
            Job::FanOut(values) => fan_out(rt, emitter, readers, values),
        }
    }
}
