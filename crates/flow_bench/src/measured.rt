//! What was measured, and how long it took.

use std::rt::Clock;
use std::time::Instant;

/// What was measured.
#[derive(Clone, Copy)]
pub(crate) struct Measured {
    /// What arrived, by its sum, its number or its last value.
    pub(crate) total: u64,
    /// None, where the clock can't be read.
    pub(crate) nanoseconds: Option<u64>,
}

impl Measured {
    /// A total, and the nanoseconds since a moment.
    pub(crate) fn since(rt: &impl Clock, start: Option<Instant>, total: u64) -> Measured {
        Measured {
            total,
            nanoseconds: nanoseconds_since(rt, start),
        }
    }
}

/// This moment, where the clock can be read.
pub(crate) fn now(rt: &impl Clock) -> Option<Instant> {
    Instant::now(rt).ok()
}

/// The nanoseconds since a moment.
pub(crate) fn nanoseconds_since(rt: &impl Clock, start: Option<Instant>) -> Option<u64> {
    let passed = start?.elapsed(rt).ok()?;
    u64::try_from(passed.as_nanos()).ok()
}
