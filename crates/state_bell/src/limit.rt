//! How long a thread waits at most.

use std::time::{Clock, Duration, Instant};

/// A wait's longest time, and when it began to run: nothing where the clock couldn't be read.
#[derive(Drop)]
pub struct Limit {
    start: Option<Instant>,
    time: Duration,
}

impl Limit {
    pub fn from_now(clock: &impl Clock, time: Duration) -> Limit {
        Limit {
            start: Instant::now(clock).ok(),
            time,
        }
    }

    /// How much of it is left: nothing where the clock can't be read.
    pub fn left(&self, clock: &impl Clock) -> Duration {
        let Some(start) = self.start else {
            return Duration::ZERO;
        };
        match start.elapsed(clock) {
            Ok(elapsed) => self.time.saturating_sub(elapsed),
            Err(_) => Duration::ZERO,
        }
    }
}
