//! A start that threads agree on.

use std::sync::atomic::{AtomicU64, Ordering};
use std::thread::yield_now;

/// How often a side looks at most whether the others have come.
const TURNS: u32 = 5_000_000;

/// Where so many sides meet, each of which waits for the others later on.
///
/// Where no thread can be had, `join` calls one side after another. So who waits here in vain gives up, and none begins.
#[derive(Drop)]
pub struct Gathering {
    sides: u64,
    come: AtomicU64,
    /// `OPEN`, and then `BEGUN` or `GIVEN_UP` for good.
    decision: AtomicU64,
}

const OPEN: u64 = 0;

const BEGUN: u64 = 1;

const GIVEN_UP: u64 = 2;

impl Gathering {
    /// A meeting of so many sides, of whom none has come.
    pub fn of(sides: u64) -> Gathering {
        Gathering {
            sides,
            come: AtomicU64::new(0),
            decision: AtomicU64::new(OPEN),
        }
    }

    /// A side comes and waits for the others. Whether all came in time.
    pub fn come(&self) -> bool {
        let before = self.come.fetch_add(1, Ordering::SeqCst);
        if before.saturating_add(1) == self.sides {
            self.decide(BEGUN);
        }
        for _ in 0..TURNS {
            if self.decision.load(Ordering::SeqCst) != OPEN {
                break;
            }
            yield_now();
        }
        self.decide(GIVEN_UP);
        self.decision.load(Ordering::SeqCst) == BEGUN
    }

    // The first decision stands.
    fn decide(&self, decision: u64) {
        let _decided = self
            .decision
            .compare_exchange(OPEN, decision, Ordering::SeqCst, Ordering::SeqCst);
    }
}
