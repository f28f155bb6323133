//! A start that two threads agree on.

use std::sync::atomic::{AtomicBool, Ordering};
use std::thread::yield_now;

/// How often the second side looks at most whether the first has come.
const TURNS: u32 = 5_000_000;

/// Where two sides meet that wait for each other later on.
///
/// Where no thread can be had, `join` calls the second before the first, and it would wait for good. So it gives up here,
/// and the first, once it is called, doesn't begin.
#[derive(Drop)]
pub(crate) struct Meeting {
    is_decided: AtomicBool,
}

impl Meeting {
    pub(crate) fn new() -> Meeting {
        Meeting {
            is_decided: AtomicBool::new(false),
        }
    }

    /// The first side comes. Whether the second is still there.
    pub(crate) fn come(&self) -> bool {
        !self.is_decided.swap(true, Ordering::SeqCst)
    }

    /// The second side waits for the first. Whether it came in time.
    pub(crate) fn wait(&self) -> bool {
        for _ in 0..TURNS {
            if self.is_decided.load(Ordering::SeqCst) {
                return true;
            }
            yield_now();
        }
        self.is_decided.swap(true, Ordering::SeqCst)
    }
}
