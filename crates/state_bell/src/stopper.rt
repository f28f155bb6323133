//! Who lets go one watcher alone.

use crate::bell::Bell;
use std::alloc::{AllocError, Global};
use std::sync::Arc;
use std::sync::atomic::{AtomicBool, Ordering};

/// Lets go one watcher of a state, and none beside it: Kotlin's `Job.cancel` of a coroutine that collects. It is had of the seat or
/// the watcher that it is for. Any number of them may be had, on any thread.
pub struct Stopper {
    mark: Arc<Mark>,
}

// By hand: who lets one go proves this call alone, and nothing of what it is made of.
impl Drop for Stopper {
    fn drop(self) {
        let Stopper { mark } = self;
        drop(mark);
    }
}

/// What a watcher shares with its stoppers. No contract speaks of it.
#[derive(Drop)]
struct Mark {
    is_stopped: AtomicBool,
    bell: Arc<Bell>,
}

impl Stopper {
    /// A stopper of a watcher that sleeps by this bell. It is refused by the allocator alone.
    pub fn new(alloc: Global, bell: &Arc<Bell>) -> Result<Stopper, AllocError> {
        let mark = Mark {
            is_stopped: AtomicBool::new(false),
            bell: Arc::try_clone(bell)?,
        };
        Ok(Stopper {
            mark: Arc::new(alloc, mark)?,
        })
    }

    /// From now on the watcher is let go: each of its waits, one that is on and each later one, is answered `Stopped` once it was
    /// given what was set before. Others that sleep on the state wake, find nothing new, and sleep on. It is for good; to stop once
    /// more does nothing, nor does it once the watcher has ended.
    ///
    /// It takes no lock and no memory. That a wake arrives isn't claimed.
    pub fn stop(&self) {
        self.mark.is_stopped.store(true, Ordering::SeqCst);
        self.mark.bell.ring();
    }

    /// Whether this watcher alone was let go. A stop of all who wait on the state isn't asked.
    pub fn is_stopped(&self) -> bool {
        self.mark.is_stopped.load(Ordering::SeqCst)
    }
}

impl Clone for Stopper {
    /// Another stopper of the same watcher. It takes no memory, and fails only where there are as many as a counter can tell apart.
    fn clone(&self) -> Result<Stopper, AllocError> {
        Ok(Stopper {
            mark: Arc::try_clone(&self.mark)?,
        })
    }
}
