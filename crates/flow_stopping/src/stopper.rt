//! Who lets a thread go.

use futures::future::AbortHandle;
use std::alloc::AllocError;

/// Lets go whoever waits by its parker: Kotlin's `Job.cancel`. Any number of them may be had, on any thread.
pub struct Stopper {
    handle: AbortHandle,
}

// By hand: who lets one go proves this call alone, and nothing of what it is made of.
impl Drop for Stopper {
    fn drop(self) {
        let Stopper { handle } = self;
        drop(handle);
    }
}

impl Stopper {
    pub(crate) fn of(handle: AbortHandle) -> Stopper {
        Stopper { handle }
    }

    /// From now on, waits by the parker are stopped: one that is on is let go, and a later one ends at once. To stop it once more
    /// does nothing. It takes no memory, and a lock for some steps. That the wake arrives isn't claimed.
    pub fn stop(&self) {
        self.handle.abort();
    }

    /// Whether the parker was stopped.
    pub fn is_stopped(&self) -> bool {
        self.handle.is_aborted()
    }
}

impl Clone for Stopper {
    /// Another stopper of the same parker. It takes no memory, and fails only where there are as many as a counter can tell apart.
    fn clone(&self) -> Result<Stopper, AllocError> {
        Ok(Stopper {
            handle: self.handle.clone()?,
        })
    }
}
