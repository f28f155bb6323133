//! What a thread sleeps by.
ghost use Rattle.std.specs.Prelude.{◌≡◌, IfErr};
ghost use Rattle.flow_terms.specs.declared.refusal.Refusal.TheVariants.{NoMemory};

use flow_terms::Refusal;
use futures::task::{Context, Doorbell, Queue};
use std::alloc::AllocGlobal;
use std::mem;
use std::random::RandomSource;
use std::sync::Wait;

/// What a thread sleeps by, while it waits in [`Emitter::emit`](crate::Emitter::emit) or
/// [`Subscription::next`](crate::Subscription::next). Make one for each thread that waits, and use it for all of the thread's calls:
/// a call borrows it as long as it waits, so that no two threads sleep by one.
pub struct Parker {
    queue: Queue,
    // Whether a turn is set that no wait has taken yet: the next wait begins with it.
    is_set: bool,
}

// By hand: who lets one go proves this call alone, and nothing of what it is made of.
impl Drop for Parker {
    fn drop(self) {
        let Parker { queue, is_set: _ } = self;
        drop(queue);
    }
}

impl Parker {
    /// A parker, with a random name by which wakers tell it from others. Refused as `NoMemory`, and so it is where no random
    /// bytes are to be had.
    pub fn new<R>(rt: &R) -> Result<Parker, Refusal>
    where
        R: RandomSource + AllocGlobal,
        ensures { IfErr result (λ refusal. refusal ≡ NoMemory) }
    {
        let Ok(queue) = Queue::new(rt, Doorbell::parking()) else {
            return Err(Refusal::NoMemory);
        };
        // A task is held for good: where none is left, the next one rings, which is a call of the system for each wait.
        mem::forget(queue.hold()?);
        Ok(Parker {
            queue,
            is_set: false,
        })
    }

    /// Begins to wait: its first turn comes at once. Refused as `NoMemory`, which the first wait of a parker can be. A wait that
    /// ends before its first turn leaves that to the next one. The waits of this crate do it themselves: it is for who makes one.
    pub fn begin(&mut self) -> Result<(), Refusal>
        ensures { IfErr result (λ refusal. refusal ≡ NoMemory) }
    {
        if self.is_set {
            return Ok(());
        }
        self.queue.add()?.schedule();
        self.is_set = true;
        Ok(())
    }

    /// Sleeps until the thread has to ask again; where no [`begin`](Parker::begin) stands before it, for good. Nothing only where the
    /// thread can't sleep. That a turn comes isn't claimed.
    pub fn turn(&mut self, rt: &impl Wait) -> Option<Context<'_>> {
        self.is_set = false;
        self.queue.next(rt)
    }
}
