//! What a thread sleeps by that can be let go.
ghost use Rattle.std.specs.Prelude.{◌≡◌, IfErr};
ghost use Rattle.flow_terms.specs.declared.refusal.Refusal.TheVariants.{NoMemory};

use crate::stopper::Stopper;
use flow_terms::Refusal;
use futures::Future;
use futures::future::{Abortable, Pending, pending};
use futures::task::{Context, Doorbell, Queue};
use std::alloc::AllocGlobal;
use std::mem;
use std::random::RandomSource;
use std::sync::Wait;

/// What a thread sleeps by, while it waits on a shared flow and may be let go. Make one for each thread that waits, and use it for
/// all of the thread's waits: a wait borrows it, so that no two threads sleep by one.
pub struct StoppableParker {
    queue: Queue,
    // Whether a turn is set that no wait has taken yet: the next wait begins with it.
    is_set: bool,
    // Ready once a stopper was used.
    stop: Abortable<Pending<()>>,
}

// By hand: who lets one go proves this call alone, and nothing of what it is made of.
impl Drop for StoppableParker {
    fn drop(self) {
        let StoppableParker {
            queue,
            is_set: _,
            stop,
        } = self;
        drop(queue);
        drop(stop);
    }
}

/// A turn of a wait, in which the thread asks again, or is let go.
pub(crate) struct Attempt<'a> {
    pub(crate) cx: Context<'a>,
    pub(crate) is_stopped: bool,
}

impl StoppableParker {
    /// A parker, and who stops it. Refused as `NoMemory`, and so it is where no random bytes are to be had.
    pub fn new<R>(rt: &R) -> Result<(StoppableParker, Stopper), Refusal>
    where
        R: RandomSource + AllocGlobal,
        ensures { IfErr result (λ refusal. refusal ≡ NoMemory) }
    {
        let Ok((stop, handle)) = Abortable::new(rt.alloc(), pending()) else {
            return Err(Refusal::NoMemory);
        };
        let Ok(queue) = Queue::new(rt, Doorbell::parking()) else {
            return Err(Refusal::NoMemory);
        };
        // A task is held for good: where none is left, the next one rings, which is a call of the system for each wait.
        mem::forget(queue.hold()?);
        let parker = StoppableParker {
            queue,
            is_set: false,
            stop,
        };
        Ok((parker, Stopper::of(handle)))
    }

    /// Whether it was stopped.
    pub fn is_stopped(&self) -> bool {
        self.stop.is_aborted()
    }

    /// Begins to wait: its first turn comes at once. Refused as `NoMemory`, which the first wait of a parker can be.
    pub(crate) fn begin(&mut self) -> Result<(), Refusal>
        ensures { IfErr result (λ refusal. refusal ≡ NoMemory) }
    {
        if self.is_set {
            return Ok(());
        }
        self.queue.add()?.schedule();
        self.is_set = true;
        Ok(())
    }

    /// Sleeps until the thread has to ask again, or is let go. Nothing only where it can't sleep.
    pub(crate) fn turn(&mut self, rt: &impl Wait) -> Option<Attempt<'_>> {
        let StoppableParker {
            queue,
            is_set,
            stop,
        } = self;
        *is_set = false;
        let mut cx = queue.next(rt)?;
        let is_stopped = stop.poll(&mut cx).is_ready();
        Some(Attempt { cx, is_stopped })
    }
}
