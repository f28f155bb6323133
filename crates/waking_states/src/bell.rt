//! What a task sleeps by until a state changes, and who changes it rings.

ghost use Rattle.std.specs.Prelude.{◌≡◌};
ghost use Rattle.futures.specs.Task.{IsArmed, Keeps};
ghost use Rattle.futures.specs.declared.task.Poll.TheVariants.{Pending};

use futures::spin::lock;
use futures::task::{Context, Poll, Source, Waker};
use state_bell::Ring;
use std::alloc::{AllocError, Global};
use std::sync::atomic::{AtomicBool, Ordering};
use std::sync::{Arc, Mutex};

/// What one task sleeps by that waits for a change of states, and of anything else that has wakers. All who set the states share it.
///
/// Why a task that sleeps isn't forgotten: it leaves its waker here first, and asks the states then; who sets a state does that first,
/// and takes the waker out then. Either happens under one lock. So the waker is there to be taken, or it came after the set, which the
/// task finds as it asks. With [`let_go`](TaskBell::let_go) it is the same. No contract says so.
#[derive(Drop)]
pub struct TaskBell {
    source: Source,
    // Of the task that sleeps, or is about to. It wakes its task when it is dropped.
    sleeper: Mutex<Option<Waker>>,
    // Whether the task was let go.
    let_go: AtomicBool,
}

impl TaskBell {
    /// A bell that no task sleeps by, and by which none was let go. Refused where there is no memory.
    pub fn new(alloc: Global) -> Result<Arc<TaskBell>, AllocError> {
        let bell = TaskBell {
            source: Source::new(),
            sleeper: Mutex::new(None),
            let_go: AtomicBool::new(false),
        };
        Ok(Arc::new(alloc, bell)?)
    }

    /// Wakes the task that sleeps, after a change of what it sleeps for. It takes no memory, and a lock for some steps.
    pub fn ring(&self) {
        let Some(mut sleeper) = lock(&self.sleeper) else {
            return;
        };
        let woken = sleeper.take();
        // The wake takes the lock of the task's queue: this one is given back before.
        drop(sleeper);
        drop(woken);
    }

    /// Lets go the task that sleeps, and any that will: Kotlin's `job.cancel()` of who collects. It is for good.
    pub fn let_go(&self) {
        self.let_go.store(true, Ordering::SeqCst);
        self.ring();
    }

    /// Whether the task was let go. Who sleeps asks it once it has left its waker, and before it asks the states, so that it finds what
    /// was set before.
    pub fn is_let_go(&self) -> bool {
        self.let_go.load(Ordering::SeqCst)
    }

    /// Leaves the task's waker, by which the next ring wakes it; ask what it sleeps for after that. One task sleeps by a bell: another's
    /// waker that was there is woken, and gone. Without memory for a waker the task asks to be polled again.
    pub fn sleep<T>(&self, cx: &mut Context<'_>) -> Poll<T>
        ensures pending { result ≡ Pending }
        ensures armed { IsArmed cx.new }
        ensures kept { Keeps cx.old cx.new }
    {
        match lock(&self.sleeper) {
            Some(mut sleeper) => cx.register(&self.source, &mut sleeper),
            None => cx.yield_now(),
        }
    }
}

impl Ring for TaskBell {
    fn ring(&self) {
        self.ring();
    }

    fn let_go(&self) {
        self.let_go();
    }
}
