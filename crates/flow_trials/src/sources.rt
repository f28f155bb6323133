//! A source of the tests' own, of given steps: it counts what is asked of it, and may refuse a start. It takes no memory.
ghost use Rattle.cold_flow.specs.Poll.{Unless};
ghost use Rattle.flow_trials.specs.Uncancelled.{AnyTrace};
ghost use Rattle.std.specs.Prelude.{◌≡◌, is_some, ⊤};

use cold_flow::{Cause, Event, Flow, Refusal, Run, Step};
use futures::task::{Context, Poll};
use std::alloc::AllocError;
use std::cell::Cell;

/// What `before` is where no start is refused, and what it has come to where the refused start was the last.
pub(crate) const NEVER: u32 = u32::MAX;

/// How often a source was started, polled and cancelled, and before how many starts one finds no memory.
#[derive(Drop)]
pub struct Counts {
    pub starts: Cell<u32>,
    pub polls: Cell<u32>,
    pub cancels: Cell<u32>,
    pub before: Cell<u32>,
}

impl Counts {
    pub(crate) fn new(before: u32) -> Counts {
        Counts {
            starts: Cell::new(0),
            polls: Cell::new(0),
            cancels: Cell::new(0),
            before: Cell::new(before),
        }
    }

    /// How often a start succeeded, and a run was cancelled.
    pub(crate) fn started(&self) -> (u32, u32) {
        (self.starts.get(), self.cancels.get())
    }
}

/// Counts one more.
fn count(counter: &Cell<u32>) {
    counter.set(counter.get().saturating_add(1));
}

/// The flow of these steps, one a poll.
#[derive(Copy)]
pub struct Source<'a> {
    pub steps: &'a [Step<u64, u64>],
    pub counts: &'a Counts,
}

impl Clone for Source<'_> {
    ghost is_clone = { λ source copy. copy ≡ source };

    ghost is_infallible = { λ _. ⊤ };

    fn clone(&self) -> Result<Self, AllocError> {
        Ok(*self)
    }
}

/// A run of a source.
#[derive(Drop)]
pub struct SourceRun<'a> {
    steps: &'a [Step<u64, u64>],
    counts: &'a Counts,
    ended: Option<Cause<u64>>,
}

impl<'a> Flow for Source<'a> {
    type Item = u64;

    type Fault = u64;

    type Running = SourceRun<'a>;

    ghost may = { λ _. AnyTrace };

    fn start(&self) -> Result<SourceRun<'a>, Refusal> {
        let before = self.counts.before.get();
        self.counts.before.set(before.wrapping_sub(1));
        if before == 0 {
            return Err(Refusal::NoMemory);
        }
        count(&self.counts.starts);
        Ok(SourceRun {
            steps: self.steps,
            counts: self.counts,
            ended: None,
        })
    }

    ghost uncancelled = { λ _ _ h. h };
}

impl Run for SourceRun<'_> {
    ghost use Rattle.cold_flow.specs.Laws.{Unless-begins, Unless-over, some-stops};

    type Item = u64;

    type Fault = u64;

    ghost may = { λ r. Unless r.ended AnyTrace };

    ghost ended = { λ r. r.ended };

    ghost stopped = { λ r. is_some r.ended };

    fn poll_next(&mut self, cx: &mut Context<'_>) -> Poll<Event<u64, u64>> {
        count(&self.counts.polls);
        if let Some(cause) = self.ended {
            return Poll::Ready(Event::End(cause));
        }
        let Some((step, rest)) = self.steps.split_first() else {
            self.ended = Some(Cause::Finished);
            return Poll::Ready(Event::End(Cause::Finished));
        };
        self.steps = rest;
        match step {
            Step::Value(value) => Poll::Ready(Event::Value(*value)),
            Step::Pending => cx.yield_now(),
            Step::Fail(fault) => {
                self.ended = Some(Cause::Failed(*fault));
                Poll::Ready(Event::End(Cause::Failed(*fault)))
            }
        }
    }

    fn end(&self) -> Option<Cause<u64>> {
        self.ended
    }

    fn cancel(&mut self) {
        count(&self.counts.cancels);
        if self.ended.is_none() {
            self.ended = Some(Cause::Cancelled);
        }
    }

    ghost halts = { λ r. some-stops r.ended };

    ghost begins = { λ r. Unless-begins r.ended _ tt };

    ghost over = { λ r. Unless-over r.ended _ };
}
