//! `first`: the first value of a run.

ghost use Rattle.std.specs.Prelude.{◌≡◌, Option, None, Result, IsSome};
ghost use Rattle.futures.specs.Poll.{OnPending};
ghost use Rattle.futures.specs.Task.{IsArmed, Keeps};
ghost use Rattle.cold_flow.specs.First.{FirstOf};
ghost use Rattle.cold_flow.specs.Polled.{TakesOne};

use crate::cause::Cause;
use crate::event::Event;
use crate::run::Run;
use futures::task::{Context, Poll};

/// A run whose first value is waited for.
#[derive(Drop)]
pub struct First<R: Run> {
    pub(crate) run: R,
    // What was answered, once it was.
    pub(crate) answer: Option<Result<R::Item, Cause<R::Fault>>>,
}

impl<R: Run> First<R> {
    ghost use Rattle.cold_flow.specs.Ends.{asked_run, answered};

    /// The first value, with which the run is cancelled, or the cause that came instead. Every later poll answers the same.
    pub fn poll(&mut self, cx: &mut Context<'_>) -> Poll<Result<R::Item, Cause<R::Fault>>>
        ensures first { FirstOf (answered self.old) (R.may (asked_run self.old)) result (answered self.new) (R.may (asked_run self.new)) }
        ensures takes { TakesOne R.polled R.cancelled (answered self.old) (asked_run self.old) result (asked_run self.new) }
        ensures over { answered self.old ≡ None → IsSome (answered self.new) → IsSome (R.ended (asked_run self.new)) }
        ensures armed { OnPending result (IsArmed cx.new) }
        ensures kept { Keeps cx.old cx.new }
    {
        if let Some(answer) = self.answer {
            return Poll::Ready(answer);
        }
        match self.run.poll_next(cx) {
            Poll::Ready(Event::Value(value)) => {
                self.run.cancel();
                self.answer = Some(Ok(value));
                Poll::Ready(Ok(value))
            }
            Poll::Ready(Event::End(cause)) => {
                self.answer = Some(Err(cause));
                Poll::Ready(Err(cause))
            }
            Poll::Pending => Poll::Pending,
        }
    }
}
