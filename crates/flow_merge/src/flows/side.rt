//! One side of a `combine`.

ghost use Rattle.std.specs.Prelude.{◌≡◌, None, false, IsTrue};
ghost use Rattle.futures.specs.Poll.{OnPending};
ghost use Rattle.futures.specs.Task.{IsArmed, Keeps};
ghost use Rattle.cold_flow.specs.Poll.{IsReady};
ghost use Rattle.cold_flow.specs.Polled.{HasWaited};
ghost use Rattle.flow_merge.specs.Combine.{OrFinished};
ghost use Rattle.flow_merge.specs.Side.{Brings, is_done, is_finished, SideApproaches};

use cold_flow::{Cause, Event, Run};
use futures::task::{Context, Poll};

/// What a question to a side brought.
#[derive(Clone, Copy)]
pub enum Arrival<E> {
    /// A value, which is the latest now.
    Came,
    /// It has finished.
    Done,
    /// It ended by another cause.
    Ended(Cause<E>),
}

/// A run, the latest value that it gave, and whether it has finished.
#[derive(Drop)]
pub struct Side<R: Run> {
    pub(crate) run: R,
    pub(crate) latest: Option<R::Item>,
    pub(crate) finished: bool,
    ghost over: { IsTrue finished → IsTrue (is_finished (R.ended run)) },
}

impl<R: Run> Side<R> {
    // A side that has given nothing yet.
    pub(crate) fn new(run: R) -> Side<R>
        ensures run { result.run ≡ run }
        ensures latest { result.latest ≡ None }
        ensures open { result.finished ≡ false }
    {
        Side {
            run,
            latest: None,
            finished: false,
        }
    }

    // Asks the run, keeps a value of it as the latest, and keeps that it finished.
    pub(crate) fn ask(&mut self, cx: &mut Context<'_>) -> Poll<Arrival<R::Fault>>
        ensures brings { Brings (OrFinished self.old.finished (R.may self.old.run)) self.old.latest result
            (OrFinished self.new.finished (R.may self.new.run)) self.new.latest }
        ensures finished { self.new.finished ≡ is_done result }
        ensures approaches { SideApproaches self.old.finished (R.polls self.old.run) result self.new.finished (R.polls self.new.run) }
        ensures prompt { IsTrue (R.prompt self.old.run) → IsReady result × IsTrue (R.prompt self.new.run) }
        ensures waits { OnPending result (HasWaited R.polled self.new.run) }
        ensures armed { OnPending result (IsArmed cx.new) }
        ensures kept { Keeps cx.old cx.new }
    {
        match self.run.poll_next(cx) {
            Poll::Ready(Event::Value(value)) => {
                self.latest = Some(value);
                Poll::Ready(Arrival::Came)
            }
            Poll::Ready(Event::End(cause)) => {
                if let Cause::Finished = cause {
                    self.finished = true;
                    return Poll::Ready(Arrival::Done);
                }
                Poll::Ready(Arrival::Ended(cause))
            }
            Poll::Pending => Poll::Pending,
        }
    }

    // Cancels the run.
    pub(crate) fn cancel(&mut self)
        ensures stops { IsTrue (R.stopped self.new.run) }
        ensures finished { self.new.finished ≡ self.old.finished }
        ensures latest { self.new.latest ≡ self.old.latest }
    {
        self.run.cancel();
    }
}
