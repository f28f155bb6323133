//! `timeout`: a failure where no value came for a while.

ghost use Rattle.std.specs.Prelude.{◌≡◌, Some, None, IsTrue};
ghost use Rattle.futures.specs.Poll.{OnPending};
ghost use Rattle.futures.specs.Task.{IsArmed, Keeps};
ghost use Rattle.cold_flow.specs.Poll.{after_cancel};

use cold_flow::{Cause, Event, Run};
use futures::task::{Context, Poll};

/// The run of `timeout`. It is no `Run`, since a poll is handed the moment.
#[derive(Drop)]
pub struct Expiring<S, E> {
    source: S,
    limit: u64,
    // The moment of the last value, or of the start where none came yet.
    since: u64,
    fault: E,
    ended: Option<Cause<E>>,
}

/// The values of `source`, and a failure with `fault` where it has none `limit` milliseconds after the last one, or after `start`:
/// Kotlin's `timeout`, which throws there.
///
/// A value that is there is given however late it is asked for. With that failure the source is cancelled. Where the source ends
/// before, its end passes.
pub fn timeout<E: Copy, S: Run<Fault = E>>(
    source: S,
    limit: u64,
    start: u64,
    fault: E,
) -> Expiring<S, E>
    ensures { (result.source ≡ source) × (result.limit ≡ limit) × (result.since ≡ start) × (result.fault ≡ fault) × (result.ended ≡ None) }
{
    Expiring {
        source,
        limit,
        since: start,
        fault,
        ended: None,
    }
}

impl<E: Copy, S: Run<Fault = E>> Expiring<S, E> {
    ghost use Rattle.more_operators.specs.Expires.{Expires, is_late};

    // Whether no value came for so long.
    fn is_late(&self, moment: u64) -> bool
        ensures { result ≡ is_late self.now.limit self.now.since moment }
    {
        moment.saturating_sub(self.since) >= self.limit
    }

    /// The next value, or the end, at this moment in milliseconds. Nobody is woken at a moment, so poll again then.
    ///
    /// The source is asked first. After the end every poll gives that end again, and asks nothing.
    pub fn poll_next(&mut self, moment: u64, cx: &mut Context<'_>) -> Poll<Event<S::Item, E>>
        ensures expires { Expires S.may S.ended S.prompt S.polled S.stopped moment self.old.ended self.old result self.new }
        ensures armed { OnPending result (IsArmed cx.new) }
        ensures kept { Keeps cx.old cx.new }
    {
        if let Some(cause) = self.ended {
            return Poll::Ready(Event::End(cause));
        }
        match self.source.poll_next(cx) {
            Poll::Ready(Event::Value(value)) => {
                self.since = moment;
                Poll::Ready(Event::Value(value))
            }
            Poll::Ready(Event::End(cause)) => {
                self.ended = Some(cause);
                Poll::Ready(Event::End(cause))
            }
            Poll::Pending => {
                if !self.is_late(moment) {
                    return Poll::Pending;
                }
                self.source.cancel();
                self.ended = Some(Cause::Failed(self.fault));
                Poll::Ready(Event::End(Cause::Failed(self.fault)))
            }
        }
    }

    /// The cause that every poll gives from now on: an end was given, or the run was cancelled. `None` before.
    pub fn end(&self) -> Option<Cause<E>>
        ensures { result ≡ self.now.ended }
    {
        self.ended
    }

    /// Cancels the source, and ends the run by `Cause::Cancelled`, unless it has ended.
    pub fn cancel(&mut self)
        ensures ends { self.new.ended ≡ Some (after_cancel self.old.ended) }
        ensures stops { IsTrue (S.stopped self.new.source) }
    {
        self.source.cancel();
        if self.ended.is_none() {
            self.ended = Some(Cause::Cancelled);
        }
    }
}
