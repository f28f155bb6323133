//! The side of a buffer between two threads that puts values in.

ghost use Rattle.std.specs.Prelude.{◌≡◌, ◌≢◌, ◌||◌, Option, Some, None, IsTrue, IsSome, is_none};
ghost use Rattle.futures.specs.Poll.{OnPending};
ghost use Rattle.futures.specs.Task.{IsArmed, Keeps};
ghost use Rattle.futures.specs.declared.task.Poll.TheVariants.{Pending as Waiting};
ghost use Rattle.cold_flow.specs.Poll.{end_of};
ghost use Rattle.flow_terms.specs.declared.fill.Fill.TheVariants.{Pending};
ghost use Rattle.flow_buffer.specs.Sides.{saturated, drops, seen_end};
ghost use Rattle.flow_buffer.specs.Feed.{Brings, Closes};

use crate::inlet::Inlet;
use cold_flow::{Cause, Event, Run};
use flow_terms::Fill;
use futures::task::{Context, Poll};
use std::sync::Wait;

/// The producer's side of a buffer between two threads: the run that it asks, and its end of the channel.
///
/// It must be spent, by [`Feed::cancel`].
pub struct Feed<U: Run> {
    pub(crate) upstream: U,
    pub(crate) inlet: Inlet<U::Item, U::Fault>,
    // Once it gave its end, the upstream is asked no more.
    ghost upstream_stopped: { IsTrue (is_none (seen_end inlet.sent inlet.waiting) || U.stopped upstream) },
}

impl<U: Run> Feed<U> {
    ghost use Rattle.flow_buffer.specs.Views.{upstream_of, feeding, PumpsOnce, MayPumpOnce, EndsUpstream};

    /// Asks the upstream once, and puts its answer into the buffer. What [`Feed::try_pump`] left waiting is put first, and then
    /// the upstream isn't asked.
    ///
    /// Under `Policy::Suspend` a value waits for a place, and so does the end under every policy. The end is never
    /// dropped; it is `Fill::Ended`, as is every later pump, which asks nothing. It never answers `Fill::Full`.
    /// `Fill::Overwrote` and `Fill::Dropped` come only where the buffer was full when the last value had been put in. That it
    /// still was full in this call isn't claimed: a feed learns how many values the buffer holds only by putting one in.
    pub fn pump(&mut self, rt: &impl Wait, cx: &mut Context<'_>) -> Fill
        ensures pumps { PumpsOnce U.may self.old result self.new }
        ensures waits { result ≡ Pending → U.polled (upstream_of self.old) Waiting (upstream_of self.new) }
        ensures armed { result ≡ Pending → IsArmed cx.new }
        ensures kept { Keeps cx.old cx.new }
    {
        if self.inlet.has_ended() {
            return Fill::Ended;
        }
        match self.bring(cx) {
            Poll::Ready(Event::Value(value)) => self.inlet.fill(rt, value),
            Poll::Ready(Event::End(cause)) => {
                self.inlet.finish(rt, cause);
                Fill::Ended
            }
            Poll::Pending => Fill::Pending,
        }
    }

    /// Does what [`Feed::pump`] does, unless that would wait for a place: then what came stays in the feed, and the answer
    /// is `None`.
    ///
    /// So it is for a value under `Policy::Suspend`, and for the end under every policy. The next call puts what stayed,
    /// and asks the upstream nothing before it is put. `None` comes only where the buffer was full when the last value had been
    /// put in. That it still was full in this call isn't claimed.
    pub fn try_pump(&mut self, rt: &impl Wait, cx: &mut Context<'_>) -> Option<Fill>
        ensures pumps { MayPumpOnce U.may self.old result self.new }
        ensures waits { result ≡ Some Pending → U.polled (upstream_of self.old) Waiting (upstream_of self.new) }
        ensures armed { result ≡ Some Pending → IsArmed cx.new }
        ensures kept { Keeps cx.old cx.new }
    {
        if self.inlet.has_ended() {
            return Some(Fill::Ended);
        }
        match self.bring(cx) {
            Poll::Ready(Event::Value(value)) => self.inlet.try_fill(rt, value),
            Poll::Ready(Event::End(cause)) => {
                if self.inlet.try_finish(rt, cause) {
                    return Some(Fill::Ended);
                }
                None
            }
            Poll::Pending => Some(Fill::Pending),
        }
    }

    // What waits for a place, or where nothing does, what the upstream gives.
    fn bring(&mut self, cx: &mut Context<'_>) -> Poll<Event<U::Item, U::Fault>>
        requires unended { self.old.inlet.sent ≡ None }
        ensures brings { Brings U.may self.old.upstream self.old.inlet.waiting result self.new.upstream }
        ensures same { self.new.inlet ≡ self.old.inlet }
        ensures stops { IsSome (end_of result) → IsTrue (U.stopped self.new.upstream) }
        ensures polled { OnPending result (U.polled self.old.upstream Waiting self.new.upstream) }
        ensures armed { OnPending result (IsArmed cx.new) }
        ensures kept { Keeps cx.old cx.new }
    {
        match self.inlet.waiting() {
            Some(event) => Poll::Ready(event),
            None => self.upstream.poll_next(cx),
        }
    }

    /// How many values were dropped: a count that stays at 2^64 - 1 once it is there.
    pub fn dropped_count(&self) -> u64
        ensures { result ≡ saturated (drops (feeding self.now).produced) }
    {
        self.inlet.dropped_count()
    }

    /// Puts what waits, cancels the upstream and sends the drain `Cause::Cancelled`; each waits for a place. Where the upstream's
    /// end was sent before or waits, it sends no other, and the upstream has stopped.
    pub fn cancel(mut self, rt: &impl Wait)
        ensures source { EndsUpstream U.cancelled U.stopped self }
    {
        // What it does is what `close` ensures, and `spend` takes no feed without that.
        self.close(rt);
        self.spend();
    }

    fn close(&mut self, rt: &impl Wait)
        ensures stopped { IsTrue (U.stopped self.new.upstream) }
        ensures cancels { seen_end self.old.inlet.sent self.old.inlet.waiting ≡ None → U.cancelled self.old.upstream self.new.upstream }
        ensures stays { seen_end self.old.inlet.sent self.old.inlet.waiting ≢ None → self.new.upstream ≡ self.old.upstream }
        ensures closes { Closes self.old.inlet.sent self.old.inlet self.new.inlet }
        ensures ended { self.new.inlet.sent ≢ None }
    {
        if self.inlet.has_ended() {
            return;
        }
        self.inlet.settle(rt);
        if self.inlet.has_ended() {
            return;
        }
        self.upstream.cancel();
        self.inlet.finish(rt, Cause::Cancelled);
    }

    // Nothing is left to do for the upstream or for the drain.
    fn spend(self)
        requires stopped { IsTrue (U.stopped self.upstream) }
        requires ended { self.inlet.sent ≢ None }
    {
        let Feed { upstream: _, inlet } = self;
        inlet.spend();
    }
}
