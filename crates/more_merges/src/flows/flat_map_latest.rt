//! The inner flow of the latest outer value.

ghost use Rattle.std.specs.Prelude.{◌≡◌, ◌⊎◌, Option, None, true, false, IsSome, IsTrue, ◌&&◌};
ghost use Rattle.futures.specs.Poll.{OnPending};
ghost use Rattle.futures.specs.Task.{IsArmed, Keeps};
ghost use Rattle.cold_flow.specs.Polled.{IsNearer, Rests};
ghost use Rattle.cold_flow.specs.Poll.{Unless, Within, end_of};
ghost use Rattle.flow_merge.specs.Asking.{Asks, standing_stopped};
ghost use Rattle.flow_merge.specs.Combine.{OrFinished};
ghost use Rattle.flow_merge.specs.Concat.{MayStand};
ghost use Rattle.flow_merge.specs.Counting.{IsFewer};
ghost use Rattle.more_merges.specs.Latest.{MaySwitch, Fate, Follows, HasOuterWaited};
ghost use Rattle.more_merges.specs.Standing.{HasStandingWaited, OnNothing};

use crate::flows::standing::{ask_standing, cancel_standing, stand_instead};
use cold_flow::{Apply, BUDGET, Cause, Event, Flow, Refusal, Run};
use futures::ready;
use futures::task::{Context, Poll};

/// The flow of `flat_map_latest`.
#[derive(Drop)]
pub struct Switched<S, G> {
    outer: S,
    function: G,
}

/// The values of the inner flow that `function` answers for the latest outer value: Kotlin's `flatMapLatest`.
///
/// The outer is asked first in each poll. With each value that it gives, the inner run that stands is cancelled, and what it had not
/// given yet is lost; then a run of the next inner flow is started in its place. It finishes once the outer and the inner run have. A
/// failure of either is the end and cancels the other, and so is an inner start that is refused: then the end is `Cause::Refused`. After
/// 64 outer values in a row a poll yields.
pub fn flat_map_latest<
    B: Copy,
    E: Copy,
    S: Flow<Fault = E>,
    F: Flow<Item = B, Fault = E>,
    G: Apply<S::Item, Out = F>,
>(outer: S, function: G) -> Switched<S, G>
    ensures gives { Within (MaySwitch (λ x. F.starts (G.gives function x)) (λ x. F.may (G.gives function x)) (MayStand F.Running.may None) (S.may outer))
        (⟦<Switched<S, G> as Flow>⟧.may result) }
    ensures starts { IsTrue (S.starts outer) → IsTrue (⟦<Switched<S, G> as Flow>⟧.starts result) }
{
    Switched { outer, function }
}

/// A run of `flat_map_latest`.
#[derive(Drop)]
pub struct SwitchedRun<O: Run, F: Flow, G, E> {
    outer: O,
    outer_finished: bool,
    function: G,
    // The inner run that stands, if any.
    inner: Option<F::Running>,
    ended: Option<Cause<E>>,
    ghost stopped: { IsSome ended → IsTrue (O.stopped outer && standing_stopped F.Running.stopped inner) },
}

impl<
    B: Copy,
    E: Copy,
    S: Flow<Fault = E>,
    F: Flow<Item = B, Fault = E>,
    G: Apply<S::Item, Out = F>,
> Flow for Switched<S, G> {
    ghost use Rattle.more_merges.specs.LatestLaws.{latest_uncancelled};

    type Item = B;

    type Fault = E;

    type Running = SwitchedRun<S::Running, F, G, E>;

    ghost may = { λ f. MaySwitch (λ x. F.starts (G.gives f.function x)) (λ x. F.may (G.gives f.function x)) (MayStand F.Running.may None) (S.may f.outer) };

    ghost starts = { λ f. S.starts f.outer };

    fn start(&self) -> Result<SwitchedRun<S::Running, F, G, E>, Refusal> {
        Ok(SwitchedRun {
            outer: self.outer.start()?,
            outer_finished: false,
            function: self.function,
            inner: None,
            ended: None,
        })
    }

    ghost uncancelled = { λ f. latest_uncancelled _ _ (λ x. F.uncancelled (G.gives f.function x)) (S.may f.outer) (S.uncancelled f.outer) };
}

impl<
    B: Copy,
    E: Copy,
    O: Run<Fault = E>,
    F: Flow<Item = B, Fault = E>,
    G: Apply<O::Item, Out = F>,
> SwitchedRun<O, F, G, E> {
    // Asks the outer, unless it has finished, and the inner run that stands where the outer gives no value.
    fn ask(&mut self, cx: &mut Context<'_>) -> Poll<Option<Event<B, E>>>
        requires { self.old.ended ≡ None }
        ensures asked { Asks (⟦<SwitchedRun<O, F, G, E> as Run>⟧.may self.old) result (⟦<SwitchedRun<O, F, G, E> as Run>⟧.may self.new) }
        ensures same { (self.new.ended ≡ self.old.ended) × (self.new.function ≡ self.old.function) }
        ensures fate { Fate F.Running.polled F.Running.cancelled F.Running.stopped self.old.inner result self.new.inner }
        ensures fewer { OnNothing result (IsFewer (O.polls self.old.outer) (O.polls self.new.outer)) }
        ensures waits { OnPending result (HasOuterWaited O.polled self.new.outer_finished self.new.outer
            × HasStandingWaited F.Running.polled self.new.inner) }
        ensures armed { OnPending result (IsArmed cx.new) }
        ensures kept { Keeps cx.old cx.new }
    {
        if self.outer_finished {
            return self.ask_last(cx);
        }
        match self.outer.poll_next(cx) {
            Poll::Ready(Event::Value(value)) => {
                let flow = self.function.apply(value);
                match stand_instead(&mut self.inner, &flow) {
                    Ok(()) => Poll::Ready(None),
                    Err(refusal) => Poll::Ready(Some(Event::End(Cause::Refused(refusal)))),
                }
            }
            Poll::Ready(Event::End(cause)) => {
                if let Cause::Finished = cause {
                    self.outer_finished = true;
                    return self.ask_last(cx);
                }
                Poll::Ready(Some(Event::End(cause)))
            }
            Poll::Pending => match ask_standing(&mut self.inner, cx) {
                Poll::Ready(Some(event)) => Poll::Ready(Some(event)),
                Poll::Ready(None) => Poll::Pending,
                Poll::Pending => Poll::Pending,
            },
        }
    }

    // Asks the inner run that stands, once the outer has finished.
    fn ask_last(&mut self, cx: &mut Context<'_>) -> Poll<Option<Event<B, E>>>
        requires going { self.old.ended ≡ None }
        requires finished { self.old.outer_finished ≡ true }
        ensures asked { Asks (⟦<SwitchedRun<O, F, G, E> as Run>⟧.may self.old) result (⟦<SwitchedRun<O, F, G, E> as Run>⟧.may self.new) }
        ensures same { (self.new.ended ≡ self.old.ended) × (self.new.function ≡ self.old.function) × (self.new.outer_finished ≡ true) }
        ensures fate { Fate F.Running.polled F.Running.cancelled F.Running.stopped self.old.inner result self.new.inner }
        ensures something { OnNothing result ⊥ }
        ensures waits { OnPending result (HasStandingWaited F.Running.polled self.new.inner) }
        ensures armed { OnPending result (IsArmed cx.new) }
        ensures kept { Keeps cx.old cx.new }
    {
        match ask_standing(&mut self.inner, cx) {
            Poll::Ready(Some(event)) => Poll::Ready(Some(event)),
            Poll::Ready(None) => Poll::Ready(Some(Event::End(Cause::Finished))),
            Poll::Pending => Poll::Pending,
        }
    }
}

impl<
    B: Copy,
    E: Copy,
    O: Run<Fault = E>,
    F: Flow<Item = B, Fault = E>,
    G: Apply<O::Item, Out = F>,
> Run for SwitchedRun<O, F, G, E> {
    ghost use Rattle.cold_flow.specs.Laws.{Unless-begins, Unless-over};
    ghost use Rattle.flow_merge.specs.MergeLaws.{outer_begins};
    ghost use Rattle.more_merges.specs.LatestLaws.{latest_begins};
    ghost use Rattle.more_merges.specs.StandingLaws.{standing_begins};

    type Item = B;

    type Fault = E;

    ghost may = { λ r. Unless r.ended (MaySwitch (λ x. F.starts (G.gives r.function x)) (λ x. F.may (G.gives r.function x))
        (MayStand F.Running.may r.inner) (OrFinished r.outer_finished (O.may r.outer))) };

    ghost ended = { λ r. r.ended };

    ghost stopped = { λ r. O.stopped r.outer && standing_stopped F.Running.stopped r.inner };

    // Pending only where the outer and the inner run that stands answered so or have finished, or 64 outer values came. Without an end,
    // the inner run that stood stands, or it was cancelled, and its source was reached.
    ghost polled = { λ old answer new. OnPending answer ((HasOuterWaited O.polled new.outer_finished new.outer
        × HasStandingWaited F.Running.polled new.inner) ⊎ IsNearer 64 (O.polls old.outer) (O.polls new.outer))
        × (old.ended ≡ None → end_of answer ≡ None → Follows F.Running.polled F.Running.cancelled F.Running.stopped old.inner new.inner)
        × Rests old.ended old.outer new.outer × Rests old.ended old.inner new.inner };

    // With a cancellation the run that stood has stopped.
    ghost cancelled = { λ _ new. IsTrue (standing_stopped F.Running.stopped new.inner) };

    fn poll_next(&mut self, cx: &mut Context<'_>) -> Poll<Event<B, E>> {
        if let Some(cause) = self.ended {
            return Poll::Ready(Event::End(cause));
        }
        for _asked in 0..BUDGET {
            match ready!(self.ask(cx)) {
                Some(Event::Value(value)) => return Poll::Ready(Event::Value(value)),
                Some(Event::End(cause)) => {
                    self.outer.cancel();
                    cancel_standing(&mut self.inner);
                    self.ended = Some(cause);
                    return Poll::Ready(Event::End(cause));
                }
                None => {}
            }
        }
        cx.yield_now()
    }

    fn end(&self) -> Option<Cause<E>> {
        self.ended
    }

    fn cancel(&mut self) {
        self.outer.cancel();
        cancel_standing(&mut self.inner);
        if self.ended.is_none() {
            self.ended = Some(Cause::Cancelled);
        }
    }

    ghost halts = { λ r. r.stopped };

    ghost begins = { λ r. Unless-begins r.ended _ (latest_begins _ _ _ _ (standing_begins _ F.Running.begins r.inner)
        (outer_begins r.outer_finished (O.may r.outer) (O.begins r.outer))) };

    ghost over = { λ r. Unless-over r.ended _ };
}
