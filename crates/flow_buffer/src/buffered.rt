//! The run of a buffer in one task.

ghost use Rattle.std.specs.Prelude.{◌≡◌, ◌<◌, ◌||◌, ◌==◌, List, [], length, Option, Some, None, IsTrue, IsSome, is_none};
ghost use Rattle.futures.specs.Poll.{OnPending};
ghost use Rattle.futures.specs.Task.{IsArmed, Keeps};
ghost use Rattle.futures.specs.declared.task.Poll.TheVariants.{Ready, Pending as Waiting};
ghost use Rattle.cold_flow.specs.declared.event.Event.TheVariants.{End};
ghost use Rattle.cold_flow.specs.Poll.{Narrows, Within, end_of, after_cancel, Approaches, IsReady};
ghost use Rattle.cold_flow.specs.Polled.{Rests};
ghost use Rattle.flow_terms.specs.declared.fill.Fill.TheVariants.{Pending};
ghost use Rattle.flow_buffer.specs.Contents.{Contents, taken_of, dropped_of};
ghost use Rattle.flow_buffer.specs.Delivery.{StoreGives, store_polls};
ghost use Rattle.flow_buffer.specs.Endings.{is_going, seen, given};
ghost use Rattle.flow_buffer.specs.Sides.{saturated};

use crate::ending::Ending;
use crate::store::Store;
use cold_flow::{Cause, Event, Finite, Run};
use flow_terms::Fill;
use futures::task::{Context, Poll};

/// The run of a buffer in one task: its source's run, and the values that were produced and not yet taken.
#[derive(Drop)]
pub struct Buffered<S: Run> {
    pub(crate) source: S,
    pub(crate) store: Store<S::Item, S::Fault>,
    ghost places: { 0 < store.held.capacity },
    // Once an end was seen, the source is asked no more.
    ghost source_stopped: { IsTrue (is_going store.ending || S.stopped source) },
    // The end is given once none is held.
    ghost emptied: { IsTrue (is_none (given store.ending) || (length store.held.items == 0)) },
}

impl<S: Run> Buffered<S> {
    ghost use Rattle.flow_buffer.specs.Views.{source_run, HasContents, may_give, FillsOnce};

    /// Fills the buffer once: asks the source, unless the buffer is full under `Policy::Suspend` or the end was seen, and
    /// puts its answer.
    ///
    /// Where it answers `Fill::Pending`, the task is woken once the source may have more.
    pub fn poll_fill(&mut self, cx: &mut Context<'_>) -> Fill
        ensures fills { FillsOnce S.may self.old result self.new }
        ensures narrows { Within (may_give S.may self.old) (may_give S.may self.new) }
        ensures waits { result ≡ Pending → S.polled (source_run self.old) Waiting (source_run self.new) }
        ensures armed { result ≡ Pending → IsArmed cx.new }
        ensures kept { Keeps cx.old cx.new }
    {
        if !self.store.ending.is_going() {
            return Fill::Ended;
        }
        if self.store.is_stuck() {
            return Fill::Full;
        }
        match self.source.poll_next(cx) {
            Poll::Ready(Event::Value(value)) => self.store.put(value),
            Poll::Ready(Event::End(cause)) => {
                self.store.ending = Ending::Kept(cause);
                Fill::Ended
            }
            Poll::Pending => Fill::Pending,
        }
    }

    /// How many values were taken: a count that stays at 2^64 - 1 once it is there.
    pub fn taken_count(&self) -> u64
        ensures { (contents : Contents S.Item) → HasContents self.now contents → result ≡ saturated (length (taken_of contents)) }
    {
        self.store.taken
    }

    /// How many values were dropped by the policy: a count that stays at 2^64 - 1 once it is there.
    pub fn dropped_count(&self) -> u64
        ensures { (contents : Contents S.Item) → HasContents self.now contents → result ≡ saturated (length (dropped_of contents)) }
    {
        self.store.dropped
    }
}

impl<S: Run> Run for Buffered<S> {
    ghost use Rattle.flow_buffer.specs.Endings.{given-stops};
    ghost use Rattle.flow_buffer.specs.DeliveryLaws.{delivering_begins, delivering_over};
    ghost use Rattle.flow_buffer.specs.Views.{source_run, end_seen, end_given, may_give, polls_left_of, TakesOnce, GivesUpAll};

    type Item = S::Item;

    type Fault = S::Fault;

    ghost may = { λ r. StoreGives r.store (S.may r.source) };

    ghost ended = { λ r. given r.store.ending };

    ghost stopped = { λ r. S.stopped r.source };

    ghost polls = { λ r. store_polls r.store (S.polls r.source) };

    ghost prompt = { λ r. S.prompt r.source };

    // Pending only where the source answered so. Once its end was seen, or the run was cancelled, it isn't asked.
    ghost polled = { λ old answer new. OnPending answer (S.polled old.source Waiting new.source) × Rests (seen old.store.ending) old.source new.source };

    /// Gives the oldest held value without asking the source. Where none is held, it fills once and gives the value or the
    /// end that came; the end comes once none is held.
    fn poll_next(&mut self, cx: &mut Context<'_>) -> Poll<Event<S::Item, S::Fault>>
        ensures takes { TakesOnce S.may self.old result self.new }
        ensures narrows { Narrows (may_give S.may self.old) result (may_give S.may self.new) }
        ensures ends { end_given self.new ≡ end_of result }
        ensures stops { IsSome (end_of result) → IsTrue (S.stopped (source_run self.new)) }
        ensures stays { (k : _) → end_given self.old ≡ Some k → result ≡ Ready (End k) }
        ensures approaches { Approaches (polls_left_of S.polls self.old) result (polls_left_of S.polls self.new) }
        ensures prompt { IsTrue (S.prompt (source_run self.old)) → IsReady result × IsTrue (S.prompt (source_run self.new)) }
        ensures polled { OnPending result (S.polled (source_run self.old) Waiting (source_run self.new))
            × Rests (end_seen self.old) (source_run self.old) (source_run self.new) }
        ensures armed { OnPending result (IsArmed cx.new) }
        ensures kept { Keeps cx.old cx.new }
    {
        if let Some(value) = self.store.take() {
            return Poll::Ready(Event::Value(value));
        }
        if let Some(cause) = self.store.ending.give() {
            return Poll::Ready(Event::End(cause));
        }
        match self.source.poll_next(cx) {
            Poll::Ready(Event::Value(value)) => {
                self.store.count_taken();
                Poll::Ready(Event::Value(value))
            }
            Poll::Ready(Event::End(cause)) => {
                self.store.ending = Ending::Given(cause);
                Poll::Ready(Event::End(cause))
            }
            Poll::Pending => Poll::Pending,
        }
    }

    fn end(&self) -> Option<Cause<S::Fault>> {
        self.store.ending.given()
    }

    /// Cancels the source and gives up what is held; both counts stay. Where the end was given, it changes nothing.
    fn cancel(&mut self)
        ensures cancels { GivesUpAll self.old self.new }
        ensures ends { end_given self.new ≡ Some (after_cancel (end_given self.old)) }
        ensures stops { IsTrue (S.stopped (source_run self.new)) }
    {
        if let Ending::Given(_) = self.store.ending {
            return;
        }
        self.source.cancel();
        self.store.give_up();
        self.store.ending = Ending::Given(Cause::Cancelled);
    }

    ghost halts = { λ r. given-stops r.store.ending (S.stopped r.source) r.source_stopped };

    ghost begins = { λ r. delivering_begins r.store.held.capacity r.store.policy r.store.held.items r.store.ending (S.may r.source) (S.begins r.source) };

    ghost over = { λ r k e. delivering_over r.store.held.capacity r.store.policy r.store.held.items r.store.ending (S.may r.source) k e };
}

impl<S: Finite> Finite for Buffered<S> {
    ghost use Rattle.flow_buffer.specs.DeliveryLaws.{finite_left};

    ghost is_finite = { λ r. finite_left r.store.ending (length r.store.held.items) (S.polls r.source) (S.Finite.is_finite r.source) };
}
