//! Several flows at once, each value with the index of its flow.

ghost use Rattle.std.specs.Prelude.{◌≡◌, ◌≤◌, ◌||◌, None, IsSome, IsTrue, is_some, vec_len};
ghost use Rattle.futures.specs.Poll.{OnPending};
ghost use Rattle.futures.specs.Task.{IsArmed, Keeps};
ghost use Rattle.cold_flow.specs.Poll.{Unless, Within, Narrows, Approaches, IsReady, IsWithinPolls};
ghost use Rattle.cold_flow.specs.Polled.{Rests};
ghost use Rattle.flow_merge.specs.Asking.{standing_stopped};
ghost use Rattle.flow_merge.specs.Concat.{MayStand};
ghost use Rattle.flow_merge.specs.Counting.{with_end, standing_polls};
ghost use Rattle.more_merges.specs.Joins.{MayJoin, EachHasWaited, all_polls, each_is};
ghost use Rattle.more_merges.specs.Standing.{standing_prompt};

use crate::flows::sides::{ask_sides, cancel_sides, start_sides};
use cold_flow::{Cause, Event, Finite, Flow, Refusal, Run};
use futures::task::{Context, Poll};
use std::alloc::Global;

/// The flow of `merge_indexed`.
#[derive(Drop)]
pub struct Indexed<F> {
    pub(crate) alloc: Global,
    pub(crate) flows: Vec<F>,
}

/// The values of all `flows` as they come, each with the index of its flow.
///
/// Each poll asks the flows one after the other, until one gives a value or fails; each poll begins one flow further on. It finishes
/// once all have, and so at once where there is none. A failure of one is the end and cancels the others. The order between two flows is
/// not claimed. A start takes a place for each run from `alloc`; it is refused where these are, or the start of a flow is, and then none
/// is left started.
pub fn merge_indexed<F: Flow>(alloc: Global, flows: Vec<F>) -> Indexed<F>
    ensures gives { Within (MayJoin F.may flows.items) (⟦<Indexed<F> as Flow>⟧.may result) }
    ensures lasts { IsWithinPolls (all_polls (λ flow. with_end (F.polls flow)) flows.items) (⟦<Indexed<F> as Flow>⟧.polls result) }
    ensures prompt { IsTrue (each_is F.prompt flows.items) → IsTrue (⟦<Indexed<F> as Flow>⟧.prompt result) }
{
    Indexed { alloc, flows }
}

/// A run of `merge_indexed`.
#[derive(Drop)]
pub struct IndexedRun<R: Run, E> {
    // The runs that have not finished, each at the place of its flow.
    sides: Vec<Option<R>>,
    // The place that the next poll asks first.
    turn: usize,
    ended: Option<Cause<E>>,
    ghost within: { turn ≤ vec_len sides },
    ghost stopped: { IsSome ended → IsTrue (each_is (standing_stopped R.stopped) sides.items) },
}

impl<F: Flow> Flow for Indexed<F> {
    ghost use Rattle.more_merges.specs.JoinsLaws.{join_uncancelled};

    type Item = (usize, F::Item);

    type Fault = F::Fault;

    type Running = IndexedRun<F::Running, F::Fault>;

    ghost may = { λ f. MayJoin F.may f.flows.items };

    ghost polls = { λ f. all_polls (λ flow. with_end (F.polls flow)) f.flows.items };

    ghost prompt = { λ f. each_is F.prompt f.flows.items };

    fn start(&self) -> Result<IndexedRun<F::Running, F::Fault>, Refusal> {
        Ok(IndexedRun {
            sides: start_sides(self.alloc, self.flows.as_slice())?,
            turn: 0,
            ended: None,
        })
    }

    ghost uncancelled = { λ f. join_uncancelled F.may F.uncancelled f.flows.items };
}

// The place behind this one, or the first one behind the last.
fn place_behind(place: usize, count: usize) -> usize
    requires { place ≤ count }
    ensures { result ≤ count }
{
    if count - place > 1 {
        return place + 1;
    }
    0
}

impl<E: Copy, R: Run<Fault = E>> IndexedRun<R, E> {
    // Asks the runs that stand, the one first whose turn it is, and passes the turn.
    fn ask(&mut self, cx: &mut Context<'_>) -> Poll<Event<(usize, R::Item), E>>
        requires { self.old.ended ≡ None }
        ensures narrows { Narrows (MayJoin (MayStand R.may) self.old.sides.items) result (MayJoin (MayStand R.may) self.new.sides.items) }
        ensures approaches { Approaches (all_polls (standing_polls R.polls) self.old.sides.items) result
            (all_polls (standing_polls R.polls) self.new.sides.items) }
        ensures prompt { IsTrue (each_is (standing_prompt R.prompt) self.old.sides.items) → IsReady result
            × IsTrue (each_is (standing_prompt R.prompt) self.new.sides.items) }
        ensures same { self.new.ended ≡ self.old.ended }
        ensures waits { OnPending result (EachHasWaited R.polled self.new.sides.items) }
        ensures armed { OnPending result (IsArmed cx.new) }
        ensures kept { Keeps cx.old cx.new }
    {
        let first = self.turn;
        self.turn = place_behind(first, self.sides.len());
        ask_sides(&mut self.sides, first, cx)
    }
}

impl<E: Copy, R: Run<Fault = E>> Run for IndexedRun<R, E> {
    ghost use Rattle.cold_flow.specs.Laws.{Unless-begins, Unless-over};
    ghost use Rattle.more_merges.specs.JoinsLaws.{join_begins};
    ghost use Rattle.more_merges.specs.StandingLaws.{standing_begins};

    type Item = (usize, R::Item);

    type Fault = E;

    ghost may = { λ r. Unless r.ended (MayJoin (MayStand R.may) r.sides.items) };

    ghost ended = { λ r. r.ended };

    ghost stopped = { λ r. each_is (standing_stopped R.stopped) r.sides.items };

    ghost polls = { λ r. all_polls (standing_polls R.polls) r.sides.items };

    ghost prompt = { λ r. is_some r.ended || each_is (standing_prompt R.prompt) r.sides.items };

    // Pending only where each run that has not finished answered so.
    ghost polled = { λ old answer new. OnPending answer (EachHasWaited R.polled new.sides.items) × Rests old.ended old.sides new.sides };

    fn poll_next(&mut self, cx: &mut Context<'_>) -> Poll<Event<(usize, R::Item), E>> {
        if let Some(cause) = self.ended {
            return Poll::Ready(Event::End(cause));
        }
        match self.ask(cx) {
            Poll::Ready(Event::Value(value)) => Poll::Ready(Event::Value(value)),
            Poll::Ready(Event::End(cause)) => {
                cancel_sides(&mut self.sides);
                self.ended = Some(cause);
                Poll::Ready(Event::End(cause))
            }
            Poll::Pending => Poll::Pending,
        }
    }

    fn end(&self) -> Option<Cause<E>> {
        self.ended
    }

    fn cancel(&mut self) {
        cancel_sides(&mut self.sides);
        if self.ended.is_none() {
            self.ended = Some(Cause::Cancelled);
        }
    }

    ghost halts = { λ r. r.stopped };

    ghost begins = { λ r. Unless-begins r.ended _ (join_begins _ (standing_begins _ R.begins) r.sides.items) };

    ghost over = { λ r. Unless-over r.ended _ };
}

impl<E: Copy, R: Finite<Fault = E>> Finite for IndexedRun<R, E> {
    ghost use Rattle.more_merges.specs.JoinsLaws.{polls_finite};
    ghost use Rattle.more_merges.specs.StandingLaws.{standing_finite};

    ghost is_finite = { λ r. polls_finite _ (standing_finite R.polls R.Finite.is_finite) r.sides.items };
}
