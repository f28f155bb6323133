//! Two flows at once.

ghost use Rattle.std.specs.Prelude.{◌≡◌, ◌&&◌, ◌||◌, None, IsSome, IsTrue, is_some};
ghost use Rattle.std.specs.Iterator.{count_add};
ghost use Rattle.futures.specs.Poll.{OnPending};
ghost use Rattle.futures.specs.Task.{IsArmed, Keeps};
ghost use Rattle.cold_flow.specs.Poll.{Unless, Within, Narrows, Approaches, IsReady, IsWithinPolls};
ghost use Rattle.cold_flow.specs.Polled.{Rests};
ghost use Rattle.flow_merge.specs.Asking.{standing_stopped};
ghost use Rattle.flow_merge.specs.Concat.{MayStand};
ghost use Rattle.flow_merge.specs.Counting.{with_end, standing_polls};
ghost use Rattle.more_merges.specs.Interleave.{MayInterleave};
ghost use Rattle.more_merges.specs.Standing.{HasStandingWaited, standing_prompt};

use crate::flows::standing::{ask_standing, cancel_standing};
use cold_flow::{Cause, Event, Finite, Flow, Refusal, Run};
use flow_merge::Turn;
use futures::task::{Context, Poll};

/// The flow of `merge`.
#[derive(Drop)]
pub struct Interleaved<A, B> {
    left: A,
    right: B,
}

/// The values of both flows as they come: Kotlin's `merge` of two.
///
/// Each poll asks the sides one after the other, until one gives a value or fails; the turn passes with every poll. It finishes once
/// both have. A failure of either is the end and cancels the other. The order between the two is not claimed. A start is refused where
/// that of a side is, and then no side is left started.
pub fn merge<A: Flow, B: Flow<Item = A::Item, Fault = A::Fault>>(
    left: A,
    right: B,
) -> Interleaved<A, B>
    ensures gives { Within (MayInterleave (A.may left) (B.may right)) (⟦<Interleaved<A, B> as Flow>⟧.may result) }
    ensures lasts { IsWithinPolls (count_add (with_end (A.polls left)) (with_end (B.polls right))) (⟦<Interleaved<A, B> as Flow>⟧.polls result) }
    ensures prompt { IsTrue (A.prompt left && B.prompt right) → IsTrue (⟦<Interleaved<A, B> as Flow>⟧.prompt result) }
    ensures starts { IsTrue (A.starts left && B.starts right) → IsTrue (⟦<Interleaved<A, B> as Flow>⟧.starts result) }
{
    Interleaved { left, right }
}

/// A run of `merge`.
#[derive(Drop)]
pub struct InterleavedRun<A: Run, B: Run, E> {
    // The sides that have not finished.
    left: Option<A>,
    right: Option<B>,
    // The side that the next poll asks first.
    turn: Turn,
    ended: Option<Cause<E>>,
    ghost stopped: { IsSome ended → IsTrue (standing_stopped A.stopped left && standing_stopped B.stopped right) },
}

impl<A: Flow, B: Flow<Item = A::Item, Fault = A::Fault>> Flow for Interleaved<A, B> {
    ghost use Rattle.more_merges.specs.InterleaveLaws.{interleave_uncancelled};

    type Item = A::Item;

    type Fault = A::Fault;

    type Running = InterleavedRun<A::Running, B::Running, A::Fault>;

    ghost may = { λ f. MayInterleave (A.may f.left) (B.may f.right) };

    ghost polls = { λ f. count_add (with_end (A.polls f.left)) (with_end (B.polls f.right)) };

    ghost prompt = { λ f. A.prompt f.left && B.prompt f.right };

    ghost starts = { λ f. A.starts f.left && B.starts f.right };

    fn start(&self) -> Result<InterleavedRun<A::Running, B::Running, A::Fault>, Refusal> {
        let mut left = self.left.start()?;
        match self.right.start() {
            Ok(right) => Ok(InterleavedRun {
                left: Some(left),
                right: Some(right),
                turn: Turn::Left,
                ended: None,
            }),
            Err(refusal) => {
                left.cancel();
                Err(refusal)
            }
        }
    }

    ghost uncancelled = { λ f. interleave_uncancelled (A.may f.left) (B.may f.right) (A.uncancelled f.left) (B.uncancelled f.right) };
}

// Asks one side, and the other where that gives nothing.
fn ask_both<A: Run, B: Run<Item = A::Item, Fault = A::Fault>>(
    first: &mut Option<A>,
    second: &mut Option<B>,
    cx: &mut Context<'_>,
) -> Poll<Event<A::Item, A::Fault>>
    ensures narrows { Narrows (MayInterleave (MayStand A.may first.old) (MayStand B.may second.old)) result
        (MayInterleave (MayStand A.may first.new) (MayStand B.may second.new)) }
    ensures approaches { Approaches (count_add (standing_polls A.polls first.old) (standing_polls B.polls second.old)) result
        (count_add (standing_polls A.polls first.new) (standing_polls B.polls second.new)) }
    ensures prompt { IsTrue (standing_prompt A.prompt first.old && standing_prompt B.prompt second.old) → IsReady result
        × IsTrue (standing_prompt A.prompt first.new && standing_prompt B.prompt second.new) }
    ensures waits { OnPending result (HasStandingWaited A.polled first.new × HasStandingWaited B.polled second.new) }
    ensures armed { OnPending result (IsArmed cx.new) }
    ensures kept { Keeps cx.old cx.new }
{
    match ask_standing(first, cx) {
        Poll::Ready(Some(event)) => Poll::Ready(event),
        Poll::Ready(None) => match ask_standing(second, cx) {
            Poll::Ready(Some(event)) => Poll::Ready(event),
            Poll::Ready(None) => Poll::Ready(Event::End(Cause::Finished)),
            Poll::Pending => Poll::Pending,
        },
        Poll::Pending => match ask_standing(second, cx) {
            Poll::Ready(Some(event)) => Poll::Ready(event),
            Poll::Ready(None) => Poll::Pending,
            Poll::Pending => Poll::Pending,
        },
    }
}

impl<E: Copy, A: Run<Fault = E>, B: Run<Item = A::Item, Fault = E>> InterleavedRun<A, B, E> {
    // Asks both sides, the one first whose turn it is, and passes the turn.
    fn ask(&mut self, cx: &mut Context<'_>) -> Poll<Event<A::Item, E>>
        requires { self.old.ended ≡ None }
        ensures narrows { Narrows (MayInterleave (MayStand A.may self.old.left) (MayStand B.may self.old.right)) result
            (MayInterleave (MayStand A.may self.new.left) (MayStand B.may self.new.right)) }
        ensures approaches { Approaches (count_add (standing_polls A.polls self.old.left) (standing_polls B.polls self.old.right)) result
            (count_add (standing_polls A.polls self.new.left) (standing_polls B.polls self.new.right)) }
        ensures prompt { IsTrue (standing_prompt A.prompt self.old.left && standing_prompt B.prompt self.old.right) → IsReady result
            × IsTrue (standing_prompt A.prompt self.new.left && standing_prompt B.prompt self.new.right) }
        ensures same { self.new.ended ≡ self.old.ended }
        ensures waits { OnPending result (HasStandingWaited A.polled self.new.left × HasStandingWaited B.polled self.new.right) }
        ensures armed { OnPending result (IsArmed cx.new) }
        ensures kept { Keeps cx.old cx.new }
    {
        match self.turn {
            Turn::Left => {
                self.turn = Turn::Right;
                ask_both(&mut self.left, &mut self.right, cx)
            }
            Turn::Right => {
                self.turn = Turn::Left;
                ask_both(&mut self.right, &mut self.left, cx)
            }
        }
    }
}

impl<E: Copy, A: Run<Fault = E>, B: Run<Item = A::Item, Fault = E>> Run
    for InterleavedRun<A, B, E> {
    ghost use Rattle.cold_flow.specs.Laws.{Unless-begins, Unless-over};
    ghost use Rattle.more_merges.specs.InterleaveLaws.{interleave_begins};
    ghost use Rattle.more_merges.specs.StandingLaws.{standing_begins};

    type Item = A::Item;

    type Fault = E;

    ghost may = { λ r. Unless r.ended (MayInterleave (MayStand A.may r.left) (MayStand B.may r.right)) };

    ghost ended = { λ r. r.ended };

    ghost stopped = { λ r. standing_stopped A.stopped r.left && standing_stopped B.stopped r.right };

    ghost polls = { λ r. count_add (standing_polls A.polls r.left) (standing_polls B.polls r.right) };

    ghost prompt = { λ r. is_some r.ended || standing_prompt A.prompt r.left && standing_prompt B.prompt r.right };

    // Pending only where each side that has not finished answered so.
    ghost polled = { λ old answer new. OnPending answer (HasStandingWaited A.polled new.left × HasStandingWaited B.polled new.right)
        × Rests old.ended old.left new.left × Rests old.ended old.right new.right };

    fn poll_next(&mut self, cx: &mut Context<'_>) -> Poll<Event<A::Item, E>> {
        if let Some(cause) = self.ended {
            return Poll::Ready(Event::End(cause));
        }
        match self.ask(cx) {
            Poll::Ready(Event::Value(value)) => Poll::Ready(Event::Value(value)),
            Poll::Ready(Event::End(cause)) => {
                cancel_standing(&mut self.left);
                cancel_standing(&mut self.right);
                self.ended = Some(cause);
                Poll::Ready(Event::End(cause))
            }
            Poll::Pending => Poll::Pending,
        }
    }

    fn end(&self) -> Option<Cause<E>> {
        self.ended
    }

    fn cancel(&mut self) {
        cancel_standing(&mut self.left);
        cancel_standing(&mut self.right);
        if self.ended.is_none() {
            self.ended = Some(Cause::Cancelled);
        }
    }

    ghost halts = { λ r. r.stopped };

    ghost begins = { λ r. Unless-begins r.ended _ (interleave_begins _ _ (standing_begins _ A.begins r.left) (standing_begins _ B.begins r.right)) };

    ghost over = { λ r. Unless-over r.ended _ };
}

impl<E: Copy, A: Finite<Fault = E>, B: Finite<Item = A::Item, Fault = E>> Finite
    for InterleavedRun<A, B, E> {
    ghost use Rattle.flow_merge.specs.Counting.{both-finite};
    ghost use Rattle.more_merges.specs.StandingLaws.{standing_finite};

    ghost is_finite = { λ r. both-finite (standing_polls A.polls r.left) (standing_polls B.polls r.right) (standing_finite A.polls A.Finite.is_finite r.left) (standing_finite B.polls B.Finite.is_finite r.right) };
}
