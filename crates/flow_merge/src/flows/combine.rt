//! The latest values of two flows.

ghost use Rattle.std.specs.Prelude.{◌≡◌, ◌⊎◌, Option, None, IsSome, IsTrue, ◌&&◌};
ghost use Rattle.std.specs.Iterator.{count_add};
ghost use Rattle.futures.specs.Poll.{OnPending};
ghost use Rattle.futures.specs.Task.{IsArmed, Keeps};
ghost use Rattle.cold_flow.specs.Polled.{IsNearer, Rests};
ghost use Rattle.cold_flow.specs.Poll.{Unless, Within, Fixes, IsWithinPolls};
ghost use Rattle.flow_merge.specs.Asking.{Asks, AsksApproach};
ghost use Rattle.flow_merge.specs.Combine.{MayCombine, OrFinished, combine_trace, result_of, answer_to, is_due, SideWaited, BothWaited};
ghost use Rattle.flow_merge.specs.Counting.{with_end};
ghost use Rattle.flow_merge.specs.Side.{side_polls};
ghost use Rattle.flow_merge.specs.declared.flows.turn.Turn.TheVariants.{Left, Right};

use crate::flows::side::{Arrival, Side};
use crate::flows::turn::Turn;
use cold_flow::{Apply, BUDGET, Cause, Event, Finite, Flow, Refusal, Run};
use futures::task::{Context, Poll};

/// The flow of `combine`.
#[derive(Drop)]
pub struct Combined<A, B, G> {
    left: A,
    right: B,
    function: G,
}

/// Kotlin's `combine` of two flows: at each value of either side `function` of the latest values of both, once both have one.
///
/// The sides are asked in turn, the left first. It finishes once both have; a failure of one side is the end, and cancels the other.
/// Where no side answers pending the values are given in turn, so that what is collected is fixed; otherwise the order between the sides
/// is not claimed. A start is refused where that of a side is, and then no side is left started.
pub fn combine<C: Copy, A: Flow, B: Flow<Fault = A::Fault>, G: Apply<(A::Item, B::Item), Out = C>>(
    left: A,
    right: B,
    function: G,
) -> Combined<A, B, G>
    ensures gives { Within (MayCombine (G.gives function) (A.prompt left) (B.prompt right) Left None None (A.may left) (B.may right))
        (⟦<Combined<A, B, G> as Flow>⟧.may result) }
    ensures exact { (l : _) (r : _) → IsTrue (A.prompt left) → IsTrue (B.prompt right) → Fixes l (A.may left) → Fixes r (B.may right)
        → Fixes (combine_trace (G.gives function) l r) (⟦<Combined<A, B, G> as Flow>⟧.may result) }
    ensures lasts { IsWithinPolls (count_add (with_end (A.polls left)) (with_end (B.polls right))) (⟦<Combined<A, B, G> as Flow>⟧.polls result) }
    ensures starts { IsTrue (A.starts left && B.starts right) → IsTrue (⟦<Combined<A, B, G> as Flow>⟧.starts result) }
{
    Combined {
        left,
        right,
        function,
    }
}

/// A run of `combine`.
#[derive(Drop)]
pub struct CombinedRun<A: Run, B: Run, G> {
    left: Side<A>,
    right: Side<B>,
    function: G,
    // The side that is asked next. It has not finished, unless both have.
    turn: Turn,
    ended: Option<Cause<A::Fault>>,
    ghost stopped: { IsSome ended → IsTrue (A.stopped left.run && B.stopped right.run) },
    ghost at_turn: { IsTrue (is_due turn left.finished right.finished) },
}

impl<C: Copy, A: Flow, B: Flow<Fault = A::Fault>, G: Apply<(A::Item, B::Item), Out = C>> Flow
    for Combined<A, B, G> {
    ghost use Rattle.flow_merge.specs.CombineLaws.{combine_uncancelled};

    type Item = C;

    type Fault = A::Fault;

    type Running = CombinedRun<A::Running, B::Running, G>;

    ghost may = { λ f. MayCombine (G.gives f.function) (A.prompt f.left) (B.prompt f.right) Left None None (A.may f.left) (B.may f.right) };

    ghost polls = { λ f. count_add (with_end (A.polls f.left)) (with_end (B.polls f.right)) };

    ghost starts = { λ f. A.starts f.left && B.starts f.right };

    #[tactic(auto, using(crate::specs::CombineLaws::combine_starts))]
    fn start(&self) -> Result<CombinedRun<A::Running, B::Running, G>, Refusal> {
        let mut left = self.left.start()?;
        match self.right.start() {
            Ok(right) => Ok(CombinedRun {
                left: Side::new(left),
                right: Side::new(right),
                function: self.function,
                turn: Turn::Left,
                ended: None,
            }),
            Err(refusal) => {
                left.cancel();
                Err(refusal)
            }
        }
    }

    ghost uncancelled = { λ f. combine_uncancelled _ _ _ (A.may f.left) (B.may f.right) (A.uncancelled f.left) (B.uncancelled f.right) };
}

impl<C: Copy, A: Run, B: Run<Fault = A::Fault>, G: Apply<(A::Item, B::Item), Out = C>> Run
    for CombinedRun<A, B, G> {
    ghost use Rattle.cold_flow.specs.Laws.{Unless-begins, Unless-over};
    ghost use Rattle.flow_merge.specs.CombineLaws.{combine_begins};

    type Item = C;

    type Fault = A::Fault;

    ghost may = { λ r. Unless r.ended (MayCombine (G.gives r.function) (A.prompt r.left.run) (B.prompt r.right.run) r.turn r.left.latest r.right.latest
        (OrFinished r.left.finished (A.may r.left.run)) (OrFinished r.right.finished (B.may r.right.run))) };

    ghost ended = { λ r. r.ended };

    ghost stopped = { λ r. A.stopped r.left.run && B.stopped r.right.run };

    ghost polls = { λ r. count_add (side_polls r.left.finished (A.polls r.left.run)) (side_polls r.right.finished (B.polls r.right.run)) };

    // Pending only where each side that has not finished answered so, or 64 answers gave nothing.
    ghost polled = { λ old answer new. OnPending answer (BothWaited A.polled B.polled new.left.finished new.right.finished new.left.run new.right.run
        ⊎ IsNearer 64 (count_add (side_polls old.left.finished (A.polls old.left.run)) (side_polls old.right.finished (B.polls old.right.run)))
        (count_add (side_polls new.left.finished (A.polls new.left.run)) (side_polls new.right.finished (B.polls new.right.run))))
        × Rests old.ended old.left.run new.left.run × Rests old.ended old.right.run new.right.run };

    // Inlined, so that a chain of operators becomes one loop.
    #[inline(always)]
    fn poll_next(&mut self, cx: &mut Context<'_>) -> Poll<Event<C, A::Fault>> {
        if let Some(cause) = self.ended {
            return Poll::Ready(Event::End(cause));
        }
        let mut unanswered = 0;
        let mut waited = false;
        'turns: while unanswered < BUDGET {
            match self.ask(cx) {
                Poll::Ready(Some(Event::Value(value))) => return Poll::Ready(Event::Value(value)),
                Poll::Ready(Some(Event::End(cause))) => {
                    self.left.cancel();
                    self.right.cancel();
                    self.ended = Some(cause);
                    return Poll::Ready(Event::End(cause));
                }
                Poll::Ready(None) => {
                    unanswered += 1;
                    waited = false;
                }
                Poll::Pending => {
                    // Each side that has not finished answered pending, one after the other.
                    if waited || self.left.finished || self.right.finished {
                        return Poll::Pending;
                    }
                    waited = true;
                }
            }
        }
        cx.yield_now()
    }

    fn end(&self) -> Option<Cause<A::Fault>> {
        self.ended
    }

    fn cancel(&mut self) {
        self.left.cancel();
        self.right.cancel();
        if self.ended.is_none() {
            self.left.latest = None;
            self.right.latest = None;
            self.ended = Some(Cause::Cancelled);
        }
    }

    ghost halts = { λ r. r.stopped };

    ghost begins = { λ r. Unless-begins r.ended _ (combine_begins _ _ _ r.turn r.left.latest r.right.latest r.left.finished r.right.finished _ _
        (A.begins r.left.run) (B.begins r.right.run)) };

    ghost over = { λ r. Unless-over r.ended _ };
}

impl<C: Copy, A: Finite, B: Finite<Fault = A::Fault>, G: Apply<(A::Item, B::Item), Out = C>> Finite
    for CombinedRun<A, B, G> {
    ghost use Rattle.flow_merge.specs.Counting.{both-finite, unless-finite};

    ghost is_finite = { λ r. both-finite (side_polls r.left.finished (A.polls r.left.run)) (side_polls r.right.finished (B.polls r.right.run))
        (unless-finite r.left.finished (A.polls r.left.run) (A.Finite.is_finite r.left.run))
        (unless-finite r.right.finished (B.polls r.right.run) (B.Finite.is_finite r.right.run)) };
}

impl<C: Copy, A: Run, B: Run<Fault = A::Fault>, G: Apply<(A::Item, B::Item), Out = C>> CombinedRun<
    A,
    B,
    G,
> {
    // Asks the side whose turn it is, and passes the turn.
    fn ask(&mut self, cx: &mut Context<'_>) -> Poll<Option<Event<C, A::Fault>>>
        requires { self.old.ended ≡ None }
        ensures asked { Asks (⟦<CombinedRun<A, B, G> as Run>⟧.may self.old) result (⟦<CombinedRun<A, B, G> as Run>⟧.may self.new) }
        ensures approaches { AsksApproach (⟦<CombinedRun<A, B, G> as Run>⟧.polls self.old) result (⟦<CombinedRun<A, B, G> as Run>⟧.polls self.new) }
        ensures going { self.new.ended ≡ None }
        ensures waits { OnPending result (SideWaited A.polled B.polled self.old.turn self.new.turn self.new.left.finished self.new.right.finished
            self.old.left.run self.old.right.run self.new.left.run self.new.right.run) }
        ensures armed { OnPending result (IsArmed cx.new) }
        ensures kept { Keeps cx.old cx.new }
    {
        match self.turn {
            Turn::Left => {
                let arrival = self.left.ask(cx);
                self.turn = Turn::Right.unless(self.right.finished);
                self.answer(arrival)
            }
            Turn::Right => {
                let arrival = self.right.ask(cx);
                self.turn = Turn::Left.unless(self.left.finished);
                self.answer(arrival)
            }
        }
    }

    // What a question answers to an arrival: the result of the latest values, where both sides have one, or the end.
    fn answer(&self, arrival: Poll<Arrival<A::Fault>>) -> Poll<Option<Event<C, A::Fault>>>
        ensures { result ≡ answer_to (G.gives self.now.function) arrival (self.now.left.finished && self.now.right.finished)
            self.now.left.latest self.now.right.latest }
    {
        match arrival {
            Poll::Ready(Arrival::Came) => Poll::Ready(self.result()),
            Poll::Ready(Arrival::Done) => {
                if self.left.finished && self.right.finished {
                    return Poll::Ready(Some(Event::End(Cause::Finished)));
                }
                Poll::Ready(None)
            }
            Poll::Ready(Arrival::Ended(cause)) => Poll::Ready(Some(Event::End(cause))),
            Poll::Pending => Poll::Pending,
        }
    }

    // The result of the latest values, where both sides have one.
    fn result(&self) -> Option<Event<C, A::Fault>>
        ensures { result ≡ result_of (G.gives self.now.function) self.now.left.latest self.now.right.latest }
    {
        match (self.left.latest, self.right.latest) {
            (Some(left), Some(right)) => Some(Event::Value(self.function.apply((left, right)))),
            _ => None,
        }
    }
}
