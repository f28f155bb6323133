//! Several inner flows at once.

ghost use Rattle.std.specs.Prelude.{◌≡◌, ◌+◌, ◌<◌, ◌≤◌, ◌↔◌, ◌&&◌};
ghost use Rattle.std.specs.Prelude.{true, false, [], None, IsSome, IsTrue, IfOk, IsOk, Err, vec_len};
ghost use Rattle.futures.specs.Poll.{OnPending};
ghost use Rattle.futures.specs.Task.{IsArmed, Keeps};
ghost use Rattle.flow_terms.specs.declared.refusal.Refusal.TheVariants.{NotPositive, TooManyWorkers};
ghost use Rattle.cold_flow.specs.Poll.{Narrows};
ghost use Rattle.std.specs.List.{remove};
ghost use Rattle.flow_merge.specs.Standing.{all_stopped};
ghost use Rattle.flow_merge.specs.Merge.{MayMerge, MakesMerge, MayStillMerge, AsksOuter, AsksInner, StandAfter, OnWaits};

use crate::flows::inner_answer::InnerAnswer;
use crate::flows::standing::{ask_at, cancel_all, leave, stand_before, stand_in_place};
use cold_flow::{Apply, BUDGET, Cause, Event, Flow, Refusal, Run};
use futures::task::{Context, Poll};
use std::alloc::Global;

/// The most inner flows of one `flat_map_merge` that may be collected at once.
pub const MAX_WORKERS: u32 = 1_024;

/// The flow of `flat_map_merge`.
#[derive(Drop)]
pub struct Merged<S, G> {
    alloc: Global,
    outer: S,
    function: G,
    limit: u32,
    ghost positive: { 0 < limit },
}

/// Kotlin's `flatMapMerge`: the inner flows that `function` answers for the outer values, at most `limit` of them at once (Kotlin's
/// `concurrency`). Their values come as they come: the order between inner flows is not claimed.
///
/// Refused with `Refusal::NotPositive` where `limit` is 0 and with `Refusal::TooManyWorkers` where it is over `MAX_WORKERS`. A failure of
/// the outer or of an inner flow is the end at once and cancels all others, whose values not yet given are lost; so is an inner start
/// that is refused, or a place for its run: then the end is `Cause::Refused`. The places for inner runs are taken from `alloc` as they
/// are needed.
pub fn flat_map_merge<
    B: Copy,
    E: Copy,
    S: Flow<Fault = E>,
    F: Flow<Item = B, Fault = E>,
    G: Apply<S::Item, Out = F>,
>(alloc: Global, outer: S, function: G, limit: u32) -> Result<Merged<S, G>, Refusal>
    ensures gives { IfOk result (λ f. MakesMerge limit (λ x. F.may (G.gives function x)) F.Running.may (S.may outer) (⟦<Merged<S, G> as Flow>⟧.may f)) }
    ensures starts { IfOk result (λ f. IsTrue (S.starts outer) → IsTrue (⟦<Merged<S, G> as Flow>⟧.starts f)) }
    ensures not_positive { (result ≡ Err NotPositive) ↔ (limit ≡ 0) }
    ensures too_many { (result ≡ Err TooManyWorkers) ↔ (MAX_WORKERS < limit) }
    ensures accepted { 0 < limit → limit ≤ MAX_WORKERS → IsOk result }
{
    if limit == 0 {
        return Err(Refusal::NotPositive);
    }
    if limit > MAX_WORKERS {
        return Err(Refusal::TooManyWorkers);
    }
    Ok(Merged {
        alloc,
        outer,
        function,
        limit,
    })
}

/// A run of `flat_map_merge`.
#[derive(Drop)]
pub struct MergedRun<O: Run, F: Flow, G, E> {
    outer: O,
    outer_finished: bool,
    function: G,
    limit: u32,
    // The inner runs that stand, in the order in which they are asked, which goes round.
    runs: Vec<F::Running>,
    // The index of the inner run that a poll asks first. The length stands for 0, too.
    turn: usize,
    ended: Option<Cause<E>>,
    ghost positive: { 0 < limit },
    ghost few: { vec_len runs ≤ limit },
    ghost within: { turn ≤ vec_len runs },
    ghost stopped: { IsSome ended → IsTrue (O.stopped outer && all_stopped F.Running.stopped runs.items) },
}

impl<
    B: Copy,
    E: Copy,
    S: Flow<Fault = E>,
    F: Flow<Item = B, Fault = E>,
    G: Apply<S::Item, Out = F>,
> Flow for Merged<S, G> {
    ghost use Rattle.flow_merge.specs.MergeLaws.{merge_uncancelled};

    type Item = B;

    type Fault = E;

    type Running = MergedRun<S::Running, F, G, E>;

    ghost may = { λ f. MayMerge f.limit (λ x. F.may (G.gives f.function x)) F.Running.may [] (S.may f.outer) };

    ghost starts = { λ f. S.starts f.outer };

    #[tactic(auto, using(crate::specs::MergeLaws::merge_outer_waits))]
    fn start(&self) -> Result<MergedRun<S::Running, F, G, E>, Refusal> {
        Ok(MergedRun {
            outer: self.outer.start()?,
            outer_finished: false,
            function: self.function,
            limit: self.limit,
            runs: Vec::new(self.alloc),
            turn: 0,
            ended: None,
        })
    }

    ghost uncancelled = { λ f. merge_uncancelled f.limit _ (λ x. F.uncancelled (G.gives f.function x)) F.Running.may
        (S.may f.outer) (S.uncancelled f.outer) };
}

impl<
    B: Copy,
    E: Copy,
    O: Run<Fault = E>,
    F: Flow<Item = B, Fault = E>,
    G: Apply<O::Item, Out = F>,
> Run for MergedRun<O, F, G, E> {
    ghost use Rattle.cold_flow.specs.Laws.{Unless-begins, Unless-over};
    ghost use Rattle.flow_merge.specs.MergeLaws.{merge_begun, outer_begins};

    type Item = B;

    type Fault = E;

    ghost may = { λ r. MayStillMerge r.ended r.limit (λ x. F.may (G.gives r.function x)) F.Running.may r.runs.items r.outer_finished (O.may r.outer) };

    ghost ended = { λ r. r.ended };

    ghost stopped = { λ r. O.stopped r.outer && all_stopped F.Running.stopped r.runs.items };

    // Inlined, so that a chain of operators becomes one loop.
    #[inline(always)]
    fn poll_next(&mut self, cx: &mut Context<'_>) -> Poll<Event<B, E>> {
        if let Some(cause) = self.ended {
            return Poll::Ready(Event::End(cause));
        }
        match self.ask_all(cx) {
            Poll::Ready(Event::Value(value)) => Poll::Ready(Event::Value(value)),
            Poll::Ready(Event::End(cause)) => {
                self.outer.cancel();
                cancel_all(&mut self.runs);
                self.ended = Some(cause);
                Poll::Ready(Event::End(cause))
            }
            Poll::Pending => Poll::Pending,
        }
    }

    fn end(&self) -> Option<Cause<E>> {
        self.ended
    }

    fn cancel(&mut self) {
        self.outer.cancel();
        cancel_all(&mut self.runs);
        if self.ended.is_none() {
            self.ended = Some(Cause::Cancelled);
        }
    }

    ghost halts = { λ r. r.stopped };

    ghost begins = { λ r. Unless-begins r.ended _ (merge_begun r.limit _ _ r.runs.items _ F.Running.begins
        (outer_begins r.outer_finished (O.may r.outer) (O.begins r.outer))) };

    ghost over = { λ r. Unless-over r.ended _ };
}

impl<
    B: Copy,
    E: Copy,
    O: Run<Fault = E>,
    F: Flow<Item = B, Fault = E>,
    G: Apply<O::Item, Out = F>,
> MergedRun<O, F, G, E> {
    // Asks the outer run once, and starts an inner run of a value that it gives. A cause that ends the whole is given back.
    fn ask_outer(&mut self, cx: &mut Context<'_>) -> Poll<Option<Cause<E>>>
        requires going { self.old.ended ≡ None }
        requires unfinished { self.old.outer_finished ≡ false }
        requires room { vec_len self.old.runs < self.old.limit }
        ensures asked { AsksOuter (⟦<MergedRun<O, F, G, E> as Run>⟧.may self.old) result (⟦<MergedRun<O, F, G, E> as Run>⟧.may self.new) }
        ensures going { self.new.ended ≡ None }
        ensures limit { self.new.limit ≡ self.old.limit }
        ensures standing { (vec_len self.old.runs ≤ vec_len self.new.runs) × (vec_len self.new.runs ≤ vec_len self.old.runs + 1) }
        ensures waits { OnPending result (vec_len self.new.runs ≡ vec_len self.old.runs) }
        ensures armed { OnPending result (IsArmed cx.new) }
        ensures kept { Keeps cx.old cx.new }
    {
        match self.outer.poll_next(cx) {
            Poll::Ready(Event::Value(value)) => {
                if self.runs.reserve(1).is_err() {
                    return Poll::Ready(Some(Cause::Refused(Refusal::NoMemory)));
                }
                match self.function.apply(value).start() {
                    Ok(run) => {
                        self.turn = stand_before(&mut self.runs, self.turn, run);
                        Poll::Ready(None)
                    }
                    Err(refusal) => Poll::Ready(Some(Cause::Refused(refusal))),
                }
            }
            Poll::Ready(Event::End(cause)) => {
                if let Cause::Finished = cause {
                    self.outer_finished = true;
                    return Poll::Ready(None);
                }
                Poll::Ready(Some(cause))
            }
            Poll::Pending => Poll::Pending,
        }
    }

    // Asks the outer while fewer than `limit` inner runs stand, and each inner run that stands at most once.
    fn ask_all(&mut self, cx: &mut Context<'_>) -> Poll<Event<B, E>>
        requires { self.old.ended ≡ None }
        ensures narrows { Narrows (⟦<MergedRun<O, F, G, E> as Run>⟧.may self.old) result (⟦<MergedRun<O, F, G, E> as Run>⟧.may self.new) }
        ensures going { self.new.ended ≡ None }
        ensures armed { OnPending result (IsArmed cx.new) }
        ensures kept { Keeps cx.old cx.new }
    {
        let mut unanswered = 0;
        // How many of the runs that stand, from the turn on, answered pending in this poll, and whether the outer did.
        let mut asked = 0;
        let mut outer_waits = false;
        'questions: while unanswered < BUDGET {
            if self.wants_outer(outer_waits) {
                match self.ask_outer(cx) {
                    Poll::Ready(None) => unanswered += 1,
                    Poll::Ready(Some(cause)) => return Poll::Ready(Event::End(cause)),
                    Poll::Pending => outer_waits = true,
                }
            } else if asked < self.runs.len() {
                let follows = self.is_followed(unanswered, asked, outer_waits);
                match self.ask_next(asked, follows, cx) {
                    InnerAnswer::Gave(event) => return Poll::Ready(event),
                    InnerAnswer::Left => unanswered += 1,
                    InnerAnswer::Followed => unanswered += 2,
                    InnerAnswer::OuterWaits => {
                        unanswered += 1;
                        outer_waits = true;
                    }
                    InnerAnswer::Waits => asked += 1,
                }
            } else if asked > 0 {
                return Poll::Pending;
            } else if outer_waits {
                return Poll::Pending;
            } else {
                // No run stands, and the outer has finished.
                return Poll::Ready(Event::End(Cause::Finished));
            }
        }
        self.turn = self.index_after(asked);
        cx.yield_now()
    }

    // Whether the outer is to be asked.
    fn wants_outer(&self, outer_waits: bool) -> bool
        ensures unfinished { IsTrue result → self.now.outer_finished ≡ false }
        ensures room { IsTrue result → vec_len self.now.runs < self.now.limit }
        ensures silent { IsTrue result → outer_waits ≡ false }
        ensures otherwise { result ≡ false → vec_len self.now.runs ≡ 0 → outer_waits ≡ false → self.now.outer_finished ≡ true }
    {
        if self.outer_finished {
            return false;
        }
        if outer_waits {
            return false;
        }
        self.runs.len() < self.limit as usize
    }

    // The index of the run that is asked next, once `asked` of them were in this poll.
    fn index_after(&self, asked: usize) -> usize
        requires { asked ≤ vec_len self.now.runs }
        ensures within { result ≤ vec_len self.now.runs }
        ensures stands { asked < vec_len self.now.runs → result < vec_len self.now.runs }
    {
        let index = self.turn + asked;
        if index < self.runs.len() {
            return index;
        }
        index - self.runs.len()
    }

    // Whether the outer is asked at once where the run whose turn it is has finished, so that the next one stands in its place.
    fn is_followed(&self, unanswered: u32, asked: usize, outer_waits: bool) -> bool
        ensures unfinished { IsTrue result → self.now.outer_finished ≡ false }
        ensures first { IsTrue result → asked ≡ 0 }
        ensures silent { IsTrue result → outer_waits ≡ false }
        ensures counted { IsTrue result → unanswered + 1 < 64 }
    {
        if self.outer_finished {
            return false;
        }
        if outer_waits {
            return false;
        }
        if asked > 0 {
            return false;
        }
        unanswered < BUDGET - 1
    }

    // Asks the inner run whose turn it is, once `asked` of them were asked in this poll. One that has finished leaves or is followed.
    fn ask_next(&mut self, asked: usize, follows: bool, cx: &mut Context<'_>) -> InnerAnswer<B, E>
        requires going { self.old.ended ≡ None }
        requires stands { asked < vec_len self.old.runs }
        requires unfinished { IsTrue follows → self.old.outer_finished ≡ false }
        ensures asked { AsksInner (⟦<MergedRun<O, F, G, E> as Run>⟧.may self.old) result (⟦<MergedRun<O, F, G, E> as Run>⟧.may self.new) }
        ensures going { self.new.ended ≡ None }
        ensures limit { self.new.limit ≡ self.old.limit }
        ensures standing { StandAfter result (vec_len self.old.runs) (vec_len self.new.runs) }
        ensures armed { OnWaits result (IsArmed cx.new) }
        ensures kept { Keeps cx.old cx.new }
    {
        let index = self.index_after(asked);
        match ask_at(&mut self.runs, index, cx) {
            Poll::Ready(Event::Value(value)) => {
                self.turn = index + 1;
                InnerAnswer::Gave(Event::Value(value))
            }
            Poll::Ready(Event::End(cause)) => {
                if let Cause::Finished = cause {
                    if follows {
                        return self.ask_follower(index, cx);
                    }
                    self.turn = leave(&mut self.runs, self.turn, index);
                    return InnerAnswer::Left;
                }
                InnerAnswer::Gave(Event::End(cause))
            }
            Poll::Pending => InnerAnswer::Waits,
        }
    }

    // Asks the outer for a run in place of the one at `index`, which has finished: so none moves. Where none comes, that one leaves.
    fn ask_follower(&mut self, index: usize, cx: &mut Context<'_>) -> InnerAnswer<B, E>
        requires going { self.old.ended ≡ None }
        requires unfinished { self.old.outer_finished ≡ false }
        requires stands { index < vec_len self.old.runs }
        ensures asked { AsksInner (MayStillMerge self.old.ended self.old.limit (λ x. F.may (G.gives self.old.function x)) F.Running.may
            (remove self.old.runs.items index) self.old.outer_finished (O.may self.old.outer)) result
            (⟦<MergedRun<O, F, G, E> as Run>⟧.may self.new) }
        ensures going { self.new.ended ≡ None }
        ensures limit { self.new.limit ≡ self.old.limit }
        ensures standing { StandAfter result (vec_len self.old.runs) (vec_len self.new.runs) }
        ensures armed { OnWaits result (IsArmed cx.new) }
        ensures kept { Keeps cx.old cx.new }
    {
        match self.outer.poll_next(cx) {
            Poll::Ready(Event::Value(value)) => match self.function.apply(value).start() {
                Ok(run) => {
                    self.turn = stand_in_place(&mut self.runs, index, run);
                    InnerAnswer::Followed
                }
                Err(refusal) => InnerAnswer::Gave(Event::End(Cause::Refused(refusal))),
            },
            Poll::Ready(Event::End(cause)) => {
                if let Cause::Finished = cause {
                    self.outer_finished = true;
                    self.turn = leave(&mut self.runs, self.turn, index);
                    return InnerAnswer::Followed;
                }
                InnerAnswer::Gave(Event::End(cause))
            }
            Poll::Pending => {
                self.turn = leave(&mut self.runs, self.turn, index);
                InnerAnswer::OuterWaits
            }
        }
    }
}
