//! Inner flows one after the other.

ghost use Rattle.std.specs.Prelude.{◌≡◌, ◌⊎◌, Option, None, IsSome, IsTrue, ◌&&◌};
ghost use Rattle.futures.specs.Poll.{OnPending};
ghost use Rattle.futures.specs.Task.{IsArmed, Keeps};
ghost use Rattle.cold_flow.specs.Polled.{IsNearer, Rests};
ghost use Rattle.cold_flow.specs.Poll.{Unless, Within, IsWithinPolls};
ghost use Rattle.std.specs.Iterator.{at_most, count_add};
ghost use Rattle.flow_merge.specs.Asking.{Asks, AsksApproach, OnEnd, standing_stopped};
ghost use Rattle.flow_merge.specs.Counting.{IsBoundedBy, rounds, standing_polls};
ghost use Rattle.flow_merge.specs.Concat.{MayConcat, StandingWaited};

use crate::flows::bound::{Bound, KnownBound, Unbounded};
use cold_flow::{Apply, BUDGET, Cause, Event, Finite, Flow, Refusal, Run};
use futures::task::{Context, Poll};
use std::marker::PhantomData;

mod making;

pub use making::flat_map_concat;

/// The flow of `flat_map_concat`. `N` names a number of polls in which any inner run has ended, where one is known.
#[derive(Drop)]
pub struct Concatenated<S: Flow, F: Flow, G: Apply<S::Item, Out = F>, N: Bound> {
    outer: S,
    function: G,
    bound: PhantomData<N>,
    ghost bounded: { (x : _) → IsBoundedBy N.most (F.polls (G.gives function x)) },
}

/// A run of `flat_map_concat`.
#[derive(Drop)]
pub struct ConcatenatedRun<O: Run, F: Flow, G: Apply<O::Item, Out = F>, E, N: Bound> {
    outer: O,
    function: G,
    bound: PhantomData<N>,
    // The inner run that stands, if any.
    inner: Option<F::Running>,
    ended: Option<Cause<E>>,
    ghost bounded: { (x : _) → IsBoundedBy N.most (F.polls (G.gives function x)) },
    ghost stopped: { IsSome ended → IsTrue (O.stopped outer && standing_stopped F.Running.stopped inner) },
}

impl<
    B: Copy,
    E: Copy,
    O: Run<Fault = E>,
    F: Flow<Item = B, Fault = E>,
    G: Apply<O::Item, Out = F>,
    N: Bound,
> ConcatenatedRun<O, F, G, E, N> {
    // Asks the inner run that stands, or the outer where none does.
    fn ask(&mut self, cx: &mut Context<'_>) -> Poll<Option<Event<B, E>>>
        requires { self.old.ended ≡ None }
        ensures asked { Asks (⟦<ConcatenatedRun<O, F, G, E, N> as Run>⟧.may self.old) result (⟦<ConcatenatedRun<O, F, G, E, N> as Run>⟧.may self.new) }
        ensures approaches { AsksApproach (⟦<ConcatenatedRun<O, F, G, E, N> as Run>⟧.polls self.old) result
            (⟦<ConcatenatedRun<O, F, G, E, N> as Run>⟧.polls self.new) }
        ensures same { (self.new.ended ≡ self.old.ended) × (self.new.function ≡ self.old.function) }
        ensures stops { OnEnd result (IsTrue (standing_stopped F.Running.stopped self.new.inner)) }
        ensures waits { OnPending result (StandingWaited O.polled F.Running.polled self.new.outer self.new.inner) }
        ensures armed { OnPending result (IsArmed cx.new) }
        ensures kept { Keeps cx.old cx.new }
    {
        match &mut self.inner {
            Some(inner) => match inner.poll_next(cx) {
                Poll::Ready(Event::Value(value)) => Poll::Ready(Some(Event::Value(value))),
                Poll::Ready(Event::End(cause)) => {
                    if let Cause::Finished = cause {
                        self.inner = None;
                        return Poll::Ready(None);
                    }
                    Poll::Ready(Some(Event::End(cause)))
                }
                Poll::Pending => Poll::Pending,
            },
            None => match self.outer.poll_next(cx) {
                Poll::Ready(Event::Value(value)) => match self.function.apply(value).start() {
                    Ok(run) => {
                        self.inner = Some(run);
                        Poll::Ready(None)
                    }
                    Err(refusal) => Poll::Ready(Some(Event::End(Cause::Refused(refusal)))),
                },
                Poll::Ready(Event::End(cause)) => Poll::Ready(Some(Event::End(cause))),
                Poll::Pending => Poll::Pending,
            },
        }
    }
}

impl<
    B: Copy,
    E: Copy,
    S: Flow<Fault = E>,
    F: Flow<Item = B, Fault = E>,
    G: Apply<S::Item, Out = F>,
    N: Bound,
> Flow for Concatenated<S, F, G, N> {
    ghost use Rattle.flow_merge.specs.ConcatLaws.{concat_uncancelled};

    type Item = B;

    type Fault = E;

    type Running = ConcatenatedRun<S::Running, F, G, E, N>;

    ghost may = { λ f. MayConcat (λ x. F.starts (G.gives f.function x)) (λ x. F.may (G.gives f.function x)) F.Running.may None (S.may f.outer) };

    ghost polls = { λ f. count_add (rounds (S.polls f.outer) N.most) (at_most 0) };

    ghost starts = { λ f. S.starts f.outer };

    fn start(&self) -> Result<ConcatenatedRun<S::Running, F, G, E, N>, Refusal> {
        Ok(ConcatenatedRun {
            outer: self.outer.start()?,
            function: self.function,
            bound: PhantomData,
            inner: None,
            ended: None,
        })
    }

    ghost uncancelled = { λ f. concat_uncancelled _ (λ x. F.uncancelled (G.gives f.function x)) (λ x. F.starts (G.gives f.function x)) F.Running.may
        (S.may f.outer) (S.uncancelled f.outer) };
}

impl<
    B: Copy,
    E: Copy,
    O: Run<Fault = E>,
    F: Flow<Item = B, Fault = E>,
    G: Apply<O::Item, Out = F>,
    N: Bound,
> Run for ConcatenatedRun<O, F, G, E, N> {
    ghost use Rattle.cold_flow.specs.Laws.{Unless-begins, Unless-over};
    ghost use Rattle.flow_merge.specs.ConcatLaws.{concat_begins};

    type Item = B;

    type Fault = E;

    ghost may = { λ r. Unless r.ended (MayConcat (λ x. F.starts (G.gives r.function x)) (λ x. F.may (G.gives r.function x)) F.Running.may
        r.inner (O.may r.outer)) };

    ghost ended = { λ r. r.ended };

    ghost stopped = { λ r. O.stopped r.outer && standing_stopped F.Running.stopped r.inner };

    ghost polls = { λ r. count_add (rounds (O.polls r.outer) N.most) (standing_polls F.Running.polls r.inner) };

    // Pending only where the run that is to be asked answered so, or 64 answers gave nothing.
    ghost polled = { λ old answer new. OnPending answer (StandingWaited O.polled F.Running.polled new.outer new.inner
        ⊎ IsNearer 64 (count_add (rounds (O.polls old.outer) N.most) (standing_polls F.Running.polls old.inner))
        (count_add (rounds (O.polls new.outer) N.most) (standing_polls F.Running.polls new.inner)))
        × Rests old.ended old.outer new.outer × Rests old.ended old.inner new.inner };

    // Inlined, so that a chain of operators becomes one loop.
    #[inline(always)]
    fn poll_next(&mut self, cx: &mut Context<'_>) -> Poll<Event<B, E>> {
        if let Some(cause) = self.ended {
            return Poll::Ready(Event::End(cause));
        }
        for _asked in 0..BUDGET {
            match self.ask(cx) {
                Poll::Ready(Some(Event::Value(value))) => return Poll::Ready(Event::Value(value)),
                Poll::Ready(Some(Event::End(cause))) => {
                    self.outer.cancel();
                    self.ended = Some(cause);
                    return Poll::Ready(Event::End(cause));
                }
                Poll::Ready(None) => {}
                Poll::Pending => return Poll::Pending,
            }
        }
        cx.yield_now()
    }

    fn end(&self) -> Option<Cause<E>> {
        self.ended
    }

    fn cancel(&mut self) {
        self.outer.cancel();
        if let Some(inner) = &mut self.inner {
            inner.cancel();
        }
        if self.ended.is_none() {
            self.ended = Some(Cause::Cancelled);
        }
    }

    ghost halts = { λ r. r.stopped };

    ghost begins = { λ r. Unless-begins r.ended _ (concat_begins _ _ _ r.inner _ F.Running.begins (O.begins r.outer)) };

    ghost over = { λ r. Unless-over r.ended _ };
}

impl<
    B: Copy,
    E: Copy,
    O: Finite<Fault = E>,
    F: Flow<Item = B, Fault = E>,
    G: Apply<O::Item, Out = F>,
    N: KnownBound,
> Finite for ConcatenatedRun<O, F, G, E, N>
where
    F::Running: Finite,
{
    ghost use Rattle.flow_merge.specs.Counting.{rounds_finite};

    ghost is_finite = { λ r. rounds_finite (O.polls r.outer) N.most F.Running.polls (O.Finite.is_finite r.outer) N.known F.Running.Finite.is_finite r.inner };
}

impl<
    B: Copy,
    E: Copy,
    S: Flow<Fault = E>,
    F: Flow<Item = B, Fault = E>,
    G: Apply<S::Item, Out = F>,
> Concatenated<S, F, G, Unbounded> {
    ghost use Rattle.flow_merge.specs.Views.{outer_of, function_of};

    /// The same flow, of which it is known that no inner run takes more polls than `N` says: over sources that end within a number of polls
    /// its runs do so too. The call itself does nothing.
    pub fn within<N: Bound>(self) -> Concatenated<S, F, G, N>
        requires { (x : _) → IsWithinPolls N.most (F.polls (G.gives (function_of self) x)) }
        ensures gives { Within (⟦<Concatenated<S, F, G, Unbounded> as Flow>⟧.may self) (⟦<Concatenated<S, F, G, N> as Flow>⟧.may result) }
        ensures lasts { IsWithinPolls (count_add (rounds (S.polls (outer_of self)) N.most) (at_most 0)) (⟦<Concatenated<S, F, G, N> as Flow>⟧.polls result) }
        ensures starts { IsTrue (S.starts (outer_of self)) → IsTrue (⟦<Concatenated<S, F, G, N> as Flow>⟧.starts result) }
    {
        Concatenated {
            outer: self.outer,
            function: self.function,
            bound: PhantomData,
        }
    }
}
