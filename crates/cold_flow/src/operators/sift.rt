//! What `filter`, `drop_first` and `distinct` have in common: each value of the source passes or is left out.

ghost use Rattle.std.specs.Prelude.{◌⊎◌, ◌≡◌, List, [], ◌∷◌, Option, IsTrue};
ghost use Rattle.std.specs.List.{cons_option};
ghost use Rattle.futures.specs.Poll.{OnPending};
ghost use Rattle.cold_flow.specs.Passing.{PassesOn};
ghost use Rattle.cold_flow.specs.Polled.{HasWaited, IsNearer, Rests};
ghost use Rattle.cold_flow.specs.Trace.{on_values};
ghost use Rattle.cold_flow.specs.Poll.{Through, Makes, MakesExactly, IsWithinPolls, Unless};
ghost use Rattle.cold_flow.specs.Laws.{Through-begins, Unless-begins, Unless-over};

use crate::cause::Cause;
use crate::event::Event;
use crate::flow::Flow;
use crate::run::{BUDGET, Finite, Run};
use flow_terms::Refusal;
use futures::task::{Context, Poll};

/// Which values an operator passes on, and as what.
///
/// A `Flow` needs one that is `Copy` too, since each start takes one of its own.
pub trait Sift<T>: Drop {
    /// What passes.
    type Out: Copy;

    // What becomes of the values to come.
    ghost passes: { Self → List T → List Self.Out };

    // What becomes of the next value.
    ghost keeps: { Self → T → Option Self.Out };

    // How it goes on after the next value.
    ghost after: { Self → T → Self };

    /// What passes of the next value of the source, if anything.
    fn sift(&mut self, value: T) -> Option<Self::Out>
        ensures keeps { result ≡ keeps self.old value }
        ensures after { self.new ≡ after self.old value };

    ghost none: { (s : Self) → passes s [] ≡ [] };

    ghost step: { (s : Self) (x : T) (xs : List T) → passes s (x ∷ xs) ≡ cons_option (keeps s x) (passes (after s x) xs) };
}

/// The flow of an operator that passes values on or leaves them out, and its run over a run of the source.
#[derive(Drop)]
pub struct Sifted<S, M> {
    source: S,
    sift: M,
}

impl<F: Flow, M: Sift<F::Item> + Copy> Sifted<F, M> {
    /// What `sift` passes of each value of `source`.
    pub fn new(source: F, sift: M) -> Sifted<F, M>
        ensures gives { Makes (on_values (M.passes sift)) (F.may source) (⟦<Sifted<F, M> as Flow>⟧.may result) }
        ensures exact { MakesExactly (on_values (M.passes sift)) (F.may source) (⟦<Sifted<F, M> as Flow>⟧.may result) }
        ensures lasts { IsWithinPolls (F.polls source) (⟦<Sifted<F, M> as Flow>⟧.polls result) }
        ensures starts { IsTrue (F.starts source) → IsTrue (⟦<Sifted<F, M> as Flow>⟧.starts result) }
    {
        Sifted { source, sift }
    }
}

impl<F: Flow, M: Sift<F::Item> + Copy> Flow for Sifted<F, M> {
    ghost use Rattle.cold_flow.specs.Laws.{Through-uncancelled};

    type Item = M::Out;

    type Fault = F::Fault;

    type Running = Sifted<F::Running, M>;

    ghost may = { λ f. Through (on_values (M.passes f.sift)) (F.may f.source) };

    ghost polls = { λ f. F.polls f.source };

    ghost starts = { λ f. F.starts f.source };

    fn start(&self) -> Result<Sifted<F::Running, M>, Refusal> {
        Ok(Sifted {
            source: self.source.start()?,
            sift: self.sift,
        })
    }

    ghost uncancelled = { λ f. Through-uncancelled _ _ (λ _ _ e. e) (F.uncancelled f.source) };
}

impl<S: Run, M: Sift<S::Item>> Sifted<S, M> {
    /// What `sift` passes of each value of the run `source` from now on.
    pub fn over_run(source: S, sift: M) -> Sifted<S, M>
        ensures { (result.source ≡ source) × (result.sift ≡ sift) }
    {
        Sifted { source, sift }
    }
}

impl<S: Run, M: Sift<S::Item>> Run for Sifted<S, M> {
    type Item = M::Out;

    type Fault = S::Fault;

    ghost may = { λ r. Unless (S.ended r.source) (Through (on_values (M.passes r.sift)) (S.may r.source)) };

    ghost ended = { λ r. S.ended r.source };

    ghost stopped = { λ r. S.stopped r.source };

    ghost polls = { λ r. S.polls r.source };

    // The answer is what passes of the values that the source gave in this poll. Pending only where the source answered so, or 64 of
    // its values gave nothing.
    ghost polled = { λ old answer new. PassesOn S.polled M.passes old.sift old.source answer new.sift new.source
        × OnPending answer (HasWaited S.polled new.source ⊎ IsNearer 64 (S.polls old.source) (S.polls new.source))
        × Rests (S.ended old.source) old.source new.source };

    ghost cancelled = { λ old new. S.cancelled old.source new.source × (new.sift ≡ old.sift) };

    // Inlined, so that a chain of operators becomes one loop.
    #[inline(always)]
    fn poll_next(&mut self, cx: &mut Context<'_>) -> Poll<Event<M::Out, S::Fault>> {
        if let Some(cause) = self.source.end() {
            return Poll::Ready(Event::End(cause));
        }
        for _asked in 0..BUDGET {
            let value = match self.source.poll_next(cx) {
                Poll::Ready(Event::Value(value)) => value,
                Poll::Ready(Event::End(cause)) => return Poll::Ready(Event::End(cause)),
                Poll::Pending => return Poll::Pending,
            };
            if let Some(kept) = self.sift.sift(value) {
                return Poll::Ready(Event::Value(kept));
            }
        }
        cx.yield_now()
    }

    #[inline(always)]
    fn end(&self) -> Option<Cause<S::Fault>> {
        self.source.end()
    }

    fn cancel(&mut self) {
        self.source.cancel();
    }

    ghost halts = { λ r. S.halts r.source };

    ghost begins = { λ r. Unless-begins (S.ended r.source) _ (Through-begins _ _ (S.begins r.source)) };

    ghost over = { λ r. Unless-over (S.ended r.source) _ };
}

impl<S: Finite, M: Sift<S::Item>> Finite for Sifted<S, M> {
    ghost is_finite = { λ r. S.Finite.is_finite r.source };
}
