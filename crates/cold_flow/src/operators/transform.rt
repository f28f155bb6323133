//! `transform`: up to four values for each value.

ghost use Rattle.std.specs.Prelude.{◌⊎◌, ◌+◌, ◌*◌, IsTrue};
ghost use Rattle.std.specs.Iterator.{count_map};
ghost use Rattle.futures.specs.Poll.{OnPending};
ghost use Rattle.cold_flow.specs.Polled.{HasWaited, IsNearer, Rests};
ghost use Rattle.flow_terms.specs.declared.few.Few.TheVariants.{Zero};
ghost use Rattle.cold_flow.specs.Poll.{Through, Makes, MakesExactly, IsWithinPolls, Unless};
ghost use Rattle.flow_terms.specs.Few.{few_len};
ghost use Rattle.cold_flow.specs.Transform.{held_then, transform_trace};

use crate::apply::Apply;
use crate::cause::Cause;
use crate::event::Event;
use crate::flow::Flow;
use crate::run::{BUDGET, Finite, Run};
use flow_terms::{Few, Refusal};
use futures::task::{Context, Poll};

/// The flow of `transform`.
#[derive(Drop)]
pub struct Transformed<F, G> {
    source: F,
    function: G,
}

/// The values that `function` answers for each value of `source`, joined in order: Kotlin's `transform`, with at most four
/// `emit` calls for each value.
///
/// They come one a poll; the source is asked when none is held. After 64 answers without values a poll yields. Any end of the
/// source passes, a failure too, after the values before it. Cancelled, it cancels the source, gives up the values that it holds,
/// and ends by `Cause::Cancelled`.
pub fn transform<F: Flow, U: Copy, G: Apply<F::Item, Out = Few<U>>>(
    source: F,
    function: G,
) -> Transformed<F, G>
    ensures gives { Makes (transform_trace (G.gives function)) (F.may source) (⟦<Transformed<F, G> as Flow>⟧.may result) }
    ensures exact { MakesExactly (transform_trace (G.gives function)) (F.may source) (⟦<Transformed<F, G> as Flow>⟧.may result) }
    ensures lasts { IsWithinPolls (count_map (λ n. 4 * n) (F.polls source)) (⟦<Transformed<F, G> as Flow>⟧.polls result) }
    ensures starts { IsTrue (F.starts source) → IsTrue (⟦<Transformed<F, G> as Flow>⟧.starts result) }
{
    Transformed { source, function }
}

impl<U: Copy, F: Flow, G: Apply<F::Item, Out = Few<U>>> Flow for Transformed<F, G> {
    ghost use Rattle.cold_flow.specs.Laws.{Through-uncancelled};

    type Item = U;

    type Fault = F::Fault;

    type Running = TransformedRun<F::Running, G, U>;

    ghost may = { λ f. Through (transform_trace (G.gives f.function)) (F.may f.source) };

    ghost polls = { λ f. count_map (λ n. 4 * n) (F.polls f.source) };

    ghost starts = { λ f. F.starts f.source };

    fn start(&self) -> Result<TransformedRun<F::Running, G, U>, Refusal> {
        Ok(TransformedRun {
            source: self.source.start()?,
            function: self.function,
            held: Few::Zero,
        })
    }

    ghost uncancelled = { λ f. Through-uncancelled _ _ (λ _ _ e. e) (F.uncancelled f.source) };
}

/// The run of `transform`.
#[derive(Drop)]
pub struct TransformedRun<S, G, U> {
    source: S,
    function: G,
    // What was answered for the source's last value and not yet given.
    held: Few<U>,
}

impl<U: Copy, S: Run, G: Apply<S::Item, Out = Few<U>>> Run for TransformedRun<S, G, U> {
    ghost use Rattle.cold_flow.specs.Laws.{Through-begins, Unless-begins, Unless-over};

    type Item = U;

    type Fault = S::Fault;

    ghost may = { λ r. Unless (S.ended r.source) (Through (held_then (G.gives r.function) r.held) (S.may r.source)) };

    ghost ended = { λ r. S.ended r.source };

    ghost stopped = { λ r. S.stopped r.source };

    ghost polls = { λ r. count_map (λ n. 4 * n + few_len r.held) (S.polls r.source) };

    // Pending only where the source answered so, or 64 of its values gave nothing.
    ghost polled = { λ old answer new. OnPending answer (HasWaited S.polled new.source
        ⊎ IsNearer 64 (S.polls old.source) (S.polls new.source)) × Rests (S.ended old.source) old.source new.source };

    fn poll_next(&mut self, cx: &mut Context<'_>) -> Poll<Event<U, S::Fault>> {
        if let Some(cause) = self.source.end() {
            return Poll::Ready(Event::End(cause));
        }
        if let Some((value, rest)) = self.held.split_first() {
            self.held = rest;
            return Poll::Ready(Event::Value(value));
        }
        for _asked in 0..BUDGET {
            match self.source.poll_next(cx) {
                Poll::Ready(Event::Value(value)) => {
                    if let Some((first, rest)) = self.function.apply(value).split_first() {
                        self.held = rest;
                        return Poll::Ready(Event::Value(first));
                    }
                }
                Poll::Ready(Event::End(cause)) => return Poll::Ready(Event::End(cause)),
                Poll::Pending => return Poll::Pending,
            }
        }
        cx.yield_now()
    }

    fn end(&self) -> Option<Cause<S::Fault>> {
        self.source.end()
    }

    fn cancel(&mut self) {
        self.source.cancel();
        self.held = Few::Zero;
    }

    ghost halts = { λ r. S.halts r.source };

    ghost begins = { λ r. Unless-begins (S.ended r.source) _ (Through-begins _ _ (S.begins r.source)) };

    ghost over = { λ r. Unless-over (S.ended r.source) _ };
}

impl<U: Copy, S: Finite, G: Apply<S::Item, Out = Few<U>>> Finite for TransformedRun<S, G, U> {
    ghost is_finite = { λ r. S.Finite.is_finite r.source };
}
