//! `map`: a function of each value.

ghost use Rattle.std.specs.Prelude.{IsTrue};
ghost use Rattle.futures.specs.Poll.{OnPending};
ghost use Rattle.futures.specs.declared.task.Poll.TheVariants.{Pending};
ghost use Rattle.cold_flow.specs.Trace.{map_trace};
ghost use Rattle.cold_flow.specs.Poll.{Through, Makes, MakesExactly, IsWithinPolls, Unless};
ghost use Rattle.cold_flow.specs.Polled.{Rests};
ghost use Rattle.cold_flow.specs.Laws.{Through-begins, Through-fixed, Unless-begins, Unless-over, map-monotone};

use crate::apply::Apply;
use crate::cause::Cause;
use crate::event::Event;
use crate::flow::Flow;
use crate::run::{Finite, Run};
use flow_terms::Refusal;
use futures::task::{Context, Poll};

/// The flow of `map`, and its run over a run of the source.
#[derive(Drop)]
pub struct Mapped<S, G> {
    source: S,
    function: G,
}

/// `function` of each value of `source`: Kotlin's `map`.
///
/// Any end of the source passes, a failure too. Cancelled, it cancels the source and ends by `Cause::Cancelled`.
pub fn map<F: Flow, U: Copy, G: Apply<F::Item, Out = U>>(source: F, function: G) -> Mapped<F, G>
    ensures gives { Makes (map_trace (G.gives function)) (F.may source) (⟦<Mapped<F, G> as Flow>⟧.may result) }
    ensures exact { MakesExactly (map_trace (G.gives function)) (F.may source) (⟦<Mapped<F, G> as Flow>⟧.may result) }
    ensures lasts { IsWithinPolls (F.polls source) (⟦<Mapped<F, G> as Flow>⟧.polls result) }
    ensures prompt { IsTrue (F.prompt source) → IsTrue (⟦<Mapped<F, G> as Flow>⟧.prompt result) }
    ensures starts { IsTrue (F.starts source) → IsTrue (⟦<Mapped<F, G> as Flow>⟧.starts result) }
{
    Mapped { source, function }
}

impl<U: Copy, F: Flow, G: Apply<F::Item, Out = U>> Flow for Mapped<F, G> {
    ghost use Rattle.cold_flow.specs.Laws.{Through-uncancelled};

    type Item = U;

    type Fault = F::Fault;

    type Running = Mapped<F::Running, G>;

    ghost may = { λ f. Through (map_trace (G.gives f.function)) (F.may f.source) };

    ghost polls = { λ f. F.polls f.source };

    ghost prompt = { λ f. F.prompt f.source };

    ghost starts = { λ f. F.starts f.source };

    fn start(&self) -> Result<Mapped<F::Running, G>, Refusal> {
        Ok(Mapped {
            source: self.source.start()?,
            function: self.function,
        })
    }

    ghost uncancelled = { λ f. Through-uncancelled _ _ (λ _ _ e. e) (F.uncancelled f.source) };
}

impl<U: Copy, S: Run, G: Apply<S::Item, Out = U>> Run for Mapped<S, G> {
    type Item = U;

    type Fault = S::Fault;

    ghost may = { λ r. Unless (S.ended r.source) (Through (map_trace (G.gives r.function)) (S.may r.source)) };

    ghost ended = { λ r. S.ended r.source };

    ghost stopped = { λ r. S.stopped r.source };

    ghost prompt = { λ r. S.prompt r.source };

    ghost polls = { λ r. S.polls r.source };

    ghost polled = { λ old answer new. OnPending answer (S.polled old.source Pending new.source)
        × Rests (S.ended old.source) old.source new.source };

    fn poll_next(&mut self, cx: &mut Context<'_>) -> Poll<Event<U, S::Fault>> {
        if let Some(cause) = self.source.end() {
            return Poll::Ready(Event::End(cause));
        }
        match self.source.poll_next(cx) {
            Poll::Ready(Event::Value(value)) => {
                Poll::Ready(Event::Value(self.function.apply(value)))
            }
            Poll::Ready(Event::End(cause)) => Poll::Ready(Event::End(cause)),
            Poll::Pending => Poll::Pending,
        }
    }

    fn end(&self) -> Option<Cause<S::Fault>> {
        self.source.end()
    }

    fn cancel(&mut self) {
        self.source.cancel();
    }

    ghost halts = { λ r. S.halts r.source };

    ghost begins = { λ r. Unless-begins (S.ended r.source) _ (Through-begins _ _ (S.begins r.source)) };

    ghost over = { λ r. Unless-over (S.ended r.source) _ };
}

impl<U: Copy, S: Finite, G: Apply<S::Item, Out = U>> Finite for Mapped<S, G> {
    ghost is_finite = { λ r. S.Finite.is_finite r.source };
}
