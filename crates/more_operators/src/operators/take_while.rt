//! `take_while`: the values before the first that fails a test.

ghost use Rattle.std.specs.Prelude.{◌≡◌, ◌||◌, None, IsSome, IsTrue, is_some};
ghost use Rattle.futures.specs.Poll.{OnPending};
ghost use Rattle.futures.specs.declared.task.Poll.TheVariants.{Pending};
ghost use Rattle.cold_flow.specs.Poll.{Through, Makes, MakesExactly, IsWithinPolls, Unless, end_of};
ghost use Rattle.cold_flow.specs.Polled.{Rests};
ghost use Rattle.more_operators.specs.While.{while_trace};

use cold_flow::{Apply, Cause, Event, Finite, Flow, Refusal, Run};
use futures::task::{Context, Poll};

/// The flow of `take_while`.
#[derive(Drop)]
pub struct Passing<F, G> {
    source: F,
    test: G,
}

/// The values of `source` before the first that `test` answers false, and then `Cause::Finished`: Kotlin's `takeWhile`.
///
/// With that value the source is cancelled. Where the source ends before, its end passes. Cancelled, it cancels the source and ends by
/// `Cause::Cancelled`.
pub fn take_while<F: Flow, G: Apply<F::Item, Out = bool>>(source: F, test: G) -> Passing<F, G>
    ensures gives { Makes (while_trace (G.gives test)) (F.may source) (⟦<Passing<F, G> as Flow>⟧.may result) }
    ensures exact { MakesExactly (while_trace (G.gives test)) (F.may source) (⟦<Passing<F, G> as Flow>⟧.may result) }
    ensures lasts { IsWithinPolls (F.polls source) (⟦<Passing<F, G> as Flow>⟧.polls result) }
    ensures prompt { IsTrue (F.prompt source) → IsTrue (⟦<Passing<F, G> as Flow>⟧.prompt result) }
    ensures starts { IsTrue (F.starts source) → IsTrue (⟦<Passing<F, G> as Flow>⟧.starts result) }
{
    Passing { source, test }
}

impl<F: Flow, G: Apply<F::Item, Out = bool>> Flow for Passing<F, G> {
    ghost use Rattle.cold_flow.specs.Laws.{Through-uncancelled};
    ghost use Rattle.more_operators.specs.While.{while-cause};

    type Item = F::Item;

    type Fault = F::Fault;

    type Running = PassingRun<F::Running, G, F::Fault>;

    ghost may = { λ f. Through (while_trace (G.gives f.test)) (F.may f.source) };

    ghost polls = { λ f. F.polls f.source };

    ghost prompt = { λ f. F.prompt f.source };

    ghost starts = { λ f. F.starts f.source };

    fn start(&self) -> Result<PassingRun<F::Running, G, F::Fault>, Refusal> {
        Ok(PassingRun {
            source: self.source.start()?,
            test: self.test,
            ended: None,
        })
    }

    ghost uncancelled = { λ f. Through-uncancelled _ _ (while-cause (G.gives f.test)) (F.uncancelled f.source) };
}

/// The run of `take_while`.
#[derive(Drop)]
pub struct PassingRun<S, G, E> {
    source: S,
    test: G,
    ended: Option<Cause<E>>,
}

impl<E: Copy, S: Run<Fault = E>, G: Apply<S::Item, Out = bool>> Run for PassingRun<S, G, E> {
    ghost use Rattle.cold_flow.specs.Laws.{Through-begins, Unless-begins, Unless-over, some-stops};

    type Item = S::Item;

    type Fault = E;

    ghost may = { λ r. Unless r.ended (Through (while_trace (G.gives r.test)) (S.may r.source)) };

    ghost ended = { λ r. r.ended };

    ghost stopped = { λ r. is_some r.ended };

    ghost polls = { λ r. S.polls r.source };

    ghost prompt = { λ r. is_some r.ended || S.prompt r.source };

    // With the end, and with a cancellation, the source has stopped.
    ghost polled = { λ old answer new. OnPending answer (S.polled old.source Pending new.source)
        × Rests old.ended old.source new.source × (old.ended ≡ None → IsSome (end_of answer) → IsTrue (S.stopped new.source)) };

    ghost cancelled = { λ _ new. IsTrue (S.stopped new.source) };

    // Inlined, so that a chain of operators becomes one loop.
    #[inline(always)]
    fn poll_next(&mut self, cx: &mut Context<'_>) -> Poll<Event<S::Item, E>> {
        if let Some(cause) = self.ended {
            return Poll::Ready(Event::End(cause));
        }
        match self.source.poll_next(cx) {
            Poll::Ready(Event::Value(value)) => {
                if self.test.apply(value) {
                    return Poll::Ready(Event::Value(value));
                }
                self.source.cancel();
                self.ended = Some(Cause::Finished);
                Poll::Ready(Event::End(Cause::Finished))
            }
            Poll::Ready(Event::End(cause)) => {
                self.ended = Some(cause);
                Poll::Ready(Event::End(cause))
            }
            Poll::Pending => Poll::Pending,
        }
    }

    #[inline(always)]
    fn end(&self) -> Option<Cause<E>> {
        self.ended
    }

    fn cancel(&mut self) {
        self.source.cancel();
        if self.ended.is_none() {
            self.ended = Some(Cause::Cancelled);
        }
    }

    ghost halts = { λ r. some-stops r.ended };

    ghost begins = { λ r. Unless-begins r.ended _ (Through-begins _ _ (S.begins r.source)) };

    ghost over = { λ r. Unless-over r.ended _ };
}

impl<E: Copy, S: Finite<Fault = E>, G: Apply<S::Item, Out = bool>> Finite for PassingRun<S, G, E> {
    ghost is_finite = { λ r. S.Finite.is_finite r.source };
}
