//! `scan`: the states that a function goes through.

ghost use Rattle.std.specs.Prelude.{◌≡◌, true, false, not, IsTrue};
ghost use Rattle.std.specs.Iterator.{count_map};
ghost use Rattle.futures.specs.Poll.{OnPending};
ghost use Rattle.futures.specs.declared.task.Poll.TheVariants.{Pending};
ghost use Rattle.cold_flow.specs.Poll.{Through, Makes, MakesExactly, IsWithinPolls, Unless};
ghost use Rattle.cold_flow.specs.Polled.{Rests};
ghost use Rattle.more_operators.specs.Scan.{scan_trace, scan_from, polls_from};

use cold_flow::{Apply, Cause, Event, Finite, Flow, Refusal, Run};
use futures::task::{Context, Poll};

/// The flow of `scan`.
#[derive(Drop)]
pub struct Scanned<F, A, G> {
    source: F,
    first: A,
    function: G,
}

/// `first`, and then what `function` makes of the state before and of each value: Kotlin's `scan`.
///
/// The first poll gives `first`, and asks nothing. Any end of the source passes, a failure too. Cancelled, it cancels the source and
/// ends by `Cause::Cancelled`.
pub fn scan<F: Flow, A: Copy, G: Apply<(A, F::Item), Out = A>>(
    source: F,
    first: A,
    function: G,
) -> Scanned<F, A, G>
    ensures gives { Makes (scan_trace (G.gives function) first) (F.may source) (⟦<Scanned<F, A, G> as Flow>⟧.may result) }
    ensures exact { MakesExactly (scan_trace (G.gives function) first) (F.may source)
        (⟦<Scanned<F, A, G> as Flow>⟧.may result) }
    ensures lasts { IsWithinPolls (count_map (polls_from true) (F.polls source)) (⟦<Scanned<F, A, G> as Flow>⟧.polls result) }
    ensures prompt { IsTrue (F.prompt source) → IsTrue (⟦<Scanned<F, A, G> as Flow>⟧.prompt result) }
    ensures starts { IsTrue (F.starts source) → IsTrue (⟦<Scanned<F, A, G> as Flow>⟧.starts result) }
{
    Scanned {
        source,
        first,
        function,
    }
}

impl<A: Copy, F: Flow, G: Apply<(A, F::Item), Out = A>> Flow for Scanned<F, A, G> {
    ghost use Rattle.cold_flow.specs.Laws.{Through-uncancelled};

    type Item = A;

    type Fault = F::Fault;

    type Running = ScannedRun<F::Running, A, G>;

    ghost may = { λ f. Through (scan_trace (G.gives f.function) f.first) (F.may f.source) };

    ghost polls = { λ f. count_map (polls_from true) (F.polls f.source) };

    ghost prompt = { λ f. F.prompt f.source };

    ghost starts = { λ f. F.starts f.source };

    fn start(&self) -> Result<ScannedRun<F::Running, A, G>, Refusal> {
        Ok(ScannedRun {
            source: self.source.start()?,
            state: self.first,
            function: self.function,
            has_begun: false,
        })
    }

    ghost uncancelled = { λ f. Through-uncancelled _ _ (λ _ _ e. e) (F.uncancelled f.source) };
}

/// The run of `scan`.
#[derive(Drop)]
pub struct ScannedRun<S, A, G> {
    source: S,
    // The state that was given last, or the first one.
    state: A,
    function: G,
    // Whether the first state was given.
    has_begun: bool,
}

impl<A: Copy, S: Run, G: Apply<(A, S::Item), Out = A>> Run for ScannedRun<S, A, G> {
    ghost use Rattle.cold_flow.specs.Laws.{Through-begins, Unless-begins, Unless-over};

    type Item = A;

    type Fault = S::Fault;

    ghost may = { λ r. Unless (S.ended r.source)
        (Through (scan_from (G.gives r.function) (not r.has_begun) r.state) (S.may r.source)) };

    ghost ended = { λ r. S.ended r.source };

    ghost stopped = { λ r. S.stopped r.source };

    ghost polls = { λ r. count_map (polls_from (not r.has_begun)) (S.polls r.source) };

    ghost prompt = { λ r. S.prompt r.source };

    // The first state is given, and an end again, without a question to the source.
    ghost polled = { λ old answer new. OnPending answer (S.polled old.source Pending new.source)
        × (old.has_begun ≡ false → new.source ≡ old.source) × Rests (S.ended old.source) old.source new.source };

    // Inlined, so that a chain of operators becomes one loop.
    #[inline(always)]
    fn poll_next(&mut self, cx: &mut Context<'_>) -> Poll<Event<A, S::Fault>> {
        if let Some(cause) = self.source.end() {
            return Poll::Ready(Event::End(cause));
        }
        if !self.has_begun {
            self.has_begun = true;
            return Poll::Ready(Event::Value(self.state));
        }
        let value = match self.source.poll_next(cx) {
            Poll::Ready(Event::Value(value)) => value,
            Poll::Ready(Event::End(cause)) => return Poll::Ready(Event::End(cause)),
            Poll::Pending => return Poll::Pending,
        };
        self.state = self.function.apply((self.state, value));
        Poll::Ready(Event::Value(self.state))
    }

    #[inline(always)]
    fn end(&self) -> Option<Cause<S::Fault>> {
        self.source.end()
    }

    fn cancel(&mut self) {
        self.source.cancel();
    }

    ghost halts = { λ r. S.halts r.source };

    ghost begins = { λ r. Unless-begins (S.ended r.source) _ (Through-begins _ _ (S.begins r.source)) };

    ghost over = { λ r. Unless-over (S.ended r.source) _ };
}

impl<A: Copy, S: Finite, G: Apply<(A, S::Item), Out = A>> Finite for ScannedRun<S, A, G> {
    ghost is_finite = { λ r. S.Finite.is_finite r.source };
}
