//! `retry`: another run after a failure.

ghost use Rattle.std.specs.Prelude.{◌≡◌, ◌⊎◌, ◌+◌, ◌<◌, ◌≤◌, IsTrue, is_some, ⊤};
ghost use Rattle.std.specs.Iterator.{IsFinite};
ghost use Rattle.futures.specs.Poll.{OnPending};
ghost use Rattle.futures.specs.declared.task.Poll.TheVariants.{Pending};
ghost use Rattle.cold_flow.specs.Poll.{MakesExactly, Within, IsWithinPolls, Unless};
ghost use Rattle.cold_flow.specs.Polled.{Rests};
ghost use Rattle.more_operators.specs.Retry.{MayRetry, RetriesExactly, retried, by_attempt, is_retried, retried_polls};

use crate::operators::again::Again;
use cold_flow::{Apply, Cause, Event, Finite, Flow, Listed, Refusal, Run};
use futures::task::{Context, Poll};
use std::alloc::AllocError;

/// The flow of `retry` and `retry_when`.
#[derive(Drop)]
pub struct Retried<F, G> {
    pub(crate) source: F,
    pub(crate) times: u32,
    // Whether a run follows this fault, where so many followed before.
    pub(crate) test: G,
}

/// The values of `source`, which is started anew after a failure, while `test` answers true of its fault, and at most `times` times:
/// Kotlin's `retry`.
///
/// Lend the flow, as `retry(&flow, 2, test)`: each run starts it again. What was given before a failure isn't taken back. A failure
/// after which it isn't started passes, and so does any other end. A start that is refused ends it by `Cause::Refused`. Cancelled, it
/// cancels the run that stands and ends by `Cause::Cancelled`.
pub fn retry<F: Flow + Copy, G: Apply<F::Fault, Out = bool>>(
    source: F,
    times: u32,
    test: G,
) -> Retried<F, Regardless<G>>
    ensures gives { Within (MayRetry (λ _. G.gives test) (F.starts source) (F.may source) times (F.may source))
        (⟦<Retried<F, Regardless<G>> as Flow>⟧.may result) }
    ensures exact { RetriesExactly (G.gives test) times (F.may source) (⟦<Retried<F, Regardless<G>> as Flow>⟧.may result) }

    // Where no start can be refused, it is fixed whole.
    ensures fixed { IsTrue (F.starts source) → MakesExactly (retried (G.gives test) times) (F.may source) (⟦<Retried<F, Regardless<G>> as Flow>⟧.may result) }
    ensures lasts { IsWithinPolls (retried_polls times (F.polls source) (F.polls source)) (⟦<Retried<F, Regardless<G>> as Flow>⟧.polls result) }
    ensures starts { IsTrue (F.starts source) → IsTrue (⟦<Retried<F, Regardless<G>> as Flow>⟧.starts result) }
{
    Retried {
        source,
        times,
        test: Regardless { test },
    }
}

/// What a test answers of a fault, however many runs followed before.
#[derive(Copy)]
pub struct Regardless<G> {
    test: G,
}

impl<G: Copy> Clone for Regardless<G> {
    ghost is_clone = { λ value copy. copy ≡ value };

    ghost is_infallible = { λ _. ⊤ };

    fn clone(&self) -> Result<Self, AllocError> {
        Ok(*self)
    }
}

impl<E: Copy, G: Apply<E, Out = bool>> Again<E> for Regardless<G> {
    ghost follows = { λ s fault _. G.gives s.test fault };

    fn is_followed(&self, fault: E, _before: u32) -> bool {
        self.test.apply(fault)
    }
}

impl<F: Flow + Copy, G: Again<F::Fault>> Flow for Retried<F, G> {
    ghost use Rattle.more_operators.specs.RetryLaws.{retry-uncancelled};

    type Item = F::Item;

    type Fault = F::Fault;

    type Running = RetriedRun<F, G, F::Fault>;

    ghost may = { λ f. MayRetry (by_attempt (G.follows f.test) f.times) (F.starts f.source) (F.may f.source) f.times (F.may f.source) };

    ghost polls = { λ f. retried_polls f.times (F.polls f.source) (F.polls f.source) };

    ghost starts = { λ f. F.starts f.source };

    fn start(&self) -> Result<RetriedRun<F, G, F::Fault>, Refusal> {
        Ok(RetriedRun {
            run: self.source.start()?,
            source: self.source,
            test: self.test,
            times: self.times,
            left: self.times,
            ended: None,
        })
    }

    ghost uncancelled = { λ f. retry-uncancelled (by_attempt (G.follows f.test) f.times) (F.starts f.source) (F.may f.source) (F.uncancelled f.source) f.times
        (F.may f.source) (F.uncancelled f.source) };
}

/// The run of `retry` and `retry_when`.
#[derive(Drop)]
pub struct RetriedRun<F: Flow, G, E> {
    // The run that stands.
    run: F::Running,
    source: F,
    test: G,
    times: u32,
    // How many more may follow.
    left: u32,
    ended: Option<Cause<E>>,
    ghost within: { left ≤ times },
}

impl<E: Copy, F: Flow<Fault = E> + Copy, G: Again<E>> RetriedRun<F, G, E> {
    // Whether another run follows this end of one.
    fn is_retried(&self, cause: Cause<E>) -> bool
        ensures retried { result ≡ is_retried (by_attempt (G.follows self.now.test) self.now.times) self.now.left cause }
        ensures positive { IsTrue result → 0 < self.now.left }
    {
        match cause {
            Cause::Failed(fault) => self.left > 0
                && self.test.is_followed(fault, self.times - self.left),
            _ => false,
        }
    }
}

impl<E: Copy, F: Flow<Fault = E> + Copy, G: Again<E>> Run for RetriedRun<F, G, E> {
    ghost use Rattle.cold_flow.specs.Laws.{Unless-begins, Unless-over, some-stops};
    ghost use Rattle.more_operators.specs.RetryLaws.{retry-begins};

    type Item = F::Item;

    type Fault = E;

    ghost may = { λ r. Unless r.ended (MayRetry (by_attempt (G.follows r.test) r.times) (F.starts r.source) (F.may r.source) r.left (F.Running.may r.run)) };

    ghost ended = { λ r. r.ended };

    ghost stopped = { λ r. is_some r.ended };

    ghost polls = { λ r. retried_polls r.left (F.polls r.source) (F.Running.polls r.run) };

    // Pending only where the run that stands answered so, or another was started.
    ghost polled = { λ old answer new. OnPending answer (F.Running.polled old.run Pending new.run ⊎ (new.left + 1 ≡ old.left))
        × Rests old.ended old.run new.run };

    // With a cancellation the run that stood has stopped.
    ghost cancelled = { λ _ new. IsTrue (F.Running.stopped new.run) };

    fn poll_next(&mut self, cx: &mut Context<'_>) -> Poll<Event<F::Item, E>> {
        if let Some(cause) = self.ended {
            return Poll::Ready(Event::End(cause));
        }
        match self.run.poll_next(cx) {
            Poll::Ready(Event::Value(value)) => Poll::Ready(Event::Value(value)),
            Poll::Ready(Event::End(cause)) => {
                if !self.is_retried(cause) {
                    self.ended = Some(cause);
                    return Poll::Ready(Event::End(cause));
                }
                match self.source.start() {
                    Ok(run) => {
                        self.run = run;
                        self.left -= 1;
                        cx.yield_now()
                    }
                    Err(refusal) => {
                        self.ended = Some(Cause::Refused(refusal));
                        Poll::Ready(Event::End(Cause::Refused(refusal)))
                    }
                }
            }
            Poll::Pending => Poll::Pending,
        }
    }

    fn end(&self) -> Option<Cause<E>> {
        self.ended
    }

    fn cancel(&mut self) {
        self.run.cancel();
        if self.ended.is_none() {
            self.ended = Some(Cause::Cancelled);
        }
    }

    ghost halts = { λ r. some-stops r.ended };

    ghost begins = { λ r. Unless-begins r.ended _ (retry-begins (by_attempt (G.follows r.test) r.times) (F.starts r.source) (F.may r.source) r.left _ (F.Running.begins r.run)) };

    ghost over = { λ r. Unless-over r.ended _ };
}

/// A flow each run of which ends within a number of polls, which the flow knows.
pub trait FiniteFlow: Flow {
    ghost is_finite: { (f : Self) → IsFinite (Self.polls f) };
}

impl<T: Copy, E: Copy> FiniteFlow for Listed<T, E> {
    ghost is_finite = { λ _. tt };
}

impl<'a, F: FiniteFlow> FiniteFlow for &'a F {
    ghost is_finite = { λ f. F.FiniteFlow.is_finite f.now };
}

impl<E: Copy, F: FiniteFlow<Fault = E> + Copy, G: Again<E>> Finite for RetriedRun<F, G, E>
where
    F::Running: Finite,
{
    ghost use Rattle.more_operators.specs.RetryLaws.{retry-finite};

    ghost is_finite = { λ r. retry-finite r.left (F.polls r.source) (F.Running.polls r.run) (F.FiniteFlow.is_finite r.source)
        (F.Running.Finite.is_finite r.run) };
}
