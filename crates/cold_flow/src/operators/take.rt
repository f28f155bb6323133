//! `take`: the first values.

ghost use Rattle.std.specs.Prelude.{◌≡◌, ◌<◌, IfOk, MatchResult, IsTrue, ◌||◌};
ghost use Rattle.futures.specs.Poll.{OnPending};
ghost use Rattle.futures.specs.declared.task.Poll.TheVariants.{Pending};
ghost use Rattle.flow_terms.specs.declared.refusal.Refusal.TheVariants.{NotPositive};
ghost use Rattle.cold_flow.specs.Trace.{take_trace};
ghost use Rattle.cold_flow.specs.Poll.{Through, Makes, MakesExactly, IsWithinPolls};
ghost use Rattle.cold_flow.specs.Closing.{Following, given_cause, polls_left, and_one, is_open, is_prompt, answer};
ghost use Rattle.cold_flow.specs.Polled.{Rests};

use crate::cause::Cause;
use crate::event::Event;
use crate::flow::Flow;
use crate::operators::closing::Closing;
use crate::run::{Finite, Run};
use flow_terms::Refusal;
use futures::task::{Context, Poll};

/// The flow of `take`.
#[derive(Drop)]
pub struct Taken<F> {
    source: F,
    count: u32,
    ghost positive: { 0 < count },
}

/// The first `count` values of `source`, and then `Cause::Finished`: Kotlin's `take`. It is refused with `Refusal::NotPositive`
/// where `count` is 0.
///
/// With the last of them the source is cancelled, so nothing that it would give afterwards matters, a failure neither. Where the
/// source ends before, its end passes. Cancelled before the end, also after the last value, it cancels the source and ends by
/// `Cause::Cancelled`.
pub fn take<F: Flow>(source: F, count: u32) -> Result<Taken<F>, Refusal>
    ensures gives { IfOk result (λ f. Makes (take_trace count) (F.may source) (⟦<Taken<F> as Flow>⟧.may f)) }
    ensures exact { IfOk result (λ f. MakesExactly (take_trace count) (F.may source) (⟦<Taken<F> as Flow>⟧.may f)) }
    ensures lasts { IfOk result (λ f. IsWithinPolls (and_one (F.polls source)) (⟦<Taken<F> as Flow>⟧.polls f)) }
    ensures prompt { IfOk result (λ f. IsTrue (F.prompt source) → IsTrue (⟦<Taken<F> as Flow>⟧.prompt f)) }
    ensures starts { IfOk result (λ f. IsTrue (F.starts source) → IsTrue (⟦<Taken<F> as Flow>⟧.starts f)) }
    ensures refused { MatchResult result (λ _. 0 < count) (λ e. (e ≡ NotPositive) × (count ≡ 0)) }
{
    if count == 0 {
        return Err(Refusal::NotPositive);
    }
    Ok(Taken { source, count })
}

impl<F: Flow> Flow for Taken<F> {
    ghost use Rattle.cold_flow.specs.Laws.{Through-uncancelled};
    ghost use Rattle.cold_flow.specs.TakeLaws.{take-cause};

    type Item = F::Item;

    type Fault = F::Fault;

    type Running = TakenRun<F::Running, F::Fault>;

    ghost may = { λ f. Through (take_trace f.count) (F.may f.source) };

    ghost polls = { λ f. and_one (F.polls f.source) };

    ghost prompt = { λ f. F.prompt f.source };

    ghost starts = { λ f. F.starts f.source };

    fn start(&self) -> Result<TakenRun<F::Running, F::Fault>, Refusal> {
        Ok(TakenRun {
            source: self.source.start()?,
            left: self.count,
            closing: Closing::Open,
        })
    }

    ghost uncancelled = { λ f. Through-uncancelled _ _ (take-cause f.count) (F.uncancelled f.source) };
}

/// The run of `take`.
#[derive(Drop)]
pub struct TakenRun<S: Run, E> {
    source: S,
    // How many values are still to be taken, while it is open.
    left: u32,
    closing: Closing<E>,
    ghost positive: { 0 < left },
    ghost stopped: { IsTrue (is_open closing || S.stopped source) },
}

impl<E: Copy, S: Run<Fault = E>> Run for TakenRun<S, E> {
    ghost use Rattle.cold_flow.specs.Laws.{Through-begins};
    ghost use Rattle.cold_flow.specs.ClosingLaws.{given-stops, Following-begins, Following-over};

    type Item = S::Item;

    type Fault = E;

    ghost may = { λ r. Following r.closing (Through (take_trace r.left) (S.may r.source)) };

    ghost ended = { λ r. given_cause r.closing };

    ghost stopped = { λ r. S.stopped r.source };

    ghost polls = { λ r. polls_left r.closing (S.polls r.source) };

    ghost prompt = { λ r. is_prompt r.closing (S.prompt r.source) };

    ghost polled = { λ old reply new. OnPending reply (S.polled old.source Pending new.source) × Rests (answer old.closing) old.source new.source };

    fn poll_next(&mut self, cx: &mut Context<'_>) -> Poll<Event<S::Item, E>> {
        if let Some(cause) = self.closing.answer() {
            return Poll::Ready(Event::End(cause));
        }
        match self.source.poll_next(cx) {
            Poll::Ready(Event::Value(value)) => {
                if self.left > 1 {
                    self.left -= 1;
                    return Poll::Ready(Event::Value(value));
                }
                self.source.cancel();
                self.closing = Closing::Last;
                Poll::Ready(Event::Value(value))
            }
            Poll::Ready(Event::End(cause)) => {
                self.closing = Closing::Over(cause);
                Poll::Ready(Event::End(cause))
            }
            Poll::Pending => Poll::Pending,
        }
    }

    fn end(&self) -> Option<Cause<E>> {
        self.closing.given()
    }

    fn cancel(&mut self) {
        self.source.cancel();
        self.closing.cancel();
    }

    ghost halts = { λ r. given-stops r.closing (S.stopped r.source) r.stopped };

    ghost begins = { λ r. Following-begins r.closing _ (Through-begins _ _ (S.begins r.source)) };

    ghost over = { λ r. Following-over r.closing _ };
}

impl<E: Copy, S: Finite<Fault = E>> Finite for TakenRun<S, E> {
    ghost use Rattle.cold_flow.specs.ClosingLaws.{finite-following};

    ghost is_finite = { λ r. finite-following r.closing (S.polls r.source) (S.Finite.is_finite r.source) };
}
