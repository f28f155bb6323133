//! What `catch_with` and `on_completion` have in common: the end of the source becomes a last value, if any, and an end.

ghost use Rattle.std.specs.Prelude.{◌≡◌, Option, Some, IsTrue, ◌||◌};
ghost use Rattle.futures.specs.Poll.{OnPending};
ghost use Rattle.futures.specs.declared.task.Poll.TheVariants.{Pending};
ghost use Rattle.cold_flow.specs.declared.cause.Cause.{Cause};
ghost use Rattle.cold_flow.specs.declared.cause.Cause.TheVariants.{Finished, Cancelled};
ghost use Rattle.cold_flow.specs.Poll.{Through, Makes, MakesExactly, IsWithinPolls, after_cancel};
ghost use Rattle.cold_flow.specs.Finale.{with_finale};
ghost use Rattle.cold_flow.specs.Closing.{Following, given_cause, polls_left, and_one, is_open, is_prompt, is_after, answer};
ghost use Rattle.cold_flow.specs.Polled.{Rests};

use crate::cause::Cause;
use crate::event::Event;
use crate::flow::Flow;
use crate::operators::closing::Closing;
use crate::run::{Finite, Run};
use flow_terms::Refusal;
use futures::task::{Context, Poll};

/// What comes in place of the end of a source.
pub trait Finale<T, E>: Copy {
    // A last value, if any, and the end, for each cause by which the source ends.
    ghost gives: { Self → Cause E → Option T × Cause E };

    /// A last value, if any, and the end that comes in place of `cause`.
    fn finale(&self, cause: Cause<E>) -> (Option<T>, Cause<E>)
        ensures { result ≡ gives self.now cause };

    // `Finished` alone comes after a last value.
    ghost finishes: { (f : Self) (k : Cause E) (v : T) (j : Cause E) → gives f k ≡ (Some v, j) → j ≡ Finished };

    // Only a source that was cancelled ends as one that was.
    ghost cancels: { (f : Self) (k : Cause E) → (gives f k).1 ≡ Cancelled → k ≡ Cancelled };
}

/// The flow of an operator with a finale.
#[derive(Drop)]
pub struct Concluded<F, H> {
    source: F,
    finale: H,
}

impl<F: Flow, H: Finale<F::Item, F::Fault>> Concluded<F, H> {
    /// The values of `source`, and then what `finale` answers of its end.
    ///
    /// The finale is asked once: when the end of the source is seen, or of `Cause::Cancelled` at `cancel`, whichever is first. What it
    /// answers of a `cancel` isn't given: cancelled before the end, also after a last value, the run cancels the source and ends by
    /// `Cause::Cancelled`.
    pub fn new(source: F, finale: H) -> Concluded<F, H>
        ensures gives { Makes (with_finale (H.gives finale)) (F.may source) (⟦<Concluded<F, H> as Flow>⟧.may result) }
        ensures exact { MakesExactly (with_finale (H.gives finale)) (F.may source) (⟦<Concluded<F, H> as Flow>⟧.may result) }
        ensures lasts { IsWithinPolls (and_one (F.polls source)) (⟦<Concluded<F, H> as Flow>⟧.polls result) }
        ensures prompt { IsTrue (F.prompt source) → IsTrue (⟦<Concluded<F, H> as Flow>⟧.prompt result) }
        ensures starts { IsTrue (F.starts source) → IsTrue (⟦<Concluded<F, H> as Flow>⟧.starts result) }
    {
        Concluded { source, finale }
    }
}

impl<T: Copy, E: Copy, F: Flow<Item = T, Fault = E>, H: Finale<T, E>> Flow for Concluded<F, H> {
    ghost use Rattle.cold_flow.specs.Laws.{Through-uncancelled};
    ghost use Rattle.cold_flow.specs.FinaleLaws.{finale-cause};

    type Item = T;

    type Fault = E;

    type Running = ConcludedRun<F::Running, H, E>;

    ghost may = { λ f. Through (with_finale (H.gives f.finale)) (F.may f.source) };

    ghost polls = { λ f. and_one (F.polls f.source) };

    ghost prompt = { λ f. F.prompt f.source };

    ghost starts = { λ f. F.starts f.source };

    fn start(&self) -> Result<ConcludedRun<F::Running, H, E>, Refusal> {
        Ok(ConcludedRun {
            source: self.source.start()?,
            finale: self.finale,
            closing: Closing::Open,
            last_given: false,
        })
    }

    ghost uncancelled = { λ f. Through-uncancelled _ _ (finale-cause (H.gives f.finale) (H.cancels f.finale)) (F.uncancelled f.source) };
}

/// The run of an operator with a finale.
#[derive(Drop)]
pub struct ConcludedRun<S: Run, H, E> {
    source: S,
    finale: H,
    pub(super) closing: Closing<E>,
    // The finale answered with a last value, which was given.
    pub(super) last_given: bool,
    ghost after: { IsTrue (is_after last_given closing) },
    ghost stopped: { IsTrue (is_open closing || S.stopped source) },
}

impl<T: Copy, E: Copy, S: Run<Item = T, Fault = E>, H: Finale<T, E>> Run for ConcludedRun<S, H, E> {
    ghost use Rattle.cold_flow.specs.Laws.{Through-begins};
    ghost use Rattle.cold_flow.specs.ClosingLaws.{given-stops, Following-begins, Following-over};
    ghost use Rattle.cold_flow.specs.ConcludedRuns.{source_run, end_given, cause_told};

    type Item = T;

    type Fault = E;

    ghost may = { λ r. Following r.closing (Through (with_finale (H.gives r.finale)) (S.may r.source)) };

    ghost ended = { λ r. given_cause r.closing };

    ghost stopped = { λ r. S.stopped r.source };

    ghost polls = { λ r. polls_left r.closing (S.polls r.source) };

    ghost prompt = { λ r. is_prompt r.closing (S.prompt r.source) };

    ghost polled = { λ old reply new. OnPending reply (S.polled old.source Pending new.source) × Rests (answer old.closing) old.source new.source };

    fn poll_next(&mut self, cx: &mut Context<'_>) -> Poll<Event<T, E>> {
        if let Some(cause) = self.closing.answer() {
            return Poll::Ready(Event::End(cause));
        }
        match self.source.poll_next(cx) {
            Poll::Ready(Event::Value(value)) => Poll::Ready(Event::Value(value)),
            Poll::Ready(Event::End(cause)) => {
                let (last, end) = self.finale.finale(cause);
                if let Some(value) = last {
                    self.last_given = true;
                    self.closing = Closing::Last;
                    return Poll::Ready(Event::Value(value));
                }
                self.closing = Closing::Over(end);
                Poll::Ready(Event::End(end))
            }
            Poll::Pending => Poll::Pending,
        }
    }

    fn end(&self) -> Option<Cause<E>> {
        self.closing.given()
    }

    // The finale that was asked nothing is asked of the cancellation.
    fn cancel(&mut self)
        ensures ends { end_given self.new ≡ Some (after_cancel (end_given self.old)) }
        ensures stops { IsTrue (S.stopped (source_run self.new)) }
        ensures tells { cause_told self.new ≡ Some (after_cancel (cause_told self.old)) }
    {
        self.source.cancel();
        if let Closing::Open = self.closing {
            let _unused = self.finale.finale(Cause::Cancelled);
        }
        self.closing.cancel();
    }

    ghost halts = { λ r. given-stops r.closing (S.stopped r.source) r.stopped };

    ghost begins = { λ r. Following-begins r.closing _ (Through-begins _ _ (S.begins r.source)) };

    ghost over = { λ r. Following-over r.closing _ };
}

impl<T: Copy, E: Copy, S: Finite<Item = T, Fault = E>, H: Finale<T, E>> Finite
    for ConcludedRun<S, H, E> {
    ghost use Rattle.cold_flow.specs.ClosingLaws.{finite-following};

    ghost is_finite = { λ r. finite-following r.closing (S.polls r.source) (S.Finite.is_finite r.source) };
}
