//! Runs of the sources that are given step by step.

ghost use Rattle.std.specs.Prelude.{◌≡◌, ◌||◌, [], None, Bool, false, IsTrue, is_some};
ghost use Rattle.std.specs.Iterator.{Count, endless, IsFinite};
ghost use Rattle.cold_flow.specs.Trace.{Trace, so_far};
ghost use Rattle.cold_flow.specs.Poll.{Narrows, Approaches, Unless};
ghost use Rattle.cold_flow.specs.Polled.{Rests};
ghost use Rattle.cold_flow.specs.Steps.{answer_of, StaysPrompt};

use crate::builders::scripted::Step;
use crate::cause::Cause;
use crate::event::Event;
use crate::run::{Finite, Run};
use futures::task::{Context, Poll};

/// What a source gives, step by step: all of its run that is its own.
///
/// Its run is an [`EndingRun`], which asks one step a poll and none after an end.
pub trait Steps: Drop {
    /// What it gives.
    type Item: Copy;

    /// What it fails with.
    type Fault: Copy;

    // Holds of each trace that the steps to come can give.
    ghost may: { Self → Trace Self.Item Self.Fault → Type 0 };

    // No more steps than this come before the end.
    ghost polls: { Self → Count } = { λ _. endless };

    // No step is pending.
    ghost prompt: { Self → Bool } = { λ _. false };

    /// The next step, or `None` where there is none: the run finishes.
    fn step(&mut self) -> Option<Step<Self::Item, Self::Fault>>
        ensures narrows { Narrows (may self.old) (answer_of result) (may self.new) }
        ensures approaches { Approaches (polls self.old) (answer_of result) (polls self.new) }
        ensures prompt { IsTrue (prompt self.old) → StaysPrompt result (prompt self.new) };

    // It may have given nothing yet.
    ghost begins: { (s : Self) → may s (so_far []) };
}

/// A source whose run ends within a number of steps, which it knows from its start.
pub trait FiniteSteps: Steps {
    ghost is_finite: { (s : Self) → IsFinite (Self.polls s) };
}

/// The run of a source that is given by its steps. It keeps the end.
#[derive(Drop)]
pub struct EndingRun<S, E> {
    source: S,
    ended: Option<Cause<E>>,
}

impl<E: Copy, S: Steps<Fault = E>> EndingRun<S, E> {
    ghost use Rattle.cold_flow.specs.Ends.{stepped_source, end_given};

    /// A run of all the steps of `source`.
    pub fn new(source: S) -> EndingRun<S, E>
        ensures source { stepped_source result ≡ source }
        ensures fresh { end_given result ≡ None }
    {
        EndingRun {
            source,
            ended: None,
        }
    }
}

impl<E: Copy, S: Steps<Fault = E>> Run for EndingRun<S, E> {
    ghost use Rattle.cold_flow.specs.Laws.{Unless-begins, Unless-over, some-stops};

    type Item = S::Item;

    type Fault = E;

    ghost may = { λ r. Unless r.ended (S.may r.source) };

    ghost ended = { λ r. r.ended };

    ghost stopped = { λ r. is_some r.ended };

    ghost polls = { λ r. S.polls r.source };

    ghost prompt = { λ r. is_some r.ended || S.prompt r.source };

    ghost polled = { λ old _ new. Rests old.ended old.source new.source };

    // Inlined, so that a chain of operators becomes one loop.
    #[inline(always)]
    fn poll_next(&mut self, cx: &mut Context<'_>) -> Poll<Event<S::Item, E>> {
        if let Some(cause) = self.ended {
            return Poll::Ready(Event::End(cause));
        }
        let cause = match self.source.step() {
            Some(Step::Value(value)) => return Poll::Ready(Event::Value(value)),
            Some(Step::Pending) => return cx.yield_now(),
            Some(Step::Fail(fault)) => Cause::Failed(fault),
            None => Cause::Finished,
        };
        self.ended = Some(cause);
        Poll::Ready(Event::End(cause))
    }

    #[inline(always)]
    fn end(&self) -> Option<Cause<E>> {
        self.ended
    }

    fn cancel(&mut self) {
        if self.ended.is_none() {
            self.ended = Some(Cause::Cancelled);
        }
    }

    ghost halts = { λ r. some-stops r.ended };

    ghost begins = { λ r. Unless-begins r.ended _ (S.begins r.source) };

    ghost over = { λ r. Unless-over r.ended _ };
}

impl<E: Copy, S: FiniteSteps<Fault = E>> Finite for EndingRun<S, E> {
    ghost is_finite = { λ r. S.FiniteSteps.is_finite r.source };
}
