//! `scripted`: a flow of given steps.

ghost use Rattle.std.specs.Prelude.{◌≡◌, ◌-◌, IsTrue, length, drop, ⊤};
ghost use Rattle.std.specs.Iterator.{at_most};
ghost use Rattle.cold_flow.specs.Poll.{Beginnings, Fixes, IsWithinPolls};
ghost use Rattle.cold_flow.specs.Scripted.{played, never_pends};

use crate::builders::steps::{EndingRun, FiniteSteps, Steps};
use crate::flow::Flow;
use flow_terms::Refusal;
use std::alloc::AllocError;

/// One step of a flow that is given step by step.
#[derive(Copy)]
pub enum Step<T, E> {
    /// A poll gives this value.
    Value(T),
    /// A poll answers pending and asks to be polled again.
    Pending,
    /// The run fails with this fault; the steps after it are not reached.
    Fail(E),
}

impl<T: Copy, E: Copy> Clone for Step<T, E> {
    ghost is_clone = { λ value copy. copy ≡ value };

    ghost is_infallible = { λ _. ⊤ };

    fn clone(&self) -> Result<Self, AllocError> {
        Ok(*self)
    }
}

/// The flow of `scripted`, and its steps.
#[derive(Drop)]
pub struct Stepped<T, E> {
    steps: Vec<Step<T, E>>,
    // The index of the next step, 0 in a flow.
    next: usize,
}

/// One step a poll, and `Cause::Finished` after the last: a `flow { .. }` of Kotlin's whose suspensions are given, for tests.
///
/// A start copies the list.
pub fn scripted<T: Copy, E: Copy>(steps: Vec<Step<T, E>>) -> Stepped<T, E>
    ensures exact { Fixes (played steps.items) (⟦<Stepped<T, E> as Flow>⟧.may result) }
    ensures lasts { IsWithinPolls (at_most (length steps.items)) (⟦<Stepped<T, E> as Flow>⟧.polls result) }
    ensures prompt { IsTrue (never_pends steps.items) → IsTrue (⟦<Stepped<T, E> as Flow>⟧.prompt result) }
{
    Stepped { steps, next: 0 }
}

impl<T: Copy, E: Copy> Flow for Stepped<T, E> {
    ghost use Rattle.cold_flow.specs.ScriptedLaws.{played-uncancelled};

    type Item = T;

    type Fault = E;

    type Running = EndingRun<Stepped<T, E>, E>;

    ghost may = { λ f. ⟦<Stepped<T, E> as Steps>⟧.may f };

    ghost polls = { λ f. ⟦<Stepped<T, E> as Steps>⟧.polls f };

    ghost prompt = { λ f. ⟦<Stepped<T, E> as Steps>⟧.prompt f };

    fn start(&self) -> Result<EndingRun<Stepped<T, E>, E>, Refusal> {
        let mut steps = Vec::new(*self.steps.allocator());
        steps.extend_from_slice(self.steps.as_slice())?;
        Ok(EndingRun::new(Stepped {
            steps,
            next: self.next,
        }))
    }

    ghost uncancelled = { λ f. played-uncancelled (drop f.next f.steps.items) };
}

impl<T: Copy, E: Copy> Steps for Stepped<T, E> {
    ghost use Rattle.cold_flow.specs.Laws.{begins-any};

    type Item = T;

    type Fault = E;

    ghost may = { λ s. Beginnings (played (drop s.next s.steps.items)) };

    ghost polls = { λ s. at_most (length s.steps.items - s.next) };

    ghost prompt = { λ s. never_pends (drop s.next s.steps.items) };

    fn step(&mut self) -> Option<Step<T, E>> {
        match self.steps.get(self.next) {
            Some(step) => {
                self.next += 1;
                Some(*step)
            }
            None => None,
        }
    }

    ghost begins = { λ _. begins-any _ };
}

impl<T: Copy, E: Copy> FiniteSteps for Stepped<T, E> {
    ghost is_finite = { λ _. tt };
}
