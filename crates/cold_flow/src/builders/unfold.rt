//! `unfold`: a flow by a state and a step.

ghost use Rattle.std.specs.Prelude.{◌≡◌, true, IsTrue, ⊤};
ghost use Rattle.cold_flow.specs.Poll.{Within};
ghost use Rattle.cold_flow.specs.Unfolds.{Unfolds};
ghost use Rattle.cold_flow.specs.UnfoldsLaws.{unfolds-nothing, unfolds-uncancelled};

use crate::apply::Apply;
use crate::builders::scripted::Step;
use crate::builders::steps::{EndingRun, Steps};
use crate::flow::Flow;
use flow_terms::Refusal;
use std::alloc::AllocError;

/// What the step of [`unfold`] answers.
#[derive(Copy)]
pub enum Unfolded<T, S, E> {
    /// This value is given, and the next step is asked with this state.
    Next(T, S),
    /// The flow ends by `Cause::Finished`.
    Finish,
    /// The flow ends by `Cause::Failed` with this fault.
    Fail(E),
}

impl<T: Copy, S: Copy, E: Copy> Clone for Unfolded<T, S, E> {
    ghost is_clone = { λ value copy. copy ≡ value };

    ghost is_infallible = { λ _. ⊤ };

    fn clone(&self) -> Result<Self, AllocError> {
        Ok(*self)
    }
}

/// The flow of `unfold`, and its steps: each goes on from the state that the one before it gave.
#[derive(Copy)]
pub struct Unfolding<S, G> {
    state: S,
    step: G,
}

impl<S: Copy, G: Copy> Clone for Unfolding<S, G> {
    ghost is_clone = { λ value copy. copy ≡ value };

    ghost is_infallible = { λ _. ⊤ };

    fn clone(&self) -> Result<Self, AllocError> {
        Ok(*self)
    }
}

/// A source of one's own: the values that `step` answers from `state` on, each with the state of the next step, until it
/// answers an end. Kotlin's `flow { while (..) emit(..) }`, and its `generateSequence(seed) { .. }.asFlow()`.
///
/// A start takes no memory, and each run begins with `state` again. A run asks one step a poll, and never answers pending.
/// A step that answers no end makes a flow without an end.
pub fn unfold<T: Copy, S: Copy, E: Copy, G: Apply<S, Out = Unfolded<T, S, E>>>(
    state: S,
    step: G,
) -> Unfolding<S, G>
    ensures gives { Within (Unfolds (G.gives step) state) (⟦<Unfolding<S, G> as Flow>⟧.may result) }
    ensures prompt { IsTrue (⟦<Unfolding<S, G> as Flow>⟧.prompt result) }
    ensures starts { IsTrue (⟦<Unfolding<S, G> as Flow>⟧.starts result) }
{
    Unfolding { state, step }
}

impl<T: Copy, S: Copy, E: Copy, G: Apply<S, Out = Unfolded<T, S, E>>> Flow for Unfolding<S, G> {
    type Item = T;

    type Fault = E;

    type Running = EndingRun<Unfolding<S, G>, E>;

    ghost may = { λ f. ⟦<Unfolding<S, G> as Steps>⟧.may f };

    ghost prompt = { λ _. true };

    ghost starts = { λ _. true };

    fn start(&self) -> Result<EndingRun<Unfolding<S, G>, E>, Refusal> {
        Ok(EndingRun::new(*self))
    }

    ghost uncancelled = { λ f xs h. unfolds-uncancelled (G.gives f.step) f.state xs h };
}

impl<T: Copy, S: Copy, E: Copy, G: Apply<S, Out = Unfolded<T, S, E>>> Steps for Unfolding<S, G> {
    type Item = T;

    type Fault = E;

    ghost may = { λ s. Unfolds (G.gives s.step) s.state };

    ghost prompt = { λ _. true };

    fn step(&mut self) -> Option<Step<T, E>> {
        match self.step.apply(self.state) {
            Unfolded::Next(value, state) => {
                self.state = state;
                Some(Step::Value(value))
            }
            Unfolded::Finish => None,
            Unfolded::Fail(fault) => Some(Step::Fail(fault)),
        }
    }

    ghost begins = { λ s. unfolds-nothing (G.gives s.step) s.state };
}
