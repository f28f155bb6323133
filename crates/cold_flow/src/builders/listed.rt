//! Flows of a list: `of` and `failing`.

ghost use Rattle.std.specs.Prelude.{◌-◌, true, IsTrue, length, drop};
ghost use Rattle.std.specs.Iterator.{at_most};
ghost use Rattle.cold_flow.specs.Trace.{ended_by, cause_of};
ghost use Rattle.cold_flow.specs.Poll.{Beginnings, Fixes, IsWithinPolls};
ghost use Rattle.cold_flow.specs.declared.cause.Cause.TheVariants.{Finished, Failed};

use crate::builders::scripted::Step;
use crate::builders::steps::{EndingRun, FiniteSteps, Steps};
use crate::flow::Flow;
use flow_terms::Refusal;

/// The flow of `of` and `failing`, and its steps.
#[derive(Drop)]
pub struct Listed<T, E> {
    values: Vec<T>,
    // The index of the next value, 0 in a flow.
    next: usize,
    // How it ends: by this fault, or by `Cause::Finished`.
    fault: Option<E>,
}

/// The values in order, and then `Cause::Finished`: Kotlin's `flowOf` and `asFlow`.
///
/// A start copies the list. A run gives one value a poll and never answers pending.
pub fn of<T: Copy, E: Copy>(values: Vec<T>) -> Listed<T, E>
    ensures exact { Fixes (ended_by values.items Finished) (⟦<Listed<T, E> as Flow>⟧.may result) }
    ensures lasts { IsWithinPolls (at_most (length values.items)) (⟦<Listed<T, E> as Flow>⟧.polls result) }
    ensures prompt { IsTrue (⟦<Listed<T, E> as Flow>⟧.prompt result) }
{
    Listed {
        values,
        next: 0,
        fault: None,
    }
}

/// The values in order, and then a failure with `fault`: Kotlin's `flow { .. throw .. }`.
///
/// A start copies the list. A run gives one value a poll and never answers pending.
pub fn failing<T: Copy, E: Copy>(values: Vec<T>, fault: E) -> Listed<T, E>
    ensures exact { Fixes (ended_by values.items (Failed fault)) (⟦<Listed<T, E> as Flow>⟧.may result) }
    ensures lasts { IsWithinPolls (at_most (length values.items)) (⟦<Listed<T, E> as Flow>⟧.polls result) }
    ensures prompt { IsTrue (⟦<Listed<T, E> as Flow>⟧.prompt result) }
{
    Listed {
        values,
        next: 0,
        fault: Some(fault),
    }
}

impl<T: Copy, E: Copy> Flow for Listed<T, E> {
    ghost use Rattle.cold_flow.specs.Laws.{list-uncancelled};

    type Item = T;

    type Fault = E;

    type Running = EndingRun<Listed<T, E>, E>;

    ghost may = { λ f. ⟦<Listed<T, E> as Steps>⟧.may f };

    ghost polls = { λ f. ⟦<Listed<T, E> as Steps>⟧.polls f };

    ghost prompt = { λ _. true };

    fn start(&self) -> Result<EndingRun<Listed<T, E>, E>, Refusal> {
        let mut values = Vec::new(*self.values.allocator());
        if values.extend_from_slice(self.values.as_slice()).is_err() {
            return Err(Refusal::NoMemory);
        }
        Ok(EndingRun::new(Listed {
            values,
            next: self.next,
            fault: self.fault,
        }))
    }

    ghost uncancelled = { λ f xs h. list-uncancelled _ f.fault xs h };
}

impl<T: Copy, E: Copy> Steps for Listed<T, E> {
    ghost use Rattle.cold_flow.specs.Laws.{begins-any};

    type Item = T;

    type Fault = E;

    ghost may = { λ s. Beginnings (ended_by (drop s.next s.values.items) (cause_of s.fault)) };

    ghost polls = { λ s. at_most (length s.values.items - s.next) };

    ghost prompt = { λ _. true };

    fn step(&mut self) -> Option<Step<T, E>> {
        match self.values.get(self.next) {
            Some(value) => {
                self.next += 1;
                Some(Step::Value(*value))
            }
            None => match self.fault {
                Some(fault) => Some(Step::Fail(fault)),
                None => None,
            },
        }
    }

    ghost begins = { λ _. begins-any _ };
}

impl<T: Copy, E: Copy> FiniteSteps for Listed<T, E> {
    ghost is_finite = { λ _. tt };
}
