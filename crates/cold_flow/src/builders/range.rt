//! `range`: consecutive numbers.

ghost use Rattle.std.specs.Prelude.{◌≡◌, ◌-◌, ◌+◌, None, true, IsTrue, ⊤};
ghost use Rattle.std.specs.List.{range_with_len};
ghost use Rattle.std.specs.Iterator.{at_most};
ghost use Rattle.cold_flow.specs.declared.cause.Cause.TheVariants.{Finished};
ghost use Rattle.cold_flow.specs.Trace.{ended_by};
ghost use Rattle.cold_flow.specs.Poll.{Beginnings, Fixes, IsWithinPolls};
ghost use Rattle.cold_flow.specs.Laws.{begins-any};

use crate::builders::scripted::Step;
use crate::builders::steps::{EndingRun, FiniteSteps, Steps};
use crate::flow::Flow;
use flow_terms::Refusal;
use std::alloc::AllocError;
use std::marker::PhantomData;

/// The flow of `range`, and its steps: each takes the number `from`, and leaves the numbers after it.
#[derive(Copy)]
pub struct Numbers<E> {
    from: u64,
    to: u64,
    fault: PhantomData<E>,
}

impl<E: Copy> Clone for Numbers<E> {
    ghost is_clone = { λ value copy. copy ≡ value };

    ghost is_infallible = { λ _. ⊤ };

    fn clone(&self) -> Result<Self, AllocError> {
        Ok(*self)
    }
}

/// The numbers from `from` up to below `to`, and then `Cause::Finished`: Kotlin's `(from until to).asFlow()`.
///
/// It gives none where `to` is not over `from`. A start takes no memory. A run gives one number a poll and never answers pending.
pub fn range<E: Copy>(from: u64, to: u64) -> Numbers<E>
    ensures exact { Fixes (ended_by (range_with_len from (to - from)) Finished) (⟦<Numbers<E> as Flow>⟧.may result) }
    ensures lasts { IsWithinPolls (at_most (to - from)) (⟦<Numbers<E> as Flow>⟧.polls result) }
    ensures prompt { IsTrue (⟦<Numbers<E> as Flow>⟧.prompt result) }
    ensures starts { IsTrue (⟦<Numbers<E> as Flow>⟧.starts result) }
{
    Numbers {
        from,
        to,
        fault: PhantomData,
    }
}

impl<E: Copy> Flow for Numbers<E> {
    ghost use Rattle.cold_flow.specs.Laws.{list-uncancelled};

    type Item = u64;

    type Fault = E;

    type Running = EndingRun<Numbers<E>, E>;

    ghost may = { λ f. ⟦<Numbers<E> as Steps>⟧.may f };

    ghost polls = { λ f. ⟦<Numbers<E> as Steps>⟧.polls f };

    ghost prompt = { λ _. true };

    ghost starts = { λ _. true };

    fn start(&self) -> Result<EndingRun<Numbers<E>, E>, Refusal> {
        Ok(EndingRun::new(*self))
    }

    ghost uncancelled = { λ f xs h. list-uncancelled _ None xs h };
}

impl<E: Copy> Steps for Numbers<E> {
    type Item = u64;

    type Fault = E;

    ghost may = { λ s. Beginnings (ended_by (range_with_len s.from (s.to - s.from)) Finished) };

    ghost polls = { λ s. at_most (s.to - s.from) };

    ghost prompt = { λ _. true };

    fn step(&mut self) -> Option<Step<u64, E>> {
        if self.from < self.to {
            let value = self.from;
            self.from += 1;
            Some(Step::Value(value))
        } else {
            None
        }
    }

    ghost begins = { λ _. begins-any _ };
}

impl<E: Copy> FiniteSteps for Numbers<E> {
    ghost is_finite = { λ _. tt };
}
