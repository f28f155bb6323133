//! A value so many times: a flow of the program's own, with its steps.

ghost use Rattle.std.specs.Prelude.{◌%◌, true, None, replicate};
ghost use Rattle.std.specs.Iterator.{at_most};
ghost use Rattle.cold_flow.specs.Trace.{ended_by};
ghost use Rattle.cold_flow.specs.Poll.{Beginnings};
ghost use Rattle.cold_flow.specs.declared.cause.Cause.TheVariants.{Finished};

use cold_flow::{Apply, EndingRun, FiniteSteps, Flow, Refusal, Step, Steps};

/// A value so many times.
#[derive(Clone, Copy)]
pub(crate) struct Repeated {
    pub(crate) value: u64,
    pub(crate) times: u64,
}

impl Steps for Repeated {
    ghost use Rattle.cold_flow.specs.Laws.{begins-any};

    type Item = u64;

    type Fault = u64;

    ghost may = { λ s. Beginnings (ended_by (replicate s.times s.value) Finished) };

    ghost polls = { λ s. at_most s.times };

    ghost prompt = { λ _. true };

    fn step(&mut self) -> Option<Step<u64, u64>> {
        if self.times == 0 {
            return None;
        }
        self.times -= 1;
        Some(Step::Value(self.value))
    }

    ghost begins = { λ _. begins-any _ };
}

impl FiniteSteps for Repeated {
    ghost is_finite = { λ _. tt };
}

impl Flow for Repeated {
    ghost use Rattle.cold_flow.specs.Laws.{list-uncancelled};

    type Item = u64;

    type Fault = u64;

    type Running = EndingRun<Repeated, u64>;

    ghost may = { λ f. ⟦<Repeated as Steps>⟧.may f };

    ghost polls = { λ f. ⟦<Repeated as Steps>⟧.polls f };

    ghost prompt = { λ _. true };

    ghost starts = { λ _. true };

    fn start(&self) -> Result<EndingRun<Repeated, u64>, Refusal> {
        Ok(EndingRun::new(*self))
    }

    ghost uncancelled = { λ f xs h. list-uncancelled _ None xs h };
}

/// Each value up to three times, or not at all.
#[derive(Clone, Copy)]
pub(crate) struct Repeats;

impl Apply<u64> for Repeats {
    type Out = Repeated;

    ghost gives = { λ _ value. record { value = value; times = value % 4 } };

    fn apply(&self, argument: u64) -> Repeated {
        Repeated {
            value: argument,
            times: argument % 4,
        }
    }
}
