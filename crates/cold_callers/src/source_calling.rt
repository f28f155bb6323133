//! Callers with a source of their own: by a state and a step, or by a type that gives its steps itself.

ghost use Rattle.std.specs.Prelude.{◌≡◌, None, true, IfOk, replicate};
ghost use Rattle.std.specs.Iterator.{at_most};
ghost use Rattle.futures.specs.Poll.{IfReady};
ghost use Rattle.cold_flow.specs.declared.cause.Cause.TheVariants.{Finished};
ghost use Rattle.cold_flow.specs.Trace.{ended_by, map_trace};
ghost use Rattle.cold_flow.specs.Poll.{Beginnings, Makes};
ghost use Rattle.cold_flow.specs.Unfolds.{Unfolds};
ghost use Rattle.cold_callers.specs.Halves.{half_on, AreHalves};
ghost use Rattle.cold_callers.specs.Lists.{trace_of, whole_list};

use cold_flow::{
    Apply, Collected, EndingRun, FiniteSteps, Flow, Mapped, Refusal, Step, Steps, Unfolded,
    Unfolding, collect, map, to_list, unfold,
};
use futures::task::{Context, Poll};
use std::alloc::Global;

/// Gives a number and goes on with its half, until nothing is left.
#[derive(Clone, Copy)]
pub struct Halve;

impl Apply<u64> for Halve {
    type Out = Unfolded<u64, u64, u8>;

    ghost gives = { λ _ number. half_on number };

    fn apply(&self, number: u64) -> Unfolded<u64, u64, u8> {
        if number == 0 {
            Unfolded::Finish
        } else {
            Unfolded::Next(number, number / 2)
        }
    }
}

/// `function` of a number, of its half, of the half of that and so on.
pub fn mapped_halves<G: Apply<u64, Out = u64>>(
    number: u64,
    function: G,
) -> Mapped<Unfolding<u64, Halve>, G>
    ensures { Makes (map_trace (G.gives function)) (Unfolds half_on number) (⟦<Mapped<Unfolding<u64, Halve>, G> as Flow>⟧.may result) }
{
    map(unfold(number, Halve), function)
}

/// What one poll gathers of a number, its half, the half of that and so on: all of them, where it is ready.
pub fn gathered_halves(
    alloc: Global,
    number: u64,
    cx: &mut Context<'_>,
) -> Poll<Result<Collected<u64, u8>, Refusal>>
    ensures { IfReady result (λ gathered. IfOk gathered (λ list. AreHalves number list.values.items × (list.cause ≡ Finished))) }
{
    match unfold(number, Halve).start() {
        Ok(run) => {
            let mut gathering = collect(alloc, run);
            gathering.poll(cx)
        }
        Err(refusal) => Poll::Ready(Err(refusal)),
    }
}

/// A source of one's own, and its steps: a value so many times.
#[derive(Clone, Copy)]
pub struct Repeated<T> {
    pub value: T,
    pub times: u32,
}

impl<T: Copy> Steps for Repeated<T> {
    ghost use Rattle.cold_flow.specs.Laws.{begins-any};

    type Item = T;

    type Fault = u8;

    ghost may = { λ s. Beginnings (ended_by (replicate s.times s.value) Finished) };

    ghost polls = { λ s. at_most s.times };

    ghost prompt = { λ _. true };

    fn step(&mut self) -> Option<Step<T, u8>> {
        if self.times == 0 {
            return None;
        }
        self.times -= 1;
        Some(Step::Value(self.value))
    }

    ghost begins = { λ _. begins-any _ };
}

impl<T: Copy> FiniteSteps for Repeated<T> {
    ghost is_finite = { λ _. tt };
}

impl<T: Copy> Flow for Repeated<T> {
    ghost use Rattle.cold_flow.specs.Laws.{list-uncancelled};

    type Item = T;

    type Fault = u8;

    type Running = EndingRun<Repeated<T>, u8>;

    ghost may = { λ f. ⟦<Repeated<T> as Steps>⟧.may f };

    ghost polls = { λ f. ⟦<Repeated<T> as Steps>⟧.polls f };

    ghost prompt = { λ _. true };

    ghost starts = { λ _. true };

    fn start(&self) -> Result<EndingRun<Repeated<T>, u8>, Refusal> {
        Ok(EndingRun::new(*self))
    }

    ghost uncancelled = { λ f xs h. list-uncancelled _ None xs h };
}

/// The list of a value, so many times.
pub fn repeated_list<T: Copy>(
    alloc: Global,
    value: T,
    times: u32,
    cx: &mut Context<'_>,
) -> Result<Collected<T, u8>, Refusal>
    ensures { IfOk result (λ list. trace_of list ≡ whole_list (replicate times value)) }
{
    let flow = Repeated { value, times };
    to_list(alloc, flow.start()?, cx)
}
