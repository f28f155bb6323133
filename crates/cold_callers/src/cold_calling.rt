//! Callers of cold flows: what comes out of a chain is fixed by its contract, also over a flow of one's own.

ghost use Rattle.std.specs.Prelude.{◌≡◌, ◌<◌, Some, None, true, is_some, IfOk};
ghost use Rattle.std.specs.Iterator.{at_most};
ghost use Rattle.cold_flow.specs.declared.cause.Cause.TheVariants.{Finished};
ghost use Rattle.cold_flow.specs.Trace.{ended_by, map_trace, take_trace};
ghost use Rattle.cold_flow.specs.Poll.{Beginnings, Unless};
ghost use Rattle.cold_callers.specs.Countdown.{down_from};
ghost use Rattle.cold_callers.specs.Lists.{trace_of, whole_list, chain_trace};

use cold_flow::{
    Apply, Cause, Collected, Event, Finite, Flow, Refusal, Run, distinct, drop_first, filter, map,
    of, range, take, to_list,
};
use futures::task::{Context, Poll};
use std::alloc::Global;

/// The list of `function` of each value.
pub fn mapped_list<T: Copy, U: Copy, E: Copy, G: Apply<T, Out = U>>(
    alloc: Global,
    values: Vec<T>,
    function: G,
    cx: &mut Context<'_>,
) -> Result<Collected<U, E>, Refusal>
    ensures { IfOk result (λ list. trace_of list ≡ map_trace (G.gives function) (whole_list values.items)) }
{
    let flow = map(of::<T, E>(values), function);
    to_list(alloc, flow.start()?, cx)
}

/// Five operators over a range.
pub fn chain<E: Copy, G: Apply<u64, Out = u64>, H: Apply<u64, Out = bool>>(
    alloc: Global,
    to: u64,
    function: G,
    test: H,
    cx: &mut Context<'_>,
) -> Result<Collected<u64, E>, Refusal>
    ensures { IfOk result (λ list. trace_of list ≡ chain_trace ⟦<u64 as PartialEq>⟧.eq (G.gives function) (H.gives test) to) }
{
    let numbers = drop_first(range::<E>(0, to), 1);
    let flow = take(distinct(filter(map(numbers, function), test)), 3)?;
    to_list(alloc, flow.start()?, cx)
}

/// A flow of one's own: the numbers from `from` down to 1.
#[derive(Clone, Copy)]
pub struct Countdown {
    pub from: u32,
}

/// Its run.
#[derive(Drop)]
pub struct CountdownRun {
    left: u32,
    ended: Option<Cause<u8>>,
}

impl Flow for Countdown {
    ghost use Rattle.cold_flow.specs.Laws.{list-uncancelled};

    type Item = u32;

    type Fault = u8;

    type Running = CountdownRun;

    ghost may = { λ f. Beginnings (ended_by (down_from f.from) Finished) };

    ghost polls = { λ f. at_most f.from };

    ghost prompt = { λ _. true };

    ghost starts = { λ _. true };

    fn start(&self) -> Result<CountdownRun, Refusal> {
        Ok(CountdownRun {
            left: self.from,
            ended: None,
        })
    }

    ghost uncancelled = { λ f xs h. list-uncancelled _ None xs h };
}

impl Run for CountdownRun {
    ghost use Rattle.cold_flow.specs.Laws.{Unless-begins, Unless-over, begins-any, some-stops};

    type Item = u32;

    type Fault = u8;

    ghost may = { λ r. Unless r.ended (Beginnings (ended_by (down_from r.left) Finished)) };

    ghost ended = { λ r. r.ended };

    ghost stopped = { λ r. is_some r.ended };

    ghost polls = { λ r. at_most r.left };

    ghost prompt = { λ _. true };

    fn poll_next(&mut self, _cx: &mut Context<'_>) -> Poll<Event<u32, u8>> {
        if let Some(cause) = self.ended {
            return Poll::Ready(Event::End(cause));
        }
        if self.left == 0 {
            self.ended = Some(Cause::Finished);
            return Poll::Ready(Event::End(Cause::Finished));
        }
        let number = self.left;
        self.left -= 1;
        Poll::Ready(Event::Value(number))
    }

    fn end(&self) -> Option<Cause<u8>> {
        self.ended
    }

    fn cancel(&mut self) {
        if self.ended.is_none() {
            self.ended = Some(Cause::Cancelled);
        }
    }

    ghost halts = { λ r. some-stops r.ended };

    ghost begins = { λ r. Unless-begins r.ended _ (begins-any _) };

    ghost over = { λ r. Unless-over r.ended _ };
}

impl Finite for CountdownRun {
    ghost is_finite = { λ _. tt };
}

/// The first numbers of a countdown.
pub fn taken_down(
    alloc: Global,
    from: u32,
    count: u32,
    cx: &mut Context<'_>,
) -> Result<Collected<u32, u8>, Refusal>
    ensures { IfOk result (λ list. trace_of list ≡ take_trace count (whole_list (down_from from))) }
{
    let flow = take(Countdown { from }, count)?;
    to_list(alloc, flow.start()?, cx)
}
