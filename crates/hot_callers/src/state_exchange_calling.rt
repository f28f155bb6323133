//! A caller of a state in two threads, one of which sets values and the other collects them, with the sentence for both.

ghost use Rattle.std.specs.Prelude.{◌≡◌, IfOk};
ghost use Rattle.state_flow.specs.History.{Picks};
ghost use Rattle.hot_callers.specs.StateExchanges.{AsksOn, SetsEach, history_of};

use flow_terms::Refusal;
use state_flow::{Collector, StateFlow, StateSeat};
use std::alloc::{AllocError, AllocGlobal};
use std::thread::{Threads, join_mut, yield_now};

// Sets each value.
fn set_each(seat: &mut StateSeat<u64>, values: &[u64])
    ensures { SetsEach values.now seat.old seat.new }
{
    for value in values {
        seat.set(*value);
    }
}

// Asks once for a value, which is added to a list. Without memory for it there is no ask.
fn ask_once(collector: &mut Collector<u64>, received: &mut Vec<u64>) -> Result<(), AllocError>
    requires listed { received.old.items ≡ collector.old.view.collected }
    ensures asks { AsksOn collector.old collector.new }
    ensures listed { received.new.items ≡ collector.new.view.collected }
{
    received.reserve(1)?;
    let Some(value) = collector.try_next() else {
        return Ok(());
    };
    received.push_reserved(value);
    Ok(())
}

// Asks so often for a value.
fn ask_each(
    collector: &mut Collector<u64>,
    turns: usize,
    received: &mut Vec<u64>,
) -> Result<(), AllocError>
    requires listed { received.old.items ≡ collector.old.view.collected }
    ensures asks { AsksOn collector.old collector.new }
    ensures listed { received.new.items ≡ collector.new.view.collected }
{
    for _ in 0..turns {
        ask_once(collector, received)?;
        yield_now();
    }
    Ok(())
}

// Sets in one thread, and asks in the other. Neither waits for the other.
fn set_beside_asks<R: Threads + Sync>(
    rt: &R,
    seat: &mut StateSeat<u64>,
    values: &[u64],
    collector: &mut Collector<u64>,
    turns: usize,
    received: &mut Vec<u64>,
) -> Result<(), AllocError>
    requires listed { received.old.items ≡ collector.old.view.collected }
    ensures sets { SetsEach values.now seat.old seat.new }
    ensures asks { AsksOn collector.old collector.new }
    ensures listed { received.new.items ≡ collector.new.view.collected }
{
    let ((), asked) = join_mut(
        rt,
        &mut ||
            ensures { SetsEach values.entry.now seat.entry.now seat.exit.now }
        { set_each(seat, values) },
        &mut ||
            requires { received.now.items ≡ collector.now.view.collected }
            ensures asks { AsksOn collector.entry.now collector.exit.now }
            ensures listed { received.exit.now.items ≡ collector.exit.now.view.collected }
        { ask_each(collector, turns, received) },
    );
    asked
}

/// Makes a state, sets values in one thread and collects in another, which asks so often. What was received, in its order: a
/// subsequence, without equal neighbours, of the first value and then each value that differs from the one before it.
///
/// Refused as `NoMemory`.
pub fn set_and_collect<R>(
    rt: &R,
    first: u64,
    values: &[u64],
    turns: usize,
) -> Result<Vec<u64>, Refusal>
where
    R: Threads + Sync + AllocGlobal,
    ensures { IfOk result (λ received. Picks received.items (history_of first values.now)) }
{
    let mut seat = StateFlow::new(rt.alloc(), first, 2)?;
    let mut collector = seat.take_seat(0)?.collect();
    let mut received = Vec::new(rt.alloc());
    let asked = set_beside_asks(rt, &mut seat, values, &mut collector, turns, &mut received);
    seat.give_back(collector.cancel());
    asked?;
    Ok(received)
}
