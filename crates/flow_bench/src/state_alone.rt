//! A state flow on one thread: sets, reads, and sets that a collector asks about.

use crate::fault::Fault;
use crate::measured::{Measured, now};
use state_flow::{Collector, StateFlow, StateSeat};
use std::alloc::AllocGlobal;
use std::rt::Clock;

/// Sets without a collector. The total is the last value.
pub(crate) fn sets<R: Clock + AllocGlobal>(rt: &R, calls: u64) -> Result<Measured, Fault> {
    let mut seat = StateFlow::new(rt.alloc(), 0u64, 1)?;
    Ok(timed_sets(rt, &mut seat, calls))
}

/// Reads of the value 1. The total is their sum.
pub(crate) fn reads<R: Clock + AllocGlobal>(rt: &R, calls: u64) -> Result<Measured, Fault> {
    let mut seat = StateFlow::new(rt.alloc(), 1u64, 1)?;
    let start = now(rt);
    let total = sum_of_reads(&mut seat, calls);
    Ok(Measured::since(rt, start, total))
}

/// Sets the numbers from 1 to `last`. The total is the value after them.
pub(crate) fn timed_sets(rt: &impl Clock, seat: &mut StateSeat<u64>, last: u64) -> Measured {
    let start = now(rt);
    set_up_to(seat, last);
    let mut measured = Measured::since(rt, start, 0);
    measured.total = seat.value();
    measured
}

/// So many sets and asks. The total is the sum of what the collector gave.
pub(crate) fn sets_and_asks<R: Clock + AllocGlobal>(rt: &R, calls: u64) -> Result<Measured, Fault> {
    let mut seat = StateFlow::new(rt.alloc(), 0u64, 2)?;
    let other = seat.take_seat(0)?;
    let start = now(rt);
    let mut collector = other.collect();
    let total = set_and_ask(&mut seat, &mut collector, calls);
    drop(collector.cancel());
    Ok(Measured::since(rt, start, total))
}

/// Sets the numbers from 1 to `last`.
#[inline(never)]
fn set_up_to(seat: &mut StateSeat<u64>, last: u64) {
    let mut value: u64 = 0;
    for _ in 0..last {
        value = value.wrapping_add(1);
        seat.set(value);
    }
}

/// Reads so often, and adds up what was read.
#[inline(never)]
fn sum_of_reads(seat: &mut StateSeat<u64>, calls: u64) -> u64 {
    let mut total: u64 = 0;
    for _ in 0..calls {
        total = total.wrapping_add(seat.value());
    }
    total
}

/// Sets one more than what the collector gave last, and asks it.
#[inline(never)]
fn set_and_ask(seat: &mut StateSeat<u64>, collector: &mut Collector<u64>, calls: u64) -> u64 {
    let mut last: u64 = 0;
    let mut total: u64 = 0;
    for _ in 0..calls {
        seat.set(last.wrapping_add(1));
        last = collector.try_next().unwrap_or(0);
        total = total.wrapping_add(last);
    }
    total
}
