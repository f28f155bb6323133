//! States: bursts of sets that collectors ask for now and then, and two threads that count up one state.

use crate::acting::{Acts, both};
use crate::ending::{Ends, end_all};
use crate::tally::Tally;
use cold_flow::Refusal;
use state_flow::{Collector, StateFlow, StateSeat};
use std::alloc::{AllocGlobal, Global};
use std::random::RandomSource;
use std::sync::Wait;
use std::thread::Threads;
use workload_inputs::{Random, Scale};

/// How many bursts there are.
const BURSTS: u64 = 200_000;

/// How often each of two threads counts up.
const COUNTS: u64 = 400_000;

/// How many collectors there are.
const COLLECTORS: u32 = 8;

/// So many collectors of a state, or fewer where one is refused.
fn collect_all(alloc: Global, seat: &mut StateSeat<u64>, count: u32) -> Vec<Collector<u64>> {
    let mut collectors = Vec::new(alloc);
    for _ in 0..count {
        let Ok(taken) = seat.take_seat(0) else {
            break;
        };
        if let Err(refused) = collectors.push(taken.collect()) {
            drop(refused.value.cancel());
        }
    }
    collectors
}

impl Ends for Collector<u64> {
    fn end<R: Wait>(self, _rt: &R, _tally: &mut Tally) {
        drop(self.cancel());
    }
}

/// Each collector but a few asks, and what it is given is taken in.
fn ask_all(collectors: &mut Vec<Collector<u64>>, random: &mut Random, tally: &mut Tally) {
    for collector in collectors.iter_mut() {
        if random.is_one_of(1, 4) {
            continue;
        }
        tally.given(collector.try_next());
    }
}

/// Bursts of sets, some of an equal value, with asks after each.
fn bursts(
    seat: &mut StateSeat<u64>,
    collectors: &mut Vec<Collector<u64>>,
    random: &mut Random,
    tally: &mut Tally,
    count: u64,
) {
    for _ in 0..count {
        for _ in 0..1 + random.below(8) {
            seat.set(random.below(6));
        }
        let swapped = seat.compare_and_set(random.below(6), random.below(6));
        tally.number(u64::from(swapped));
        tally.number(seat.value());
        ask_all(collectors, random, tally);
    }
}

/// Counts a state up so many times.
#[inline(never)]
fn count_up(rt: &impl Wait, seat: &mut StateSeat<u64>, counts: u64) {
    let mut done: u64 = 0;
    for _ in rt.forever() {
        if done >= counts {
            break;
        }
        let value = seat.value();
        if seat.compare_and_set(value, value.wrapping_add(1)) {
            done = done.wrapping_add(1);
        }
    }
}

/// Who counts a state up so many times.
#[derive(Drop)]
struct Counter {
    seat: StateSeat<u64>,
    counts: u64,
}

impl Acts for Counter {
    fn act<R: Wait>(&mut self, rt: &R) {
        count_up(rt, &mut self.seat, self.counts);
    }
}

/// Two threads count up one state that begins at a number.
fn counted<R>(rt: &R, from: u64, counts: u64) -> Result<u64, Refusal>
where
    R: AllocGlobal + RandomSource + Threads + Wait + Sync,
{
    let mut seat = StateFlow::new(rt.alloc(), from, 2)?;
    let other_seat = seat.take_seat(0)?;
    let mut one = Counter { seat, counts };
    let mut other = Counter {
        seat: other_seat,
        counts,
    };
    both(rt, &mut one, &mut other);
    Ok(one.seat.value())
}

/// Bursts on a new state.
fn run_bursts<R>(rt: &R, random: &mut Random, tally: &mut Tally, count: u64)
where
    R: AllocGlobal + Wait,
{
    if let Some(mut seat) = tally.noted(StateFlow::new(rt.alloc(), 0u64, COLLECTORS + 1)) {
        let mut collectors = collect_all(rt.alloc(), &mut seat, COLLECTORS);
        bursts(&mut seat, &mut collectors, random, tally, count);
        end_all(rt, collectors, tally);
    }
}

/// Runs both.
pub(crate) fn run<R>(rt: &R, random: &mut Random, scale: Scale, tally: &mut Tally)
where
    R: AllocGlobal + RandomSource + Threads + Wait + Sync,
{
    run_bursts(rt, random, tally, scale.of(BURSTS));
    // A copy, so that what comes after has the same numbers whether or not this takes one.
    let mut ahead = *random;
    if let Some(value) = tally.noted(counted(rt, ahead.next(), scale.of(COUNTS))) {
        tally.number(value);
    }
}
