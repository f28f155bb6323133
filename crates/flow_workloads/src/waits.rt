//! Values that go from thread to thread one at a time, so that the threads wait for each other: beside nothing else, and beside
//! as many busy threads as there are processors.

use crate::course::Emitters;
use crate::fan_out::Cast;
use crate::tally::Tally;
use crate::{answering, fan_out};
use std::alloc::AllocGlobal;
use std::random::RandomSource;
use std::sync::Wait;
use std::sync::atomic::{AtomicBool, Ordering};
use std::thread;
use std::thread::{Threads, available_parallelism, for_each_mut};
use workload_inputs::{Random, Scale};

/// How many values go through flows of how many places, and how often two threads answer each other by two states.
#[derive(Clone, Copy)]
struct Errand {
    flows: [(u64, u64); 4],
    turns: u64,
}

/// What is done beside nothing else.
const FREE: Errand = Errand {
    flows: [(0, 30_000), (1, 100_000), (8, 300_000), (64, 600_000)],
    turns: 10_000,
};

/// What is done beside busy threads.
const BUSY: Errand = Errand {
    flows: [(0, 60), (1, 200), (8, 600), (64, 4_000)],
    turns: 100,
};

/// How many threads are busy where the number of processors isn't known.
const PROCESSORS: usize = 4;

impl Errand {
    /// Does it.
    fn run<R>(self, rt: &R, random: &mut Random, scale: Scale, tally: &mut Tally)
    where
        R: AllocGlobal + RandomSource + Threads + Wait + Sync,
    {
        for (places, values) in self.flows {
            let cast = Cast {
                places,
                emitters: Emitters::One,
                values: scale.of(values),
                listeners: 1,
            };
            fan_out::run(rt, cast, random, tally);
        }
        answering::run(rt, (random.next(), scale.of(self.turns)), tally);
    }
}

/// Counts until it is over.
#[inline(never)]
fn count_until(rt: &impl Wait, is_over: &AtomicBool, count: &mut u64) {
    for _ in rt.forever() {
        if is_over.load(Ordering::SeqCst) {
            break;
        }
        *count = count.wrapping_add(1);
    }
}

/// Each counts in a thread of its own until it is over.
fn count_all<R>(rt: &R, is_over: &AtomicBool, counts: &mut [u64])
where
    R: Threads + Wait + Sync,
{
    let threads = counts.len().max(1);
    for_each_mut(
        rt,
        counts,
        threads,
        &|_, count: &mut u64| { count_until(rt, is_over, count) },
    );
}

/// How many threads keep all processors busy.
fn processors(rt: &impl Threads) -> usize {
    match available_parallelism(rt) {
        Ok(count) => count.get(),
        Err(_) => PROCESSORS,
    }
}

/// Does an errand beside busy threads, which end with it.
fn beside_busy<R>(rt: &R, random: &mut Random, scale: Scale, tally: &mut Tally)
where
    R: AllocGlobal + RandomSource + Threads + Wait + Sync,
{
    let is_over = AtomicBool::new(false);
    if let Some(mut counts) = tally.noted(Vec::from_elem(rt.alloc(), 0u64, processors(rt))) {
        thread::join(
            rt,
            || {
                BUSY.run(rt, random, scale, tally);
                is_over.store(true, Ordering::SeqCst);
            },
            || count_all(rt, &is_over, counts.as_mut_slice()),
        );
    }
}

/// Does both.
pub(crate) fn run<R>(rt: &R, random: &mut Random, scale: Scale, tally: &mut Tally)
where
    R: AllocGlobal + RandomSource + Threads + Wait + Sync,
{
    FREE.run(rt, random, scale, tally);
    beside_busy(rt, random, scale, tally);
}
