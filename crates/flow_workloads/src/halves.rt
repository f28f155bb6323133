//! A buffer between two threads, whose ends are of unequal pace.

use crate::acting::{Acts, both};
use crate::actions::Adds;
use crate::tally::Tally;
use cold_flow::{EndingRun, Event, Mapped, Numbers, Policy, Run, map, range};
use flow_buffer::{Drain, Feed, Fill, split};
use futures::task::{Doorbell, Solo};
use std::alloc::AllocGlobal;
use std::random::RandomSource;
use std::sync::Wait;
use std::thread::Threads;
use workload_inputs::{Random, Scale};

/// Each capacity, with the number of values that go through.
const BUFFERS: [(u64, u64); 4] = [(1, 30_000), (4, 150_000), (64, 800_000), (1024, 2_000_000)];

/// Pumps until the end.
#[inline(never)]
fn feed_all<U: Run>(rt: &impl Wait, task: &Solo, feed: &mut Feed<U>) {
    let mut cx = task.begin();
    for _ in rt.forever() {
        if feed.pump(rt, &mut cx) == Fill::Ended {
            break;
        }
    }
    cx.cancel();
}

/// Takes until the end, and gives the tally of all, and of why it ended.
#[inline(never)]
fn drain_all(rt: &impl Wait, drain: &mut Drain<u64, u64>) -> Tally {
    let mut tally = Tally::new();
    for _ in rt.forever() {
        match drain.next(rt) {
            Event::Value(value) => tally.number(value),
            Event::End(cause) => {
                tally.ended(cause);
                break;
            }
        }
    }
    tally
}

/// A run of what goes into a buffer: the numbers of a range, each with an amount added.
type NumberedRun = Mapped<EndingRun<Numbers<u64>, u64>, Adds>;

/// The end that feeds, which must be cancelled.
struct Feeding<'a> {
    task: &'a Solo,
    feed: Feed<NumberedRun>,
}

/// The end that drains, and the tally of all that it took.
#[derive(Drop)]
struct Draining {
    drain: Drain<u64, u64>,
    taken: Tally,
}

impl Acts for Feeding<'_> {
    fn act<R: Wait>(&mut self, rt: &R) {
        feed_all(rt, self.task, &mut self.feed);
    }
}

impl Acts for Draining {
    fn act<R: Wait>(&mut self, rt: &R) {
        self.taken = drain_all(rt, &mut self.drain);
    }
}

/// So many values go through a buffer of this capacity, and what was taken is taken in.
fn through<R>(
    rt: &R,
    task: &Solo,
    (capacity, values): (u64, u64),
    random: &mut Random,
    tally: &mut Tally,
)
where
    R: AllocGlobal + RandomSource + Threads + Wait + Sync,
{
    let from = random.next() >> 20;
    let numbers = range::<u64>(from, from.saturating_add(values));
    let source = map(numbers, Adds(random.next()));
    let ends = split(rt.alloc(), source, capacity, Policy::Suspend);
    if let Some((feed, drain)) = tally.noted(ends) {
        let mut feeding = Feeding { task, feed };
        let mut draining = Draining {
            drain,
            taken: Tally::new(),
        };
        both(rt, &mut feeding, &mut draining);
        let Feeding { task: _, feed } = feeding;
        feed.cancel(rt);
        tally.part(draining.taken);
    }
}

/// Runs each buffer.
pub(crate) fn run<R>(rt: &R, random: &mut Random, scale: Scale, tally: &mut Tally)
where
    R: AllocGlobal + RandomSource + Threads + Wait + Sync,
{
    if let Some(task) = tally.noted(Solo::new(rt, Doorbell::spinning())) {
        for (capacity, values) in BUFFERS {
            through(rt, &task, (capacity, scale.of(values)), random, tally);
        }
    }
}
