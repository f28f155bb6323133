//! A buffer between two threads: one pumps a range in, the other takes it out, and nothing is dropped.

use crate::fault::Fault;
use crate::measured::{Measured, now};
use cold_flow::{EndingRun, Event, Numbers, Policy, Refusal, Run, range};
use flow_buffer::{Drain, Feed, Fill, split};
use futures::task::{Doorbell, Solo};
use std::alloc::AllocGlobal;
use std::random::RandomSource;
use std::rt::Clock;
use std::sync::Wait;
use std::thread;
use std::thread::Threads;

/// Measures how long so many values take from one thread to the other. The total is the number of those that came in order.
pub(crate) fn through<R>(rt: &R, capacity: u64, values: u64) -> Result<Measured, Fault>
where
    R: Clock + AllocGlobal + RandomSource + Threads + Wait + Sync,
{
    let task = Solo::new(rt, Doorbell::spinning())?;
    Ok(through_in(rt, &task, capacity, values)?)
}

/// The same in this task.
fn through_in<R>(rt: &R, task: &Solo, capacity: u64, values: u64) -> Result<Measured, Refusal>
where
    R: Clock + AllocGlobal + Threads + Wait + Sync,
{
    let start = now(rt);
    let (mut feed, mut drain) = split(
        rt.alloc(),
        range::<u64>(0, values),
        capacity,
        Policy::Suspend,
    )?;
    let total = hand_over(rt, task, &mut feed, &mut drain);
    feed.cancel(rt);
    Ok(Measured::since(rt, start, total))
}

/// One thread feeds, another drains.
fn hand_over<R>(
    rt: &R,
    task: &Solo,
    feed: &mut Feed<EndingRun<Numbers<u64>, u64>>,
    drain: &mut Drain<u64, u64>,
) -> u64
where
    R: Threads + Wait + Sync,
{
    let ((), total) = thread::join(rt, || feed_all(rt, task, feed), || drain_all(rt, drain));
    total
}

/// Pumps until the end.
fn feed_all<U: Run>(rt: &impl Wait, task: &Solo, feed: &mut Feed<U>) {
    let mut cx = task.begin();
    for _ in rt.forever() {
        if feed.pump(rt, &mut cx) == Fill::Ended {
            break;
        }
    }
    cx.cancel();
}

/// Takes until the end, and gives the number of values, if each was one above the one before.
fn drain_all(rt: &impl Wait, drain: &mut Drain<u64, u64>) -> u64 {
    let mut next: u64 = 0;
    let mut in_order = true;
    for _ in rt.forever() {
        match drain.next(rt) {
            Event::Value(value) => {
                in_order = in_order && value == next;
                next = value.wrapping_add(1);
            }
            Event::End(_) => break,
        }
    }
    if in_order { next } else { 0 }
}
