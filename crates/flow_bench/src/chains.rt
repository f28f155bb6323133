//! Chains of cold flows, folded to one sum.

ghost use Rattle.std.specs.Prelude.{◌+◌, ◌%◌, ◌^◌, nat_lt};

use crate::fault::Fault;
use crate::measured::{Measured, now};
use cold_flow::{Apply, Cause, Flow, Folding, Refusal, Run, filter, fold, map, range};
use flow_merge::zip;
use futures::task::{Doorbell, Poll, Solo};
use std::alloc::AllocGlobal;
use std::random::RandomSource;
use std::rt::Clock;

/// One more, modulo 2^64.
#[derive(Clone, Copy)]
pub(crate) struct OneMore;

impl Apply<u64> for OneMore {
    type Out = u64;

    ghost gives = { λ _ value. (value + 1) % 2 ^ 64 };

    fn apply(&self, argument: u64) -> u64 {
        argument.wrapping_add(1)
    }
}

/// Whether a value is even.
#[derive(Clone, Copy)]
pub(crate) struct IsEven;

impl Apply<u64> for IsEven {
    type Out = bool;

    ghost gives = { λ _ value. nat_lt (value % 2) 1 };

    fn apply(&self, argument: u64) -> bool {
        argument % 2 < 1
    }
}

/// The sum of two values, modulo 2^64.
#[derive(Clone, Copy)]
pub(crate) struct Sum;

impl Apply<(u64, u64)> for Sum {
    type Out = u64;

    ghost gives = { λ _ pair. (pair.0 + pair.1) % 2 ^ 64 };

    fn apply(&self, argument: (u64, u64)) -> u64 {
        argument.0.wrapping_add(argument.1)
    }
}

/// The sum of a range's numbers, each one more, that are even.
pub(crate) fn chain<R>(rt: &R, elements: u64) -> Result<Measured, Fault>
where
    R: Clock + AllocGlobal + RandomSource,
{
    even_of(rt, map(range::<u64>(0, elements), OneMore))
}

// A function adds an operator or two to a flow of any shape, since a proof costs more the more operators a shape has.
/// The sum of those values that are even.
fn even_of<R, F>(rt: &R, values: F) -> Result<Measured, Fault>
where
    R: Clock + AllocGlobal + RandomSource,
    F: Flow<Item = u64, Fault = u64>,
{
    folded(rt, filter(values, IsEven))
}

/// The sum of two ranges' pairs.
pub(crate) fn pairs<R>(rt: &R, elements: u64) -> Result<Measured, Fault>
where
    R: Clock + AllocGlobal + RandomSource,
{
    let numbers = range::<u64>(0, elements);
    pairs_of(rt, numbers, numbers)
}

/// The sum of two flows' pairs.
fn pairs_of<R, A, B>(rt: &R, left: A, right: B) -> Result<Measured, Fault>
where
    R: Clock + AllocGlobal + RandomSource,
    A: Flow<Item = u64, Fault = u64>,
    B: Flow<Item = u64, Fault = u64>,
{
    folded(rt, zip(left, right, Sum))
}

/// The sum of all that the flow gives.
pub(crate) fn folded<R, F>(rt: &R, flow: F) -> Result<Measured, Fault>
where
    R: Clock + AllocGlobal + RandomSource,
    F: Flow<Item = u64, Fault = u64>,
{
    let task = Solo::new(rt, Doorbell::spinning())?;
    Ok(timed_sum(rt, &task, flow)?)
}

/// Starts the flow and adds up all that it gives. The total is 0 where it didn't finish.
fn timed_sum<R: Clock, F: Flow<Item = u64, Fault = u64>>(
    rt: &R,
    task: &Solo,
    flow: F,
) -> Result<Measured, Refusal> {
    let start = now(rt);
    let sum = sum_of(task, fold(flow.start()?, 0, Sum));
    Ok(Measured::since(rt, start, sum.unwrap_or(0)))
}

// Kept apart, as each measured loop: so the code of one doesn't move that of another.
/// Polls until the fold is ready, and gives the sum where the flow finished.
#[inline(never)]
fn sum_of<U: Run<Item = u64, Fault = u64>>(
    task: &Solo,
    mut folding: Folding<U, u64, Sum>,
) -> Option<u64> {
    let mut cx = task.begin();
    let mut sum = None;
    for _ in 0..u64::MAX {
        if let Poll::Ready((state, cause)) = folding.poll(&mut cx) {
            sum = (cause == Cause::Finished).then_some(state);
            break;
        }
    }
    cx.cancel();
    sum
}
