//! Slow subscriptions among many.

use crate::tallied::Tallied;
use std::alloc::Global;

/// How many places a flow of theirs has, the most that one may have.
const PLACES: u64 = 65_536;

/// How many values the slow ones take in each round. The others take none, so that they have room for as many.
const VALUES: u64 = 60_000;

/// The others come once there is one place free, and have room for more.
fn join_others(alloc: Global, calls: &mut Tallied, value: u64, count: u32) {
    calls.attempt_all(value, PLACES - 1);
    drop(calls.subscribe_all(alloc, count));
}

/// The first of so many subscriptions has one place free before each emission, and the others, who came later, have room.
pub(crate) fn one(alloc: Global, calls: &mut Tallied, value: u64, count: u32) {
    let Some(slow) = calls.subscribe() else {
        return;
    };
    join_others(alloc, calls, value, count.saturating_sub(1));
    for _ in 0..VALUES {
        calls.attempt(value);
        calls.take(slow);
    }
}

/// The first two of so many have no place free after an emission, and take a value by turns, with a try after the first.
pub(crate) fn two(alloc: Global, calls: &mut Tallied, value: u64, count: u32) {
    let (Some(one), Some(other)) = (calls.subscribe(), calls.subscribe()) else {
        return;
    };
    join_others(alloc, calls, value, count.saturating_sub(2));
    for turn in 0..VALUES {
        calls.attempt(value);
        let (first, second) = if turn % 2 == 0 {
            (one, other)
        } else {
            (other, one)
        };
        calls.take(first);
        calls.attempt(value);
        calls.take(second);
    }
}
