//! A chain of operators of `more_operators`, folded to one sum, and the loop that does the same by hand.

ghost use Rattle.std.specs.Prelude.{◌/◌, ◌%◌, ◌==◌, Some, None, nat_lt, if◌then◌else◌};

use crate::chains::{Sum, folded};
use crate::fault::Fault;
use crate::measured::{Measured, now};
use cold_flow::{Apply, Flow, range};
use more_operators::{filter_map, scan, take_while};
use std::alloc::AllocGlobal;
use std::random::RandomSource;
use std::rt::Clock;

/// Half of an even number.
#[derive(Clone, Copy)]
struct Half;

impl Apply<u64> for Half {
    type Out = Option<u64>;

    ghost gives = { λ _ value. if value % 2 == 0 then Some (value / 2) else None };

    fn apply(&self, argument: u64) -> Option<u64> {
        if argument % 2 == 0 {
            Some(argument / 2)
        } else {
            None
        }
    }
}

/// Whether a value is below a limit.
#[derive(Clone, Copy)]
struct IsBelow {
    limit: u64,
}

impl Apply<u64> for IsBelow {
    type Out = bool;

    ghost gives = { λ test value. nat_lt value test.limit };

    fn apply(&self, argument: u64) -> bool {
        argument < self.limit
    }
}

/// Half of each sum of 0 to k that is even, for k from 0 to below `elements`: those of 4j and 4j + 3, together 8j(j + 1) + 3.
/// So `elements` is a multiple of 4.
pub(crate) fn total_of(elements: u64) -> u64 {
    let quarter = elements / 4;
    let below = quarter.saturating_sub(1);
    let cubes = below
        .wrapping_mul(quarter)
        .wrapping_mul(quarter.wrapping_add(1))
        / 3;
    cubes.wrapping_mul(8).wrapping_add(quarter.wrapping_mul(3))
}

/// No half of a sum comes so high.
fn limit_of(elements: u64) -> u64 {
    elements.saturating_mul(elements)
}

/// The sum of half of each even state of a scan that adds up.
pub(crate) fn chain<R>(rt: &R, elements: u64) -> Result<Measured, Fault>
where
    R: Clock + AllocGlobal + RandomSource,
{
    halves_of(rt, scan(range::<u64>(0, elements), 0, Sum), elements)
}

/// The sum of half of each of these states that is even.
fn halves_of<R, F>(rt: &R, states: F, elements: u64) -> Result<Measured, Fault>
where
    R: Clock + AllocGlobal + RandomSource,
    F: Flow<Item = u64, Fault = u64>,
{
    below_limit(rt, filter_map(states, Half), limit_of(elements))
}

/// The sum of those of these halves that are below the limit.
fn below_limit<R, F>(rt: &R, halves: F, limit: u64) -> Result<Measured, Fault>
where
    R: Clock + AllocGlobal + RandomSource,
    F: Flow<Item = u64, Fault = u64>,
{
    folded(rt, take_while(halves, IsBelow { limit }))
}

/// The same by a loop.
pub(crate) fn by_hand<R: Clock>(rt: &R, elements: u64) -> Measured {
    let start = now(rt);
    let total = sum_by_hand(elements, limit_of(elements));
    Measured::since(rt, start, total)
}

// Kept apart, as each measured loop.
/// Half of each even sum that is below the limit.
#[inline(never)]
fn sum_by_hand(elements: u64, limit: u64) -> u64 {
    let mut state = 0u64;
    let mut total = 0u64;
    for value in 0..elements {
        state = state.wrapping_add(value);
        if state % 2 == 0 {
            let half = state / 2;
            if half >= limit {
                break;
            }
            total = total.wrapping_add(half);
        }
    }
    total
}
