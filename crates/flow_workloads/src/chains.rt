//! Cold flows through operators. A function adds one or two of them to a flow of any shape, since a proof costs more the more
//! operators a shape has.

use crate::actions::{Adds, Concludes, Halves, IsSeldom, Pairs, Recovers};
use crate::tally::Tally;
use crate::values::{fold_all, list_all};
use crate::{merges, pending, sharing};
use cold_flow::{
    Finite, Flow, Listed, Numbers, catch_with, distinct, drop_first, failing, filter, map,
    on_completion, range, take, transform,
};
use futures::task::{Doorbell, Solo};
use std::alloc::{AllocGlobal, Global};
use std::random::RandomSource;
use std::sync::Wait;
use workload_inputs::{Random, Scale};

/// How many values the longest source has.
const VALUES: u64 = 10_000_000;

/// How many chains of each shape there are.
const CHAINS: u64 = 5;

/// So many numbers, from one that is below 2^44.
pub(crate) fn numbers(random: &mut Random, values: u64) -> Numbers<u64> {
    let from = random.next() >> 20;
    range::<u64>(from, from.saturating_add(values))
}

/// Folds those of the values that are seldom.
fn fold_seldom<F>(task: &Solo, tally: &mut Tally, values: F)
where
    F: Flow<Item = u64, Fault = u64>,
{
    fold_all(task, tally, filter(values, IsSeldom));
}

/// Three operators over a range.
fn short_chain(task: &Solo, random: &mut Random, tally: &mut Tally, values: u64) {
    let numbers = numbers(random, values);
    fold_seldom(task, tally, map(numbers, Adds(random.next())));
}

/// Folds the first of the values, which are all of them.
fn fold_first<F>(task: &Solo, tally: &mut Tally, values: F)
where
    F: Flow<Item = u64, Fault = u64>,
{
    if let Some(first) = tally.noted(take(values, u32::MAX)) {
        fold_all(task, tally, first);
    }
}

/// Three operators over these values.
fn seldom_of<F>(task: &Solo, tally: &mut Tally, values: F, amount: u64)
where
    F: Flow<Item = u64, Fault = u64>,
{
    fold_first(task, tally, filter(map(values, Adds(amount)), IsSeldom));
}

/// Five operators over these values.
fn halves_of<F>(task: &Solo, tally: &mut Tally, values: F, amount: u64)
where
    F: Flow<Item = u64, Fault = u64>,
{
    seldom_of(task, tally, distinct(map(values, Halves)), amount);
}

/// Six operators over a range.
fn long_chain(task: &Solo, random: &mut Random, tally: &mut Tally, values: u64) {
    let numbers = numbers(random, values);
    halves_of(task, tally, drop_first(numbers, 1000), random.next());
}

/// Folds these values and a last one.
fn fold_concluded<F>(task: &Solo, tally: &mut Tally, values: F, last: u64)
where
    F: Flow<Item = u64, Fault = u64>,
{
    fold_all(task, tally, on_completion(values, Concludes(last)));
}

/// Two values for each of these, and a last one.
fn pairs_of<F>(task: &Solo, tally: &mut Tally, values: F, last: u64)
where
    F: Flow<Item = u64, Fault = u64>,
{
    fold_concluded(task, tally, transform(values, Pairs), last);
}

/// Two values for each of a range, and a last one.
fn pairs_chain(task: &Solo, random: &mut Random, tally: &mut Tally, values: u64) {
    let numbers = numbers(random, values);
    pairs_of(task, tally, filter(numbers, IsSeldom), random.next());
}

/// A list of so many values that fails late.
fn failing_values(
    alloc: Global,
    random: &mut Random,
    tally: &mut Tally,
    values: u64,
) -> Listed<u64, u64> {
    let mut list = Vec::new(alloc);
    for _ in 0..values {
        tally.noted(list.push(random.next()));
    }
    failing(list, random.next())
}

/// Lists those of the values that are seldom.
fn list_seldom<F>(alloc: Global, task: &Solo, tally: &mut Tally, values: F)
where
    F: Flow<Item = u64, Fault = u64>,
    F::Running: Finite,
{
    list_all(alloc, task, tally, filter(values, IsSeldom));
}

/// Lists those of the values after these that are seldom.
fn list_after<F>(alloc: Global, task: &Solo, tally: &mut Tally, values: F)
where
    F: Flow<Item = u64, Fault = u64>,
    F::Running: Finite,
{
    list_seldom(alloc, task, tally, map(values, Adds(1)));
}

/// Folds these values, and where they fail, the fault as the last one.
fn fold_caught<F>(task: &Solo, tally: &mut Tally, values: F)
where
    F: Flow<Item = u64, Fault = u64>,
{
    fold_all(task, tally, catch_with(values, Recovers));
}

/// Folds the halves of these values, and where they fail, the fault as the last one.
fn fold_halves_caught<F>(task: &Solo, tally: &mut Tally, values: F)
where
    F: Flow<Item = u64, Fault = u64>,
{
    fold_caught(task, tally, map(values, Halves));
}

/// Lists of values that fail late: one is listed, one is caught.
fn of_lists(alloc: Global, task: &Solo, random: &mut Random, tally: &mut Tally, values: u64) {
    let listed = failing_values(alloc, random, tally, values);
    list_after(alloc, task, tally, listed);
    let caught = failing_values(alloc, random, tally, values);
    fold_halves_caught(task, tally, caught);
}

/// The chains of one source.
fn of_one_source(alloc: Global, task: &Solo, random: &mut Random, scale: Scale, tally: &mut Tally) {
    for _ in 0..CHAINS {
        short_chain(task, random, tally, scale.of(VALUES));
        long_chain(task, random, tally, scale.of(VALUES));
        pairs_chain(task, random, tally, scale.of(VALUES / 2));
        of_lists(alloc, task, random, tally, scale.of(VALUES / 10));
    }
}

/// Runs each chain: cold flows of one source, of several, with pending answers, and shared.
pub(crate) fn run<R>(rt: &R, random: &mut Random, scale: Scale, tally: &mut Tally)
where
    R: AllocGlobal + RandomSource + Wait,
{
    if let Some(task) = tally.noted(Solo::new(rt, Doorbell::spinning())) {
        of_one_source(rt.alloc(), &task, random, scale, tally);
        merges::run(rt.alloc(), &task, random, scale, tally);
        pending::run(rt.alloc(), &task, random, scale, tally);
        sharing::run(rt, &task, random, scale, tally);
    }
}
