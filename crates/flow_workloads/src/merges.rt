//! Flows of several sources.

use crate::actions::{Adds, IsSeldom};
use crate::chains::numbers;
use crate::repeated::Repeats;
use crate::tally::Tally;
use crate::values::{fold_all, fold_combined, fold_zipped};
use cold_flow::{Flow, filter, map, range};
use flow_merge::{flat_map_concat, flat_map_merge};
use futures::task::Solo;
use std::alloc::Global;
use workload_inputs::{Random, Scale};

/// How many values the longest source has.
const VALUES: u64 = 5_000_000;

/// How many flows of each shape there are.
const FLOWS: u64 = 5;

/// The sums of a range's values and those of a filtered one, pair by pair.
fn zipped(task: &Solo, random: &mut Random, tally: &mut Tally, values: u64) {
    let left = numbers(random, values);
    fold_zipped_seldom(task, tally, left, range::<u64>(0, values));
}

/// The sums of the one flow's values and those of the other that are seldom, pair by pair.
pub(crate) fn fold_zipped_seldom<A, B>(task: &Solo, tally: &mut Tally, left: A, right: B)
where
    A: Flow<Item = u64, Fault = u64>,
    B: Flow<Item = u64, Fault = u64>,
{
    fold_zipped(task, tally, left, filter(right, IsSeldom));
}

/// The sums of the latest values of two ranges.
fn combined(task: &Solo, random: &mut Random, tally: &mut Tally, values: u64) {
    let left = numbers(random, values);
    let right = map(range::<u64>(0, values / 2), Adds(random.next()));
    fold_combined(task, tally, left, right);
}

/// Folds the inner flows of these values, one after the other.
fn fold_concatenated<F>(task: &Solo, tally: &mut Tally, outer: F)
where
    F: Flow<Item = u64, Fault = u64>,
{
    fold_all(task, tally, flat_map_concat(outer, Repeats));
}

/// Folds the inner flows of these values, some at once.
fn fold_merged<F>(alloc: Global, task: &Solo, tally: &mut Tally, outer: F)
where
    F: Flow<Item = u64, Fault = u64>,
{
    if let Some(merged) = tally.noted(flat_map_merge(alloc, outer, Repeats, 8)) {
        fold_all(task, tally, merged);
    }
}

/// Runs each flow.
pub(crate) fn run(
    alloc: Global,
    task: &Solo,
    random: &mut Random,
    scale: Scale,
    tally: &mut Tally,
) {
    for _ in 0..FLOWS {
        zipped(task, random, tally, scale.of(VALUES));
        combined(task, random, tally, scale.of(VALUES));
        fold_concatenated(task, tally, numbers(random, scale.of(VALUES)));
        fold_merged(alloc, task, tally, numbers(random, scale.of(VALUES / 10)));
    }
}
