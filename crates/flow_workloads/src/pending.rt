//! Cold flows over sources that answer pending often.

use crate::actions::Adds;
use crate::merges::fold_zipped_seldom;
use crate::tally::Tally;
use crate::values::{fold_combined, list_all};
use cold_flow::{Finite, Flow, Step, Stepped, distinct, map, range, scripted};
use futures::task::Solo;
use std::alloc::Global;
use workload_inputs::{Random, Scale};

/// How many steps a source has.
const STEPS: u64 = 400_000;

/// How many flows of each shape there are.
const FLOWS: u64 = 5;

/// A step, every other one pending.
#[inline]
fn step(random: &mut Random) -> Step<u64, u64> {
    if random.is_one_of(1, 2) {
        Step::Pending
    } else {
        Step::Value(random.below(1000))
    }
}

/// Lists those of the values that differ from the one before.
fn list_changes<F>(alloc: Global, task: &Solo, tally: &mut Tally, values: F)
where
    F: Flow<Item = u64, Fault = u64>,
    F::Running: Finite,
{
    list_all(alloc, task, tally, distinct(values));
}

/// Lists those of the values after these that differ from the one before.
fn list_changes_after<F>(alloc: Global, task: &Solo, tally: &mut Tally, values: F)
where
    F: Flow<Item = u64, Fault = u64>,
    F::Running: Finite,
{
    list_changes(alloc, task, tally, map(values, Adds(5)));
}

/// What the sources of a flow are made of.
#[derive(Drop)]
struct Sources<'a> {
    alloc: Global,
    random: &'a mut Random,
    steps: u64,
}

impl Sources<'_> {
    /// The next one, of so many steps, which fails at its end where that is asked for.
    fn next(&mut self, tally: &mut Tally, fails: bool) -> Stepped<u64, u64> {
        let mut script = Vec::new(self.alloc);
        for _ in 0..self.steps {
            tally.noted(script.push(step(self.random)));
        }
        if fails {
            tally.noted(script.push(Step::Fail(self.random.next())));
        }
        scripted(script)
    }

    /// One through two operators, listed.
    fn listed(&mut self, task: &Solo, tally: &mut Tally) {
        let plain = self.next(tally, true);
        list_changes_after(self.alloc, task, tally, plain);
    }

    /// One with a range, pair by pair.
    fn zipped(&mut self, task: &Solo, tally: &mut Tally) {
        let left = self.next(tally, false);
        fold_zipped_seldom(task, tally, left, range::<u64>(0, self.steps));
    }

    /// The latest values of two.
    fn combined(&mut self, task: &Solo, tally: &mut Tally) {
        let left = self.next(tally, false);
        let right = self.next(tally, true);
        fold_combined(task, tally, left, right);
    }
}

/// Runs each flow.
pub(crate) fn run(
    alloc: Global,
    task: &Solo,
    random: &mut Random,
    scale: Scale,
    tally: &mut Tally,
) {
    let mut sources = Sources {
        alloc,
        random,
        steps: scale.of(STEPS),
    };
    for _ in 0..FLOWS {
        sources.listed(task, tally);
        sources.zipped(task, tally);
        sources.combined(task, tally);
    }
}
