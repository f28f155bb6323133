//! The values of cold flows, taken into a digest.

use crate::actions::{Mixes, Sum};
use crate::fault::Fault;
use crate::tally::Tally;
use cold_flow::{Cause, Collected, Finite, Flow, Folding, Refusal, Run, fold, to_list};
use flow_merge::{combine, zip};
use futures::task::{Poll, Solo};
use std::alloc::Global;

/// Polls until the fold is ready, and gives what it came to.
#[inline(never)]
fn folded<U: Run<Item = u64, Fault = u64>>(
    task: &Solo,
    mut folding: Folding<U, u64, Mixes>,
) -> Option<(u64, Cause<u64>)> {
    let mut cx = task.begin();
    let mut found = None;
    for _ in 0..u64::MAX {
        if let Poll::Ready(ended) = folding.poll(&mut cx) {
            found = Some(ended);
            break;
        }
    }
    cx.cancel();
    found
}

/// Starts a flow, folds its values, and takes in what that came to.
pub(crate) fn fold_all<F>(task: &Solo, tally: &mut Tally, flow: F)
where
    F: Flow<Item = u64, Fault = u64>,
{
    let Some(run) = tally.noted(flow.start()) else {
        return;
    };
    match folded(task, fold(run, 0, Mixes)) {
        Some((value, cause)) => {
            tally.number(value);
            tally.ended(cause);
        }
        None => tally.note(Fault::Ended),
    }
}

/// Folds the sums of two flows, pair by pair.
pub(crate) fn fold_zipped<A, B>(task: &Solo, tally: &mut Tally, left: A, right: B)
where
    A: Flow<Item = u64, Fault = u64>,
    B: Flow<Item = u64, Fault = u64>,
{
    fold_all(task, tally, zip(left, right, Sum));
}

/// Folds the sums of the latest values of two flows.
pub(crate) fn fold_combined<A, B>(task: &Solo, tally: &mut Tally, left: A, right: B)
where
    A: Flow<Item = u64, Fault = u64>,
    B: Flow<Item = u64, Fault = u64>,
{
    fold_all(task, tally, combine(left, right, Sum));
}

/// What a flow gives, listed, and how it ended.
fn listed<F>(alloc: Global, task: &Solo, flow: F) -> Result<Collected<u64, u64>, Refusal>
where
    F: Flow<Item = u64, Fault = u64>,
    F::Running: Finite,
{
    let run = flow.start()?;
    let mut cx = task.begin();
    let listed = to_list(alloc, run, &mut cx);
    cx.cancel();
    listed
}

/// Starts a flow, lists its values, and takes them in.
pub(crate) fn list_all<F>(alloc: Global, task: &Solo, tally: &mut Tally, flow: F)
where
    F: Flow<Item = u64, Fault = u64>,
    F::Running: Finite,
{
    if let Some(list) = tally.noted(listed(alloc, task, flow)) {
        for value in &list.values {
            tally.number(*value);
        }
        tally.ended(list.cause);
    }
}
