//! Flows of several sources: the worked examples of merges, and what the callers give.
ghost use Rattle.std.specs.Iterator.{at_most};

use crate::operators::checks::Check;
use crate::operators::{Case, Operator, assert_cases};
use crate::sources::NEVER;
use crate::tools::{Polling, Same, Sum, Trial, WAIT};
use cold_callers::{joined_list, zipped_lists};
use cold_flow::{Cause, Event, Numbers, Refusal, Step, range};
use flow_merge::{Bound, KnownBound, MAX_WORKERS};
use futures::task::Poll;
use std::test::Fail;

const FAILED: Polling = Poll::Ready(Event::End(Cause::Failed(7)));

const MERGES: &[Case<'_>] = &[
    // Both inner flows stand at once: the second gives while the first waits.
    Case {
        name: "merge_two_at_a_time",
        operator: Operator::Turns(3, 2),
        sources: [
            &[WAIT, WAIT, Step::Value(10)],
            &[Step::Value(20), Step::Value(21)],
            &[Step::Value(30)],
        ],
        before: (NEVER, NEVER, NEVER),
        check: Check::Gives(
            &[Poll::Ready(Event::Value(20)), Poll::Ready(Event::Value(21))],
            &[10, 30],
            Cause::Finished,
        ),
    },
    Case {
        name: "a run that has a value is asked in the poll in which the two before it wait",
        operator: Operator::Turns(3, 3),
        sources: [
            &[WAIT, WAIT, WAIT, Step::Value(10)],
            &[WAIT, WAIT, WAIT, Step::Value(20)],
            &[Step::Value(30), Step::Value(31)],
        ],
        before: (NEVER, NEVER, NEVER),
        check: Check::Gives(
            &[
                Poll::Ready(Event::Value(30)),
                Poll::Ready(Event::Value(31)),
                Poll::Pending,
            ],
            &[10, 20],
            Cause::Finished,
        ),
    },
    Case {
        name: "as many workers as may be, one of which fails",
        operator: Operator::Turns(3, MAX_WORKERS),
        sources: [&[], &[WAIT, Step::Fail(7)], &[]],
        before: (NEVER, NEVER, NEVER),
        check: Check::Gives(&[Poll::Pending, FAILED, FAILED], &[], Cause::Failed(7)),
    },
];

#[test]
fn runs_are_merged(rt: HostRuntime) -> Result<(), Fail> {
    assert_cases(&rt, MERGES)
}

// Inner runs of two polls and the end.
struct Two;

impl Bound for Two {
    ghost most = { at_most 2 };
}

impl KnownBound for Two {
    ghost known = { tt };
}

// What the caller of a zip gives.
fn compare_zipped(trial: &mut Trial) -> Result<(), Refusal> {
    let alloc = trial.alloc;
    let left = [1, 2, 3].to_vec(alloc)?;
    let right = [10, 20].to_vec(alloc)?;
    let sums = trial.task.enter(move |cx| zipped_lists::<u64, u64, u64, u64, Sum>(
        alloc, left, right, Sum, cx,
    ))?;
    trial.compare_list("zipped_lists", &sums, &[11, 22], Cause::Finished);
    Ok(())
}

// What the caller of a concatenation gives, of two numbers for each value. Where a number bounds the inner runs it is known to end,
// and so becomes a list.
fn compare_joined(trial: &mut Trial) -> Result<(), Refusal> {
    let alloc = trial.alloc;
    let outer = [10, 20].to_vec(alloc)?;
    let numbers = trial.task.enter(move |cx| {
        joined_list::<u64, u64, u64, Numbers<u64>, Same<Numbers<u64>>, Two>(
            alloc,
            outer,
            Same(range(0, 2)),
            cx,
        )
    })?;
    trial.compare_list("joined_list", &numbers, &[0, 1, 0, 1], Cause::Finished);
    Ok(())
}

#[test]
fn lists_are_zipped_and_joined(rt: HostRuntime) -> Result<(), Fail> {
    let mut trial = Trial::new(&rt)?;
    compare_zipped(&mut trial)?;
    compare_joined(&mut trial)?;
    trial.assert_none(&rt);
    Ok(())
}
