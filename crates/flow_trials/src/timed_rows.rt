//! The operators of `more_operators` that are handed the moment: what they give at given moments, how often their source was asked until
//! then, and that a cancelled one asks no more. The answers are by the rules of Kotlin's operators; those of `sample` are of the example
//! in its documentation.

use crate::sources::{Counts, NEVER, Source, SourceRun};
use crate::tools::{ENDED, Polling, Trial, WAIT};
use cold_flow::{Cause, Event, Flow, Refusal, Step};
use futures::task::{Context, Poll};
use more_operators::{Expiring, Pace, Paced, debounce, sample, timeout};
use std::test::Fail;

/// A run whose polls are handed the moment.
trait Timed: Drop {
    fn poll_at(&mut self, moment: u64, cx: &mut Context<'_>) -> Polling;

    fn give_up(&mut self);
}

impl<P: Pace> Timed for Paced<SourceRun<'_>, P, u64> {
    fn poll_at(&mut self, moment: u64, cx: &mut Context<'_>) -> Polling {
        self.poll_next(moment, cx)
    }

    fn give_up(&mut self) {
        self.cancel();
    }
}

impl Timed for Expiring<SourceRun<'_>, u64> {
    fn poll_at(&mut self, moment: u64, cx: &mut Context<'_>) -> Polling {
        self.poll_next(moment, cx)
    }

    fn give_up(&mut self) {
        self.cancel();
    }
}

const FAILED: Polling = Poll::Ready(Event::End(Cause::Failed(7)));

const LATE: Polling = Poll::Ready(Event::End(Cause::Failed(9)));

const ONE: Polling = Poll::Ready(Event::Value(1));

const TWO: Polling = Poll::Ready(Event::Value(2));

const THREE: Polling = Poll::Ready(Event::Value(3));

const FOUR: Polling = Poll::Ready(Event::Value(4));

/// A moment at which it is polled; the answer, and how often the source was polled until then.
type At = (u64, (Polling, u32));

/// What the source of `debounce` gives, one a poll.
const QUIET: &[Step<u64, u64>] = &[Step::Value(2), WAIT, Step::Value(3), Step::Value(4)];

/// With a timeout of 1000: 2 stays alone for so long, 3 is followed by 4, and the end of the source lets out 4.
const DEBOUNCED: &[At] = &[
    (0, (Poll::Pending, 1)),
    (999, (Poll::Pending, 2)),
    (1_000, (TWO, 2)),
    (1_100, (Poll::Pending, 3)),
    (1_200, (Poll::Pending, 4)),
    (1_300, (FOUR, 5)),
    (1_400, (ENDED, 5)),
    (9_000, (ENDED, 5)),
];

/// Where it fails, the value that is held is lost.
const FAILING: &[At] = &[
    (0, (Poll::Pending, 1)),
    (500, (FAILED, 2)),
    (9_000, (FAILED, 2)),
];

const FAILS: &[Step<u64, u64>] = &[Step::Value(2), Step::Fail(7)];

/// What the source of `sample` gives, one each 110 milliseconds.
const COUNTED: &[Step<u64, u64>] = &[
    Step::Value(0),
    Step::Value(1),
    Step::Value(2),
    Step::Value(3),
    Step::Value(4),
];

/// With a period of 200: 1 is the last before 200, and 3 the last before 400; the end comes before 600, so 4 is lost.
const SAMPLED: &[At] = &[
    (0, (Poll::Pending, 1)),
    (110, (Poll::Pending, 2)),
    (200, (ONE, 2)),
    (220, (Poll::Pending, 3)),
    (330, (Poll::Pending, 4)),
    (400, (THREE, 4)),
    (440, (Poll::Pending, 5)),
    (550, (ENDED, 6)),
    (9_000, (ENDED, 6)),
];

/// Where it fails, the value that is held is lost, too.
const LOST: &[At] = &[
    (0, (Poll::Pending, 1)),
    (199, (FAILED, 2)),
    (9_000, (FAILED, 2)),
];

/// What is late is given late, and nothing of a window without values.
const SPARSE: &[Step<u64, u64>] = &[Step::Value(2), WAIT, Step::Value(3), WAIT];

const WAITING: &[At] = &[
    (0, (Poll::Pending, 1)),
    (250, (TWO, 1)),
    (400, (Poll::Pending, 2)),
    (700, (Poll::Pending, 3)),
    (799, (Poll::Pending, 4)),
    (800, (THREE, 4)),
];

/// What the source of `timeout` gives, one a poll.
const SLOW: &[Step<u64, u64>] = &[Step::Value(2), WAIT, WAIT, Step::Value(3), WAIT, WAIT];

/// With a limit of 1000, and the fault 9: 3 is there when it is asked for, and nothing else comes in time after it.
const EXPIRED: &[At] = &[
    (0, (TWO, 1)),
    (500, (Poll::Pending, 2)),
    (999, (Poll::Pending, 3)),
    (1_500, (THREE, 4)),
    (2_499, (Poll::Pending, 5)),
    (2_500, (LATE, 6)),
    (9_000, (LATE, 6)),
];

/// Its source fails, or finishes, before.
const PASSED: &[At] = &[(0, (TWO, 1)), (500, (FAILED, 2)), (9_000, (FAILED, 2))];

const FINISHED: &[At] = &[(0, (TWO, 1)), (500, (ENDED, 2)), (9_000, (ENDED, 2))];

/// No first value comes in time.
const NEVER_FIRST: &[At] = &[(999, (Poll::Pending, 1)), (1_000, (LATE, 2))];

/// A run of a source of these steps.
fn begun<'a>(steps: &'a [Step<u64, u64>], counts: &'a Counts) -> Result<SourceRun<'a>, Refusal> {
    Source { steps, counts }.start()
}

/// Compares a poll. One that is pending has woken its task.
fn compare_at<R: Timed>(trial: &mut Trial, name: &str, counts: &Counts, run: &mut R, at: &At) {
    let (moment, wanted) = at;
    let polled = trial.task.enter(|cx| run.poll_at(*moment, cx));
    trial.compare_wake(name, &polled);
    trial.compare_counted(name, &(polled, counts.polls.get()), wanted);
}

enum Operator {
    Debounce,
    Sample,
    Timeout,
}

struct Row<'a> {
    name: &'a str,
    operator: Operator,
    steps: &'a [Step<u64, u64>],
    polls: &'a [At],
    // After so many polls its source has ended, or it is over: then a cancellation changes nothing.
    over: usize,
    end: Cause<u64>,
}

const NEVER_OVER: usize = usize::MAX;

const ROWS: &[Row<'_>] = &[
    Row {
        name: "debounce",
        operator: Operator::Debounce,
        steps: QUIET,
        polls: DEBOUNCED,
        over: 6,
        end: Cause::Finished,
    },
    Row {
        name: "debounce, a failure",
        operator: Operator::Debounce,
        steps: FAILS,
        polls: FAILING,
        over: 2,
        end: Cause::Failed(7),
    },
    Row {
        name: "sample",
        operator: Operator::Sample,
        steps: COUNTED,
        polls: SAMPLED,
        over: 8,
        end: Cause::Finished,
    },
    Row {
        name: "sample, a failure",
        operator: Operator::Sample,
        steps: FAILS,
        polls: LOST,
        over: 2,
        end: Cause::Failed(7),
    },
    Row {
        name: "sample, late",
        operator: Operator::Sample,
        steps: SPARSE,
        polls: WAITING,
        over: NEVER_OVER,
        end: Cause::Cancelled,
    },
    Row {
        name: "timeout",
        operator: Operator::Timeout,
        steps: SLOW,
        polls: EXPIRED,
        over: 6,
        end: Cause::Failed(9),
    },
    Row {
        name: "timeout, a failure",
        operator: Operator::Timeout,
        steps: FAILS,
        polls: PASSED,
        over: 2,
        end: Cause::Failed(7),
    },
    Row {
        name: "timeout, the end",
        operator: Operator::Timeout,
        steps: &[Step::Value(2)],
        polls: FINISHED,
        over: 2,
        end: Cause::Finished,
    },
    Row {
        name: "timeout, from its start on",
        operator: Operator::Timeout,
        steps: &[WAIT, WAIT],
        polls: NEVER_FIRST,
        over: 2,
        end: Cause::Failed(9),
    },
];

/// Compares the first `count` polls, and then a cancellation: the next poll is it, or the end that was there before, and asks nothing.
fn compare_run<R: Timed>(
    trial: &mut Trial,
    row: &Row<'_>,
    counts: &Counts,
    run: &mut R,
    count: usize,
) {
    for at in row.polls.iter().take(count) {
        compare_at(trial, row.name, counts, run, at);
    }
    run.give_up();
    let cause = if count < row.over {
        Cause::Cancelled
    } else {
        row.end
    };
    let end = Poll::Ready(Event::End(cause));
    let after = (9_000, (end, counts.polls.get()));
    compare_at(trial, row.name, counts, run, &after);
}

fn compare_row(trial: &mut Trial, row: &Row<'_>, count: usize) -> Result<(), Refusal> {
    let counts = Counts::new(NEVER);
    let run = begun(row.steps, &counts)?;
    match row.operator {
        Operator::Debounce => compare_run(trial, row, &counts, &mut debounce(run, 1_000), count),
        Operator::Sample => compare_run(trial, row, &counts, &mut sample(run, 200, 0)?, count),
        Operator::Timeout => {
            compare_run(trial, row, &counts, &mut timeout(run, 1_000, 0, 9), count);
        }
    }
    Ok(())
}

/// A window of no length is refused, and the source is cancelled.
fn compare_refused(trial: &mut Trial) -> Result<(), Refusal> {
    let counts = Counts::new(NEVER);
    let is_refused = sample(begun(QUIET, &counts)?, 0, 0).is_err();
    trial.compare("sample", is_refused, true);
    trial.compare("sample", counts.started(), (1, 1));
    Ok(())
}

#[test]
fn moments_say_what_is_given(rt: HostRuntime) -> Result<(), Fail> {
    let mut trial = Trial::new(&rt)?;
    for row in ROWS {
        for count in 0..=row.polls.len() {
            compare_row(&mut trial, row, count)?;
        }
    }
    compare_refused(&mut trial)?;
    trial.assert_none(&rt);
    Ok(())
}
