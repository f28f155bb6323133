//! Buffers, in one task and between two threads.

mod meeting;

use crate::sources::{Counts, NEVER, Source};
use crate::tools::{Trial, WAIT};
use cold_flow::{Cause, Event, Flow, Policy, Refusal, Run, Step, range};
use flow_buffer::{Buffer, Buffered, Drain, Feed, Fill, agree, buffer, conflate, split};
use futures::task::{Context, Poll};
use futures::test::MockTask;
use meeting::Meeting;
use std::alloc::{AllocGlobal, Global};
use std::random::RandomSource;
use std::sync::Wait;
use std::test::Fail;
use std::thread;
use std::thread::Threads;

/// A command on a buffer, and what it has to answer.
enum Line {
    Fill(Fill),
    Value(u64),
    Pending,
    End(Cause<u64>),
    /// A cancel, which answers nothing.
    Cancel,
}

/// How much a buffer holds.
enum Keeps {
    /// So many values, and what becomes of those that find no place.
    Places(u64, Policy),
    /// The latest value alone.
    Latest,
}

/// The commands on a new buffer behind a flow of these steps, and how many values were taken and dropped after them.
struct Row<'a> {
    name: &'a str,
    steps: &'a [Step<u64, u64>],
    keeps: Keeps,
    lines: &'a [Line],
    taken: u64,
    dropped: u64,
}

/// Is the command answered as the line says?
fn is_answered<R: Run<Item = u64, Fault = u64>>(
    buffered: &mut Buffered<R>,
    cx: &mut Context<'_>,
    line: &Line,
) -> bool {
    match line {
        Line::Fill(wanted) => buffered.poll_fill(cx) == *wanted,
        Line::Value(wanted) => buffered.poll_next(cx) == Poll::Ready(Event::Value(*wanted)),
        Line::Pending => buffered.poll_next(cx).is_pending(),
        Line::End(wanted) => buffered.poll_next(cx) == Poll::Ready(Event::End(*wanted)),
        Line::Cancel => {
            buffered.cancel();
            true
        }
    }
}

/// The number of the first line that was answered otherwise, or of all lines where none was.
fn answered<R: Run<Item = u64, Fault = u64>>(
    task: &MockTask,
    buffered: &mut Buffered<R>,
    lines: &[Line],
) -> usize {
    for (number, line) in lines.iter().enumerate() {
        if !task.enter(|cx| is_answered(buffered, cx, line)) {
            return number;
        }
    }
    lines.len()
}

const ROWS: &[Row<'_>] = &[
    Row {
        name: "buffers_oldest",
        steps: &[
            Step::Value(1),
            Step::Value(2),
            Step::Value(3),
            WAIT,
            Step::Value(4),
        ],
        keeps: Keeps::Places(2, Policy::DropOldest),
        lines: &[
            Line::Fill(Fill::Took),
            Line::Fill(Fill::Took),
            Line::Fill(Fill::Overwrote),
            Line::Value(2),
            Line::Fill(Fill::Pending),
            Line::Value(3),
            Line::Value(4),
            Line::End(Cause::Finished),
            Line::Fill(Fill::Ended),
        ],
        taken: 3,
        dropped: 1,
    },
    Row {
        name: "buffers_latest",
        steps: &[Step::Value(1), Step::Value(2), Step::Value(3)],
        keeps: Keeps::Places(1, Policy::DropLatest),
        lines: &[
            Line::Fill(Fill::Took),
            Line::Fill(Fill::Dropped),
            Line::Value(1),
            Line::Value(3),
            Line::End(Cause::Finished),
        ],
        taken: 2,
        dropped: 1,
    },
    Row {
        name: "buffers_suspend",
        steps: &[Step::Value(1), Step::Value(2), Step::Fail(6)],
        keeps: Keeps::Places(1, Policy::Suspend),
        lines: &[
            Line::Fill(Fill::Took),
            Line::Fill(Fill::Full),
            Line::Value(1),
            Line::Value(2),
            Line::End(Cause::Failed(6)),
        ],
        taken: 2,
        dropped: 0,
    },
    // The first two values are left out.
    Row {
        name: "conflating_buffer",
        steps: &[Step::Value(1), Step::Value(2), Step::Value(3)],
        keeps: Keeps::Latest,
        lines: &[
            Line::Fill(Fill::Took),
            Line::Fill(Fill::Overwrote),
            Line::Fill(Fill::Overwrote),
            Line::Fill(Fill::Ended),
            Line::Value(3),
            Line::End(Cause::Finished),
            Line::Fill(Fill::Ended),
        ],
        taken: 1,
        dropped: 2,
    },
    // What is held at a cancel is given up.
    Row {
        name: "a cancelled buffer",
        steps: &[
            Step::Value(0),
            Step::Value(1),
            Step::Value(2),
            Step::Value(3),
        ],
        keeps: Keeps::Places(2, Policy::DropOldest),
        lines: &[
            Line::Fill(Fill::Took),
            Line::Fill(Fill::Took),
            Line::Fill(Fill::Overwrote),
            Line::Value(1),
            Line::Cancel,
            Line::End(Cause::Cancelled),
            Line::Fill(Fill::Ended),
            Line::End(Cause::Cancelled),
        ],
        taken: 1,
        dropped: 1,
    },
];

/// A buffer behind the flow.
fn buffered<F: Flow>(alloc: Global, flow: F, keeps: &Keeps) -> Result<Buffer<F>, Refusal> {
    match keeps {
        Keeps::Places(capacity, policy) => buffer(alloc, flow, *capacity, *policy),
        Keeps::Latest => Ok(conflate(alloc, flow)),
    }
}

/// Makes the row's commands on a buffer behind its steps.
fn compare_row(trial: &mut Trial, row: &Row<'_>) -> Result<(), Refusal> {
    let counts = Counts::new(NEVER);
    let source = Source {
        steps: row.steps,
        counts: &counts,
    };
    let mut buffered = buffered(trial.alloc, source, &row.keeps)?.start()?;
    let lines = answered(&trial.task, &mut buffered, row.lines);
    let found = (lines, buffered.taken_count(), buffered.dropped_count());
    trial.compare(row.name, found, (row.lines.len(), row.taken, row.dropped));
    Ok(())
}

#[test]
fn buffers_in_one_task(rt: HostRuntime) -> Result<(), Fail> {
    let mut trial = Trial::new(&rt)?;
    for row in ROWS {
        compare_row(&mut trial, row)?;
    }
    trial.assert_none(&rt);
    Ok(())
}

/// Pumps once.
fn pump<U: Run<Item = u64, Fault = u64>>(
    rt: &impl Wait,
    task: &MockTask,
    feed: &mut Feed<U>,
) -> Fill {
    task.enter(|cx| feed.pump(rt, cx))
}

/// Pumps once without waiting.
fn try_pump<U: Run<Item = u64, Fault = u64>>(
    rt: &impl Wait,
    task: &MockTask,
    feed: &mut Feed<U>,
) -> Option<Fill> {
    task.enter(|cx| feed.try_pump(rt, cx))
}

/// Pumps until the end, and says how many values were dropped. Its thread takes no memory: a feed that gave up would
/// leave the drain waiting.
fn feed_all<R: Wait, U: Run<Item = u64, Fault = u64>>(
    rt: &R,
    task: &MockTask,
    feed: &mut Feed<U>,
    meeting: &Meeting,
) -> u64 {
    if !meeting.come() {
        return 0;
    }
    for _ in rt.forever() {
        if pump(rt, task, feed) == Fill::Ended {
            break;
        }
    }
    feed.dropped_count()
}

/// What a drain gave until its end.
#[derive(Drop)]
struct Drained {
    count: u64,
    rising: bool,
    first: u64,
    last: u64,
    end: Option<Cause<u64>>,
}

/// Takes until the end, where the feed came.
fn drain_all(rt: &impl Wait, mut drain: Drain<u64, u64>, meeting: &Meeting) -> Drained {
    let mut all = Drained {
        count: 0,
        rising: true,
        first: 0,
        last: 0,
        end: None,
    };
    if !meeting.wait() {
        return all;
    }
    for _ in rt.forever() {
        match drain.next(rt) {
            Event::Value(value) => {
                if all.count == 0 {
                    all.first = value;
                }
                all.rising = all.rising && (value > all.last || all.count == 0);
                all.last = value;
                all.count = all.count.saturating_add(1);
            }
            Event::End(cause) => {
                all.end = Some(cause);
                break;
            }
        }
    }
    if all.count != drain.taken_count() {
        all.rising = false;
    }
    all
}

/// Splits the numbers below the bound between two threads, and says how many were dropped and what the drain gave.
fn split_numbers<R: Threads + Wait + RandomSource + AllocGlobal + Sync>(
    rt: &R,
    bound: u64,
    policy: Policy,
) -> Result<(u64, Drained), Fail> {
    let task = MockTask::new(rt)?;
    let (mut feed, drain) = split(rt.alloc(), range::<u64>(0, bound), 4, policy)?;
    let lent = &mut feed;
    let meeting = Meeting::new();
    let (dropped, all) = thread::join(
        rt,
        || feed_all(rt, &task, lent, &meeting),
        || drain_all(rt, drain, &meeting),
    );
    feed.cancel(rt);
    Ok((dropped, all))
}

/// What a drain gave of the numbers below a bound that were split between two threads. `None` where it may be any number.
struct Split<'a> {
    name: &'a str,
    bound: u64,
    policy: Policy,
    first: Option<u64>,
    last: Option<u64>,
    dropped: Option<u64>,
}

const SPLITS: &[Split<'_>] = &[
    Split {
        name: "a split that waits drops nothing",
        bound: 1000,
        policy: Policy::Suspend,
        first: Some(0),
        last: Some(999),
        dropped: Some(0),
    },
    Split {
        name: "a split that drops the oldest keeps the last value",
        bound: 1000,
        policy: Policy::DropOldest,
        first: None,
        last: Some(999),
        dropped: None,
    },
    Split {
        name: "a split that drops the latest keeps the first value",
        bound: 100000,
        policy: Policy::DropLatest,
        first: Some(0),
        last: None,
        dropped: None,
    },
];

/// The number, where a certain one is wanted.
fn told(wanted: Option<u64>, number: u64) -> Option<u64> {
    match wanted {
        Some(_) => Some(number),
        None => None,
    }
}

fn compare_split<R: Threads + Wait + RandomSource + AllocGlobal + Sync>(
    rt: &R,
    trial: &mut Trial,
    row: &Split<'_>,
) -> Result<(), Fail> {
    let (dropped, all) = split_numbers(rt, row.bound, row.policy)?;
    let whole = (all.rising, all.end, all.count.saturating_add(dropped));
    trial.compare(row.name, whole, (true, Some(Cause::Finished), row.bound));
    let found = (
        told(row.dropped, dropped),
        told(row.first, all.first),
        told(row.last, all.last),
    );
    trial.compare(row.name, found, (row.dropped, row.first, row.last));
    Ok(())
}

#[test]
fn splits_between_two_threads(rt: HostRuntime) -> Result<(), Fail> {
    let mut trial = Trial::new(&rt)?;
    for row in SPLITS {
        compare_split(&rt, &mut trial, row)?;
    }
    trial.assert_none(&rt);
    Ok(())
}

/// A call of a feed or of a drain, and what it has to answer.
enum Turn {
    Pump(Fill),
    TryPump(Option<Fill>),
    Next(Event<u64, u64>),
    TryNext(Option<Event<u64, u64>>),
}

/// A flow of these steps that is split, the calls of both sides in turn, then those of the drain once the feed is cancelled, and how many values were dropped and
/// taken then.
struct Turns<'a> {
    name: &'a str,
    steps: &'a [Step<u64, u64>],
    capacity: u64,
    policy: Policy,
    turns: &'a [Turn],
    rest: &'a [Event<u64, u64>],
    dropped: u64,
    taken: u64,
}

const END: Event<u64, u64> = Event::End(Cause::Finished);

const FAILURE: Event<u64, u64> = Event::End(Cause::Failed(6));

const CANCEL: Event<u64, u64> = Event::End(Cause::Cancelled);

const TURNED: &[Turns<'_>] = &[
    Turns {
        name: "feed_cancelled",
        steps: &[Step::Value(1), Step::Value(2), Step::Value(3)],
        capacity: 4,
        policy: Policy::Suspend,
        turns: &[Turn::Pump(Fill::Took), Turn::Pump(Fill::Took)],
        rest: &[Event::Value(1), Event::Value(2), CANCEL, CANCEL],
        dropped: 0,
        taken: 2,
    },
    // A source that has nothing yet, and then fails.
    Turns {
        name: "a feed sends one end",
        steps: &[WAIT, Step::Fail(6)],
        capacity: 1,
        policy: Policy::Suspend,
        turns: &[
            Turn::Pump(Fill::Pending),
            Turn::Pump(Fill::Ended),
            Turn::Pump(Fill::Ended),
        ],
        rest: &[FAILURE, FAILURE],
        dropped: 0,
        taken: 0,
    },
    // A buffer that is never emptied while it is filled.
    Turns {
        name: "a full split drops the oldest",
        steps: &[Step::Value(0), Step::Value(1), Step::Value(2)],
        capacity: 1,
        policy: Policy::DropOldest,
        turns: &[
            Turn::Pump(Fill::Took),
            Turn::Pump(Fill::Overwrote),
            Turn::Pump(Fill::Overwrote),
            Turn::Next(Event::Value(2)),
            Turn::Pump(Fill::Ended),
            Turn::Next(END),
        ],
        rest: &[END],
        dropped: 2,
        taken: 1,
    },
    Turns {
        name: "a full split drops the latest",
        steps: &[Step::Value(0), Step::Value(1), Step::Value(2)],
        capacity: 1,
        policy: Policy::DropLatest,
        turns: &[
            Turn::Pump(Fill::Took),
            Turn::Pump(Fill::Dropped),
            Turn::Pump(Fill::Dropped),
            Turn::Next(Event::Value(0)),
            Turn::Pump(Fill::Ended),
            Turn::Next(END),
        ],
        rest: &[END],
        dropped: 2,
        taken: 1,
    },
    // A buffer that was full once drops nothing more while it has room.
    Turns {
        name: "a refilled split drops nothing, the oldest dropped before",
        steps: &[
            Step::Value(0),
            Step::Value(1),
            Step::Value(2),
            Step::Value(3),
            Step::Value(4),
        ],
        capacity: 2,
        policy: Policy::DropOldest,
        turns: &[
            Turn::Pump(Fill::Took),
            Turn::Pump(Fill::Took),
            Turn::Pump(Fill::Overwrote),
            Turn::Next(Event::Value(1)),
            Turn::Pump(Fill::Took),
            Turn::Next(Event::Value(2)),
            Turn::Next(Event::Value(3)),
            Turn::Pump(Fill::Took),
            Turn::Next(Event::Value(4)),
            Turn::Pump(Fill::Ended),
            Turn::Next(END),
        ],
        rest: &[END],
        dropped: 1,
        taken: 4,
    },
    Turns {
        name: "a refilled split drops nothing, the latest dropped before",
        steps: &[
            Step::Value(0),
            Step::Value(1),
            Step::Value(2),
            Step::Value(3),
            Step::Value(4),
        ],
        capacity: 2,
        policy: Policy::DropLatest,
        turns: &[
            Turn::Pump(Fill::Took),
            Turn::Pump(Fill::Took),
            Turn::Pump(Fill::Dropped),
            Turn::Next(Event::Value(0)),
            Turn::Pump(Fill::Took),
            Turn::Next(Event::Value(1)),
            Turn::Next(Event::Value(3)),
            Turn::Pump(Fill::Took),
            Turn::Next(Event::Value(4)),
            Turn::Pump(Fill::Ended),
            Turn::Next(END),
        ],
        rest: &[END],
        dropped: 1,
        taken: 4,
    },
    // A value and an end that find no place wait in the feed. A source that was asked over one that waits would lose it.
    Turns {
        name: "neither side of a split waits",
        steps: &[WAIT, Step::Value(1), Step::Value(2), Step::Fail(6)],
        capacity: 1,
        policy: Policy::Suspend,
        turns: &[
            Turn::TryNext(None),
            Turn::TryPump(Some(Fill::Pending)),
            Turn::TryPump(Some(Fill::Took)),
            Turn::TryPump(None),
            Turn::TryPump(None),
            Turn::TryNext(Some(Event::Value(1))),
            Turn::TryNext(None),
            Turn::TryPump(Some(Fill::Took)),
            Turn::TryPump(None),
            Turn::TryNext(Some(Event::Value(2))),
            Turn::TryNext(None),
            Turn::TryPump(Some(Fill::Ended)),
            Turn::TryPump(Some(Fill::Ended)),
            Turn::TryNext(Some(FAILURE)),
            Turn::TryNext(Some(FAILURE)),
        ],
        rest: &[FAILURE],
        dropped: 0,
        taken: 2,
    },
    // The next pump puts what waits, and so does a cancel.
    Turns {
        name: "what waited is put",
        steps: &[
            Step::Value(1),
            Step::Value(2),
            Step::Value(3),
            Step::Value(4),
            Step::Value(5),
            Step::Value(6),
            Step::Value(7),
            Step::Value(8),
        ],
        capacity: 2,
        policy: Policy::Suspend,
        turns: &[
            Turn::TryPump(Some(Fill::Took)),
            Turn::TryPump(Some(Fill::Took)),
            Turn::TryPump(None),
            Turn::Next(Event::Value(1)),
            Turn::Pump(Fill::Took),
            Turn::TryPump(None),
            Turn::Next(Event::Value(2)),
            Turn::Next(Event::Value(3)),
        ],
        rest: &[Event::Value(4), CANCEL],
        dropped: 0,
        taken: 4,
    },
    // Only the end waits where the policy drops, and a cancel sends it.
    Turns {
        name: "only the end waits",
        steps: &[Step::Value(1), Step::Value(2), Step::Fail(6)],
        capacity: 1,
        policy: Policy::DropOldest,
        turns: &[
            Turn::TryPump(Some(Fill::Took)),
            Turn::TryPump(Some(Fill::Overwrote)),
            Turn::TryPump(None),
            Turn::TryNext(Some(Event::Value(2))),
            Turn::TryNext(None),
        ],
        rest: &[FAILURE, FAILURE],
        dropped: 1,
        taken: 1,
    },
];

/// How many turns, from the first on, were answered as they say.
fn taken_turns<U: Run<Item = u64, Fault = u64>>(
    rt: &impl Wait,
    task: &MockTask,
    feed: &mut Feed<U>,
    drain: &mut Drain<u64, u64>,
    turns: &[Turn],
) -> usize {
    for (number, turn) in turns.iter().enumerate() {
        let same = match turn {
            Turn::Pump(wanted) => pump(rt, task, feed) == *wanted,
            Turn::TryPump(wanted) => try_pump(rt, task, feed) == *wanted,
            Turn::Next(wanted) => drain.next(rt) == *wanted,
            Turn::TryNext(wanted) => drain.try_next(rt) == *wanted,
        };
        if !same {
            return number;
        }
    }
    turns.len()
}

/// How many of these events the drain gives, from the first on.
fn rest_of(rt: &impl Wait, drain: &mut Drain<u64, u64>, events: &[Event<u64, u64>]) -> usize {
    for (number, event) in events.iter().enumerate() {
        if drain.next(rt) != *event {
            return number;
        }
    }
    events.len()
}

fn compare_turns(rt: &impl Wait, trial: &mut Trial, row: &Turns<'_>) -> Result<(), Refusal> {
    let counts = Counts::new(NEVER);
    let source = Source {
        steps: row.steps,
        counts: &counts,
    };
    let (mut feed, mut drain) = split(trial.alloc, source, row.capacity, row.policy)?;
    let turns = taken_turns(rt, &trial.task, &mut feed, &mut drain, row.turns);
    let dropped = feed.dropped_count();
    feed.cancel(rt);
    let rest = rest_of(rt, &mut drain, row.rest);
    let found = (turns, rest, dropped, drain.taken_count());
    let wanted = (row.turns.len(), row.rest.len(), row.dropped, row.taken);
    trial.compare(row.name, found, wanted);
    Ok(())
}

#[test]
fn turns_of_a_split(rt: HostRuntime) -> Result<(), Fail> {
    let mut trial = Trial::new(&rt)?;
    for row in TURNED {
        compare_turns(&rt, &mut trial, row)?;
    }
    trial.assert_none(&rt);
    Ok(())
}

/// How many turns a side takes at most that doesn't wait.
const TURNS: u64 = 5_000_000;

/// Pumps without waiting, and says whether the end came within the turns.
fn feed_by_turns<R: Wait, U: Run<Item = u64, Fault = u64>>(
    rt: &R,
    task: &MockTask,
    feed: &mut Feed<U>,
) -> bool {
    for _ in 0..TURNS {
        match try_pump(rt, task, feed) {
            Some(Fill::Ended) => return true,
            Some(_) => {}
            None => thread::yield_now(),
        }
    }
    false
}

/// Takes without waiting, and says how many of the numbers from 0 up came in order, where the end came within the turns.
fn drain_by_turns(rt: &impl Wait, drain: &mut Drain<u64, u64>) -> Option<u64> {
    let mut count: u64 = 0;
    for _ in 0..TURNS {
        match drain.try_next(rt) {
            Some(Event::Value(value)) if value == count => count = count.saturating_add(1),
            Some(Event::Value(_)) => {}
            Some(Event::End(_)) => return Some(count),
            None => thread::yield_now(),
        }
    }
    None
}

#[test]
fn neither_side_waits_for_the_other(rt: HostRuntime) -> Result<(), Fail> {
    let task = MockTask::new(&rt)?;
    let (mut feed, mut drain) = split(rt.alloc(), range::<u64>(0, 1000), 4, Policy::Suspend)?;
    let (lent, other) = (&mut feed, &mut drain);
    let ends = thread::join(
        &rt,
        || feed_by_turns(&rt, &task, lent),
        || drain_by_turns(&rt, other),
    );
    // Where a side gave up, the feed's last messages find room by this.
    for _ in 0..4 {
        let _ = drain.try_next(&rt);
    }
    feed.cancel(&rt);
    assert_eq!(rt; ends, (true, Some(1000)));
    Ok(())
}

/// A buffer of capacity 1 that is emptied after each value: how many of the numbers from 0 up each came right after it was put
/// in, and how many were dropped and taken.
fn emptied_split<R: Wait + RandomSource + AllocGlobal>(
    rt: &R,
    policy: Policy,
) -> Result<(u64, u64, u64), Fail> {
    let task = MockTask::new(rt)?;
    let (mut feed, mut drain) = split(rt.alloc(), range::<u64>(0, 1000), 1, policy)?;
    let mut came = 0;
    for number in 0..1000 {
        if pump(rt, &task, &mut feed) != Fill::Took || drain.next(rt) != Event::Value(number) {
            break;
        }
        came = number + 1;
    }
    let dropped = feed.dropped_count();
    feed.cancel(rt);
    Ok((came, dropped, drain.taken_count()))
}

// A buffer that is emptied after each value is never full.
#[test]
fn emptied_split_drops_nothing(rt: HostRuntime) -> Result<(), Fail> {
    for policy in [Policy::DropOldest, Policy::DropLatest] {
        assert_eq!(rt; emptied_split(&rt, policy)?, (1000, 0, 1000));
    }
    Ok(())
}

// Both sides are there at once.
#[test]
fn both_sides_agree(rt: HostRuntime) -> Result<(), Fail> {
    let (feed, drain) = split(rt.alloc(), range::<u64>(0, 2), 1, Policy::DropLatest)?;
    agree(feed, drain);
    Ok(())
}
