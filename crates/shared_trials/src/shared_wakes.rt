//! Who is woken by a call of a shared flow. Beside each line stands how often A, B, First, Second and Third were woken so far.

use crate::shared_rows::PLAIN;
use crate::shared_stage::Answer::{
    Accepted, Cancelled, Count, Done, Dropped, Full, Left, Nothing, Pending, Removed, Reset,
    Subscribed, Value, Waiting,
};
use crate::shared_stage::Call::{Ask, Cancel, Close, Emit, Next, Subscribe, Take, TakeBack, Try};
use crate::shared_stage::Party::{A, B, First, Owner, Second, Third};
use crate::shared_stage::{Call, Line, Stage};
use crate::tools::assert_none;
use cold_flow::Policy;
use shared_core::Config;
use std::test::Fail;
use trial_tools::Differences;

/// The calls on a new flow with their answers, and the wakes so far after each.
struct Row<'a> {
    name: &'a str,
    config: Config,
    lines: &'a [(Line, [u32; 5])],
}

/// One emission may be in flight, so one may sleep.
const ONE_SLEEPER: Config = Config {
    extra: 1,
    emits: 1,
    ..PLAIN
};

const ROWS: &[Row<'_>] = &[
    Row {
        name: "an acceptance wakes each sleeping subscription",
        config: Config {
            extra: 1,
            policy: Policy::DropLatest,
            ..PLAIN
        },
        lines: &[
            ((A, Subscribe, Subscribed), [0, 0, 0, 0, 0]),
            ((B, Subscribe, Subscribed), [0, 0, 0, 0, 0]),
            ((A, Next, Pending), [0, 0, 0, 0, 0]),
            ((B, Next, Pending), [0, 0, 0, 0, 0]),
            ((Owner, Call::Reset, Reset), [0, 0, 0, 0, 0]),
            ((First, Try(1), Accepted(0)), [1, 1, 0, 0, 0]),
            ((A, Next, Value(1)), [1, 1, 0, 0, 0]),
            ((A, Next, Pending), [1, 1, 0, 0, 0]),
            ((First, Try(2), Dropped), [1, 1, 0, 0, 0]),
            ((B, Next, Value(1)), [1, 1, 0, 0, 0]),
            ((First, Emit(3), Accepted(1)), [2, 1, 0, 0, 0]),
        ],
    },
    Row {
        name: "a receipt wakes the emission that it lets in",
        config: Config { extra: 1, ..PLAIN },
        lines: &[
            ((A, Subscribe, Subscribed), [0, 0, 0, 0, 0]),
            ((Third, Try(0), Accepted(0)), [0, 0, 0, 0, 0]),
            ((First, Emit(1), Waiting), [0, 0, 0, 0, 0]),
            ((Second, Emit(2), Waiting), [0, 0, 0, 0, 0]),
            ((Second, Ask, Pending), [0, 0, 0, 0, 0]),
            // The first one is let in, and doesn't sleep.
            ((A, Next, Value(0)), [0, 0, 0, 0, 0]),
            ((First, Ask, Done(1)), [0, 0, 0, 0, 0]),
            ((A, Next, Value(1)), [0, 0, 0, 1, 0]),
            ((Second, Ask, Done(2)), [0, 0, 0, 1, 0]),
        ],
    },
    Row {
        name: "a receipt that makes no room wakes nobody",
        config: Config { extra: 1, ..PLAIN },
        lines: &[
            ((A, Subscribe, Subscribed), [0, 0, 0, 0, 0]),
            ((B, Subscribe, Subscribed), [0, 0, 0, 0, 0]),
            ((First, Try(0), Accepted(0)), [0, 0, 0, 0, 0]),
            ((First, Emit(1), Waiting), [0, 0, 0, 0, 0]),
            ((First, Ask, Pending), [0, 0, 0, 0, 0]),
            ((A, Next, Value(0)), [0, 0, 0, 0, 0]),
            ((A, Next, Pending), [0, 0, 0, 0, 0]),
            // The emission is accepted, and its value is pending for the one that is left.
            ((B, Cancel, Cancelled), [1, 0, 1, 0, 0]),
            ((First, Ask, Done(1)), [1, 0, 1, 0, 0]),
            ((A, Next, Value(1)), [1, 0, 1, 0, 0]),
        ],
    },
    Row {
        name: "a cancellation wakes each emission that it lets in",
        config: Config { replay: 1, ..PLAIN },
        lines: &[
            ((A, Subscribe, Subscribed), [0, 0, 0, 0, 0]),
            ((First, Emit(1), Accepted(0)), [0, 0, 0, 0, 0]),
            ((Second, Emit(2), Waiting), [0, 0, 0, 0, 0]),
            ((Third, Emit(3), Waiting), [0, 0, 0, 0, 0]),
            ((Second, Ask, Pending), [0, 0, 0, 0, 0]),
            ((Third, Ask, Pending), [0, 0, 0, 0, 0]),
            ((A, Cancel, Cancelled), [0, 0, 0, 1, 1]),
            ((Third, Ask, Done(2)), [0, 0, 0, 1, 1]),
            ((Second, Ask, Done(1)), [0, 0, 0, 1, 1]),
        ],
    },
    Row {
        name: "emissions are woken in their own order, and not in that in which they fell asleep",
        config: Config { extra: 1, ..PLAIN },
        lines: &[
            ((A, Subscribe, Subscribed), [0, 0, 0, 0, 0]),
            ((First, Try(0), Accepted(0)), [0, 0, 0, 0, 0]),
            ((First, Emit(1), Waiting), [0, 0, 0, 0, 0]),
            ((Second, Emit(2), Waiting), [0, 0, 0, 0, 0]),
            ((Third, Emit(3), Waiting), [0, 0, 0, 0, 0]),
            ((Third, Ask, Pending), [0, 0, 0, 0, 0]),
            ((Second, Ask, Pending), [0, 0, 0, 0, 0]),
            ((First, Ask, Pending), [0, 0, 0, 0, 0]),
            ((Second, TakeBack, Removed), [0, 0, 0, 1, 0]),
            ((A, Next, Value(0)), [0, 0, 1, 1, 0]),
            ((A, Next, Value(1)), [0, 0, 1, 1, 1]),
            ((Third, Ask, Done(2)), [0, 0, 1, 1, 1]),
            ((First, Ask, Done(1)), [0, 0, 1, 1, 1]),
        ],
    },
    Row {
        name: "a hand over wakes its emission at the last receipt",
        config: PLAIN,
        lines: &[
            ((A, Subscribe, Subscribed), [0, 0, 0, 0, 0]),
            ((B, Subscribe, Subscribed), [0, 0, 0, 0, 0]),
            ((A, Next, Pending), [0, 0, 0, 0, 0]),
            ((First, Emit(4), Waiting), [1, 0, 0, 0, 0]),
            ((First, Ask, Pending), [1, 0, 0, 0, 0]),
            ((Second, Emit(5), Waiting), [1, 0, 0, 0, 0]),
            ((Second, Ask, Pending), [1, 0, 0, 0, 0]),
            ((A, Next, Value(4)), [1, 0, 0, 0, 0]),
            ((A, Next, Pending), [1, 0, 0, 0, 0]),
            // The first emission is finished, and the second is handed over.
            ((B, Next, Value(4)), [2, 0, 1, 0, 0]),
            ((First, Ask, Done(0)), [2, 0, 1, 0, 0]),
            ((A, Next, Value(5)), [2, 0, 1, 0, 0]),
            ((B, Cancel, Cancelled), [2, 0, 1, 1, 0]),
            ((Second, Ask, Done(1)), [2, 0, 1, 1, 0]),
        ],
    },
    // A waker can't be thrown away, so one that stops waiting wakes its own task.
    Row {
        name: "who stops waiting wakes nobody else",
        config: Config { extra: 1, ..PLAIN },
        lines: &[
            ((A, Subscribe, Subscribed), [0, 0, 0, 0, 0]),
            ((B, Subscribe, Subscribed), [0, 0, 0, 0, 0]),
            ((A, Next, Pending), [0, 0, 0, 0, 0]),
            ((B, Next, Pending), [0, 0, 0, 0, 0]),
            ((B, Cancel, Cancelled), [0, 1, 0, 0, 0]),
            ((Third, Try(0), Accepted(0)), [1, 1, 0, 0, 0]),
            ((First, Emit(1), Waiting), [1, 1, 0, 0, 0]),
            ((Second, Emit(2), Waiting), [1, 1, 0, 0, 0]),
            ((First, Ask, Pending), [1, 1, 0, 0, 0]),
            ((Second, Ask, Pending), [1, 1, 0, 0, 0]),
            ((First, TakeBack, Removed), [1, 1, 1, 0, 0]),
            ((A, Next, Value(0)), [1, 1, 1, 1, 0]),
            ((A, Next, Value(2)), [1, 1, 1, 1, 0]),
        ],
    },
    // The emission waits and sleeps when the value is received without the lock. Who received sees that, and lets it in.
    Row {
        name: "a receipt before which an emission fell asleep wakes it",
        config: Config { extra: 1, ..PLAIN },
        lines: &[
            ((A, Subscribe, Subscribed), [0, 0, 0, 0, 0]),
            ((First, Try(0), Accepted(0)), [0, 0, 0, 0, 0]),
            ((Second, Emit(1), Waiting), [0, 0, 0, 0, 0]),
            ((Second, Ask, Pending), [0, 0, 0, 0, 0]),
            ((A, Next, Value(0)), [0, 0, 0, 1, 0]),
            ((Second, Ask, Done(1)), [0, 0, 0, 1, 0]),
            ((A, Next, Value(1)), [0, 0, 0, 1, 0]),
            ((A, Next, Pending), [0, 0, 0, 1, 0]),
            // The same once more, after a time in which no emission waited.
            ((First, Try(2), Accepted(2)), [1, 0, 0, 1, 0]),
            ((Third, Emit(3), Waiting), [1, 0, 0, 1, 0]),
            ((Third, Ask, Pending), [1, 0, 0, 1, 0]),
            ((A, Next, Value(2)), [1, 0, 0, 1, 1]),
            ((Third, Ask, Done(3)), [1, 0, 0, 1, 1]),
        ],
    },
    Row {
        name: "a receipt before an emission's last look leaves it room",
        config: Config { extra: 1, ..PLAIN },
        lines: &[
            ((A, Subscribe, Subscribed), [0, 0, 0, 0, 0]),
            ((First, Try(0), Accepted(0)), [0, 0, 0, 0, 0]),
            ((A, Take, Value(0)), [0, 0, 0, 0, 0]),
            ((Second, Emit(1), Accepted(1)), [0, 0, 0, 0, 0]),
            ((Third, Emit(2), Waiting), [0, 0, 0, 0, 0]),
            ((A, Take, Value(1)), [0, 0, 0, 0, 0]),
            ((Third, Ask, Done(2)), [0, 0, 0, 0, 0]),
            ((A, Take, Value(2)), [0, 0, 0, 0, 0]),
        ],
    },
    Row {
        name: "a subscription that found nothing is woken by what is accepted after that",
        config: Config { extra: 1, ..PLAIN },
        lines: &[
            ((A, Subscribe, Subscribed), [0, 0, 0, 0, 0]),
            ((B, Subscribe, Subscribed), [0, 0, 0, 0, 0]),
            ((A, Next, Pending), [0, 0, 0, 0, 0]),
            // Who takes without the lock doesn't sleep.
            ((B, Take, Nothing), [0, 0, 0, 0, 0]),
            ((First, Try(7), Accepted(0)), [1, 0, 0, 0, 0]),
            ((A, Take, Value(7)), [1, 0, 0, 0, 0]),
            ((A, Next, Pending), [1, 0, 0, 0, 0]),
            ((B, Next, Value(7)), [1, 0, 0, 0, 0]),
            ((First, Emit(8), Accepted(1)), [2, 0, 0, 0, 0]),
            ((A, Next, Value(8)), [2, 0, 0, 0, 0]),
        ],
    },
    Row {
        name: "a value that is taken without the lock wakes nobody, and the next count does",
        config: Config { extra: 1, ..PLAIN },
        lines: &[
            ((A, Subscribe, Subscribed), [0, 0, 0, 0, 0]),
            ((First, Try(0), Accepted(0)), [0, 0, 0, 0, 0]),
            ((Second, Emit(1), Waiting), [0, 0, 0, 0, 0]),
            ((Second, Ask, Pending), [0, 0, 0, 0, 0]),
            ((A, Take, Value(0)), [0, 0, 0, 0, 0]),
            // Nobody has taken the lock, so nothing was accepted.
            ((A, Take, Nothing), [0, 0, 0, 0, 0]),
            ((Owner, Call::Count, Count(1)), [0, 0, 0, 1, 0]),
            ((A, Take, Value(1)), [0, 0, 0, 1, 0]),
            ((Second, Ask, Done(1)), [0, 0, 0, 1, 0]),
        ],
    },
    // It is accepted before the try is, which then finds no room.
    Row {
        name: "after a value was taken without the lock, a try lets in what waits",
        config: Config { extra: 1, ..PLAIN },
        lines: &[
            ((A, Subscribe, Subscribed), [0, 0, 0, 0, 0]),
            ((First, Try(0), Accepted(0)), [0, 0, 0, 0, 0]),
            ((Second, Emit(1), Waiting), [0, 0, 0, 0, 0]),
            ((Second, Ask, Pending), [0, 0, 0, 0, 0]),
            ((A, Take, Value(0)), [0, 0, 0, 0, 0]),
            ((First, Try(2), Full), [0, 0, 0, 1, 0]),
            ((Second, Ask, Done(1)), [0, 0, 0, 1, 0]),
        ],
    },
    // B received all that was accepted, and sleeps.
    Row {
        name: "after a value was taken without the lock, a reset lets in what waits",
        config: Config { extra: 1, ..PLAIN },
        lines: &[
            ((A, Subscribe, Subscribed), [0, 0, 0, 0, 0]),
            ((B, Subscribe, Subscribed), [0, 0, 0, 0, 0]),
            ((First, Try(0), Accepted(0)), [0, 0, 0, 0, 0]),
            ((B, Take, Value(0)), [0, 0, 0, 0, 0]),
            ((B, Next, Pending), [0, 0, 0, 0, 0]),
            ((Second, Emit(1), Waiting), [0, 0, 0, 0, 0]),
            ((Second, Ask, Pending), [0, 0, 0, 0, 0]),
            ((A, Take, Value(0)), [0, 0, 0, 0, 0]),
            ((Owner, Call::Reset, Reset), [0, 1, 0, 1, 0]),
            ((B, Next, Value(1)), [0, 1, 0, 1, 0]),
        ],
    },
    Row {
        name: "a handed over value that is taken without the lock wakes nobody, and the next count does",
        config: PLAIN,
        lines: &[
            ((A, Subscribe, Subscribed), [0, 0, 0, 0, 0]),
            ((First, Emit(4), Waiting), [0, 0, 0, 0, 0]),
            ((First, Ask, Pending), [0, 0, 0, 0, 0]),
            ((A, Take, Value(4)), [0, 0, 0, 0, 0]),
            ((Owner, Call::Count, Count(1)), [0, 0, 1, 0, 0]),
            ((First, Ask, Done(0)), [0, 0, 1, 0, 0]),
        ],
    },
    // It is let in by its own poll, since the receipt has woken nobody. One that finds the only place taken doesn't sleep: its task is
    // woken at once.
    Row {
        name: "a poll that ends its emission leaves the wait list",
        config: ONE_SLEEPER,
        lines: &[
            ((A, Subscribe, Subscribed), [0, 0, 0, 0, 0]),
            ((First, Try(0), Accepted(0)), [0, 0, 0, 0, 0]),
            ((First, Emit(1), Waiting), [0, 0, 0, 0, 0]),
            ((First, Ask, Pending), [0, 0, 0, 0, 0]),
            ((A, Take, Value(0)), [0, 0, 0, 0, 0]),
            ((First, Ask, Done(1)), [0, 0, 1, 0, 0]),
            ((First, Emit(2), Waiting), [0, 0, 1, 0, 0]),
            ((First, Ask, Pending), [0, 0, 1, 0, 0]),
            ((A, Next, Value(1)), [0, 0, 2, 0, 0]),
            ((First, Ask, Done(2)), [0, 0, 2, 0, 0]),
            ((Second, Emit(3), Waiting), [0, 0, 2, 0, 0]),
            ((Second, Ask, Pending), [0, 0, 2, 0, 0]),
            ((A, Next, Value(2)), [0, 0, 2, 1, 0]),
            ((Second, Ask, Done(3)), [0, 0, 2, 1, 0]),
        ],
    },
    Row {
        name: "a poll that ends a hand over leaves the wait list",
        config: Config {
            extra: 0,
            ..ONE_SLEEPER
        },
        lines: &[
            ((A, Subscribe, Subscribed), [0, 0, 0, 0, 0]),
            ((First, Emit(0), Waiting), [0, 0, 0, 0, 0]),
            ((First, Ask, Pending), [0, 0, 0, 0, 0]),
            ((A, Take, Value(0)), [0, 0, 0, 0, 0]),
            ((First, Ask, Done(0)), [0, 0, 1, 0, 0]),
            ((Second, Emit(1), Waiting), [0, 0, 1, 0, 0]),
            ((Second, Ask, Pending), [0, 0, 1, 0, 0]),
            ((A, Next, Value(1)), [0, 0, 1, 1, 0]),
            ((Second, Ask, Done(1)), [0, 0, 1, 1, 0]),
        ],
    },
    Row {
        name: "a withdrawal leaves the wait list, whether it came too late or not",
        config: ONE_SLEEPER,
        lines: &[
            ((A, Subscribe, Subscribed), [0, 0, 0, 0, 0]),
            ((First, Try(0), Accepted(0)), [0, 0, 0, 0, 0]),
            ((First, Emit(1), Waiting), [0, 0, 0, 0, 0]),
            ((First, Ask, Pending), [0, 0, 0, 0, 0]),
            ((A, Take, Value(0)), [0, 0, 0, 0, 0]),
            ((First, TakeBack, Left(1)), [0, 0, 1, 0, 0]),
            ((First, Emit(2), Waiting), [0, 0, 1, 0, 0]),
            ((First, Ask, Pending), [0, 0, 1, 0, 0]),
            ((First, TakeBack, Removed), [0, 0, 2, 0, 0]),
            ((Second, Emit(3), Waiting), [0, 0, 2, 0, 0]),
            ((Second, Ask, Pending), [0, 0, 2, 0, 0]),
            ((A, Next, Value(1)), [0, 0, 2, 1, 0]),
            ((Second, Ask, Done(2)), [0, 0, 2, 1, 0]),
        ],
    },
    Row {
        name: "a cancelled subscription leaves the wait list",
        config: Config {
            subscribers: 1,
            ..ONE_SLEEPER
        },
        lines: &[
            ((A, Subscribe, Subscribed), [0, 0, 0, 0, 0]),
            ((A, Next, Pending), [0, 0, 0, 0, 0]),
            ((A, Cancel, Cancelled), [1, 0, 0, 0, 0]),
            ((B, Subscribe, Subscribed), [1, 0, 0, 0, 0]),
            ((B, Next, Pending), [1, 0, 0, 0, 0]),
            ((First, Try(0), Accepted(0)), [1, 1, 0, 0, 0]),
            ((B, Take, Value(0)), [1, 1, 0, 0, 0]),
            ((B, Next, Pending), [1, 1, 0, 0, 0]),
            ((First, Try(1), Accepted(1)), [1, 2, 0, 0, 0]),
        ],
    },
    // Its own look lets the value in, which wakes all that sleep; the next value wakes it no more.
    Row {
        name: "a poll that receives leaves the wait list",
        config: ONE_SLEEPER,
        lines: &[
            ((A, Subscribe, Subscribed), [0, 0, 0, 0, 0]),
            ((B, Subscribe, Subscribed), [0, 0, 0, 0, 0]),
            ((First, Try(0), Accepted(0)), [0, 0, 0, 0, 0]),
            ((A, Take, Value(0)), [0, 0, 0, 0, 0]),
            ((A, Next, Pending), [0, 0, 0, 0, 0]),
            ((Second, Emit(1), Waiting), [0, 0, 0, 0, 0]),
            ((B, Take, Value(0)), [0, 0, 0, 0, 0]),
            ((A, Next, Value(1)), [1, 0, 0, 0, 0]),
            ((Second, Ask, Done(1)), [1, 0, 0, 0, 0]),
            ((B, Take, Value(1)), [1, 0, 0, 0, 0]),
            ((First, Try(2), Accepted(2)), [1, 0, 0, 0, 0]),
            ((A, Next, Value(2)), [1, 0, 0, 0, 0]),
            ((A, Next, Pending), [1, 0, 0, 0, 0]),
        ],
    },
    // The next emission that waits finds the place.
    Row {
        name: "who is closed while it waits leaves the wait list",
        config: ONE_SLEEPER,
        lines: &[
            ((A, Subscribe, Subscribed), [0, 0, 0, 0, 0]),
            ((First, Try(0), Accepted(0)), [0, 0, 0, 0, 0]),
            ((First, Emit(1), Waiting), [0, 0, 0, 0, 0]),
            ((First, Ask, Pending), [0, 0, 0, 0, 0]),
            ((First, Close, Removed), [0, 0, 1, 0, 0]),
            ((Second, Emit(2), Waiting), [0, 0, 1, 0, 0]),
            ((Second, Ask, Pending), [0, 0, 1, 0, 0]),
        ],
    },
    Row {
        name: "who is closed after it was let in leaves the wait list",
        config: ONE_SLEEPER,
        lines: &[
            ((A, Subscribe, Subscribed), [0, 0, 0, 0, 0]),
            ((First, Try(0), Accepted(0)), [0, 0, 0, 0, 0]),
            ((First, Emit(1), Waiting), [0, 0, 0, 0, 0]),
            ((First, Ask, Pending), [0, 0, 0, 0, 0]),
            ((A, Take, Value(0)), [0, 0, 0, 0, 0]),
            ((First, Close, Left(1)), [0, 0, 1, 0, 0]),
            ((Second, Emit(2), Waiting), [0, 0, 1, 0, 0]),
            ((Second, Ask, Pending), [0, 0, 1, 0, 0]),
        ],
    },
];

#[test]
fn calls_wake(rt: HostRuntime) -> Result<(), Fail> {
    let mut differences = Differences::none(rt.alloc());
    for row in ROWS {
        let mut stage = Stage::new(&rt, row.config);
        let lines = stage.watch(&rt, row.lines);
        stage.leave(&rt);
        differences.compare(row.name, lines, row.lines.len())?;
    }
    assert_none(&rt, &differences);
    Ok(())
}
