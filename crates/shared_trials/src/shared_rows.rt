//! A shared flow's worked examples by calls of its owner, emitters and subscriptions, and its refusals.

use crate::shared_stage::Answer::{
    Accepted, Cancelled, Count, Counts, Done, Full, Gone, Left, NotMade, Nothing, Pending, Refused,
    Removed, Reset, Subscribed, Value, Waiting,
};
use crate::shared_stage::Call::{Ask, Cancel, Close, Emit, Next, Subscribe, Take, TakeBack, Try};
use crate::shared_stage::Party::{A, B, First, Owner, Second, Third};
use crate::shared_stage::{Call, Line, Stage};
use crate::tools::{assert_none, assert_same};
use cold_flow::Policy;
use shared_core::Config;
use std::sync::Wait;
use std::test::Fail;
use trial_tools::Differences;

/// The greatest number.
const LAST: u64 = (1 << 62) - 1;

/// A config with 8 subscribers and 8 emissions in flight, and numbers from 0 on. It has no places.
pub(crate) const PLAIN: Config = Config {
    replay: 0,
    extra: 0,
    policy: Policy::Suspend,
    subscribers: 8,
    emits: 8,
    first: 0,
};

/// How often a place is used.
const ROUNDS: u64 = 1000;

/// The same with one emission in flight.
const ONE_IN_FLIGHT: Config = Config { emits: 1, ..PLAIN };

/// The calls on a new flow with their answers, and the replay cache after them.
struct Row<'a> {
    name: &'a str,
    config: Config,
    lines: &'a [Line],
    cache: &'a [u64],
}

const ROWS: &[Row<'_>] = &[
    Row {
        name: "waiting_in_order",
        config: Config { extra: 1, ..PLAIN },
        lines: &[
            (A, Subscribe, Subscribed),
            (First, Emit(1), Accepted(0)),
            (Second, Emit(2), Waiting),
            (Third, Emit(3), Waiting),
            (A, Next, Value(1)),
            (Third, Ask, Pending),
            (Second, Ask, Done(1)),
            (A, Next, Value(2)),
            (Third, Ask, Done(2)),
            (A, Next, Value(3)),
        ],
        cache: &[],
    },
    Row {
        name: "hand_over",
        config: PLAIN,
        lines: &[
            (First, Try(1), Accepted(0)),
            (A, Subscribe, Subscribed),
            (First, Try(2), Full),
            (First, Emit(3), Waiting),
            (A, Next, Value(3)),
            (First, Ask, Done(1)),
            (A, Next, Pending),
        ],
        cache: &[],
    },
    Row {
        name: "cancel_frees_waiting",
        config: Config { replay: 1, ..PLAIN },
        lines: &[
            (A, Subscribe, Subscribed),
            (First, Emit(1), Accepted(0)),
            (Second, Emit(2), Waiting),
            (Third, Emit(3), Waiting),
            (A, Cancel, Cancelled),
            (Second, Ask, Done(1)),
            (Third, Ask, Done(2)),
            (Owner, Call::Count, Count(0)),
        ],
        cache: &[3],
    },
    Row {
        name: "withdraw",
        config: Config { extra: 1, ..PLAIN },
        lines: &[
            (A, Subscribe, Subscribed),
            (First, Emit(1), Accepted(0)),
            (Second, Emit(2), Waiting),
            (Third, Emit(3), Waiting),
            (Second, TakeBack, Removed),
            (A, Next, Value(1)),
            (A, Next, Value(3)),
            (Third, TakeBack, Left(1)),
        ],
        cache: &[],
    },
    Row {
        name: "late_subscriber_at_hand_over",
        config: PLAIN,
        lines: &[
            (A, Subscribe, Subscribed),
            (First, Emit(5), Waiting),
            (B, Subscribe, Subscribed),
            (B, Next, Pending),
            (First, Ask, Pending),
            (A, Cancel, Cancelled),
            (First, Ask, Done(0)),
        ],
        cache: &[],
    },
    Row {
        name: "reset_keeps_pending",
        config: Config { replay: 1, ..PLAIN },
        lines: &[
            (First, Emit(1), Accepted(0)),
            (A, Subscribe, Subscribed),
            (Owner, Call::Reset, Reset),
            (B, Subscribe, Subscribed),
            (Owner, Call::Count, Count(2)),
            (A, Next, Value(1)),
            (B, Next, Pending),
        ],
        cache: &[],
    },
    Row {
        name: "a hand over that is given up before a receipt leaves its value",
        config: ONE_IN_FLIGHT,
        lines: &[
            (A, Subscribe, Subscribed),
            (B, Subscribe, Subscribed),
            (First, Emit(7), Waiting),
            (First, TakeBack, Left(0)),
            (First, TakeBack, Gone),
            (A, Take, Value(7)),
            (B, Take, Value(7)),
            (A, Take, Nothing),
            (B, Take, Nothing),
        ],
        cache: &[],
    },
    Row {
        name: "a hand over that is given up after one receipt leaves its value",
        config: ONE_IN_FLIGHT,
        lines: &[
            (A, Subscribe, Subscribed),
            (B, Subscribe, Subscribed),
            (First, Emit(7), Waiting),
            (A, Take, Value(7)),
            (First, TakeBack, Left(0)),
            (First, TakeBack, Gone),
            (B, Take, Value(7)),
            (A, Take, Nothing),
            (B, Take, Nothing),
        ],
        cache: &[],
    },
    Row {
        name: "a hand over that is given up after both receipts leaves its value",
        config: ONE_IN_FLIGHT,
        lines: &[
            (A, Subscribe, Subscribed),
            (B, Subscribe, Subscribed),
            (First, Emit(7), Waiting),
            (A, Take, Value(7)),
            (B, Take, Value(7)),
            (First, TakeBack, Left(0)),
            (First, TakeBack, Gone),
            (A, Take, Nothing),
            (B, Take, Nothing),
        ],
        cache: &[],
    },
    Row {
        name: "a finished hand over has nothing to give up",
        config: ONE_IN_FLIGHT,
        lines: &[
            (A, Subscribe, Subscribed),
            (B, Subscribe, Subscribed),
            (First, Emit(7), Waiting),
            (A, Take, Value(7)),
            (B, Take, Value(7)),
            (First, Ask, Done(0)),
            (First, TakeBack, Gone),
            (A, Take, Nothing),
            (B, Take, Nothing),
        ],
        cache: &[],
    },
    Row {
        name: "places_run_out",
        config: Config {
            subscribers: 1,
            emits: 1,
            ..PLAIN
        },
        lines: &[
            (A, Subscribe, Subscribed),
            (B, Subscribe, Refused(5)),
            (First, Emit(1), Waiting),
            (Second, Emit(2), Refused(6)),
            (Second, Try(2), Full),
            (A, Cancel, Cancelled),
            (B, Subscribe, Subscribed),
            (First, TakeBack, Left(0)),
            (B, Next, Pending),
        ],
        cache: &[],
    },
    Row {
        name: "each cancellation counts once",
        config: Config { extra: 1, ..PLAIN },
        lines: &[
            (A, Subscribe, Subscribed),
            (B, Subscribe, Subscribed),
            (First, Try(1), Accepted(0)),
            (Second, Emit(2), Waiting),
            (Owner, Call::Count, Count(2)),
            (A, Next, Value(1)),
            (Second, Ask, Pending),
            (B, Cancel, Cancelled),
            (Owner, Call::Count, Count(1)),
            (Second, Ask, Done(1)),
            (Third, Emit(3), Waiting),
            // It gets the place that was left, and begins after the second value.
            (B, Subscribe, Subscribed),
            (Owner, Call::Count, Count(2)),
            (A, Cancel, Cancelled),
            (Owner, Call::Count, Count(1)),
            (Third, Ask, Done(2)),
            (B, Next, Value(3)),
            (B, Cancel, Cancelled),
            (B, Cancel, NotMade),
            (Owner, Call::Count, Count(0)),
        ],
        cache: &[],
    },
    Row {
        name: "numbers_run_out",
        config: Config {
            replay: 1,
            policy: Policy::DropOldest,
            first: LAST,
            ..PLAIN
        },
        lines: &[
            (First, Try(7), Accepted(LAST)),
            (Second, Try(8), Refused(7)),
            (Second, Emit(8), Refused(7)),
            (A, Subscribe, Subscribed),
            (B, Subscribe, Refused(7)),
            (A, Next, Value(7)),
        ],
        cache: &[7],
    },
    Row {
        name: "spent numbers of subscriptions come before full places",
        config: Config {
            subscribers: 1,
            first: LAST,
            ..PLAIN
        },
        lines: &[(A, Subscribe, Subscribed), (B, Subscribe, Refused(7))],
        cache: &[],
    },
    Row {
        name: "spent numbers of emissions come before tickets",
        config: Config {
            extra: 1,
            emits: 1,
            first: LAST - 1,
            ..PLAIN
        },
        lines: &[
            (A, Subscribe, Subscribed),
            (First, Try(1), Accepted(LAST - 1)),
            (First, Emit(2), Waiting),
            (Second, Emit(3), Refused(7)),
            (A, Next, Value(1)),
            (First, Ask, Done(LAST)),
        ],
        cache: &[],
    },
    Row {
        name: "spent numbers of tickets come before tickets",
        config: Config {
            emits: 1,
            first: LAST - 2,
            ..PLAIN
        },
        lines: &[
            (A, Subscribe, Subscribed),
            (First, Emit(1), Waiting),
            (First, TakeBack, Left(LAST - 2)),
            (First, Emit(2), Waiting),
            (First, TakeBack, Removed),
            (First, Emit(3), Waiting),
            // A number is left, and no ticket.
            (Second, Emit(4), Refused(7)),
            (Second, Try(4), Full),
            (A, Next, Value(1)),
            (A, Next, Value(3)),
            (First, Ask, Done(LAST - 1)),
        ],
        cache: &[],
    },
    // The receipts of an emitter of another owner have its id: else they were answered as foreign ones.
    Row {
        name: "another owner's emitter emits",
        config: Config { replay: 2, ..PLAIN },
        lines: &[
            (Third, Try(1), Accepted(0)),
            (Third, Try(2), Accepted(1)),
            (Third, Try(3), Accepted(2)),
            (Third, Close, Gone),
            (A, Subscribe, Subscribed),
            (A, Next, Value(2)),
            (A, Next, Value(3)),
            (A, Next, Pending),
            (Owner, Call::Count, Count(1)),
            (A, Cancel, Cancelled),
            (Owner, Call::Count, Count(0)),
        ],
        cache: &[2, 3],
    },
    // The emission of the second emitter waits when its emitter is closed. That of the third was accepted by then.
    Row {
        name: "a close gives up the emission in flight",
        config: Config { extra: 1, ..PLAIN },
        lines: &[
            (A, Subscribe, Subscribed),
            (First, Try(1), Accepted(0)),
            (Second, Emit(2), Waiting),
            (Third, Emit(3), Waiting),
            (Second, Close, Removed),
            (A, Next, Value(1)),
            (Third, Close, Left(1)),
            (A, Next, Value(3)),
            (A, Next, Pending),
            (First, Close, Gone),
        ],
        cache: &[],
    },
    // An emitter is closed while its emission waits with the only ticket. By that the ticket is free, for another emitter, whose
    // emission is taken back then. What was given up is gone: nothing of it is received, and it has no number.
    Row {
        name: "each close gives up once",
        config: Config {
            extra: 1,
            emits: 1,
            ..PLAIN
        },
        lines: &[
            (A, Subscribe, Subscribed),
            (First, Try(1), Accepted(0)),
            (Second, Emit(7), Waiting),
            (Second, Ask, Pending),
            (First, Emit(8), Refused(6)),
            (Second, Close, Removed),
            (First, Emit(9), Waiting),
            (First, TakeBack, Removed),
            (First, TakeBack, Gone),
            (Third, Emit(7), Waiting),
            (Third, Ask, Pending),
            (First, Emit(8), Refused(6)),
            (Third, Close, Removed),
            (First, Emit(9), Waiting),
            (First, TakeBack, Removed),
            (First, TakeBack, Gone),
            (A, Next, Value(1)),
            (A, Next, Pending),
            (First, Try(5), Accepted(1)),
            (First, Close, Gone),
        ],
        cache: &[],
    },
];

#[test]
fn calls_are_answered(rt: HostRuntime) -> Result<(), Fail> {
    let mut differences = Differences::none(rt.alloc());
    for row in ROWS {
        let mut stage = Stage::new(&rt, row.config);
        let lines = stage.play(&rt, row.lines);
        let is_cached = stage.caches(&rt, row.cache);
        stage.leave(&rt);
        differences.compare(row.name, (lines, is_cached), (row.lines.len(), true))?;
    }
    assert_none(&rt, &differences);
    Ok(())
}

// How often a subscription in the only place takes the value with the number of its round, finds nothing more, and leaves.
fn rounds(rt: &impl Wait, stage: &mut Stage) -> u64 {
    for number in 0..ROUNDS {
        let lines = [
            (A, Subscribe, Subscribed),
            (First, Try(number), Accepted(number)),
            (A, Take, Value(number)),
            (A, Take, Nothing),
            (A, Call::Counts, Counts(number, 1, 0)),
            (A, Cancel, Cancelled),
        ];
        if stage.play(rt, &lines) != lines.len() {
            return number;
        }
    }
    ROUNDS
}

#[test]
fn a_place_is_used_again_a_thousand_times(rt: HostRuntime) {
    let config = Config {
        subscribers: 1,
        extra: 1,
        ..PLAIN
    };
    let mut stage = Stage::new(&rt, config);
    let count = rounds(&rt, &mut stage);
    let last = stage.play(&rt, &[(First, Close, Gone)]);
    stage.leave(&rt);
    assert_same(
        &rt,
        "rounds, and the emitter was idle",
        (count, last),
        (ROUNDS, 1),
    );
}
