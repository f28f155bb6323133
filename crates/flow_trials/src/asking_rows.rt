//! Which sources a poll asks: how often each, and which it may leave unasked; and that a buffer that is refused leaves nothing
//! started.

use crate::operators::checks::Check;
use crate::operators::{Case, Operator, assert_cases};
use crate::sources::NEVER;
use crate::tools::{ENDED, Polling, WAIT};
use cold_flow::{Event, Step};
use futures::task::Poll;
use std::test::Fail;

const SEVEN: Polling = Poll::Ready(Event::Value(7));

const ELEVEN: Polling = Poll::Ready(Event::Value(11));

const THIRTY: Polling = Poll::Ready(Event::Value(30));

// A side that waits leaves the turn to the other, and is asked again after an answer of it that gave nothing.
const PAIRS: &[Case<'_>] = &[
    // The right is asked in the poll in which the left gave its value, and the left is not asked again while that is held.
    Case {
        name: "zip asks the right once the left has given",
        operator: Operator::Zip,
        sources: [&[WAIT, Step::Value(1)], &[WAIT, WAIT, Step::Value(10)], &[]],
        before: (NEVER, NEVER, NEVER),
        check: Check::Asks(&[
            (Poll::Pending, (1, 0, 0)),
            (Poll::Pending, (2, 1, 0)),
            (Poll::Pending, (2, 2, 0)),
            (ELEVEN, (2, 3, 0)),
            (ENDED, (3, 3, 0)),
        ]),
    },
    Case {
        name: "combine_turns",
        operator: Operator::Combine,
        sources: [
            &[Step::Value(1), WAIT, Step::Value(2)],
            &[Step::Value(10), Step::Value(20)],
            &[],
        ],
        before: (NEVER, NEVER, NEVER),
        check: Check::Asks(&[
            (ELEVEN, (1, 1, 0)),
            (Poll::Ready(Event::Value(21)), (2, 2, 0)),
            (Poll::Ready(Event::Value(22)), (3, 2, 0)),
            (ENDED, (4, 3, 0)),
        ]),
    },
    Case {
        name: "combine asks the right where the left waits, and the left again",
        operator: Operator::Combine,
        sources: [&[WAIT, Step::Value(1)], &[Step::Value(10), WAIT, WAIT], &[]],
        before: (NEVER, NEVER, NEVER),
        check: Check::Asks(&[
            (ELEVEN, (2, 1, 0)),
            (Poll::Pending, (3, 3, 0)),
            (ENDED, (3, 4, 0)),
        ]),
    },
    Case {
        name: "combine waits once both sides wait",
        operator: Operator::Combine,
        sources: [
            &[WAIT, WAIT, Step::Value(1)],
            &[WAIT, WAIT, Step::Value(10)],
            &[],
        ],
        before: (NEVER, NEVER, NEVER),
        check: Check::Asks(&[
            (Poll::Pending, (1, 1, 0)),
            (Poll::Pending, (2, 2, 0)),
            (ELEVEN, (3, 3, 0)),
        ]),
    },
];

#[test]
fn pairs_ask_their_sides(rt: HostRuntime) -> Result<(), Fail> {
    assert_cases(&rt, PAIRS)
}

// Flat maps whose inner flows give nothing for 0, and 7 for any other value.
const FLAT: &[Case<'_>] = &[
    Case {
        name: "the outer is asked in the poll in which an inner flow finishes",
        operator: Operator::Concat,
        sources: [
            &[Step::Value(0), Step::Value(1), WAIT],
            &[],
            &[Step::Value(7)],
        ],
        before: (NEVER, NEVER, NEVER),
        check: Check::Asks(&[
            (SEVEN, (2, 1, 1)),
            (Poll::Pending, (3, 1, 2)),
            (ENDED, (4, 1, 2)),
        ]),
    },
    // The values and the ends of 32 inner flows.
    Case {
        name: "a concatenation yields after 64 answers that give the caller nothing",
        operator: Operator::Concat,
        sources: [&[Step::Value(0); 40], &[], &[Step::Value(7)]],
        before: (NEVER, NEVER, NEVER),
        check: Check::Asks(&[(Poll::Pending, (32, 32, 0)), (ENDED, (41, 40, 0))]),
    },
    Case {
        name: "a merge asks its inner runs though the outer waits",
        operator: Operator::Merge(2),
        sources: [&[Step::Value(1), WAIT, WAIT], &[], &[Step::Value(7)]],
        before: (NEVER, NEVER, NEVER),
        check: Check::Asks(&[
            (SEVEN, (2, 0, 1)),
            (Poll::Pending, (3, 0, 2)),
            (ENDED, (4, 0, 2)),
        ]),
    },
];

#[test]
fn flat_maps_ask_on(rt: HostRuntime) -> Result<(), Fail> {
    assert_cases(&rt, FLAT)
}

// How often the first inner flow, the second and all others are asked.
const TURNS: &[Case<'_>] = &[
    // Each poll goes on behind the run that gave last, so none is asked twice before each other was.
    Case {
        name: "runs that wait are asked as often as one that always gives",
        operator: Operator::Turns(3, 3),
        sources: [
            &[WAIT; 6],
            &[Step::Value(7); 6],
            &[WAIT, WAIT, WAIT, Step::Value(30), WAIT],
        ],
        before: (NEVER, NEVER, NEVER),
        check: Check::Asks(&[
            (SEVEN, (1, 1, 0)),
            (SEVEN, (2, 2, 1)),
            (SEVEN, (3, 3, 2)),
            (SEVEN, (4, 4, 3)),
            (THIRTY, (4, 4, 4)),
            (SEVEN, (5, 5, 4)),
        ]),
    },
    Case {
        name: "the place of a run that ends is filled in the poll in which another waits",
        operator: Operator::Turns(3, 2),
        sources: [&[WAIT], &[], &[WAIT]],
        before: (NEVER, NEVER, NEVER),
        check: Check::Asks(&[(Poll::Pending, (1, 1, 1)), (ENDED, (2, 1, 2))]),
    },
    // A start and an end are two of the 64 answers after which a poll yields. The first poll spends two on starts before that.
    Case {
        name: "a run that waits is asked in each poll, though others start and end all the time",
        operator: Operator::Turns(1_000, 2),
        sources: [&[WAIT; 6], &[], &[]],
        before: (NEVER, NEVER, NEVER),
        check: Check::Asks(&[
            (Poll::Pending, (1, 1, 30)),
            (Poll::Pending, (2, 1, 62)),
            (Poll::Pending, (3, 1, 94)),
            (Poll::Pending, (4, 1, 126)),
        ]),
    },
    Case {
        name: "a run that is started is asked after all that stand, wherever the turn is",
        operator: Operator::Turns(1_000, 3),
        sources: [&[Step::Value(7); 6], &[WAIT; 6], &[]],
        before: (NEVER, NEVER, NEVER),
        check: Check::Asks(&[
            (SEVEN, (1, 0, 0)),
            (SEVEN, (2, 1, 1)),
            (SEVEN, (3, 2, 2)),
            (SEVEN, (4, 3, 3)),
            (SEVEN, (5, 4, 4)),
        ]),
    },
    // 64 starts, and two more; then, twice, 32 ends with a start after each.
    Case {
        name: "a poll goes on where the one before it yielded",
        operator: Operator::Turns(1_000, 66),
        sources: [&[Step::Value(7); 6], &[WAIT; 6], &[]],
        before: (NEVER, NEVER, NEVER),
        check: Check::Asks(&[
            (Poll::Pending, (0, 0, 0)),
            (SEVEN, (1, 0, 0)),
            (Poll::Pending, (1, 1, 32)),
            (Poll::Pending, (1, 1, 64)),
            (SEVEN, (2, 1, 64)),
        ]),
    },
];

#[test]
fn merges_ask_in_turn(rt: HostRuntime) -> Result<(), Fail> {
    assert_cases(&rt, TURNS)
}

// A buffer whose ring is refused leaves no run of its source going. The ring is the only memory here but for the task, so that it
// is refused under `rt try --test --fail-alloc N`.
const RING: &[Case<'_>] = &[Case {
    name: "a refused ring",
    operator: Operator::Buffer,
    sources: [&[], &[], &[]],
    before: (NEVER, NEVER, NEVER),
    check: Check::Balanced,
}];

#[test]
fn refused_ring_leaves_nothing_started(rt: HostRuntime) -> Result<(), Fail> {
    assert_cases(&rt, RING)
}
