//! The flows of `more_merges`: what each gives, after how many questions to which source, and that a cancelled one asks no more. The answers
//! are by the rules of Kotlin's operators.

use crate::operators::checks::Check;
use crate::operators::{Case, Operator, assert_cases};
use crate::sources::NEVER;
use crate::tools::{ENDED, Polling, WAIT};
use cold_flow::{Cause, Event, Refusal, Step};
use futures::task::Poll;
use std::test::Fail;

const FAILED: Polling = Poll::Ready(Event::End(Cause::Failed(7)));

const REFUSED: Polling = Poll::Ready(Event::End(Cause::Refused(Refusal::NoMemory)));

const ONE: Polling = Poll::Ready(Event::Value(1));

const TWO: Polling = Poll::Ready(Event::Value(2));

const TEN: Polling = Poll::Ready(Event::Value(10));

const TWENTY: Polling = Poll::Ready(Event::Value(20));

const TWENTY_ONE: Polling = Poll::Ready(Event::Value(21));

/// The inner flow of 0 is the second source, and that of any other value the third.
const LATEST: &[Case<'_>] = &[
    // 11 is never given.
    Case {
        name: "an outer value cancels the inner run that stands",
        operator: Operator::Latest,
        sources: [
            &[Step::Value(0), WAIT, Step::Value(1)],
            &[Step::Value(10), WAIT, WAIT, Step::Value(11)],
            &[Step::Value(20), Step::Value(21)],
        ],
        before: (NEVER, NEVER, NEVER),
        check: Check::Asks(&[
            (TEN, (2, 1, 0)),
            (TWENTY, (4, 1, 1)),
            (TWENTY_ONE, (4, 1, 2)),
            (ENDED, (4, 1, 3)),
            (ENDED, (4, 1, 3)),
        ]),
    },
    Case {
        name: "it waits for both",
        operator: Operator::Latest,
        sources: [&[Step::Value(0), WAIT, WAIT], &[WAIT, Step::Value(10)], &[]],
        before: (NEVER, NEVER, NEVER),
        check: Check::Asks(&[
            (Poll::Pending, (2, 1, 0)),
            (TEN, (3, 2, 0)),
            (ENDED, (4, 3, 0)),
        ]),
    },
    Case {
        name: "an inner run that has finished is asked no more",
        operator: Operator::Latest,
        sources: [
            &[Step::Value(0), WAIT, WAIT, WAIT, Step::Value(1)],
            &[Step::Value(10)],
            &[Step::Value(20)],
        ],
        before: (NEVER, NEVER, NEVER),
        check: Check::Asks(&[
            (TEN, (2, 1, 0)),
            (Poll::Pending, (3, 2, 0)),
            (Poll::Pending, (4, 2, 0)),
            (TWENTY, (6, 2, 1)),
            (ENDED, (6, 2, 2)),
        ]),
    },
    Case {
        name: "the inner run fails",
        operator: Operator::Latest,
        sources: [
            &[Step::Value(0), WAIT, Step::Value(1)],
            &[Step::Fail(7)],
            &[],
        ],
        before: (NEVER, NEVER, NEVER),
        check: Check::Asks(&[(FAILED, (2, 1, 0)), (FAILED, (2, 1, 0))]),
    },
    Case {
        name: "the outer fails",
        operator: Operator::Latest,
        sources: [
            &[Step::Value(0), WAIT, Step::Fail(7)],
            &[Step::Value(10), Step::Value(11)],
            &[],
        ],
        before: (NEVER, NEVER, NEVER),
        check: Check::Asks(&[(TEN, (2, 1, 0)), (FAILED, (3, 1, 0)), (FAILED, (3, 1, 0))]),
    },
    Case {
        name: "an inner start finds no memory",
        operator: Operator::Latest,
        sources: [&[Step::Value(1), Step::Value(1)], &[], &[]],
        before: (NEVER, NEVER, 1),
        check: Check::Asks(&[(REFUSED, (2, 0, 0)), (REFUSED, (2, 0, 0))]),
    },
    Case {
        name: "it yields after 64 outer values",
        operator: Operator::Latest,
        sources: [&[Step::Value(1); 70], &[], &[Step::Value(20)]],
        before: (NEVER, NEVER, NEVER),
        check: Check::Asks(&[
            (Poll::Pending, (64, 0, 0)),
            (TWENTY, (71, 0, 1)),
            (ENDED, (71, 0, 2)),
        ]),
    },
];

#[test]
fn the_latest_inner_flow_gives(rt: HostRuntime) -> Result<(), Fail> {
    assert_cases(&rt, LATEST)
}

/// The first source is the left side, and the second the right.
const PAIRS: &[Case<'_>] = &[
    Case {
        name: "the turn passes",
        operator: Operator::Pair,
        sources: [
            &[Step::Value(1), Step::Value(2)],
            &[Step::Value(10), Step::Value(20)],
            &[],
        ],
        before: (NEVER, NEVER, NEVER),
        check: Check::Asks(&[
            (ONE, (1, 0, 0)),
            (TEN, (1, 1, 0)),
            (TWO, (2, 1, 0)),
            (TWENTY, (2, 2, 0)),
            (ENDED, (3, 3, 0)),
            (ENDED, (3, 3, 0)),
        ]),
    },
    Case {
        name: "the other side is asked where one waits",
        operator: Operator::Pair,
        sources: [&[WAIT, Step::Value(1)], &[Step::Value(10), WAIT], &[]],
        before: (NEVER, NEVER, NEVER),
        check: Check::Asks(&[(TEN, (1, 1, 0)), (ONE, (2, 2, 0)), (ENDED, (3, 3, 0))]),
    },
    Case {
        name: "it waits once both wait",
        operator: Operator::Pair,
        sources: [
            &[WAIT, WAIT, Step::Value(1)],
            &[WAIT, WAIT, Step::Value(10)],
            &[],
        ],
        before: (NEVER, NEVER, NEVER),
        check: Check::Asks(&[
            (Poll::Pending, (1, 1, 0)),
            (Poll::Pending, (2, 2, 0)),
            (ONE, (3, 2, 0)),
            (TEN, (3, 3, 0)),
            (ENDED, (4, 4, 0)),
        ]),
    },
    Case {
        name: "a side that has finished is asked no more",
        operator: Operator::Pair,
        sources: [&[], &[Step::Value(10), WAIT, Step::Value(20)], &[]],
        before: (NEVER, NEVER, NEVER),
        check: Check::Asks(&[
            (TEN, (1, 1, 0)),
            (Poll::Pending, (1, 2, 0)),
            (TWENTY, (1, 3, 0)),
            (ENDED, (1, 4, 0)),
        ]),
    },
    Case {
        name: "a side fails",
        operator: Operator::Pair,
        sources: [&[Step::Value(1), Step::Value(2)], &[Step::Fail(7)], &[]],
        before: (NEVER, NEVER, NEVER),
        check: Check::Asks(&[(ONE, (1, 0, 0)), (FAILED, (1, 1, 0)), (FAILED, (1, 1, 0))]),
    },
];

#[test]
fn two_flows_give_by_turns(rt: HostRuntime) -> Result<(), Fail> {
    assert_cases(&rt, PAIRS)
}

const STEPS: &[Step<u64, u64>] = &[Step::Value(2), WAIT, Step::Value(0), Step::Value(4), WAIT];

const INNER: &[Step<u64, u64>] = &[Step::Value(0), WAIT, Step::Value(1)];

const CANCELLED: &[Case<'_>] = &[
    Case {
        name: "flat_map_latest",
        operator: Operator::Latest,
        sources: [STEPS, STEPS, INNER],
        before: (NEVER, NEVER, NEVER),
        check: Check::Cancelled,
    },
    Case {
        name: "merge",
        operator: Operator::Pair,
        sources: [STEPS, INNER, &[]],
        before: (NEVER, NEVER, NEVER),
        check: Check::Cancelled,
    },
];

#[test]
fn nobody_is_asked_after_a_cancel(rt: HostRuntime) -> Result<(), Fail> {
    assert_cases(&rt, CANCELLED)
}

const GIVES_TEN: &[Step<u64, u64>] = &[Step::Value(10)];

const GIVES_ONE: &[Step<u64, u64>] = &[Step::Value(1)];

const STARTS: &[Case<'_>] = &[
    Case {
        name: "flat_map_latest, the outer",
        operator: Operator::Latest,
        sources: [GIVES_TEN, &[], GIVES_ONE],
        before: (0, NEVER, NEVER),
        check: Check::Refused(0, &[ONE, ENDED]),
    },
    Case {
        name: "merge, the left side",
        operator: Operator::Pair,
        sources: [GIVES_TEN, GIVES_ONE, &[]],
        before: (0, NEVER, NEVER),
        check: Check::Refused(0, &[TEN, ONE, ENDED]),
    },
    Case {
        name: "merge, the right side",
        operator: Operator::Pair,
        sources: [GIVES_TEN, GIVES_ONE, &[]],
        before: (NEVER, 0, NEVER),
        check: Check::Refused(1, &[TEN, ONE, ENDED]),
    },
];

#[test]
fn a_refused_start_leaves_no_side_started(rt: HostRuntime) -> Result<(), Fail> {
    assert_cases(&rt, STARTS)
}
