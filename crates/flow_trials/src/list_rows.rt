//! The flows of `more_merges` over a list of flows: what each gives, after how many questions to which source, that a cancelled one
//! asks no more, and that a refused start leaves none started. The values are by the rules of Kotlin's `merge` and `combine`; the order
//! between two flows is by the order in which they are asked.

use crate::operators::checks::Check;
use crate::operators::{Case, Operator, assert_cases};
use crate::sources::NEVER;
use crate::tools::{ENDED, Polling, WAIT};
use cold_flow::{Cause, Event, Step};
use futures::task::Poll;
use std::test::Fail;

const FAILED: Polling = Poll::Ready(Event::End(Cause::Failed(7)));

const ONE: Polling = Poll::Ready(Event::Value(1));

const TWO: Polling = Poll::Ready(Event::Value(2));

const TEN: Polling = Poll::Ready(Event::Value(10));

const TWENTY: Polling = Poll::Ready(Event::Value(20));

/// The first poll asks the first source first, the next one the second, and so on.
const MERGED: &[Case<'_>] = &[
    Case {
        name: "merge_all begins one source further on",
        operator: Operator::All,
        sources: [
            &[Step::Value(1), Step::Value(2)],
            &[Step::Value(10)],
            &[Step::Value(20)],
        ],
        before: (NEVER, NEVER, NEVER),
        check: Check::Asks(&[
            (ONE, (1, 0, 0)),
            (TEN, (1, 1, 0)),
            (TWENTY, (1, 1, 1)),
            (TWO, (2, 1, 1)),
            (ENDED, (3, 2, 2)),
            (ENDED, (3, 2, 2)),
        ]),
    },
    Case {
        name: "merge_all asks the others where one waits",
        operator: Operator::All,
        sources: [
            &[WAIT, Step::Value(1)],
            &[WAIT, Step::Value(10)],
            &[Step::Value(20), WAIT],
        ],
        before: (NEVER, NEVER, NEVER),
        check: Check::Asks(&[
            (TWENTY, (1, 1, 1)),
            (TEN, (1, 2, 1)),
            (ONE, (2, 2, 2)),
            (ENDED, (3, 3, 3)),
        ]),
    },
    Case {
        name: "merge_all waits once all wait that have not finished",
        operator: Operator::All,
        sources: [&[WAIT], &[], &[WAIT, Step::Value(20)]],
        before: (NEVER, NEVER, NEVER),
        check: Check::Asks(&[
            (Poll::Pending, (1, 1, 1)),
            (TWENTY, (1, 1, 2)),
            (ENDED, (2, 1, 3)),
        ]),
    },
    Case {
        name: "merge_all ends with a failure",
        operator: Operator::All,
        sources: [
            &[Step::Value(1), Step::Value(2)],
            &[Step::Fail(7)],
            &[Step::Value(20)],
        ],
        before: (NEVER, NEVER, NEVER),
        check: Check::Asks(&[(ONE, (1, 0, 0)), (FAILED, (1, 1, 0)), (FAILED, (1, 1, 0))]),
    },
    Case {
        name: "merge_all, cancelled",
        operator: Operator::All,
        sources: [
            &[Step::Value(2), WAIT, Step::Value(3)],
            &[Step::Value(0), WAIT],
            &[],
        ],
        before: (NEVER, NEVER, NEVER),
        check: Check::Cancelled,
    },
    Case {
        name: "merge_all, the second start refused",
        operator: Operator::All,
        sources: [&[Step::Value(10)], &[Step::Value(1)], &[]],
        before: (NEVER, 0, NEVER),
        check: Check::Refused(1, &[TEN, ONE, ENDED]),
    },
];

#[test]
fn a_list_of_flows_is_merged(rt: HostRuntime) -> Result<(), Fail> {
    assert_cases(&rt, MERGED)
}

/// The latest values as the digits of a number.
const COMBINED: &[Case<'_>] = &[
    Case {
        name: "combine_all gives once each has given one",
        operator: Operator::Digits,
        sources: [
            &[Step::Value(1), Step::Value(4)],
            &[Step::Value(2)],
            &[Step::Value(3)],
        ],
        before: (NEVER, NEVER, NEVER),
        check: Check::Asks(&[
            (Poll::Ready(Event::Value(123)), (1, 1, 1)),
            (Poll::Ready(Event::Value(423)), (2, 1, 1)),
            (ENDED, (3, 2, 2)),
        ]),
    },
    Case {
        name: "combine_all gives nothing where one gives nothing",
        operator: Operator::Digits,
        sources: [&[Step::Value(1), Step::Value(4)], &[Step::Value(2)], &[]],
        before: (NEVER, NEVER, NEVER),
        check: Check::Asks(&[(ENDED, (3, 2, 1))]),
    },
    Case {
        name: "combine_all waits once all wait that have not finished",
        operator: Operator::Digits,
        sources: [
            &[WAIT, WAIT, Step::Value(1)],
            &[Step::Value(2)],
            &[Step::Value(3)],
        ],
        before: (NEVER, NEVER, NEVER),
        check: Check::Asks(&[
            (Poll::Pending, (2, 2, 2)),
            (Poll::Ready(Event::Value(123)), (3, 2, 2)),
            (ENDED, (4, 2, 2)),
        ]),
    },
    Case {
        name: "combine_all ends with a failure",
        operator: Operator::Digits,
        sources: [&[Step::Value(1)], &[Step::Fail(7)], &[Step::Value(3)]],
        before: (NEVER, NEVER, NEVER),
        check: Check::Asks(&[(FAILED, (1, 1, 0)), (FAILED, (1, 1, 0))]),
    },
    Case {
        name: "combine_all yields after 64 values that gave nothing",
        operator: Operator::Digits,
        sources: [&[Step::Value(1); 70], &[], &[Step::Value(2)]],
        before: (NEVER, NEVER, NEVER),
        check: Check::Asks(&[(Poll::Pending, (63, 1, 2)), (ENDED, (71, 1, 2))]),
    },
    Case {
        name: "combine_all, cancelled",
        operator: Operator::Digits,
        sources: [
            &[Step::Value(2), WAIT, Step::Value(3)],
            &[Step::Value(0), WAIT],
            &[WAIT, Step::Value(1)],
        ],
        before: (NEVER, NEVER, NEVER),
        check: Check::Cancelled,
    },
    Case {
        name: "combine_all, the second start refused",
        operator: Operator::Digits,
        sources: [&[Step::Value(1)], &[], &[]],
        before: (NEVER, 0, NEVER),
        check: Check::Refused(1, &[ENDED]),
    },
];

#[test]
fn a_list_of_flows_is_combined(rt: HostRuntime) -> Result<(), Fail> {
    assert_cases(&rt, COMBINED)
}
