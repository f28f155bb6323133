//! Starts that a source refuses: of the inner flows of a flat map, of the source of an operator and of a buffer, and the capacity of
//! a buffer, which is refused before.

use crate::operators::checks::Check;
use crate::operators::{Case, Operator, assert_cases};
use crate::sources::{Counts, NEVER, Source};
use crate::tools::{ENDED, Polling, Trial};
use cold_flow::{Cause, Event, Flow, Policy, Refusal, Step};
use flow_buffer::split;
use futures::task::Poll;
use std::alloc::Global;
use std::sync::Wait;
use std::test::Fail;

const TEN: Polling = Poll::Ready(Event::Value(10));

const REFUSED: Polling = Poll::Ready(Event::End(Cause::Refused(Refusal::NoMemory)));

const TWO: &[Step<u64, u64>] = &[Step::Value(1), Step::Value(2)];

const GIVES_TEN: &[Step<u64, u64>] = &[Step::Value(10)];

const GIVES_ONE: &[Step<u64, u64>] = &[Step::Value(1)];

/// Flat maps of two values, whose inner flow, the third source, gives 10.
const FLAT: &[Case<'_>] = &[
    Case {
        name: "flat_map_concat, the first start",
        operator: Operator::Concat,
        sources: [TWO, &[], GIVES_TEN],
        before: (NEVER, NEVER, 0),
        check: Check::Ends(&[REFUSED, REFUSED]),
    },
    Case {
        name: "flat_map_concat, the last start",
        operator: Operator::Concat,
        sources: [TWO, &[], GIVES_TEN],
        before: (NEVER, NEVER, 1),
        check: Check::Ends(&[TEN, REFUSED, REFUSED]),
    },
    Case {
        name: "flat_map_merge, the first start",
        operator: Operator::Merge(2),
        sources: [TWO, &[], GIVES_TEN],
        before: (NEVER, NEVER, 0),
        check: Check::Ends(&[REFUSED, REFUSED]),
    },
    Case {
        name: "flat_map_merge, the last start",
        operator: Operator::Merge(1),
        sources: [TWO, &[], GIVES_TEN],
        before: (NEVER, NEVER, 1),
        check: Check::Ends(&[TEN, REFUSED, REFUSED]),
    },
];

#[test]
fn refused_inner_starts_end_a_run(rt: HostRuntime) -> Result<(), Fail> {
    assert_cases(&rt, FLAT)
}

const LEFT: (u32, u32, u32) = (0, NEVER, NEVER);

const RIGHT: (u32, u32, u32) = (NEVER, 0, NEVER);

const GIVES: &[Polling] = &[TEN, ENDED];

const GIVES_SUM: &[Polling] = &[Poll::Ready(Event::Value(11)), ENDED];

/// Operators whose first source gives 10 and whose second gives 1. A start of both sides leaves none started where the right one is
/// refused.
const STARTS: &[Case<'_>] = &[
    Case {
        name: "take and distinct",
        operator: Operator::TakeDistinct,
        sources: [GIVES_TEN, GIVES_ONE, &[]],
        before: LEFT,
        check: Check::Refused(0, GIVES),
    },
    Case {
        name: "zip",
        operator: Operator::Zip,
        sources: [GIVES_TEN, GIVES_ONE, &[]],
        before: LEFT,
        check: Check::Refused(0, GIVES_SUM),
    },
    Case {
        name: "combine",
        operator: Operator::Combine,
        sources: [GIVES_TEN, GIVES_ONE, &[]],
        before: LEFT,
        check: Check::Refused(0, GIVES_SUM),
    },
    Case {
        name: "zip, the right side",
        operator: Operator::Zip,
        sources: [GIVES_TEN, GIVES_ONE, &[]],
        before: RIGHT,
        check: Check::Refused(1, GIVES_SUM),
    },
    Case {
        name: "combine, the right side",
        operator: Operator::Combine,
        sources: [GIVES_TEN, GIVES_ONE, &[]],
        before: RIGHT,
        check: Check::Refused(1, GIVES_SUM),
    },
    Case {
        name: "buffer",
        operator: Operator::Buffer,
        sources: [GIVES_TEN, GIVES_ONE, &[]],
        before: LEFT,
        check: Check::Refused(0, GIVES),
    },
    Case {
        name: "conflate",
        operator: Operator::Conflate,
        sources: [GIVES_TEN, GIVES_ONE, &[]],
        before: LEFT,
        check: Check::Refused(0, GIVES),
    },
];

#[test]
fn refused_starts_are_made_again(rt: HostRuntime) -> Result<(), Fail> {
    assert_cases(&rt, STARTS)
}

/// The number of the refusal of a buffer between two threads, 0 where it is made.
fn split_refusal<F: Flow>(rt: &impl Wait, alloc: Global, flow: F, capacity: u64) -> u8 {
    match split(alloc, flow, capacity, Policy::Suspend) {
        Ok((feed, drain)) => {
            feed.cancel(rt);
            drop(drain);
            0
        }
        Err(refusal) => refusal.number(),
    }
}

/// A refused capacity starts nothing. The start of the source is the last that is refused for memory.
#[test]
fn refusals_of_a_split_come_in_order(rt: HostRuntime) -> Result<(), Fail> {
    let mut trial = Trial::new(&rt)?;
    let counts = Counts::new(0);
    for (capacity, refusal) in [(65_537, 1), (0, 8), (2, 4), (2, 0)] {
        let source = Source {
            steps: GIVES_TEN,
            counts: &counts,
        };
        let found = split_refusal(&rt, trial.alloc, source, capacity);
        trial.compare("refusal of a split", found, refusal);
    }
    trial.assert_none(&rt);
    Ok(())
}
