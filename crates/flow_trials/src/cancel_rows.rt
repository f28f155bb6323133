//! Runs that are cancelled after each number of polls.

use crate::operators::checks::Check;
use crate::operators::{Case, Operator, assert_cases};
use crate::sources::NEVER;
use crate::tools::WAIT;
use cold_flow::Step;
use std::test::Fail;

/// What a source gives.
const STEPS: &[Step<u64, u64>] = &[Step::Value(2), WAIT, Step::Value(3), Step::Value(4)];

/// What an inner flow gives.
const INNER: &[Step<u64, u64>] = &[Step::Value(0), Step::Value(1)];

const CASES: &[Case<'_>] = &[
    Case {
        name: "map",
        operator: Operator::Map,
        sources: [STEPS, STEPS, INNER],
        before: (NEVER, NEVER, NEVER),
        check: Check::Cancelled,
    },
    Case {
        name: "filter",
        operator: Operator::Filter,
        sources: [STEPS, STEPS, INNER],
        before: (NEVER, NEVER, NEVER),
        check: Check::Cancelled,
    },
    Case {
        name: "drop_first",
        operator: Operator::DropFirst,
        sources: [STEPS, STEPS, INNER],
        before: (NEVER, NEVER, NEVER),
        check: Check::Cancelled,
    },
    Case {
        name: "distinct",
        operator: Operator::Distinct,
        sources: [STEPS, STEPS, INNER],
        before: (NEVER, NEVER, NEVER),
        check: Check::Cancelled,
    },
    Case {
        name: "transform",
        operator: Operator::Transform,
        sources: [STEPS, STEPS, INNER],
        before: (NEVER, NEVER, NEVER),
        check: Check::Cancelled,
    },
    Case {
        name: "on_completion",
        operator: Operator::Completion,
        sources: [STEPS, STEPS, INNER],
        before: (NEVER, NEVER, NEVER),
        check: Check::Cancelled,
    },
    Case {
        name: "catch_with",
        operator: Operator::Catch,
        sources: [STEPS, STEPS, INNER],
        before: (NEVER, NEVER, NEVER),
        check: Check::Cancelled,
    },
    Case {
        name: "take and distinct",
        operator: Operator::TakeDistinct,
        sources: [STEPS, STEPS, INNER],
        before: (NEVER, NEVER, NEVER),
        check: Check::Cancelled,
    },
    Case {
        name: "buffer",
        operator: Operator::Buffer,
        sources: [STEPS, STEPS, INNER],
        before: (NEVER, NEVER, NEVER),
        check: Check::Cancelled,
    },
    Case {
        name: "conflate",
        operator: Operator::Conflate,
        sources: [STEPS, STEPS, INNER],
        before: (NEVER, NEVER, NEVER),
        check: Check::Cancelled,
    },
    Case {
        name: "zip",
        operator: Operator::Zip,
        sources: [STEPS, STEPS, INNER],
        before: (NEVER, NEVER, NEVER),
        check: Check::Cancelled,
    },
    Case {
        name: "combine",
        operator: Operator::Combine,
        sources: [STEPS, STEPS, INNER],
        before: (NEVER, NEVER, NEVER),
        check: Check::Cancelled,
    },
    Case {
        name: "flat_map_concat",
        operator: Operator::Concat,
        sources: [STEPS, STEPS, INNER],
        before: (NEVER, NEVER, NEVER),
        check: Check::Cancelled,
    },
    Case {
        name: "flat_map_merge",
        operator: Operator::Merge(2),
        sources: [STEPS, STEPS, INNER],
        before: (NEVER, NEVER, NEVER),
        check: Check::Cancelled,
    },
];

#[test]
fn no_source_is_polled_after_the_cancel(rt: HostRuntime) -> Result<(), Fail> {
    assert_cases(&rt, CASES)
}
