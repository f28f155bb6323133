//! The operators and ends of `more_operators`: what each gives, after how many questions to its source, and that a cancelled one asks
//! no more. The answers are by the rules of Kotlin's operators.

use crate::cold_rows::IsAbove;
use crate::further::Further;
use crate::operators::checks::Check;
use crate::operators::{Case, Operator, assert_cases};
use crate::sources::{Counts, NEVER, Source, SourceRun};
use crate::tools::{ENDED, Polling, Sum, Trial, WAIT};
use cold_flow::{Cause, Event, Flow, Refusal, Step};
use futures::task::Poll;
use more_operators::{Decide, Deciding, Only, all, any, count, last, none, reduce, single};
use std::fmt::Debug;
use std::test::Fail;

/// What a source gives.
const STEPS: &[Step<u64, u64>] = &[Step::Value(2), WAIT, Step::Value(3), Step::Value(4)];

const FAILED: Polling = Poll::Ready(Event::End(Cause::Failed(7)));

const REFUSED: Polling = Poll::Ready(Event::End(Cause::Refused(Refusal::NoMemory)));

const CASES: &[Case<'_>] = &[
    Case {
        name: "scan",
        operator: Operator::More(Further::Scan),
        sources: [STEPS, &[], &[]],
        before: (NEVER, NEVER, NEVER),
        check: Check::Asks(&[
            (Poll::Ready(Event::Value(0)), (0, 0, 0)),
            (Poll::Ready(Event::Value(2)), (1, 0, 0)),
            (Poll::Pending, (2, 0, 0)),
            (Poll::Ready(Event::Value(5)), (3, 0, 0)),
            (Poll::Ready(Event::Value(9)), (4, 0, 0)),
            (ENDED, (5, 0, 0)),
        ]),
    },
    Case {
        name: "on_each",
        operator: Operator::More(Further::OnEach),
        sources: [STEPS, &[], &[]],
        before: (NEVER, NEVER, NEVER),
        check: Check::Asks(&[
            (Poll::Ready(Event::Value(2)), (1, 0, 0)),
            (Poll::Pending, (2, 0, 0)),
            (Poll::Ready(Event::Value(3)), (3, 0, 0)),
            (Poll::Ready(Event::Value(4)), (4, 0, 0)),
            (ENDED, (5, 0, 0)),
        ]),
    },
    Case {
        name: "take_while",
        operator: Operator::More(Further::TakeWhile),
        sources: [STEPS, &[], &[]],
        before: (NEVER, NEVER, NEVER),
        check: Check::Asks(&[
            (Poll::Ready(Event::Value(2)), (1, 0, 0)),
            (Poll::Pending, (2, 0, 0)),
            (Poll::Ready(Event::Value(3)), (3, 0, 0)),
            (ENDED, (4, 0, 0)),
            (ENDED, (4, 0, 0)),
        ]),
    },
    Case {
        name: "filter_map",
        operator: Operator::More(Further::FilterMap),
        sources: [STEPS, &[], &[]],
        before: (NEVER, NEVER, NEVER),
        check: Check::Asks(&[
            (Poll::Ready(Event::Value(1)), (1, 0, 0)),
            (Poll::Pending, (2, 0, 0)),
            (Poll::Ready(Event::Value(2)), (4, 0, 0)),
            (ENDED, (5, 0, 0)),
        ]),
    },
    Case {
        name: "with_index",
        operator: Operator::More(Further::WithIndex),
        sources: [STEPS, &[], &[]],
        before: (NEVER, NEVER, NEVER),
        check: Check::Asks(&[
            (Poll::Ready(Event::Value(2)), (1, 0, 0)),
            (Poll::Pending, (2, 0, 0)),
            (Poll::Ready(Event::Value(13)), (3, 0, 0)),
            (Poll::Ready(Event::Value(24)), (4, 0, 0)),
            (ENDED, (5, 0, 0)),
        ]),
    },
    Case {
        name: "distinct_by",
        operator: Operator::More(Further::DistinctBy),
        sources: [
            &[
                Step::Value(2),
                WAIT,
                Step::Value(4),
                Step::Value(3),
                Step::Value(5),
            ],
            &[],
            &[],
        ],
        before: (NEVER, NEVER, NEVER),
        check: Check::Asks(&[
            (Poll::Ready(Event::Value(2)), (1, 0, 0)),
            (Poll::Pending, (2, 0, 0)),
            (Poll::Ready(Event::Value(3)), (4, 0, 0)),
            (ENDED, (6, 0, 0)),
        ]),
    },
    Case {
        name: "drop_while",
        operator: Operator::More(Further::DropWhile),
        sources: [
            &[
                Step::Value(2),
                WAIT,
                Step::Value(3),
                Step::Value(4),
                Step::Value(1),
            ],
            &[],
            &[],
        ],
        before: (NEVER, NEVER, NEVER),
        check: Check::Asks(&[
            (Poll::Pending, (2, 0, 0)),
            (Poll::Ready(Event::Value(4)), (4, 0, 0)),
            (Poll::Ready(Event::Value(1)), (5, 0, 0)),
            (ENDED, (6, 0, 0)),
        ]),
    },
    Case {
        name: "running_reduce",
        operator: Operator::More(Further::RunningReduce),
        sources: [STEPS, &[], &[]],
        before: (NEVER, NEVER, NEVER),
        check: Check::Asks(&[
            (Poll::Ready(Event::Value(2)), (1, 0, 0)),
            (Poll::Pending, (2, 0, 0)),
            (Poll::Ready(Event::Value(5)), (3, 0, 0)),
            (Poll::Ready(Event::Value(9)), (4, 0, 0)),
            (ENDED, (5, 0, 0)),
        ]),
    },
    Case {
        name: "on_start gives its values before it asks",
        operator: Operator::More(Further::OnStart),
        sources: [STEPS, &[], &[]],
        before: (NEVER, NEVER, NEVER),
        check: Check::Asks(&[
            (Poll::Ready(Event::Value(8)), (0, 0, 0)),
            (Poll::Ready(Event::Value(9)), (0, 0, 0)),
            (Poll::Ready(Event::Value(2)), (1, 0, 0)),
            (Poll::Pending, (2, 0, 0)),
            (Poll::Ready(Event::Value(3)), (3, 0, 0)),
            (Poll::Ready(Event::Value(4)), (4, 0, 0)),
            (ENDED, (5, 0, 0)),
        ]),
    },
    Case {
        name: "on_empty where there is none",
        operator: Operator::More(Further::OnEmpty),
        sources: [&[], &[], &[]],
        before: (NEVER, NEVER, NEVER),
        check: Check::Asks(&[
            (Poll::Ready(Event::Value(8)), (1, 0, 0)),
            (Poll::Ready(Event::Value(9)), (1, 0, 0)),
            (ENDED, (1, 0, 0)),
            (ENDED, (1, 0, 0)),
        ]),
    },
    Case {
        name: "on_empty where there are some",
        operator: Operator::More(Further::OnEmpty),
        sources: [&[Step::Value(2), WAIT], &[], &[]],
        before: (NEVER, NEVER, NEVER),
        check: Check::Asks(&[
            (Poll::Ready(Event::Value(2)), (1, 0, 0)),
            (Poll::Pending, (2, 0, 0)),
            (ENDED, (3, 0, 0)),
        ]),
    },
    Case {
        name: "on_empty where it fails",
        operator: Operator::More(Further::OnEmpty),
        sources: [&[Step::Fail(7)], &[], &[]],
        before: (NEVER, NEVER, NEVER),
        check: Check::Asks(&[(FAILED, (1, 0, 0)), (FAILED, (1, 0, 0))]),
    },
    Case {
        name: "transform_while",
        operator: Operator::More(Further::TransformWhile),
        sources: [STEPS, &[], &[]],
        before: (NEVER, NEVER, NEVER),
        check: Check::Asks(&[
            (Poll::Ready(Event::Value(2)), (1, 0, 0)),
            (Poll::Ready(Event::Value(2)), (1, 0, 0)),
            (Poll::Pending, (2, 0, 0)),
            (Poll::Ready(Event::Value(3)), (3, 0, 0)),
            (Poll::Ready(Event::Value(3)), (3, 0, 0)),
            (Poll::Ready(Event::Value(4)), (4, 0, 0)),
            (ENDED, (4, 0, 0)),
            (ENDED, (4, 0, 0)),
        ]),
    },
    Case {
        name: "transform_while where its source ends before",
        operator: Operator::More(Further::TransformWhile),
        sources: [&[Step::Value(2), Step::Fail(7)], &[], &[]],
        before: (NEVER, NEVER, NEVER),
        check: Check::Asks(&[
            (Poll::Ready(Event::Value(2)), (1, 0, 0)),
            (Poll::Ready(Event::Value(2)), (1, 0, 0)),
            (FAILED, (2, 0, 0)),
        ]),
    },
    Case {
        name: "transform_while yields after 64 answers without values",
        operator: Operator::More(Further::TransformWhile),
        sources: [&[Step::Value(0); 70], &[], &[]],
        before: (NEVER, NEVER, NEVER),
        check: Check::Asks(&[(Poll::Pending, (64, 0, 0)), (ENDED, (71, 0, 0))]),
    },
    Case {
        name: "chunked, the last chunk shorter",
        operator: Operator::More(Further::Chunked(2)),
        sources: [STEPS, &[], &[]],
        before: (NEVER, NEVER, NEVER),
        check: Check::Asks(&[
            (Poll::Pending, (2, 0, 0)),
            (Poll::Ready(Event::Value(2_230)), (3, 0, 0)),
            (Poll::Ready(Event::Value(1_400)), (5, 0, 0)),
            (ENDED, (5, 0, 0)),
            (ENDED, (5, 0, 0)),
        ]),
    },
    Case {
        name: "chunked, the last chunk full",
        operator: Operator::More(Further::Chunked(3)),
        sources: [STEPS, &[], &[]],
        before: (NEVER, NEVER, NEVER),
        check: Check::Asks(&[
            (Poll::Pending, (2, 0, 0)),
            (Poll::Ready(Event::Value(3_234)), (4, 0, 0)),
            (ENDED, (5, 0, 0)),
        ]),
    },
    Case {
        name: "chunked by one",
        operator: Operator::More(Further::Chunked(1)),
        sources: [&[Step::Value(2), Step::Value(3)], &[], &[]],
        before: (NEVER, NEVER, NEVER),
        check: Check::Asks(&[
            (Poll::Ready(Event::Value(1_200)), (1, 0, 0)),
            (Poll::Ready(Event::Value(1_300)), (2, 0, 0)),
            (ENDED, (3, 0, 0)),
        ]),
    },
    Case {
        name: "chunked by 16",
        operator: Operator::More(Further::Chunked(16)),
        sources: [&[Step::Value(7); 17], &[], &[]],
        before: (NEVER, NEVER, NEVER),
        check: Check::Asks(&[
            (Poll::Ready(Event::Value(16_777)), (16, 0, 0)),
            (Poll::Ready(Event::Value(1_700)), (18, 0, 0)),
            (ENDED, (18, 0, 0)),
        ]),
    },
    Case {
        name: "chunked where it fails",
        operator: Operator::More(Further::Chunked(2)),
        sources: [
            &[
                Step::Value(2),
                Step::Value(3),
                Step::Value(4),
                Step::Fail(7),
            ],
            &[],
            &[],
        ],
        before: (NEVER, NEVER, NEVER),
        check: Check::Asks(&[
            (Poll::Ready(Event::Value(2_230)), (2, 0, 0)),
            (FAILED, (4, 0, 0)),
            (FAILED, (4, 0, 0)),
        ]),
    },
    Case {
        name: "chunked where there is none",
        operator: Operator::More(Further::Chunked(2)),
        sources: [&[], &[], &[]],
        before: (NEVER, NEVER, NEVER),
        check: Check::Asks(&[(ENDED, (1, 0, 0))]),
    },
    Case {
        name: "retry",
        operator: Operator::More(Further::Retry),
        sources: [&[Step::Value(2), Step::Fail(7)], &[], &[]],
        before: (NEVER, NEVER, NEVER),
        check: Check::Asks(&[
            (Poll::Ready(Event::Value(2)), (1, 0, 0)),
            (Poll::Pending, (2, 0, 0)),
            (Poll::Ready(Event::Value(2)), (3, 0, 0)),
            (Poll::Pending, (4, 0, 0)),
            (Poll::Ready(Event::Value(2)), (5, 0, 0)),
            (ENDED, (6, 0, 0)),
        ]),
    },
    Case {
        name: "retry of another failure",
        operator: Operator::More(Further::Retry),
        sources: [&[Step::Value(2), Step::Fail(17)], &[], &[]],
        before: (NEVER, NEVER, NEVER),
        check: Check::Asks(&[
            (Poll::Ready(Event::Value(2)), (1, 0, 0)),
            (ENDED, (2, 0, 0)),
        ]),
    },
    Case {
        name: "retry whose second start finds no memory",
        operator: Operator::More(Further::Retry),
        sources: [&[Step::Value(2), Step::Fail(7)], &[], &[]],
        before: (1, NEVER, NEVER),
        check: Check::Asks(&[
            (Poll::Ready(Event::Value(2)), (1, 0, 0)),
            (REFUSED, (2, 0, 0)),
            (REFUSED, (2, 0, 0)),
        ]),
    },
    Case {
        name: "retry_when",
        operator: Operator::More(Further::RetryWhen(9)),
        sources: [&[Step::Value(2), Step::Fail(7)], &[], &[]],
        before: (NEVER, NEVER, NEVER),
        check: Check::Asks(&[
            (Poll::Ready(Event::Value(2)), (1, 0, 0)),
            (Poll::Pending, (2, 0, 0)),
            (Poll::Ready(Event::Value(2)), (3, 0, 0)),
            (Poll::Pending, (4, 0, 0)),
            (Poll::Ready(Event::Value(2)), (5, 0, 0)),
            (ENDED, (6, 0, 0)),
        ]),
    },
    Case {
        name: "retry_when, once at most",
        operator: Operator::More(Further::RetryWhen(1)),
        sources: [&[Step::Fail(7)], &[], &[]],
        before: (NEVER, NEVER, NEVER),
        check: Check::Asks(&[(Poll::Pending, (1, 0, 0)), (ENDED, (2, 0, 0))]),
    },
    Case {
        name: "retry_when of another failure",
        operator: Operator::More(Further::RetryWhen(9)),
        sources: [&[Step::Value(2), Step::Fail(17)], &[], &[]],
        before: (NEVER, NEVER, NEVER),
        check: Check::Asks(&[
            (Poll::Ready(Event::Value(2)), (1, 0, 0)),
            (ENDED, (2, 0, 0)),
        ]),
    },
];

#[test]
fn operators_give_and_ask(rt: HostRuntime) -> Result<(), Fail> {
    assert_cases(&rt, CASES)
}

const CANCELLED: &[Case<'_>] = &[
    Case {
        name: "scan",
        operator: Operator::More(Further::Scan),
        sources: [STEPS, &[], &[]],
        before: (NEVER, NEVER, NEVER),
        check: Check::Cancelled,
    },
    Case {
        name: "on_each",
        operator: Operator::More(Further::OnEach),
        sources: [STEPS, &[], &[]],
        before: (NEVER, NEVER, NEVER),
        check: Check::Cancelled,
    },
    Case {
        name: "take_while",
        operator: Operator::More(Further::TakeWhile),
        sources: [STEPS, &[], &[]],
        before: (NEVER, NEVER, NEVER),
        check: Check::Cancelled,
    },
    Case {
        name: "retry",
        operator: Operator::More(Further::Retry),
        sources: [&[Step::Value(2), WAIT, Step::Fail(7)], &[], &[]],
        before: (NEVER, NEVER, NEVER),
        check: Check::Cancelled,
    },
    Case {
        name: "retry_when",
        operator: Operator::More(Further::RetryWhen(9)),
        sources: [&[Step::Value(2), WAIT, Step::Fail(7)], &[], &[]],
        before: (NEVER, NEVER, NEVER),
        check: Check::Cancelled,
    },
    Case {
        name: "filter_map",
        operator: Operator::More(Further::FilterMap),
        sources: [STEPS, &[], &[]],
        before: (NEVER, NEVER, NEVER),
        check: Check::Cancelled,
    },
    Case {
        name: "with_index",
        operator: Operator::More(Further::WithIndex),
        sources: [STEPS, &[], &[]],
        before: (NEVER, NEVER, NEVER),
        check: Check::Cancelled,
    },
    Case {
        name: "distinct_by",
        operator: Operator::More(Further::DistinctBy),
        sources: [STEPS, &[], &[]],
        before: (NEVER, NEVER, NEVER),
        check: Check::Cancelled,
    },
    Case {
        name: "drop_while",
        operator: Operator::More(Further::DropWhile),
        sources: [STEPS, &[], &[]],
        before: (NEVER, NEVER, NEVER),
        check: Check::Cancelled,
    },
    Case {
        name: "running_reduce",
        operator: Operator::More(Further::RunningReduce),
        sources: [STEPS, &[], &[]],
        before: (NEVER, NEVER, NEVER),
        check: Check::Cancelled,
    },
    Case {
        name: "on_start",
        operator: Operator::More(Further::OnStart),
        sources: [STEPS, &[], &[]],
        before: (NEVER, NEVER, NEVER),
        check: Check::Cancelled,
    },
    Case {
        name: "on_empty",
        operator: Operator::More(Further::OnEmpty),
        sources: [&[WAIT], &[], &[]],
        before: (NEVER, NEVER, NEVER),
        check: Check::Cancelled,
    },
    Case {
        name: "transform_while",
        operator: Operator::More(Further::TransformWhile),
        sources: [STEPS, &[], &[]],
        before: (NEVER, NEVER, NEVER),
        check: Check::Cancelled,
    },
    Case {
        name: "chunked",
        operator: Operator::More(Further::Chunked(2)),
        sources: [STEPS, &[], &[]],
        before: (NEVER, NEVER, NEVER),
        check: Check::Cancelled,
    },
];

#[test]
fn no_source_is_asked_after_a_cancel(rt: HostRuntime) -> Result<(), Fail> {
    assert_cases(&rt, CANCELLED)
}

/// A run of these steps, and what was asked of it.
fn begun<'a>(steps: &'a [Step<u64, u64>], counts: &'a Counts) -> Result<SourceRun<'a>, Refusal> {
    Source { steps, counts }.start()
}

/// What each poll of an end answers, and how often its run was polled until then.
type Answers<'a, U> = &'a [(Poll<Result<U, Cause<u64>>>, u32)];

/// Compares the answers of an end, and how often its run was polled until then.
fn compare_end<'a, U: Copy + PartialEq + Debug, D: Decide<u64, Out = U>>(
    trial: &mut Trial,
    name: &str,
    counts: &Counts,
    end: &mut Deciding<SourceRun<'a>, D, U>,
    answers: Answers<'_, U>,
) {
    for wanted in answers {
        let polled = trial.task.enter(|cx| end.poll(cx));
        trial.compare_wake(name, &polled);
        let found = (polled, counts.polls.get());
        trial.compare(name, &found, wanted);
    }
}

/// What `count` answers of these steps.
type OfCount<'a> = (&'a str, &'a [Step<u64, u64>], Answers<'a, u64>);

const COUNTED: &[OfCount<'_>] = &[
    (
        "count",
        STEPS,
        &[
            (Poll::Pending, 2),
            (Poll::Ready(Ok(3)), 5),
            (Poll::Ready(Ok(3)), 5),
        ],
    ),
    (
        "count of a failure",
        &[Step::Value(2), Step::Fail(7)],
        &[
            (Poll::Ready(Err(Cause::Failed(7))), 2),
            (Poll::Ready(Err(Cause::Failed(7))), 2),
        ],
    ),
    (
        "count yields after 64 values",
        &[Step::Value(0); 70],
        &[(Poll::Pending, 64), (Poll::Ready(Ok(70)), 71)],
    ),
];

#[test]
fn values_are_counted(rt: HostRuntime) -> Result<(), Fail> {
    let mut trial = Trial::new(&rt)?;
    for (name, steps, answers) in COUNTED {
        let counts = Counts::new(NEVER);
        let mut asked = count(begun(steps, &counts)?);
        compare_end(&mut trial, name, &counts, &mut asked, answers);
    }
    trial.assert_none(&rt);
    Ok(())
}

/// An end that answers of all values.
enum Whole {
    Reduce,
    Last,
}

/// What an end answers of these steps.
type OfWhole<'a> = (Whole, &'a [Step<u64, u64>], Answers<'a, Option<u64>>);

const WHOLE: &[OfWhole<'_>] = &[
    (
        Whole::Reduce,
        STEPS,
        &[(Poll::Pending, 2), (Poll::Ready(Ok(Some(9))), 5)],
    ),
    (
        Whole::Last,
        STEPS,
        &[(Poll::Pending, 2), (Poll::Ready(Ok(Some(4))), 5)],
    ),
    (Whole::Last, &[], &[(Poll::Ready(Ok(None)), 1)]),
];

#[test]
fn ends_answer_of_all_values(rt: HostRuntime) -> Result<(), Fail> {
    let mut trial = Trial::new(&rt)?;
    for (end, steps, answers) in WHOLE {
        let counts = Counts::new(NEVER);
        let run = begun(steps, &counts)?;
        match end {
            Whole::Reduce => {
                compare_end(
                    &mut trial,
                    "reduce",
                    &counts,
                    &mut reduce(run, Sum),
                    answers,
                );
            }
            Whole::Last => compare_end(&mut trial, "last", &counts, &mut last(run), answers),
        }
    }
    trial.assert_none(&rt);
    Ok(())
}

/// What `single` answers of these steps.
type OfSingle<'a> = (&'a [Step<u64, u64>], Answers<'a, Only<u64>>);

const SINGLES: &[OfSingle<'_>] = &[
    (&[], &[(Poll::Ready(Ok(Only::Nothing)), 1)]),
    (
        &[Step::Value(2)],
        &[
            (Poll::Ready(Ok(Only::One(2))), 2),
            (Poll::Ready(Ok(Only::One(2))), 2),
        ],
    ),
    (
        &[Step::Value(2), Step::Value(2), Step::Value(3)],
        &[
            (Poll::Ready(Ok(Only::Several)), 2),
            (Poll::Ready(Ok(Only::Several)), 2),
        ],
    ),
];

#[test]
fn single_is_settled_by_a_second_value(rt: HostRuntime) -> Result<(), Fail> {
    let mut trial = Trial::new(&rt)?;
    for (steps, answers) in SINGLES {
        let counts = Counts::new(NEVER);
        let mut asked = single(begun(steps, &counts)?);
        compare_end(&mut trial, "single", &counts, &mut asked, answers);
    }
    trial.assert_none(&rt);
    Ok(())
}

/// An end that asks by a test.
enum Quantifier {
    Any,
    All,
    None,
}

/// The limit that a test compares a value with, and what an end answers of `STEPS`, whose second step waits.
type OfTest<'a> = (Quantifier, u64, Answers<'a, bool>);

const TRUE: Poll<Result<bool, Cause<u64>>> = Poll::Ready(Ok(true));

const FALSE: Poll<Result<bool, Cause<u64>>> = Poll::Ready(Ok(false));

const SETTLED: &[OfTest<'_>] = &[
    (Quantifier::Any, 1, &[(TRUE, 1), (TRUE, 1)]),
    (Quantifier::Any, 2, &[(Poll::Pending, 2), (TRUE, 3)]),
    (Quantifier::Any, 9, &[(Poll::Pending, 2), (FALSE, 5)]),
    (Quantifier::All, 1, &[(Poll::Pending, 2), (TRUE, 5)]),
    (Quantifier::All, 2, &[(FALSE, 1), (FALSE, 1)]),
    (Quantifier::None, 1, &[(FALSE, 1), (FALSE, 1)]),
    (Quantifier::None, 2, &[(Poll::Pending, 2), (FALSE, 3)]),
    (Quantifier::None, 9, &[(Poll::Pending, 2), (TRUE, 5)]),
];

#[test]
fn tests_are_settled_by_a_value(rt: HostRuntime) -> Result<(), Fail> {
    let mut trial = Trial::new(&rt)?;
    for (quantifier, limit, answers) in SETTLED {
        let counts = Counts::new(NEVER);
        let run = begun(STEPS, &counts)?;
        let test = IsAbove(*limit);
        let mut asked = match quantifier {
            Quantifier::Any => any(run, test),
            Quantifier::All => all(run, test),
            Quantifier::None => none(run, test),
        };
        compare_end(&mut trial, "a test", &counts, &mut asked, answers);
    }
    trial.assert_none(&rt);
    Ok(())
}
