//! Calls that take memory, each with its answer. Where an allocation is refused, as under
//! `rt try --test --fail-alloc N`, the call that wanted it is refused with 4 and leaves all as it was: made once more,
//! it gives the same answer. So each test passes with ample memory, and whichever allocation is refused.

use crate::operators::checks::{Check, Judged, Three, begun, compare_memory};
use crate::operators::{Operator, compare_operator};
use crate::sources::{Counts, NEVER};
use crate::tools::{ENDED, Polling, Trial, WAIT};
use cold_flow::{
    Cause, Collected, Collecting, Event, Finite, Flow, Listed, Policy, Refusal, Run, Step, Stepped,
    collect, failing, of, range, scripted, to_list,
};
use flow_buffer::{Drain, Feed, Fill, split};
use futures::task::Poll;
use more_operators::{Chunk, chunked, debounce, list_at};
use std::alloc::{AllocError, AllocGlobal, Global};
use std::process::Abort;
use std::random::RandomSource;
use std::sync::Wait;
use std::test::Fail;

/// The flow of a list. Where there is a fault, it fails with that at its end.
fn listed(
    alloc: Global,
    values: &[u64],
    fault: Option<u64>,
) -> Result<Listed<u64, u64>, AllocError> {
    let values = values.to_vec(alloc)?;
    match fault {
        Some(fault) => Ok(failing(values, fault)),
        None => Ok(of(values)),
    }
}

/// The flow of these steps.
fn stepped(alloc: Global, steps: &[Step<u64, u64>]) -> Result<Stepped<u64, u64>, AllocError> {
    Ok(scripted(steps.to_vec(alloc)?))
}

/// The flow of a list, made again where it is refused.
fn list_of(
    alloc: Global,
    values: &[u64],
    fault: Option<u64>,
) -> Result<Listed<u64, u64>, AllocError> {
    match listed(alloc, values, fault) {
        Err(_) => listed(alloc, values, fault),
        list => list,
    }
}

fn steps_of(alloc: Global, steps: &[Step<u64, u64>]) -> Result<Stepped<u64, u64>, AllocError> {
    match stepped(alloc, steps) {
        Err(_) => stepped(alloc, steps),
        flow => flow,
    }
}

/// A flow of a list, and the polls of its run.
struct ListRow<'a> {
    name: &'a str,
    values: &'a [u64],
    fault: Option<u64>,
    answers: &'a [Polling],
}

const LISTS: &[ListRow<'_>] = &[
    ListRow {
        name: "of",
        values: &[1, 2],
        fault: None,
        answers: &[
            Poll::Ready(Event::Value(1)),
            Poll::Ready(Event::Value(2)),
            ENDED,
        ],
    },
    ListRow {
        name: "failing",
        values: &[1],
        fault: Some(7),
        answers: &[
            Poll::Ready(Event::Value(1)),
            Poll::Ready(Event::End(Cause::Failed(7))),
        ],
    },
];

/// A flow of steps, and the polls of its run.
struct StepsRow<'a> {
    name: &'a str,
    steps: &'a [Step<u64, u64>],
    answers: &'a [Polling],
}

const STEPS: &[StepsRow<'_>] = &[
    StepsRow {
        name: "scripted",
        steps: &[Step::Value(1), WAIT],
        answers: &[Poll::Ready(Event::Value(1)), Poll::Pending, ENDED],
    },
    StepsRow {
        name: "scripted, the end by a fault is given again",
        steps: &[Step::Value(1), WAIT, Step::Fail(5), Step::Value(2)],
        answers: &[
            Poll::Ready(Event::Value(1)),
            Poll::Pending,
            Poll::Ready(Event::End(Cause::Failed(5))),
            Poll::Ready(Event::End(Cause::Failed(5))),
        ],
    },
];

/// Lists and steps.
#[test]
fn starts_of_sources_take_memory(rt: HostRuntime) -> Result<(), Fail> {
    let mut trial = Trial::new(&rt)?;
    for row in LISTS {
        let list = list_of(trial.alloc, row.values, row.fault)?;
        compare_memory(&mut trial, row.name, row.answers, &list);
    }
    for row in STEPS {
        let steps = steps_of(trial.alloc, row.steps)?;
        compare_memory(&mut trial, row.name, row.answers, &steps);
    }
    trial.assert_none(&rt);
    Ok(())
}

/// An operator over lists of these values, whose starts take memory, and the polls of its run.
struct Row<'a> {
    name: &'a str,
    operator: Operator,
    one: &'a [u64],
    other: &'a [u64],
    answers: &'a [Polling],
}

/// Compares an operator over lists, which are lent. The inner flow of a flat map is the other.
fn compare_row(trial: &mut Trial, row: &Row<'_>) -> Result<(), Refusal> {
    let one = list_of(trial.alloc, row.one, None)?;
    let other = list_of(trial.alloc, row.other, None)?;
    let counts = Three {
        one: Counts::new(NEVER),
        two: Counts::new(NEVER),
        three: Counts::new(NEVER),
    };
    let judged = Judged {
        name: row.name,
        check: &Check::Memory(row.answers),
        counts: &counts,
    };
    compare_operator(trial, &row.operator, (&one, &other, &other), &judged)
}

/// Fails where a row isn't answered as it says.
fn assert_rows<R: Abort + RandomSource + AllocGlobal>(
    rt: &R,
    rows: &[Row<'_>],
) -> Result<(), Fail> {
    let mut trial = Trial::new(rt)?;
    for row in rows {
        compare_row(&mut trial, row)?;
    }
    trial.assert_none(rt);
    Ok(())
}

const OPERATORS: &[Row<'_>] = &[
    Row {
        name: "take and distinct",
        operator: Operator::TakeDistinct,
        one: &[1, 1, 2, 3],
        other: &[],
        answers: &[
            Poll::Ready(Event::Value(1)),
            Poll::Ready(Event::Value(2)),
            ENDED,
        ],
    },
    Row {
        name: "buffer",
        operator: Operator::Buffer,
        one: &[5],
        other: &[],
        answers: &[Poll::Ready(Event::Value(5)), ENDED],
    },
    Row {
        name: "conflate",
        operator: Operator::Conflate,
        one: &[5],
        other: &[],
        answers: &[Poll::Ready(Event::Value(5)), ENDED],
    },
];

#[test]
fn starts_of_operators_take_memory(rt: HostRuntime) -> Result<(), Fail> {
    assert_rows(&rt, OPERATORS)
}

/// Both lists are started, one after the other.
const PAIRS: &[Row<'_>] = &[
    Row {
        name: "zip",
        operator: Operator::Zip,
        one: &[1, 2],
        other: &[10, 20],
        answers: &[
            Poll::Ready(Event::Value(11)),
            Poll::Ready(Event::Value(22)),
            ENDED,
        ],
    },
    Row {
        name: "combine",
        operator: Operator::Combine,
        one: &[1, 2],
        other: &[10, 20],
        answers: &[
            Poll::Ready(Event::Value(11)),
            Poll::Ready(Event::Value(12)),
            Poll::Ready(Event::Value(22)),
            ENDED,
        ],
    },
];

#[test]
fn starts_of_pairs_take_memory(rt: HostRuntime) -> Result<(), Fail> {
    assert_rows(&rt, PAIRS)
}

/// An inner start that is refused ends the run.
const FLAT_MAPS: &[Row<'_>] = &[
    Row {
        name: "flat_map_concat",
        operator: Operator::Concat,
        one: &[1, 2],
        other: &[10],
        answers: &[
            Poll::Ready(Event::Value(10)),
            Poll::Ready(Event::Value(10)),
            ENDED,
        ],
    },
    Row {
        name: "flat_map_merge",
        operator: Operator::Merge(2),
        one: &[1, 2],
        other: &[10],
        answers: &[
            Poll::Ready(Event::Value(10)),
            Poll::Ready(Event::Value(10)),
            ENDED,
        ],
    },
];

#[test]
fn polls_of_flat_maps_take_memory(rt: HostRuntime) -> Result<(), Fail> {
    assert_rows(&rt, FLAT_MAPS)
}

/// Flows of `more_merges`: both lists are started one after the other, those of a list take places for their runs, and an inner start
/// that is refused ends the run. The values of three are by the rules of Kotlin's `merge` and `combine`, in the order in which the
/// lists are asked.
const MERGES: &[Row<'_>] = &[
    Row {
        name: "merge",
        operator: Operator::Pair,
        one: &[1],
        other: &[10],
        answers: &[
            Poll::Ready(Event::Value(1)),
            Poll::Ready(Event::Value(10)),
            ENDED,
        ],
    },
    Row {
        name: "flat_map_latest",
        operator: Operator::Latest,
        one: &[1, 2],
        other: &[10],
        answers: &[Poll::Ready(Event::Value(10)), ENDED],
    },
    Row {
        name: "merge_all",
        operator: Operator::All,
        one: &[1, 2],
        other: &[10],
        answers: &[
            Poll::Ready(Event::Value(1)),
            Poll::Ready(Event::Value(10)),
            Poll::Ready(Event::Value(10)),
            Poll::Ready(Event::Value(2)),
            ENDED,
        ],
    },
    Row {
        name: "combine_all",
        operator: Operator::Digits,
        one: &[1, 4],
        other: &[2],
        answers: &[
            Poll::Ready(Event::Value(122)),
            Poll::Ready(Event::Value(422)),
            ENDED,
        ],
    },
];

#[test]
fn starts_of_merges_take_memory(rt: HostRuntime) -> Result<(), Fail> {
    assert_rows(&rt, MERGES)
}

/// All values of the list and its end.
fn is_all(list: &Collected<u64, u64>, values: &[u64]) -> bool {
    list.values.as_slice() == values && list.cause == Cause::Finished
}

/// Whether one poll of a collection gives these values. None where it was given up with 4, and keeps what came before.
fn gather<R: Run<Item = u64, Fault = u64>>(
    trial: &Trial,
    gathering: &mut Collecting<R>,
    values: &[u64],
) -> Option<bool> {
    match trial.task.enter(|cx| gathering.poll(cx)) {
        Poll::Ready(Ok(list)) => Some(is_all(&list, values)),
        Poll::Ready(Err(Refusal::NoMemory)) => {
            let so_far = gathering.so_far();
            if values.get(..so_far.len()) == Some(so_far) {
                None
            } else {
                Some(false)
            }
        }
        _ => Some(false),
    }
}

/// The same of a new run of the flow. One that was given up answers that again, and another run is collected.
fn gathered<F: Flow<Item = u64, Fault = u64>>(
    trial: &Trial,
    flow: &F,
    values: &[u64],
) -> Result<Option<bool>, Refusal> {
    let mut gathering = collect(trial.alloc, begun(flow)?);
    let first = gather(trial, &mut gathering, values);
    if first.is_some() {
        return Ok(first);
    }
    if gather(trial, &mut gathering, values).is_some() {
        return Ok(Some(false));
    }
    Ok(gather(trial, &mut collect(trial.alloc, begun(flow)?), values))
}

/// A list of the flow.
fn list_from<F: Flow<Item = u64, Fault = u64>>(
    trial: &Trial,
    flow: &F,
) -> Result<Collected<u64, u64>, Refusal>
where
    F::Running: Finite,
{
    let alloc = trial.alloc;
    let run = begun(flow)?;
    trial.task.enter(move |cx| to_list(alloc, run, cx))
}

fn listed_again<F: Flow<Item = u64, Fault = u64>>(
    trial: &Trial,
    flow: &F,
) -> Result<Collected<u64, u64>, Refusal>
where
    F::Running: Finite,
{
    match list_from(trial, flow) {
        Err(Refusal::NoMemory) => list_from(trial, flow),
        list => list,
    }
}

#[test]
fn ends_take_memory(rt: HostRuntime) -> Result<(), Fail> {
    const VALUES: &[u64] = &[0, 1, 2, 3, 4, 5, 6, 7, 8, 9, 10, 11];
    let mut trial = Trial::new(&rt)?;
    let numbers = range::<u64>(0, 12);
    let collected = gathered(&trial, &numbers, VALUES)?;
    trial.compare("collect", collected, Some(true));
    let list = listed_again(&trial, &numbers)?;
    trial.compare("to_list", is_all(&list, VALUES), true);
    trial.assert_none(&rt);
    Ok(())
}

/// When `debounce` is asked of five values, in the example of its documentation: the second and the third come 90 after the one
/// before, and the others 1010.
const MOMENTS: &[u64] = &[0, 90, 180, 1_190, 1_190, 2_200, 2_200, 2_200, 2_200];

/// What it gives of them, which is 3, 4 and 5.
const QUIET: &[(u64, Event<u64, u64>)] = &[
    (1_190, Event::Value(3)),
    (2_200, Event::Value(4)),
    (2_200, Event::Value(5)),
    (2_200, Event::End(Cause::Finished)),
];

/// Whether the list of `debounce` is that.
fn is_quiet(trial: &Trial) -> Result<bool, Refusal> {
    let alloc = trial.alloc;
    let run = debounce(range::<u64>(1, 6).start()?, 1_000);
    let list = trial
        .task
        .enter(move |cx| list_at(alloc, run, MOMENTS, cx))?;
    Ok(list.as_slice() == QUIET)
}

#[test]
fn a_list_at_moments_takes_memory(rt: HostRuntime) -> Result<(), Fail> {
    let mut trial = Trial::new(&rt)?;
    let list = match is_quiet(&trial) {
        Err(Refusal::NoMemory) => is_quiet(&trial),
        list => list,
    };
    trial.compare("list_at", list, Ok(true));
    trial.assert_none(&rt);
    Ok(())
}

/// Appends the chunks of a flow to a list, each once more where memory is refused, and compares the list after each.
fn compare_appended<F: Flow<Item = Chunk<u64>>>(
    trial: &mut Trial,
    flow: F,
    wanted: &[&[u64]],
) -> Result<(), Refusal> {
    let mut run = flow.start()?;
    let mut values = Vec::new(trial.alloc);
    for list in wanted {
        if let Poll::Ready(Event::Value(chunk)) = trial.task.enter(|cx| run.poll_next(cx))
            && chunk.append_to(&mut values).is_err()
        {
            chunk.append_to(&mut values)?;
        }
        trial.compare("append_to", values.as_slice(), *list);
    }
    Ok(())
}

/// The same of the values of a flow, in chunks of so many.
fn compare_chunks<F: Flow<Item = u64>>(
    trial: &mut Trial,
    source: F,
    size: u32,
    wanted: &[&[u64]],
) -> Result<(), Refusal> {
    compare_appended(trial, chunked(source, size)?, wanted)
}

#[test]
fn appended_chunks_take_memory(rt: HostRuntime) -> Result<(), Fail> {
    let mut trial = Trial::new(&rt)?;
    let wanted: &[&[u64]] = &[&[0, 1, 2, 3, 4], &[0, 1, 2, 3, 4, 5, 6]];
    compare_chunks(&mut trial, range::<u64>(0, 7), 5, wanted)?;
    trial.assert_none(&rt);
    Ok(())
}

/// Both sides of a flow that is split.
type Sides<F> = (Feed<<F as Flow>::Running>, Drain<u64, u64>);

fn split_again<F: Flow<Item = u64, Fault = u64> + Copy>(
    alloc: Global,
    list: F,
) -> Result<Sides<F>, Refusal> {
    match split(alloc, list, 2, Policy::Suspend) {
        Err(Refusal::NoMemory) => split(alloc, list, 2, Policy::Suspend),
        sides => sides,
    }
}

/// Splits the list 5, and compares what one pump and the drain give.
fn compare_split<F: Flow<Item = u64, Fault = u64> + Copy>(
    rt: &impl Wait,
    trial: &mut Trial,
    list: F,
) -> Result<(), Refusal> {
    let (mut feed, mut drain) = split_again(trial.alloc, list)?;
    let took = trial.task.enter(|cx| feed.pump(rt, cx));
    feed.cancel(rt);
    let gave = (drain.next(rt), drain.next(rt));
    let wanted = (Event::Value(5), Event::End(Cause::Cancelled));
    trial.compare("split", (took, gave), (Fill::Took, wanted));
    Ok(())
}

#[test]
fn a_split_takes_memory(rt: HostRuntime) -> Result<(), Fail> {
    let mut trial = Trial::new(&rt)?;
    let list = list_of(trial.alloc, &[5], None)?;
    compare_split(&rt, &mut trial, &list)?;
    trial.assert_none(&rt);
    Ok(())
}
