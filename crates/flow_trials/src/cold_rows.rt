//! Cold flows of one source poll by poll: the worked examples, each end once with ample memory, and what the callers give.
ghost use Rattle.std.specs.Prelude.{◌≡◌, nat_lt, ⊤};

use crate::sources::{Counts, NEVER, Source};
use crate::tools::{Add, CANCELLED, ENDED, Polling, Sum, Trial};
use cold_callers::{chain, mapped_list, taken_down};
use cold_flow::{
    Apply, Cause, Collected, Collecting, Event, First, Flow, Folding, Refusal, Run, Step, collect,
    filter, first, fold, on_completion, range,
};
use futures::task::Poll;
use std::alloc::AllocError;
use std::cell::Cell;
use std::test::Fail;

/// Whether a value is above a given one.
#[derive(Copy)]
pub(crate) struct IsAbove(pub(crate) u64);

impl Clone for IsAbove {
    ghost is_clone = { λ function copy. copy ≡ function };

    ghost is_infallible = { λ _. ⊤ };

    fn clone(&self) -> Result<Self, AllocError> {
        Ok(*self)
    }
}

impl Apply<u64> for IsAbove {
    type Out = bool;

    ghost gives = { λ f x. nat_lt f.0 x };

    fn apply(&self, argument: u64) -> bool {
        self.0 < argument
    }
}

// An action at the end, which gives a last value and counts how often it is asked.
#[derive(Copy)]
pub(crate) struct Asked<'a> {
    pub(crate) asks: &'a Cell<u32>,
    pub(crate) last: Option<u64>,
}

impl Clone for Asked<'_> {
    ghost is_clone = { λ function copy. copy ≡ function };

    ghost is_infallible = { λ _. ⊤ };

    fn clone(&self) -> Result<Self, AllocError> {
        Ok(*self)
    }
}

impl Apply<Cause<u64>> for Asked<'_> {
    type Out = Option<u64>;

    ghost gives = { λ f _. f.last };

    fn apply(&self, _argument: Cause<u64>) -> Option<u64> {
        self.asks.set(self.asks.get().saturating_add(1));
        self.last
    }
}

const FAILED: Polling = Poll::Ready(Event::End(Cause::Failed(5)));

const FIRST_VALUE: Polling = Poll::Ready(Event::Value(1));

const SECOND_VALUE: Polling = Poll::Ready(Event::Value(2));

const LAST_VALUE: Polling = Poll::Ready(Event::Value(9));

// Where nothing is found in 64 values a poll yields, three times for 199.
fn compare_filter(trial: &mut Trial) -> Result<(), Refusal> {
    const FOUND: Polling = Poll::Ready(Event::Value(199));
    const ANSWERS: &[Polling] = &[Poll::Pending, Poll::Pending, Poll::Pending, FOUND, ENDED];
    let mut run = filter(range::<u64>(0, 200), IsAbove(198)).start()?;
    trial.compare_polls("filter", &mut run, ANSWERS);
    Ok(())
}

// How many numbers from 0 up these are, where they are no others.
fn counted_up(values: &[u64]) -> Option<usize> {
    for (index, value) in values.iter().enumerate() {
        if *value != index as u64 {
            return None;
        }
    }
    Some(values.len())
}

// How many numbers from 0 up one poll of the collection hands out, with the end. None where it waits, and has woken its task.
fn polled_once<R: Run<Item = u64, Fault = u64>>(
    trial: &mut Trial,
    gathering: &mut Collecting<R>,
) -> Result<Option<(Option<usize>, Cause<u64>)>, Refusal> {
    let polled = trial.task.enter(|cx| gathering.poll(cx));
    trial.compare_wake("a collection", &polled);
    match polled {
        Poll::Ready(list) => {
            let Collected { values, cause } = list?;
            Ok(Some((counted_up(values.as_slice()), cause)))
        }
        Poll::Pending => Ok(None),
    }
}

// A collection of 130 numbers takes 64 of them a poll. Once it has handed them out it has none.
fn compare_collection<R: Run<Item = u64, Fault = u64>>(
    trial: &mut Trial,
    gathering: &mut Collecting<R>,
) -> Result<(), Refusal> {
    for (ready, so_far) in [
        (None, 64),
        (None, 128),
        (Some((Some(130), Cause::Finished)), 0),
        (Some((Some(0), Cause::Finished)), 0),
    ] {
        let polled = polled_once(trial, gathering)?;
        let found = (polled, gathering.so_far().len());
        trial.compare("a collection", found, (ready, so_far));
    }
    Ok(())
}

#[test]
fn polls_take_64_values(rt: HostRuntime) -> Result<(), Fail> {
    let mut trial = Trial::new(&rt)?;
    compare_filter(&mut trial)?;
    let run = range::<u64>(0, 130).start()?;
    compare_collection(&mut trial, &mut collect(rt.alloc(), run))?;
    trial.assert_none(&rt);
    Ok(())
}

// Polls of a source whose completion action gives a last value, if any; what the action noted after them and how often it was asked;
// and the polls and the note after a cancel, by which it was asked once.
struct Completion<'a> {
    name: &'a str,
    steps: &'a [Step<u64, u64>],
    last: Option<u64>,
    polls: &'a [Polling],
    noted: Option<Cause<u64>>,
    asks: u32,
    end: Polling,
    noted_then: Option<Cause<u64>>,
}

const COMPLETIONS: &[Completion<'_>] = &[
    Completion {
        name: "completion_action",
        steps: &[Step::Value(1), Step::Value(2)],
        last: Some(9),
        polls: &[FIRST_VALUE, SECOND_VALUE, LAST_VALUE, ENDED, ENDED],
        noted: Some(Cause::Finished),
        asks: 1,
        end: ENDED,
        noted_then: Some(Cause::Finished),
    },
    Completion {
        name: "completion_action, cancelled after a value",
        steps: &[Step::Value(1), Step::Value(2)],
        last: Some(9),
        polls: &[FIRST_VALUE],
        noted: None,
        asks: 0,
        end: CANCELLED,
        noted_then: Some(Cause::Cancelled),
    },
    Completion {
        name: "a cancel after the last value keeps the cause that was noted",
        steps: &[Step::Value(1)],
        last: Some(9),
        polls: &[FIRST_VALUE, LAST_VALUE],
        noted: Some(Cause::Finished),
        asks: 1,
        end: CANCELLED,
        noted_then: Some(Cause::Finished),
    },
    Completion {
        name: "cancelled before any poll",
        steps: &[Step::Value(1)],
        last: Some(9),
        polls: &[],
        noted: None,
        asks: 0,
        end: CANCELLED,
        noted_then: Some(Cause::Cancelled),
    },
    Completion {
        name: "cancelled after the only value",
        steps: &[Step::Value(1)],
        last: Some(9),
        polls: &[FIRST_VALUE],
        noted: None,
        asks: 0,
        end: CANCELLED,
        noted_then: Some(Cause::Cancelled),
    },
    Completion {
        name: "finished with a last value",
        steps: &[Step::Value(1)],
        last: Some(9),
        polls: &[FIRST_VALUE, LAST_VALUE, ENDED, ENDED],
        noted: Some(Cause::Finished),
        asks: 1,
        end: ENDED,
        noted_then: Some(Cause::Finished),
    },
    Completion {
        name: "finished without one",
        steps: &[Step::Value(1)],
        last: None,
        polls: &[FIRST_VALUE, ENDED, ENDED],
        noted: Some(Cause::Finished),
        asks: 1,
        end: ENDED,
        noted_then: Some(Cause::Finished),
    },
    Completion {
        name: "failed",
        steps: &[Step::Value(1), Step::Fail(5)],
        last: Some(9),
        polls: &[FIRST_VALUE, FAILED, FAILED],
        noted: Some(Cause::Failed(5)),
        asks: 1,
        end: FAILED,
        noted_then: Some(Cause::Failed(5)),
    },
];

// From the end on the action was asked once, however often the run is cancelled and polled then.
fn compare_end<R: Run<Item = u64, Fault = u64>>(
    trial: &mut Trial,
    run: &mut R,
    asks: &Cell<u32>,
    row: &Completion<'_>,
) {
    for _cancel in 0..2 {
        run.cancel();
        trial.compare(row.name, asks.get(), 1);
        let polled = trial.next(row.name, run);
        trial.compare_poll(row.name, &polled, &row.end);
        trial.compare(row.name, asks.get(), 1);
    }
}

fn compare_completion(trial: &mut Trial, row: &Completion<'_>) -> Result<(), Refusal> {
    let counts = Counts::new(NEVER);
    let source = Source {
        steps: row.steps,
        counts: &counts,
    };
    let asks = Cell::new(0);
    let action = Asked {
        asks: &asks,
        last: row.last,
    };
    let mut run = on_completion(source, action).start()?;
    trial.compare(row.name, run.noted(), None);
    trial.compare_polls(row.name, &mut run, row.polls);
    trial.compare(row.name, run.noted(), row.noted);
    trial.compare(row.name, asks.get(), row.asks);
    compare_end(trial, &mut run, &asks, row);
    trial.compare(row.name, run.noted(), row.noted_then);
    Ok(())
}

#[test]
fn completion_actions_are_asked_once(rt: HostRuntime) -> Result<(), Fail> {
    let mut trial = Trial::new(&rt)?;
    for row in COMPLETIONS {
        compare_completion(&mut trial, row)?;
    }
    trial.assert_none(&rt);
    Ok(())
}

// A sum is ready in the second poll, whose first has woken the task, and given again.
fn compare_sum<R: Run<Item = u64, Fault = u64>>(
    trial: &mut Trial,
    folding: &mut Folding<R, u64, Sum>,
    sum: u64,
) {
    let ready = Some((sum, Cause::Finished));
    for wanted in [None, ready, ready] {
        let polled = trial.task.enter(|cx| folding.poll(cx));
        trial.compare_wake("a fold", &polled);
        let found = match polled {
            Poll::Ready(given) => Some(given),
            Poll::Pending => None,
        };
        trial.compare("a fold", found, wanted);
    }
}

// A first value, or the cause that came instead, is given again.
fn compare_first<R: Run<Item = u64, Fault = u64>>(
    trial: &mut Trial,
    first: &mut First<R>,
    answer: Result<u64, Cause<u64>>,
) {
    for _poll in 0..2 {
        let polled = trial.task.enter(|cx| first.poll(cx));
        trial.compare("a first value", polled, Poll::Ready(answer));
    }
}

#[test]
fn a_fold_and_first_values(rt: HostRuntime) -> Result<(), Fail> {
    const FIRSTS: &[(&[Step<u64, u64>], Result<u64, Cause<u64>>)] = &[
        (&[Step::Value(7), Step::Value(8)], Ok(7)),
        (&[Step::Fail(3)], Err(Cause::Failed(3))),
    ];
    let mut trial = Trial::new(&rt)?;
    let counts = Counts::new(NEVER);
    let run = range::<u64>(1, 101).start()?;
    compare_sum(&mut trial, &mut fold(run, 0, Sum), 5050);
    for (steps, answer) in FIRSTS {
        let source = Source {
            steps,
            counts: &counts,
        };
        compare_first(&mut trial, &mut first(source.start()?), *answer);
    }
    trial.assert_none(&rt);
    Ok(())
}

fn compare_taken(trial: &mut Trial) -> Result<(), Refusal> {
    let alloc = trial.alloc;
    let list = trial.task.enter(|cx| taken_down(alloc, 5, 3, cx))?;
    trial.compare_list("taken_down", &list, &[5, 4, 3], Cause::Finished);
    Ok(())
}

fn compare_chain(trial: &mut Trial) -> Result<(), Refusal> {
    let alloc = trial.alloc;
    let list = trial.task.enter(|cx| chain::<u64, Add, IsAbove>(alloc, 9, Add(2), IsAbove(5), cx))?;
    trial.compare_list("chain", &list, &[6, 7, 8], Cause::Finished);
    Ok(())
}

fn compare_mapped(trial: &mut Trial) -> Result<(), Refusal> {
    let alloc = trial.alloc;
    let values = [1, 2].to_vec(alloc)?;
    let list = trial.task.enter(move |cx| mapped_list::<u64, u64, u64, Add>(
        alloc,
        values,
        Add(1),
        cx,
    ))?;
    trial.compare_list("mapped_list", &list, &[2, 3], Cause::Finished);
    Ok(())
}

// What the callers of `take`, over a flow of its own, of five operators and of a map give.
#[test]
fn callers_of_operators(rt: HostRuntime) -> Result<(), Fail> {
    let mut trial = Trial::new(&rt)?;
    compare_taken(&mut trial)?;
    compare_chain(&mut trial)?;
    compare_mapped(&mut trial)?;
    trial.assert_none(&rt);
    Ok(())
}
