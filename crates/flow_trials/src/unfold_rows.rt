//! Sources of one's own, by a state and a step or by steps that a type gives itself: what they give, how often a step is asked, and
//! that none is asked once the run has ended.
ghost use Rattle.std.specs.Prelude.{◌≡◌, ◌*◌, ◌%◌, ◌^◌, nat_lt, if◌then◌else◌, ⊤};
ghost use Rattle.std.specs.Iterator.{at_most};
ghost use Rattle.cold_flow.specs.declared.builders.unfold.Unfolded.TheVariants.{Next};
ghost use Rattle.flow_trials.specs.Uncancelled.{AnyTrace};

use crate::tools::{Add, CANCELLED, ENDED, Polling, Trial};
use cold_callers::{gathered_halves, mapped_halves, repeated_list};
use cold_flow::{
    Apply, Cause, Collected, Collecting, EndingRun, Event, Finite, FiniteSteps, Flow, Refusal, Run,
    Step, Steps, Unfolded, collect, take, to_list, unfold,
};
use futures::task::Poll;
use std::alloc::AllocError;
use std::cell::Cell;
use std::fmt::Debug;
use std::test::Fail;

// Gives a number that is below a limit, and goes on with its double. It counts how often it is asked.
#[derive(Copy)]
struct Doubling<'a> {
    limit: u64,
    // What it answers from the limit on.
    end: Unfolded<u64, u64, u64>,
    asked: &'a Cell<u32>,
}

impl Clone for Doubling<'_> {
    ghost is_clone = { λ it copy. copy ≡ it };

    ghost is_infallible = { λ _. ⊤ };

    fn clone(&self) -> Result<Self, AllocError> {
        Ok(*self)
    }
}

impl Apply<u64> for Doubling<'_> {
    type Out = Unfolded<u64, u64, u64>;

    ghost gives = { λ f number. (if nat_lt number f.limit then Next number ((number * 2) % 2 ^ 64) else f.end) };

    fn apply(&self, number: u64) -> Unfolded<u64, u64, u64> {
        self.asked.set(self.asked.get().saturating_add(1));
        if number < self.limit {
            Unfolded::Next(number, number.wrapping_mul(2))
        } else {
            self.end
        }
    }
}

// Counts down from an odd number to 0, and gives only what is even: every other step is pending. It counts how often it is asked.
#[derive(Copy)]
struct Pausing<'a> {
    left: u64,
    asked: &'a Cell<u32>,
}

impl Clone for Pausing<'_> {
    ghost is_clone = { λ it copy. copy ≡ it };

    ghost is_infallible = { λ _. ⊤ };

    fn clone(&self) -> Result<Self, AllocError> {
        Ok(*self)
    }
}

impl<'a> Flow for Pausing<'a> {
    type Item = u64;

    type Fault = u64;

    type Running = EndingRun<Pausing<'a>, u64>;

    ghost may = { λ _. AnyTrace };

    fn start(&self) -> Result<EndingRun<Pausing<'a>, u64>, Refusal> {
        Ok(EndingRun::new(*self))
    }

    ghost uncancelled = { λ _ _ h. h };
}

impl Steps for Pausing<'_> {
    type Item = u64;

    type Fault = u64;

    ghost may = { λ _. AnyTrace };

    ghost polls = { λ s. at_most s.left };

    fn step(&mut self) -> Option<Step<u64, u64>> {
        self.asked.set(self.asked.get().saturating_add(1));
        if self.left == 0 {
            return None;
        }
        self.left -= 1;
        if self.left % 2 == 0 {
            Some(Step::Value(self.left))
        } else {
            Some(Step::Pending)
        }
    }

    ghost begins = { λ _. tt };
}

impl FiniteSteps for Pausing<'_> {
    ghost is_finite = { λ _. tt };
}

const FINISH: Unfolded<u64, u64, u64> = Unfolded::Finish;

const FAIL: Unfolded<u64, u64, u64> = Unfolded::Fail(7);

const FAILED: Polling = Poll::Ready(Event::End(Cause::Failed(7)));

const ZERO: Polling = Poll::Ready(Event::Value(0));

const ONE: Polling = Poll::Ready(Event::Value(1));

const TWO: Polling = Poll::Ready(Event::Value(2));

const FOUR: Polling = Poll::Ready(Event::Value(4));

const WAITS: Polling = Poll::Pending;

// What doubling gives from a number on, the cause of its end, and how often its step is asked for all of that.
struct Doubled<'a> {
    name: &'a str,
    from: u64,
    limit: u64,
    end: Unfolded<u64, u64, u64>,
    values: &'a [u64],
    cause: Cause<u64>,
    asked: u32,
}

const DOUBLED: &[Doubled<'_>] = &[
    Doubled {
        name: "powers of two below a limit",
        from: 1,
        limit: 20,
        end: FINISH,
        values: &[1, 2, 4, 8, 16],
        cause: Cause::Finished,
        asked: 6,
    },
    Doubled {
        name: "a limit that is a power itself",
        from: 1,
        limit: 16,
        end: FINISH,
        values: &[1, 2, 4, 8],
        cause: Cause::Finished,
        asked: 5,
    },
    Doubled {
        name: "another first state",
        from: 3,
        limit: 13,
        end: FINISH,
        values: &[3, 6, 12],
        cause: Cause::Finished,
        asked: 4,
    },
    Doubled {
        name: "an end at the first step",
        from: 5,
        limit: 5,
        end: FINISH,
        values: &[],
        cause: Cause::Finished,
        asked: 1,
    },
    Doubled {
        name: "a failure after two values",
        from: 1,
        limit: 4,
        end: FAIL,
        values: &[1, 2],
        cause: Cause::Failed(7),
        asked: 3,
    },
    Doubled {
        name: "a failure at the first step",
        from: 4,
        limit: 4,
        end: FAIL,
        values: &[],
        cause: Cause::Failed(7),
        asked: 1,
    },
];

// Compares what one poll gathered with a whole list.
fn compare_gathered<E: Copy + PartialEq + Debug>(
    trial: &mut Trial,
    name: &str,
    gathered: Poll<Result<Collected<u64, E>, Refusal>>,
    values: &[u64],
    cause: Cause<E>,
) -> Result<(), Refusal> {
    match gathered {
        Poll::Ready(list) => trial.compare_list(name, &list?, values, cause),
        Poll::Pending => trial.compare(name, "it waits", "it ends"),
    }
    Ok(())
}

// Compares what one poll of a collection of the flow gathers with a whole list.
fn compare_collected<E: Copy + PartialEq + Debug, F: Flow<Item = u64, Fault = E>>(
    trial: &mut Trial,
    name: &str,
    flow: &F,
    values: &[u64],
    cause: Cause<E>,
) -> Result<(), Refusal> {
    let mut gathering = collect(trial.alloc, flow.start()?);
    let gathered = trial.task.enter(|cx| gathering.poll(cx));
    compare_gathered(trial, name, gathered, values, cause)
}

// Two starts of a row's flow. Each begins with its state: both give the same, and ask as often.
fn compare_row(trial: &mut Trial, row: &Doubled<'_>) -> Result<(), Refusal> {
    let asked = Cell::new(0);
    let step = Doubling {
        limit: row.limit,
        end: row.end,
        asked: &asked,
    };
    let flow = unfold(row.from, step);
    for _start in 0..2 {
        asked.set(0);
        compare_collected(trial, row.name, &flow, row.values, row.cause)?;
        trial.compare(row.name, asked.get(), row.asked);
    }
    Ok(())
}

#[test]
fn unfolds_give_what_their_steps_answer(rt: HostRuntime) -> Result<(), Fail> {
    let mut trial = Trial::new(&rt)?;
    for row in DOUBLED {
        compare_row(&mut trial, row)?;
    }
    trial.assert_none(&rt);
    Ok(())
}

// Polls a run. Compares each answer, and how often its step was asked until then. A poll that is pending has woken its task.
fn compare_polls<R: Run<Item = u64, Fault = u64>>(
    trial: &mut Trial,
    name: &str,
    run: &mut R,
    asked: &Cell<u32>,
    polls: &[(Polling, u32)],
) {
    for wanted in polls {
        let found = (trial.next(name, run), asked.get());
        trial.compare_counted(name, &found, wanted);
    }
}

// Polls of a run, each with how often its step was asked until then, and the end that it gives once it is cancelled after them.
struct Polled<'a> {
    name: &'a str,
    polls: &'a [(Polling, u32)],
    cancelled: Cause<u64>,
}

// Polls a run and cancels it. From then on its step is asked no more.
fn compare_cancelled<R: Run<Item = u64, Fault = u64>>(
    trial: &mut Trial,
    run: &mut R,
    asked: &Cell<u32>,
    row: &Polled<'_>,
) {
    compare_polls(trial, row.name, run, asked, row.polls);
    run.cancel();
    let count = asked.get();
    let end = Event::End(row.cancelled);
    let polls = [(Poll::Ready(end), count), (Poll::Ready(end), count)];
    compare_polls(trial, row.name, run, asked, &polls);
}

// A doubling of 1: where it ends and how, and the polls of its run.
struct Unfolds<'a> {
    limit: u64,
    end: Unfolded<u64, u64, u64>,
    polled: Polled<'a>,
}

const UNFOLDS: &[Unfolds<'_>] = &[
    Unfolds {
        limit: 3,
        end: FINISH,
        polled: Polled {
            name: "a cancel before any poll",
            polls: &[],
            cancelled: Cause::Cancelled,
        },
    },
    Unfolds {
        limit: 3,
        end: FINISH,
        polled: Polled {
            name: "a cancel after two values",
            polls: &[(ONE, 1), (TWO, 2)],
            cancelled: Cause::Cancelled,
        },
    },
    Unfolds {
        limit: 3,
        end: FINISH,
        polled: Polled {
            name: "an end is kept",
            polls: &[(ONE, 1), (TWO, 2), (ENDED, 3), (ENDED, 3), (ENDED, 3)],
            cancelled: Cause::Finished,
        },
    },
    Unfolds {
        limit: 2,
        end: FAIL,
        polled: Polled {
            name: "a failure is kept",
            polls: &[(ONE, 1), (FAILED, 2), (FAILED, 2), (FAILED, 2)],
            cancelled: Cause::Failed(7),
        },
    },
];

#[test]
fn unfolds_ask_one_step_a_poll(rt: HostRuntime) -> Result<(), Fail> {
    let mut trial = Trial::new(&rt)?;
    for row in UNFOLDS {
        let asked = Cell::new(0);
        let step = Doubling {
            limit: row.limit,
            end: row.end,
            asked: &asked,
        };
        let mut run = unfold(1u64, step).start()?;
        compare_cancelled(&mut trial, &mut run, &asked, &row.polled);
    }
    trial.assert_none(&rt);
    Ok(())
}

// Two runs of one flow, side by side. Each has a state of its own, and a cancel of one leaves the other going.
fn compare_side_by_side<R: Run<Item = u64, Fault = u64>>(
    trial: &mut Trial,
    left: &mut R,
    right: &mut R,
    asked: &Cell<u32>,
) {
    compare_polls(trial, "left", left, asked, &[(ONE, 1), (TWO, 2)]);
    compare_polls(trial, "right", right, asked, &[(ONE, 3)]);
    left.cancel();
    let on = [(TWO, 4), (FOUR, 5), (ENDED, 6)];
    compare_polls(trial, "right goes on", right, asked, &on);
    compare_polls(trial, "left is over", left, asked, &[(CANCELLED, 6)]);
}

// One poll of a collection takes the 64 powers of two, and waits, with its task woken.
fn compare_endless<R: Run<Item = u64, Fault = u64>>(
    trial: &mut Trial,
    gathering: &mut Collecting<R>,
    asked: &Cell<u32>,
) {
    const GREATEST_POWER: u64 = 0x8000_0000_0000_0000;
    let polled = trial.task.enter(|cx| gathering.poll(cx));
    trial.compare_wake("endless", &polled);
    trial.compare("endless", polled.is_pending(), true);
    let so_far = gathering.so_far();
    let found = (so_far.len(), so_far.last().copied(), asked.get());
    trial.compare("endless", found, (64, Some(GREATEST_POWER), 64));
}

const ENDLESS: u64 = u64::MAX;

// Doubling without an end: the powers of two that fit, and then 0 for good.
fn compare_powers(trial: &mut Trial) -> Result<(), Refusal> {
    let asked = Cell::new(0);
    let step = Doubling {
        limit: ENDLESS,
        end: FINISH,
        asked: &asked,
    };
    let run = unfold(1u64, step).start()?;
    compare_endless(trial, &mut collect(trial.alloc, run), &asked);
    Ok(())
}

// A take of three asks three steps.
fn compare_three(trial: &mut Trial) -> Result<(), Refusal> {
    const NAME: &str = "a take of three";
    let asked = Cell::new(0);
    let step = Doubling {
        limit: ENDLESS,
        end: FINISH,
        asked: &asked,
    };
    let taken = take(unfold(1u64, step), 3)?;
    compare_collected(trial, NAME, &taken, &[1, 2, 4], Cause::Finished)?;
    trial.compare(NAME, asked.get(), 3);
    Ok(())
}

#[test]
fn unfolds_without_an_end(rt: HostRuntime) -> Result<(), Fail> {
    let mut trial = Trial::new(&rt)?;
    compare_powers(&mut trial)?;
    compare_three(&mut trial)?;
    trial.assert_none(&rt);
    Ok(())
}

#[test]
fn unfolds_side_by_side(rt: HostRuntime) -> Result<(), Fail> {
    let mut trial = Trial::new(&rt)?;
    let asked = Cell::new(0);
    let step = Doubling {
        limit: 5,
        end: FINISH,
        asked: &asked,
    };
    let flow = unfold(1u64, step);
    let mut left = flow.start()?;
    let mut right = flow.start()?;
    compare_side_by_side(&mut trial, &mut left, &mut right, &asked);
    trial.assert_none(&rt);
    Ok(())
}

const PAUSES: &[Polled<'_>] = &[
    Polled {
        name: "a pause each second poll, and the end is kept",
        polls: &[
            (FOUR, 1),
            (WAITS, 2),
            (TWO, 3),
            (WAITS, 4),
            (ZERO, 5),
            (ENDED, 6),
            (ENDED, 6),
        ],
        cancelled: Cause::Finished,
    },
    Polled {
        name: "a cancel while it waits",
        polls: &[(FOUR, 1), (WAITS, 2)],
        cancelled: Cause::Cancelled,
    },
    Polled {
        name: "a cancel before it waits",
        polls: &[],
        cancelled: Cause::Cancelled,
    },
];

const PAUSED: &[u64] = &[4, 2, 0];

const OWN_STEPS: &str = "steps of one's own";

// `to_list` asks again at once.
fn compare_list_of<R: Finite<Item = u64, Fault = u64>>(
    trial: &mut Trial,
    run: R,
    asked: &Cell<u32>,
) -> Result<(), Refusal> {
    let alloc = trial.alloc;
    let list = trial.task.enter(move |cx| to_list(alloc, run, cx))?;
    trial.compare_list(OWN_STEPS, &list, PAUSED, Cause::Finished);
    trial.compare(OWN_STEPS, asked.get(), 6);
    Ok(())
}

// A collection waits with its task.
fn compare_waits<R: Run<Item = u64, Fault = u64>>(
    trial: &mut Trial,
    gathering: &mut Collecting<R>,
) -> Result<(), Refusal> {
    for count in [1, 2] {
        let polled = trial.task.enter(|cx| gathering.poll(cx));
        trial.compare_wake(OWN_STEPS, &polled);
        trial.compare(OWN_STEPS, polled.is_pending(), true);
        trial.compare(OWN_STEPS, gathering.so_far().len(), count);
    }
    let gathered = trial.task.enter(|cx| gathering.poll(cx));
    compare_gathered(trial, OWN_STEPS, gathered, PAUSED, Cause::Finished)
}

#[test]
fn steps_of_ones_own_may_wait(rt: HostRuntime) -> Result<(), Fail> {
    let mut trial = Trial::new(&rt)?;
    let asked = Cell::new(0);
    let source = Pausing {
        left: 5,
        asked: &asked,
    };
    compare_list_of(&mut trial, source.start()?, &asked)?;
    let run = source.start()?;
    compare_waits(&mut trial, &mut collect(rt.alloc(), run))?;
    for row in PAUSES {
        asked.set(0);
        let mut run = source.start()?;
        compare_cancelled(&mut trial, &mut run, &asked, row);
    }
    trial.assert_none(&rt);
    Ok(())
}

// A number, its half and so on, and these with 1 added.
struct Halved<'a> {
    name: &'a str,
    number: u64,
    values: &'a [u64],
    more: &'a [u64],
}

const HALVED: &[Halved<'_>] = &[
    Halved {
        name: "halves of 20",
        number: 20,
        values: &[20, 10, 5, 2, 1],
        more: &[21, 11, 6, 3, 2],
    },
    Halved {
        name: "halves of 8",
        number: 8,
        values: &[8, 4, 2, 1],
        more: &[9, 5, 3, 2],
    },
    Halved {
        name: "halves of 1",
        number: 1,
        values: &[1],
        more: &[2],
    },
    Halved {
        name: "halves of 0",
        number: 0,
        values: &[],
        more: &[],
    },
];

// What the callers of `unfold` give.
fn compare_halves(trial: &mut Trial, row: &Halved<'_>) -> Result<(), Refusal> {
    let alloc = trial.alloc;
    let gathered = trial
        .task
        .enter(|cx| gathered_halves(alloc, row.number, cx));
    compare_gathered(trial, row.name, gathered, row.values, Cause::Finished)?;
    let mapped = mapped_halves(row.number, Add(1));
    compare_collected(trial, row.name, &mapped, row.more, Cause::Finished)
}

// How many halves one poll gathers of a number. None where it waits, and has woken its task.
fn count_of_halves(trial: &mut Trial, number: u64) -> Result<Option<usize>, Refusal> {
    let alloc = trial.alloc;
    let gathered = trial.task.enter(|cx| gathered_halves(alloc, number, cx));
    trial.compare_wake("halves of a great number", &gathered);
    match gathered {
        Poll::Ready(list) => Ok(Some(list?.values.len())),
        Poll::Pending => Ok(None),
    }
}

// A number of 63 bits has 63 halves, and its end comes in the poll that gathers them; after 64 the poll yields.
#[test]
fn halves(rt: HostRuntime) -> Result<(), Fail> {
    const OF_63_BITS: u64 = 0x7fff_ffff_ffff_ffff;
    const OF_64_BITS: u64 = 0x8000_0000_0000_0000;
    let mut trial = Trial::new(&rt)?;
    for row in HALVED {
        compare_halves(&mut trial, row)?;
    }
    for (number, wanted) in [(OF_63_BITS, Some(63)), (OF_64_BITS, None)] {
        let found = count_of_halves(&mut trial, number)?;
        trial.compare("halves of a great number", found, wanted);
    }
    trial.assert_none(&rt);
    Ok(())
}

// What the caller of a source by its steps gives.
#[test]
fn repeated_values(rt: HostRuntime) -> Result<(), Fail> {
    let alloc = rt.alloc();
    let mut trial = Trial::new(&rt)?;
    for (times, sevens) in [(0, [].as_slice()), (3, [7, 7, 7].as_slice())] {
        let list = trial
            .task
            .enter(|cx| repeated_list(alloc, 7u64, times, cx))?;
        trial.compare_list("repeated_list", &list, sevens, Cause::Finished);
    }
    trial.assert_none(&rt);
    Ok(())
}
