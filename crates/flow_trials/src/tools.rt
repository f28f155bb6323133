//! Tools of the tests: functions as values, polls, and what a table says that didn't come.
ghost use Rattle.std.specs.Prelude.{◌≡◌, ◌+◌, ◌%◌, ◌^◌, ◌==◌, if◌then◌else◌, ⊤};

use cold_flow::{Apply, Cause, Collected, Event, Run, Step, fold};
use futures::task::Poll;
use futures::test::MockTask;
use std::alloc::{AllocError, AllocGlobal, Global};
use std::fmt::Debug;
use std::process::Abort;
use std::random::RandomSource;
use std::test::Fail;

/// The sum of two values.
#[derive(Copy)]
pub struct Sum;

impl Clone for Sum {
    ghost is_clone = { λ function copy. copy ≡ function };

    ghost is_infallible = { λ _. ⊤ };

    fn clone(&self) -> Result<Self, AllocError> {
        Ok(*self)
    }
}

impl Apply<(u64, u64)> for Sum {
    type Out = u64;

    ghost gives = { λ _ x. (x.0 + x.1) % 2 ^ 64 };

    fn apply(&self, argument: (u64, u64)) -> u64 {
        argument.0.wrapping_add(argument.1)
    }
}

/// A given number more.
#[derive(Copy)]
pub struct Add(pub u64);

impl Clone for Add {
    ghost is_clone = { λ function copy. copy ≡ function };

    ghost is_infallible = { λ _. ⊤ };

    fn clone(&self) -> Result<Self, AllocError> {
        Ok(*self)
    }
}

impl Apply<u64> for Add {
    type Out = u64;

    ghost gives = { λ f x. (x + f.0) % 2 ^ 64 };

    fn apply(&self, argument: u64) -> u64 {
        argument.wrapping_add(self.0)
    }
}

/// The same flow for each value.
#[derive(Copy)]
pub struct Same<F>(pub F);

impl<F: Copy> Clone for Same<F> {
    ghost is_clone = { λ function copy. copy ≡ function };

    ghost is_infallible = { λ _. ⊤ };

    fn clone(&self) -> Result<Self, AllocError> {
        Ok(*self)
    }
}

impl<F: Copy> Apply<u64> for Same<F> {
    type Out = F;

    ghost gives = { λ f _. f.0 };

    fn apply(&self, _argument: u64) -> F {
        self.0
    }
}

/// One flow for the value 0, one for 1, and one for any other.
#[derive(Copy)]
pub struct Pick<F> {
    pub zero: F,
    pub one: F,
    pub other: F,
}

impl<F: Copy> Clone for Pick<F> {
    ghost is_clone = { λ function copy. copy ≡ function };

    ghost is_infallible = { λ _. ⊤ };

    fn clone(&self) -> Result<Self, AllocError> {
        Ok(*self)
    }
}

impl<F: Copy> Apply<u64> for Pick<F> {
    type Out = F;

    ghost gives = { λ f x. (if x == 0 then f.zero else (if x == 1 then f.one else f.other)) };

    fn apply(&self, argument: u64) -> F {
        if argument == 0 {
            return self.zero;
        }
        if argument == 1 {
            return self.one;
        }
        self.other
    }
}

/// A step that waits.
pub(crate) const WAIT: Step<u64, u64> = Step::Pending;

/// A task that is polled by hand. It is made once more where memory was refused, as under `rt try --test --fail-alloc N`.
fn task_made<R: RandomSource + AllocGlobal>(rt: &R) -> Result<MockTask, Fail> {
    match MockTask::new(rt) {
        Ok(task) => Ok(task),
        Err(_) => Ok(MockTask::new(rt)?),
    }
}

/// What a test has: memory, a task that is polled by hand, and what came otherwise than its table says, a line for each. The rows
/// after a wrong one are run all the same.
#[derive(Drop)]
pub struct Trial {
    pub alloc: Global,
    pub task: MockTask,
    lines: String,
    // Whether memory lacked to note one.
    is_cut: bool,
}

impl Trial {
    pub(crate) fn new<R: RandomSource + AllocGlobal>(rt: &R) -> Result<Trial, Fail> {
        Ok(Trial {
            alloc: rt.alloc(),
            task: task_made(rt)?,
            lines: String::new(rt.alloc()),
            is_cut: false,
        })
    }

    /// Notes it under this name where what was found isn't what was wanted.
    ///
    /// It has no answer: a test goes on, and fails in the end, also where memory lacks for the note. So its callers have no path on
    /// which they return early, and cost the prover less.
    pub(crate) fn compare<T: PartialEq + Debug + Drop>(&mut self, name: &str, found: T, wanted: T) {
        if found != wanted
            && write!(self.lines, "\n{name}: {found:?}, and not {wanted:?}").is_err()
        {
            self.is_cut = true;
        }
    }

    /// Compares a list and the cause of its end.
    pub(crate) fn compare_list<T: Copy + PartialEq + Debug, E: Copy + PartialEq + Debug>(
        &mut self,
        name: &str,
        list: &Collected<T, E>,
        values: &[T],
        cause: Cause<E>,
    ) {
        let found = (list.values.as_slice(), list.cause);
        self.compare(name, found, (values, cause));
    }

    /// Compares what a poll answered.
    pub(crate) fn compare_poll(&mut self, name: &str, found: &Polling, wanted: &Polling) {
        self.compare(name, found, wanted);
    }

    /// The same, and how often its sources were polled until then.
    pub(crate) fn compare_asked(&mut self, name: &str, found: &Asking, wanted: &Asking) {
        self.compare(name, found, wanted);
    }

    /// The same of one source, or of what else was asked.
    pub(crate) fn compare_counted(
        &mut self,
        name: &str,
        found: &(Polling, u32),
        wanted: &(Polling, u32),
    ) {
        self.compare(name, found, wanted);
    }

    /// Notes it where a poll is pending and didn't wake the task.
    pub(crate) fn compare_wake<T>(&mut self, name: &str, polled: &Poll<T>) {
        if polled.is_pending() && !self.task.is_woken() {
            self.compare(name, "nothing wakes the task", "a wake");
        }
    }

    /// One poll of a run. One that is pending has to wake its task.
    pub(crate) fn next<R: Run<Item = u64, Fault = u64>>(
        &mut self,
        name: &str,
        run: &mut R,
    ) -> Polling {
        let polled = self.task.enter(|cx| run.poll_next(cx));
        self.compare_wake(name, &polled);
        polled
    }

    /// What the first poll of a sum over a run answers.
    pub(crate) fn first_of_fold<R: Run<Item = u64, Fault = u64>>(
        &self,
        run: R,
    ) -> Poll<(u64, Cause<u64>)> {
        let mut sum = fold(run, 0, Sum);
        self.task.enter(|cx| sum.poll(cx))
    }

    /// Polls a run, and compares the answers.
    pub(crate) fn compare_polls<R: Run<Item = u64, Fault = u64>>(
        &mut self,
        name: &str,
        run: &mut R,
        answers: &[Polling],
    ) {
        for answer in answers {
            let polled = self.next(name, run);
            self.compare_poll(name, &polled, answer);
        }
    }

    /// Fails with all that was noted, where something was.
    pub(crate) fn assert_none(&self, rt: &impl Abort) {
        assert!(rt; self.lines.is_empty() && !self.is_cut, "{}", self.lines);
    }
}

/// What a poll of a run gives.
pub type Polling = Poll<Event<u64, u64>>;

/// What a poll of a run gives, and how often each of three sources was polled until then.
pub type Asking = (Polling, (u32, u32, u32));

/// The end of a flow that finished.
pub(crate) const ENDED: Polling = Poll::Ready(Event::End(Cause::Finished));

/// The end of a run that was cancelled.
pub(crate) const CANCELLED: Polling = Poll::Ready(Event::End(Cause::Cancelled));
