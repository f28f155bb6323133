//! What is compared of a flow: its polls, and of which sources they ask; runs that are cancelled, and starts that are refused.

use crate::sources::{Counts, NEVER};
use crate::tools::{Asking, Polling, Trial};
use cold_flow::{Cause, Event, Flow, Refusal, Run};
use futures::task::Poll;
use std::alloc::AllocError;

/// Up to so many polls come before a cancellation. By then each flow has ended.
const POLLS: u32 = 20;

const REFUSED: Polling = Poll::Ready(Event::End(Cause::Refused(Refusal::NoMemory)));

/// What was asked of three sources.
#[derive(Drop)]
pub(crate) struct Three {
    pub one: Counts,
    pub two: Counts,
    pub three: Counts,
}

impl Three {
    fn polls(&self) -> (u32, u32, u32) {
        (
            self.one.polls.get(),
            self.two.polls.get(),
            self.three.polls.get(),
        )
    }
}

/// What is compared of a flow.
#[derive(Drop)]
pub(crate) enum Check<'a> {
    /// Of each poll its answer, and how often each source was polled until then.
    Asks(&'a [Asking]),
    /// The first polls, and what comes in eight more, in order of size, with the end.
    Gives(&'a [Polling], &'a [u64], Cause<u64>),
    /// A run that is cancelled after any number of polls: the next poll is the cancellation, or the end that was given before, and no
    /// source is polled after it.
    Cancelled,
    /// The answers up to the end by a refused start of the third source, after which it isn't started again.
    Ends(&'a [Polling]),
    /// The first start is refused, and so many runs of the first source that stood then are cancelled. The next start gives these.
    Refused(u32, &'a [Polling]),
    /// The answers, also where memory is refused once.
    Memory(&'a [Polling]),
    /// A start that may be refused for memory, and then leaves no run of the first source going.
    Balanced,
}

/// What is compared, under this name.
#[derive(Drop)]
pub(crate) struct Judged<'a> {
    pub name: &'a str,
    pub check: &'a Check<'a>,
    pub counts: &'a Three,
}

fn compare_asks<F: Flow<Item = u64, Fault = u64>>(
    trial: &mut Trial,
    judged: &Judged<'_>,
    polls: &[Asking],
    flow: &F,
) -> Result<(), Refusal> {
    let mut run = flow.start()?;
    for wanted in polls {
        let found = (trial.next(judged.name, &mut run), judged.counts.polls());
        trial.compare_asked(judged.name, &found, wanted);
    }
    Ok(())
}

/// What comes in eight polls, in order of size, and the end that was given in them.
fn sorted_rest<R: Run<Item = u64, Fault = u64>>(
    trial: &mut Trial,
    name: &str,
    run: &mut R,
) -> Result<(Vec<u64>, Option<Cause<u64>>), AllocError> {
    let mut rest = Vec::new(trial.alloc);
    let mut end = None;
    for _poll in 0..8 {
        match trial.next(name, run) {
            Poll::Ready(Event::Value(value)) => rest.push(value)?,
            Poll::Ready(Event::End(cause)) => end = Some(cause),
            Poll::Pending => {}
        }
    }
    rest.sort()?;
    Ok((rest, end))
}

fn compare_rest<R: Run<Item = u64, Fault = u64>>(
    trial: &mut Trial,
    name: &str,
    run: &mut R,
    values: &[u64],
    cause: Cause<u64>,
) -> Result<(), AllocError> {
    let (rest, end) = sorted_rest(trial, name, run)?;
    trial.compare(name, (rest.as_slice(), end), (values, Some(cause)));
    Ok(())
}

fn compare_gives<F: Flow<Item = u64, Fault = u64>>(
    trial: &mut Trial,
    name: &str,
    flow: &F,
    first: &[Polling],
    rest: &[u64],
    cause: Cause<u64>,
) -> Result<(), Refusal> {
    let mut run = flow.start()?;
    trial.compare_polls(name, &mut run, first);
    compare_rest(trial, name, &mut run, rest, cause)?;
    Ok(())
}

/// The end that so many polls gave, or a cancellation, which is to come.
fn end_after<R: Run<Item = u64, Fault = u64>>(
    trial: &mut Trial,
    name: &str,
    run: &mut R,
    polls: u32,
) -> Cause<u64> {
    let mut cause = Cause::Cancelled;
    for _poll in 0..polls {
        if let Poll::Ready(Event::End(given)) = trial.next(name, run) {
            cause = given;
        }
    }
    cause
}

/// Cancels a run, twice. It gives this end, and nobody is asked any more.
fn compare_cancels<R: Run<Item = u64, Fault = u64>>(
    trial: &mut Trial,
    judged: &Judged<'_>,
    run: &mut R,
    cause: Cause<u64>,
) {
    let wanted = (Poll::Ready(Event::End(cause)), judged.counts.polls());
    for _cancel in 0..2 {
        run.cancel();
        let found = (trial.next(judged.name, run), judged.counts.polls());
        trial.compare_asked(judged.name, &found, &wanted);
    }
}

/// A fold of a run that has ended so answers that end at once, and asks nobody.
fn compare_fold<R: Run<Item = u64, Fault = u64>>(
    trial: &mut Trial,
    judged: &Judged<'_>,
    run: R,
    cause: Cause<u64>,
) {
    let before = judged.counts.polls();
    let folded = match trial.first_of_fold(run) {
        Poll::Ready((0, given)) => Poll::Ready(Event::End(given)),
        Poll::Ready((sum, _)) => Poll::Ready(Event::Value(sum)),
        Poll::Pending => Poll::Pending,
    };
    let found = (folded, judged.counts.polls());
    let wanted = (Poll::Ready(Event::End(cause)), before);
    trial.compare_asked(judged.name, &found, &wanted);
}

/// Cancels a run after so many polls, and folds what is left of it. Whether it had finished before.
fn has_finished<R: Run<Item = u64, Fault = u64>>(
    trial: &mut Trial,
    judged: &Judged<'_>,
    polls: u32,
    mut run: R,
) -> bool {
    let cause = end_after(trial, judged.name, &mut run, polls);
    compare_cancels(trial, judged, &mut run, cause);
    compare_fold(trial, judged, run, cause);
    cause == Cause::Finished
}

/// The same after each number of polls. The flow had finished in the last of them, and not in the first.
fn compare_cancelled<F: Flow<Item = u64, Fault = u64>>(
    trial: &mut Trial,
    judged: &Judged<'_>,
    flow: &F,
) -> Result<(), Refusal> {
    let mut finished: u32 = 0;
    for polls in 0..POLLS {
        if has_finished(trial, judged, polls, flow.start()?) {
            finished = finished.saturating_add(1);
        }
    }
    trial.compare(judged.name, 0 < finished && finished < POLLS, true);
    Ok(())
}

/// How many of these answers a run gives, from the first on. None where it ended since an inner start was refused.
fn polled<R: Run<Item = u64, Fault = u64>>(
    trial: &mut Trial,
    name: &str,
    run: &mut R,
    answers: &[Polling],
) -> Option<usize> {
    for (number, answer) in answers.iter().enumerate() {
        let polled = trial.next(name, run);
        if polled != *answer {
            return if polled == REFUSED {
                None
            } else {
                Some(number)
            };
        }
    }
    Some(answers.len())
}

/// The same of a new run.
fn given<F: Flow<Item = u64, Fault = u64>>(
    trial: &mut Trial,
    name: &str,
    flow: &F,
    answers: &[Polling],
) -> Result<Option<usize>, Refusal> {
    let mut run = flow.start()?;
    Ok(polled(trial, name, &mut run, answers))
}

fn compare_ends<F: Flow<Item = u64, Fault = u64>>(
    trial: &mut Trial,
    judged: &Judged<'_>,
    flow: &F,
    answers: &[Polling],
) {
    let count = given(trial, judged.name, flow, answers);
    trial.compare(judged.name, count, Ok(Some(answers.len())));
    trial.compare(judged.name, judged.counts.three.before.get(), NEVER);
}

fn compare_refused<F: Flow<Item = u64, Fault = u64>>(
    trial: &mut Trial,
    judged: &Judged<'_>,
    stood: u32,
    answers: &[Polling],
    flow: &F,
) {
    let counts = judged.counts;
    let first = given(trial, judged.name, flow, answers);
    trial.compare(judged.name, first, Err(Refusal::NoMemory));
    let started = (counts.one.started(), counts.two.started());
    trial.compare(judged.name, started, ((stood, stood), (0, 0)));
    let second = given(trial, judged.name, flow, answers);
    trial.compare(judged.name, second, Ok(Some(answers.len())));
}

/// A run of the flow, whose start is made again where it is refused.
pub(crate) fn begun<F: Flow>(flow: &F) -> Result<F::Running, Refusal> {
    match flow.start() {
        Err(Refusal::NoMemory) => flow.start(),
        run => run,
    }
}

/// How many of these answers a run gives. A run that ended since an inner start was refused has ended for good, and another one is
/// asked.
fn answered<F: Flow<Item = u64, Fault = u64>>(
    trial: &mut Trial,
    name: &str,
    flow: &F,
    answers: &[Polling],
) -> Result<Option<usize>, Refusal> {
    let mut run = begun(flow)?;
    let count = polled(trial, name, &mut run, answers);
    if count.is_some() {
        return Ok(count);
    }
    let end = trial.next(name, &mut run);
    if end != REFUSED {
        return Ok(None);
    }
    answered_again(trial, name, flow, answers)
}

fn answered_again<F: Flow<Item = u64, Fault = u64>>(
    trial: &mut Trial,
    name: &str,
    flow: &F,
    answers: &[Polling],
) -> Result<Option<usize>, Refusal> {
    let mut run = begun(flow)?;
    Ok(polled(trial, name, &mut run, answers))
}

/// Compares all answers of a flow, also where memory is refused once.
pub(crate) fn compare_memory<F: Flow<Item = u64, Fault = u64>>(
    trial: &mut Trial,
    name: &str,
    answers: &[Polling],
    flow: &F,
) {
    let count = answered(trial, name, flow, answers);
    trial.compare(name, count, Ok(Some(answers.len())));
}

/// The refusal of a start, or of memory where it succeeds and its run is cancelled.
fn refusal_of<F: Flow>(flow: &F) -> Refusal {
    match flow.start() {
        Ok(mut run) => {
            run.cancel();
            Refusal::NoMemory
        }
        Err(refusal) => refusal,
    }
}

/// Starts a flow, and cancels its run, if there is one.
fn compare_balanced<F: Flow<Item = u64, Fault = u64>>(
    trial: &mut Trial,
    judged: &Judged<'_>,
    flow: &F,
) {
    let refusal = refusal_of(flow);
    let (starts, cancels) = judged.counts.one.started();
    trial.compare(judged.name, refusal, Refusal::NoMemory);
    trial.compare(judged.name, cancels, starts);
}

fn compare_lent<F: Flow<Item = u64, Fault = u64>>(
    trial: &mut Trial,
    judged: &Judged<'_>,
    flow: &F,
) -> Result<(), Refusal> {
    match judged.check {
        Check::Asks(polls) => return compare_asks(trial, judged, polls, flow),
        Check::Gives(first, rest, cause) => {
            return compare_gives(trial, judged.name, flow, first, rest, *cause);
        }
        Check::Cancelled => return compare_cancelled(trial, judged, flow),
        Check::Ends(answers) => compare_ends(trial, judged, flow, answers),
        Check::Refused(stood, answers) => compare_refused(trial, judged, *stood, answers, flow),
        Check::Memory(answers) => compare_memory(trial, judged.name, answers, flow),
        Check::Balanced => compare_balanced(trial, judged, flow),
    }
    Ok(())
}

/// Compares what is to be compared of a flow.
pub(crate) fn compare_flow<F: Flow<Item = u64, Fault = u64>>(
    trial: &mut Trial,
    judged: &Judged<'_>,
    flow: F,
) -> Result<(), Refusal> {
    compare_lent(trial, judged, &flow)
}
