//! What a stage of a pipe comes to.

ghost use Rattle.std.specs.Prelude.{◌≡◌, ◌≤◌, ℕ, [], length, vec_capacity, MatchResult};
ghost use Rattle.futures.specs.declared.task.Poll.TheVariants.{Ready};
ghost use Rattle.cold_flow.specs.Poll.{Approaches, Fixes};
ghost use Rattle.cold_flow.specs.Trace.{Trace, cause_of};
ghost use Rattle.cold_flow.specs.declared.cause.Cause.TheVariants.{Cancelled};
ghost use Rattle.cold_flow.specs.declared.cause.Cause.TheVariants as causes;
ghost use Rattle.script_commands.specs.declared.gathered.Stop.TheVariants.{Refused};
ghost use Rattle.script_commands.specs.Filling.{FillsTo};
ghost use Rattle.script_commands.specs.Piping.{bounded, Comes, IsEnded};
ghost use Rattle.flow_terms.specs.declared.refusal.Refusal.TheVariants.{NoMemory};

use crate::gathered_flow::GatheredFlow;
use cold_flow::{Cause, Event, Finite, Flow, Refusal};
use futures::task::{Context, Poll};
use std::alloc::{AllocError, Global};

/// The most values that a stage may give.
const MOST_VALUES: usize = 10_000;

/// The values that a stage gave, and how they end.
#[derive(Drop)]
pub struct Gathered {
    pub values: Vec<u64>,
    /// The fault by which it failed, or nothing where it finished.
    pub fault: Option<u64>,
}

/// Why a pipe stops at a stage.
#[derive(Clone, Copy)]
pub enum Stop {
    /// The stage was refused.
    Refused(Refusal),
    /// The stage gave more values than a pipe holds.
    TooMany,
}

impl From<Refusal> for Stop {
    ghost from_gives = { λ refusal stop. stop ≡ Refused refusal };

    fn from(refusal: Refusal) -> Stop {
        Stop::Refused(refusal)
    }
}

impl From<AllocError> for Stop {
    ghost from_gives = { λ _ stop. stop ≡ Refused NoMemory };

    fn from(_error: AllocError) -> Stop {
        Stop::Refused(Refusal::NoMemory)
    }
}

/// The fault of an end that is no cancellation, or why a start was refused.
fn fault_of(cause: Cause<u64>) -> Result<Option<u64>, Refusal>
    requires { cause ≡ Cancelled → ⊥ }
    ensures { MatchResult result (λ fault. cause ≡ cause_of fault) (λ refusal. cause ≡ causes.Refused refusal) }
{
    match cause {
        Cause::Finished => Ok(None),
        Cause::Failed(fault) => Ok(Some(fault)),
        Cause::Refused(refusal) => Err(refusal),
        Cause::Cancelled => unreachable!(),
    }
}

/// Polls a run, and adds what it gives to a list while that has room for it. Answers the first value that finds none, or the end.
///
/// A pending answer is asked again at once. No memory is asked for, so the list stands still while the run is polled.
fn fill<R>(run: &mut R, values: &mut Vec<u64>, room: usize, cx: &mut Context<'_>) -> Event<u64, u64>
where
    R: Finite<Item = u64, Fault = u64>,
    requires room { room ≤ vec_capacity values.old }
    requires few { room ≤ 10000 }
    ensures fills { FillsTo values.old.items (R.may run.old) result values.new.items (R.may run.new) }
    ensures few { length values.old.items ≤ 10000 → length values.new.items ≤ 10000 }
    ensures approaches { Approaches (R.polls run.old) (Ready result) (R.polls run.new) }
{
    'polls: loop {
        match run.poll_next(cx) {
            Poll::Ready(Event::Value(value)) => {
                if values.len() >= room {
                    return Event::Value(value);
                }
                values.push_reserved(value);
            }
            Poll::Ready(Event::End(cause)) => return Event::End(cause),
            Poll::Pending => {}
        }
    }
}

/// Polls a run to its end, and adds what it gives to an empty list.
///
/// With the first value over the limit of 10,000 the run is cancelled, and so where memory lacks for a value.
fn gather<R>(mut run: R, mut values: Vec<u64>, cx: &mut Context<'_>) -> Result<Gathered, Stop>
where
    R: Finite<Item = u64, Fault = u64>,
    requires empty { values.items ≡ [] }
    requires certain { (whole : Trace ℕ ℕ) × Fixes whole (R.may run) × IsEnded whole }
    ensures { (whole : Trace ℕ ℕ) → Fixes whole (R.may run) → Comes (bounded whole) result }
{
    let mut room = values.capacity().min(MOST_VALUES);
    'rooms: loop {
        match fill(&mut run, &mut values, room, cx) {
            Event::Value(value) => {
                if values.len() >= MOST_VALUES {
                    run.cancel();
                    return Err(Stop::TooMany);
                }
                if values.push(value).is_err() {
                    run.cancel();
                    return Err(Stop::Refused(Refusal::NoMemory));
                }
                room = values.capacity().min(MOST_VALUES);
            }
            Event::End(cause) => {
                let fault = fault_of(cause)?;
                return Ok(Gathered { values, fault });
            }
        }
    }
}

impl Gathered {
    ghost use Rattle.script_commands.specs.Piping.{trace_of};

    /// What a flow gives, of which it must be certain which values come and that they end by `Finished` or `Failed`.
    ///
    /// There is room for `room` values at first, or for as many as the limit allows. One value over the limit of 10,000 stops it
    /// with `TooMany`, however many more there are. It is refused with `Refusal::NoMemory` alone.
    pub fn of<F>(
        alloc: Global,
        flow: F,
        room: usize,
        cx: &mut Context<'_>,
    ) -> Result<Gathered, Stop>
    where
        F: Flow<Item = u64, Fault = u64>,
        F::Running: Finite,
        requires { (whole : Trace ℕ ℕ) × Fixes whole (F.may flow) × IsEnded whole }
        ensures { (whole : Trace ℕ ℕ) → Fixes whole (F.may flow) → Comes (bounded whole) result }
    {
        let values = Vec::with_capacity(alloc, room.min(MOST_VALUES))?;
        let run = flow.start()?;
        gather(run, values, cx)
    }

    /// The flow that gives these values and ends so.
    pub fn as_flow<'a>(&'a self) -> GatheredFlow<'a>
        ensures { Fixes (trace_of self.now) (⟦<GatheredFlow<'a> as Flow>⟧.may result) }
    {
        GatheredFlow {
            values: self.values.as_slice(),
            fault: self.fault,
        }
    }
}
