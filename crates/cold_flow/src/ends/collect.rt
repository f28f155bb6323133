//! `collect`: the values of a run, and how it ended.

ghost use Rattle.std.specs.Prelude.{◌≡◌, [], IsSome, ⊤};
ghost use Rattle.futures.specs.Poll.{OnPending};
ghost use Rattle.futures.specs.Task.{IsArmed, Keeps};
ghost use Rattle.cold_flow.specs.declared.ends.collect.Gathering.TheVariants.{Going, Lacking};
ghost use Rattle.cold_flow.specs.Ends.{gathered_run, gathered_values, gathered_to};

use crate::cause::Cause;
use crate::event::Event;
use crate::run::{BUDGET, Run};
use flow_terms::Refusal;
use futures::task::{Context, Poll};
use std::alloc::{AllocError, Global};
use std::mem;

/// What a run gave.
#[derive(Drop)]
pub struct Collected<T, E> {
    /// Its values, in order.
    pub values: Vec<T>,
    /// Why it ended.
    pub cause: Cause<E>,
}

/// How far a run was gathered.
#[derive(Copy)]
pub enum Gathering<E> {
    /// It goes on.
    Going,
    /// It ended by this cause, and what it gave was handed out.
    Done(Cause<E>),
    /// Memory lacked for a value, and the run was cancelled.
    Lacking,
}

impl<E: Copy> Clone for Gathering<E> {
    ghost is_clone = { λ value copy. copy ≡ value };

    ghost is_infallible = { λ _. ⊤ };

    fn clone(&self) -> Result<Self, AllocError> {
        Ok(*self)
    }
}

/// A run whose values are being gathered.
#[derive(Drop)]
pub struct Collecting<R: Run> {
    run: R,
    // The values since the start, until they are handed out.
    values: Vec<R::Item>,
    state: Gathering<R::Fault>,
}

/// Gathers the values of `run` and the cause of its end: Kotlin's `collect` into a list, poll by poll. See `Collecting::poll`.
pub fn collect<R: Run>(alloc: Global, run: R) -> Collecting<R>
    ensures { (gathered_run result ≡ run) × (gathered_values result ≡ []) × (gathered_to result ≡ Going) }
{
    Collecting {
        run,
        values: Vec::new(alloc),
        state: Gathering::Going,
    }
}

impl<R: Run> Collecting<R> {
    ghost use Rattle.cold_flow.specs.Gather.{GathersTo};
    ghost use Rattle.cold_flow.specs.Polled.{Takes};

    /// The values so far, also after want of memory; none once they were handed out.
    pub fn so_far(&self) -> &[R::Item]
        ensures { result.now ≡ gathered_values self.now }
    {
        self.values.as_slice()
    }

    /// Takes at most 64 values of the run, and then yields. It is ready with all that the run gave once the run has ended, and then,
    /// at every later poll, with no values and the same cause.
    ///
    /// Where memory lacks for a value the run is cancelled, `so_far` keeps the values before it, and this and every later poll answers
    /// `Refusal::NoMemory`.
    pub fn poll(
        &mut self,
        cx: &mut Context<'_>,
    ) -> Poll<Result<Collected<R::Item, R::Fault>, Refusal>>
        ensures gathers { GathersTo (gathered_to self.old) (gathered_values self.old) (R.may (gathered_run self.old)) result
            (gathered_to self.new) (gathered_values self.new) (R.may (gathered_run self.new)) }
        ensures takes { Takes R.polled R.cancelled (gathered_to self.old) (gathered_values self.old) (gathered_run self.old) result
            (gathered_values self.new) (gathered_run self.new) }
        ensures cancelled { gathered_to self.old ≡ Going → gathered_to self.new ≡ Lacking → IsSome (R.ended (gathered_run self.new)) }
        ensures armed { OnPending result (IsArmed cx.new) }
        ensures kept { Keeps cx.old cx.new }
    {
        match self.state {
            Gathering::Going => {}
            Gathering::Done(cause) => {
                let values = Vec::new(*self.values.allocator());
                return Poll::Ready(Ok(Collected { values, cause }));
            }
            Gathering::Lacking => return Poll::Ready(Err(Refusal::NoMemory)),
        }
        for _taken in 0..BUDGET {
            match self.run.poll_next(cx) {
                Poll::Ready(Event::Value(value)) => {
                    if self.values.push(value).is_err() {
                        self.run.cancel();
                        self.state = Gathering::Lacking;
                        return Poll::Ready(Err(Refusal::NoMemory));
                    }
                }
                Poll::Ready(Event::End(cause)) => {
                    self.state = Gathering::Done(cause);
                    let empty = Vec::new(*self.values.allocator());
                    let values = mem::replace(&mut self.values, empty);
                    return Poll::Ready(Ok(Collected { values, cause }));
                }
                Poll::Pending => return Poll::Pending,
            }
        }
        cx.yield_now()
    }
}
