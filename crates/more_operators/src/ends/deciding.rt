//! What the ends have in common: one answer, with a value that settles it or where the run has finished.

ghost use Rattle.std.specs.Prelude.{◌≡◌, Option, None, Result, IsSome};
ghost use Rattle.futures.specs.Poll.{OnPending};
ghost use Rattle.futures.specs.Task.{IsArmed, Keeps};
ghost use Rattle.more_operators.specs.Decided.{closed_by};

use cold_flow::{BUDGET, Cause, Event, Run};
use futures::task::{Context, Poll};

/// What an end answers of the values of a run.
pub trait Decide<T>: Copy {
    /// The answer.
    type Out: Copy;

    // The answer, where it is certain with the next value.
    ghost decides: { Self → T → Option Self.Out };

    // How it stands after the next value.
    ghost after: { Self → T → Self };

    // The answer where no value comes any more.
    ghost closes: { Self → Self.Out };

    /// The answer, where it is certain with the next value of the run.
    fn take(&mut self, value: T) -> Option<Self::Out>
        ensures decides { result ≡ decides self.old value }
        ensures after { self.new ≡ after self.old value };

    /// The answer where the run has finished.
    fn close(&self) -> Self::Out
        ensures { result ≡ closes self.now };
}

/// A run that is asked for one answer.
#[derive(Drop)]
pub struct Deciding<R: Run, D, U> {
    run: R,
    decider: D,
    // What was answered, once it was.
    answer: Option<Result<U, Cause<R::Fault>>>,
}

// The answer where the run has ended so.
fn closed<T: Copy, E: Copy, D: Decide<T>>(decider: &D, cause: Cause<E>) -> Result<D::Out, Cause<E>>
    ensures { result ≡ closed_by (D.closes decider.now) cause }
{
    match cause {
        Cause::Finished => Ok(decider.close()),
        Cause::Failed(fault) => Err(Cause::Failed(fault)),
        Cause::Cancelled => Err(Cause::Cancelled),
        Cause::Refused(refusal) => Err(Cause::Refused(refusal)),
    }
}

impl<U: Copy, R: Run, D: Decide<R::Item, Out = U>> Deciding<R, D, U> {
    ghost use Rattle.more_operators.specs.Decided.{DecidesTo, TakesUntil};
    ghost use Rattle.more_operators.specs.Deciders.{decided_run, decider_of, answered};

    /// Asks `decider` for its answer on the values of `run`.
    pub fn new(run: R, decider: D) -> Deciding<R, D, U>
        ensures { (decided_run result ≡ run) × (decider_of result ≡ decider) × (answered result ≡ None) }
    {
        Deciding {
            run,
            decider,
            answer: None,
        }
    }

    /// Takes at most 64 values of the run, and then yields. It is ready with the answer once that is certain, with which the run is
    /// cancelled, or once the run has ended: where it didn't finish, that cause is answered. Every later poll answers the same, and
    /// asks nothing.
    pub fn poll(&mut self, cx: &mut Context<'_>) -> Poll<Result<U, Cause<R::Fault>>>
        ensures decides { DecidesTo D.decides D.after D.closes (answered self.old) (decider_of self.old) (R.may (decided_run self.old)) result
            (answered self.new) (decider_of self.new) (R.may (decided_run self.new)) }
        ensures takes { TakesUntil D.decides D.after D.closes R.polled R.cancelled (answered self.old) (decider_of self.old)
            (decided_run self.old) result (decider_of self.new) (decided_run self.new) }
        ensures over { answered self.old ≡ None → IsSome (answered self.new) → IsSome (R.ended (decided_run self.new)) }
        ensures armed { OnPending result (IsArmed cx.new) }
        ensures kept { Keeps cx.old cx.new }
    {
        if let Some(answer) = self.answer {
            return Poll::Ready(answer);
        }
        for _taken in 0..BUDGET {
            match self.run.poll_next(cx) {
                Poll::Ready(Event::Value(value)) => {
                    if let Some(decided) = self.decider.take(value) {
                        self.run.cancel();
                        self.answer = Some(Ok(decided));
                        return Poll::Ready(Ok(decided));
                    }
                }
                Poll::Ready(Event::End(cause)) => {
                    let answer = closed(&self.decider, cause);
                    self.answer = Some(answer);
                    return Poll::Ready(answer);
                }
                Poll::Pending => return Poll::Pending,
            }
        }
        cx.yield_now()
    }
}
