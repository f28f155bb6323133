//! An emission that is waited for, unless the thread is let go.
ghost use Rattle.std.specs.Prelude.{◌≡◌, ◌≢◌, None, IfSome, IfNone};
ghost use Rattle.shared_flow.specs.Emitters.{emission_by, Waited, WasFinished, WasLeft, WasWithdrawn};
ghost use Rattle.shared_flow.specs.Emitted.{emitted, settled};
ghost use Rattle.shared_flow.specs.Parties.{Emitting, IsSameEmitter};
ghost use Rattle.flow_stopping.specs.Waits.{Emits, EndsAs, GrewByOne, after_polls, outcome_given_up, outcome_of_wait};

use crate::answers::Emitted;
use crate::parker::{Attempt, StoppableParker};
use flow_terms::{Refusal, Word};
use futures::task::Poll;
use shared_core::{Begun, Withdrawn};
use shared_flow::{Emitter, Receipt};
use std::sync::Wait;

/// Gives up the emission in flight. Its receipt, where it had been accepted.
fn given_up<T: Word>(rt: &impl Wait, emitter: &mut Emitter<T>) -> Option<Receipt>
    requires in_flight { emitter.old.ticket ≢ None }
    ensures has { emitted emitter.new ≡ settled (outcome_given_up result) (emitted emitter.old) }
    ensures ends { (emitter.new.ticket ≡ None) × IsSameEmitter emitter.old emitter.new }
    ensures left { IfSome result (λ receipt. WasLeft emitter.old receipt emitter.new) }
    ensures withdrawn { IfNone result (WasWithdrawn emitter.old emitter.new) }
{
    match emitter.cancel_emit(rt) {
        Withdrawn::Left(receipt) => Some(receipt),
        Withdrawn::Removed => None,
        // Its ticket wasn't out, which no run of an emitter shows. A poll of it would be pending for ever, too.
        Withdrawn::Gone => {
            for _ in rt.forever() {
                emitter.look_on();
            }
            unreachable!()
        }
    }
}

impl StoppableParker {
    /// Emits a value, and waits until that is finished, as [`Emitter::emit`](shared_flow::Emitter::emit) does, unless it is stopped:
    /// Kotlin's `emit`, in a coroutine that may be cancelled.
    ///
    /// Where the parker is stopped, an emission that waits is withdrawn; `Accepted` is answered where it had been accepted. Refused as
    /// [`Emitter::start_emit`](shared_flow::Emitter::start_emit) is, and as `NoMemory` where the parker finds none to wait by: the
    /// value was not accepted then.
    pub fn emit<T: Word>(
        &mut self,
        rt: &impl Wait,
        emitter: &mut Emitter<T>,
        value: T,
    ) -> Result<Emitted, Refusal>
        requires idle { emitter.old.ticket ≡ None }
        ensures has { GrewByOne (emitted emitter.old) (T.word value) result (emitted emitter.new) }
        ensures ends { (emitter.new.ticket ≡ None) × IsSameEmitter emitter.old emitter.new }
        ensures emits { Emits emitter.old (emission_by emitter.old (T.word value)) result emitter.new }
    {
        if self.is_stopped() {
            return Ok(Emitted::Stopped);
        }
        match emitter.start_emit(rt, value) {
            Ok(Begun::Accepted(receipt)) => Ok(Emitted::Accepted(receipt)),
            Ok(Begun::Dropped) => Ok(Emitted::Dropped),
            Ok(Begun::Waiting(())) => self.finish(rt, emitter),
            Err(refusal) => Err(refusal),
        }
    }

    // Waits until the emission in flight is finished, or gives it up.
    fn finish<T: Word>(
        &mut self,
        rt: &impl Wait,
        emitter: &mut Emitter<T>,
    ) -> Result<Emitted, Refusal>
        requires in_flight { emitter.old.ticket ≢ None }
        ensures has { emitted emitter.new ≡ settled (outcome_of_wait result) (emitted emitter.old) }
        ensures ends { (emitter.new.ticket ≡ None) × IsSameEmitter emitter.old emitter.new }
        ensures answers { EndsAs emitter.old result emitter.new }
    {
        if self.begin().is_err() {
            return match given_up(rt, emitter) {
                Some(receipt) => Ok(Emitted::Accepted(receipt)),
                None => Err(Refusal::NoMemory),
            };
        }
        if let Some(receipt) = self.finished(rt, emitter) {
            return Ok(Emitted::Accepted(receipt));
        }
        match given_up(rt, emitter) {
            Some(receipt) => Ok(Emitted::Accepted(receipt)),
            None => Ok(Emitted::Stopped),
        }
    }

    // Waits until the emission in flight is finished. Nothing where the parker was stopped before that. It looks on for a little
    // while before the thread sleeps.
    fn finished<T: Word>(&mut self, rt: &impl Wait, emitter: &mut Emitter<T>) -> Option<Receipt>
        requires in_flight { emitter.old.ticket ≢ None }
        ensures has { emitted emitter.new ≡ after_polls result (emitted emitter.old) }
        ensures same { IsSameEmitter emitter.old emitter.new }
        ensures finished { IfSome result (λ receipt. (m : Emitting) × Waited emitter.old m × WasFinished m receipt emitter.new) }
        ensures waits { IfNone result ((emitter.new.ticket ≢ None) × Waited emitter.old emitter.new) }
    {
        emitter.look_on();
        for _ in rt.forever() {
            let Some(Attempt { mut cx, is_stopped }) = self.turn(rt) else {
                continue;
            };
            if is_stopped {
                cx.cancel();
                return None;
            }
            let polled = emitter.poll_emit(rt, &mut cx);
            cx.end(&polled);
            if let Poll::Ready(receipt) = polled {
                return Some(receipt);
            }
        }
        unreachable!()
    }
}
