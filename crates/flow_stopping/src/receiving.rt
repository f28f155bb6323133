//! A subscription's next value, unless the thread is let go.
ghost use Rattle.std.specs.Prelude.{◌≡◌, ◌++◌};
ghost use Rattle.shared_flow.specs.Parties.{IsSamePrelude, received};
ghost use Rattle.flow_stopping.specs.Waits.{Receives, received_of};

use crate::answers::Received;
use crate::parker::{Attempt, StoppableParker};
use flow_terms::{Refusal, Word};
use futures::task::Poll;
use shared_flow::Subscription;
use std::sync::Wait;

impl StoppableParker {
    /// Receives the oldest value that is pending, and waits for one where there is none, as
    /// [`Subscription::next`](shared_flow::Subscription::next) does, unless it is stopped: one turn of Kotlin's `collect`, in a
    /// coroutine that may be cancelled.
    ///
    /// A value that is there comes at once, by one look. Where the parker is stopped, nothing is received: what is pending stays so.
    /// Refused as `NoMemory` where the parker finds no memory to wait by, and then nothing was done.
    pub fn next<T: Word>(
        &mut self,
        rt: &impl Wait,
        subscription: &mut Subscription<T>,
    ) -> Result<Received<T>, Refusal>
        ensures has { received T.read_as subscription.new ≡ received T.read_as subscription.old ++ received_of result }
        ensures prelude { IsSamePrelude subscription.old subscription.new }
        ensures did { Receives T.read_as subscription.old result subscription.new }
    {
        if self.is_stopped() {
            return Ok(Received::Stopped);
        }
        self.begin()?;
        if let Some(value) = subscription.next_now(rt) {
            return Ok(Received::Value(value));
        }
        Ok(self.received(rt, subscription))
    }

    // Waits for the next value where a look found none. It looks on for a little while before the thread sleeps.
    #[inline(never)]
    fn received<T: Word>(
        &mut self,
        rt: &impl Wait,
        subscription: &mut Subscription<T>,
    ) -> Received<T>
        ensures has { received T.read_as subscription.new
            ≡ received T.read_as subscription.old ++ received_of (Ok result) }
        ensures prelude { IsSamePrelude subscription.old subscription.new }
        ensures did { Receives T.read_as subscription.old (Ok result) subscription.new }
    {
        if let Some(value) = subscription.next_soon(rt) {
            return Received::Value(value);
        }
        for _ in rt.forever() {
            let Some(Attempt { mut cx, is_stopped }) = self.turn(rt) else {
                continue;
            };
            if is_stopped {
                cx.cancel();
                return Received::Stopped;
            }
            let polled = subscription.poll_next(rt, &mut cx);
            cx.end(&polled);
            if let Poll::Ready(value) = polled {
                return Received::Value(value);
            }
        }
        unreachable!()
    }
}
