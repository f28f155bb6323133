//! A subscription of a shared flow as a run.

ghost use Rattle.std.specs.Prelude.{◌≡◌, None};
ghost use Rattle.hot_sources.specs.Ended.{Lasting, is_over};
ghost use Rattle.hot_sources.specs.Receiving.{Received};

use crate::sources::ended::Ended;
use cold_flow::{Cause, Event, Run};
use flow_terms::Word;
use futures::ready;
use futures::task::{Context, Poll};
use shared_flow::Subscription;
use std::sync::Wait;

/// A run that receives from a subscription. It has a subscription for as long as it is there, and never ends of itself.
#[derive(Drop)]
pub struct ReceivingRun<'a, T: Word, W, E> {
    subscription: &'a mut Subscription<T>,
    rt: &'a W,
    ended: Ended<E>,
}

/// What `subscription` receives from now on, as a run: Kotlin's `SharedFlow` in a chain.
///
/// Each poll is a [`Subscription::poll_next`]: it looks without the lock first, and takes that where no value is there, to sleep.
/// `cancel` ends the run alone: the subscription is as it was, nothing that is pending is lost, and it receives on.
pub fn receiving<'a, E: Copy, T: Word, W: Wait>(
    subscription: &'a mut Subscription<T>,
    rt: &'a W,
) -> ReceivingRun<'a, T, W, E>
    ensures same_reference { result.subscription.ghost_name ≡ subscription.entry.ghost_name }
    ensures subscription { result.subscription.now ≡ subscription.old }
    ensures fresh { result.ended.cause ≡ None }
{
    ReceivingRun {
        subscription,
        rt,
        ended: Ended::not_yet(),
    }
}

impl<'a, T: Word, W: Wait, E: Copy> Run for ReceivingRun<'a, T, W, E> {
    ghost use Rattle.hot_sources.specs.Ended.{over_halts, lasting_begins, lasting_over};

    type Item = T;

    type Fault = E;

    ghost may = { λ r. Lasting r.ended };

    ghost ended = { λ r. r.ended.cause };

    ghost stopped = { λ r. is_over r.ended };

    // It is the same subscription, and the answer is what that received.
    ghost polled = { λ old answer new. (new.subscription.ghost_name ≡ old.subscription.ghost_name)
        × Received T.read_as old.subscription.now answer new.subscription.now };

    ghost cancelled = { λ old new. new.subscription ≡ old.subscription };

    fn poll_next(&mut self, cx: &mut Context<'_>) -> Poll<Event<T, E>> {
        if let Some(cause) = self.ended.cause() {
            return Poll::Ready(Event::End(cause));
        }
        let value = ready!(self.subscription.poll_next(self.rt, cx));
        Poll::Ready(Event::Value(value))
    }

    fn end(&self) -> Option<Cause<E>> {
        self.ended.cause()
    }

    fn cancel(&mut self) {
        self.ended.cancel();
    }

    ghost halts = { λ r. over_halts r.ended };

    ghost begins = { λ r. lasting_begins _ r.ended };

    ghost over = { λ r. lasting_over r.ended };
}
