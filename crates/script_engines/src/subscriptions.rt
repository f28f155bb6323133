//! The subscriptions of a script to a flow for threads.

ghost use Rattle.std.specs.Prelude.{◌≡◌, []};
ghost use Rattle.script_engines.specs.Subscribing.{subscribing_of, LooksIn, EndsIn};

use flow_terms::{Next, Refusal, SubId};
use futures::task::{Context, Poll};
use script_calls::Shared;
use script_calls::places::{id_at, place_of};
use shared_core::Prelude;
use shared_flow::{SharedFlow, Subscription};
use std::alloc::{AllocError, Global};
use std::sync::Wait;

/// An owner of a flow for threads, with the subscriptions that a script made by it. It must be spent, by [`close`](Shared::close).
pub struct Subscriptions<'a, W> {
    pub(crate) rt: &'a W,
    pub(crate) flow: SharedFlow<u64>,
    // Each keeps its place; a cancelled one is gone.
    places: Vec<Option<Subscription<u64>>>,
}

/// Lets an owner of a flow go. In one place, since the proof of all that goes with it is long.
fn leave(_flow: SharedFlow<u64>) {}

/// Asks what stands at a place for its next value.
fn looked(place: &mut Option<Subscription<u64>>, rt: &impl Wait, cx: &mut Context<'_>) -> Next<u64>
    ensures { LooksIn place.old result place.new }
{
    let Some(subscription) = place else {
        return Next::Closed;
    };
    let Poll::Ready(value) = subscription.poll_next(rt, cx) else {
        return Next::Nothing;
    };
    Next::Value(value)
}

/// Ends what stands at a place, and says whether a subscription did.
fn ended(place: &mut Option<Subscription<u64>>, rt: &impl Wait) -> bool
    ensures { EndsIn place.old result place.new }
{
    match place.take() {
        Some(subscription) => {
            subscription.cancel(rt);
            true
        }
        None => false,
    }
}

impl<'a, W: Wait> Subscriptions<'a, W> {
    /// None yet, of this owner's flow.
    pub fn new(rt: &'a W, alloc: Global, flow: SharedFlow<u64>) -> Subscriptions<'a, W>
        ensures { subscribing_of result ≡ record { flow = flow; places = [] } }
    {
        Subscriptions {
            rt,
            flow,
            places: Vec::new(alloc),
        }
    }
}

impl<'a, W: Wait> Shared for Subscriptions<'a, W> {
    ghost use Rattle.script_calls.specs.Views.{receipts_of};
    ghost use Rattle.script_engines.specs.Subscribing.{subscribing_of, subscribing};

    ghost receipts = { receipts_of subscribing_of subscribing };

    fn subscribe(&mut self, values: &[u64]) -> Result<SubId, Refusal> {
        let prelude = Prelude::of(values)?;
        self.places.reserve(1)?;
        let subscription = self.flow.subscribe_with(self.rt, prelude)?;
        let place = self.places.len();
        self.places.push_reserved(Some(subscription));
        Ok(id_at(place))
    }

    fn next(&mut self, id: SubId, cx: &mut Context<'_>) -> Next<u64> {
        let Some(place) = self.places.get_mut(place_of(id)) else {
            return Next::Closed;
        };
        looked(place, self.rt, cx)
    }

    fn cancel(&mut self, id: SubId) -> bool {
        let Some(place) = self.places.get_mut(place_of(id)) else {
            return false;
        };
        ended(place, self.rt)
    }

    fn cache(&mut self, alloc: Global) -> Result<Result<Vec<u64>, Refusal>, AllocError> {
        let mut values = Vec::new(alloc);
        match self.flow.replay_cache_into(self.rt, &mut values) {
            Ok(()) => Ok(Ok(values)),
            Err(refusal) => Ok(Err(refusal)),
        }
    }

    fn count(&mut self) -> u32 {
        self.flow.subscription_count(self.rt)
    }

    fn close(self) {
        let Subscriptions {
            rt,
            flow,
            mut places,
        } = self;
        while let Some(place) = places.pop() {
            if let Some(subscription) = place {
                subscription.cancel(rt);
            }
        }
        places.destroy_empty();
        leave(flow);
    }
}
