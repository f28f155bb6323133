//! A shared flow as the place where the values of a sharing go.

ghost use Rattle.std.specs.Prelude.{◌≡◌, ℕ, None, IsTrue, is_some};
ghost use Rattle.std.specs.Borrow.{GName};
ghost use Rattle.futures.specs.Task.{IsArmed, Keeps};
ghost use Rattle.flow_terms.specs.declared.answers.Withdrawn.TheVariants as withdrawn;
ghost use Rattle.shared_flow.specs.Emitters.{EndedWith};
ghost use Rattle.shared_flow.specs.Emitted.{emitted, after_cancel, IsLeftOf};
ghost use Rattle.shared_flow.specs.Owners.{Owning};
ghost use Rattle.shared_flow.specs.Parties.{Emitting, IfLeft, IsSameEmitter, PartyName, named};
ghost use Rattle.sharing_upstream.specs.Destinations.{Offered};
ghost use Rattle.flow_sharing.specs.FlowDestinations.{emitting, DestinationSeen, Found, Withdrew};
ghost use Rattle.flow_sharing.specs.Shared.{WaitsLast};

use cold_flow::Word;
use futures::task::{Context, Poll};
use shared_core::{Begun, Withdrawn};
use shared_flow::{Emitter, Receipt, SharedFlow};
use sharing_upstream::{Destination, Offer};
use std::sync::Wait;

/// A shared flow that is emitted into, for the time of one poll.
#[derive(Drop)]
pub(crate) struct FlowDestination<'a, T: Word, W> {
    // An owner of the flow, which counts its subscriptions and resets its replay cache.
    pub(crate) flow: &'a mut SharedFlow<T>,
    pub(crate) outlet: &'a mut Outlet<T>,
    pub(crate) rt: &'a W,
}

impl<'a, T: Word, W: Wait> Destination<T> for FlowDestination<'a, T, W> {
    ghost use Rattle.flow_sharing.specs.Outlets.{place_at};

    ghost Kept = { GName × PartyName × GName × PartyName × ℕ };

    ghost kept = { λ d. (d.flow.ghost_name, named d.flow.now.party, d.outlet.ghost_name, named d.outlet.now.emitter.party, d.outlet.now.emitter.id) };

    ghost Seen = { DestinationSeen T };

    ghost seen = { λ d. place_at d.flow.now d.outlet.now };

    ghost steps = { λ _. emitting T.word };

    ghost free = { λ place. place.waiting ≡ None };

    fn count(&mut self) -> u32 {
        self.flow.subscription_count(self.rt)
    }

    fn still_waits(&mut self, cx: &mut Context<'_>) -> bool {
        self.outlet.still_waits(self.rt, cx)
    }

    fn offer(&mut self, value: T) -> Offer {
        self.outlet.offer(self.rt, value)
    }

    fn withdraw(&mut self) {
        self.outlet.withdraw(self.rt);
    }

    fn reset(&mut self) {
        self.flow.reset_replay(self.rt);
    }
}

/// The side of a sharing that emits: an emitter with the value that waits in it. It must be spent, by `close`.
pub struct Outlet<T: Word> {
    pub(crate) emitter: Emitter<T>,
    // The value of the emission in flight.
    pub(crate) waiting: Option<T>,
    ghost in_flight: { is_some emitter.ticket ≡ is_some waiting },
    ghost waits_last: { WaitsLast T.word waiting (emitted emitter) },
}

impl<T: Word> Outlet<T> {
    ghost use Rattle.flow_sharing.specs.Outlets.{place_at};

    pub(crate) fn new(emitter: Emitter<T>) -> Outlet<T>
        requires idle { emitter.ticket ≡ None }
        ensures emitter { result.emitter ≡ emitter }
        ensures waiting { result.waiting ≡ None }
    {
        Outlet {
            emitter,
            waiting: None,
        }
    }

    // Offers a value to the flow, which accepts it, drops it or lets it wait.
    pub(crate) fn offer(&mut self, rt: &impl Wait, value: T) -> Offer
        requires free { self.old.waiting ≡ None }
        ensures offered { (owner : Owning) → Offered (emitting T.word) (place_at owner self.old) value result (place_at owner self.new) }
        ensures same { IsSameEmitter self.old.emitter self.new.emitter }
    {
        match self.emitter.start_emit(rt, value) {
            Ok(Begun::Accepted(_)) => Offer::Accepted,
            Ok(Begun::Dropped) => Offer::Accepted,
            Ok(Begun::Waiting(())) => {
                self.waiting = Some(value);
                Offer::Waiting
            }
            Err(refusal) => Offer::Refused(refusal),
        }
    }

    // Asks whether the waiting emission, if there is one, waits still.
    pub(crate) fn still_waits(&mut self, rt: &impl Wait, cx: &mut Context<'_>) -> bool
        ensures found { (owner : Owning) → Found (place_at owner self.old) result (place_at owner self.new) }
        ensures armed { IsTrue result → IsArmed cx.new }
        ensures same { IsSameEmitter self.old.emitter self.new.emitter }
        ensures kept { Keeps cx.old cx.new }
    {
        if self.waiting.is_none() {
            return false;
        }
        if let Poll::Pending = self.emitter.poll_emit(rt, cx) {
            return true;
        }
        self.waiting = None;
        false
    }

    // Withdraws the waiting emission.
    pub(crate) fn withdraw(&mut self, rt: &impl Wait)
        ensures withdrew { (owner : Owning) → Withdrew (place_at owner self.old) (place_at owner self.new) }
        ensures same { IsSameEmitter self.old.emitter self.new.emitter }
    {
        if self.waiting.is_none() {
            return;
        }
        self.waiting = None;
        let _withdrawn = self.emitter.cancel_emit(rt);
    }

    // Withdraws the waiting emission, and lets the emitter go.
    pub(crate) fn close(self, rt: &impl Wait) -> Withdrawn<Receipt>
        ensures has { (left : Emitting) × IsLeftOf self.emitter result left
            × (emitted left ≡ after_cancel result (emitted self.emitter)) }
        ensures idle { self.waiting ≡ None → result ≡ withdrawn.Gone }
        ensures ended { EndedWith self.emitter result }
        ensures receipt { IfLeft result (λ receipt. receipt.emitter ≡ self.emitter.id) }
    {
        let Outlet {
            emitter,
            waiting: _,
        } = self;
        emitter.close(rt)
    }
}
