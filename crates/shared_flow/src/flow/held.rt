//! A shared flow whose lock is kept.
ghost use Rattle.std.specs.Prelude.{◌≡◌, ◌<◌, ℕ, Some, length, slice_get};
ghost use Rattle.shared_lane.specs.Caches.{IsLastOf};
ghost use Rattle.shared_lane.specs.Sequencers.{seen};
ghost use Rattle.shared_rounds.specs.declared.round.Round.TheVariants as round;
ghost use Rattle.flow_terms.specs.Lists.{IsPrefix};
ghost use Rattle.shared_rounds.specs.Entering.{MadeOf};
ghost use Rattle.shared_rounds.specs.Reach.{with_round};
ghost use Rattle.shared_flow.specs.Owners.{HasHeard, KeepsLock, IsKept, at_rest};
ghost use Rattle.shared_rounds.specs.Meeting.{HasMet};
ghost use Rattle.shared_flow.specs.Parties.{IsSamePrelude, received};

use super::SharedFlow;
use crate::emitter::Emitter;
use crate::subscription::Subscription;
use flow_terms::Word;
use shared_lane::Met;
use shared_rounds::{Inside, Round};
use std::marker::Model;
use std::sync::Wait;

/// What lies under the lock of a flow, while a [`Held`] keeps it, and the count of subscriptions.
pub struct Kept {
    inside: Inside,
    count: u32,
}

impl Model for Kept {
    ghost use Rattle.shared_flow.specs.Owners.{Keeping};

    ghost Value = { Keeping };

    ghost view = { λ k. record { count = k.count; before = k.inside.before; shared = k.inside.shared.value } };
}

/// A flow whose lock is kept: nothing is emitted into it, and nobody is admitted, until it is released. Subscriptions receive on, by
/// `try_next`. Kotlin has no such thing.
///
/// It has no `Drop` and must be spent, by [`release`](Held::release): until then each other call that takes the lock waits.
pub struct Held<'a, T: Word, K = Kept> {
    flow: &'a mut SharedFlow<T>,
    // `Kept`. As a type parameter, so that contracts see what `release` leaves behind the reference.
    kept: K,
}

impl<T: Word> SharedFlow<T> {
    /// Takes the lock and keeps it, with what waits accepted and the live subscriptions counted.
    pub fn hold(&mut self, rt: &impl Wait) -> Held<'_, T>
        ensures same_reference { result.flow.ghost_name ≡ self.entry.ghost_name }
        ensures party { result.flow.now.party ≡ record self.old.party { seen = result.flow.now.party.seen } }
        ensures seen { IsPrefix self.old.party.seen result.flow.now.party.seen }
        ensures held { KeepsLock result.flow.now result.kept }
    {
        let mut inside = self.access.enter(rt);
        let count = inside.shared.subscription_count();
        Held {
            flow: self,
            kept: Kept { inside, count },
        }
    }
}

impl<T: Word> Held<'_, T> {
    /// How many subscriptions were live when the lock was taken.
    pub fn count(&self) -> u32
        ensures { result ≡ self.now.kept.count }
    {
        self.kept.count
    }

    /// How many values the replay cache has. They are the last that were accepted.
    pub fn replay_len(&self) -> u64
        ensures length { result ≡ length self.now.kept.shared.sequencer.cache }
        ensures latest { IsLastOf (seen self.now.kept.shared.sequencer) self.now.kept.shared.sequencer.cache }
    {
        self.kept.inside.shared.replay_len()
    }

    /// The value of the replay cache with this index, from the oldest on.
    pub fn replay_at(&self, index: u64) -> T
        requires { index < length self.now.kept.shared.sequencer.cache }
        ensures { (word : ℕ) × (slice_get self.now.kept.shared.sequencer.cache index ≡ Some word) × (result ≡ T.read_as word) }
    {
        T::from_word(self.kept.inside.shared.replay_at(index))
    }

    /// Tells a subscription of this flow all that was accepted and all that was dropped for it, and counts it exactly:
    /// `accepted - received - dropped` values are pending. Those of its prelude aren't counted.
    pub fn meet(&mut self, subscription: &mut Subscription<T>) -> Met
        requires held { KeepsLock self.old.flow.now self.old.kept }
        requires flow { subscription.old.party.flow ≡ self.old.flow.now.party.flow }
        ensures has { received T.read_as subscription.new ≡ received T.read_as subscription.old }
        ensures prelude { IsSamePrelude subscription.old subscription.new }
        ensures same_reference { self.new.flow.ghost_name ≡ self.old.flow.ghost_name }
        ensures owner { self.new.flow.now ≡ self.old.flow.now }
        ensures held { KeepsLock self.new.flow.now self.new.kept }
        ensures kept { IsKept self.old.kept self.new.kept }
        ensures same { (subscription.new.party ≡ subscription.old.party) × (subscription.new.number ≡ subscription.old.number) }
        ensures rest { subscription.new.rest ≡ subscription.old.rest }
        ensures met { HasMet self.new.kept.shared.sequencer subscription.old.reader subscription.new.reader result }
    {
        subscription.meet(&mut *self.kept.inside.shared)
    }

    /// Tells an emitter of this flow all rounds so far: its own are its part of the list that the owner has seen. No round is made
    /// for that, and no step on the lane.
    pub fn tell_emitter(&mut self, emitter: &mut Emitter<T>)
        requires held { KeepsLock self.old.flow.now self.old.kept }
        requires lock { emitter.old.party.lock ≡ self.old.flow.now.party.lock }
        ensures same_reference { self.new.flow.ghost_name ≡ self.old.flow.ghost_name }
        ensures owner { self.new.flow.now ≡ self.old.flow.now }
        ensures kept { self.new.kept ≡ self.old.kept }
        ensures heard { HasHeard self.old.flow.now.party.seen emitter.old.party emitter.new.party }
        ensures emitter { emitter.new ≡ record emitter.old { party = emitter.new.party } }
    {
        let flow = &mut *self.flow;
        emitter.hear(&mut flow.access);
    }

    /// Tells a subscription of this flow all rounds so far, as `tell_emitter` tells an emitter.
    pub fn tell_subscription(&mut self, subscription: &mut Subscription<T>)
        requires held { KeepsLock self.old.flow.now self.old.kept }
        requires lock { subscription.old.party.lock ≡ self.old.flow.now.party.lock }
        ensures same_reference { self.new.flow.ghost_name ≡ self.old.flow.ghost_name }
        ensures owner { self.new.flow.now ≡ self.old.flow.now }
        ensures kept { self.new.kept ≡ self.old.kept }
        ensures heard { HasHeard self.old.flow.now.party.seen subscription.old.party subscription.new.party }
        ensures subscription { subscription.new ≡ record subscription.old { party = subscription.new.party } }
    {
        let flow = &mut *self.flow;
        subscription.hear(&mut flow.access);
    }

    /// Gives the lock back, and then wakes those that were helped when it was taken.
    pub fn release(self)
        requires held { KeepsLock self.flow.now self.kept }
        ensures round { self.exit.0.now ≡ at_rest (with_round (round.Hold self.entry.kept.count) self.exit.0.now.party.seen self.entry.flow.now.party) }
        ensures made { MadeOf self.entry.kept.shared (round.Hold self.entry.kept.count) self.entry.flow.now.party self.exit.0.now.party }
    {
        let Held { flow, kept } = self;
        let Kept { inside, count } = kept;
        flow.access.leave(inside, Round::Hold(count));
    }
}
