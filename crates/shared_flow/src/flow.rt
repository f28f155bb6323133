//! An owner of a shared flow.
ghost use Rattle.std.specs.Prelude.{suc, ℕ, ◌≡◌, ◌⊎◌, [], None, Ok, Err, IfOk, IfErr, IfSome, IfNone, IsOkUnless, OnOk, OnErr};
ghost use Rattle.flow_terms.specs.declared.refusal.Refusal.TheVariants.{Spent, SubscribersFull, NoMemory};
ghost use Rattle.shared_core.specs.Kept.{making_refusal};
ghost use Rattle.shared_rounds.specs.declared.round.Round.TheVariants as round;
ghost use Rattle.shared_rounds.specs.Names.{IsMadeWith};
ghost use Rattle.shared_rounds.specs.Entering.{Made};
ghost use Rattle.shared_rounds.specs.Reach.{with_round};
ghost use Rattle.shared_flow.specs.Parties.{Emitting, newcomer_of, sharing_of, whole_again, taking_of, IfLeft, IsOwnReceipt, IsSamePrelude, received};
ghost use Rattle.shared_flow.specs.Emitted.{emitted, after_cancel, IsLeftOf};
ghost use Rattle.shared_flow.specs.Owners.{at_rest, IsLeftOut, AddsCache, Meets};
ghost use Rattle.shared_flow.specs.Received.{IsComplete};
ghost use Rattle.shared_flow.specs.Looks.{IsEndOf, WasAdmittedBy, EndedInto as SubscriptionEndedInto};
ghost use Rattle.shared_flow.specs.Emitters.{EndedInto as EmitterEndedInto};
ghost use Rattle.flow_terms.specs.declared.answers.Withdrawn.TheVariants as withdrawn;
ghost use Rattle.shared_rounds.specs.Rounds.{IsAfter, IsAtLimit};
ghost use Rattle.shared_core.specs.Preludes.{prelude_values};

use crate::emitter::Emitter;
use crate::subscription::{Ended, Subscription};
use flow_terms::{Refusal, Word};
use shared_core::{Config, Prelude, Withdrawn};
use shared_lane::{Met, Receipt};
use shared_rounds::{Access, NewReader, Round, Shared};
use std::alloc::Global;
use std::marker::{Model, PhantomData};
use std::sync::Wait;

mod held;

pub use held::{Held, Kept};

/// An owner of a shared flow: Kotlin's `MutableSharedFlow`. Its other owners may be in other threads, and the flow is let go with
/// the last owner, emitter or subscription.
///
/// Contracts see the flow, which its owners, emitters and subscriptions have in common, and the rounds of this owner: the calls that
/// it made under the lock, with their answers. All rounds of a flow are one list, and each owner's are its part of it; contracts see
/// that list as far as this owner has seen it. They see how often its share of the lock was halved: the first owner has the whole,
/// and whoever makes an owner, an emitter or a subscription gives it half of its own, so none is made that nobody sees. They see too
/// what it found under the lock, while a [`Held`] keeps that.
pub struct SharedFlow<T: Word> {
    access: Access,
    marker: PhantomData<T>,
}

impl<T: Word> Model for SharedFlow<T> {
    ghost use Rattle.shared_rounds.specs.Reach.{party_of};
    ghost use Rattle.shared_flow.specs.Owners.{Owning};

    ghost Value = { Owning };

    ghost view = { λ flow. record { party = party_of flow.access; held = flow.access.held } };
}

// By hand: who lets one go proves this call alone, and nothing of what it is made of.
impl<T: Word> Drop for SharedFlow<T> {
    fn drop(self) {
        let SharedFlow { access, marker: _ } = self;
        drop(access);
    }
}

impl<T: Word> SharedFlow<T> {
    /// A flow without subscriptions: Kotlin's `MutableSharedFlow(replay, extraBufferCapacity, onBufferOverflow)`.
    ///
    /// Refused, in this order: `TooLarge` where `replay` and `extra` are over 65,536 together; `PolicyNeedsBuffer` where both
    /// are 0 and the policy isn't `Suspend`; `BadLimit` where `subscribers` or `emits` is 0 or over 1,024, or `first` is over
    /// 2^62; `NoMemory`.
    pub fn new(alloc: Global, config: Config) -> Result<SharedFlow<T>, Refusal>
        ensures refused { IfSome (making_refusal config) (λ refusal. result ≡ Err refusal) }
        ensures made { IfNone (making_refusal config) (IsOkUnless result Refusal.NoMemory) }
        ensures config { IfOk result (λ flow. IsMadeWith config flow.party.flow) }
        ensures rounds { IfOk result (λ flow. (flow ≡ at_rest flow.party) × (flow.party.rounds ≡ []) × (flow.party.halved ≡ 0) × (flow.party.taken ≡ []) × (flow.party.seen ≡ [])) }
    {
        let shared = Shared::new(alloc, config)?;
        let access = Access::new(alloc, config, shared)?;
        Ok(SharedFlow {
            access,
            marker: PhantomData,
        })
    }

    /// Another owner of the same flow, which has made no call and has seen as much: in Kotlin, a second reference to it. It has half
    /// of this owner's share of the lock. Refused as `NoMemory`.
    pub fn dup(&mut self) -> Result<SharedFlow<T>, Refusal>
        ensures other { IfOk result (λ other. other ≡ at_rest (newcomer_of other.party.pass self.old.party)) }
        ensures half { IfOk result (λ _. self.new ≡ record self.old { party = sharing_of self.old.party }) }
        ensures memory { IsOkUnless result Refusal.NoMemory }
        ensures same { IfErr result (λ _. self.new ≡ self.old) }
    {
        let access = self.access.another()?;
        Ok(SharedFlow {
            access,
            marker: PhantomData,
        })
    }

    /// Takes back the half of the share that another owner has, which has made no call: for a call that made one, and then failed.
    /// Without a lock. Kotlin has no such call.
    pub fn take_back(&mut self, other: SharedFlow<T>)
        requires lock { other.party.lock ≡ self.old.party.lock }
        requires half { (half : ℕ) × (other.party.halved ≡ suc half) × (self.old.party.halved ≡ suc half) }
        requires idle { (other.party.rounds ≡ []) × (other.held ≡ None) }
        ensures whole { self.new ≡ record self.old { party = whole_again self.old.party } }
    {
        let SharedFlow { access, marker: _ } = other;
        self.access.take_back(access);
    }

    /// Takes in another owner for good, with its rounds and its share of the lock: who has the whole lock so knows who made each round.
    /// Without a lock. Kotlin has no such call.
    pub fn take_in(&mut self, other: SharedFlow<T>)
        requires lock { other.party.lock ≡ self.old.party.lock }
        requires free { other.held ≡ None }
        ensures taken { self.new ≡ record self.old { party = taking_of other.party self.old.party } }
    {
        let SharedFlow { access, marker: _ } = other;
        self.access.take_in(access);
    }

    /// Ends an emitter of this flow, as [`Emitter::close`] does, and takes it in for good, with its rounds and its share of the lock.
    pub fn close(&mut self, rt: &impl Wait, emitter: Emitter<T>) -> Withdrawn<Receipt>
        requires lock { emitter.party.lock ≡ self.old.party.lock }
        ensures has { (f : Emitting) × IsLeftOf emitter result f × (emitted f ≡ after_cancel result (emitted emitter)) }
        ensures idle { emitter.ticket ≡ None → result ≡ withdrawn.Gone }
        ensures ended { EmitterEndedInto emitter result self.old.party self.new.party }
        ensures same { self.new ≡ record self.old { party = self.new.party } }
        ensures receipt { IfLeft result (IsOwnReceipt emitter.party emitter.id) }
        ensures rises { IfLeft result (λ receipt. IsAfter emitter.last receipt.number) }
    {
        let mut emitter = emitter;
        let withdrawn = emitter.cancel_emit(rt);
        self.access.take_in(emitter.into_access());
        withdrawn
    }

    /// Ends a subscription of this flow, as [`Subscription::cancel`] does, and takes it in for good, with its rounds and its share of
    /// the lock.
    pub fn cancel(&mut self, rt: &impl Wait, subscription: Subscription<T>) -> Met
        requires lock { subscription.party.lock ≡ self.old.party.lock }
        ensures has { IsComplete T.read_as subscription result }
        ensures last { (complete : IsComplete T.read_as subscription result) × IsEndOf subscription result complete.last × (self.new.party ≡ taking_of complete.last.party self.old.party) }
        ensures ended { SubscriptionEndedInto subscription result self.old.party self.new.party }
        ensures same { self.new ≡ record self.old { party = self.new.party } }
    {
        let Ended { access, met } = subscription.end(rt);
        self.access.take_in(access);
        met
    }

    /// An emitter of this flow, whose receipts have this id: in Kotlin, a coroutine that emits into it. It has half of this owner's
    /// share of the lock. Refused as `NoMemory`.
    ///
    /// Two emitters with one id are one emitter in the flow.
    pub fn emitter(&mut self, id: u32) -> Result<Emitter<T>, Refusal>
        ensures flow { IfOk result (λ emitter. emitter.party ≡ newcomer_of emitter.party.pass self.old.party) }
        ensures id { IfOk result (λ emitter. emitter.id ≡ id) }
        ensures idle { IfOk result (λ emitter. emitter.ticket ≡ None) }
        ensures half { IfOk result (λ _. self.new ≡ record self.old { party = sharing_of self.old.party }) }
        ensures memory { IsOkUnless result Refusal.NoMemory }
        ensures same { IfErr result (λ _. self.new ≡ self.old) }
    {
        let access = self.access.another()?;
        Ok(Emitter::new(access, id))
    }

    /// A new subscription, which starts at the oldest value of the replay cache: Kotlin's `collect`, as it begins. It has half of this
    /// owner's share of the lock; refused, the owner has all of that again.
    ///
    /// Refused as `NoMemory`, then as `Spent` where the numbers of subscriptions below 2^62 are used up, then as
    /// `SubscribersFull` where `subscribers` are live.
    pub fn subscribe(&mut self, rt: &impl Wait) -> Result<Subscription<T>, Refusal>
        ensures has { IfOk result (λ subscription. (received T.read_as subscription ≡ []) × (subscription.rest ≡ [])) }
        ensures flow { IfOk result (λ subscription. subscription.party ≡ newcomer_of subscription.party.pass self.old.party) }
        ensures round { IfOk result (λ subscription. self.new ≡ at_rest (with_round (round.Subscribe (Ok subscription.number)) self.new.party.seen (sharing_of self.old.party))) }
        ensures prelude { IfOk result (λ subscription. subscription.rest ≡ []) }
        ensures looks { IfOk result (λ subscription. subscription.looks ≡ []) }
        ensures begins { IfOk result (λ subscription. WasAdmittedBy subscription.number subscription.reader (sharing_of self.old.party) self.new.party) }
        ensures refused { IfErr result (λ refusal. (refusal ≡ NoMemory) ⊎ IsAtLimit refusal) }
        ensures kept { IfErr result (λ refusal. IsLeftOut self.old refusal self.new) }
    {
        self.subscribe_with(rt, Prelude::empty())
    }

    /// A new subscription, which receives the values of its prelude first, and then starts at the oldest value of the replay cache:
    /// Kotlin's `onSubscription`, with values that are known when it subscribes. Refused as `subscribe`.
    pub fn subscribe_with(
        &mut self,
        rt: &impl Wait,
        prelude: Prelude<T>,
    ) -> Result<Subscription<T>, Refusal>
        ensures has { IfOk result (λ subscription. (received T.read_as subscription ≡ [])
            × (subscription.rest ≡ prelude_values prelude)) }
        ensures prelude { IfOk result (λ subscription. subscription.rest ≡ prelude_values prelude) }
        ensures looks { IfOk result (λ subscription. subscription.looks ≡ []) }
        ensures flow { IfOk result (λ subscription. subscription.party ≡ newcomer_of subscription.party.pass self.old.party) }
        ensures round { IfOk result (λ subscription. self.new ≡ at_rest (with_round (round.Subscribe (Ok subscription.number)) self.new.party.seen (sharing_of self.old.party))) }
        ensures begins { IfOk result (λ subscription. WasAdmittedBy subscription.number subscription.reader (sharing_of self.old.party) self.new.party) }
        ensures refused { IfErr result (λ refusal. (refusal ≡ NoMemory) ⊎ IsAtLimit refusal) }
        ensures kept { IfErr result (λ refusal. IsLeftOut self.old refusal self.new) }
    {
        let access = self.access.another()?;
        let mut inside = self.access.enter(rt);
        let NewReader {
            number,
            looker,
            reader,
        } = inside.shared.subscribe();
        match reader {
            Ok(reader) => {
                self.access.leave(inside, Round::Subscribe(Ok(number)));
                Ok(Subscription::new(access, number, prelude, reader, looker))
            }
            Err(refusal) => {
                self.access.leave(inside, Round::Subscribe(Err(refusal)));
                self.access.take_back(access);
                Err(refusal)
            }
        }
    }

    /// Empties the replay cache: Kotlin's `resetReplayCache`. Live subscriptions keep what they have pending.
    pub fn reset_replay(&mut self, rt: &impl Wait)
        ensures round { self.new ≡ at_rest (with_round round.Reset self.new.party.seen self.old.party) }
        ensures made { Made round.Reset self.old.party self.new.party }
    {
        let mut inside = self.access.enter(rt);
        inside.shared.reset_replay();
        self.access.leave(inside, Round::Reset);
    }

    /// Adds the replay cache to `out`, the oldest value first: Kotlin's `replayCache`. Refused as `NoMemory`, and then `out` is
    /// as it was.
    pub fn replay_cache_into(&mut self, rt: &impl Wait, out: &mut Vec<T>) -> Result<(), Refusal>
        ensures memory { IsOkUnless result Refusal.NoMemory }
        ensures ok { OnOk result (AddsCache T.read_as self.old out.old.items self.new out.new.items) }
        ensures err { OnErr result (out.new.items ≡ out.old.items) }
        ensures unread { OnErr result (self.new ≡ at_rest (with_round (round.Cache (Err NoMemory)) self.new.party.seen self.old.party)) }
        ensures unmade { OnErr result (Made (round.Cache (Err NoMemory)) self.old.party self.new.party) }
    {
        let mut inside = self.access.enter(rt);
        match inside.shared.replay_cache_into(out) {
            Ok(()) => {
                self.access.leave_cache(inside);
                Ok(())
            }
            Err(refusal) => {
                self.access.leave(inside, Round::Cache(Err(refusal)));
                Err(refusal)
            }
        }
    }

    /// Takes the lock, tells a subscription of this flow all that was accepted and all that was dropped for it, and counts it
    /// exactly: `accepted - received - dropped` values were pending then. Those of its prelude aren't counted. It has heard of all
    /// rounds so far. Kotlin has no such call.
    pub fn meet(&mut self, rt: &impl Wait, subscription: &mut Subscription<T>) -> Met
        requires lock { subscription.old.party.lock ≡ self.old.party.lock }
        requires flow { subscription.old.party.flow ≡ self.old.party.flow }
        ensures has { received T.read_as subscription.new ≡ received T.read_as subscription.old }
        ensures prelude { IsSamePrelude subscription.old subscription.new }
        ensures meets { Meets self.old.party self.new.party subscription.old subscription.new result }
        ensures owner { self.new ≡ at_rest self.new.party }
    {
        let mut held = self.hold(rt);
        held.tell_subscription(subscription);
        let met = held.meet(subscription);
        held.release();
        met
    }

    /// How many subscriptions were live while the lock was held: Kotlin's `subscriptionCount`, as a plain number.
    pub fn subscription_count(&mut self, rt: &impl Wait) -> u32
        ensures round { self.new ≡ at_rest (with_round (round.Count result) self.new.party.seen self.old.party) }
        ensures made { Made (round.Count result) self.old.party self.new.party }
    {
        let mut inside = self.access.enter(rt);
        let count = inside.shared.subscription_count();
        self.access.leave(inside, Round::Count(count));
        count
    }
}
