//! A flow that threads share.
ghost use Rattle.std.specs.Prelude.{◌≡◌, ℕ, None, Some, IfOk, IfErr, IsOkUnless, ◌⊎◌};
ghost use Rattle.flow_terms.specs.declared.refusal.Refusal.TheVariants as refusal;
ghost use Rattle.round_lock.specs.Locking.{Locking};
ghost use Rattle.round_lock.specs.History.{newcomer, another, sharing, taking};
ghost use Rattle.value_flows.specs.declared.ring.Ring.{Ring};
ghost use Rattle.value_flows.specs.declared.round.Round.{Round};
ghost use Rattle.value_flows.specs.declared.round.Round.TheVariants as round;
ghost use Rattle.value_flows.specs.Making.{making_refusal};
ghost use Rattle.value_flows.specs.Does.{IsMadeWith};
ghost use Rattle.value_flows.specs.Calls.{Makes, Opens, WasFull};
ghost use Rattle.value_flows.specs.Emitting.{Emits, Tries, TriesOnce};

use crate::bells::Bells;
use crate::boxed::BoxedRing;
use crate::config::Config;
use crate::received::{Emitted, Offered, Tried};
use crate::round::Round;
use crate::rounds::{begin, enter, offer};
use crate::subscription::Subscription;
use flow_terms::Refusal;
use round_lock::Lock;
use std::alloc::{AllocError, Global};
use std::marker::Model;
use std::sync::Wait;

/// One owner of a shared flow: Kotlin's `MutableSharedFlow` of any type. It emits, and subscriptions are had of it. One thread at a time
/// uses an owner; another gets one by [`dup`](ValueFlow::dup). Each value is let go as a later one needs its place, or with the last
/// owner and subscription.
///
/// A call with `rt` takes the flow's lock, and may wait for it. Contracts see which flow it is, the owner's number, the calls that it
/// made, and the one list of all calls as far as it has seen it; `accepted` is the list of the values.
pub struct ValueFlow<T: Drop> {
    lock: Lock<BoxedRing<T>, Round>,
    bells: Bells,
}

impl<T: Drop> Model for ValueFlow<T> {
    ghost use Rattle.round_lock.specs.Locking.{Locking};
    ghost use Rattle.value_flows.specs.declared.round.Round.{Round};
    ghost use Rattle.value_flows.specs.declared.ring.Ring.{Ring};

    ghost Value = { Locking (Ring T) Round };

    ghost view = { λ f. f.lock };
}

// By hand: who lets one go proves this call alone, and nothing of what it is made of.
impl<T: Drop> Drop for ValueFlow<T> {
    fn drop(self) {
        let ValueFlow { lock, bells } = self;
        drop(lock);
        drop(bells);
    }
}

impl<T: Drop> ValueFlow<T> {
    /// Makes a flow that has accepted nothing: `MutableSharedFlow(replay, extraBufferCapacity, onBufferOverflow)`. It has the
    /// memory for all the values that it will keep; what a value itself points to comes with it.
    ///
    /// Refused as [`Config::refusal`] says, else by want of memory alone.
    pub fn new(alloc: Global, config: &Config) -> Result<ValueFlow<T>, Refusal>
        ensures refused { (refusal : _) → making_refusal config.now ≡ Some refusal → result ≡ Err refusal }
        ensures memory { making_refusal config.now ≡ None → IsOkUnless result refusal.NoMemory }
        ensures made { IfOk result (λ flow. (ring : Ring T) × IsMadeWith config.now ring × (flow.log ≡ newcomer ring)) }
    {
        if let Some(refusal) = config.refusal() {
            return Err(refusal);
        }
        let bells = Bells::new(alloc)?;
        let ring = BoxedRing::new(alloc, config)?;
        let lock = Lock::new(alloc, ring)?;
        Ok(ValueFlow { lock, bells })
    }

    pub(crate) fn over(lock: Lock<BoxedRing<T>, Round>, bells: Bells) -> ValueFlow<T>
        ensures { result ≡ lock }
    {
        ValueFlow { lock, bells }
    }

    /// Another owner of the same flow, which has made no call and has seen as much: in Kotlin, a second reference to it. It has half of
    /// this owner's share of the lock. It takes no memory, and is refused only where there are as many as a counter can tell apart.
    pub fn dup(&mut self) -> Result<ValueFlow<T>, AllocError>
        ensures other { IfOk result (λ other. (other.log ≡ another self.old.log) × (other.place ≡ self.old.place)) }
        ensures half { IfOk result (λ _. self.new ≡ record self.old { log = sharing self.old.log }) }
        ensures same { IfErr result (λ _. self.new ≡ self.old) }
    {
        let bells = self.bells.shared()?;
        let lock = self.lock.dup()?;
        Ok(ValueFlow { lock, bells })
    }

    /// Takes in another owner for good, with its calls and its share of the lock: who has the whole lock so knows who made each call.
    /// Without a lock. Kotlin has no such call.
    pub fn take_in(&mut self, other: ValueFlow<T>)
        requires flow { other.place ≡ self.old.place }
        requires free { other.log.held ≡ None }
        ensures taken { self.new ≡ record self.old { log = taking other.pass self.old.log other.log } }
    {
        let ValueFlow { lock, bells } = other;
        self.lock.take_in(lock);
        drop(bells);
    }

    /// Emits a value where that can be done at once, and wakes the subscriptions that sleep: Kotlin's `tryEmit`. Under `DropOldest` it
    /// always is: where there is no free place the oldest value is let go, once the lock is free, and who has still to receive that one
    /// is told so. Under the other policies it is only where each subscription has a place free; else it is `Full`, or `Dropped`. It
    /// never answers `Stopped`.
    ///
    /// It takes no memory. That a wake arrives isn't claimed.
    pub fn try_emit(&mut self, rt: &impl Wait, value: T) -> Emitted<T>
        ensures { Tries value self.old result self.new }
    {
        match offer(&mut self.lock, rt, value) {
            Offered::Accepted(number, old) => {
                self.bells.news.ring();
                drop(old);
                Emitted::Accepted(number)
            }
            Offered::Dropped(value) => Emitted::Dropped(value),
            Offered::Full(value) => Emitted::Full(value),
        }
    }

    /// Emits a value as [`try_emit`](ValueFlow::try_emit) does, and sleeps where it would have to wait, until each subscription has a
    /// place free: Kotlin's `emit`. `Stopped` where all were let go, by [`stop`](ValueFlow::stop), and there is no room. It never answers
    /// `Full`.
    ///
    /// Who waits tries again each time that one receives: of several that wait, any may be the next. That a wake arrives isn't claimed.
    pub fn emit(&mut self, rt: &impl Wait, value: T) -> Emitted<T>
        ensures { Emits value self.old result self.new }
    {
        match self.try_emit(rt, value) {
            Emitted::Full(value) => {
                self.bells.room.lie_down();
                let emitted = self.wait(rt, value);
                self.bells.room.rise();
                emitted
            }
            Emitted::Accepted(number) => Emitted::Accepted(number),
            Emitted::Dropped(value) => Emitted::Dropped(value),
            Emitted::Stopped(value) => Emitted::Stopped(value),
        }
    }

    // Sleeps until there is room for the value, or it was let go. The emission has to be counted as a sleeper.
    fn wait(&mut self, rt: &impl Wait, value: T) -> Emitted<T>
        ensures { Emits value self.old result self.new }
    {
        let mut waiting = value;
        for _ in rt.forever() {
            match self.attempt(rt, waiting) {
                Tried::Over(emitted) => return emitted,
                Tried::Asleep(turn, back) => {
                    waiting = back;
                    self.bells.room.sleep(rt, turn);
                }
            }
        }
        unreachable!()
    }

    // One turn of a wait: tries, and says on which turn to sleep where there is no room.
    fn attempt(&mut self, rt: &impl Wait, value: T) -> Tried<T>
        ensures { TriesOnce value self.old result self.new }
    {
        // Both are loaded before the ring: a ring of the bell after that is seen by the turn.
        let turn = self.bells.room.turn();
        let is_stopped = self.is_stopped();
        match self.try_emit(rt, value) {
            Emitted::Full(value) => {
                if is_stopped {
                    return Tried::Over(Emitted::Stopped(value));
                }
                Tried::Asleep(turn, value)
            }
            Emitted::Accepted(number) => Tried::Over(Emitted::Accepted(number)),
            Emitted::Dropped(value) => Tried::Over(Emitted::Dropped(value)),
            Emitted::Stopped(value) => Tried::Over(Emitted::Stopped(value)),
        }
    }

    /// A subscription, which begins with the replay cache: Kotlin's `collect` begins so. It is one more owner, as by
    /// [`dup`](ValueFlow::dup), and takes no memory. It has no `Drop`: it is ended by [`cancel`](Subscription::cancel), since under
    /// `Suspend` emissions wait for it until then.
    ///
    /// Refused as `SubscribersFull` where as many are live as the flow was made for, and else only where there are as many owners as a
    /// counter can tell apart.
    pub fn subscribe(&mut self, rt: &impl Wait) -> Result<Subscription<T>, Refusal>
        ensures other { IfOk result (λ s. (fresh : Locking (Ring T) Round) × (fresh.log ≡ another self.old.log) × (fresh.place ≡ self.old.place) × (place : ℕ) × (start : ℕ) × Opens fresh place start s) }
        ensures half { IfOk result (λ _. self.new ≡ record self.old { log = sharing self.old.log }) }
        ensures refused { IfErr result (λ refused. ((refused ≡ refusal.NoMemory) × (self.new ≡ self.old)) ⊎ ((refused ≡ refusal.SubscribersFull) × (self.new ≡ record self.old { log = sharing self.old.log }) × WasFull self.old)) }
    {
        let bells = self.bells.shared()?;
        let mut lock = self.lock.dup()?;
        let Some((place, start)) = begin(&mut lock, rt) else {
            return Err(Refusal::SubscribersFull);
        };
        Ok(Subscription::over(lock, bells, place, start))
    }

    /// Empties the replay cache: Kotlin's `resetReplayCache`. What subscriptions have pending stays.
    pub fn reset_replay(&mut self, rt: &impl Wait)
        ensures { Makes round.Forget (λ ring. record ring { forgotten = ring.next }) self.old self.new }
    {
        let mut guarded = enter(&mut self.lock, rt);
        guarded.state.forget();
        self.lock.put(guarded, Round::Forget);
    }

    /// From now on who waits on this flow is let go, and who will: each subscription is answered `Stopped` once it was given what was
    /// emitted before, and each emission for which there is no room. In Kotlin the scope of the coroutines that collect is cancelled. It is for good; values can be emitted and asked
    /// for as ever, and to stop once more does nothing. One subscription alone is let go by a [`Stopper`](crate::Stopper).
    ///
    /// It takes no lock and no memory. That a wake arrives isn't claimed.
    pub fn stop(&self) {
        self.bells.news.let_go();
        self.bells.room.let_go();
    }

    /// Whether who waits on this flow is let go.
    pub fn is_stopped(&self) -> bool {
        self.bells.news.is_let_go()
    }
}
