//! A subscription to a flow, which sleeps until there is another value.
ghost use Rattle.std.specs.Prelude.{◌≡◌, ◌+◌, ◌<◌, ℕ, None, Ok, Err, IfOk, IfErr, MatchResult, MatchOption};
ghost use Rattle.value_flows.specs.Receiving.{AfterNone, Comes, ComesTo, Ends, FindsNone, FoundNoneOn, Gives, Keeps, LeavesIt, Looks, Takes};
ghost use Rattle.value_flows.specs.Waits.{Asks, Awaits, AwaitsWithin, Fails, FailsLate};

use crate::bells::Bells;
use crate::boxed::BoxedRing;
use crate::flow::ValueFlow;
use crate::received::{Attempt, Awaited, Looked, Received};
use crate::ring::Standing;
use crate::round::Round;
use crate::rounds::{enter, leave};
use round_lock::{Guarded, Lock};
use state_bell::{LOOKS, Limit, Stopper, pause};
use std::alloc::{AllocError, Global};
use std::marker::Model;
use std::sync::Wait;
use std::time::{Clock, Duration};

/// A subscription to a flow: what runs inside Kotlin's `collect`, where it suspends. It is one more owner of the flow. It receives each
/// value that the flow accepted from its start on, in order and once, less those that it is told it missed. It has no `Drop`: it is ended
/// by [`cancel`](Subscription::cancel).
///
/// Contracts see what they see of a [`ValueFlow`](crate::ValueFlow).
pub struct Subscription<T: Drop> {
    lock: Lock<BoxedRing<T>, Round>,
    bells: Bells,
    // Its place under the lock.
    place: usize,
    // The number of its next value.
    next: u64,
    // Who lets go this subscription alone, where anybody may.
    stopper: Option<Stopper>,
}

impl<T: Drop> Model for Subscription<T> {
    ghost use Rattle.round_lock.specs.Locking.{Locking};
    ghost use Rattle.value_flows.specs.declared.round.Round.{Round};
    ghost use Rattle.value_flows.specs.declared.ring.Ring.{Ring};
    ghost use Rattle.value_flows.specs.Receiving.{Keeps};

    ghost Value = { Locking (Ring T) Round };

    ghost view = { λ s. s.lock };

    ghost invariant = { λ s. Keeps s.lock s.place s.next };
}

impl<T: Drop> Subscription<T> {
    pub(crate) fn over(
        lock: Lock<BoxedRing<T>, Round>,
        bells: Bells,
        place: usize,
        start: u64,
    ) -> Subscription<T>
        requires { Keeps lock place start }
        ensures { result ≡ lock }
    {
        Subscription {
            lock,
            bells,
            place,
            next: start,
            stopper: None,
        }
    }

    /// Receives a clone of the next value where that was accepted, and never answers `Stopped`. Kotlin has no such call: there `collect`
    /// suspends where this answers `Nothing`.
    ///
    /// It fails where the clone does: then the value wasn't received, and the next ask finds it again. The flow's lock is held while the
    /// clone is made: a value that is wide goes in an `Arc`.
    pub fn try_next(&mut self, rt: &impl Wait) -> Result<Received<T>, AllocError>
    where
        T: Clone,
        ensures { MatchResult result (λ received. Asks T.is_clone self.old received self.new) (λ _. Fails (λ (value : T). ¬ T.is_infallible value) self.old self.new) }
    {
        match self.look(rt) {
            Looked::There(guarded) => match self.give_clone(guarded) {
                Ok(answer) => Ok(Received::Value(answer)),
                Err(refused) => Err(refused),
            },
            Looked::Missed(count) => Ok(Received::Missed(count)),
            Looked::Nothing => Ok(Received::Nothing),
        }
    }

    /// Receives a clone of the next value, for which the thread sleeps where it isn't accepted yet: one turn of Kotlin's `collect`.
    /// `Stopped` where all were let go, by [`ValueFlow::stop`](crate::ValueFlow::stop), or it alone, by a [`Stopper`], and there is none:
    /// what was emitted before the stop is received first. It never answers `Nothing`, and fails as [`try_next`](Subscription::try_next)
    /// does.
    ///
    /// That a wake arrives, by any time, isn't claimed.
    pub fn next(&mut self, rt: &impl Wait) -> Result<Received<T>, AllocError>
    where
        T: Clone,
        ensures { MatchResult result (λ received. Awaits T.is_clone self.old received self.new) (λ _. FailsLate (λ (value : T). ¬ T.is_infallible value) self.old self.new) }
    {
        let awaited = self.awaited(rt);
        self.received(awaited)
    }

    /// The same, for no longer than `limit`, and then `Nothing`: Kotlin's `withTimeoutOrNull(limit) { .. }` around that turn. The time
    /// begins to run once the subscription has found nothing a few times; where the clock can't be read it counts as up. That it ends
    /// then isn't claimed.
    pub fn next_within<R: Wait + Clock>(
        &mut self,
        rt: &R,
        limit: Duration,
    ) -> Result<Received<T>, AllocError>
    where
        T: Clone,
        ensures { MatchResult result (λ received. AwaitsWithin T.is_clone self.old received self.new) (λ _. FailsLate (λ (value : T). ¬ T.is_infallible value) self.old self.new) }
    {
        match self.awaited_within(rt, limit) {
            Some(awaited) => self.received(awaited),
            None => Ok(Received::Nothing),
        }
    }

    /// Who lets go this subscription, and none beside it, from any thread: Kotlin's `Job` of a coroutine that collects. Each one that it
    /// is asked for does the same, and so does each clone.
    ///
    /// The first takes memory; a further one is refused only where it can't be counted.
    pub fn stopper(&mut self, alloc: Global) -> Result<Stopper, AllocError>
        ensures { self.new ≡ self.old }
    {
        if let Some(stopper) = &self.stopper {
            return stopper.clone();
        }
        let stopper = Stopper::new(alloc, &self.bells.news)?;
        self.stopper = Some(stopper.clone()?);
        Ok(stopper)
    }

    /// Whether this subscription is let go: by a stop of all, or alone.
    pub fn is_stopped(&self) -> bool {
        self.bells.news.is_let_go() || self.is_stopped_alone()
    }

    /// Ends the subscription, and gives up what it has pending: Kotlin's `collect`, cancelled. Its place is free then, and emissions that
    /// wait for it go on. It gives the owner back that it was, with the calls that it made.
    pub fn cancel(self, rt: &impl Wait) -> ValueFlow<T>
        ensures { Ends self result }
    {
        let Subscription {
            mut lock,
            bells,
            place,
            next: _,
            stopper,
        } = self;
        drop(stopper);
        end(&mut lock, rt, place);
        bells.room.ring();
        ValueFlow::over(lock, bells)
    }

    // Whether a stopper of its own was used.
    fn is_stopped_alone(&self) -> bool {
        match &self.stopper {
            Some(stopper) => stopper.is_stopped(),
            None => false,
        }
    }

    // Asks once.
    fn look(&mut self, rt: &impl Wait) -> Looked<T>
        ensures { Looks self.old result self.new }
    {
        find(&mut self.lock, rt, &self.bells, self.place, &mut self.next)
    }

    // Waits until there is something to answer, or it was let go.
    fn awaited(&mut self, rt: &impl Wait) -> Awaited<T>
        ensures { ComesTo self.old result self.new }
    {
        if let Some(awaited) = self.look_on(rt) {
            return awaited;
        }
        self.bells.news.lie_down();
        let awaited = self.wait(rt);
        self.bells.news.rise();
        awaited
    }

    // The same, for no longer than `limit`.
    fn awaited_within<R: Wait + Clock>(&mut self, rt: &R, limit: Duration) -> Option<Awaited<T>>
        ensures { MatchOption result (AfterNone FindsNone self.old self.new) (λ awaited. ComesTo self.old awaited self.new) }
    {
        if let Some(awaited) = self.look_on(rt) {
            return Some(awaited);
        }
        let limit = Limit::from_now(rt, limit);
        self.bells.news.lie_down();
        let awaited = self.wait_within(rt, &limit);
        self.bells.news.rise();
        awaited
    }

    // Asks a few times, until there is something.
    fn look_on(&mut self, rt: &impl Wait) -> Option<Awaited<T>>
        ensures { MatchOption result (FoundNoneOn self.old self.new) (λ awaited. ComesTo self.old awaited self.new) }
    {
        for _ in 0..LOOKS {
            match self.look(rt) {
                Looked::There(guarded) => return Some(Awaited::There(guarded)),
                Looked::Missed(count) => return Some(Awaited::Missed(count)),
                Looked::Nothing => pause(),
            }
        }
        None
    }

    // Sleeps until there is something, or it was let go. The subscription has to be counted as a sleeper.
    fn wait(&mut self, rt: &impl Wait) -> Awaited<T>
        ensures { ComesTo self.old result self.new }
    {
        for _ in rt.forever() {
            match self.attempt(rt) {
                Attempt::Over(awaited) => return awaited,
                Attempt::Asleep(turn) => self.bells.news.sleep(rt, turn),
            }
        }
        unreachable!()
    }

    // Sleeps so too, for no longer than the time that is left.
    fn wait_within<R: Wait + Clock>(&mut self, rt: &R, limit: &Limit) -> Option<Awaited<T>>
        ensures { MatchOption result (AfterNone FindsNone self.old self.new) (λ awaited. ComesTo self.old awaited self.new) }
    {
        for _ in rt.forever() {
            let left = limit.left(rt);
            match self.attempt(rt) {
                Attempt::Over(awaited) => return Some(awaited),
                Attempt::Asleep(_) if left.is_zero() => return None,
                Attempt::Asleep(turn) => self.bells.news.sleep_for(rt, turn, left),
            }
        }
        unreachable!()
    }

    // One turn of a wait: asks, and says on which turn to sleep where there is nothing.
    fn attempt(&mut self, rt: &impl Wait) -> Attempt<T>
        ensures { Comes self.old result self.new }
    {
        // Both are loaded before the ring: a ring of the bell after that is seen by the turn, and what was emitted before the stop is
        // received first.
        let turn = self.bells.news.turn();
        let is_stopped = self.is_stopped();
        match self.look(rt) {
            Looked::There(guarded) => Attempt::Over(Awaited::There(guarded)),
            Looked::Missed(count) => Attempt::Over(Awaited::Missed(count)),
            Looked::Nothing => {
                if is_stopped {
                    return Attempt::Over(Awaited::Stopped);
                }
                Attempt::Asleep(turn)
            }
        }
    }

    // Answers what a wait came to.
    fn received(&mut self, awaited: Awaited<T>) -> Result<Received<T>, AllocError>
    where
        T: Clone,
        requires { (before : _) × ComesTo before awaited self.old }
        ensures { (before : _) → ComesTo before awaited self.old → MatchResult result (λ received. Awaits T.is_clone before received self.new) (λ _. FailsLate (λ (value : T). ¬ T.is_infallible value) before self.new) }
    {
        match awaited {
            Awaited::There(guarded) => match self.give_clone(guarded) {
                Ok(answer) => Ok(Received::Value(answer)),
                Err(refused) => Err(refused),
            },
            Awaited::Missed(count) => Ok(Received::Missed(count)),
            Awaited::Stopped => Ok(Received::Stopped),
        }
    }

    // Gives a clone of the value that the lock was taken for, and gives the lock up. Where there is no memory for the clone the value
    // wasn't given.
    fn give_clone(&mut self, guarded: Guarded<BoxedRing<T>>) -> Result<T, AllocError>
    where
        T: Clone,
        requires { (before : _) × (value : T) × Takes before guarded.state value self.old }
        ensures given { IfOk result (λ answer. (before : _) → (value : T) → Takes before guarded.state value self.old → Gives before value self.new × T.is_clone value answer) }
        ensures refused { IfErr result (λ _. (before : _) → (value : T) → Takes before guarded.state value self.old → LeavesIt before value self.new × ¬ T.is_infallible value) }
    {
        match guarded.state.value(self.next).clone() {
            Ok(answer) => {
                self.give(guarded);
                Ok(answer)
            }
            Err(refused) => {
                self.pass(guarded);
                Err(refused)
            }
        }
    }

    // Gives the lock up, with the value that it was taken for as received.
    fn give(&mut self, mut guarded: Guarded<BoxedRing<T>>)
        requires { (before : _) × (value : T) × Takes before guarded.state value self.old }
        ensures { (before : _) → (value : T) → Takes before guarded.state value self.old → Gives before value self.new }
    {
        let number = self.next;
        let end = guarded.state.next();
        let next = number_within(number, end);
        guarded.state.move_to(self.place, Some(next));
        self.lock
            .put(guarded, Round::Give(self.place as u64, number));
        self.next = next;
        self.bells.room.ring();
    }

    // Gives the lock up, with the value that it was taken for as not received.
    fn pass(&mut self, guarded: Guarded<BoxedRing<T>>)
        requires { (before : _) × (value : T) × Takes before guarded.state value self.old }
        ensures { (before : _) → (value : T) → Takes before guarded.state value self.old → LeavesIt before value self.new }
    {
        leave(&mut self.lock, guarded);
    }
}

/// The number after one that is below another.
fn number_within(number: u64, end: u64) -> u64
    requires { number < end }
    ensures { result ≡ number + 1 }
{
    number + 1
}

/// Asks once: takes the lock where the next value is kept, else gives it up. Who missed values goes on with the oldest that is kept, and
/// wakes the emissions that wait for room.
fn find<T: Drop>(
    lock: &mut Lock<BoxedRing<T>, Round>,
    rt: &impl Wait,
    bells: &Bells,
    place: usize,
    next: &mut u64,
) -> Looked<T>
    requires { Keeps lock.old place next.old }
    ensures looks { Looks lock.old result lock.new }
    ensures keeps { Keeps lock.new place next.new }
{
    let mut guarded = enter(lock, rt);
    match guarded.state.standing(*next) {
        Standing::There => Looked::There(guarded),
        Standing::Behind(count) => {
            let from = *next;
            let oldest = guarded.state.oldest();
            *next = oldest;
            guarded.state.move_to(place, Some(oldest));
            lock.put(guarded, Round::Miss(place as u64, from, count));
            bells.room.ring();
            Looked::Missed(count)
        }
        Standing::Nothing => {
            leave(lock, guarded);
            Looked::Nothing
        }
    }
}

/// Frees the place of a subscription.
fn end<T: Drop>(lock: &mut Lock<BoxedRing<T>, Round>, rt: &impl Wait, place: usize)
    requires { (next : ℕ) × Keeps lock.old place next }
    ensures { Ends lock.old lock.new }
{
    let mut guarded = enter(lock, rt);
    guarded.state.move_to(place, None);
    lock.put(guarded, Round::End(place as u64));
}
