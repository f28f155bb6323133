//! A watcher of a state, which sleeps until there is another value.
ghost use Rattle.std.specs.Prelude.{◌≡◌, [], Some, None, Ok, Err, IfOk, IfErr, IfSome, IfNone, IsTrue, ◌↔◌, MatchResult, MatchOption};
ghost use Rattle.std.specs.Fn.{FnOnceReturnsAt};
ghost use Rattle.round_lock.specs.History.{another};
ghost use Rattle.value_states.specs.Calls.{Holds, Reads};
ghost use Rattle.value_states.specs.Watching.{AwaitsNothing, AwaitsValue, Comes, Gives, IsNewer, Keeps, Misses, MissedOn, Takes, ComesTo};
ghost use Rattle.value_states.specs.Waits.{Awaits, AwaitsWithin, FailsLate};

use crate::collected::{Attempt, Awaited, Collected};
use crate::round::Round;
use crate::rounds::{enter, leave, shown};
use crate::state::ValueState;
use crate::versioned::Versioned;
use round_lock::{Guarded, Lock};
use state_bell::{Bell, LOOKS, Limit, Stopper, pause};
use std::alloc::{AllocError, Global};
use std::marker::Model;
use std::sync::{Arc, Wait};
use std::time::{Clock, Duration};

/// A watcher of a state: what runs inside Kotlin's `collect`, where it suspends. It is one more owner of the state. The versions of
/// what it is given, over all its asks, rise; and each is a place in the history, so what it is given is a subsequence of that.
///
/// Contracts see what they see of a [`ValueState`].
pub struct Watcher<T: Drop> {
    lock: Lock<Versioned<T>, Round>,
    bell: Arc<Bell>,
    // The version that it was given last.
    latest: Option<u64>,
    // Who lets go this watcher alone, where anybody may.
    stopper: Option<Stopper>,
}

impl<T: Drop> Model for Watcher<T> {
    ghost use Rattle.round_lock.specs.Locking.{Locking};
    ghost use Rattle.value_states.specs.declared.round.Round.{Round};
    ghost use Rattle.value_states.specs.declared.versioned.Versioned.{Versioned};
    ghost use Rattle.value_states.specs.Watching.{Keeps};

    ghost Value = { Locking (Versioned T) Round };

    ghost view = { λ w. w.lock };

    ghost invariant = { λ w. Keeps w.lock w.latest };
}

// By hand: who lets one go proves this call alone, and nothing of what it is made of.
impl<T: Drop> Drop for Watcher<T> {
    fn drop(self) {
        let Watcher {
            lock,
            bell,
            latest: _,
            stopper,
        } = self;
        drop(lock);
        drop(bell);
        drop(stopper);
    }
}

impl<T: Drop> Watcher<T> {
    pub(crate) fn over(lock: Lock<Versioned<T>, Round>, bell: Arc<Bell>) -> Watcher<T>
        requires { lock.log.own ≡ [] }
        ensures { result ≡ lock }
    {
        Watcher {
            lock,
            bell,
            latest: None,
            stopper: None,
        }
    }

    /// Calls a function with the value where that is a later one than the last that this watcher was given, else with nothing. The
    /// first ask gives the value that is there. Kotlin has no such call: there `collect` suspends where this answers `None`.
    ///
    /// The state's lock is held meanwhile: a function that uses the same state waits for ever.
    pub fn try_read_next<R, F: FnOnce(&T) -> R>(&mut self, rt: &impl Wait, reader: F) -> Option<R>
        requires { F.IsAlwaysCallable reader }
        ensures given { IfSome result (λ answer. (value : T) × Gives self.old value self.new × FnOnceReturnsAt F.FnOnce reader value answer) }
        ensures missed { IfNone result (Misses self.old self.new) }
    {
        match self.news(rt) {
            Some(guarded) => {
                let answer = shown(&guarded.state.value, reader);
                self.give(guarded);
                Some(answer)
            }
            None => None,
        }
    }

    // Takes the lock where there is a value that this watcher wasn't given; else it asked for nothing.
    fn news(&mut self, rt: &impl Wait) -> Option<Guarded<Versioned<T>>>
        ensures taken { IfSome result (λ guarded. Takes self.old guarded.state self.new) }
        ensures missed { IfNone result (Misses self.old self.new) }
    {
        find(&mut self.lock, rt, self.latest)
    }

    /// Gives a clone of the value where [`try_read_next`](Watcher::try_read_next) gives one. It fails where the clone does: then the
    /// value wasn't given, and the next ask finds it again.
    pub fn try_next(&mut self, rt: &impl Wait) -> Result<Option<T>, AllocError>
    where
        T: Clone,
        ensures given { IfOk result (λ given. MatchOption given (Misses self.old self.new) (λ answer. (value : T) × Gives self.old value self.new × T.is_clone value answer)) }
        ensures refused { IfErr result (λ _. (value : T) × Reads self.old value self.new × ¬ T.is_infallible value) }
    {
        match self.news(rt) {
            Some(guarded) => Ok(Some(self.give_clone(guarded)?)),
            None => Ok(None),
        }
    }

    /// Calls a function with the value once that is a later one than the last that this watcher was given, for which the thread sleeps:
    /// one turn of Kotlin's `collect`. `Stopped` where all were let go, by [`ValueState::stop`], or it alone, by a [`Stopper`], and there
    /// is nothing new: what was set before the stop is given first.
    ///
    /// The state's lock is held while the function runs: one that uses the same state waits for ever. That a wake arrives, by any time,
    /// isn't claimed.
    pub fn read_next<R, F: FnOnce(&T) -> R>(&mut self, rt: &impl Wait, reader: F) -> Collected<R>
        requires { F.IsAlwaysCallable reader }
        ensures { Awaits (FnOnceReturnsAt F.FnOnce reader) self.old result self.new }
    {
        match self.awaited(rt) {
            Awaited::News(guarded) => {
                let answer = shown(&guarded.state.value, reader);
                self.give(guarded);
                Collected::Value(answer)
            }
            Awaited::Stopped => Collected::Stopped,
        }
    }

    /// Waits as [`read_next`](Watcher::read_next) does, and gives a clone of the value. It fails where the clone does: then the value
    /// wasn't given, and the next ask finds it again.
    pub fn next(&mut self, rt: &impl Wait) -> Result<Collected<T>, AllocError>
    where
        T: Clone,
        ensures { MatchResult result (λ collected. Awaits T.is_clone self.old collected self.new) (λ _. FailsLate (λ (value : T). ¬ T.is_infallible value) self.old self.new) }
    {
        let outcome = self.awaited(rt);
        self.collected(outcome)
    }

    /// The same, for no longer than `limit`, and then nothing: Kotlin's `withTimeoutOrNull(limit) { .. }` around that turn. The time
    /// begins to run once the watcher has found nothing a few times; where the clock can't be read it counts as up. That it ends then
    /// isn't claimed.
    pub fn next_within<R: Wait + Clock>(
        &mut self,
        rt: &R,
        limit: Duration,
    ) -> Result<Option<Collected<T>>, AllocError>
    where
        T: Clone,
        ensures { MatchResult result (λ collected. AwaitsWithin T.is_clone self.old collected self.new) (λ _. FailsLate (λ (value : T). ¬ T.is_infallible value) self.old self.new) }
    {
        match self.awaited_within(rt, limit) {
            Some(awaited) => Ok(Some(self.collected(awaited)?)),
            None => Ok(None),
        }
    }

    /// Who lets go this watcher, and none beside it, from any thread: Kotlin's `Job` of a coroutine that collects. Each one that it is
    /// asked for does the same, and so does each clone.
    ///
    /// The first takes memory; a further one is refused only where it can't be counted.
    pub fn stopper(&mut self, alloc: Global) -> Result<Stopper, AllocError>
        ensures { self.new ≡ self.old }
    {
        if let Some(stopper) = &self.stopper {
            return stopper.clone();
        }
        let stopper = Stopper::new(alloc, &self.bell)?;
        self.stopper = Some(stopper.clone()?);
        Ok(stopper)
    }

    /// Whether this watcher is let go: by a stop of all, or alone.
    pub fn is_stopped(&self) -> bool {
        self.bell.is_let_go() || self.is_stopped_alone()
    }

    // Whether a stopper of its own was used.
    fn is_stopped_alone(&self) -> bool {
        match &self.stopper {
            Some(stopper) => stopper.is_stopped(),
            None => false,
        }
    }

    /// Ends the watching, and gives the owner back, with the calls that it made.
    pub fn cancel(self) -> ValueState<T>
        ensures { result ≡ self }
    {
        let Watcher {
            lock,
            bell,
            latest: _,
            stopper,
        } = self;
        drop(stopper);
        ValueState::over(lock, bell)
    }

    // Waits until there is a value that this watcher wasn't given, and has the lock then; or it was let go.
    fn awaited(&mut self, rt: &impl Wait) -> Awaited<T>
        ensures { ComesTo self.old result self.new }
    {
        if let Some(guarded) = self.look_on(rt) {
            return Awaited::News(guarded);
        }
        self.bell.lie_down();
        let awaited = self.wait(rt);
        self.bell.rise();
        awaited
    }

    // The same, for no longer than `limit`.
    fn awaited_within<R: Wait + Clock>(&mut self, rt: &R, limit: Duration) -> Option<Awaited<T>>
        ensures { MatchOption result (AwaitsNothing self.old self.new) (λ awaited. ComesTo self.old awaited self.new) }
    {
        if let Some(guarded) = self.look_on(rt) {
            return Some(Awaited::News(guarded));
        }
        let limit = Limit::from_now(rt, limit);
        self.bell.lie_down();
        let awaited = self.wait_within(rt, &limit);
        self.bell.rise();
        awaited
    }

    // Asks a few times, until there is a value.
    fn look_on(&mut self, rt: &impl Wait) -> Option<Guarded<Versioned<T>>>
        ensures { MatchOption result (MissedOn self.old self.new) (λ guarded. ComesTo self.old (Awaited.News guarded) self.new) }
    {
        for _ in 0..LOOKS {
            if let Some(guarded) = self.news(rt) {
                return Some(guarded);
            }
            pause();
        }
        None
    }

    // Sleeps until there is a value, or it was let go. The watcher has to be counted as a sleeper.
    fn wait(&mut self, rt: &impl Wait) -> Awaited<T>
        ensures { ComesTo self.old result self.new }
    {
        for _ in rt.forever() {
            match self.attempt(rt) {
                Attempt::Over(awaited) => return awaited,
                Attempt::Asleep(turn) => self.bell.sleep(rt, turn),
            }
        }
        unreachable!()
    }

    // Sleeps so too, for no longer than the time that is left.
    fn wait_within<R: Wait + Clock>(&mut self, rt: &R, limit: &Limit) -> Option<Awaited<T>>
        ensures { MatchOption result (AwaitsNothing self.old self.new) (λ awaited. ComesTo self.old awaited self.new) }
    {
        for _ in rt.forever() {
            let left = limit.left(rt);
            match self.attempt(rt) {
                Attempt::Over(awaited) => return Some(awaited),
                Attempt::Asleep(_) if left.is_zero() => return None,
                Attempt::Asleep(turn) => self.bell.sleep_for(rt, turn, left),
            }
        }
        unreachable!()
    }

    // One turn of a wait: asks, and says on which turn to sleep where there is nothing.
    fn attempt(&mut self, rt: &impl Wait) -> Attempt<T>
        ensures { Comes self.old result self.new }
    {
        // Both are loaded before the value: a ring after that is seen by the turn, and what was set before the stop is given first.
        let turn = self.bell.turn();
        let is_stopped = self.is_stopped();
        if let Some(guarded) = self.news(rt) {
            return Attempt::Over(Awaited::News(guarded));
        }
        if is_stopped {
            return Attempt::Over(Awaited::Stopped);
        }
        Attempt::Asleep(turn)
    }

    // Gives a clone of the value that a wait came to.
    fn collected(&mut self, awaited: Awaited<T>) -> Result<Collected<T>, AllocError>
    where
        T: Clone,
        requires { (before : _) × ComesTo before awaited self.old }
        ensures { (before : _) → ComesTo before awaited self.old → MatchResult result (λ collected. Awaits T.is_clone before collected self.new) (λ _. FailsLate (λ (value : T). ¬ T.is_infallible value) before self.new) }
    {
        match awaited {
            Awaited::News(guarded) => match self.give_clone(guarded) {
                Ok(answer) => Ok(Collected::Value(answer)),
                Err(refused) => Err(refused),
            },
            Awaited::Stopped => Ok(Collected::Stopped),
        }
    }

    // Gives a clone of the value that the lock was taken for, and gives the lock up. Where there is no memory for the clone the value
    // wasn't given.
    fn give_clone(&mut self, guarded: Guarded<Versioned<T>>) -> Result<T, AllocError>
    where
        T: Clone,
        requires { (before : _) × Takes before guarded.state self.old }
        ensures given { IfOk result (λ answer. T.is_clone guarded.state.value answer × ((before : _) → Takes before guarded.state self.old → Gives before guarded.state.value self.new)) }
        ensures refused { IfErr result (λ _. ¬ T.is_infallible guarded.state.value × ((before : _) → Takes before guarded.state self.old → Reads before guarded.state.value self.new)) }
    {
        match guarded.state.value.clone() {
            Ok(answer) => {
                self.give(guarded);
                Ok(answer)
            }
            Err(refused) => {
                self.pass(guarded);
                Err(refused)
            }
        }
    }

    // Gives the lock up, with the value that it was taken for as given.
    fn give(&mut self, guarded: Guarded<Versioned<T>>)
        requires { (before : _) × Takes before guarded.state self.old }
        ensures { (before : _) → Takes before guarded.state self.old → Gives before guarded.state.value self.new }
    {
        let version = guarded.state.version;
        self.lock.put(guarded, Round::Give(version));
        self.latest = Some(version);
    }

    // Gives the lock up, with the value that it was taken for as one that was read, and not given.
    fn pass(&mut self, guarded: Guarded<Versioned<T>>)
        requires { (before : _) × Holds before guarded.state self.old }
        ensures { (before : _) → Holds before guarded.state self.old → Reads before guarded.state.value self.new }
    {
        leave(&mut self.lock, guarded);
    }
}

/// Takes the lock where there is a value of a version above the one that was given last; else it asked for nothing.
fn find<T: Drop>(
    lock: &mut Lock<Versioned<T>, Round>,
    rt: &impl Wait,
    latest: Option<u64>,
) -> Option<Guarded<Versioned<T>>>
    requires { Keeps lock.old latest }
    ensures taken { IfSome result (λ guarded. Takes lock.old guarded.state lock.new) }
    ensures missed { IfNone result (Misses lock.old lock.new) }
    ensures keeps { Keeps lock.new latest }
{
    let guarded = enter(lock, rt);
    let is_new = is_newer(latest, guarded.state.version);
    if is_new {
        return Some(guarded);
    }
    leave(lock, guarded);
    None
}

/// Whether a version is above the one that was given last.
fn is_newer(latest: Option<u64>, version: u64) -> bool
    ensures { IsTrue result ↔ IsNewer latest version }
{
    match latest {
        Some(latest) => latest < version,
        None => true,
    }
}
