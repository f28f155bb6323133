//! A state that threads share.
ghost use Rattle.std.specs.Prelude.{◌≡◌, ℕ, [], ◌+◌, None, Some, IfOk, IfErr, MatchBool, MatchResult, true, false};
ghost use Rattle.std.specs.Fn.{FnOnceReturnsAt, FnOnceReturnsAtMut};
ghost use Rattle.round_lock.specs.History.{newcomer, another, sharing, taking};
ghost use Rattle.value_states.specs.Calls.{Reads, Writes};

use crate::round::Round;
use crate::rounds::{changed, enter, leave, next_version, shown, write};
use crate::versioned::Versioned;
use crate::watcher::Watcher;
use round_lock::Lock;
use state_bell::Bell;
use std::alloc::{AllocError, Global};
use std::marker::Model;
use std::sync::{Arc, Wait};

/// One owner of a state that threads share: Kotlin's `MutableStateFlow` of any type. One thread at a time uses an owner; another gets
/// one by [`dup`](ValueState::dup). The value is let go with the last owner, and each value before it as it is replaced.
///
/// A call with `rt` takes the state's lock, and may wait for it. Contracts see which state it is, the owner's number, the calls that it
/// made, and the one list of all calls as far as it has seen it; `history` is the list of the values.
pub struct ValueState<T: Drop> {
    lock: Lock<Versioned<T>, Round>,
    bell: Arc<Bell>,
}

impl<T: Drop> Model for ValueState<T> {
    ghost use Rattle.round_lock.specs.Locking.{Locking};
    ghost use Rattle.value_states.specs.declared.round.Round.{Round};
    ghost use Rattle.value_states.specs.declared.versioned.Versioned.{Versioned};

    ghost Value = { Locking (Versioned T) Round };

    ghost view = { λ s. s.lock };
}

// By hand: who lets one go proves this call alone, and nothing of what it is made of.
impl<T: Drop> Drop for ValueState<T> {
    fn drop(self) {
        let ValueState { lock, bell } = self;
        drop(lock);
        drop(bell);
    }
}

impl<T: Drop> ValueState<T> {
    /// Makes a state that holds `value`: `MutableStateFlow(value)`. It is refused by the allocator alone; the value is let go then.
    pub fn new(alloc: Global, value: T) -> Result<ValueState<T>, AllocError>
        ensures { IfOk result (λ state. state.log ≡ newcomer (record { value = value; version = 0 })) }
    {
        let bell = Bell::new(alloc)?;
        let lock = Lock::new(alloc, Versioned { value, version: 0 })?;
        Ok(ValueState { lock, bell })
    }

    pub(crate) fn over(lock: Lock<Versioned<T>, Round>, bell: Arc<Bell>) -> ValueState<T>
        ensures { result ≡ lock }
    {
        ValueState { lock, bell }
    }

    /// Another owner of the same state, which has made no call and has seen as much: in Kotlin, a second reference to it. It has half
    /// of this owner's share of the lock. It takes no memory, and is refused only where there are as many as a counter can tell apart.
    pub fn dup(&mut self) -> Result<ValueState<T>, AllocError>
        ensures other { IfOk result (λ other. (other.log ≡ another self.old.log) × (other.place ≡ self.old.place)) }
        ensures half { IfOk result (λ _. self.new ≡ record self.old { log = sharing self.old.log }) }
        ensures same { IfErr result (λ _. self.new ≡ self.old) }
    {
        let bell = Arc::try_clone(&self.bell)?;
        let lock = self.lock.dup()?;
        Ok(ValueState { lock, bell })
    }

    /// Takes in another owner for good, with its calls and its share of the lock: who has the whole lock so knows who made each call.
    /// Without a lock. Kotlin has no such call.
    pub fn take_in(&mut self, other: ValueState<T>)
        requires state { other.place ≡ self.old.place }
        requires free { other.log.held ≡ None }
        ensures taken { self.new ≡ record self.old { log = taking other.pass self.old.log other.log } }
    {
        let ValueState { lock, bell } = other;
        self.lock.take_in(lock);
        drop(bell);
    }

    /// Calls a function with the value: Kotlin's `value`, of which one copies no more than one needs.
    ///
    /// The state's lock is held meanwhile: a function that uses the same state waits for ever.
    pub fn read<R, F: FnOnce(&T) -> R>(&mut self, rt: &impl Wait, reader: F) -> R
        requires { F.IsAlwaysCallable reader }
        ensures { (value : T) × Reads self.old value self.new × FnOnceReturnsAt F.FnOnce reader value result }
    {
        let guarded = enter(&mut self.lock, rt);
        let answer = shown(&guarded.state.value, reader);
        leave(&mut self.lock, guarded);
        answer
    }

    /// A clone of the value: Kotlin's `value`. It fails where the clone does.
    pub fn value(&mut self, rt: &impl Wait) -> Result<T, AllocError>
    where
        T: Clone,
        ensures { (value : T) × Reads self.old value self.new × MatchResult result (T.is_clone value) (λ _. ¬ T.is_infallible value) }
    {
        let guarded = enter(&mut self.lock, rt);
        let answer: Result<T, AllocError> = guarded.state.value.clone();
        leave(&mut self.lock, guarded);
        answer
    }

    /// Sets the value, hands back the one before, and wakes the watchers that sleep: Kotlin's `getAndUpdate { value }`.
    pub fn replace(&mut self, rt: &impl Wait, value: T) -> T
        ensures { Writes self.old result value self.new }
    {
        let guarded = enter(&mut self.lock, rt);
        let old = write(&mut self.lock, rt, guarded, value);
        self.bell.ring();
        old
    }

    /// Sets the value, and wakes the watchers that sleep: Kotlin's `value = ..`. The one before is let go once the lock is free.
    ///
    /// It is a new version whether it differs or not; [`set_distinct`](ValueState::set_distinct) compares. That a wake arrives isn't
    /// claimed.
    pub fn set(&mut self, rt: &impl Wait, value: T)
        ensures { (found : T) × Writes self.old found value self.new }
    {
        drop(self.replace(rt, value));
    }

    /// Changes the value in its place, and wakes the watchers that sleep: Kotlin's `update { }`, and where the function answers what it
    /// found or what it left, `getAndUpdate { }` and `updateAndGet { }`. Nobody comes between, so no other write is lost.
    ///
    /// It is a new version whatever the function did. The state's lock is held meanwhile: a function that uses the same state waits for
    /// ever.
    pub fn update<R, F: FnOnce(&mut T) -> R>(&mut self, rt: &impl Wait, change: F) -> R
        requires { F.IsAlwaysCallable change }
        ensures { (found : T) × (value : T) × Writes self.old found value self.new × FnOnceReturnsAtMut F.FnOnce change found result value }
    {
        let mut guarded = enter(&mut self.lock, rt);
        let version = next_version(rt, guarded.state.version);
        let answer = changed(&mut guarded.state.value, change);
        guarded.state.version = version;
        self.lock.put(guarded, Round::Write);
        self.bell.ring();
        answer
    }

    /// Sets the value to `update` where it is equal to `expect`, and says whether it was: Kotlin's `compareAndSet`. The value that isn't
    /// kept is let go once the lock is free.
    pub fn compare_and_set(&mut self, rt: &impl Wait, expect: &T, update: T) -> bool
    where
        T: PartialEq,
        ensures { (found : T) × (T.eq found expect.now ≡ result) × MatchBool result (Writes self.old found update self.new) (Reads self.old found self.new) }
    {
        let guarded = enter(&mut self.lock, rt);
        let is_equal = guarded.state.value == *expect;
        if is_equal {
            let old = write(&mut self.lock, rt, guarded, update);
            self.bell.ring();
            drop(old);
            return true;
        }
        leave(&mut self.lock, guarded);
        false
    }

    /// Sets the value unless it is equal to the present one, and says whether it set it: Kotlin's `value = ..`, by which an equal value
    /// changes nothing.
    pub fn set_distinct(&mut self, rt: &impl Wait, value: T) -> bool
    where
        T: PartialEq,
        ensures { (found : T) × MatchBool result ((T.eq found value ≡ false) × Writes self.old found value self.new) ((T.eq found value ≡ true) × Reads self.old found self.new) }
    {
        let guarded = enter(&mut self.lock, rt);
        let is_equal = guarded.state.value == value;
        if is_equal {
            leave(&mut self.lock, guarded);
            return false;
        }
        let old = write(&mut self.lock, rt, guarded, value);
        self.bell.ring();
        drop(old);
        true
    }

    /// A watcher of this state, which was given nothing yet: Kotlin's `collect` begins so. It is one more owner, as by
    /// [`dup`](ValueState::dup).
    pub fn watch(&mut self) -> Result<Watcher<T>, AllocError>
        ensures other { IfOk result (λ watcher. (watcher.log ≡ another self.old.log) × (watcher.place ≡ self.old.place)) }
        ensures half { IfOk result (λ _. self.new ≡ record self.old { log = sharing self.old.log }) }
        ensures same { IfErr result (λ _. self.new ≡ self.old) }
    {
        let bell = Arc::try_clone(&self.bell)?;
        let lock = self.lock.dup()?;
        Ok(Watcher::over(lock, bell))
    }

    /// From now on who waits on this state is let go, and who will: each watcher of it is answered `Stopped` once it was given what was
    /// set before. In Kotlin the scope of the coroutines that collect is cancelled. It is for good; values can be set and read as ever,
    /// and to stop once more does nothing. One watcher alone is let go by a [`Stopper`](crate::Stopper).
    ///
    /// It takes no lock and no memory. That a wake arrives isn't claimed.
    pub fn stop(&self) {
        self.bell.let_go();
    }

    /// Whether who waits on this state is let go.
    pub fn is_stopped(&self) -> bool {
        self.bell.is_let_go()
    }
}
