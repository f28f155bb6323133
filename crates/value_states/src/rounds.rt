//! The one way through the lock: it is taken, and given up with what the call did.
ghost use Rattle.std.specs.Prelude.{◌≡◌, ◌+◌, Some};
ghost use Rattle.std.specs.Fn.{FnOnceReturnsAt, FnOnceReturnsAtMut};
ghost use Rattle.value_states.specs.Calls.{Holds, giving};
ghost use Rattle.value_states.specs.declared.round.Round.TheVariants as round;

use crate::round::Round;
use crate::versioned::Versioned;
use round_lock::{Guarded, Lock};
use std::sync::Wait;

/// Takes the lock, and has the value.
pub(crate) fn enter<T: Drop>(
    lock: &mut Lock<Versioned<T>, Round>,
    rt: &impl Wait,
) -> Guarded<Versioned<T>>
    ensures { Holds lock.old result.state lock.new }
{
    lock.take(rt)
}

/// Gives the lock up, with the value as it was.
pub(crate) fn leave<T: Drop>(lock: &mut Lock<Versioned<T>, Round>, guarded: Guarded<Versioned<T>>)
    requires { lock.old.log.held ≡ Some guarded.state }
    ensures { lock.new ≡ giving round.Read guarded.state lock.old }
{
    lock.put(guarded, Round::Read);
}

/// Gives the lock up with another value, and hands back the one before.
pub(crate) fn write<T: Drop>(
    lock: &mut Lock<Versioned<T>, Round>,
    rt: &impl Wait,
    guarded: Guarded<Versioned<T>>,
    value: T,
) -> T
    requires { lock.old.log.held ≡ Some guarded.state }
    ensures old { result ≡ guarded.state.value }
    ensures written { lock.new ≡ giving round.Write (record { value = value; version = guarded.state.version + 1 }) lock.old }
{
    let Guarded { state: old } = guarded;
    let version = next_version(rt, old.version);
    let state = Versioned { value, version };
    lock.put(Guarded { state }, Round::Write);
    let Versioned { value, version: _ } = old;
    value
}

/// Calls a function with the value.
pub(crate) fn shown<T, R, F: FnOnce(&T) -> R>(value: &T, reader: F) -> R
    requires { F.IsAlwaysCallable reader }
    ensures { FnOnceReturnsAt F.FnOnce reader value.now result }
{
    reader(value)
}

/// Has a function change the value.
pub(crate) fn changed<T, R, F: FnOnce(&mut T) -> R>(value: &mut T, change: F) -> R
    requires { F.IsAlwaysCallable change }
    ensures { FnOnceReturnsAtMut F.FnOnce change value.old result value.new }
{
    change(value)
}

/// The version after this one. There is none after the last of 64 bits: who would write it waits for ever.
pub(crate) fn next_version(rt: &impl Wait, version: u64) -> u64
    ensures { result ≡ version + 1 }
{
    for _ in rt.forever() {
        if let Some(next) = version.checked_add(1) {
            return next;
        }
    }
    unreachable!()
}
