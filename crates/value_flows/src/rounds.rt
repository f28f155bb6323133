//! The one way through the lock: it is taken, and given up with what the call did.
ghost use Rattle.std.specs.Prelude.{◌≡◌, ◌+◌, ◌<◌, ◌≤◌, [], length, None, Some, IfNone, IfSome};
ghost use Rattle.value_flows.specs.Calls.{FindsFull, Holds, Opens, giving};
ghost use Rattle.value_flows.specs.Emitting.{Offers};
ghost use Rattle.value_flows.specs.declared.round.Round.TheVariants as round;

use crate::boxed::BoxedRing;
use crate::received::Offered;
use crate::ring::Entrance;
use crate::round::Round;
use round_lock::{Guarded, Lock};
use std::sync::Wait;

/// Takes the lock, and has the ring.
pub(crate) fn enter<T: Drop>(
    lock: &mut Lock<BoxedRing<T>, Round>,
    rt: &impl Wait,
) -> Guarded<BoxedRing<T>>
    ensures holds { Holds lock.old result.state lock.new }
    ensures count { length result.state.values.items ≤ result.state.next }
{
    lock.take(rt)
}

/// Gives the lock up, with the ring as it was.
pub(crate) fn leave<T: Drop>(lock: &mut Lock<BoxedRing<T>, Round>, guarded: Guarded<BoxedRing<T>>)
    requires { lock.old.log.held ≡ Some guarded.state }
    ensures { lock.new ≡ giving round.Look guarded.state lock.old }
{
    lock.put(guarded, Round::Look);
}

/// Tries to have the flow accept a value.
pub(crate) fn offer<T: Drop>(
    lock: &mut Lock<BoxedRing<T>, Round>,
    rt: &impl Wait,
    value: T,
) -> Offered<T>
    ensures { Offers value lock.old result lock.new }
{
    let mut guarded = enter(lock, rt);
    match guarded.state.entrance() {
        Entrance::Open => {
            let number = guarded.state.next();
            let next = number_after(rt, number);
            let old = guarded.state.accept(value, next);
            lock.put(guarded, Round::Emit);
            Offered::Accepted(number, old)
        }
        Entrance::Dropped => {
            leave(lock, guarded);
            Offered::Dropped(value)
        }
        Entrance::Full => {
            leave(lock, guarded);
            Offered::Full(value)
        }
    }
}

/// Begins a subscription: answers its place and the number of its first value, or nothing where each place is taken.
pub(crate) fn begin<T: Drop>(
    lock: &mut Lock<BoxedRing<T>, Round>,
    rt: &impl Wait,
) -> Option<(usize, u64)>
    ensures begun { IfSome result (λ seat. Opens lock.old seat.0 seat.1 lock.new) }
    ensures full { IfNone result (FindsFull lock.old lock.new) }
{
    let mut guarded = enter(lock, rt);
    match guarded.state.free_place() {
        Some(place) => {
            let start = guarded.state.cache_start();
            guarded.state.move_to(place, Some(start));
            lock.put(guarded, Round::Begin(place as u64, start));
            Some((place, start))
        }
        None => {
            leave(lock, guarded);
            None
        }
    }
}

/// The number after this one. There is none after the last of 64 bits: who would emit under it waits for ever.
fn number_after(rt: &impl Wait, number: u64) -> u64
    ensures { result ≡ number + 1 }
{
    for _ in rt.forever() {
        if let Some(next) = number.checked_add(1) {
            return next;
        }
    }
    unreachable!()
}
