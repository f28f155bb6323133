//! A state's value, replaced by a function of it.
ghost use Rattle.std.specs.Prelude.{◌≡◌, IfSome, IfNone};
ghost use Rattle.state_updates.specs.Updating.{Updates, Missed};

use crate::updated::Updated;
use state_flow::{StateSeat, Word};
use std::alloc::Allocator;
use std::sync::Wait;

/// Replaces the value by what `function` answers of it: Kotlin's `update { }`. No other thread's write is lost: what is set was
/// answered of the very value that it replaces.
///
/// It tries until nobody came between, each time with another call of `function`. That it comes to an end isn't claimed: each
/// failed try is one in which another thread's write succeeded.
pub fn update<T: Word, A: Allocator, F: Fn(T) -> T>(
    rt: &impl Wait,
    seat: &mut StateSeat<T, A>,
    function: F,
)
    requires callable { F.IsAlwaysCallable function }
    ensures has { (found : T) × (value : T) × Updates (F.post function) seat.old.view found value seat.new.view }
    ensures same_flow { seat.new.flow ≡ seat.old.flow }
{
    let _updated = update_until_set(rt, seat, &function);
}

/// The same, and answers what was set: Kotlin's `updateAndGet { }`.
pub fn update_and_get<T: Word, A: Allocator, F: Fn(T) -> T>(
    rt: &impl Wait,
    seat: &mut StateSeat<T, A>,
    function: F,
) -> T
    requires callable { F.IsAlwaysCallable function }
    ensures has { (found : T) × Updates (F.post function) seat.old.view found result seat.new.view }
    ensures same_flow { seat.new.flow ≡ seat.old.flow }
{
    update_until_set(rt, seat, &function).value
}

/// The same, and answers what was found: Kotlin's `getAndUpdate { }`.
pub fn get_and_update<T: Word, A: Allocator, F: Fn(T) -> T>(
    rt: &impl Wait,
    seat: &mut StateSeat<T, A>,
    function: F,
) -> T
    requires callable { F.IsAlwaysCallable function }
    ensures has { (value : T) × Updates (F.post function) seat.old.view result value seat.new.view }
    ensures same_flow { seat.new.flow ≡ seat.old.flow }
{
    update_until_set(rt, seat, &function).found
}

/// The same by at most so many tries, and says what was found and set; `None` where others came between in each, and then this
/// seat wrote nothing. It waits for nobody. Kotlin has no such call.
pub fn try_update<T: Word, A: Allocator, F: Fn(T) -> T>(
    seat: &mut StateSeat<T, A>,
    tries: u32,
    function: F,
) -> Option<Updated<T>>
    requires callable { F.IsAlwaysCallable function }
    ensures has { IfSome result (λ u. Updates (F.post function) seat.old.view u.found u.value seat.new.view) }
    ensures same_flow { seat.new.flow ≡ seat.old.flow }
    ensures missed { IfNone result (Missed tries seat.old.view seat.new.view) }
{
    'tries: for _tried in 0..tries {
        if let Some(updated) = try_once(seat, &function) {
            return Some(updated);
        }
    }
    None
}

// Tries until one succeeds.
fn update_until_set<T: Word, A: Allocator, F: Fn(T) -> T>(
    rt: &impl Wait,
    seat: &mut StateSeat<T, A>,
    function: &F,
) -> Updated<T>
    requires callable { F.IsAlwaysCallable function.now }
    ensures same_flow { seat.new.flow ≡ seat.old.flow }
    ensures updates { Updates (F.post function.now) seat.old.view result.found result.value seat.new.view }
{
    'tries: for _tried in rt.forever() {
        if let Some(updated) = try_once(seat, function) {
            return updated;
        }
    }
    unreachable!()
}

// One try: what it found and set, unless another thread came between.
fn try_once<T: Word, A: Allocator, F: Fn(T) -> T>(
    seat: &mut StateSeat<T, A>,
    function: &F,
) -> Option<Updated<T>>
    requires callable { F.IsAlwaysCallable function.now }
    ensures same_flow { seat.new.flow ≡ seat.old.flow }
    ensures updates { IfSome result (λ u. Updates (F.post function.now) seat.old.view u.found u.value seat.new.view) }
    ensures missed { IfNone result (Missed 1 seat.old.view seat.new.view) }
{
    let found = seat.value();
    let value = function(found);
    if seat.compare_and_set(found, value) {
        return Some(Updated { found, value });
    }
    None
}
