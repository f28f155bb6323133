//! A caller of a state of one word.
ghost use Rattle.std.specs.Prelude.{◌≡◌, ◌≢◌, ℕ, IsSome, Some};
ghost use Rattle.state_callers.specs.Given.{given};

use state_waiting::{Collected, WatchedSeat, Watcher};
use std::sync::Wait;

/// What a wait gave: a value, or nothing where the watcher was let go.
fn given(collected: Collected<u64>) -> Option<u64>
    ensures { result ≡ given collected }
{
    match collected {
        Collected::Value(value) => Some(value),
        Collected::Stopped => None,
    }
}

/// A new watcher's first wait gives a value, also where all are let go by then, and the second never the same again.
pub fn awaited_twice(
    rt: &impl Wait,
    seat: WatchedSeat<u64>,
) -> (Watcher<u64>, Option<u64>, Option<u64>)
    ensures first { IsSome result.1 }
    ensures differs { (x : ℕ) → result.1 ≡ Some x → result.2 ≢ Some x }
{
    let mut watcher = seat.collect();
    let first = given(watcher.next(rt));
    let second = given(watcher.next(rt));
    (watcher, first, second)
}
