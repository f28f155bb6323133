//! Callers of updates of a state.

ghost use Rattle.std.specs.Prelude.{◌≡◌, ◌+◌, ◌%◌, ◌^◌, ℕ, IfSome};
ghost use Rattle.state_updates.specs.Updating.{Updates};

use state_updates::{StateSeat, try_update, update_and_get};
use std::sync::Wait;

/// Counts one more: Kotlin's `count.updateAndGet { it + 1 }`, which wraps. It answers what it set, which is one more than what that one
/// step found.
pub fn count_one(rt: &impl Wait, seat: &mut StateSeat<u64>) -> u64
    ensures { (found : ℕ) × (result ≡ (found + 1) % 2 ^ 64) × Updates (λ x y. y ≡ (x + 1) % 2 ^ 64) seat.old.view found result seat.new.view }
{
    update_and_get(rt, seat, |count| count.wrapping_add(1))
}

/// Counts one more within four tries, and answers what it found.
pub fn count_within(seat: &mut StateSeat<u64>) -> Option<u64>
    ensures { IfSome result (λ found. Updates (λ x y. y ≡ (x + 1) % 2 ^ 64) seat.old.view found ((found + 1) % 2 ^ 64) seat.new.view) }
{
    let updated = try_update(seat, 4, |count| count.wrapping_add(1))?;
    Some(updated.found)
}
