//! Which capacities a buffer may have.

ghost use Rattle.std.specs.Prelude.{◌≡◌, MatchResult};
ghost use Rattle.flow_buffer.specs.Capacity.{IsCapacity, RefusesCapacity};

use cold_flow::Refusal;

/// The greatest capacity of a buffer.
pub const MAX_CAPACITY: u64 = 65536;

// The capacity, if a buffer may have it.
pub(crate) fn checked(capacity: u64) -> Result<usize, Refusal>
    ensures { MatchResult result (λ places. IsCapacity capacity × (places ≡ capacity)) (RefusesCapacity capacity) }
{
    if capacity > MAX_CAPACITY {
        return Err(Refusal::TooLarge);
    }
    if capacity == 0 {
        return Err(Refusal::NotPositive);
    }
    Ok(capacity as usize)
}
