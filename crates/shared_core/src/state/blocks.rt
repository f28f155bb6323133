//! Emissions and receipts by the block.

ghost use Rattle.std.specs.Prelude.{◌-◌, vec_capacity, vec_len};
ghost use Rattle.shared_core.specs.Blocks as blocks;
ghost use Rattle.shared_core.specs.Blocks.{Receives};
ghost use Rattle.shared_core.specs.Shown.{Follows};

use crate::state::SharedState;
use flow_terms::{Next, Refusal, SubId, Tried};
use std::alloc::Allocator;

impl<T: Copy> SharedState<T> {
    /// Tries to emit these values, one after another, up to the first that isn't accepted, and answers how many were: Kotlin's
    /// `tryEmit` in a loop.
    ///
    /// Each is accepted, dropped or held up as by `try_emit`. Refused as `Spent` where the first one is.
    pub fn try_emit_all(&mut self, emitter: u32, values: &[T]) -> Result<u64, Refusal>
        ensures { Follows (blocks.try_emit_all emitter values.now) self.old result self.new }
    {
        let mut accepted = 0;
        for value in values {
            match self.try_emit(emitter, *value) {
                Ok(Tried::Accepted(_)) => accepted += 1,
                Ok(Tried::Dropped) => return Ok(accepted),
                Ok(Tried::Full) => return Ok(accepted),
                Err(refusal) if accepted == 0 => return Err(refusal),
                Err(_) => return Ok(accepted),
            }
        }
        Ok(accepted)
    }

    /// Receives the oldest values that the subscription has pending, one after another, and adds them to `out` as far as that
    /// has room: Kotlin's `collect`, for several values. No memory is taken.
    ///
    /// `Value` tells how many came, 0 of them where `out` has no room. Else `Nothing` and `Closed` come as by `next`, where it
    /// would answer so at once.
    pub fn try_next_all<A: Allocator>(&mut self, id: SubId, out: &mut Vec<T, A>) -> Next<u64>
        ensures { Receives id.0 (vec_capacity out.old - vec_len out.old) self.old out.old.items result out.new.items self.new }
    {
        let mut taken = 0;
        while out.len() < out.capacity() {
            match self.next(id) {
                Next::Value(value) => {
                    out.push_reserved(value);
                    taken += 1;
                }
                Next::Nothing if taken == 0 => return Next::Nothing,
                Next::Closed if taken == 0 => return Next::Closed,
                _ => return Next::Value(taken),
            }
        }
        Next::Value(taken)
    }
}
