//! The two words that the seats of a state flow share.
ghost use Rattle.std.specs.Prelude.{◌≡◌, ◌<◌, ◌≤◌, ◌⊎◌, ◌↔◌, IfOk, IfErr};
ghost use Rattle.state_flow.specs.Views.{opening};
ghost use Rattle.flow_terms.specs.declared.refusal.Refusal.TheVariants.{BadLimit, NoMemory};

use crate::plays::OneHistory;
use crate::seat::StateSeat;
use crate::view::View;
use atomic_table::Table;
use flow_terms::{Refusal, Word};
use std::alloc::{AllocError, Allocator, Global};
use std::sync::Arc;

mod steps;

const MOST_SEATS: u32 = 1024;

/// A value that threads share: what all seats of one state flow own together. Kotlin's `MutableStateFlow`, of which a
/// program holds [`StateSeat`]s alone.
#[derive(Drop)]
pub struct StateFlow<T: Word, A: Allocator = Global> {
    // Word 0 is the value, and word 1 the number of collectors.
    pub(crate) table: Table<(), View<T>, (T, u32), OneHistory, A>,
    ghost two_words: { table.shared.table_id.words ≡ 2 },
}

impl<T: Word, A: Allocator + Clone> StateFlow<T, A> {
    /// Makes a state flow that holds `value`, and gives its first seat: `MutableStateFlow(value)`. Of that seat `seats - 1`
    /// more can be taken. The flow is let go with the last of its seats.
    ///
    /// Refused by `BadLimit` where `seats` is 0 or over 1,024, then by `NoMemory`.
    pub fn new(alloc: A, value: T, seats: u32) -> Result<StateSeat<T, A>, Refusal>
        ensures has { IfOk result (λ seat. seat.view ≡ opening value seats) }
        ensures few { IfOk result (λ _. (0 < seats) × (seats ≤ 1024)) }
        ensures bad_limit { IfErr result (λ r. (r ≡ BadLimit) ↔ ((seats ≡ 0) ⊎ (1024 < seats))) }
        ensures refusals { IfErr result (λ r. (r ≡ BadLimit) ⊎ (r ≡ NoMemory)) }
    {
        if seats == 0 || seats > MOST_SEATS {
            return Err(Refusal::BadLimit);
        }
        let seat = StateFlow::made(alloc, value, seats)?;
        Ok(seat)
    }

    // Makes it, and gives the first of so many seats.
    fn made(alloc: A, value: T, seats: u32) -> Result<StateSeat<T, A>, AllocError>
        requires some { 0 < seats }
        requires few { seats ≤ 1024 }
        ensures { IfOk result (λ seat. seat.view ≡ opening value seats) }
    {
        let words = [value.to_word(), 0];
        let (table, seat) = Table::of_words(alloc.clone()?, &words, &(value, seats))?;
        let flow = Arc::new(alloc, StateFlow { table })?;
        Ok(StateSeat::over(flow, seat, seats))
    }
}
