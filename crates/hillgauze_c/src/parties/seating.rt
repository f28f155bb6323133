//! A seat at a state flow of words.

use state_flow::StateSeat;

/// A seat. It has a name of its own without parameters.
#[derive(Drop)]
pub struct Seating {
    pub(crate) seat: StateSeat<u64>,
}
