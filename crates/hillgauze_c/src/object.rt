//! What a handle has: an object of one of five kinds.

mod changes;
mod kinds;

use crate::parties::{Collecting, Reading, Seating, Sequencing};
use shared_core::SharedState;

/// An object of C. `Vacant` stands in a block of memory before an object does, so that want of memory is met first.
#[derive(Drop)]
pub enum Object {
    /// None yet.
    Vacant,
    /// A shared flow on one thread.
    Shared(SharedState<u64>),
    /// The sequencer of a lane.
    Sequencer(Sequencing),
    /// A reader of a lane.
    Reader(Reading),
    /// A seat at a state flow.
    Seat(Seating),
    /// A collector of a state flow.
    Collector(Collecting),
}
