//! What a reader leaves at its end.
ghost use Rattle.std.specs.Prelude.{◌≡◌, ◌<◌, [], true};
ghost use Rattle.shared_lane.specs.Views.{closed_of};
ghost use Rattle.shared_lane.specs.Kept.{IsEnded};
ghost use Rattle.shared_lane.specs.Readers.{IsReaderOf, received_count, lost_count};

use crate::lane::Lane;
use crate::rule::LaneSeat;
use std::alloc::Allocator;
use std::marker::Model;

/// What became of a reader whose cursor was closed: where it began, and what it received and lost. What was pending was given up.
///
/// Contracts see the reader as it was, and that it closed its cursor.
#[derive(Drop)]
pub struct Closed {
    // A token of no bytes, with what the proofs know of the seat.
    seat: LaneSeat,
    start: u64,
    received: u64,
    dropped: u64,
}

impl Model for Closed {
    ghost use Rattle.shared_lane.specs.Views.{ClosedSeen, closed_of};
    ghost use Rattle.shared_lane.specs.Kept.{IsEnded};

    ghost Value = { ClosedSeen };

    ghost view = { λ c. closed_of c.seat };

    ghost invariant = { λ c. IsEnded c.seat c.start c.received c.dropped };
}

impl Closed {
    pub(crate) fn of(seat: LaneSeat, start: u64, received: u64, dropped: u64) -> Closed
        requires { IsEnded seat start received dropped }
        ensures { result ≡ closed_of seat }
    {
        Closed {
            seat,
            start,
            received,
            dropped,
        }
    }

    /// A seat that knows of this end.
    pub(crate) fn note<A: Allocator>(&mut self, lane: &Lane<A>) -> LaneSeat
        requires { IsReaderOf lane.now self.old.reader }
        ensures closed { self.new ≡ self.old }
        ensures note { (result.table_id ≡ lane.now.table) × (result.me.1 ≡ []) × (result.me.0.reading.quit ≡ true) }
        ensures reader { (result.me.0.reading.place ≡ self.old.reader.place) × (result.me.0.reading.opening ≡ self.old.reader.opening) }
        ensures inside { self.old.reader.place < lane.now.shape.places }
    {
        lane.words().copy_end(&mut self.seat)
    }

    /// The number at which the reader began.
    pub fn start(&self) -> u64
        ensures { result ≡ self.now.reader.start }
    {
        self.start
    }

    /// How many values it received.
    pub fn received(&self) -> u64
        ensures { result ≡ received_count self.now.reader }
    {
        self.received
    }

    /// How many values were dropped for it, as far as it had seen: one that was dropped since its last call isn't counted.
    pub fn dropped(&self) -> u64
        ensures { result ≡ lost_count self.now.reader }
    {
        self.dropped
    }
}
