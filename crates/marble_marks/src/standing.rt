//! How a shared flow stands: which emissions it has accepted, who waits, and how far its subscriptions are.
//!
//! After each line those that wait are accepted, the one that waited longest first, while each live subscription has a place. No
//! answer says that: it follows from the flow's rules, as those lines tell its state.

ghost use Rattle.std.specs.Prelude.{◌≡◌, ◌≤◌, ◌<◌, ◌+◌, length, map, IfOk, OnOk};
ghost use Rattle.std.specs.List.{filter_map};
ghost use Rattle.marble_marks.specs.Standings.{stand_in, begun, given, given_on, not_on, places_for, joined, stepped, free, room_for, accepted_later, settled, accepted_later_values};

use std::alloc::{AllocError, Global};

/// A live subscription of a flow.
#[derive(Clone, Copy)]
pub(crate) struct Seat {
    /// The subscription's row.
    row: usize,
    /// How many values of its prelude it has still to take. They come first, and take no place.
    prelude: usize,
    /// The number of the value that it takes next after these.
    next: usize,
}

/// What a line does to a flow.
#[derive(Clone, Copy)]
pub(crate) enum Step {
    /// It begins, with so many values for newcomers, and so many more that may be pending.
    Opened { replay: usize, extra: usize },
    /// It accepts a value at once.
    Accepted,
    /// An emission of this value has to wait.
    Waits(u64),
    /// The subscription on this row begins, with a prelude of so many values.
    Joined { row: usize, prelude: usize },
    /// The subscription on this row receives a value.
    Took { row: usize },
    /// The subscription on this row ends.
    Ended { row: usize },
    /// Its replay cache is emptied.
    Emptied,
}

/// How a flow stands.
#[derive(Drop)]
pub(crate) struct Standing {
    /// How many of the latest values a newcomer begins with.
    replay: usize,
    /// How many values may be pending for a subscription.
    places: usize,
    /// How many values were accepted.
    accepted: usize,
    /// How many were accepted before the replay cache was emptied.
    reset_at: usize,
    /// The values that wait, in their order.
    waiting: Vec<u64>,
    /// The live subscriptions.
    seats: Vec<Seat>,
}

impl Seat {
    /// After it has received a value, where so many were accepted.
    fn given(self, accepted: usize) -> Seat
        ensures { result ≡ given accepted self }
    {
        if self.prelude > 0 {
            return Seat {
                row: self.row,
                prelude: self.prelude - 1,
                next: self.next,
            };
        }
        Seat {
            row: self.row,
            prelude: 0,
            next: self.next.saturating_add(1).min(accepted),
        }
    }

    /// After the subscription on this row has received a value.
    fn given_on(self, row: usize, accepted: usize) -> Seat
        ensures { result ≡ given_on row accepted self }
    {
        if self.row == row {
            self.given(accepted)
        } else {
            self
        }
    }

    /// How many more values it has places for, where it has so many in all.
    fn free(self, places: usize, accepted: usize) -> usize
        ensures { result ≡ free places accepted self }
    {
        places.saturating_sub(accepted.saturating_sub(self.next))
    }
}

/// The one on this row receives a value.
fn give(seats: &mut Vec<Seat>, row: usize, accepted: usize)
    ensures { seats.new.items ≡ map (given_on row accepted) seats.old.items }
{
    for seat in seats.iter_mut() {
        *seat = seat.given_on(row, accepted);
    }
}

/// The one on this row ends.
fn take_out(seats: &mut Vec<Seat>, row: usize)
    ensures { seats.new.items ≡ filter_map (not_on row) seats.old.items }
{
    seats.retain(|seat| seat.row != row);
}

/// For how many of so many values each of these has a place.
fn room_for(places: usize, accepted: usize, most: usize, seats: &[Seat]) -> usize
    ensures room { result ≡ room_for places accepted most seats.now }
    ensures few { result ≤ most }
{
    let mut room = most;
    for seat in seats {
        room = room.min(seat.free(places, accepted));
    }
    room
}

/// How many places there are for each subscription.
fn places_for(replay: usize, extra: usize) -> usize
    ensures { result ≡ places_for replay extra }
{
    replay.saturating_add(extra).max(1)
}

impl Standing {
    /// Before the first line of a flow.
    pub(crate) fn new(alloc: Global) -> Standing
        ensures { stand_in result ≡ begun }
    {
        Standing {
            replay: 0,
            places: 0,
            accepted: 0,
            reset_at: 0,
            waiting: Vec::new(alloc),
            seats: Vec::new(alloc),
        }
    }

    pub(crate) fn accepted(&self) -> usize
        ensures { result ≡ self.now.accepted }
    {
        self.accepted
    }

    /// A subscription begins.
    fn join(&mut self, row: usize, prelude: usize) -> Result<(), AllocError>
        ensures { OnOk result (stand_in self.new ≡ joined row prelude (stand_in self.old)) }
    {
        let next = self.accepted.saturating_sub(self.replay).max(self.reset_at);
        self.seats.push(Seat { row, prelude, next })?;
        Ok(())
    }

    /// After what a line does.
    pub(crate) fn take(&mut self, step: Step) -> Result<(), AllocError>
        requires { self.old.accepted + length self.old.waiting.items < 18446744073709551615 }
        ensures stepped { OnOk result (stand_in self.new ≡ stepped step (stand_in self.old)) }
        ensures few { OnOk result (self.new.accepted + length self.new.waiting.items ≤ self.old.accepted + length self.old.waiting.items + 1) }
    {
        match step {
            Step::Opened { replay, extra } => {
                self.replay = replay;
                self.places = places_for(replay, extra);
                Ok(())
            }
            Step::Accepted => {
                self.accepted += 1;
                Ok(())
            }
            Step::Waits(value) => {
                self.waiting.push(value)?;
                Ok(())
            }
            Step::Joined { row, prelude } => self.join(row, prelude),
            Step::Took { row } => {
                give(&mut self.seats, row, self.accepted);
                Ok(())
            }
            Step::Ended { row } => {
                take_out(&mut self.seats, row);
                Ok(())
            }
            Step::Emptied => {
                self.reset_at = self.accepted;
                Ok(())
            }
        }
    }

    /// Accepts what waits, as far as there is room, and gives it, the one that waited longest first.
    pub(crate) fn settle(&mut self, alloc: Global) -> Result<Vec<u64>, AllocError>
        requires { self.old.accepted + length self.old.waiting.items < 18446744073709551616 }
        ensures settled { OnOk result (stand_in self.new ≡ settled (stand_in self.old)) }
        ensures values { IfOk result (λ values. values.items ≡ accepted_later_values (stand_in self.old)) }
        ensures few { OnOk result (self.new.accepted + length self.new.waiting.items ≤ self.old.accepted + length self.old.waiting.items) }
    {
        if self.waiting.is_empty() {
            return Ok(Vec::new(alloc));
        }
        let count = room_for(self.places, self.accepted, self.waiting.len(), &self.seats);
        let rest = self.waiting.split_off(count)?;
        let values = std::mem::replace(&mut self.waiting, rest);
        self.accepted += count;
        Ok(values)
    }
}
