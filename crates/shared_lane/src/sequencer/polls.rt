//! Emissions whose tickets are out: they are polled and withdrawn.
ghost use Rattle.std.specs.Prelude.{◌≡◌, ◌<◌, ℕ, List, length, slice_get, Some, MatchOption};
ghost use Rattle.shared_lane.specs.declared.tickets.Standing.{Standing};
ghost use Rattle.shared_lane.specs.Sequencers.{IsSequencerOf, IsSameSequencer, OnlyLoaded};
ghost use Rattle.shared_lane.specs.Polls.{given_back, withdrawn_from, Loaded, PolledOn, WithdrawnFrom, NoneStands};
ghost use Rattle.shared_lane.specs.Polls.{NoneWaits, StandsAt, WaitsAt, IsNotOut, IsOutFor, IsFinishedBelow, stands_below};
ghost use Rattle.shared_lane.specs.Places.{IsAccepted};
ghost use Rattle.shared_lane.specs.Ordering.{FirstUnfinished};
ghost use Rattle.shared_lane.specs.Surveys.{Behind};

use super::{Sequencer, load_cursors};
use crate::lane::Lane;
use crate::tickets::{Standing, Waiting};
use shared_core::{Emit, Ticket, Withdrawn};
use std::alloc::Allocator;

impl<A: Allocator> Sequencer<A> {
    // Where the accepted emission with a ticket stands: tickets rise.
    fn standing_with(&self, ticket: u64) -> Option<usize>
        ensures { MatchOption result (NoneStands self.now.standing ticket) (StandsAt self.now ticket) }
    {
        let index = self
            .standing
            .partition_point(|standing| standing.ticket < ticket);
        let standing = self.standing.get(index)?;
        if standing.ticket != ticket {
            return None;
        }
        Some(index)
    }

    // Where the emission with a ticket waits.
    fn waiting_with(&self, ticket: u64) -> Option<usize>
        ensures { MatchOption result (NoneWaits self.now.waiting ticket) (WaitsAt self.now ticket) }
    {
        let index = self
            .waiting
            .partition_point(|waiting| waiting.ticket < ticket);
        let waiting = self.waiting.get(index)?;
        if waiting.ticket != ticket {
            return None;
        }
        Some(index)
    }

    // Takes back the ticket of an accepted emission, and returns its number.
    fn take_back(&mut self, index: usize) -> u64
        requires { index < length self.old.standing }
        ensures left { self.new ≡ given_back index self.old }
        ensures number { (s : Standing) → slice_get self.old.standing index ≡ Some s → (result ≡ s.number) × IsAccepted self.new s.emitter result }
    {
        self.standing.remove(index).number
    }

    // An emission waits no more, and isn't accepted.
    fn withdraw(&mut self, index: usize)
        requires { index < length self.old.waiting }
        ensures { self.new ≡ withdrawn_from index self.old }
    {
        self.waiting.remove(index);
    }

    // The number of the accepted emission at an index of those whose tickets are out, and whose it is.
    fn standing_at(&self, index: usize) -> Standing
        requires { index < length self.now.standing }
        ensures { slice_get self.now.standing index ≡ Some result }
    {
        self.standing[index]
    }

    fn waiting_at(&self, index: usize) -> Waiting
        requires { index < length self.now.waiting }
        ensures { slice_get self.now.waiting index ≡ Some result }
    {
        self.waiting[index]
    }

    // Whether an open cursor, as this call loads it, stands at a number or before it.
    fn is_unread<B: Allocator>(&mut self, lane: &Lane<B>, number: u64) -> bool
        requires { IsSequencerOf lane.now self.old }
        ensures only { OnlyLoaded self.old self.new }
        ensures pass { (ns : List ℕ) × Loaded self.old ns self.new × Behind number 0 ns result }
    {
        load_cursors(lane.words(), &mut self.seat, &mut self.open_end, number, 0).behind
    }

    /// Says whether an emission is done, and takes back the ticket of one that is: what Kotlin's `emit` waits for.
    ///
    /// Where there are places an accepted emission is done; where there are none, once every cursor, as this call loads it,
    /// is closed or above its number. It accepts nothing: [`scan`](Sequencer::scan) does.
    pub fn poll_emit<B: Allocator>(&mut self, lane: &Lane<B>, ticket: Ticket) -> Emit
        requires { IsSequencerOf lane.now self.old }
        ensures has { PolledOn self.old ticket.0 result self.new }
        ensures same { IsSequencerOf lane.now self.new × IsSameSequencer self.old self.new }
    {
        let Some(index) = self.standing_with(ticket.0) else {
            if self.waiting_with(ticket.0).is_some() {
                return Emit::Waiting;
            }
            return Emit::Gone;
        };
        if self.capacity() > 0 {
            return Emit::Done(self.take_back(index));
        }
        let number = self.standing_at(index).number;
        if self.is_unread(lane, number) {
            return Emit::Waiting;
        }
        Emit::Done(self.take_back(index))
    }

    /// Takes back a ticket: what cancelling the caller of Kotlin's `emit` does. An emission that waits is withdrawn and was
    /// never accepted; one that was accepted stays with the readers.
    pub fn cancel_emit<B: Allocator>(&mut self, _lane: &Lane<B>, ticket: Ticket) -> Withdrawn<u64>
        ensures { WithdrawnFrom self.old ticket.0 result self.new }
    {
        if let Some(index) = self.standing_with(ticket.0) {
            return Withdrawn::Left(self.take_back(index));
        }
        if let Some(index) = self.waiting_with(ticket.0) {
            self.withdraw(index);
            return Withdrawn::Removed;
        }
        Withdrawn::Gone
    }

    /// Whose emission a ticket is for, where it is out.
    pub fn emitter_of(&self, ticket: Ticket) -> Option<u32>
        ensures { MatchOption result (IsNotOut self.now ticket.0) (IsOutFor self.now ticket.0) }
    {
        if let Some(index) = self.standing_with(ticket.0) {
            return Some(self.standing_at(index).emitter);
        }
        let index = self.waiting_with(ticket.0)?;
        Some(self.waiting_at(index).emitter)
    }

    /// The number below which every accepted emission is finished: what Kotlin's `emit` waits for. Where there are places that
    /// is each one; where there are none, this loads every cursor, and the last one counts once each is closed or above it.
    pub fn finished_below<B: Allocator>(&mut self, lane: &Lane<B>) -> u64
        requires { IsSequencerOf lane.now self.old }
        ensures only { OnlyLoaded self.old self.new }
        ensures finished { IsFinishedBelow self.old result self.new }
    {
        let next = self.next_number();
        if self.capacity() > 0 || next == lane.words().shape.first {
            return next;
        }
        if self.is_unread(lane, next - 1) {
            return next - 1;
        }
        next
    }

    /// The first ticket of an emission that isn't finished, where each accepted one below a number is: those before it are
    /// finished, or were taken back, and those from it on aren't, unless they were.
    pub fn first_unfinished(&self, below: u64) -> Option<Ticket>
        ensures { FirstUnfinished self.now below result }
    {
        let index = self
            .standing
            .partition_point(|standing| standing.number < below);
        if index < self.standing.len() {
            return Some(Ticket(self.standing[index].ticket));
        }
        let first = self.waiting.first()?;
        Some(Ticket(first.ticket))
    }

    /// Whether an accepted emission with this ticket is below a number.
    pub fn is_below(&self, ticket: Ticket, number: u64) -> bool
        ensures { result ≡ stands_below self.now.standing ticket.0 number }
    {
        self.standing.iter().any(|standing| standing.ticket == ticket.0 && standing.number < number)
    }
}
