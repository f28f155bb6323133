//! The lane that a sequencer and its readers share, and one function for each kind of atomic step that the sequencer makes on its
//! words. Those of a reader are in `reader.rt`.
//!
//! # The words
//! ```text
//!            tail        cursors, one for each subscriber place       cells: value n lies in cell n % cells
//!          +------+    +------+------+-------+------+    +------+------+------+------+------+------+
//!          |  42  |    |  40  |  42  | CLOSED |  37 |    |  36  |  37  |  38  |  39  |  40  |  41  |
//!          +------+    +------+------+-------+------+    +------+------+------+------+------+------+
//!             |           |      |               |           :      ^                           |
//!    the next emission    |      nothing is      the slowest :      this reader's next value    the last accepted
//!    gets number 42       |      pending         reader      :
//!                         two values are pending             the cell in flight: it takes value 42 next, which is
//!                                                            allowed since no open cursor stands at 36 any more
//! ```
//!
//! # Who may write what
//! | Word | Sequencer | Reader of the place |
//! |---|---|---|
//! | tail | stores: an emission is accepted | |
//! | cell | stores, before the tail | |
//! | cursor | stores, to open a closed one; exchanges, to drop a value | exchanges, to receive; stores, to close |
//!
//! Several values may be in flight: the sequencer stores the cells of the next numbers one after another, and accepts them by
//! one store of the tail. As a reader may load several cells from its position on, and receive them by one exchange.
//!
//! Each step's contract says what it did to the view of the seat that made it.
ghost use Rattle.std.specs.Prelude.{◌≡◌, ◌<◌, length, IfOk, ◌+◌, ◌≤◌, ◌≢◌, [], true, false};
ghost use Rattle.shared_lane.specs.Views.{lane_of};
ghost use Rattle.shared_lane.specs.Layout.{cursor_word, cell_index};
ghost use Rattle.shared_lane.specs.Law.{IsShape};
ghost use Rattle.shared_lane.specs.Seats.{IsNewLane, IsSeatOf, IsMeetingAt, IsSameSeat};
ghost use Rattle.shared_lane.specs.Steps.{next_number, next_to_store, known_of, IsRoomy, IsRoomyAt, MayOpenAt, Surveyed, Filled, FilledNext, Accepted, AcceptedAll};
ghost use Rattle.shared_lane.specs.Steps.{Dropped, Opened, Met, handed_out, new_reader, receipt_of, hearing_end};

use crate::plays::{
    Accept, AcceptAll, Copied, Fill, FillNext, HandOut, HearEnd, Lose, Meet, Open, Survey, Told,
};
use crate::rule::{LaneRule, LaneSeat};
use crate::view::{Shape, View};
use crate::words::{Words, cell_at, cursor_at, lay};
use atomic_table::Table;
use std::alloc::{AllocError, Allocator};
use std::marker::{Brand, Model};

/// The words of a lane: a tail, a cursor for each subscriber place, and the cells. Its sequencer and its readers are lent it
/// at each call, from as many threads as they are on.
///
/// Contracts see which table it is, and what it was made with.
pub struct Lane<A: Allocator> {
    words: Words<A>,
}

impl<A: Allocator> Model for Lane<A> {
    ghost use Rattle.shared_lane.specs.Views.{LaneSeen, lane_of};

    ghost Value = { LaneSeen };

    ghost view = { λ lane. lane_of lane.words };
}

// By hand: who lets one go proves this call alone, and nothing of what it is made of.
impl<A: Allocator> Drop for Lane<A> {
    fn drop(self) {
        let Lane { words } = self;
        drop(words);
    }
}

impl<A: Allocator> Lane<A> {
    pub(crate) fn over(words: Words<A>) -> Lane<A>
        ensures { result ≡ lane_of words }
    {
        Lane { words }
    }

    pub(crate) fn words(&self) -> &Words<A>
        ensures { lane_of result.now ≡ self.now }
    {
        &self.words
    }

    /// How many cells there are.
    pub(crate) fn cells(&self) -> u64
        ensures { result ≡ self.now.shape.cells }
    {
        self.words.shape.cells as u64
    }
}

// How a lane's words are made.
impl<A: Allocator> Words<A> {
    /// A lane where each place is closed, and the sequencer's seat.
    #[tactic(auto, using(crate::proofs::Apart::tail_within))]
    pub fn new(alloc: A, shape: Shape) -> Result<(Words<A>, LaneSeat), AllocError>
    where
        A: Clone,
        requires { IsShape shape }
        ensures { IfOk result (λ t. IsNewLane shape t.0 t.1) }
    {
        let words = lay(alloc.clone()?, shape)?;
        let (table, seat): (Table<(), View, Shape, LaneRule, A>, LaneSeat) = Table::of_words(
            alloc,
            words.as_slice(),
            &shape,
        )?;
        Ok((Words { table, shape }, seat))
    }
}

// The steps of the sequencer.
impl<A: Allocator> Words<A> {
    /// Loads the cursor of a place.
    pub fn load_cursor(&self, seat: &mut LaneSeat, place: usize) -> u64
        requires seat { IsSeatOf self.now seat.old × (seat.old.me.0.sequencing.active ≡ true) × (place < self.now.shape.places) }
        ensures seat { IsSameSeat seat.old seat.new }
        ensures view { Surveyed place seat.old.me.0 result seat.new.me.0 }
    {
        self.table.shared.load::<Survey>(seat, cursor_at(place))
    }

    fn fill<E: Told>(&self, seat: &mut LaneSeat, cell: usize, emitter: u32, word: u64)
        requires told { E.number ≡ emitter }
        requires seat { IsSeatOf self.now seat.old × (seat.old.me.0.sequencing.active ≡ true) }
        requires cell { cell ≡ cell_index self.now.shape (next_number seat.old.me.0) }
        requires room { IsRoomy self.now.shape.cells seat.old.me.0 }
        ensures seat { IsSameSeat seat.old seat.new }
        ensures view { Filled emitter word seat.old.me.0 seat.new.me.0 }
    {
        let _emitter = emitter;
        let at = cell_at(&self.shape, cell);
        self.table.shared.store::<Fill<E>>(seat, at, word);
    }

    /// Stores the word of the next emission in its cell, which has the index `cell`.
    pub fn store_cell(&self, seat: &mut LaneSeat, cell: usize, emitter: u32, word: u64)
        requires seat { IsSeatOf self.now seat.old × (seat.old.me.0.sequencing.active ≡ true) }
        requires cell { cell ≡ cell_index self.now.shape (next_number seat.old.me.0) }
        requires room { IsRoomy self.now.shape.cells seat.old.me.0 }
        ensures seat { IsSameSeat seat.old seat.new }
        ensures view { Filled emitter word seat.old.me.0 seat.new.me.0 }
    {
        self.fill::<Brand>(seat, cell, emitter, word);
    }

    fn fill_next<E: Told>(&self, seat: &mut LaneSeat, cell: usize, emitter: u32, word: u64)
        requires told { E.number ≡ emitter }
        requires seat { IsSeatOf self.now seat.old × (seat.old.me.0.sequencing.active ≡ true) }
        requires cell { cell ≡ cell_index self.now.shape (next_to_store seat.old.me.0) }
        requires room { IsRoomyAt self.now.shape.cells (next_to_store seat.old.me.0) seat.old.me.0 }
        requires short { length seat.old.me.0.sequencing.flight < self.now.shape.cells }
        ensures seat { IsSameSeat seat.old seat.new }
        ensures view { FilledNext emitter word seat.old.me.0 seat.new.me.0 }
    {
        let _emitter = emitter;
        let at = cell_at(&self.shape, cell);
        self.table.shared.store::<FillNext<E>>(seat, at, word);
    }

    /// Stores the word of the emission after those in flight in its cell, which has the index `cell`: it is in flight too,
    /// and no more may be than there are cells.
    pub fn store_next_cell(&self, seat: &mut LaneSeat, cell: usize, emitter: u32, word: u64)
        requires seat { IsSeatOf self.now seat.old × (seat.old.me.0.sequencing.active ≡ true) }
        requires cell { cell ≡ cell_index self.now.shape (next_to_store seat.old.me.0) }
        requires room { IsRoomyAt self.now.shape.cells (next_to_store seat.old.me.0) seat.old.me.0 }
        requires short { length seat.old.me.0.sequencing.flight < self.now.shape.cells }
        ensures seat { IsSameSeat seat.old seat.new }
        ensures view { FilledNext emitter word seat.old.me.0 seat.new.me.0 }
    {
        self.fill_next::<Brand>(seat, cell, emitter, word);
    }

    /// Stores the tail, and so accepts the first emission in flight.
    pub fn store_tail(&self, seat: &mut LaneSeat, tail: u64)
        requires seat { IsSeatOf self.now seat.old × (seat.old.me.0.sequencing.active ≡ true) × (seat.old.me.0.sequencing.flight ≢ []) }
        requires tail { (tail ≡ next_number seat.old.me.0 + 1) × (tail ≤ 4611686018427387904) }
        ensures seat { IsSameSeat seat.old seat.new }
        ensures view { Accepted seat.old.me.0 seat.new.me.0 }
    {
        self.table.shared.store::<Accept>(seat, 0, tail);
    }

    /// Stores the tail past all emissions in flight, and so accepts them.
    pub fn store_tail_past(&self, seat: &mut LaneSeat, tail: u64)
        requires seat { IsSeatOf self.now seat.old × (seat.old.me.0.sequencing.active ≡ true) }
        requires tail { (tail ≡ next_to_store seat.old.me.0) × (tail ≤ 4611686018427387904) }
        ensures seat { IsSameSeat seat.old seat.new }
        ensures view { AcceptedAll seat.old.me.0 seat.new.me.0 }
    {
        self.table.shared.store::<AcceptAll>(seat, 0, tail);
    }

    /// Moves the cursor of a place from `at` up by one, where it still stands there, and returns what it found.
    pub fn lose(&self, seat: &mut LaneSeat, place: usize, at: u64) -> u64
        requires seat { IsSeatOf self.now seat.old × (seat.old.me.0.sequencing.active ≡ true) × (place < self.now.shape.places) }
        requires full { (self.now.shape.drops ≡ true) × (at + self.now.shape.cells ≡ next_number seat.old.me.0) × (at < 18446744073709551615) }
        ensures seat { IsSameSeat seat.old seat.new }
        ensures view { Dropped place at seat.old.me.0 result seat.new.me.0 }
    {
        self.table
            .shared
            .compare_exchange::<Lose>(seat, cursor_at(place), at, at + 1)
    }

    fn open_as<O: Told>(&self, seat: &mut LaneSeat, place: usize, start: u64, opening: u64)
        requires told { O.number ≡ opening }
        requires seat { IsSeatOf self.now seat.old × (seat.old.me.0.sequencing.active ≡ true) × (place < self.now.shape.places) }
        requires closed { ((known_of seat.old.me.0.sequencing place).is_open ≡ false) × (seat.old.me.0.sequencing.flight ≡ []) }
        requires start { MayOpenAt self.now.shape seat.old.me.0 start }
        requires later { (known_of seat.old.me.0.sequencing place).opening < opening }
        ensures seat { IsSameSeat seat.old seat.new }
        ensures view { Opened place start opening seat.old.me.0 seat.new.me.0 }
    {
        let _opening = opening;
        self.table
            .shared
            .store::<Open<O>>(seat, cursor_at(place), start);
    }

    /// Opens the cursor of a closed place at `start`, by an opening with a number above that of the place's last one.
    pub fn open(&self, seat: &mut LaneSeat, place: usize, start: u64, opening: u64)
        requires seat { IsSeatOf self.now seat.old × (seat.old.me.0.sequencing.active ≡ true) × (place < self.now.shape.places) }
        requires closed { ((known_of seat.old.me.0.sequencing place).is_open ≡ false) × (seat.old.me.0.sequencing.flight ≡ []) }
        requires start { MayOpenAt self.now.shape seat.old.me.0 start }
        requires later { (known_of seat.old.me.0.sequencing place).opening < opening }
        ensures seat { IsSameSeat seat.old seat.new }
        ensures view { Opened place start opening seat.old.me.0 seat.new.me.0 }
    {
        self.open_as::<Brand>(seat, place, start, opening);
    }

    /// Loads the cursor of the reader that the seat has taken in.
    pub fn meet_cursor(&self, seat: &mut LaneSeat, place: usize) -> u64
        requires seat { IsMeetingAt self.now seat.old place }
        ensures seat { IsSameSeat seat.old seat.new }
        ensures view { Met (cursor_word place) seat.old.me.0 result seat.new.me.0 }
    {
        self.table.shared.load::<Meet>(seat, cursor_at(place))
    }
}

// Seats are split and joined.
impl<A: Allocator> Words<A> {
    fn split_copy<N: Told>(&self, seat: &mut LaneSeat, count: u64) -> LaneSeat
        requires told { N.number ≡ count }
        requires seat { IsSeatOf self.now seat.old }
        ensures seat { IsSameSeat seat.old seat.new × (seat.new.me.0 ≡ seat.old.me.0) }
        ensures copy { IsSeatOf self.now result × (result.me ≡ (receipt_of count seat.old.me.0, [])) }
    {
        let _count = count;
        self.table.shared.split_seat::<Copied<N>>(seat)
    }

    /// A seat that knows the first `count` entries.
    pub fn copy_seen(&self, seat: &mut LaneSeat, count: u64) -> LaneSeat
        requires { IsSeatOf self.now seat.old }
        ensures seat { IsSameSeat seat.old seat.new × (seat.new.me.0 ≡ seat.old.me.0) }
        ensures copy { IsSeatOf self.now result × (result.me ≡ (receipt_of count seat.old.me.0, [])) }
    {
        self.split_copy::<Brand>(seat, count)
    }

    fn split_reader<P: Told>(&self, seat: &mut LaneSeat, place: usize) -> LaneSeat
        requires told { P.number ≡ place }
        requires seat { IsSeatOf self.now seat.old × (seat.old.me.0.sequencing.active ≡ true) × (place < self.now.shape.places) }
        requires opened { ((known_of seat.old.me.0.sequencing place).is_open ≡ true) × ((known_of seat.old.me.0.sequencing place).unread ≡ true) }
        ensures seat { IsSameSeat seat.old seat.new × (seat.new.me.0 ≡ handed_out place seat.old.me.0) }
        ensures reader { IsSeatOf self.now result × (result.me ≡ (new_reader place seat.old.me.0, [])) }
    {
        let _place = place;
        self.table.shared.split_seat::<HandOut<P>>(seat)
    }

    /// The seat of a reader of an open place that has none yet.
    pub fn hand_out(&self, seat: &mut LaneSeat, place: usize) -> LaneSeat
        requires seat { IsSeatOf self.now seat.old × (seat.old.me.0.sequencing.active ≡ true) × (place < self.now.shape.places) }
        requires opened { ((known_of seat.old.me.0.sequencing place).is_open ≡ true) × ((known_of seat.old.me.0.sequencing place).unread ≡ true) }
        ensures seat { IsSameSeat seat.old seat.new × (seat.new.me.0 ≡ handed_out place seat.old.me.0) }
        ensures reader { IsSeatOf self.now result × (result.me ≡ (new_reader place seat.old.me.0, [])) }
    {
        self.split_reader::<Brand>(seat, place)
    }

    /// The sequencer's seat hears of the end of a reader: the reader's place is closed, unless it was opened again.
    pub fn hear_end(&self, seat: &mut LaneSeat, end: LaneSeat)
        requires seat { IsSeatOf self.now seat.old × (seat.old.me.0.sequencing.active ≡ true) }
        requires end { IsSeatOf self.now end × (end.me.1 ≡ []) × (end.me.0.reading.quit ≡ true) }
        ensures { IsSameSeat seat.old seat.new × (seat.new.me.0 ≡ hearing_end seat.old.me.0 end.me.0) }
    {
        self.table.shared.join_seat::<HearEnd>(seat, end);
    }
}
