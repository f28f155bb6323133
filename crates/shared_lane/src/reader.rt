//! A reader: one subscriber's end of the lane, and one function for each kind of atomic step that it makes on the lane's words.
ghost use Rattle.std.specs.Prelude.{◌≡◌, ◌≢◌, ◌+◌, ◌<◌, ◌≤◌, [], true, length};
ghost use Rattle.flow_terms.specs.Lists.{IsPrefix};
ghost use Rattle.shared_lane.specs.Views.{reader_of};
ghost use Rattle.shared_lane.specs.declared.reader.Taken.TheVariants.{Nothing};
ghost use Rattle.shared_lane.specs.Kept.{IsReading};
ghost use Rattle.shared_lane.specs.Readers.{IsReaderOf, IsReceiptOf, IsSameReader, TookNext, at, received_count, lost_count, end_of, WentTo};
ghost use Rattle.shared_lane.specs.Law.{lost};
ghost use Rattle.shared_lane.specs.Layout.{cursor_word, cell_index, cell_word};
ghost use Rattle.shared_lane.specs.Seats.{IsSeatOf, IsSameSeat, IsReaderAt};
ghost use Rattle.shared_lane.specs.Steps.{next_number, position, next_to_pick, Noticed, Picked, PickedNext, Took, TookPicked, Looked, HasQuit, witness};
ghost use Rattle.shared_lane.specs.Steps.{without_reader, only_reader, telling, joined, end_note};
ghost use Rattle.shared_lane.specs.Sequencers.{IsSequencerOf, OnlyLoaded, seen, next};
ghost use Rattle.shared_lane.specs.Places.{lost_by, LosesNothing};

use crate::closed::Closed;
use crate::lane::Lane;
use crate::plays::{
    CopiedAll, CopiedEnd, Enter, Hear, Leave, Look, Notice, Pick, PickNext, Quit, Take, TakePicked,
};
use crate::receipt::Receipt;
use crate::rule::LaneSeat;
use crate::sequencer::Sequencer;
use crate::words::{CLOSED, Words, cell_at, cursor_at};
use std::alloc::Allocator;
use std::marker::Model;

mod blocks;

/// What an attempt to take the next value came to.
#[derive(Clone, Copy, Debug, PartialEq, Eq)]
pub enum Taken<T> {
    /// The value at the reader's position, which it received by this.
    Value(T),
    /// All accepted values were received or dropped, as far as the tail that was loaded.
    Nothing,
    /// The sequencer moved the cursor past the value in the meantime: nothing was received, and the position rose.
    Overtaken,
}

/// One subscriber's end of a lane, on one thread at a time. It must be spent, by [`close`](Reader::close).
///
/// Contracts see where it began, for each number from there on whether it was received, and the accepted emissions that
/// it has seen.
pub struct Reader {
    // A token of no bytes, with what the proofs know of the seat.
    pub(crate) seat: LaneSeat,
    // The place whose cursor it moves.
    pub(crate) place: usize,
    // The number at which its cursor was opened.
    pub(crate) start: u64,
    // The number of the next value, as it has seen it.
    pub(crate) at: u64,
    // The index of that value's cell: counted up, so that a receipt needs no division.
    pub(crate) cell: usize,
    // How many values it received.
    pub(crate) taken: u64,
}

impl Model for Reader {
    ghost use Rattle.shared_lane.specs.Views.{ReaderSeen, reader_of};
    ghost use Rattle.shared_lane.specs.Kept.{IsReading};

    ghost Value = { ReaderSeen };

    ghost view = { λ r. reader_of r.seat };

    ghost invariant = { λ r. IsReading r.seat r.place r.start r.at r.cell r.taken };
}

// Where they are the same, which is nearly always, nothing is written: the exchange that follows would wait for it.
/// Puts a position and the index of its cell in the place of those before.
#[inline(always)]
fn stand_at(position: &mut u64, cell: &mut usize, found: u64, index: usize)
    requires { position.old ≡ found → cell.old ≡ index }
    ensures { (position.new ≡ found) × (cell.new ≡ index) }
{
    if *position != found {
        *position = found;
        *cell = index;
    }
}

impl Reader {
    pub(crate) fn at_start(seat: LaneSeat, place: usize, start: u64, cell: usize) -> Reader
        requires { IsReading seat place start start cell 0 }
        ensures { result ≡ reader_of seat }
    {
        Reader {
            seat,
            place,
            start,
            at: start,
            cell,
            taken: 0,
        }
    }

    /// Takes the next value, by two loads, a load of the value and one exchange; without a lock.
    ///
    /// `Nothing` where the tail that it loaded is its position: no accepted emission that it has seen, or was
    /// [told](Reader::told), lies at or past it. `Overtaken` only on a lane that drops the oldest values. Kotlin has no
    /// such call: there `collect` suspends where this answers `Nothing`.
    pub fn try_next<A: Allocator>(&mut self, lane: &Lane<A>) -> Taken<u64>
        requires { IsReaderOf lane.now self.old }
        ensures has { TookNext self.old result self.new }
        ensures same { IsReaderOf lane.now self.new × IsSameReader self.old self.new }
        ensures told { result ≡ Nothing → IsPrefix self.old.told self.new.seen }
    {
        let words = lane.words();
        let at = words.load_own(&mut self.seat, self.place);
        let cell = words.index_from(self.at, self.cell, at);
        stand_at(&mut self.at, &mut self.cell, at, cell);
        let tail = words.load_tail(&mut self.seat);
        if tail == at {
            return Taken::Nothing;
        }
        let word = words.load_cell(&mut self.seat, cell);
        let found = words.receive(&mut self.seat, self.place, at);
        if found != at {
            self.at = found;
            self.cell = words.index_of(found);
            return Taken::Overtaken;
        }
        self.at = at + 1;
        self.cell = words.next_index(cell);
        self.taken += 1;
        Taken::Value(word)
    }

    /// The reader hears of an accepted emission, by a load of the tail: from then on it has seen all that the receipt
    /// holds. Its position stays.
    pub fn told<A: Allocator>(&mut self, lane: &Lane<A>, receipt: &mut Receipt)
        requires { IsReaderOf lane.now self.old × IsReceiptOf lane.now receipt.old }
        ensures same { IsReaderOf lane.now self.new × IsSameReader self.old self.new × (self.new.story ≡ self.old.story) }
        ensures receipt { receipt.new ≡ receipt.old }
        ensures told { IsPrefix receipt.old.seen self.new.seen }
    {
        let words = lane.words();
        let copy = receipt.copied(lane);
        words.hear(&mut self.seat, copy);
        words.load_tail(&mut self.seat);
    }

    /// The number at which it began: that of the oldest value of the replay cache, as it was then.
    pub fn start(&self) -> u64
        ensures { result ≡ self.now.start }
    {
        self.start
    }

    /// How many values it received.
    pub fn received(&self) -> u64
        ensures { result ≡ received_count self.now }
    {
        self.taken
    }

    /// How many values were dropped for it, as far as it has seen.
    pub fn dropped(&self) -> u64
        ensures lost { result ≡ lost_count self.now }
        ensures sum { self.now.start + received_count self.now + result ≡ at self.now }
    {
        self.at - self.start - self.taken
    }

    /// Closes its cursor, so that its place can be used again and holds nobody back. What was pending is given up.
    ///
    /// What it answers holds the seat that closed the cursor: by the lane's law the place is closed from then on, until the
    /// sequencer opens it again. The sequencer knows so once it is [told](crate::Sequencer::told_end).
    pub fn close<A: Allocator>(self, lane: &Lane<A>) -> Closed
        requires { IsReaderOf lane.now self }
        ensures { result ≡ end_of self }
    {
        let start = self.start();
        let received = self.received();
        let dropped = self.dropped();
        let Reader {
            mut seat,
            place,
            start: _,
            at: _,
            cell: _,
            taken: _,
        } = self;
        lane.words().quit(&mut seat, place);
        Closed::of(seat, start, received, dropped)
    }
}

/// What became of the emissions from a reader's start on: `accepted - received - dropped` are pending.
#[derive(Clone, Copy, Debug, PartialEq, Eq, Drop)]
pub struct Met {
    /// How many were accepted.
    pub accepted: u64,
    /// How many of these the reader received.
    pub received: u64,
    /// How many were dropped for it.
    pub dropped: u64,
}

/// Sequencer and reader compare what they know, where one thread has both: the reader learns of all accepted emissions
/// and of all that it lost, and the counts are exact. One load of the reader's cursor.
pub fn meet<A: Allocator, B: Allocator>(
    lane: &Lane<B>,
    sequencer: &mut Sequencer<A>,
    reader: &mut Reader,
) -> Met
    requires { IsSequencerOf lane.now sequencer.old × IsReaderOf lane.now reader.old }
    ensures sequencer { OnlyLoaded sequencer.old sequencer.new }
    ensures kept { LosesNothing sequencer.old sequencer.new }
    ensures reader { IsReaderOf lane.now reader.new × IsSameReader reader.old reader.new × WentTo (at reader.new) reader.old reader.new }
    ensures seen { reader.new.seen ≡ seen sequencer.new }
    ensures lost { lost reader.new.start reader.new.story ≡ lost_by sequencer.new reader.new.place }
    ensures accepted { reader.new.start + result.accepted ≡ next sequencer.new }
    ensures within { at reader.new ≤ next sequencer.new }
    ensures counts { (result.received ≡ received_count reader.new) × (result.dropped ≡ lost_count reader.new) }
{
    let words = lane.words();
    let part = words.split_reading(&mut reader.seat);
    words.join_reading(&mut sequencer.seat, part);
    let at = words.meet_cursor(&mut sequencer.seat, reader.place);
    reader.seat = words.split_reading(&mut sequencer.seat);
    reader.cell = words.index_from(reader.at, reader.cell, at);
    reader.at = at;
    Met {
        accepted: sequencer.tail - reader.start,
        received: reader.taken,
        dropped: at - reader.start - reader.taken,
    }
}

/// A look of a reader for the next value, where one thread has both ends: it hears of all that the sequencer has accepted, and then
/// takes the next value as [`try_next`](Reader::try_next) does, by the same loads. So `Nothing` says that all of it was received or
/// dropped.
pub fn look<A: Allocator, B: Allocator>(
    lane: &Lane<B>,
    sequencer: &mut Sequencer<A>,
    reader: &mut Reader,
) -> Taken<u64>
    requires { IsSequencerOf lane.now sequencer.old × IsReaderOf lane.now reader.old }
    ensures sequencer { sequencer.new ≡ sequencer.old }
    ensures same { IsReaderOf lane.now reader.new × IsSameReader reader.old reader.new }
    ensures taken { TookNext reader.old result reader.new }
    ensures nothing { result ≡ Nothing → next sequencer.old ≤ at reader.new }
{
    let words = lane.words();
    let accepted = words.copy_all(&mut sequencer.seat);
    words.hear(&mut reader.seat, accepted);
    reader.try_next(lane)
}

// The steps of a reader.
impl<A: Allocator> Words<A> {
    /// Loads the tail.
    pub fn load_tail(&self, seat: &mut LaneSeat) -> u64
        requires seat { IsSeatOf self.now seat.old × (seat.old.me.0.reading.active ≡ true) }
        ensures seat { IsSameSeat seat.old seat.new }
        ensures view { Noticed seat.old.me.0 result seat.new.me.0 }
    {
        self.table.shared.load::<Notice>(seat, 0)
    }

    /// Loads the cell of the reader's position, which has the index `cell`.
    pub fn load_cell(&self, seat: &mut LaneSeat, cell: usize) -> u64
        requires seat { IsSeatOf self.now seat.old × (seat.old.me.0.reading.active ≡ true) }
        requires cell { cell ≡ cell_index self.now.shape (position seat.old.me.0.reading) }
        requires position { position seat.old.me.0.reading < next_number seat.old.me.0 }
        ensures seat { IsSameSeat seat.old seat.new }
        ensures view { Picked (cell_word self.now.shape (position seat.old.me.0.reading)) seat.old.me.0 result seat.new.me.0 }
    {
        let word = cell_at(&self.shape, cell);
        self.table.shared.load::<Pick>(seat, word)
    }

    /// Loads the cell of the number after those that the reader has picked, which has the index `cell`.
    pub fn load_next_cell(&self, seat: &mut LaneSeat, cell: usize) -> u64
        requires seat { IsSeatOf self.now seat.old × (seat.old.me.0.reading.active ≡ true) }
        requires cell { cell ≡ cell_index self.now.shape (next_to_pick seat.old.me.0.reading) }
        requires position { next_to_pick seat.old.me.0.reading < next_number seat.old.me.0 }
        ensures seat { IsSameSeat seat.old seat.new }
        ensures view { PickedNext (cell_word self.now.shape (next_to_pick seat.old.me.0.reading)) seat.old.me.0 result seat.new.me.0 }
    {
        let index = cell_at(&self.shape, cell);
        self.table.shared.load::<PickNext>(seat, index)
    }

    /// Moves the reader's cursor from `at` up by one, where it still stands there, and returns what it found.
    pub fn receive(&self, seat: &mut LaneSeat, place: usize, at: u64) -> u64
        requires seat { IsReaderAt self.now seat.old place }
        requires position { (at ≡ position seat.old.me.0.reading) × (at < next_number seat.old.me.0) × (at < 18446744073709551615) }
        requires picked { seat.old.me.0.reading.picked ≢ [] }
        ensures seat { IsSameSeat seat.old seat.new }
        ensures view { Took at seat.old.me.0 result seat.new.me.0 }
    {
        self.table
            .shared
            .compare_exchange::<Take>(seat, cursor_at(place), at, at + 1)
    }

    /// Moves the reader's cursor from `at` past all that it has picked, which are `count` words, where it still stands
    /// there, and returns what it found.
    pub fn receive_picked(&self, seat: &mut LaneSeat, place: usize, at: u64, count: u64) -> u64
        requires seat { IsReaderAt self.now seat.old place }
        requires position { (at ≡ position seat.old.me.0.reading) × (at + count ≤ next_number seat.old.me.0) × (at + count ≤ 18446744073709551615) }
        requires picked { length seat.old.me.0.reading.picked ≡ count }
        ensures seat { IsSameSeat seat.old seat.new }
        ensures view { TookPicked at seat.old.me.0 result seat.new.me.0 }
    {
        self.table
            .shared
            .compare_exchange::<TakePicked>(seat, cursor_at(place), at, at + count)
    }

    /// Loads the reader's cursor.
    pub fn load_own(&self, seat: &mut LaneSeat, place: usize) -> u64
        requires seat { IsReaderAt self.now seat.old place }
        ensures seat { IsSameSeat seat.old seat.new }
        ensures view { Looked (cursor_word place) seat.old.me.0 result seat.new.me.0 }
    {
        self.table.shared.load::<Look>(seat, cursor_at(place))
    }

    /// Closes the reader's cursor.
    pub fn quit(&self, seat: &mut LaneSeat, place: usize)
        requires seat { IsReaderAt self.now seat.old place }
        ensures seat { IsSameSeat seat.old seat.new }
        ensures view { HasQuit seat.old.me.0 seat.new.me.0 }
    {
        self.table
            .shared
            .store::<Quit>(seat, cursor_at(place), CLOSED);
    }
}

// The seats of a reader are split and joined.
impl<A: Allocator> Words<A> {
    /// A seat that knows the same entries.
    pub fn copy_all(&self, seat: &mut LaneSeat) -> LaneSeat
        requires { IsSeatOf self.now seat.old }
        ensures seat { IsSameSeat seat.old seat.new × (seat.new.me.0 ≡ seat.old.me.0) }
        ensures copy { IsSeatOf self.now result × (result.me ≡ (witness seat.old.me.0.shape seat.old.me.0.seen, [])) }
    {
        self.table.shared.split_seat::<CopiedAll>(seat)
    }

    /// The seat hears of what another has seen. Its next load compares both.
    pub fn hear(&self, seat: &mut LaneSeat, other: LaneSeat)
        requires { IsSeatOf self.now seat.old × IsSeatOf self.now other × (other.me.1 ≡ []) }
        ensures seat { IsSameSeat seat.old seat.new × (seat.new.me.0 ≡ telling seat.old.me.0 other.me.0) }
    {
        self.table.shared.join_seat::<Hear>(seat, other);
    }

    /// The reader's part leaves a seat.
    pub fn split_reading(&self, seat: &mut LaneSeat) -> LaneSeat
        requires { IsSeatOf self.now seat.old × (seat.old.me.0.reading.active ≡ true) }
        ensures seat { IsSameSeat seat.old seat.new × (seat.new.me.0 ≡ without_reader seat.old.me.0) }
        ensures reader { IsSeatOf self.now result × (result.me ≡ (only_reader seat.old.me.0, [])) }
    {
        self.table.shared.split_seat::<Leave>(seat)
    }

    /// The reader's part comes into the sequencer's seat.
    pub fn join_reading(&self, seat: &mut LaneSeat, reader: LaneSeat)
        requires seat { IsSeatOf self.now seat.old × (seat.old.me.0.sequencing.active ≡ true) }
        requires reader { IsSeatOf self.now reader × (reader.me.1 ≡ []) × (reader.me.0.reading.active ≡ true) }
        ensures { IsSameSeat seat.old seat.new × (seat.new.me.0 ≡ joined seat.old.me.0 reader.me.0) }
    {
        self.table.shared.join_seat::<Enter>(seat, reader);
    }

    /// A seat that knows the end of a reader, as this one does, which closed that reader's cursor.
    pub fn copy_end(&self, seat: &mut LaneSeat) -> LaneSeat
        requires { IsSeatOf self.now seat.old × (seat.old.me.0.reading.quit ≡ true) }
        ensures seat { IsSameSeat seat.old seat.new × (seat.new.me.0 ≡ seat.old.me.0) }
        ensures copy { IsSeatOf self.now result × (result.me ≡ (end_note seat.old.me.0, [])) }
    {
        self.table.shared.split_seat::<CopiedEnd>(seat)
    }
}
