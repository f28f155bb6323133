//! Emissions by the block: several cells are stored, and accepted by one store of the tail.
ghost use Rattle.std.specs.Prelude.{◌≡◌, ◌≢◌, ℕ, ◌+◌, ◌<◌, ◌≤◌, [], length, false, IfOk, IfErr, List, true};
ghost use Rattle.flow_terms.specs.declared.policy.Policy.TheVariants.{Suspend, DropOldest};
ghost use Rattle.shared_lane.specs.Steps.{IsRoomyAt, next_number};
ghost use Rattle.shared_lane.specs.Sequencers.{IsSequencerOf, IsSameSequencer, LoadedOrMoved, Passed, HasNumber, RefusedTry, AfterScan, next};
ghost use Rattle.shared_lane.specs.Blocks.{entries, accepted_all, PassedFor, AcceptedSome, TriedAllOn, HasRoom, LeavesRoom, with_flight};
ghost use Rattle.shared_lane.specs.Law.{closed};
ghost use Rattle.shared_lane.specs.Layout.{cell_index};
ghost use Rattle.shared_lane.specs.Seats.{IsSeatOf, IsSameSeat};
ghost use Rattle.shared_lane.specs.Surveys.{KnowsPlaces, MayDrop, WholePass, FoundAt, Cleared, ShutFrom};

use super::{LIMIT, Sequencer, clear_one, end_at, end_with};
use crate::lane::Lane;
use crate::rule::LaneSeat;
use crate::words::{CLOSED, Words};
use flow_terms::{Policy, Refusal};
use std::alloc::Allocator;

impl<A: Allocator> Sequencer<A> {
    // Loads every cursor that may be open, as a try does, and says for how many of `most` emissions there is room: the first finds it by these
    // loads, and each of the others would.
    fn find_room_for<B: Allocator>(&mut self, lane: &Lane<B>, most: u64) -> u64
        requires lane { IsSequencerOf lane.now self.old }
        requires some { 0 < most }
        ensures only { LoadedOrMoved self.old self.new }
        ensures few { result ≤ most }
        ensures none { result ≡ 0 → Passed self.old.capacity self.old false self.new × (self.new.policy ≢ DropOldest) }
        ensures some { 0 < result → PassedFor self.old.policy result self.old self.new.view }
        ensures room { (n : ℕ) → next self.old ≤ n → n < next self.old + result → IsRoomyAt self.new.view.shape.cells n self.new.view }
    {
        let words = lane.words();
        if let Policy::DropOldest = self.policy {
            let room = clear_room(words, &mut self.seat, &mut self.open_end, self.tail, most);
            if room == 0 {
                return 1;
            }
            return room;
        }
        load_room(
            words,
            &mut self.seat,
            &mut self.open_end,
            self.tail,
            self.capacity,
            most,
        )
    }

    // How many of so many words a block may have: as many as there are cells, and numbers left.
    fn block_limit<B: Allocator>(&self, lane: &Lane<B>, count: usize) -> u64
        requires lane { IsSequencerOf lane.now self.now }
        requires first { self.now.waiting ≡ [] }
        ensures few { (result ≤ count) × (result ≤ self.now.view.shape.cells) × (next self.now + result ≤ 4611686018427387904) }
        ensures spent { result ≡ 0 → 0 < count → next self.now + length self.now.waiting ≡ 4611686018427387904 }
    {
        let cells = lane.cells();
        let numbers = LIMIT - self.tail;
        cells.min(numbers).min(count as u64)
    }

    // Accepts a block: its cells are stored in order, then the tail, once.
    fn accept_all<B: Allocator>(&mut self, lane: &Lane<B>, emitter: u32, block: &[u64])
        requires lane { IsSequencerOf lane.now self.old }
        requires room { (n : ℕ) → next self.old ≤ n → n < next self.old + length block.now → IsRoomyAt self.old.view.shape.cells n self.old.view }
        requires short { length block.now ≤ self.old.view.shape.cells }
        requires number { next self.old + length block.now + length self.old.waiting ≤ 4611686018427387904 }
        ensures { self.new ≡ accepted_all (entries emitter block.now) self.old }
    {
        let words = lane.words();
        let tail = self.tail + block.len() as u64;
        let cell = store_cells(words, &mut self.seat, self.cell, emitter, block);
        words.store_tail_past(&mut self.seat, tail);
        self.tail = tail;
        self.cell = cell;
        self.cache.extend_from_slice(block);
    }

    // Accepts some of the words, from the first on: those for which one pass over the cursors finds room.
    fn accept_some<B: Allocator>(&mut self, lane: &Lane<B>, emitter: u32, words: &[u64]) -> usize
        requires lane { IsSequencerOf lane.now self.old }
        requires first { self.old.waiting ≡ [] }
        requires some { 0 < length words.now }
        ensures same { IsSequencerOf lane.now self.new × IsSameSequencer self.old self.new × (self.new.waiting ≡ []) }
        ensures accepted { AcceptedSome self.old emitter words.now result self.new }
    {
        let most = self.block_limit(lane, words.len());
        if most == 0 {
            return 0;
        }
        let room = self.find_room_for(lane, most) as usize;
        if room > 0 {
            self.accept_all(lane, emitter, &words[..room]);
        }
        room
    }

    // Accepts block after block, up to the first word that is turned away, and returns how many words.
    fn accept_blocks<B: Allocator>(&mut self, lane: &Lane<B>, emitter: u32, words: &[u64]) -> u64
        requires lane { IsSequencerOf lane.now self.old }
        requires first { self.old.waiting ≡ [] }
        ensures same { IsSequencerOf lane.now self.new × IsSameSequencer self.old self.new }
        ensures tried { TriedAllOn self.old emitter words.now result self.new }
    {
        let mut done = 0;
        while done < words.len() {
            let count = self.accept_some(lane, emitter, &words[done..]);
            if count == 0 {
                return done as u64;
            }
            done += count;
        }
        done as u64
    }

    /// Emits these words in order, up to the first that isn't accepted, and returns how many were: what
    /// [`try_emit`](Sequencer::try_emit) of one after another comes to, but one look at the cursors and one store of the tail
    /// serve for as many as there is room for. Kotlin has no such call.
    ///
    /// It first accepts waiting emissions, and what it accepted stands whatever it answers. Under `Suspend` it stops where a try
    /// would be `Full`, under `DropLatest` where one would be `Dropped`; under `DropOldest` all are accepted, and each reader
    /// loses what it would have lost. Refused: `Spent` where the numbers are used up, and none was accepted.
    pub fn try_emit_all<B: Allocator>(
        &mut self,
        lane: &Lane<B>,
        emitter: u32,
        words: &[u64],
    ) -> Result<u64, Refusal>
        requires { IsSequencerOf lane.now self.old }
        ensures has { IfOk result (λ n. AfterScan self.old (λ m. TriedAllOn m emitter words.now n self.new)) }
        ensures same { IsSequencerOf lane.now self.new × IsSameSequencer self.old self.new }
        ensures refused { IfErr result (λ e. (words.now ≢ []) × AfterScan self.old (λ m. RefusedTry m e self.new)) }
    {
        self.scan(lane);
        self.try_all_after_scan(lane, emitter, words)
    }

    // The same, after waiting emissions were accepted.
    fn try_all_after_scan<B: Allocator>(
        &mut self,
        lane: &Lane<B>,
        emitter: u32,
        words: &[u64],
    ) -> Result<u64, Refusal>
        requires { IsSequencerOf lane.now self.old }
        ensures same { IsSequencerOf lane.now self.new × IsSameSequencer self.old self.new }
        ensures refused { IfErr result (λ e. (words.now ≢ []) × RefusedTry self.old e self.new) }
        ensures tried { IfOk result (λ n. TriedAllOn self.old emitter words.now n self.new) }
    {
        if words.is_empty() {
            return Ok(0);
        }
        if self.is_spent() {
            return Err(Refusal::Spent);
        }
        if self.is_waiting() {
            return Ok(0);
        }
        Ok(self.accept_blocks(lane, emitter, words))
    }
}

// For how many of `most` emissions a cursor leaves room: it doesn't stand `lag` or more behind any of them.
fn room_left(at: u64, tail: u64, lag: u64, most: u64) -> u64
    requires { at ≢ closed → at ≤ tail }
    ensures { LeavesRoom tail lag at most result }
{
    if at == CLOSED {
        return most;
    }
    lag.saturating_sub(tail - at).min(most)
}

/// Loads every cursor that may be open: those of the places before `open_end`, which becomes the place after the last one that
/// was found open. It says for how many of `most` emissions they leave room.
pub(crate) fn load_room<A: Allocator>(
    words: &Words<A>,
    seat: &mut LaneSeat,
    open_end: &mut usize,
    tail: u64,
    lag: u64,
    most: u64,
) -> u64
    requires seat { IsSeatOf words.now seat.old × (seat.old.me.0.sequencing.active ≡ true) × (tail ≡ next_number seat.old.me.0) }
    requires sized { KnowsPlaces words.now.shape seat.old.me.0 }
    requires beyond { (open_end.old ≤ words.now.shape.places) × ShutFrom seat.old.me.0 open_end.old }
    ensures seat { IsSameSeat seat.old seat.new }
    ensures found { (ns : List ℕ) × (length ns ≡ words.now.shape.places) × WholePass FoundAt seat.old.me.0 ns seat.new.me.0 × HasRoom tail lag ns most result }
    ensures beyond { (open_end.new ≤ open_end.old) × ShutFrom seat.new.me.0 open_end.new }
{
    let mut room = most;
    let mut end = 0;
    for place in 0..*open_end {
        let at = words.load_cursor(seat, place);
        room = room_left(at, tail, lag, room);
        end = end_with(end, place, at);
    }
    end_at(open_end, end);
    room
}

/// The same, where those that stand too far behind the tail are moved by one.
pub(crate) fn clear_room<A: Allocator>(
    words: &Words<A>,
    seat: &mut LaneSeat,
    open_end: &mut usize,
    tail: u64,
    most: u64,
) -> u64
    requires seat { IsSeatOf words.now seat.old × (seat.old.me.0.sequencing.active ≡ true) × (tail ≡ next_number seat.old.me.0) }
    requires sized { MayDrop words.now.shape seat.old.me.0 }
    requires beyond { (open_end.old ≤ words.now.shape.places) × ShutFrom seat.old.me.0 open_end.old }
    ensures seat { IsSameSeat seat.old seat.new }
    ensures found { (ns : List ℕ) × (length ns ≡ words.now.shape.places) × WholePass (Cleared tail words.now.shape.cells) seat.old.me.0 ns seat.new.me.0
        × HasRoom tail words.now.shape.cells ns most result }
    ensures beyond { (open_end.new ≤ open_end.old) × ShutFrom seat.new.me.0 open_end.new }
{
    let mut room = most;
    let mut end = 0;
    for place in 0..*open_end {
        let at = clear_one(words, seat, place, tail);
        room = room_left(at, tail, words.shape.cells as u64, room);
        end = end_with(end, place, at);
    }
    end_at(open_end, end);
    room
}

/// Stores the cells of a block, which begin at the index `cell`, and returns the index of the cell after them.
pub(crate) fn store_cells<A: Allocator>(
    words: &Words<A>,
    seat: &mut LaneSeat,
    cell: usize,
    emitter: u32,
    block: &[u64],
) -> usize
    requires seat { IsSeatOf words.now seat.old × (seat.old.me.0.sequencing.active ≡ true) × (seat.old.me.0.sequencing.flight ≡ []) }
    requires cell { cell ≡ cell_index words.now.shape (next_number seat.old.me.0) }
    requires room { (n : ℕ) → next_number seat.old.me.0 ≤ n → n < next_number seat.old.me.0 + length block.now → IsRoomyAt words.now.shape.cells n seat.old.me.0 }
    requires short { length block.now ≤ words.now.shape.cells }
    ensures seat { IsSameSeat seat.old seat.new }
    ensures view { seat.new.me.0 ≡ with_flight (entries emitter block.now) seat.old.me.0 }
    ensures cell { result ≡ cell_index words.now.shape (next_number seat.old.me.0 + length block.now) }
{
    let mut next = cell;
    for word in block {
        words.store_next_cell(seat, next, emitter, *word);
        next = words.next_index(next);
    }
    next
}
