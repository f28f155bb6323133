//! The kinds of step on the two words: one function for each, and what its seat knows after it.
ghost use Rattle.std.specs.Prelude.{◌≡◌, ◌<◌, ◌≤◌, [], true, false};
ghost use mathlib.Core.Option.{none};
ghost use Rattle.atomic_table.specs.Table.{step};
ghost use Rattle.state_flow.specs.History.{IsHistory};
ghost use Rattle.state_flow.specs.Views.{HasAll, running, giver, taker, keeper};
ghost use Rattle.state_flow.specs.Calls.{Reads, Sets, Compares, Counts, Begins, Ends, Launches, Cancels, KnewAll, SetsAlone, ComparesAlone};
ghost use Rattle.state_flow.specs.Steps.{gathered};

use super::StateFlow;
use crate::plays::{
    Begin, Cancel, Compare, Cut, End, Gather, GivenShare, Launch, Look, Merge, Put, Tally,
};
use crate::view::View;
use atomic_table::Seat;
use flow_terms::Word;
use std::alloc::Allocator;

impl<T: Word, A: Allocator> StateFlow<T, A> {
    /// The value, as it is now.
    pub(crate) fn load(&self, seat: &mut Seat<(), View<T>>) -> T
        requires same_flow { seat.old.table_id ≡ self.now.table.shared.table_id }
        requires has_share { 0 < seat.old.me.0.share }
        ensures same_flow { seat.new.table_id ≡ seat.old.table_id }
        ensures same_slots { seat.new.me.1 ≡ seat.old.me.1 }
        ensures value { Reads seat.old.me.0 result seat.new.me.0 }
        ensures alone { HasAll seat.old.me.0 → KnewAll seat.old.me.0 seat.new.me.0.seen seat.new.me.0.turn }
        ensures few { seat.new.me.0.share ≤ 1024 }
    {
        let word = self.table.shared.load::<Look>(seat, 0);
        T::from_word(word)
    }

    /// The word of the value, for a collector. Its caller compares the value with the last one that it gave.
    pub(crate) fn gather(&self, seat: &mut Seat<(), View<T>>) -> u64
        requires same_flow { seat.old.table_id ≡ self.now.table.shared.table_id }
        requires has_share { 0 < seat.old.me.0.share }
        ensures same_flow { seat.new.table_id ≡ seat.old.table_id }
        ensures value { gathered T.word T.fits (step 0 0 0 0 none) seat.old.me result seat.new.me }
    {
        self.table.shared.load::<Gather>(seat, 0)
    }

    /// Writes a value, whatever it was.
    pub(crate) fn swap(&self, seat: &mut Seat<(), View<T>>, value: T)
        requires same_flow { seat.old.table_id ≡ self.now.table.shared.table_id }
        requires has_share { 0 < seat.old.me.0.share }
        ensures same_flow { seat.new.table_id ≡ seat.old.table_id }
        ensures same_slots { seat.new.me.1 ≡ seat.old.me.1 }
        ensures value { Sets seat.old.me.0 value seat.new.me.0 }
        ensures alone { seat.old.me.0.told ≡ [] → SetsAlone seat.old.me.0 value seat.new.me.0 }
        ensures history { IsHistory seat.new.me.0.seen }
    {
        let word = value.to_word();
        self.table.shared.swap::<Put>(seat, 0, word);
    }

    /// Writes `update` where the value is `expect`, and says whether it was.
    pub(crate) fn compare_exchange(
        &self,
        seat: &mut Seat<(), View<T>>,
        expect: T,
        update: T,
    ) -> bool
        requires same_flow { seat.old.table_id ≡ self.now.table.shared.table_id }
        requires has_share { 0 < seat.old.me.0.share }
        ensures same_flow { seat.new.table_id ≡ seat.old.table_id }
        ensures same_slots { seat.new.me.1 ≡ seat.old.me.1 }
        ensures value { Compares seat.old.me.0 expect update result seat.new.me.0 }
        ensures alone { seat.old.me.0.told ≡ [] → ComparesAlone seat.old.me.0 expect update result seat.new.me.0 }
        ensures history { IsHistory seat.new.me.0.seen }
    {
        let expected = expect.to_word();
        let new = update.to_word();
        let found = self
            .table
            .shared
            .compare_exchange::<Compare>(seat, 0, expected, new);
        found == expected
    }

    /// The number of collectors, as it is now.
    pub(crate) fn count(&self, seat: &mut Seat<(), View<T>>) -> u32
        requires same_flow { seat.old.table_id ≡ self.now.table.shared.table_id }
        requires has_share { 0 < seat.old.me.0.share }
        ensures same_flow { seat.new.table_id ≡ seat.old.table_id }
        ensures same_slots { seat.new.me.1 ≡ seat.old.me.1 }
        ensures count { Counts seat.old.me.0 result seat.new.me.0 }
        ensures alone { HasAll seat.old.me.0 → result ≡ running seat.old.me.0 }
    {
        let found = self.table.shared.load::<Tally>(seat, 1);
        found as u32
    }

    /// The seat is one more collector.
    pub(crate) fn begin(&self, seat: &mut Seat<(), View<T>>)
        requires same_flow { seat.old.table_id ≡ self.now.table.shared.table_id }
        requires idle { seat.old.me.0.collects ≡ false }
        requires runs_none { seat.old.me.0.runs ≡ 0 }
        requires has_share { 0 < seat.old.me.0.share }
        ensures same_flow { seat.new.table_id ≡ seat.old.table_id }
        ensures same_slots { seat.new.me.1 ≡ seat.old.me.1 }
        ensures begins { Begins seat.old.me.0 seat.new.me.0 }
        ensures alone { HasAll seat.old.me.0 → seat.new.me.0.counted ≡ 1 }
    {
        self.table.shared.fetch_add::<Begin>(seat, 1, 1);
    }

    /// The seat is a collector no more.
    pub(crate) fn end(&self, seat: &mut Seat<(), View<T>>)
        requires same_flow { seat.old.table_id ≡ self.now.table.shared.table_id }
        requires collects { seat.old.me.0.collects ≡ true }
        requires runs_none { seat.old.me.0.runs ≡ 0 }
        requires has_share { 0 < seat.old.me.0.share }
        ensures same_flow { seat.new.table_id ≡ seat.old.table_id }
        ensures same_slots { seat.new.me.1 ≡ seat.old.me.1 }
        ensures ends { Ends seat.old.me.0 seat.new.me.0 }
        ensures alone { HasAll seat.old.me.0 → seat.new.me.0.counted ≡ 0 }
    {
        self.table.shared.fetch_sub::<End>(seat, 1, 1);
    }

    /// The seat runs one more collector.
    pub(crate) fn launch(&self, seat: &mut Seat<(), View<T>>)
        requires same_flow { seat.old.table_id ≡ self.now.table.shared.table_id }
        requires room { running seat.old.me.0 < seat.old.me.0.share }
        ensures same_flow { seat.new.table_id ≡ seat.old.table_id }
        ensures same_slots { seat.new.me.1 ≡ seat.old.me.1 }
        ensures launches { Launches seat.old.me.0 seat.new.me.0 }
    {
        self.table.shared.fetch_add::<Launch>(seat, 1, 1);
    }

    /// The seat runs one collector fewer.
    pub(crate) fn cancel(&self, seat: &mut Seat<(), View<T>>)
        requires same_flow { seat.old.table_id ≡ self.now.table.shared.table_id }
        requires runs { 0 < seat.old.me.0.runs }
        requires has_share { 0 < seat.old.me.0.share }
        ensures same_flow { seat.new.table_id ≡ seat.old.table_id }
        ensures same_slots { seat.new.me.1 ≡ seat.old.me.1 }
        ensures cancels { Cancels seat.old.me.0 seat.new.me.0 }
    {
        self.table.shared.fetch_sub::<Cancel>(seat, 1, 1);
    }

    /// A new seat with a part of the share, which the caller picks for the proof too.
    pub(crate) fn split<J: GivenShare>(
        &self,
        seat: &mut Seat<(), View<T>>,
        part: u32,
    ) -> Seat<(), View<T>>
        requires picked { part ≡ J.part }
        requires same_flow { seat.old.table_id ≡ self.now.table.shared.table_id }
        requires some_part { 0 < part }
        requires enough { part < seat.old.me.0.share }
        requires idle { seat.old.me.0.collects ≡ false }
        requires runs_none { seat.old.me.0.runs ≡ 0 }
        ensures same_flow { (seat.new.table_id ≡ seat.old.table_id) × (result.table_id ≡ seat.old.table_id) }
        ensures gives { seat.new.me ≡ (giver part seat.old.me.0, seat.old.me.1) }
        ensures takes { result.me ≡ (taker part seat.old.me.0, []) }
    {
        let _ = part;
        self.table.shared.split_seat::<Cut<J>>(seat)
    }

    /// Takes another seat's share. It tells nothing of how the two histories go together: the next load does.
    pub(crate) fn join(&self, seat: &mut Seat<(), View<T>>, other: Seat<(), View<T>>)
        requires same_flow { (seat.old.table_id ≡ self.now.table.shared.table_id) × (other.table_id ≡ self.now.table.shared.table_id) }
        requires has_share { 0 < seat.old.me.0.share }
        requires untold { (seat.old.me.0.told_turn ≡ 0) × (other.me.0.told_turn ≡ 0) }
        requires idle { other.me.0.collects ≡ false }
        requires runs_none { other.me.0.runs ≡ 0 }
        requires no_slots { (seat.old.me.1 ≡ []) × (other.me.1 ≡ []) }
        ensures same_flow { seat.new.table_id ≡ seat.old.table_id }
        ensures keeps { seat.new.me ≡ (keeper seat.old.me.0 other.me.0, []) }
    {
        self.table.shared.join_seat::<Merge>(seat, other);
    }
}
