//! Subscriber places, and what the sequencer is told.
ghost use Rattle.std.specs.Prelude.{◌≡◌, ◌+◌, ◌-◌, IfOk, IfErr};
ghost use Rattle.flow_terms.specs.Lists.{IsPrefix};
ghost use Rattle.shared_lane.specs.Readers.{IsReaderOf, IsReceiptOf};
ghost use Rattle.shared_lane.specs.Sequencers.{IsSequencerOf, OnlyLoaded, seen};
ghost use Rattle.shared_lane.specs.Surveys.{OpensNone};
ghost use Rattle.shared_lane.specs.Places.{Admitted, NotAdmitted, Counted, LosesNothing, KnowsEndOf, told_of_end};

use super::{LIMIT, Sequencer, find_closed, load_cursors};
use crate::closed::Closed;
use crate::lane::Lane;
use crate::reader::Reader;
use crate::receipt::Receipt;
use flow_terms::Refusal;
use std::alloc::Allocator;

impl<A: Allocator> Sequencer<A> {
    /// How many readers there are: the open cursors, as this call loads all that may be open. Kotlin's `subscriptionCount`, as a
    /// plain number.
    pub fn live<B: Allocator>(&mut self, lane: &Lane<B>) -> u32
        requires { IsSequencerOf lane.now self.old }
        ensures only { OnlyLoaded self.old self.new }
        ensures count { Counted self.old result self.new }
    {
        load_cursors(
            lane.words(),
            &mut self.seat,
            &mut self.open_end,
            self.tail,
            0,
        )
        .open
    }

    /// Admits a reader, at a place whose cursor this call found closed. It begins at the oldest value of the replay cache,
    /// and goes on with every later accepted one: what Kotlin's `collect` begins with.
    ///
    /// Refused: `Spent` where the numbers of subscriptions are used up, then `SubscribersFull` where every cursor was loaded
    /// and found open.
    pub fn admit<B: Allocator>(&mut self, lane: &Lane<B>) -> Result<Reader, Refusal>
        requires { IsSequencerOf lane.now self.old }
        ensures ok { IfOk result (λ r. Admitted lane.now self.old r self.new) }
        ensures err { IfErr result (λ e. NotAdmitted self.old e self.new) }
    {
        if self.subscription == LIMIT {
            return Err(Refusal::Spent);
        }
        let words = lane.words();
        let Some(place) = find_closed(words, &mut self.seat) else {
            return Err(Refusal::SubscribersFull);
        };
        let start = self.tail - self.cache.len() as u64;
        words.open(&mut self.seat, place, start, self.subscription + 1);
        let seat = words.hand_out(&mut self.seat, place);
        self.open_end = self.open_end.max(place + 1);
        self.subscription += 1;
        Ok(Reader::at_start(seat, place, start, words.index_of(start)))
    }

    /// The sequencer hears of an accepted emission: the receipt holds the beginning of what it accepted.
    pub fn told<B: Allocator>(&mut self, lane: &Lane<B>, receipt: &mut Receipt)
        requires { IsSequencerOf lane.now self.old × IsReceiptOf lane.now receipt.old }
        ensures only { OnlyLoaded self.old self.new }
        ensures kept { LosesNothing self.old self.new }
        ensures receipt { receipt.new ≡ receipt.old }
        ensures told { IsPrefix receipt.old.seen (seen self.new) }
    {
        let words = lane.words();
        let copy = receipt.copied(lane);
        words.hear(&mut self.seat, copy);
        words.load_cursor(&mut self.seat, 0);
    }

    /// The sequencer hears of the end of a reader, and knows from then on that the reader's cursor is closed: each later call
    /// which loads it finds it closed, until [`admit`](Sequencer::admit) opens the place again. Where the place was opened
    /// again before this call, nothing changes. It takes no step on the words: without it the next load says the same.
    pub fn told_end<B: Allocator>(&mut self, lane: &Lane<B>, closed: &mut Closed)
        requires { IsSequencerOf lane.now self.old × IsReaderOf lane.now closed.old.reader }
        ensures closed { closed.new ≡ closed.old }
        ensures heard { self.new ≡ told_of_end closed.old.reader self.old }
        ensures opens { OpensNone self.old.view self.new.view }
        ensures knows { KnowsEndOf self.new closed.old.reader }
    {
        let end = closed.note(lane);
        lane.words().hear_end(&mut self.seat, end);
    }
}
