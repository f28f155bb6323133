//! The sequencer, which alone accepts emissions.
ghost use Rattle.std.specs.Prelude.{◌≡◌, ◌≢◌, ◌+◌, ◌<◌, ◌≤◌, [], length, max, true, false, IfOk, IfErr, drop, slice_get, Some, ◌⊎◌, ℕ, List, cond};
ghost use Rattle.std.specs.Prelude.{eqb, IfSome, IfNone, ◌-◌, take};
ghost use Rattle.flow_terms.specs.declared.policy.Policy.TheVariants.{Suspend, DropOldest, DropLatest};
ghost use Rattle.shared_lane.specs.Sequencers.{next, HasNumber, HasTicketNumber, HasFreeTicket, IsSequencerOf, IsSameSequencer, TriedOn, RefusedTry};
ghost use Rattle.shared_lane.specs.Sequencers.{BegunOn, RefusedStart, AfterScan, LoadedOrMoved, Passed, seen, accepted_on, stood_on};
ghost use Rattle.shared_lane.specs.Sequencers.{BegunAfterScan, accepted_with_ticket, waited, AcceptedWaiting, IsStuck};
ghost use Rattle.shared_lane.specs.Steps.{IsRoomy, next_number};
ghost use Rattle.shared_lane.specs.Ordering.{StandsLast};
ghost use Rattle.shared_lane.specs.Caches.{emitter_at};
ghost use Rattle.shared_lane.specs.Places.{IsAccepted};
ghost use Rattle.shared_lane.specs.Readers.{IsReceiptOf};
ghost use Rattle.shared_lane.specs.Law.{closed};
ghost use Rattle.shared_lane.specs.Seats.{IsSeatOf, IsSameSeat};
ghost use Rattle.shared_lane.specs.Surveys.{KnowsPlaces, MayDrop, MayDropAt, IsSurvey, WholePass, FoundAllOpen, FoundClosed, Cleared, Visit, ShutFrom, LosesNone};

use crate::lane::Lane;
use crate::receipt::Receipt;
use crate::rule::LaneSeat;
use crate::tickets::{Standing, Waiting};
use crate::words::{CLOSED, Words};
use circular_buffer::HeapCircularBuffer;
use flow_terms::{Policy, Refusal};
use shared_core::{Begun, Ticket, Tried};
use std::alloc::Allocator;
use std::marker::Model;

mod blocks;
mod makes;
mod places;
mod polls;
mod replay;

/// The one party of a lane that accepts emissions, on one thread at a time. It drops like any value: nobody accepts after
/// that, and readers take what was accepted.
///
/// Contracts see what it has seen of the words, the flow's parameters, the replay cache, the emissions that wait, those
/// whose tickets are out, and the numbers that come next.
pub struct Sequencer<A: Allocator> {
    // A token of no bytes, with what the proofs know of the seat.
    pub(crate) seat: LaneSeat,
    // The number of the next emission, as in the word that it alone stores.
    pub(crate) tail: u64,
    // The index of that emission's cell: counted up, so that an emission needs no division.
    cell: usize,
    // Each place from this one on is known to be closed, so that its cursor needn't be loaded.
    open_end: usize,
    policy: Policy,
    // How many values a reader may have pending; 0 where emissions are handed over.
    capacity: u64,
    // The values of the replay cache.
    cache: HeapCircularBuffer<u64, A>,
    // The number of the next subscription.
    subscription: u64,
    // The number of the next ticket.
    ticket: u64,
    // How many tickets may be out.
    emits: usize,
    // Emissions that wait, in the order in which they began to.
    waiting: Vec<Waiting, A>,
    // Accepted emissions whose tickets are out.
    standing: Vec<Standing, A>,
}

impl<A: Allocator> Model for Sequencer<A> {
    ghost use Rattle.std.specs.Vec.{vec_capacity};
    ghost use Rattle.shared_lane.specs.Views.{SequencerSeen, sequencer_of};
    ghost use Rattle.shared_lane.specs.Kept.{IsSequencing};

    ghost Value = { SequencerSeen };

    ghost view = { λ q.
        sequencer_of q.seat q.policy q.capacity q.cache.capacity q.emits q.cache.items
        q.waiting.items q.standing.items q.ticket q.subscription };

    ghost invariant = { λ q.
        IsSequencing
        (sequencer_of q.seat q.policy q.capacity q.cache.capacity q.emits q.cache.items
        q.waiting.items q.standing.items q.ticket q.subscription)
        q.seat q.tail q.cell q.open_end (vec_capacity q.waiting) (vec_capacity q.standing) };
}

// By hand: who lets one go proves this call alone, and nothing of what it is made of.
impl<A: Allocator> Drop for Sequencer<A> {
    fn drop(self) {
        let Sequencer {
            seat,
            tail: _,
            cell: _,
            open_end: _,
            policy: _,
            capacity: _,
            cache,
            subscription: _,
            ticket: _,
            emits: _,
            waiting,
            standing,
        } = self;
        drop(seat);
        drop(cache);
        drop(waiting);
        drop(standing);
    }
}

/// Numbers stay below this.
pub(crate) const LIMIT: u64 = 1 << 62;

impl<A: Allocator> Sequencer<A> {
    /// The number of the next emission that is accepted.
    pub fn next_number(&self) -> u64
        ensures { result ≡ next self.now }
    {
        self.tail
    }

    /// The number of the next subscription.
    pub fn next_subscription(&self) -> u64
        ensures { result ≡ self.now.subscription }
    {
        self.subscription
    }

    // Whether an emission without room waits, or is dropped, where the oldest values aren't.
    fn suspends(&self) -> bool
        requires { self.now.policy ≢ DropOldest }
        ensures waits { result ≡ true → self.now.policy ≡ Suspend }
        ensures drops { result ≡ false → self.now.policy ≡ DropLatest }
    {
        match self.policy {
            Policy::Suspend => true,
            Policy::DropLatest => false,
            Policy::DropOldest => unreachable!(),
        }
    }

    // How many values a reader may have pending.
    fn capacity(&self) -> u64
        ensures capacity { result ≡ self.now.capacity }
        ensures cells { self.now.view.shape.cells ≡ max self.now.capacity 1 }
    {
        self.capacity
    }

    // How many emissions wait.
    fn waiting_count(&self) -> u32
        ensures count { result ≡ length self.now.waiting }
        ensures few { result ≤ 1024 }
    {
        self.waiting.len() as u32
    }

    // Whether an emission waits: only under Suspend.
    fn is_waiting(&self) -> bool
        ensures some { result ≡ true → (self.now.waiting ≢ []) × (self.now.policy ≡ Suspend) }
        ensures none { result ≡ false → self.now.waiting ≡ [] }
    {
        !self.waiting.is_empty()
    }

    // Whether the numbers of emissions are used up.
    fn is_spent(&self) -> bool
        ensures spent { result ≡ true → next self.now + length self.now.waiting ≡ 4611686018427387904 }
        ensures left { result ≡ false → HasNumber self.now }
    {
        self.next_number() + self.waiting.len() as u64 == LIMIT
    }

    // Whether the numbers of tickets are used up.
    fn has_no_ticket_left(&self) -> bool
        ensures spent { result ≡ true → self.now.ticket ≡ 4611686018427387904 }
        ensures left { result ≡ false → HasTicketNumber self.now }
    {
        self.ticket == LIMIT
    }

    // Whether as many tickets are out as may be.
    fn is_crowded(&self) -> bool
        ensures crowded { result ≡ true → length self.now.waiting + length self.now.standing ≡ self.now.emits }
        ensures free { result ≡ false → HasFreeTicket self.now }
    {
        self.waiting.len() + self.standing.len() == self.emits
    }

    /// Whether an emission with a ticket may still have to wait: one without room, or, where there are no places, one that was
    /// accepted.
    pub fn has_unfinished(&self) -> bool
        ensures none { result ≡ false → (self.now.waiting ≡ []) × ((0 < self.now.capacity) ⊎ (self.now.standing ≡ [])) }
        ensures some { result ≡ true → (self.now.waiting ≢ []) ⊎ ((self.now.capacity ≡ 0) × (self.now.standing ≢ [])) }
    {
        if !self.waiting.is_empty() {
            return true;
        }
        self.capacity() == 0 && !self.standing.is_empty()
    }
}

// How an emission begins.
impl<A: Allocator> Sequencer<A> {
    /// Emits where there is room, after the emissions that wait: Kotlin's `tryEmit`, with three answers.
    ///
    /// It first accepts waiting emissions, and what it accepted stands whatever it answers. `Full` (under `Suspend` alone)
    /// where an emission waits still or some reader is too far behind, `Dropped` under `DropLatest` alone. Refused:
    /// `Spent` where the numbers are used up.
    pub fn try_emit<B: Allocator>(
        &mut self,
        lane: &Lane<B>,
        emitter: u32,
        word: u64,
    ) -> Result<Tried<u64>, Refusal>
        requires { IsSequencerOf lane.now self.old }
        ensures has { IfOk result (λ t. AfterScan self.old (λ m. HasNumber m × TriedOn m (emitter, word) t self.new)) }
        ensures same { IsSequencerOf lane.now self.new × IsSameSequencer self.old self.new }
        ensures refused { IfErr result (λ e. AfterScan self.old (λ m. RefusedTry m e self.new)) }
    {
        self.scan(lane);
        self.try_after_scan(lane, emitter, word)
    }

    // The same, after waiting emissions were accepted.
    fn try_after_scan<B: Allocator>(
        &mut self,
        lane: &Lane<B>,
        emitter: u32,
        word: u64,
    ) -> Result<Tried<u64>, Refusal>
        requires { IsSequencerOf lane.now self.old }
        ensures same { IsSequencerOf lane.now self.new × IsSameSequencer self.old self.new }
        ensures refused { IfErr result (λ e. RefusedTry self.old e self.new) }
        ensures tried { IfOk result (λ t. HasNumber self.old × TriedOn self.old (emitter, word) t self.new) }
    {
        if self.is_spent() {
            return Err(Refusal::Spent);
        }
        if self.is_waiting() {
            return Ok(Tried::Full);
        }
        if self.find_room(lane, self.capacity()) {
            return Ok(Tried::Accepted(self.accept(lane, emitter, word)));
        }
        if !self.suspends() {
            return Ok(Tried::Dropped);
        }
        Ok(Tried::Full)
    }

    /// Begins an emission, which gets a ticket where it isn't done at once: Kotlin's `emit`.
    ///
    /// It first accepts waiting emissions, and what it accepted stands whatever it answers. `Waiting` (under `Suspend` alone)
    /// where it waits for room, or, on a lane without places, until every reader has received it. Refused: `Spent` where
    /// the numbers of emissions or of tickets are used up, then `EmitsFull` where it would need a ticket and all are out.
    pub fn start_emit<B: Allocator>(
        &mut self,
        lane: &Lane<B>,
        emitter: u32,
        word: u64,
    ) -> Result<Begun<u64, Ticket>, Refusal>
        requires { IsSequencerOf lane.now self.old }
        ensures has { IfOk result (λ b. BegunAfterScan self.old (emitter, word) b self.new) }
        ensures same { IsSequencerOf lane.now self.new × IsSameSequencer self.old self.new }
        ensures refused { IfErr result (λ e. AfterScan self.old (λ m. RefusedStart m e self.new)) }
    {
        self.scan(lane);
        self.start_after_scan(lane, emitter, word)
    }

    // The same, after waiting emissions were accepted.
    fn start_after_scan<B: Allocator>(
        &mut self,
        lane: &Lane<B>,
        emitter: u32,
        word: u64,
    ) -> Result<Begun<u64, Ticket>, Refusal>
        requires { IsSequencerOf lane.now self.old }
        ensures same { IsSequencerOf lane.now self.new × IsSameSequencer self.old self.new }
        ensures refused { IfErr result (λ e. RefusedStart self.old e self.new) }
        ensures begun { IfOk result (λ b. HasNumber self.old × HasTicketNumber self.old × BegunOn self.old (emitter, word) b self.new) }
    {
        if self.is_spent() {
            return Err(Refusal::Spent);
        }
        if self.has_no_ticket_left() {
            return Err(Refusal::Spent);
        }
        if self.is_waiting() {
            return self.begin_last(emitter, word);
        }
        self.begin_first(lane, emitter, word)
    }

    // Begins an emission, where none waits.
    fn begin_first<B: Allocator>(
        &mut self,
        lane: &Lane<B>,
        emitter: u32,
        word: u64,
    ) -> Result<Begun<u64, Ticket>, Refusal>
        requires lane { IsSequencerOf lane.now self.old }
        requires first { self.old.waiting ≡ [] }
        requires numbers { HasNumber self.old × HasTicketNumber self.old }
        ensures same { IsSequencerOf lane.now self.new × IsSameSequencer self.old self.new }
        ensures refused { IfErr result (λ e. RefusedStart self.old e self.new) }
        ensures begun { IfOk result (λ b. BegunOn self.old (emitter, word) b self.new) }
    {
        if self.find_room(lane, self.capacity()) {
            return Ok(Begun::Accepted(self.accept(lane, emitter, word)));
        }
        if !self.suspends() {
            return Ok(Begun::Dropped);
        }
        if self.is_crowded() {
            return Err(Refusal::EmitsFull);
        }
        if self.capacity() > 0 {
            return Ok(Begun::Waiting(Ticket(self.wait(emitter, word))));
        }
        if self.find_room(lane, 1) {
            return Ok(Begun::Waiting(Ticket(self.accept_with_ticket(lane, emitter, word))));
        }
        Ok(Begun::Waiting(Ticket(self.wait(emitter, word))))
    }

    // Begins an emission behind those that wait.
    fn begin_last(&mut self, emitter: u32, word: u64) -> Result<Begun<u64, Ticket>, Refusal>
        requires waits { self.old.waiting ≢ [] }
        requires policy { self.old.policy ≡ Suspend }
        requires numbers { HasNumber self.old × HasTicketNumber self.old }
        ensures same { IsSameSequencer self.old self.new × (self.new.view ≡ self.old.view) }
        ensures refused { IfErr result (λ e. RefusedStart self.old e self.new) }
        ensures begun { IfOk result (λ b. BegunOn self.old (emitter, word) b self.new) }
    {
        if self.is_crowded() {
            return Err(Refusal::EmitsFull);
        }
        Ok(Begun::Waiting(Ticket(self.wait(emitter, word))))
    }
}

// How an emission is accepted: a pass over the cursors that finds room, a store of the cell, a store of the tail.
impl<A: Allocator> Sequencer<A> {
    // Loads every cursor that may be open, under DropOldest moves those that stand as far behind as there are places, and says
    // whether there is room then: no open cursor stands `lag` or more behind the tail.
    fn find_room<B: Allocator>(&mut self, lane: &Lane<B>, lag: u64) -> bool
        requires lane { IsSequencerOf lane.now self.old }
        requires lag { lag ≤ self.old.view.shape.cells }
        ensures only { LoadedOrMoved self.old self.new }
        ensures pass { Passed lag self.old result self.new }
        ensures room { result ≡ true → IsRoomy self.new.view.shape.cells self.new.view }
        ensures calm { result ≡ false → self.new.policy ≢ DropOldest }
    {
        let words = lane.words();
        if let Policy::DropOldest = self.policy {
            drop_oldest(words, &mut self.seat, &mut self.open_end, self.tail);
            return true;
        }
        !load_cursors(words, &mut self.seat, &mut self.open_end, self.tail, lag).behind
    }

    // Accepts an emission, and returns its number.
    fn accept<B: Allocator>(&mut self, lane: &Lane<B>, emitter: u32, word: u64) -> u64
        requires lane { IsSequencerOf lane.now self.old }
        requires room { IsRoomy self.old.view.shape.cells self.old.view }
        requires number { HasNumber self.old }
        ensures number { result ≡ next self.old }
        ensures accepted { self.new ≡ accepted_on (emitter, word) self.old }
    {
        let words = lane.words();
        let number = self.tail;
        words.store_cell(&mut self.seat, self.cell, emitter, word);
        words.store_tail(&mut self.seat, number + 1);
        self.tail = number + 1;
        self.cell = words.next_index(self.cell);
        self.cache.push_back(word);
        number
    }

    // The ticket of an accepted emission stands.
    fn stand(&mut self, ticket: u64, emitter: u32, number: u64)
        requires few { HasFreeTicket self.old }
        requires accepted { emitter_at self.old.view.shape.first (seen self.old) number ≡ Some emitter }
        requires last { StandsLast self.old ticket number × (number < next self.old) }
        ensures { self.new ≡ stood_on ticket emitter number self.old }
    {
        self.standing.push_reserved(Standing {
            ticket,
            emitter,
            number,
        });
    }

    // An emission waits, and has the next ticket.
    fn wait(&mut self, emitter: u32, word: u64) -> u64
        requires few { HasFreeTicket self.old }
        requires number { HasNumber self.old }
        requires ticket { HasTicketNumber self.old }
        requires policy { self.old.policy ≡ Suspend }
        ensures ticket { result ≡ self.old.ticket }
        ensures waits { self.new ≡ waited (emitter, word) self.old }
    {
        let ticket = self.ticket;
        self.waiting.push_reserved(Waiting {
            ticket,
            emitter,
            word,
        });
        self.ticket += 1;
        ticket
    }

    // The next ticket's number, where none waits.
    fn take_ticket(&mut self) -> u64
        requires ticket { HasTicketNumber self.old }
        requires first { self.old.waiting ≡ [] }
        ensures ticket { result ≡ self.old.ticket }
        ensures counted { self.new ≡ record self.old { ticket = self.old.ticket + 1 } }
        ensures last { StandsLast self.new result (next self.new) }
    {
        let ticket = self.ticket;
        self.ticket += 1;
        ticket
    }

    // The emission that has waited longest waits no more.
    fn take_first(&mut self) -> Waiting
        requires { self.old.waiting ≢ [] }
        ensures first { slice_get self.old.waiting 0 ≡ Some result }
        ensures left { self.new ≡ record self.old { waiting = drop 1 self.old.waiting } }
        ensures few { length self.old.waiting + length self.old.standing ≤ self.old.emits }
        ensures number { next self.old + length self.old.waiting ≤ 4611686018427387904 }
        ensures last { StandsLast self.new result.ticket (next self.new) }
    {
        self.waiting.remove(0)
    }

    // Accepts the emission that has waited longest.
    fn accept_first<B: Allocator>(&mut self, lane: &Lane<B>)
        requires lane { IsSequencerOf lane.now self.old }
        requires room { IsRoomy self.old.view.shape.cells self.old.view }
        requires waits { self.old.waiting ≢ [] }
        ensures same { IsSameSequencer self.old self.new × (self.new.view.loads ≡ self.old.view.loads) }
        ensures settled { AcceptedWaiting 1 self.old self.new }
    {
        let first = self.take_first();
        let number = self.accept(lane, first.emitter, first.word);
        self.stand(first.ticket, first.emitter, number);
    }

    // Accepts an emission, whose ticket stands.
    fn accept_with_ticket<B: Allocator>(&mut self, lane: &Lane<B>, emitter: u32, word: u64) -> u64
        requires lane { IsSequencerOf lane.now self.old }
        requires room { IsRoomy self.old.view.shape.cells self.old.view }
        requires few { HasFreeTicket self.old }
        requires number { HasNumber self.old }
        requires ticket { HasTicketNumber self.old }
        requires first { self.old.waiting ≡ [] }
        ensures ticket { result ≡ self.old.ticket }
        ensures stands { self.new ≡ accepted_with_ticket (emitter, word) self.old }
    {
        let ticket = self.take_ticket();
        let number = self.accept(lane, emitter, word);
        self.stand(ticket, emitter, number);
        ticket
    }

    /// Accepts waiting emissions, the oldest first, while there is room, and returns how many. After it nothing waits, or
    /// a cursor that it loaded stood as far behind the tail as there are places.
    #[inline(always)]
    pub fn scan<B: Allocator>(&mut self, lane: &Lane<B>) -> u32
        requires { IsSequencerOf lane.now self.old }
        ensures same { IsSequencerOf lane.now self.new × IsSameSequencer self.old self.new }
        ensures settled { AcceptedWaiting result self.old self.new }
        ensures stuck { self.new.waiting ≢ [] → IsStuck self.old self.new }
    {
        if !self.is_waiting() {
            return 0;
        }
        self.accept_waiting(lane)
    }

    // Not inlined, so that a call beside which none waits keeps its registers.
    /// Accepts waiting emissions, the oldest first, while there is room, and returns how many.
    #[inline(never)]
    fn accept_waiting<B: Allocator>(&mut self, lane: &Lane<B>) -> u32
        requires lane { IsSequencerOf lane.now self.old }
        requires policy { self.old.policy ≡ Suspend }
        ensures same { IsSequencerOf lane.now self.new × IsSameSequencer self.old self.new }
        ensures settled { AcceptedWaiting result self.old self.new }
        ensures stuck { self.new.waiting ≢ [] → IsStuck self.old self.new }
    {
        let most = self.waiting_count();
        let lag = lane.cells();
        for settled in 0..most {
            if !self.find_room(lane, lag) {
                return settled;
            }
            self.accept_first(lane);
        }
        most
    }

    /// A receipt for an emission that was accepted. It takes no memory.
    pub fn receipt<B: Allocator>(&mut self, lane: &Lane<B>, emitter: u32, number: u64) -> Receipt
        requires { IsSequencerOf lane.now self.old × IsAccepted self.old emitter number }
        ensures same { self.new ≡ self.old }
        ensures receipt { IsReceiptOf lane.now result × (result.emitter ≡ emitter) × (result.number ≡ number) }
        ensures seen { result.seen ≡ take (number + 1 - self.old.view.shape.first) (seen self.old) }
    {
        let own = &mut self.seat;
        let words = lane.words();
        let seat = words.copy_seen(own, number + 1 - words.shape.first);
        Receipt::of(seat, emitter, number)
    }
}

// One pass over the cursors.

/// What the cursors showed.
#[derive(Clone, Copy, Drop)]
pub(crate) struct Survey {
    pub(crate) open: u32,
    /// An open cursor stood too far behind the tail.
    pub(crate) behind: bool,
}

impl Survey {
    fn with(self, at: u64, tail: u64, lag: u64) -> Survey
        requires { self.open < 1024 }
        ensures open { result.open ≡ cond (eqb at closed) self.open (self.open + 1) }
        ensures behind { at ≢ closed → at + lag ≤ tail → result.behind ≡ true }
        ensures kept { (self.behind ≡ true → result.behind ≡ true)
            × (result.behind ≡ true → (self.behind ≡ true) ⊎ ((at ≢ closed) × (at + lag ≤ tail))) }
    {
        if at == CLOSED {
            return self;
        }
        Survey {
            open: self.open + 1,
            behind: self.behind || (at <= tail && tail - at >= lag),
        }
    }
}

/// The place after the last open one of those that a pass has come past, where it has found the cursor of one more.
pub(crate) fn end_with(end: usize, place: usize, at: u64) -> usize
    requires { place < 1024 }
    ensures { result ≡ cond (eqb at closed) end (place + 1) }
{
    if at == CLOSED { end } else { place + 1 }
}

// Where they are the same, which is nearly always, nothing is written: the store of the cell would wait for it.
/// Puts the place after the last open one in the place of the one before.
#[inline(always)]
pub(crate) fn end_at(open_end: &mut usize, end: usize)
    ensures { open_end.new ≡ end }
{
    if *open_end != end {
        *open_end = end;
    }
}

/// Loads every cursor that may be open: those of the places before `open_end`, which becomes the place after the last one that
/// was found open.
pub(crate) fn load_cursors<A: Allocator>(
    words: &Words<A>,
    seat: &mut LaneSeat,
    open_end: &mut usize,
    tail: u64,
    lag: u64,
) -> Survey
    requires seat { IsSeatOf words.now seat.old × (seat.old.me.0.sequencing.active ≡ true) }
    requires sized { KnowsPlaces words.now.shape seat.old.me.0 }
    requires beyond { (open_end.old ≤ words.now.shape.places) × ShutFrom seat.old.me.0 open_end.old }
    ensures seat { IsSameSeat seat.old seat.new }
    ensures found { IsSurvey words.now.shape.places tail lag seat.old.me.0 result seat.new.me.0 }
    ensures keeps { LosesNone seat.old.me.0 seat.new.me.0 }
    ensures beyond { (open_end.new ≤ open_end.old) × ShutFrom seat.new.me.0 open_end.new }
{
    let mut found = Survey {
        open: 0,
        behind: false,
    };
    let mut end = 0;
    for place in 0..*open_end {
        let at = words.load_cursor(seat, place);
        found = found.with(at, tail, lag);
        end = end_with(end, place, at);
    }
    end_at(open_end, end);
    found
}

/// Loads the cursors from the first place on, until one is closed, and returns its place.
pub(crate) fn find_closed<A: Allocator>(words: &Words<A>, seat: &mut LaneSeat) -> Option<usize>
    requires seat { IsSeatOf words.now seat.old × (seat.old.me.0.sequencing.active ≡ true) }
    requires sized { KnowsPlaces words.now.shape seat.old.me.0 }
    ensures seat { IsSameSeat seat.old seat.new }
    ensures none { IfNone result (FoundAllOpen words.now.shape.places seat.old.me.0 seat.new.me.0) }
    ensures keeps { LosesNone seat.old.me.0 seat.new.me.0 }
    ensures some { IfSome result (λ p. (p < words.now.shape.places) × FoundClosed p seat.old.me.0 seat.new.me.0) }
{
    for place in 0..words.shape.places {
        if words.load_cursor(seat, place) == CLOSED {
            return Some(place);
        }
    }
    None
}

/// Loads a cursor, moves it by one if it stands too far behind the tail, and returns what it found.
pub(crate) fn clear_one<A: Allocator>(
    words: &Words<A>,
    seat: &mut LaneSeat,
    place: usize,
    tail: u64,
) -> u64
    requires seat { IsSeatOf words.now seat.old × (seat.old.me.0.sequencing.active ≡ true) × (tail ≡ next_number seat.old.me.0) }
    requires sized { MayDropAt words.now.shape seat.old.me.0 place }
    ensures seat { IsSameSeat seat.old seat.new }
    ensures visited { Visit (Cleared tail words.now.shape.cells) seat.old.me.0 place result seat.new.me.0 }
{
    let at = words.load_cursor(seat, place);
    if at != CLOSED && tail - at >= words.shape.cells as u64 {
        words.lose(seat, place, at);
    }
    at
}

/// Loads every cursor that may be open, as above, and moves those that stand too far behind the tail.
pub(crate) fn drop_oldest<A: Allocator>(
    words: &Words<A>,
    seat: &mut LaneSeat,
    open_end: &mut usize,
    tail: u64,
)
    requires seat { IsSeatOf words.now seat.old × (seat.old.me.0.sequencing.active ≡ true) × (tail ≡ next_number seat.old.me.0) }
    requires sized { MayDrop words.now.shape seat.old.me.0 }
    requires beyond { (open_end.old ≤ words.now.shape.places) × ShutFrom seat.old.me.0 open_end.old }
    ensures seat { IsSameSeat seat.old seat.new }
    ensures found { (ns : List ℕ) × (length ns ≡ words.now.shape.places) × WholePass (Cleared tail words.now.shape.cells) seat.old.me.0 ns seat.new.me.0 }
    ensures beyond { (open_end.new ≤ open_end.old) × ShutFrom seat.new.me.0 open_end.new }
{
    let mut end = 0;
    for place in 0..*open_end {
        let at = clear_one(words, seat, place, tail);
        end = end_with(end, place, at);
    }
    end_at(open_end, end);
}
