//! Emissions, and their tickets.

ghost use Rattle.std.specs.Prelude.{if◌then◌else◌, ◌≡◌, ◌==◌, ◌+◌, ◌<◌, ◌≤◌, true, not, nat_lt, length};
ghost use Rattle.shared_core.specs.Flow.{number_limit, places, waits, stands};
ghost use Rattle.shared_core.specs.Accepting.{with_accepted, without_oldest_of, waiting_in, room_in, HasFate, Settles, SettlesOnce, with_ticket, finished_in};
ghost use Rattle.shared_core.specs.Calls as calls;
ghost use Rattle.shared_core.specs.Shown.{Follows, Reads};

use crate::config::NUMBER_LIMIT;
use crate::place::Crowd;
use crate::state::SharedState;
use crate::tickets::{Accepted, OutTicket, Waiting, out_at};
use flow_terms::{Begun, Emit, Policy, Refusal, Ticket, Tried, Withdrawn};

/// What an emission comes to, before it is asked whether it may wait.
#[derive(Clone, Copy)]
enum Fate {
    /// It is accepted.
    Enters,
    /// It is accepted, and each subscription with all its places taken, if there is one, loses its oldest value.
    PushesIn,
    /// It is accepted without a place of its own, and finished once each subscription has it.
    HandedOver,
    /// It isn't accepted and leaves nothing.
    Dropped,
    /// There is no room for it.
    HeldUp,
}

impl<T: Copy> SharedState<T> {
    /// Whether each live subscription has a place left.
    #[inline]
    fn has_room(&mut self, crowd: Crowd) -> bool
        ensures room { result ≡ room_in self.old }
        ensures same { self.new ≡ self.old }
    {
        self.ring.has_room(crowd)
    }

    /// Whether the numbers are used up, with one for each emission that waits.
    fn is_spent(&self) -> bool
        ensures spent { result ≡ (self.now.next_number + waiting_in self.now == number_limit) }
        ensures bound { self.now.next_number + waiting_in self.now ≤ number_limit }
    {
        self.ring.next_number() + self.waiting.len() as u64 == NUMBER_LIMIT
    }

    // Inlined, so that an emission is one function, and what follows each fate stands where it is known.
    /// What an emission comes to that begins now, beside so many.
    #[inline(always)]
    fn fate(&mut self, crowd: Crowd) -> Fate
        ensures fate { HasFate self.old result }
        ensures same { self.new ≡ self.old }
    {
        if self.ring.live_len() == 0 {
            return Fate::Enters;
        }
        if self.config.replay + self.config.extra == 0 {
            if self.waiting.len() > 0 || !self.has_room(crowd) {
                return Fate::HeldUp;
            }
            return Fate::HandedOver;
        }
        match self.config.policy {
            Policy::Suspend => self.enters_or(crowd, Fate::HeldUp),
            Policy::DropLatest => self.enters_or(crowd, Fate::Dropped),
            // Whether anybody has all places taken, nobody has to ask.
            Policy::DropOldest => Fate::PushesIn,
        }
    }

    /// What an emission comes to where room decides.
    fn enters_or(&mut self, crowd: Crowd, without_room: Fate) -> Fate
        ensures fate { result ≡ (if room_in self.old then Fate.Enters else without_room) }
        ensures same { self.new ≡ self.old }
    {
        if self.has_room(crowd) {
            Fate::Enters
        } else {
            without_room
        }
    }

    /// The value is pending for each live subscription, and the latest of the replay cache. Answers its number.
    fn accept(&mut self, value: T) -> u64
        requires numbers { self.old.next_number + waiting_in self.old < number_limit }
        requires room { room_in self.old ≡ true }
        ensures number { result ≡ self.old.next_number }
        ensures accepted { self.new ≡ with_accepted value self.old }
    {
        self.ring.accept(value)
    }

    /// Accepts the value, after each subscription with all its places taken lost its oldest one.
    fn push_in(&mut self, value: T) -> u64
        requires { self.old.next_number + waiting_in self.old < number_limit }
        ensures number { result ≡ self.old.next_number }
        ensures accepted { self.new ≡ with_accepted value (without_oldest_of (places self.old.parameters) self.old) }
    {
        self.ring.push(value)
    }

    /// Whether each ticket is out.
    fn is_full(&self) -> bool
        ensures { result ≡ not (nat_lt (length self.now.out) self.now.parameters.emits) }
    {
        self.accepted.len() + self.waiting.len() >= self.config.emits as usize
    }

    /// Gives a ticket to the accepted emission with this index.
    fn keep_accepted(&mut self, index: u64) -> Ticket
        requires numbers { self.old.parameters.first + self.old.tickets < number_limit }
        requires space { length self.old.out < self.old.parameters.emits }
        requires accepted { self.old.parameters.first + index < self.old.next_number }
        requires alone { waiting_in self.old ≡ 0 }
        ensures ticket { result.0 ≡ self.old.parameters.first + self.old.tickets }
        ensures given { self.new ≡ with_ticket (stands index) self.old }
    {
        let ticket = self.config.first + self.given;
        self.accepted.push(OutTicket {
            ticket,
            emission: Accepted { index },
        });
        self.given += 1;
        Ticket(ticket)
    }

    /// Gives a ticket to an emission that waits.
    fn keep_waiting(&mut self, emitter: u32, value: T) -> Ticket
        requires numbers { self.old.parameters.first + self.old.tickets < number_limit }
        requires space { length self.old.out < self.old.parameters.emits }
        requires room { self.old.next_number + waiting_in self.old < number_limit }
        ensures ticket { result.0 ≡ self.old.parameters.first + self.old.tickets }
        ensures given { self.new ≡ with_ticket (waits emitter value) self.old }
    {
        let ticket = self.config.first + self.given;
        self.waiting.push(OutTicket {
            ticket,
            emission: Waiting { emitter, value },
        });
        self.given += 1;
        Ticket(ticket)
    }

    /// Accepts the emission that waits longest, where there is room. Answers whether it did.
    fn accept_first(&mut self) -> bool
        ensures { SettlesOnce self.old result self.new }
    {
        if self.waiting.len() == 0 {
            return false;
        }
        let crowd = self.ring.crowd();
        if !self.has_room(crowd) {
            return false;
        }
        self.accept_oldest()
    }

    fn accept_oldest(&mut self) -> bool
        requires { room_in self.old ≡ true }
        ensures { SettlesOnce self.old result self.new }
    {
        let Some(oldest) = self.waiting.first() else {
            return false;
        };
        let _oldest = self.waiting.pop();
        let index = self.accept(oldest.emission.value) - self.config.first;
        self.accepted.push(OutTicket {
            ticket: oldest.ticket,
            emission: Accepted { index },
        });
        true
    }

    /// Accepts waiting emissions, the oldest first, while there is room. One that began later never passes one that waits.
    pub(crate) fn settle(&mut self)
        ensures { Settles self.old self.new }
    {
        // So that a receipt beside which none waits costs no call.
        if self.waiting.len() == 0 {
            return;
        }
        self.accept_all_waiting();
    }

    // Not inlined, so that a receipt beside which none waits keeps its registers.
    #[inline(never)]
    fn accept_all_waiting(&mut self)
        ensures { Settles self.old self.new }
    {
        while self.accept_first() {}
    }

    // Inlined wherever it is called, so that the answer needn't go through memory.
    /// Emits a value where that can be done at once: Kotlin's `tryEmit`, which answers true for `Accepted` and `Dropped`.
    ///
    /// `Full` where the emission would have to wait, and wherever somebody is live in a flow without places. Refused as `Spent`
    /// where the numbers below 2^62 are used up, with one for each emission that waits. The emitter's number has no part in the
    /// answer: the flow keeps it only with an emission that waits.
    #[inline(always)]
    pub fn try_emit(&mut self, emitter: u32, value: T) -> Result<Tried<u64>, Refusal>
        ensures { Follows (calls.try_emit emitter value) self.old result self.new }
    {
        if self.is_spent() {
            return Err(Refusal::Spent);
        }
        if let Crowd::Many = self.ring.crowd() {
            return Ok(self.try_beside_many(emitter, value));
        }
        let fate = self.fate(Crowd::Few);
        Ok(self.try_with(fate, emitter, value))
    }

    // Not inlined, so that an emission beside few keeps its registers.
    /// The same beside many subscriptions.
    #[inline(never)]
    fn try_beside_many(&mut self, emitter: u32, value: T) -> Tried<u64>
        requires { self.old.next_number + waiting_in self.old < number_limit }
        ensures { Follows (calls.try_emit emitter value) self.old (Ok result) self.new }
    {
        let fate = self.fate(Crowd::Many);
        self.try_with(fate, emitter, value)
    }

    /// Does what an emission comes to that can't wait.
    #[inline(always)]
    fn try_with(&mut self, fate: Fate, emitter: u32, value: T) -> Tried<u64>
        requires fate { HasFate self.old fate }
        requires numbers { self.old.next_number + waiting_in self.old < number_limit }
        ensures { Follows (calls.try_emit emitter value) self.old (Ok result) self.new }
    {
        match fate {
            Fate::Enters => Tried::Accepted(self.accept(value)),
            Fate::PushesIn => Tried::Accepted(self.push_in(value)),
            Fate::Dropped => Tried::Dropped,
            Fate::HandedOver | Fate::HeldUp => Tried::Full,
        }
    }

    /// Begins an emission: Kotlin's `emit`, up to where it suspends.
    ///
    /// `Waiting` gives a ticket for an emission that isn't finished. It is out until `poll_emit` answers `Done` or `cancel_emit`
    /// takes it back. Refused as `Spent` where the numbers below 2^62 of emissions, or of tickets, are used up, and then as
    /// `EmitsFull` where a ticket is needed and `emits` of them are out; a refusal changes nothing.
    pub fn start_emit(&mut self, emitter: u32, value: T) -> Result<Begun<u64, Ticket>, Refusal>
        ensures { Follows (calls.start_emit emitter value) self.old result self.new }
    {
        if self.is_spent() || self.config.first + self.given == NUMBER_LIMIT {
            return Err(Refusal::Spent);
        }
        let crowd = self.ring.crowd();
        let fate = self.fate(crowd);
        self.start_with(fate, emitter, value)
    }

    /// Does what an emission comes to that may wait.
    #[inline(always)]
    fn start_with(
        &mut self,
        fate: Fate,
        emitter: u32,
        value: T,
    ) -> Result<Begun<u64, Ticket>, Refusal>
        requires fate { HasFate self.old fate }
        requires numbers { self.old.next_number + waiting_in self.old < number_limit }
        requires tickets { self.old.parameters.first + self.old.tickets < number_limit }
        ensures { Follows (calls.start_emit emitter value) self.old result self.new }
    {
        match fate {
            Fate::Enters => Ok(Begun::Accepted(self.accept(value))),
            Fate::PushesIn => Ok(Begun::Accepted(self.push_in(value))),
            Fate::Dropped => Ok(Begun::Dropped),
            Fate::HandedOver => {
                if self.is_full() {
                    return Err(Refusal::EmitsFull);
                }
                let first = self.config.first;
                let index = self.accept(value) - first;
                Ok(Begun::Waiting(self.keep_accepted(index)))
            }
            Fate::HeldUp => {
                if self.is_full() {
                    return Err(Refusal::EmitsFull);
                }
                Ok(Begun::Waiting(self.keep_waiting(emitter, value)))
            }
        }
    }

    /// Whether the accepted emission is finished: in a flow without places, whether it is pending for nobody.
    fn is_finished(&self, index: u64) -> bool
        requires { self.now.parameters.first + index < self.now.next_number }
        ensures { result ≡ finished_in index self.now }
    {
        if self.config.replay + self.config.extra > 0 {
            return true;
        }
        self.ring.is_past(self.config.first + index)
    }

    /// Asks whether an emission is finished: Kotlin's `emit`, where it resumes.
    ///
    /// `Done` gives the number of the accepted emission and takes the ticket back. A ticket that isn't out is `Gone`.
    pub fn poll_emit(&mut self, ticket: Ticket) -> Emit
        ensures { Follows (calls.poll_emit ticket.0) self.old result self.new }
    {
        let Some(at) = out_at(&self.accepted, ticket.0) else {
            return match out_at(&self.waiting, ticket.0) {
                None => Emit::Gone,
                Some(_) => Emit::Waiting,
            };
        };
        let index = self.accepted.get(at).emission.index;
        if !self.is_finished(index) {
            return Emit::Waiting;
        }
        let _done = self.accepted.remove(at);
        Emit::Done(self.config.first + index)
    }

    /// Whether `poll_emit` would answer `Done` now. The ticket stays out, so whoever keeps a sleeping emitter can tell when it
    /// is worth waking.
    pub fn is_done(&self, ticket: Ticket) -> bool
        ensures { Reads (calls.would_be_done ticket.0) self.now result }
    {
        match out_at(&self.accepted, ticket.0) {
            None => false,
            Some(at) => self.is_finished(self.accepted.get(at).emission.index),
        }
    }

    /// Gives an emission up and takes its ticket back: Kotlin's `emit`, cancelled while it is suspended.
    ///
    /// `Removed` where it waited: it was never accepted. `Left` gives the number of one that was accepted: its value stays with
    /// its subscriptions. A ticket that isn't out is `Gone`.
    pub fn cancel_emit(&mut self, ticket: Ticket) -> Withdrawn<u64>
        ensures { Follows (calls.cancel_emit ticket.0) self.old result self.new }
    {
        if let Some(at) = out_at(&self.accepted, ticket.0) {
            let accepted = self.accepted.remove(at);
            return Withdrawn::Left(self.config.first + accepted.emission.index);
        }
        match out_at(&self.waiting, ticket.0) {
            None => Withdrawn::Gone,
            Some(at) => {
                let _waiting = self.waiting.remove(at);
                Withdrawn::Removed
            }
        }
    }
}
