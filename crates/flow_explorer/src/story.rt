//! What the answers of a schedule tell, and what each subscription has to have received by them.
//!
//! An emission that waits is accepted at some call of somebody, and its number is told later, to who asks for it. So until then how
//! many are accepted lies between `reached` and `reached` with all that are in flight. At the end each of them was told.

use crate::calls::{Answer, Block, Call, Party};
use shared_core::{Config, Policy};
use std::alloc::Global;

/// The numbers of a schedule's emissions stay below this.
const MOST: usize = 12;

/// What was wrong.
#[derive(Clone, Copy, Debug, PartialEq, Eq)]
pub enum Wrong {
    /// No flow was made.
    NotMade,
    /// The call has no such answer.
    Answer(Call, Answer),
    /// Two emissions have this number, or its emitter had a later one.
    Number(u64),
    /// An emission was refused that each subscription had room for, or under a policy that refuses none.
    Refused,
    /// A subscription began at another value than the oldest of the replay cache.
    Start,
    /// There was nothing for a subscription for which an accepted value was pending.
    Missed,
    /// No emission was accepted with this number, and one with a later number was.
    NotTold(u64),
    /// A subscription received other values than the accepted ones from its start on, less those that were dropped.
    Values,
    NoMemory,
}

/// An emitter: its value, whether that is in flight, and the least number that it can have.
#[derive(Clone, Copy)]
struct Sending {
    value: u64,
    is_in_flight: bool,
    least: u64,
}

/// A subscription from its start on.
#[derive(Clone, Copy, Drop)]
struct Life {
    party: Party,
    is_open: bool,
    /// The least number that its next value can have.
    at: u64,
    /// How much higher that number may be, since an emission that was in flight at its start may have been accepted before.
    slack: u64,
    /// What it received, by the least number that the value can have.
    values: [Option<u64>; MOST],
}

impl Life {
    fn is_of(&self, party: Party) -> bool {
        self.is_open && self.party == party
    }

    fn receive(&mut self, value: u64) -> Result<(), Wrong> {
        let Some(slot) = self.values.get_mut(self.at as usize) else {
            return Err(Wrong::Values);
        };
        *slot = Some(value);
        self.at = self.at.saturating_add(1);
        Ok(())
    }

    // Whether what it received is what was accepted, where each number is so much higher.
    fn fits(&self, later: u64, accepted: &[Option<u64>], reached: u64) -> bool {
        for (number, value) in self.values.iter().enumerate() {
            let place = number.saturating_add(later as usize);
            if value.is_some() && accepted.get(place) != Some(value) {
                return false;
            }
        }
        !self.is_open || self.at.saturating_add(later) == reached
    }
}

/// What the answers have told so far.
#[derive(Drop)]
pub struct Story {
    config: Config,
    /// The accepted emissions by their numbers, as their receipts told them.
    accepted: [Option<u64>; MOST],
    /// Every number below this is known to be an accepted emission's.
    reached: u64,
    first: Sending,
    second: Sending,
    lives: Vec<Life>,
}

impl Story {
    pub(crate) fn new(alloc: Global, config: Config) -> Story {
        let idle = Sending {
            value: 0,
            is_in_flight: false,
            least: config.first,
        };
        Story {
            config,
            accepted: [None; MOST],
            reached: config.first,
            first: idle,
            second: idle,
            lives: Vec::new(alloc),
        }
    }

    fn sending(&mut self, party: Party) -> &mut Sending {
        match party {
            Party::First => &mut self.first,
            _ => &mut self.second,
        }
    }

    fn has_life(&self, party: Party) -> bool {
        for life in &self.lives {
            if life.is_of(party) {
                return true;
            }
        }
        false
    }

    /// The call that a party makes in place of this one, where it can make one. An emitter asks for its emission while that is in
    /// flight.
    pub(crate) fn possible(&mut self, party: Party, call: Call) -> Option<Call> {
        let has_life = self.has_life(party);
        let sending = self.sending(party);
        match call {
            Call::Try(value) | Call::TryAll(value, _) | Call::Emit(value) => {
                if sending.is_in_flight {
                    return Some(Call::Ask);
                }
                sending.value = value;
                Some(call)
            }
            Call::Ask | Call::TakeBack => sending.is_in_flight.then_some(call),
            Call::Subscribe => (!has_life).then_some(call),
            Call::Next | Call::Take | Call::TakeAll | Call::Cancel => has_life.then_some(call),
        }
    }

    fn capacity(&self) -> u64 {
        self.config.replay.saturating_add(self.config.extra)
    }

    // At most so many are accepted.
    fn most(&self) -> u64 {
        let first = u64::from(self.first.is_in_flight);
        let second = u64::from(self.second.is_in_flight);
        self.reached.saturating_add(first).saturating_add(second)
    }

    // Where the replay cache begins after so many accepted emissions.
    fn cache_after(&self, accepted: u64) -> u64 {
        let oldest = accepted.saturating_sub(self.config.replay);
        oldest.max(self.config.first)
    }

    // An emitter is told the number of its emission. Where the oldest are dropped, each subscription loses what is too far behind.
    fn told(&mut self, party: Party, number: u64) -> Result<(), Wrong> {
        let sending = self.sending(party);
        let value = sending.value;
        let is_later = number >= sending.least;
        sending.is_in_flight = false;
        sending.least = number.saturating_add(1);
        match self.accepted.get_mut(number as usize) {
            Some(slot) if is_later && slot.is_none() => *slot = Some(value),
            _ => return Err(Wrong::Number(number)),
        }
        self.reached = self.reached.max(number.saturating_add(1));
        if self.config.policy == Policy::DropOldest {
            self.drop_oldest();
        }
        Ok(())
    }

    // So many of a block of so many were accepted, and the next one wasn't. Nobody else's emission may be in flight.
    fn told_all(&mut self, party: Party, accepted: u64, size: u64) -> Result<(), Wrong> {
        let first = self.sending(party).value;
        for later in 0..accepted {
            let number = self.reached;
            self.sending(party).value = first.saturating_add(later);
            self.told(party, number)?;
        }
        if accepted < size {
            return self.refused();
        }
        Ok(())
    }

    fn drop_oldest(&mut self) {
        let oldest = self.reached.saturating_sub(self.capacity());
        for life in &mut self.lives {
            if life.is_open {
                life.at = life.at.max(oldest);
            }
        }
    }

    // An emission had no room: some subscription may have as many values pending as may be.
    fn refused(&self) -> Result<(), Wrong> {
        if self.config.policy == Policy::DropOldest {
            return Err(Wrong::Refused);
        }
        let (most, capacity) = (self.most(), self.capacity());
        for life in &self.lives {
            if life.is_open && most.saturating_sub(life.at) >= capacity {
                return Ok(());
            }
        }
        Err(Wrong::Refused)
    }

    // A subscription begins at the oldest value of the replay cache.
    fn begin(&mut self, party: Party, start: Option<u64>) -> Result<(), Wrong> {
        let (least, most) = (
            self.cache_after(self.reached),
            self.cache_after(self.most()),
        );
        let at = start.unwrap_or(least);
        if at < least || at > most {
            return Err(Wrong::Start);
        }
        let slack = if start.is_some() {
            0
        } else {
            most.saturating_sub(least)
        };
        let life = Life {
            party,
            is_open: true,
            at,
            slack,
            values: [None; MOST],
        };
        match self.lives.push(life) {
            Ok(()) => Ok(()),
            Err(_) => Err(Wrong::NoMemory),
        }
    }

    // A subscription's call: a value, nothing, or its end.
    fn heard(&mut self, party: Party, answer: Answer) -> Result<(), Wrong> {
        for life in &mut self.lives {
            if !life.is_of(party) {
                continue;
            }
            match answer {
                Answer::Value(value) => life.receive(value)?,
                Answer::Nothing if life.at.saturating_add(life.slack) < self.reached => {
                    return Err(Wrong::Missed);
                }
                Answer::Ended => life.is_open = false,
                _ => {}
            }
            self.reached = self.reached.max(life.at);
        }
        Ok(())
    }

    // A block of receipts, one after another. Where there was room for one more, there was nothing for it.
    fn heard_all(&mut self, party: Party, block: Block) -> Result<(), Wrong> {
        for value in block.values {
            match value {
                Some(value) => self.heard(party, Answer::Value(value))?,
                None => return self.heard(party, Answer::Nothing),
            }
        }
        Ok(())
    }

    // An emitter's emission isn't finished: it is in flight, or was taken back.
    fn set_in_flight(&mut self, party: Party, is_in_flight: bool) -> Result<(), Wrong> {
        self.sending(party).is_in_flight = is_in_flight;
        Ok(())
    }

    /// A call was answered.
    pub(crate) fn hear(&mut self, party: Party, call: Call, answer: Answer) -> Result<(), Wrong> {
        let policy = self.config.policy;
        match answer {
            Answer::Told(number) if call.is_emitters() => self.told(party, number),
            Answer::Accepted(accepted) => match call {
                Call::TryAll(_, size) if accepted <= size => self.told_all(party, accepted, size),
                _ => Err(Wrong::Answer(call, answer)),
            },
            Answer::Refused if call.begins() => self.refused(),
            Answer::Waiting if call.may_wait() && policy == Policy::Suspend => {
                self.set_in_flight(party, true)
            }
            Answer::Removed if call == Call::TakeBack => self.set_in_flight(party, false),
            Answer::Began(start) if call == Call::Subscribe => self.begin(party, start),
            Answer::Value(_) if call.receives() => self.heard(party, answer),
            Answer::Values(block) if call == Call::TakeAll => self.heard_all(party, block),
            Answer::Nothing if call.receives() => self.heard(party, answer),
            Answer::Ended if call == Call::Cancel => self.heard(party, answer),
            _ => Err(Wrong::Answer(call, answer)),
        }
    }

    // Whether a subscription received what was accepted from its start on.
    fn is_right(&self, life: &Life) -> bool {
        for later in 0..=life.slack {
            if life.fits(later, &self.accepted, self.reached) {
                return true;
            }
        }
        false
    }

    /// Nothing is in flight or pending any more: whether all were told, and each subscription received all that it had to.
    pub(crate) fn end(&self) -> Result<(), Wrong> {
        for (number, value) in self.accepted.iter().enumerate() {
            let number = number as u64;
            let is_accepted = number >= self.config.first && number < self.reached;
            if value.is_some() != is_accepted {
                return Err(Wrong::NotTold(number));
            }
        }
        for life in &self.lives {
            if !self.is_right(life) {
                return Err(Wrong::Values);
            }
        }
        Ok(())
    }
}
