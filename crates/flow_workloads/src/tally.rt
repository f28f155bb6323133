//! What calls on flows answered, taken into a digest, each kind of answer with a number of its own; and the first fault.

use crate::fault::Fault;
use cold_flow::Cause;
use shared_core::{Begun, Emit, SubId, Ticket, Tried, Withdrawn};
use shared_flow::Receipt;
use workload_inputs::Digest;

const ACCEPTED: u64 = 1;

const DROPPED: u64 = 2;

const FULL: u64 = 3;

const WAITING: u64 = 4;

const DONE: u64 = 5;

const GONE: u64 = 6;

const REMOVED: u64 = 7;

const LEFT: u64 = 8;

const SUBSCRIBED: u64 = 9;

const CANCELLED: u64 = 10;

const VALUE: u64 = 11;

const NOTHING: u64 = 12;

const CLOSED: u64 = 13;

const OVERTAKEN: u64 = 14;

const ENOUGH: u64 = 15;

const FINISHED: u64 = 16;

const FAILED: u64 = 17;

const STOPPED: u64 = 18;

const REFUSED: u64 = 19;

/// How a subscription came to take no more.
#[derive(Clone, Copy)]
pub(crate) enum Rest {
    /// It took as many as it wanted.
    Enough,
    /// Nothing was there.
    Nothing,
    /// It isn't live.
    Closed,
}

/// What calls answered. After a fault the calls go on, and the run ends with it: so no call that is timed hands it on.
#[derive(Clone, Copy)]
pub(crate) struct Tally {
    digest: Digest,
    /// The first one.
    fault: Option<Fault>,
}

impl Tally {
    /// Of nothing.
    pub(crate) fn new() -> Tally {
        Tally {
            digest: Digest::new(),
            fault: None,
        }
    }

    /// The digest of all, where there was no fault.
    pub(crate) fn end(self) -> Result<Digest, Fault> {
        match self.fault {
            None => Ok(self.digest),
            Some(fault) => Err(fault),
        }
    }

    /// A fault is noted, where it is the first.
    #[cold]
    pub(crate) fn note(&mut self, fault: Fault) {
        if self.fault.is_none() {
            self.fault = Some(fault);
        }
    }

    /// What a call gave, unless it was refused, which is noted.
    #[inline]
    pub(crate) fn noted<T, E: Into<Fault>>(&mut self, given: Result<T, E>) -> Option<T> {
        match given {
            Ok(given) => Some(given),
            Err(refused) => {
                self.note(refused.into());
                None
            }
        }
    }

    /// Takes a number in.
    #[inline]
    pub(crate) fn number(&mut self, number: u64) {
        self.digest.number(number);
    }

    /// Takes bytes in.
    pub(crate) fn bytes(&mut self, bytes: &[u8]) {
        self.digest.bytes(bytes);
    }

    /// Takes in the digest of a part that has ended.
    pub(crate) fn part(&mut self, part: Tally) {
        if let Some(digest) = self.noted(part.end()) {
            self.number(digest.value());
        }
    }

    /// Takes in an answer of this kind, and the number in it.
    #[inline]
    fn answer(&mut self, kind: u64, number: u64) {
        self.digest.number(number.rotate_left(8) ^ kind);
    }

    /// Takes in what a try answered.
    #[inline]
    pub(crate) fn tried(&mut self, tried: Tried<u64>) {
        match tried {
            Tried::Accepted(number) => self.answer(ACCEPTED, number),
            Tried::Dropped => self.answer(DROPPED, 0),
            Tried::Full => self.answer(FULL, 0),
        }
    }

    /// Takes in what the start of an emission answered. Gives its ticket, where it waits.
    pub(crate) fn begun(&mut self, begun: Begun<u64, Ticket>) -> Option<Ticket> {
        match begun {
            Begun::Accepted(number) => {
                self.answer(ACCEPTED, number);
                None
            }
            Begun::Dropped => {
                self.answer(DROPPED, 0);
                None
            }
            Begun::Waiting(ticket) => {
                self.answer(WAITING, ticket.0);
                Some(ticket)
            }
        }
    }

    /// Takes in where an emission stands.
    pub(crate) fn polled(&mut self, emit: Emit) {
        match emit {
            Emit::Done(number) => self.answer(DONE, number),
            Emit::Waiting => self.answer(WAITING, 0),
            Emit::Gone => self.answer(GONE, 0),
        }
    }

    /// Takes in what became of an emission that was given up.
    pub(crate) fn withdrawn(&mut self, withdrawn: Withdrawn<u64>) {
        match withdrawn {
            Withdrawn::Removed => self.answer(REMOVED, 0),
            Withdrawn::Left(number) => self.answer(LEFT, number),
            Withdrawn::Gone => self.answer(GONE, 0),
        }
    }

    /// Takes in what an end of an emitter, or of a sharing, answered.
    pub(crate) fn closed(&mut self, closed: Withdrawn<Receipt>) {
        match closed {
            Withdrawn::Removed => self.answer(REMOVED, 0),
            Withdrawn::Left(receipt) => self.answer(LEFT, receipt.number()),
            Withdrawn::Gone => self.answer(GONE, 0),
        }
    }

    /// Takes in who came.
    pub(crate) fn subscribed(&mut self, id: SubId) {
        self.answer(SUBSCRIBED, id.0);
    }

    /// Takes in whether one that was cancelled was live.
    pub(crate) fn cancelled(&mut self, was_live: bool) {
        self.answer(CANCELLED, u64::from(was_live));
    }

    /// Takes in how a subscription came to take no more, and how many it took.
    #[inline]
    pub(crate) fn rested(&mut self, rest: Rest, taken: u64) {
        match rest {
            Rest::Enough => self.answer(ENOUGH, taken),
            Rest::Nothing => self.answer(NOTHING, taken),
            Rest::Closed => self.answer(CLOSED, taken),
        }
    }

    /// Takes in what one was given that may get nothing.
    #[inline]
    pub(crate) fn given(&mut self, value: Option<u64>) {
        match value {
            Some(value) => self.answer(VALUE, value),
            None => self.answer(NOTHING, 0),
        }
    }

    /// Takes in that a value was overtaken.
    pub(crate) fn overtaken(&mut self) {
        self.answer(OVERTAKEN, 0);
    }

    /// Takes in why a flow ended. A fault, unless that was its own end.
    pub(crate) fn ended(&mut self, cause: Cause<u64>) {
        match cause {
            Cause::Finished => self.answer(FINISHED, 0),
            Cause::Failed(fault) => self.answer(FAILED, fault),
            Cause::Cancelled => {
                self.answer(STOPPED, 0);
                self.note(Fault::Ended);
            }
            Cause::Refused(refusal) => {
                self.answer(REFUSED, u64::from(refusal.number()));
                self.note(Fault::Ended);
            }
        }
    }
}
