//! What every call answers C.
ghost use Rattle.std.specs.Prelude.{◌≡◌};
ghost use Rattle.hillgauze_c.specs.Replies.{refused_as, answered, tried_reply, begun_reply, emit_reply, withdrawn_reply, next_reply, subscribed_reply, value_reply};
ghost use Rattle.hillgauze_c.specs.Replies.{ended_reply, taken_reply, compared_reply, refusal_reply, made_reply, tries_reply, receipts_reply, takes_reply};

use flow_terms::{Begun, Emit, Next, Refusal, SubId, Ticket, Tried, Withdrawn};
use shared_lane::Taken;

/// A refusal by its number, or a kind with a word.
#[repr(C)]
#[derive(Clone, Copy)]
pub struct Reply {
    pub refusal: u32,
    pub kind: u32,
    pub word: u64,
}

/// The handle is null.
pub(crate) const NULL_HANDLE: u32 = 101;
/// The handle has an object of another kind.
pub(crate) const OTHER_KIND: u32 = 102;
/// The handle in which something is to be put isn't null.
pub(crate) const HANDLE_TAKEN: u32 = 103;
/// The number stands for no policy.
pub(crate) const NO_SUCH_POLICY: u32 = 104;

const DONE: u32 = 1;

const ACCEPTED: u32 = 2;

const DROPPED: u32 = 3;

const FULL: u32 = 4;

const WAITING: u32 = 5;

const REMOVED: u32 = 6;

const LEFT: u32 = 7;

const GONE: u32 = 8;

const VALUE: u32 = 9;

const NOTHING: u32 = 10;

const OVERTAKEN: u32 = 11;

const CLOSED: u32 = 12;

const COUNT: u32 = 13;

const UNEQUAL: u32 = 14;

impl Reply {
    /// The call was refused, by this number.
    pub fn refused(refusal: u32) -> Reply
        ensures { result ≡ refused_as refusal }
    {
        Reply {
            refusal,
            kind: 0,
            word: 0,
        }
    }

    fn answered(kind: u32, word: u64) -> Reply
        ensures { result ≡ answered kind word }
    {
        Reply {
            refusal: 0,
            kind,
            word,
        }
    }

    /// The call was refused.
    pub fn of_refusal(refusal: Refusal) -> Reply
        ensures { result ≡ refusal_reply refusal }
    {
        Reply::refused(refusal.number() as u32)
    }

    /// It happened.
    pub fn done() -> Reply
        ensures { result ≡ answered 1 0 }
    {
        Reply::answered(DONE, 0)
    }

    /// To making something: whether there was memory for it.
    pub fn of_making(made: bool) -> Reply
        ensures { result ≡ made_reply made }
    {
        if made {
            return Reply::done();
        }
        Reply::of_refusal(Refusal::NoMemory)
    }

    /// A number that was asked for.
    pub fn of_count(count: u64) -> Reply
        ensures { result ≡ answered 13 count }
    {
        Reply::answered(COUNT, count)
    }

    /// To a try.
    pub fn of_try(answer: Result<Tried<u64>, Refusal>) -> Reply
        ensures { result ≡ tried_reply answer }
    {
        match answer {
            Ok(Tried::Accepted(number)) => Reply::answered(ACCEPTED, number),
            Ok(Tried::Dropped) => Reply::answered(DROPPED, 0),
            Ok(Tried::Full) => Reply::answered(FULL, 0),
            Err(refusal) => Reply::of_refusal(refusal),
        }
    }

    /// To tries in a row: how many were accepted.
    pub fn of_tries(answer: Result<u64, Refusal>) -> Reply
        ensures { result ≡ tries_reply answer }
    {
        match answer {
            Ok(count) => Reply::of_count(count),
            Err(refusal) => Reply::of_refusal(refusal),
        }
    }

    /// To a subscription's receipts in a row: how many values came.
    pub fn of_receipts(answer: Next<u64>) -> Reply
        ensures { result ≡ receipts_reply answer }
    {
        match answer {
            Next::Value(count) => Reply::of_count(count),
            Next::Nothing => Reply::answered(NOTHING, 0),
            Next::Closed => Reply::answered(CLOSED, 0),
        }
    }

    /// To a reader's receipts at once: how many values came.
    pub fn of_takes(answer: Taken<u64>) -> Reply
        ensures { result ≡ takes_reply answer }
    {
        match answer {
            Taken::Value(count) => Reply::of_count(count),
            Taken::Nothing => Reply::answered(NOTHING, 0),
            Taken::Overtaken => Reply::answered(OVERTAKEN, 0),
        }
    }

    /// To a start.
    pub fn of_start(answer: Result<Begun<u64, Ticket>, Refusal>) -> Reply
        ensures { result ≡ begun_reply answer }
    {
        match answer {
            Ok(Begun::Accepted(number)) => Reply::answered(ACCEPTED, number),
            Ok(Begun::Dropped) => Reply::answered(DROPPED, 0),
            Ok(Begun::Waiting(ticket)) => Reply::answered(WAITING, ticket.0),
            Err(refusal) => Reply::of_refusal(refusal),
        }
    }

    /// To a poll.
    pub fn of_poll(answer: Emit) -> Reply
        ensures { result ≡ emit_reply answer }
    {
        match answer {
            Emit::Done(number) => Reply::answered(DONE, number),
            Emit::Waiting => Reply::answered(WAITING, 0),
            Emit::Gone => Reply::answered(GONE, 0),
        }
    }

    /// To a withdrawal.
    pub fn of_withdrawal(answer: Withdrawn<u64>) -> Reply
        ensures { result ≡ withdrawn_reply answer }
    {
        match answer {
            Withdrawn::Removed => Reply::answered(REMOVED, 0),
            Withdrawn::Left(number) => Reply::answered(LEFT, number),
            Withdrawn::Gone => Reply::answered(GONE, 0),
        }
    }

    /// To one who subscribes.
    pub fn of_subscription(answer: Result<SubId, Refusal>) -> Reply
        ensures { result ≡ subscribed_reply answer }
    {
        match answer {
            Ok(subscription) => Reply::answered(DONE, subscription.0),
            Err(refusal) => Reply::of_refusal(refusal),
        }
    }

    /// To a subscription's receipt.
    pub fn of_next(answer: Next<u64>) -> Reply
        ensures { result ≡ next_reply answer }
    {
        match answer {
            Next::Value(value) => Reply::answered(VALUE, value),
            Next::Nothing => Reply::answered(NOTHING, 0),
            Next::Closed => Reply::answered(CLOSED, 0),
        }
    }

    /// To a reader's receipt.
    pub fn of_taking(answer: Taken<u64>) -> Reply
        ensures { result ≡ taken_reply answer }
    {
        match answer {
            Taken::Value(value) => Reply::answered(VALUE, value),
            Taken::Nothing => Reply::answered(NOTHING, 0),
            Taken::Overtaken => Reply::answered(OVERTAKEN, 0),
        }
    }

    /// A value, where there is one.
    pub fn of_value(answer: Option<u64>) -> Reply
        ensures { result ≡ value_reply answer }
    {
        match answer {
            Some(value) => Reply::answered(VALUE, value),
            None => Reply::answered(NOTHING, 0),
        }
    }

    /// To a cancellation: whether the subscription was live.
    pub fn of_end(was_live: bool) -> Reply
        ensures { result ≡ ended_reply was_live }
    {
        if was_live {
            return Reply::done();
        }
        Reply::answered(CLOSED, 0)
    }

    /// To a comparison with the state's value: whether it was equal.
    pub fn of_comparison(was_equal: bool) -> Reply
        ensures { result ≡ compared_reply was_equal }
    {
        if was_equal {
            return Reply::done();
        }
        Reply::answered(UNEQUAL, 0)
    }
}
