//! The answers to what the calls of a flow replied.

ghost use Rattle.std.specs.Prelude.{◌≡◌};
ghost use Rattle.script_commands.specs.Replies.{try_answer, emit_answer, poll_answer, withdraw_answer, subscribe_answer, next_answer};
ghost use Rattle.script_calls.specs.Calls.{listed};
ghost use Rattle.script_commands.specs.Replies.{cancel_answer, fill_answer, take_answer, cache_answer, tick_answer};

use super::Answer;
use crate::listing::Listing;
use cold_flow::{Cause, Event, Refusal};
use flow_terms::{Begun, Emit, Fill, Next, SubId, Ticket, Tried, Withdrawn};
use futures::task::Poll;
use script_calls::Ticked;

impl From<Result<Tried<u64>, Refusal>> for Answer {
    ghost from_gives = { λ tried answer. answer ≡ try_answer tried };

    fn from(tried: Result<Tried<u64>, Refusal>) -> Answer {
        match tried {
            Ok(Tried::Accepted(_)) => Answer::Accepted,
            Ok(Tried::Dropped) => Answer::Dropped,
            Ok(Tried::Full) => Answer::Full,
            Err(refusal) => Answer::Refused(refusal),
        }
    }
}

impl From<Result<Begun<u64, Ticket>, Refusal>> for Answer {
    ghost from_gives = { λ begun answer. answer ≡ emit_answer begun };

    fn from(begun: Result<Begun<u64, Ticket>, Refusal>) -> Answer {
        match begun {
            Ok(Begun::Accepted(_)) => Answer::Accepted,
            Ok(Begun::Dropped) => Answer::Dropped,
            Ok(Begun::Waiting(_)) => Answer::Waiting,
            Err(refusal) => Answer::Refused(refusal),
        }
    }
}

impl From<Emit> for Answer {
    ghost from_gives = { λ emit answer. answer ≡ poll_answer emit };

    fn from(emit: Emit) -> Answer {
        match emit {
            Emit::Done(_) => Answer::Done,
            Emit::Waiting => Answer::Waiting,
            Emit::Gone => Answer::Gone,
        }
    }
}

impl From<Withdrawn<u64>> for Answer {
    ghost from_gives = { λ withdrawn answer. answer ≡ withdraw_answer withdrawn };

    fn from(withdrawn: Withdrawn<u64>) -> Answer {
        match withdrawn {
            Withdrawn::Removed => Answer::Removed,
            Withdrawn::Left(_) => Answer::Left,
            Withdrawn::Gone => Answer::Gone,
        }
    }
}

impl From<Result<SubId, Refusal>> for Answer {
    ghost from_gives = { λ subscribed answer. answer ≡ subscribe_answer subscribed };

    fn from(subscribed: Result<SubId, Refusal>) -> Answer {
        match subscribed {
            Ok(_) => Answer::Ok,
            Err(refusal) => Answer::Refused(refusal),
        }
    }
}

impl From<Next<u64>> for Answer {
    ghost from_gives = { λ next answer. answer ≡ next_answer next };

    fn from(next: Next<u64>) -> Answer {
        match next {
            Next::Value(value) => Answer::Value(value),
            Next::Nothing => Answer::Pending,
            Next::Closed => Answer::Closed,
        }
    }
}

impl From<Fill> for Answer {
    ghost from_gives = { λ fill answer. answer ≡ fill_answer fill };

    fn from(fill: Fill) -> Answer {
        match fill {
            Fill::Took => Answer::Took,
            Fill::Overwrote => Answer::Overwrote,
            Fill::Dropped => Answer::Dropped,
            Fill::Full => Answer::Full,
            Fill::Pending => Answer::Pending,
            Fill::Ended => Answer::Ended,
        }
    }
}

impl From<Poll<Event<u64, u64>>> for Answer {
    ghost from_gives = { λ polled answer. answer ≡ take_answer polled };

    fn from(polled: Poll<Event<u64, u64>>) -> Answer {
        match polled {
            Poll::Ready(Event::Value(value)) => Answer::Value(value),
            Poll::Ready(Event::End(Cause::Finished)) => Answer::Finished,
            Poll::Ready(Event::End(Cause::Failed(fault))) => Answer::Failed(fault),
            Poll::Ready(Event::End(Cause::Cancelled)) => Answer::Closed,
            Poll::Ready(Event::End(Cause::Refused(refusal))) => Answer::Refused(refusal),
            Poll::Pending => Answer::Pending,
        }
    }
}

impl From<Result<Vec<u64>, Refusal>> for Answer {
    ghost from_gives = { λ found answer. answer ≡ cache_answer (listed found) };

    fn from(found: Result<Vec<u64>, Refusal>) -> Answer {
        match found {
            Ok(values) => Answer::Values(Listing::new(values)),
            Err(refusal) => Answer::Refused(refusal),
        }
    }
}

impl From<Ticked> for Answer {
    ghost from_gives = { λ ticked answer. answer ≡ tick_answer ticked };

    fn from(ticked: Ticked) -> Answer {
        match ticked {
            Ticked::On => Answer::On,
            Ticked::Off => Answer::Off,
            Ticked::Failed(fault) => Answer::Failed(fault),
            Ticked::Refused(refusal) => Answer::Refused(refusal),
        }
    }
}

impl Answer {
    /// The answer to a cancellation, by whether anything was live.
    pub fn to_cancel(was_live: bool) -> Answer
        ensures { result ≡ cancel_answer was_live }
    {
        if was_live { Answer::Ok } else { Answer::Closed }
    }
}
