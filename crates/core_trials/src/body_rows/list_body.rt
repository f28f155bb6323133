//! The shared flow on one thread with a list of pending values for each subscription, and one for the replay cache.
//!
//! This is the body that the ring of `shared_core` replaced, kept as a plain program: tests run both. It takes memory for
//! subscriptions and tickets as it goes, and it stops at the greatest number instead of proving that it never gets there.

mod emissions;
mod queue;
mod subscriptions;
mod tickets;

use crate::body_rows::list_body::queue::Queue;
use crate::body_rows::list_body::tickets::{Accepted, Waiting};
use cold_flow::{Policy, Refusal};
use shared_core::{Call, Config, Prelude, Reply};
use std::alloc::{AllocError, Global};

/// Numbers stay below this.
const NUMBER_LIMIT: u64 = 1 << 62;

/// A live subscription: its number, its prelude, of which so many values were given, and its pending values.
#[derive(Clone, Copy)]
pub struct Place {
    pub number: u64,
    pub prelude: Prelude<u64>,
    pub given: u32,
    pub pending: Queue,
}

/// A shared flow of words with five places at most.
#[derive(Drop)]
pub struct ListBody {
    pub config: Config,
    /// The number of the next accepted emission.
    pub next_number: u64,
    /// How many subscriptions were made, and how many tickets were given.
    pub subscribed: u64,
    pub given: u64,
    /// The latest accepted values, at most `replay` of them.
    pub cache: Queue,
    /// The live subscriptions, by rising numbers.
    pub live: Vec<Place>,
    /// The accepted emissions whose ticket is out, and those that wait for room, the oldest first.
    pub accepted: Vec<Accepted>,
    pub waiting: Vec<Waiting>,
}

impl ListBody {
    pub(crate) fn new(alloc: Global, config: Config) -> ListBody {
        ListBody {
            config,
            next_number: config.first,
            subscribed: 0,
            given: 0,
            cache: Queue::new(),
            live: Vec::new(alloc),
            accepted: Vec::new(alloc),
            waiting: Vec::new(alloc),
        }
    }

    /// How many places the flow has for each subscription.
    fn capacity(&self) -> u64 {
        self.config.replay.saturating_add(self.config.extra)
    }

    /// How many values a subscription may have pending: 1 in a flow without places, for the hand-over.
    fn limit(&self) -> usize {
        self.capacity().max(1) as usize
    }

    /// Makes one call.
    pub(crate) fn make(&mut self, call: Call<u64>) -> Result<Reply<u64>, AllocError> {
        Ok(match call {
            Call::Try(_, value) => Reply::Tried(self.try_emit(value)),
            Call::Start(_, value) => Reply::Begun(self.start_emit(value)?),
            Call::Poll(ticket) => Reply::Emit(self.poll_emit(ticket.0)),
            Call::Withdraw(ticket) => Reply::Withdrawn(self.cancel_emit(ticket.0)),
            Call::Subscribe => Reply::Sub(self.subscribe(Prelude::empty())?),
            Call::SubscribeWith(prelude) => Reply::Sub(self.subscribe(prelude)?),
            Call::Next(id) => Reply::Next(self.next(id.0)?),
            Call::Cancel(id) => Reply::Cancelled(self.cancel(id.0)?),
            Call::Reset => {
                self.cache = Queue::new();
                Reply::Reset
            }
            Call::Count => Reply::Count(self.live.len().min(1024) as u32),
        })
    }
}
