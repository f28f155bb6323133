//! A shared flow on one thread, with the tally of what its calls answered. Those calls that a case repeats stay calls.

use crate::tally::Tally;
use shared_core::{Next, SharedState, SubId, Ticket};
use std::alloc::Global;

/// A flow, and what its calls answered.
#[derive(Drop)]
pub(crate) struct Tallied {
    pub(crate) flow: SharedState<u64>,
    pub(crate) tally: Tally,
}

impl Tallied {
    /// A new subscription, unless it is refused.
    pub(crate) fn subscribe(&mut self) -> Option<SubId> {
        self.tally.noted(self.flow.subscribe())
    }

    /// So many new subscriptions, or fewer where one is refused.
    pub(crate) fn subscribe_all(&mut self, alloc: Global, count: u32) -> Vec<SubId> {
        let mut ids = Vec::new(alloc);
        for _ in 0..count {
            if let Some(id) = self.subscribe() {
                self.tally.noted(ids.push(id));
            }
        }
        ids
    }

    /// A subscription goes.
    pub(crate) fn cancel(&mut self, id: SubId) {
        self.tally.cancelled(self.flow.cancel(id));
    }

    /// Tries to emit.
    #[inline]
    pub(crate) fn try_emit(&mut self, value: u64) {
        if let Some(tried) = self.tally.noted(self.flow.try_emit(0, value)) {
            self.tally.tried(tried);
        }
    }

    /// The same, by a call.
    #[inline(never)]
    pub(crate) fn attempt(&mut self, value: u64) {
        self.try_emit(value);
    }

    /// Tries to emit so many times.
    pub(crate) fn attempt_all(&mut self, value: u64, count: u64) {
        for _ in 0..count {
            self.attempt(value);
        }
    }

    /// A subscription takes one value.
    #[inline(never)]
    pub(crate) fn take(&mut self, id: SubId) {
        match self.flow.next(id) {
            Next::Value(value) => self.tally.given(Some(value)),
            Next::Nothing | Next::Closed => self.tally.given(None),
        }
    }

    /// Each of these takes one value.
    #[inline]
    pub(crate) fn take_each(&mut self, ids: &[SubId]) {
        for id in ids {
            self.take(*id);
        }
    }

    /// Starts an emission. Gives its ticket, where it waits.
    #[inline]
    pub(crate) fn start(&mut self, value: u64) -> Option<Ticket> {
        match self.tally.noted(self.flow.start_emit(0, value)) {
            Some(begun) => self.tally.begun(begun),
            None => None,
        }
    }

    /// The same, by a call.
    #[inline(never)]
    pub(crate) fn begin(&mut self, value: u64) -> Option<Ticket> {
        self.start(value)
    }

    /// Asks for an emission.
    #[inline(never)]
    pub(crate) fn ask(&mut self, ticket: Ticket) {
        self.tally.polled(self.flow.poll_emit(ticket));
    }

    /// An emission is given up.
    pub(crate) fn withdraw(&mut self, ticket: Ticket) {
        self.tally.withdrawn(self.flow.cancel_emit(ticket));
    }
}
