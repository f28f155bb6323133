//! What a thread of a soak did.

use crate::fault::Fault;
use std::alloc::Global;

/// A value, and the number of its emission.
#[derive(Clone, Copy)]
pub(crate) struct Place {
    pub(crate) number: u64,
    pub(crate) value: u64,
}

/// The value of an accepted emission, and its number where a receipt told it. A block has no receipt.
#[derive(Clone, Copy)]
pub(crate) struct Told {
    pub(crate) number: Option<u64>,
    pub(crate) value: u64,
}

/// What a thread did in a round.
#[derive(Drop)]
pub(crate) struct Record {
    /// The thread's id: the values that it emits begin at this times `APART`.
    pub(crate) id: u32,
    /// The accepted emissions, the first one first.
    pub(crate) told: Vec<Told>,
    /// The values of all its subscriptions.
    pub(crate) received: Vec<Place>,
    /// How many values were accepted in blocks, and how many were received in blocks.
    pub(crate) told_in_blocks: u64,
    pub(crate) received_in_blocks: u64,
    /// How many values its subscriptions lost.
    pub(crate) dropped: u64,
    pub(crate) subscriptions: u64,
    /// The number after the last value of the subscription that was there at the end.
    pub(crate) ended_at: Option<u64>,
    pub(crate) sets: u64,
    /// How many values the state's collector gave.
    pub(crate) given: u64,
    /// Receipts and numbers rose, and each value of the state was later than the one before.
    pub(crate) is_right: bool,
}

impl Record {
    /// Of a thread that did nothing so far, with room for so many emissions and as many receipts.
    pub(crate) fn with_room(alloc: Global, id: u32, room: usize) -> Result<Record, Fault> {
        let told = Vec::with_capacity(alloc, room)?;
        Ok(Record {
            id,
            told,
            received: Vec::with_capacity(alloc, room)?,
            told_in_blocks: 0,
            received_in_blocks: 0,
            dropped: 0,
            subscriptions: 0,
            ended_at: None,
            sets: 0,
            given: 0,
            is_right: true,
        })
    }

    /// Whether all was right so far, and this is.
    pub(crate) fn expect(&mut self, is_right: bool) {
        self.is_right = self.is_right && is_right;
    }

    /// Keeps an accepted emission.
    pub(crate) fn keep_told(&mut self, told: Told) {
        let is_kept = self.told.push(told).is_ok();
        self.expect(is_kept);
    }

    /// Keeps a value that was received.
    pub(crate) fn keep_received(&mut self, place: Place) {
        let is_kept = self.received.push(place).is_ok();
        self.expect(is_kept);
    }

    /// Keeps values that were accepted in a block.
    pub(crate) fn keep_told_block(&mut self, values: &[u64]) {
        for value in values {
            self.keep_told(Told {
                number: None,
                value: *value,
            });
        }
        let count = values.len() as u64;
        self.told_in_blocks = self.told_in_blocks.saturating_add(count);
    }

    /// Keeps values that were received in a block, of which the first has this number.
    pub(crate) fn keep_received_block(&mut self, first: u64, values: &[u64]) {
        for (later, value) in values.iter().enumerate() {
            self.keep_received(Place {
                number: first.saturating_add(later as u64),
                value: *value,
            });
        }
        let count = values.len() as u64;
        self.received_in_blocks = self.received_in_blocks.saturating_add(count);
    }
}
