//! What a soak did so far.

use crate::record::Record;

/// What was done so far.
#[derive(Clone, Copy)]
pub(crate) struct Counts {
    pub(crate) rounds: u64,
    pub(crate) accepted: u64,
    pub(crate) accepted_in_blocks: u64,
    pub(crate) received: u64,
    pub(crate) received_in_blocks: u64,
    pub(crate) dropped: u64,
    pub(crate) subscriptions: u64,
    pub(crate) sets: u64,
    /// How many values the collectors of the state gave.
    pub(crate) given: u64,
}

impl Counts {
    pub(crate) fn none() -> Counts {
        Counts {
            rounds: 0,
            accepted: 0,
            accepted_in_blocks: 0,
            received: 0,
            received_in_blocks: 0,
            dropped: 0,
            subscriptions: 0,
            sets: 0,
            given: 0,
        }
    }

    /// Adds what the threads did in a round.
    pub(crate) fn add_round(&mut self, records: &[Record]) {
        self.rounds = self.rounds.saturating_add(1);
        for record in records {
            self.add(record);
        }
    }

    fn add(&mut self, record: &Record) {
        let accepted = record.told.len() as u64;
        let received = record.received.len() as u64;
        self.accepted = self.accepted.saturating_add(accepted);
        self.accepted_in_blocks = self
            .accepted_in_blocks
            .saturating_add(record.told_in_blocks);
        self.received = self.received.saturating_add(received);
        self.received_in_blocks = self
            .received_in_blocks
            .saturating_add(record.received_in_blocks);
        self.dropped = self.dropped.saturating_add(record.dropped);
        self.subscriptions = self.subscriptions.saturating_add(record.subscriptions);
        self.sets = self.sets.saturating_add(record.sets);
        self.given = self.given.saturating_add(record.given);
    }
}
