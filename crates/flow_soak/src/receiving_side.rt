//! A thread's side of a flow that receives: now and then a subscription.

use crate::record::{Place, Record};
use shared_flow::{SharedFlow, Subscription, Taken};
use std::sync::Wait;

/// More than a subscription can have pending.
const PENDING: u32 = 16;

/// It must be ended.
pub(crate) struct ReceivingSide {
    owner: SharedFlow<u64>,
    subscription: Option<Subscription<u64>>,
    /// The least number that the subscription's next value can have.
    next: u64,
    /// What was received in blocks.
    block: Vec<u64>,
}

impl ReceivingSide {
    /// Without a subscription. A block has as many values as the list has room for.
    pub(crate) fn new(owner: SharedFlow<u64>, block: Vec<u64>) -> ReceivingSide {
        ReceivingSide {
            owner,
            subscription: None,
            next: 0,
            block,
        }
    }

    /// Subscribes, or leaves.
    pub(crate) fn come_or_leave(&mut self, rt: &impl Wait, record: &mut Record) {
        if let Some(subscription) = self.subscription.take() {
            record.dropped = record.dropped.saturating_add(subscription.dropped());
            subscription.cancel(rt);
            return;
        }
        let Ok(subscription) = self.owner.subscribe(rt) else {
            return;
        };
        self.next = subscription.start();
        record.subscriptions = record.subscriptions.saturating_add(1);
        if let Some(before) = self.subscription.replace(subscription) {
            before.cancel(rt);
        }
    }

    /// Takes a value, where one is there, and keeps its place.
    pub(crate) fn take(&mut self, record: &mut Record) {
        let Some(subscription) = &mut self.subscription else {
            return;
        };
        let Taken::Value(value) = subscription.try_next() else {
            return;
        };
        let at = position(subscription);
        let number = at.saturating_sub(1);
        record.expect(number >= self.next);
        self.next = at;
        record.keep_received(Place { number, value });
    }

    /// Takes what is there, as far as there is room behind what was taken before, which is forgotten now and then, and keeps
    /// the places.
    pub(crate) fn take_block(&mut self, forgets: bool, record: &mut Record) {
        if forgets {
            self.block.clear();
        }
        let before = self.block.len();
        let Some(taken) = taken_into(&mut self.subscription, &mut self.block) else {
            return;
        };
        record.expect(taken.first >= self.next);
        self.next = taken.first.saturating_add(taken.count);
        let values = self.block.get(before..).unwrap_or(&[]);
        record.expect(values.len() as u64 == taken.count);
        record.keep_received_block(taken.first, values);
    }

    /// Takes what is pending: nobody emits any more.
    pub(crate) fn drain(&mut self, record: &mut Record) {
        for _ in 0..PENDING {
            self.take(record);
        }
        if let Some(subscription) = &self.subscription {
            record.ended_at = Some(position(subscription));
        }
    }

    pub(crate) fn end(self, rt: &impl Wait, record: &mut Record) {
        let ReceivingSide {
            owner: _,
            subscription,
            next: _,
            block: _,
        } = self;
        if let Some(subscription) = subscription {
            record.dropped = record.dropped.saturating_add(subscription.dropped());
            subscription.cancel(rt);
        }
    }
}

// The number of the subscription's next value.
fn position(subscription: &Subscription<u64>) -> u64 {
    let received = subscription.received();
    let dropped = subscription.dropped();
    let start = subscription.start();
    start.saturating_add(received).saturating_add(dropped)
}

/// What a block of receipts took: the number of its first value, and how many values.
#[derive(Clone, Copy)]
struct TakenBlock {
    first: u64,
    count: u64,
}

// Takes what is there, where there is a subscription, as far as the block has room.
fn taken_into(place: &mut Option<Subscription<u64>>, block: &mut Vec<u64>) -> Option<TakenBlock> {
    let Some(subscription) = place else {
        return None;
    };
    let Taken::Value(count) = subscription.try_next_all(block) else {
        return None;
    };
    let first = position(subscription).saturating_sub(count);
    Some(TakenBlock { first, count })
}
