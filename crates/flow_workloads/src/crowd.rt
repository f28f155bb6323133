//! The subscriptions of a shared flow on one thread, who come and go.

use crate::tallied::Tallied;
use crate::tally::Rest;
use shared_core::{Next, SubId};
use std::alloc::Global;
use workload_inputs::Random;

/// The subscriptions of a flow.
#[derive(Drop)]
pub(crate) struct Crowd {
    ids: Vec<SubId>,
}

impl Crowd {
    /// So many new subscriptions.
    pub(crate) fn of(alloc: Global, calls: &mut Tallied, count: u32) -> Crowd {
        let ids = calls.subscribe_all(alloc, count);
        for id in &ids {
            calls.tally.subscribed(*id);
        }
        Crowd { ids }
    }

    /// Each but a few takes what is there, at most so many values.
    pub(crate) fn take_all(&self, calls: &mut Tallied, random: &mut Random, most: u64) {
        for id in &self.ids {
            if !random.is_one_of(1, 8) {
                take(calls, *id, most);
            }
        }
    }

    /// The one at this place takes at most so many values.
    pub(crate) fn take_at(&self, calls: &mut Tallied, place: usize, most: u64) {
        if let Some(id) = self.ids.get(place) {
            take(calls, *id, most);
        }
    }

    /// One goes, and another comes.
    pub(crate) fn change(&mut self, calls: &mut Tallied, random: &mut Random) {
        let count = self.ids.len() as u64;
        if count == 0 {
            return;
        }
        let place = random.below(count) as usize;
        calls.cancel(self.ids[place]);
        if let Some(id) = calls.subscribe() {
            calls.tally.subscribed(id);
            self.ids[place] = id;
        }
    }

    /// The first goes, and every second one after it.
    pub(crate) fn thin_out(&mut self, alloc: Global, calls: &mut Tallied) {
        let mut left = Vec::new(alloc);
        for (place, id) in self.ids.iter().enumerate() {
            if place % 2 == 0 {
                calls.cancel(*id);
            } else {
                calls.tally.noted(left.push(*id));
            }
        }
        self.ids = left;
    }
}

/// A subscription takes what is there, at most so many values.
#[inline(never)]
fn take(calls: &mut Tallied, id: SubId, most: u64) {
    let mut taken: u64 = 0;
    let mut rest = Rest::Enough;
    for _ in 0..most {
        match calls.flow.next(id) {
            Next::Value(value) => calls.tally.number(value),
            Next::Nothing => {
                rest = Rest::Nothing;
                break;
            }
            Next::Closed => {
                rest = Rest::Closed;
                break;
            }
        }
        taken = taken.wrapping_add(1);
    }
    calls.tally.rested(rest, taken);
}
