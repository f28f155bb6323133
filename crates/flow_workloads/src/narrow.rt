//! Flows with one place, with none, and where the oldest value makes way.

use crate::tallied::Tallied;
use std::alloc::Global;

/// So many subscriptions come, and each takes each value.
pub(crate) fn taken_by_all(
    alloc: Global,
    calls: &mut Tallied,
    subscribers: u32,
    (value, rounds): (u64, u64),
) {
    let ids = calls.subscribe_all(alloc, subscribers);
    for _ in 0..rounds {
        calls.attempt(value);
        calls.take_each(&ids);
    }
}

/// So many subscriptions come. An emission is begun, each of them takes it, and it is done.
pub(crate) fn hand_over(
    alloc: Global,
    calls: &mut Tallied,
    subscribers: u32,
    (value, rounds): (u64, u64),
) {
    let ids = calls.subscribe_all(alloc, subscribers);
    for _ in 0..rounds {
        let waiting = calls.begin(value);
        calls.take_each(&ids);
        if let Some(ticket) = waiting {
            calls.ask(ticket);
        }
    }
}

/// One comes, and takes each value.
pub(crate) fn oldest(calls: &mut Tallied, value: u64, rounds: u64) {
    let Some(id) = calls.subscribe() else {
        return;
    };
    for _ in 0..rounds {
        calls.attempt(value);
        calls.take(id);
    }
}
