//! A slow subscription, for whose sake hundreds of emissions wait, each of which is polled.

use crate::crowd::Crowd;
use crate::tallied::Tallied;
use shared_core::{Emit, Ticket};
use std::alloc::Global;
use workload_inputs::Random;

/// How many tickets may be out.
pub(crate) const TICKETS: u32 = 512;

/// How many subscriptions there are, of which the first is slow.
pub(crate) const SUBSCRIPTIONS: u32 = 32;

/// Starts emissions until so many tickets are out.
fn fill_up(calls: &mut Tallied, tickets: &mut Vec<Ticket>, random: &mut Random) {
    for _ in 0..2 * TICKETS {
        if tickets.len() >= TICKETS as usize {
            break;
        }
        if let Some(ticket) = calls.start(random.next()) {
            calls.tally.noted(tickets.push(ticket));
        }
    }
}

/// Asks for each ticket, gives a few up, and gives those that wait.
fn poll_all(
    alloc: Global,
    calls: &mut Tallied,
    tickets: &[Ticket],
    random: &mut Random,
) -> Vec<Ticket> {
    let mut left = Vec::new(alloc);
    calls.tally.noted(left.reserve(tickets.len()));
    for ticket in tickets {
        if random.is_one_of(1, 64) {
            calls.withdraw(*ticket);
            continue;
        }
        let emit = calls.flow.poll_emit(*ticket);
        calls.tally.polled(emit);
        if emit == Emit::Waiting {
            calls.tally.noted(left.push(*ticket));
        }
    }
    left
}

/// All but the slow one take what is there, and before them it takes some.
fn take_all(calls: &mut Tallied, crowd: &Crowd, random: &mut Random) {
    let slow = 1 + random.below(64);
    crowd.take_at(calls, 0, slow);
    for place in 1..SUBSCRIPTIONS {
        crowd.take_at(calls, place as usize, 64);
    }
}

/// Rounds of emissions until no ticket is left, after which the subscriptions take what is there.
pub(crate) fn rounds(
    alloc: Global,
    calls: &mut Tallied,
    crowd: &Crowd,
    random: &mut Random,
    count: u64,
) {
    let mut tickets = Vec::new(alloc);
    for _ in 0..count {
        fill_up(calls, &mut tickets, random);
        take_all(calls, crowd, random);
        tickets = poll_all(alloc, calls, &tickets, random);
    }
}
