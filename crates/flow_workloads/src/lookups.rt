//! Subscriptions and tickets that are looked for where others are gone.

use crate::fault::Fault;
use crate::tallied::Tallied;
use shared_core::{SubId, Ticket};
use std::alloc::Global;

/// How many values are there to be taken, in each round of `front_gap`.
const VALUES: u64 = 60_000;

/// Of so many the second one has gone. The third, fifth, seventh and ninth take what is there, the last of these first.
pub(crate) fn front_gap(alloc: Global, calls: &mut Tallied, value: u64, count: u32) {
    let ids = calls.subscribe_all(alloc, count);
    let &[_, second, third, _, fifth, _, seventh, _, ninth, ..] = ids.as_slice() else {
        calls.tally.note(Fault::Otherwise);
        return;
    };
    calls.cancel(second);
    calls.attempt_all(value, VALUES);
    for _ in 0..VALUES {
        calls.take(ninth);
        calls.take(seventh);
        calls.take(fifth);
        calls.take(third);
    }
}

/// All of these go but the first, the sixth and the last of ten.
fn leave_but_three(calls: &mut Tallied, ids: &[SubId]) {
    for (place, id) in ids.iter().enumerate() {
        if !matches!(place, 0 | 5 | 9) {
            calls.cancel(*id);
        }
    }
}

/// Ten subscriptions come, of which three are left, who take each value, the last of them first.
pub(crate) fn gaps(alloc: Global, calls: &mut Tallied, value: u64, rounds: u64) {
    let ids = calls.subscribe_all(alloc, 10);
    leave_but_three(calls, ids.as_slice());
    let &[first, _, _, _, _, sixth, _, _, _, last] = ids.as_slice() else {
        calls.tally.note(Fault::Otherwise);
        return;
    };
    for _ in 0..rounds {
        calls.attempt(value);
        calls.take(last);
        calls.take(sixth);
        calls.take(first);
    }
}

/// Starts so many emissions, and keeps the tickets of those that wait.
fn begin_all(calls: &mut Tallied, tickets: &mut Vec<Ticket>, value: u64, count: u64) {
    for _ in 0..count {
        if let Some(ticket) = calls.begin(value) {
            calls.tally.noted(tickets.push(ticket));
        }
    }
}

/// Of 1,024 emissions that wait the 511 after the oldest are given up, and as many begun anew.
fn open_gap(calls: &mut Tallied, tickets: &mut Vec<Ticket>, value: u64) {
    calls.attempt(value);
    begin_all(calls, tickets, value, 1024);
    for ticket in tickets.iter().skip(1).take(511) {
        calls.withdraw(*ticket);
    }
    begin_all(calls, tickets, value, 511);
}

/// Asks for an emission so many times.
fn ask_all(calls: &mut Tallied, ticket: Ticket, count: u64) {
    for _ in 0..count {
        calls.ask(ticket);
    }
}

/// The second oldest of 1,024 emissions that wait, behind a gap, is asked for. One subscription takes nothing.
pub(crate) fn front_tickets(alloc: Global, calls: &mut Tallied, value: u64, rounds: u64) {
    let _idle = calls.subscribe();
    let mut tickets = Vec::new(alloc);
    open_gap(calls, &mut tickets, value);
    match tickets.get(512) {
        Some(second) => ask_all(calls, *second, rounds),
        None => calls.tally.note(Fault::Otherwise),
    }
}
