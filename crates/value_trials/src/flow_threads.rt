//! Threads that emit and receive values of any type.

use crate::flow_rows::{emit, flow_of, received};
use crate::parcels::{Answer, Parcel, Tally, assert_let_go, tally_of};
use crate::tools::assert_so;
use std::alloc::AllocGlobal;
use std::hint::spin_loop;
use std::process::Abort;
use std::sync::{Arc, Wait};
use std::thread;
use std::thread::Threads;
use trial_tools::Gathering;
use value_flows::{Policy, Subscription, ValueFlow};

/// How many values are emitted.
const COUNT: u64 = 20_000;

/// What a subscription received.
#[derive(Clone, Copy)]
struct Heard {
    /// How many values, each of which was the next one.
    values: u64,
    /// How many it was told it missed.
    missed: u64,
    /// How many weren't the next one.
    astray: u64,
}

impl Heard {
    /// Whether it received or was told of each value, and missed no more than so many.
    fn is_whole(self, most_missed: u64) -> bool {
        let all = self.values.wrapping_add(self.missed);
        all == COUNT && self.missed <= most_missed && self.astray == 0
    }
}

/// Once all are there, emits the numbers below [`COUNT`], and lets go who waits. How many were accepted, each under its number.
fn emit_all<R: Wait + Abort>(
    rt: &R,
    flow: &mut ValueFlow<Parcel>,
    tally: &Arc<Tally>,
    gathering: &Gathering,
) -> u64 {
    let mut accepted = 0u64;
    if !gathering.come() {
        return accepted;
    }
    for number in 0..COUNT {
        if emit(rt, flow, tally, number) == Answer::Number(number) {
            accepted = accepted.wrapping_add(1);
        }
    }
    flow.stop();
    accepted
}

/// Once all are there, receives until it is let go.
fn receive_all(rt: &impl Wait, parcels: &mut Subscription<Parcel>, gathering: &Gathering) -> Heard {
    let mut heard = Heard {
        values: 0,
        missed: 0,
        astray: 0,
    };
    let mut next = 0u64;
    if !gathering.come() {
        return heard;
    }
    for _ in 0..=COUNT {
        match received(parcels.next(rt)) {
            Answer::Number(number) if number == next => {
                heard.values = heard.values.wrapping_add(1);
                next = next.wrapping_add(1);
            }
            Answer::Number(_) => heard.astray = heard.astray.wrapping_add(1),
            Answer::Missed(count) => {
                heard.missed = heard.missed.wrapping_add(count);
                next = next.wrapping_add(count);
            }
            _ => break,
        }
    }
    heard
}

/// Two receive, on threads of their own.
fn receive_both<R: Threads + Wait + Sync>(
    rt: &R,
    one: &mut Subscription<Parcel>,
    other: &mut Subscription<Parcel>,
    gathering: &Gathering,
) -> (Heard, Heard) {
    thread::join(
        rt,
        || receive_all(rt, one, gathering),
        || receive_all(rt, other, gathering),
    )
}

/// One emits, and two receive. How many were accepted, and what the two received.
fn meet<R: Threads + Wait + Abort + Sync>(
    rt: &R,
    flow: &mut ValueFlow<Parcel>,
    one: &mut Subscription<Parcel>,
    other: &mut Subscription<Parcel>,
    tally: &Arc<Tally>,
) -> (u64, (Heard, Heard)) {
    let gathering = Gathering::of(3);
    thread::join(
        rt,
        || emit_all(rt, flow, tally, &gathering),
        || receive_both(rt, one, other, &gathering),
    )
}

/// Two subscriptions of a new flow, on threads of their own, miss no more than so many values, and are told of these. A parcel is made
/// for each emission and each receipt, and each is let go.
fn two_receive<R: AllocGlobal + Threads + Wait + Abort + Sync>(
    rt: &R,
    policy: Policy,
    most_missed: u64,
) {
    let tally = tally_of(rt);
    let mut flow = flow_of(rt, policy);
    let mut one = flow.subscribe(rt).expect(rt, "a subscription");
    let mut other = flow.subscribe(rt).expect(rt, "another subscription");
    let (accepted, (first, second)) = meet(rt, &mut flow, &mut one, &mut other, &tally);
    drop(one.cancel(rt));
    drop(other.cancel(rt));
    drop(flow);
    let made = COUNT.wrapping_add(first.values).wrapping_add(second.values);
    assert_so(rt, "each is accepted", accepted == COUNT);
    assert_so(rt, "the first is told of each", first.is_whole(most_missed));
    assert_so(rt, "the second is", second.is_whole(most_missed));
    assert_so(rt, "so many parcels are made", tally.made() == made);
    assert_let_go(rt, &tally);
}

/// Where emissions wait for room, both subscriptions receive each value, in order and once, from two places; whoever sleeps is woken,
/// or the test would not end.
#[test]
fn none_is_missed_where_emissions_wait(rt: HostRuntime) {
    two_receive(&rt, Policy::Suspend, 0);
}

/// Where the oldest are dropped, what a subscription received and what it was told it missed are all values.
#[test]
fn what_is_missed_is_told(rt: HostRuntime) {
    two_receive(&rt, Policy::DropOldest, COUNT);
}

/// Once both are there, emits three values, of which nobody receives any. What the third one came to, which has to wait until all are
/// let go.
fn emit_three<R: Wait + Abort>(
    rt: &R,
    flow: &mut ValueFlow<Parcel>,
    tally: &Arc<Tally>,
    gathering: &Gathering,
) -> Answer {
    if !gathering.come() {
        return Answer::Nothing;
    }
    emit(rt, flow, tally, 0);
    emit(rt, flow, tally, 1);
    emit(rt, flow, tally, 2)
}

fn stop_after(flow: &ValueFlow<Parcel>, turns: u32, gathering: &Gathering) {
    gathering.come();
    for _ in 0..turns {
        spin_loop();
    }
    flow.stop();
}

/// What a third emission came to, for which there is no room, where all are let go after so many turns of a loop.
fn let_go<R: AllocGlobal + Threads + Wait + Abort + Sync>(
    rt: &R,
    tally: &Arc<Tally>,
    turns: u32,
) -> Answer {
    let mut flow = flow_of(rt, Policy::Suspend);
    let mut other = flow.dup().expect(rt, "another owner");
    let parcels = flow.subscribe(rt).expect(rt, "a subscription");
    let gathering = Gathering::of(2);
    let (answer, ()) = thread::join(
        rt,
        || emit_three(rt, &mut other, tally, &gathering),
        || stop_after(&flow, turns, &gathering),
    );
    drop(parcels.cancel(rt));
    answer
}

/// It gets its value back, and each is let go.
fn third_comes_back<R: AllocGlobal + Threads + Wait + Abort + Sync>(rt: &R, turns: u32) {
    let tally = tally_of(rt);
    let answer = let_go(rt, &tally, turns);
    assert_so(rt, "the third comes back", answer == Answer::LetGo(2));
    assert_let_go(rt, &tally);
}

/// An emission that waits for room is let go, at whatever moment, and its value handed back.
#[test]
fn who_waits_for_room_is_let_go(rt: HostRuntime) {
    for round in 0..100 {
        third_comes_back(&rt, round * 500);
    }
}
