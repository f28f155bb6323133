//! Threads that set, change and watch a state of any type.

use crate::parcels::{Parcel, Tally, assert_let_go, parcel_of, tally_of};
use crate::tools::assert_so;
use std::alloc::AllocGlobal;
use std::hint::spin_loop;
use std::process::Abort;
use std::sync::{Arc, Wait};
use std::thread;
use std::thread::Threads;
use trial_tools::Gathering;
use value_states::{Collected, ValueState, Watcher};

/// How often each thread calls.
const TIMES: u64 = 10_000;

/// Adds 1 so often.
fn count_up(rt: &impl Wait, state: &mut ValueState<Parcel>) {
    for _ in 0..TIMES {
        state.update(rt, |parcel| parcel.number = parcel.number.wrapping_add(1));
    }
}

/// Takes clones, each of which has no smaller number than the one before. Whether they had.
fn clone_often(rt: &impl Wait, state: &mut ValueState<Parcel>) -> bool {
    let mut latest = 0;
    for _ in 0..TIMES {
        let Ok(parcel) = state.value(rt) else {
            return false;
        };
        if parcel.number < latest {
            return false;
        }
        latest = parcel.number;
    }
    true
}

/// Two count, and one takes clones. Whether these rose, and what is left.
fn counted<R: AllocGlobal + Threads + Wait + Abort + Sync>(
    rt: &R,
    tally: &Arc<Tally>,
) -> (bool, u64) {
    let mut one = ValueState::new(rt.alloc(), parcel_of(rt, tally, 0)).expect(rt, "a state");
    let mut two = one.dup().expect(rt, "another owner");
    let mut three = one.dup().expect(rt, "a third owner");
    let (rose, ()) = thread::join(
        rt,
        || clone_often(rt, &mut three),
        || count_both(rt, &mut one, &mut two),
    );
    (rose, one.read(rt, |parcel| parcel.number))
}

/// Two count, on threads of their own.
fn count_both<R: Threads + Wait + Sync>(
    rt: &R,
    one: &mut ValueState<Parcel>,
    two: &mut ValueState<Parcel>,
) {
    thread::join(rt, || count_up(rt, one), || count_up(rt, two));
}

/// No update of two threads is lost, and what a third one clones meanwhile is let go once.
#[test]
fn no_update_is_lost(rt: HostRuntime) {
    let tally = tally_of(&rt);
    let (rose, left) = counted(&rt, &tally);
    assert_so(&rt, "no clone is of a value before the last one", rose);
    assert_so(&rt, "the count", left == 2 * TIMES);
    assert_so(&rt, "so many parcels are made", tally.made() == TIMES + 1);
    assert_let_go(&rt, &tally);
}

/// The next number, or nothing where the watcher was let go.
fn heard(rt: &impl Wait, watcher: &mut Watcher<u64>) -> Option<u64> {
    match watcher.read_next(rt, |number| *number) {
        Collected::Value(number) => Some(number),
        Collected::Stopped => None,
    }
}

/// Whether the next number is this one.
fn hears(rt: &impl Wait, watcher: &mut Watcher<u64>, number: u64) -> bool {
    heard(rt, watcher) == Some(number)
}

/// Once both are there, waits for each number, and then sets it. Whether each was the next one.
fn echo(
    rt: &impl Wait,
    calls: &mut Watcher<u64>,
    state: &mut ValueState<u64>,
    gathering: &Gathering,
) -> bool {
    if !gathering.come() {
        return false;
    }
    for number in 0..TIMES {
        if !hears(rt, calls, number) {
            return false;
        }
        state.set(rt, number);
    }
    true
}

/// Once both are there, sets each number, and then waits for it. Whether each came back.
fn call(
    rt: &impl Wait,
    state: &mut ValueState<u64>,
    echoes: &mut Watcher<u64>,
    gathering: &Gathering,
) -> bool {
    if !gathering.come() {
        return false;
    }
    for number in 0..TIMES {
        state.set(rt, number);
        if !hears(rt, echoes, number) {
            return false;
        }
    }
    true
}

/// Whether each number was answered, and each came back, after the first values.
fn called<R: AllocGlobal + Threads + Wait + Abort + Sync>(rt: &R) -> (bool, bool) {
    let mut there = ValueState::new(rt.alloc(), TIMES).expect(rt, "a state");
    let mut back = ValueState::new(rt.alloc(), TIMES).expect(rt, "another state");
    let mut calls = there.watch().expect(rt, "a watcher");
    let mut echoes = back.watch().expect(rt, "another watcher");
    let is_first = hears(rt, &mut calls, TIMES) && hears(rt, &mut echoes, TIMES);
    assert_so(rt, "the first values", is_first);
    let gathering = Gathering::of(2);
    thread::join(
        rt,
        || echo(rt, &mut calls, &mut back, &gathering),
        || call(rt, &mut there, &mut echoes, &gathering),
    )
}

/// Two threads set a state each, and sleep until the other has: were a wake lost, whenever it comes, the test would not end.
#[test]
fn each_call_has_its_echo(rt: HostRuntime) {
    let (answered, returned) = called(&rt);
    assert_so(&rt, "each number is answered", answered);
    assert_so(&rt, "each number comes back", returned);
}

/// Once both are there, waits until it is let go. The last number that it was given.
fn hear_all(rt: &impl Wait, watcher: &mut Watcher<u64>, gathering: &Gathering) -> Option<u64> {
    let mut latest = None;
    if !gathering.come() {
        return latest;
    }
    for _ in 0..TIMES {
        match heard(rt, watcher) {
            Some(number) => latest = Some(number),
            None => break,
        }
    }
    latest
}

/// Sets 1 after so many turns of a loop, and after as many more lets all go.
fn set_and_stop(rt: &impl Wait, state: &mut ValueState<u64>, turns: u64, gathering: &Gathering) {
    gathering.come();
    for turn in 0..turns.saturating_mul(2) {
        if turn == turns {
            state.set(rt, 1);
        }
        spin_loop();
    }
    state.stop();
}

/// What a watcher was given last, where 1 is set after so many turns, and all are let go after as many more.
fn stopped<R: AllocGlobal + Threads + Wait + Abort + Sync>(rt: &R, turns: u64) -> Option<u64> {
    let mut state = ValueState::new(rt.alloc(), 0u64).expect(rt, "a state");
    let mut watcher = state.watch().expect(rt, "a watcher");
    let gathering = Gathering::of(2);
    let (latest, ()) = thread::join(
        rt,
        || hear_all(rt, &mut watcher, &gathering),
        || set_and_stop(rt, &mut state, turns, &gathering),
    );
    latest
}

/// Who waits is let go at whatever moment, and was given what was set before.
#[test]
fn who_waits_is_let_go(rt: HostRuntime) {
    for round in 0..100 {
        let latest = stopped(&rt, 1 + round * 200);
        assert_so(&rt, "the last number that was given", latest == Some(1));
    }
}
