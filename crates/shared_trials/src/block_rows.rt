//! Values by the block: what calls answer on one thread, and lists that one thread emits and another receives.

ghost use Rattle.std.specs.Prelude.{◌≡◌, None};

use crate::shared_stage::config;
use crate::tools::assert_same;
use cold_flow::{Policy, Refusal};
use shared_core::Prelude;
use shared_flow::{Emitter, Parker, SharedFlow, Subscription, Taken};
use std::alloc::AllocGlobal;
use std::process::Abort;
use std::random::RandomSource;
use std::sync::Wait;
use std::thread;
use std::thread::Threads;
use trial_tools::Gathering;

/// How many lists a thread emits, and how long each is: longer than what goes to the lane at once.
const LISTS: u64 = 100;

const LENGTH: usize = 150;

// The numbers from this one up.
fn count_from(first: u64, places: &mut [u64]) {
    let mut next = first;
    for place in places.iter_mut() {
        *place = next;
        next = next.wrapping_add(1);
    }
}

// What the numbers are that a call emits and the next one gives, in order; what finds no room stays with the caller.
fn assert_in_order<R: Wait + Abort + AllocGlobal>(rt: &R, flow: &mut SharedFlow<u64>) {
    let mut numbers = [0; LENGTH];
    count_from(0, &mut numbers);
    let mut emitter = flow.emitter(1).expect(rt, "an emitter");
    let prelude = Prelude::of(&[7, 8, 9]).expect(rt, "a prelude");
    let mut subscription = flow
        .subscribe_with(rt, prelude)
        .expect(rt, "a subscription");
    let mut out = Vec::with_capacity(rt.alloc(), 2).expect(rt, "room");
    let emitted = emitter.try_emit_all(rt, &numbers);
    let full = emitter.try_emit_all(rt, &numbers);
    let greeted = subscription.try_next_all(&mut out);
    let no_room = subscription.try_next_all(&mut out);
    out.clear();
    let rest = subscription.try_next_all(&mut out);
    let first = subscription.try_next_all(&mut out);
    let last_and_first = (out.first().copied(), out.last().copied());
    let once_more = emitter.try_emit_all(rt, &numbers);
    subscription.cancel(rt);
    let to_nobody = emitter.try_emit_all(rt, &numbers);
    emitter.close(rt);
    assert_same(rt, "as many as find room", emitted, Ok(102));
    assert_same(rt, "none finds room", full, Ok(0));
    assert_same(rt, "of the prelude", greeted, Taken::Value(2));
    assert_same(rt, "no room to take to", no_room, Taken::Value(0));
    assert_same(rt, "the rest of the prelude alone", rest, Taken::Value(1));
    assert_same(rt, "the first number", first, Taken::Value(1));
    assert_same(rt, "both", last_and_first, (Some(9), Some(0)));
    assert_same(rt, "the room that one left", once_more, Ok(1));
    assert_same(rt, "nobody holds them up", to_nobody, Ok(LENGTH as u64));
}

#[test]
fn blocks_come_in_order(rt: HostRuntime) {
    let made = SharedFlow::<u64>::new(rt.alloc(), config(2, 100, Policy::Suspend));
    let mut flow = made.expect(&rt, "a flow");
    assert_in_order(&rt, &mut flow);
}

// Emits all of a list, and goes on where there was no memory to wait by. How many values were accepted.
fn emitted_all<R: Wait>(
    rt: &R,
    emitter: &mut Emitter<u64>,
    parker: &mut Parker,
    values: &[u64],
) -> u64
    requires idle { emitter.old.ticket ≡ None }
{
    match emitter.emit_all(rt, parker, values) {
        Ok(count) => count,
        Err(cut) => {
            let from = values.len().min(cut.emitted as usize);
            let rest = emitter.emit_all(rt, parker, &values[from..]);
            cut.accepted.saturating_add(rest.unwrap_or(0))
        }
    }
}

// Emits one list after another. How many values were accepted.
fn say<R: Wait>(rt: &R, start: &Gathering, emitter: &mut Emitter<u64>, parker: &mut Parker) -> u64 {
    let mut said: u64 = 0;
    if !start.come() {
        return said;
    }
    let mut numbers = [0; LENGTH];
    for _ in 0..LISTS {
        if emitter.in_flight() {
            break;
        }
        count_from(said, &mut numbers);
        said = said.saturating_add(emitted_all(rt, emitter, parker, &numbers));
    }
    said
}

// Receives what is pending, and asks once more where there was no memory to wait by.
fn received_all<R: Wait>(
    rt: &R,
    subscription: &mut Subscription<u64>,
    parker: &mut Parker,
    out: &mut Vec<u64>,
) -> Result<u64, Refusal> {
    match subscription.next_all(rt, parker, out) {
        Ok(count) => Ok(count),
        Err(_) => subscription.next_all(rt, parker, out),
    }
}

// Receives until all numbers came. How many were the next one each time, and how many came.
fn hear<R: Wait>(
    rt: &R,
    start: &Gathering,
    subscription: &mut Subscription<u64>,
    parker: &mut Parker,
    out: &mut Vec<u64>,
) -> (u64, u64) {
    let mut heard: u64 = 0;
    let mut came: u64 = 0;
    if !start.come() {
        return (heard, came);
    }
    for _ in 0..LISTS * LENGTH as u64 {
        if came >= LISTS * LENGTH as u64 {
            break;
        }
        out.clear();
        if received_all(rt, subscription, parker, out).is_err() {
            break;
        }
        for value in out.iter() {
            if *value == heard {
                heard = heard.saturating_add(1);
            }
            came = came.saturating_add(1);
        }
    }
    (heard, came)
}

// One thread emits lists, another receives as many values at once as it has room for: each comes once, in order.
fn assert_passed_on<R: Abort + Wait + Threads + RandomSource + AllocGlobal + Sync>(
    rt: &R,
    extra: u64,
    room: usize,
) {
    let made = SharedFlow::<u64>::new(rt.alloc(), config(0, extra, Policy::Suspend));
    let mut flow = made.expect(rt, "a flow");
    let mut emitter = flow.emitter(1).expect(rt, "an emitter");
    let mut subscription = flow.subscribe(rt).expect(rt, "a subscription");
    let mut near = Parker::new(rt).expect(rt, "a parker");
    let mut far = Parker::new(rt).expect(rt, "a parker");
    let mut out = Vec::with_capacity(rt.alloc(), room).expect(rt, "room");
    let start = Gathering::of(2);
    let (said, heard) = thread::join(
        rt,
        || say(rt, &start, &mut emitter, &mut near),
        || hear(rt, &start, &mut subscription, &mut far, &mut out),
    );
    subscription.cancel(rt);
    emitter.close(rt);
    let all = LISTS * LENGTH as u64;
    assert_same(rt, "said and heard", (said, heard), (all, (all, all)));
}

#[test]
fn lists_are_passed_on_whole(rt: HostRuntime) {
    let rt = &rt;
    for (extra, room) in [(0, 5), (1, 64), (64, 1), (100, 64)] {
        assert_passed_on(rt, extra, room);
    }
}
