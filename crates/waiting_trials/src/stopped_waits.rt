//! Waits that are let go: before they begin, between two of them, while they last, and at any moment while the other side goes on.

use flow_stopping::{Emitted, Received, StoppableParker, Stopper};
use shared_core::{Config, Policy};
use shared_flow::{Emitter, SharedFlow, Subscription, Taken};
use std::alloc::AllocGlobal;
use std::hint::spin_loop;
use std::process::Abort;
use std::random::RandomSource;
use std::sync::Wait;
use std::test::Fail;
use std::thread;
use std::thread::Threads;

/// One value may be pending; the next emission waits until there is room.
const CONFIG: Config = Config {
    replay: 0,
    extra: 1,
    policy: Policy::Suspend,
    subscribers: 1,
    emits: 1,
    first: 0,
};

/// How often the two sides meet, and how many values they pass on at most.
const ROUNDS: u64 = 400;

const MOST: u64 = 1_000_000;

/// What a call came to, where it isn't a value.
const ACCEPTED: u64 = 2_000_001;

const DROPPED: u64 = 2_000_002;

const STOPPED: u64 = 2_000_003;

const REFUSED: u64 = 2_000_004;

const NOTHING: u64 = 2_000_005;

/// What a flow has that it shouldn't have.
const MORE: u64 = 2_000_006;

/// An emitter and a subscription of one flow, each with what its thread sleeps by.
struct Pair {
    emitter: Emitter<u64>,
    sending: StoppableParker,
    subscription: Subscription<u64>,
    hearing: StoppableParker,
}

/// Who stops either side.
#[derive(Drop)]
struct Stoppers {
    sending: Stopper,
    hearing: Stopper,
}

fn new_flow<R: AllocGlobal + Abort>(rt: &R) -> SharedFlow<u64> {
    SharedFlow::new(rt.alloc(), CONFIG).expect(rt, "a flow")
}

fn paired<R: AllocGlobal + RandomSource + Abort + Wait>(rt: &R) -> (Pair, Stoppers) {
    let mut flow = new_flow(rt);
    paired_on(rt, &mut flow)
}

fn paired_on<R>(rt: &R, flow: &mut SharedFlow<u64>) -> (Pair, Stoppers)
where
    R: AllocGlobal + RandomSource + Abort + Wait,
{
    let (sending, stops_sending) = StoppableParker::new(rt).expect(rt, "a parker");
    let (hearing, stops_hearing) = StoppableParker::new(rt).expect(rt, "a parker");
    let subscription = flow.subscribe(rt).expect(rt, "a subscription");
    let emitter = flow.emitter(1).expect(rt, "an emitter");
    let pair = Pair {
        emitter,
        sending,
        subscription,
        hearing,
    };
    let stoppers = Stoppers {
        sending: stops_sending,
        hearing: stops_hearing,
    };
    (pair, stoppers)
}

impl Pair {
    /// Ends both. Which value was left, or `NOTHING`.
    fn end(self, rt: &impl Wait) -> u64 {
        let Pair {
            emitter,
            sending: _,
            mut subscription,
            hearing: _,
        } = self;
        let left = taken(&mut subscription);
        let is_all = taken(&mut subscription) == NOTHING && !emitter.in_flight();
        subscription.cancel(rt);
        emitter.close(rt);
        if is_all { left } else { MORE }
    }
}

fn taken(subscription: &mut Subscription<u64>) -> u64 {
    match subscription.try_next() {
        Taken::Value(value) => value,
        Taken::Nothing => NOTHING,
        Taken::Overtaken => MORE,
    }
}

/// What an emission comes to.
fn sent(
    rt: &impl Wait,
    emitter: &mut Emitter<u64>,
    parker: &mut StoppableParker,
    value: u64,
) -> u64 {
    if emitter.in_flight() {
        return MORE;
    }
    match parker.emit(rt, emitter, value) {
        Ok(Emitted::Accepted(_)) => ACCEPTED,
        Ok(Emitted::Dropped) => DROPPED,
        Ok(Emitted::Stopped) => STOPPED,
        Err(_) => REFUSED,
    }
}

/// The next value, or why none came.
fn heard(
    rt: &impl Wait,
    subscription: &mut Subscription<u64>,
    parker: &mut StoppableParker,
) -> u64 {
    match parker.next(rt, subscription) {
        Ok(Received::Value(value)) => value,
        Ok(Received::Stopped) => STOPPED,
        Err(_) => REFUSED,
    }
}

/// Emits 0, 1, 2 and so on until it is stopped, or so many were accepted. How many were.
fn send_numbers(
    rt: &impl Wait,
    emitter: &mut Emitter<u64>,
    parker: &mut StoppableParker,
    most: u64,
) -> u64 {
    for count in 0..most {
        if sent(rt, emitter, parker, count) != ACCEPTED {
            return count;
        }
    }
    most
}

/// Receives 0, 1, 2 and so on until it is stopped, or so many came. How many did.
fn hear_numbers(
    rt: &impl Wait,
    subscription: &mut Subscription<u64>,
    parker: &mut StoppableParker,
    most: u64,
) -> u64 {
    for count in 0..most {
        if heard(rt, subscription, parker) != count {
            return count;
        }
    }
    most
}

fn spin(turns: u64) {
    for _ in 0..turns {
        spin_loop();
    }
}

/// Who is stopped before a wait does nothing: a value stays pending, and none is emitted. To stop once more changes nothing, nor does
/// it who stops it.
#[test]
fn who_was_stopped_does_nothing(rt: HostRuntime) -> Result<(), Fail> {
    let (mut pair, stoppers) = paired(&rt);
    let first = sent(&rt, &mut pair.emitter, &mut pair.sending, 5);
    let other = stoppers.hearing.clone().expect(&rt, "another stopper");
    let was_stopped = other.is_stopped() || pair.hearing.is_stopped();
    other.stop();
    let is_heard = stoppers.hearing.is_stopped() && pair.hearing.is_stopped();
    other.stop();
    stoppers.sending.stop();
    let are_stopped = is_heard && pair.sending.is_stopped();
    let second = sent(&rt, &mut pair.emitter, &mut pair.sending, 6);
    let none = heard(&rt, &mut pair.subscription, &mut pair.hearing);
    let found = [first, second, none, pair.end(&rt)];
    assert_eq!(rt;
        found,
        [ACCEPTED, STOPPED, STOPPED, 5],
        "what the calls came to"
    );
    assert!(rt;
        are_stopped && !was_stopped,
        "both are stopped then, and were not before"
    );
    Ok(())
}

/// A stop between two waits lets the second go.
#[test]
fn a_stop_between_two_waits(rt: HostRuntime) -> Result<(), Fail> {
    let (mut pair, stoppers) = paired(&rt);
    let sent_first = sent(&rt, &mut pair.emitter, &mut pair.sending, 5);
    let first = heard(&rt, &mut pair.subscription, &mut pair.hearing);
    stoppers.hearing.stop();
    let sent_second = sent(&rt, &mut pair.emitter, &mut pair.sending, 6);
    let second = heard(&rt, &mut pair.subscription, &mut pair.hearing);
    let found = [sent_first, first, sent_second, second, pair.end(&rt)];
    assert_eq!(rt;
        found,
        [ACCEPTED, 5, ACCEPTED, STOPPED, 6],
        "what the calls came to"
    );
    Ok(())
}

/// A value that is there comes at once, though another keeps the lock. Who was stopped is told so, though a value is there.
#[test]
fn a_value_that_is_there_passes_a_held_lock(rt: HostRuntime) -> Result<(), Fail> {
    let mut flow = new_flow(&rt);
    let (mut pair, stoppers) = paired_on(&rt, &mut flow);
    let sent_first = sent(&rt, &mut pair.emitter, &mut pair.sending, 5);
    let held = flow.hold(&rt);
    let first = heard(&rt, &mut pair.subscription, &mut pair.hearing);
    held.release();
    let sent_second = sent(&rt, &mut pair.emitter, &mut pair.sending, 6);
    stoppers.hearing.stop();
    let held = flow.hold(&rt);
    let second = heard(&rt, &mut pair.subscription, &mut pair.hearing);
    held.release();
    let found = [sent_first, first, sent_second, second, pair.end(&rt)];
    assert_eq!(rt;
        found,
        [ACCEPTED, 5, ACCEPTED, STOPPED, 6],
        "what the calls came to"
    );
    Ok(())
}

/// Stops somebody, some time later.
fn stop_later(stopper: &Stopper, turns: u64) {
    spin(turns);
    stopper.stop();
}

/// A thread that sleeps for a value is let go.
#[test]
fn who_sleeps_for_a_value_is_let_go(rt: HostRuntime) -> Result<(), Fail> {
    for round in 0..20 {
        let (mut pair, stoppers) = paired(&rt);
        let (none, ()) = thread::join(
            &rt,
            || heard(&rt, &mut pair.subscription, &mut pair.hearing),
            || stop_later(&stoppers.hearing, round * 5_000),
        );
        let found = [none, pair.end(&rt)];
        assert_eq!(rt; found, [STOPPED, NOTHING], "round {round}");
    }
    Ok(())
}

/// A thread that sleeps for room is let go, and its emission is withdrawn.
#[test]
fn who_sleeps_for_room_is_let_go(rt: HostRuntime) -> Result<(), Fail> {
    for round in 0..20 {
        let (mut pair, stoppers) = paired(&rt);
        let first = sent(&rt, &mut pair.emitter, &mut pair.sending, 5);
        let (second, ()) = thread::join(
            &rt,
            || sent(&rt, &mut pair.emitter, &mut pair.sending, 6),
            || stop_later(&stoppers.sending, round * 5_000),
        );
        let found = [first, second, pair.end(&rt)];
        assert_eq!(rt; found, [ACCEPTED, STOPPED, 5], "round {round}");
    }
    Ok(())
}

/// Which value is left, where so many of 0, 1, 2 and so on were accepted, and so many came.
fn left_of(accepted: u64, came: u64) -> u64 {
    if came < accepted { came } else { NOTHING }
}

/// Emits so many numbers, and stops who receives them.
fn send_and_stop(
    rt: &impl Wait,
    emitter: &mut Emitter<u64>,
    parker: &mut StoppableParker,
    other: &Stopper,
    round: u64,
) -> u64 {
    let accepted = send_numbers(rt, emitter, parker, round % 5);
    stop_later(other, round.wrapping_mul(7) % 900);
    accepted
}

/// Receives so many numbers, and stops who emits them.
fn hear_and_stop(
    rt: &impl Wait,
    subscription: &mut Subscription<u64>,
    parker: &mut StoppableParker,
    other: &Stopper,
    round: u64,
) -> u64 {
    let came = hear_numbers(rt, subscription, parker, round % 5);
    stop_later(other, round.wrapping_mul(7) % 900);
    came
}

/// One receives, and is stopped once all was emitted: each value came, or is left.
#[test]
fn who_receives_is_stopped_at_any_moment(rt: HostRuntime) -> Result<(), Fail> {
    for round in 0..ROUNDS {
        let (mut pair, stoppers) = paired(&rt);
        let other = &stoppers.hearing;
        let (came, accepted) = thread::join(
            &rt,
            || hear_numbers(&rt, &mut pair.subscription, &mut pair.hearing, MOST),
            || send_and_stop(&rt, &mut pair.emitter, &mut pair.sending, other, round),
        );
        let found = [accepted, pair.end(&rt)];
        assert_eq!(rt;
            found,
            [round % 5, left_of(accepted, came)],
            "{came} came in round {round}"
        );
    }
    Ok(())
}

/// One emits without an end, and is stopped once so many came: each accepted value came, or is left.
#[test]
fn who_emits_is_stopped_at_any_moment(rt: HostRuntime) -> Result<(), Fail> {
    for round in 0..ROUNDS {
        let (mut pair, stoppers) = paired(&rt);
        let other = &stoppers.sending;
        let (accepted, came) = thread::join(
            &rt,
            || send_numbers(&rt, &mut pair.emitter, &mut pair.sending, MOST),
            || hear_and_stop(&rt, &mut pair.subscription, &mut pair.hearing, other, round),
        );
        let found = [came, pair.end(&rt)];
        assert_eq!(rt;
            found,
            [round % 5, left_of(accepted, came)],
            "{accepted} were accepted in round {round}"
        );
    }
    Ok(())
}
