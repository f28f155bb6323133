//! A thread that combines a state and a shared flow: it sleeps until either gives something, or it is let go.

ghost use Rattle.std.specs.Prelude.{◌*◌, ◌+◌, ◌%◌, ◌^◌};

use cold_flow::{Apply, Event, Run};
use hot_sources::{
    StateAndFlow, WakingSeat, combine, next_of, receiving, state_and_flow, take_list, watching,
};
use shared_core::{Config, Policy};
use shared_flow::{Emitter, Parker, Refusal};
use std::alloc::AllocGlobal;
use std::hint::spin_loop;
use std::process::Abort;
use std::random::RandomSource;
use std::sync::Wait;
use std::sync::atomic::{AtomicU64, Ordering};
use std::test::Fail;
use std::thread;
use std::thread::{Threads, yield_now};

/// There is room for all that a test emits before it is received.
const CONFIG: Config = Config {
    replay: 0,
    extra: 4,
    policy: Policy::Suspend,
    subscribers: 1,
    emits: 1,
    first: 0,
};

/// How often a sleeper is woken, and how often one is let go.
const WAKES: u64 = 2_000;

const STOPS: u64 = 400;

/// How often who changes something looks at most whether it was seen.
const LOOKS: u64 = 5_000_000;

/// The state's number, and behind it the flow's, in six digits.
#[derive(Clone, Copy)]
struct Beside;

impl Apply<(u64, u64)> for Beside {
    type Out = u64;

    ghost gives = { λ _ both. ((both.0 * 1000000) % 2 ^ 64 + both.1) % 2 ^ 64 };

    fn apply(&self, both: (u64, u64)) -> u64 {
        both.0.wrapping_mul(1_000_000).wrapping_add(both.1)
    }
}

/// Who sets the state, and emits into the flow.
struct Changer {
    state: WakingSeat<u64>,
    emitter: Emitter<u64>,
}

impl Changer {
    // Emits a number, for which there is room.
    fn emit(&mut self, rt: &impl Wait, number: u64) {
        if !self.emitter.in_flight() {
            let _accepted = self.emitter.try_emit(rt, number);
        }
    }

    fn end(self, rt: &impl Wait) {
        let Changer { state, emitter } = self;
        drop(state);
        emitter.close(rt);
    }
}

fn made<R: Wait + AllocGlobal + Abort>(rt: &R) -> (Changer, StateAndFlow<u64, u64>) {
    let (state, emitter, both) = state_and_flow(rt, 0u64, CONFIG).expect(rt, "a state and a flow");
    (Changer { state, emitter }, both)
}

fn spin(turns: u64) {
    for _ in 0..turns {
        spin_loop();
    }
}

/// What is there of so many values, or up to the end.
fn taken<R, S: Run<Item = u64>>(rt: &R, chain: &mut S, count: usize) -> Vec<u64>
where
    R: Wait + RandomSource + AllocGlobal + Abort,
{
    take_list(rt, chain, count).expect(rt, "a list")
}

/// Each new value of either gives one with the latest of both. What came of both at once gives one. What was set and emitted before it was
/// let go is given first.
#[test]
fn each_new_value_is_given_with_the_latest_of_the_other(rt: HostRuntime) -> Result<(), Fail> {
    let (mut changer, mut both) = made(&rt);
    let mut chain = combine(
        watching::<(), _>(&mut both.state, &both.bell),
        receiving(&mut both.flow, &rt),
        Beside,
    );
    changer.emit(&rt, 10);
    let first = taken(&rt, &mut chain, 1);
    changer.emit(&rt, 20);
    changer.emit(&rt, 30);
    let emitted = taken(&rt, &mut chain, 2);
    changer.state.set(1);
    changer.state.set(2);
    let set = taken(&rt, &mut chain, 1);
    changer.state.set(3);
    changer.emit(&rt, 40);
    changer.emit(&rt, 50);
    changer.state.stop();
    let last = taken(&rt, &mut chain, 9);
    let none = taken(&rt, &mut chain, 9);
    changer.end(&rt);
    both.cancel(&rt);
    assert_eq!(rt; first.as_slice(), [10].as_slice());
    assert_eq!(rt; emitted.as_slice(), [20, 30].as_slice());
    assert_eq!(rt; set.as_slice(), [2_000_030].as_slice());
    assert_eq!(rt; last.as_slice(), [3_000_040, 3_000_050].as_slice());
    assert!(rt; none.is_empty(), "it has ended");
    Ok(())
}

/// Takes values until it is let go, and tells of each.
fn watch(
    rt: &impl Wait,
    parker: &mut Parker,
    both: &mut StateAndFlow<u64, u64>,
    seen: &AtomicU64,
) -> Result<(), Refusal> {
    let state = watching::<(), _>(&mut both.state, &both.bell);
    let mut chain = combine(state, receiving(&mut both.flow, rt), Beside);
    for _ in rt.forever() {
        match next_of(rt, parker, &mut chain)? {
            Event::Value(value) => seen.store(value, Ordering::SeqCst),
            Event::End(_) => return Ok(()),
        }
    }
    unreachable!()
}

/// Whether this value is seen in time.
fn is_seen(seen: &AtomicU64, value: u64) -> bool {
    for _ in 0..LOOKS {
        if seen.load(Ordering::SeqCst) == value {
            return true;
        }
        yield_now();
    }
    false
}

/// Emits 1, sets 2, emits 3 and so on, each once the one before was seen, and some time later. How many were seen. Then it lets go who
/// watches.
fn change_each(rt: &impl Wait, changer: &mut Changer, seen: &AtomicU64) -> u64 {
    for number in 1..=WAKES {
        spin(number.wrapping_mul(7) % 900);
        let expected = if number % 2 == 0 {
            changer.state.set(number);
            number.wrapping_mul(1_000_000).wrapping_add(number - 1)
        } else {
            changer.emit(rt, number);
            (number - 1).wrapping_mul(1_000_000).wrapping_add(number)
        };
        if !is_seen(seen, expected) {
            changer.state.stop();
            return number;
        }
    }
    changer.state.stop();
    0
}

/// Who sleeps is woken by the state and by the flow, in turn, and let go at the end.
#[test]
fn either_wakes_who_sleeps_for_both(rt: HostRuntime) -> Result<(), Fail> {
    let (mut changer, mut both) = made(&rt);
    let mut parker = Parker::new(&rt).expect(&rt, "a parker");
    let seen = AtomicU64::new(0);
    let (watched, missed) = thread::join(
        &rt,
        || watch(&rt, &mut parker, &mut both, &seen),
        || change_each(&rt, &mut changer, &seen),
    );
    changer.end(&rt);
    both.cancel(&rt);
    assert_eq!(rt; missed, 0, "the first change that wasn't seen");
    assert!(rt; watched.is_ok(), "memory to wait by");
    Ok(())
}

/// Emits and sets so many numbers, and lets go who watches some time later.
fn change_and_stop(rt: &impl Wait, changer: &mut Changer, round: u64) {
    for number in 1..=round % 4 {
        changer.emit(rt, number);
        changer.state.set(number);
    }
    spin(round.wrapping_mul(7) % 900);
    changer.state.stop();
}

/// All that comes until it is let go.
fn list_of<R>(rt: &R, both: &mut StateAndFlow<u64, u64>) -> Result<Vec<u64>, Refusal>
where
    R: Wait + RandomSource + AllocGlobal,
{
    let state = watching::<(), _>(&mut both.state, &both.bell);
    let mut chain = combine(state, receiving(&mut both.flow, rt), Beside);
    take_list(rt, &mut chain, usize::MAX)
}

/// The last value that came, and how many emissions did, where two threads are done. Either may be refused memory.
fn combined<R>(rt: &R, round: u64) -> Result<(Option<u64>, u64), Refusal>
where
    R: Wait + Threads + RandomSource + AllocGlobal + Sync,
{
    let (state, emitter, mut both) = state_and_flow(rt, 0u64, CONFIG)?;
    let mut changer = Changer { state, emitter };
    let (list, ()) = thread::join(
        rt,
        || list_of(rt, &mut both),
        || change_and_stop(rt, &mut changer, round),
    );
    changer.end(rt);
    let (_seat, met) = both.cancel(rt);
    Ok((list?.last().copied(), met.received))
}

/// Who is let go at any moment was given the last of what was set and emitted before, and each emission.
#[test]
fn who_is_let_go_has_all_that_came_before(rt: HostRuntime) -> Result<(), Fail> {
    for round in 0..STOPS {
        let came = combined(&rt, round).expect(&rt, "memory to wait by");
        let last = round % 4;
        let expected = if last == 0 {
            (None, 0)
        } else {
            (Some(last * 1_000_000 + last), last)
        };
        assert_eq!(rt; came, expected, "round {round}");
    }
    Ok(())
}

/// Where an allocation is refused, as under `rt try --test --fail-alloc N`, that is told, and nobody sleeps on; made once more it succeeds.
#[test]
fn who_is_refused_memory_ends_too(rt: HostRuntime) -> Result<(), Fail> {
    let came = match combined(&rt, 3) {
        Ok(came) => came,
        Err(refusal) => {
            assert_eq!(rt; refusal, Refusal::NoMemory);
            combined(&rt, 3).expect(&rt, "memory to wait by")
        }
    };
    assert_eq!(rt; came, (Some(3_000_003), 3));
    Ok(())
}
