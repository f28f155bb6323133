//! What a subscription of a shared flow reads without the lock: while the lock is kept, when it was told, and its own counts.

ghost use Rattle.std.specs.Prelude.{◌≡◌, None, IfSome, ⊤};
ghost use Rattle.shared_flow.specs.Parties.{OfFlow};
ghost use Rattle.shared_lane.specs.Readers.{IsReceiptOf};

use crate::shared_rows::PLAIN;
use crate::shared_stage::Answer::{
    Accepted, Done, Gone, NotMade, Nothing, Pending, Subscribed, Value, Waiting,
};
use crate::shared_stage::Call::{Ask, Close, Emit, Next, Subscribe, Try};
use crate::shared_stage::Party::{A, First, Second};
use crate::shared_stage::{Answer, Emitting, Line, Listening, Stage};
use crate::tools::assert_same;
use shared_core::{Config, Tried};
use shared_flow::{Emitter, Held, Parker, Prelude, Receipt, SharedFlow, Subscription, Taken};
use state_flow::{StateFlow, StateSeat};
use std::alloc::{AllocError, AllocGlobal};
use std::process::Abort;
use std::random::RandomSource;
use std::sync::Wait;
use std::sync::atomic::{AtomicBool, Ordering};
use std::test::Fail;
use std::thread;
use std::thread::{Threads, yield_now};

/// How often a thread asks at most. It yields where it gets nothing.
const TURNS: u32 = 1_000_000;

/// Three values may be pending, and two are kept.
const KEEPS_TWO: Config = Config {
    replay: 2,
    extra: 1,
    ..PLAIN
};

/// What a flow shows whose lock is kept: how many subscriptions are live, and the two values of the replay cache.
#[derive(Copy, Debug, PartialEq)]
struct Shown {
    count: u32,
    cache: Option<[u64; 2]>,
}

impl Clone for Shown {
    ghost is_clone = { λ it copy. copy ≡ it };

    ghost is_infallible = { λ _. ⊤ };

    fn clone(&self) -> Result<Self, AllocError> {
        Ok(*self)
    }
}

fn look_at(held: &Held<'_, u64>) -> Shown {
    let length = held.replay_len();
    let cache = if length == 2 {
        Some([held.replay_at(0), held.replay_at(1)])
    } else {
        None
    };
    Shown {
        count: held.count(),
        cache,
    }
}

// Fails where not all lines of the stage were answered as they say.
fn assert_played<R: Wait + Abort>(rt: &R, stage: &mut Stage, lines: &[Line]) {
    assert_same(rt, "lines", stage.play(rt, lines), lines.len());
}

/// How far the thread that keeps the lock is, and the one that receives.
#[derive(Drop)]
struct Signals {
    is_held: AtomicBool,
    is_over: AtomicBool,
}

impl Signals {
    fn new() -> Signals {
        Signals {
            is_held: AtomicBool::new(false),
            is_over: AtomicBool::new(false),
        }
    }
}

// Waits until a thread has said how far it is, and says whether it has.
fn was_set(signal: &AtomicBool) -> bool {
    for _ in 0..TURNS {
        if signal.load(Ordering::SeqCst) {
            return true;
        }
        yield_now();
    }
    false
}

// Keeps the lock until the values were taken. What the flow showed at first and at last, and whether they were taken.
fn keep_lock(
    rt: &impl Wait,
    flow: &mut SharedFlow<u64>,
    signals: &Signals,
) -> (Shown, Shown, bool) {
    let held = flow.hold(rt);
    let first = look_at(&held);
    signals.is_held.store(true, Ordering::SeqCst);
    let is_over = was_set(&signals.is_over);
    let last = look_at(&held);
    held.release();
    (first, last, is_over)
}

// Takes three values while the lock is kept, and looks for a fourth.
fn take_four(listening: &mut Listening, signals: &Signals) -> [Answer; 4] {
    let mut answers = [NotMade; 4];
    if was_set(&signals.is_held) {
        for answer in answers.iter_mut() {
            *answer = listening.take();
        }
    }
    signals.is_over.store(true, Ordering::SeqCst);
    answers
}

// Emits a fourth value once the lock is kept, which is then given back.
fn emit_fourth(rt: &impl Wait, emitting: &mut Emitting, signals: &Signals) -> Answer {
    if was_set(&signals.is_held) {
        emitting.perform(rt, Try(4))
    } else {
        NotMade
    }
}

// A thread takes what is there while another keeps the lock and a third waits for it.
fn assert_taken<R: Wait + Threads + Abort + Sync>(
    rt: &R,
    flow: &mut SharedFlow<u64>,
    listening: &mut Listening,
    emitting: &mut Emitting,
) {
    let signals = Signals::new();
    let (kept, (taken, fourth)) = thread::join(
        rt,
        || keep_lock(rt, flow, &signals),
        || thread::join(
            rt,
            || take_four(listening, &signals),
            || emit_fourth(rt, emitting, &signals),
        ),
    );
    let wanted = Shown {
        count: 1,
        cache: Some([2, 3]),
    };
    assert_same(rt, "what was shown", kept, (wanted, wanted, true));
    let values = [Value(1), Value(2), Value(3), Nothing];
    assert_same(rt, "values without the lock", taken, values);
    assert_same(rt, "after the release", fourth, Accepted(3));
}

#[test]
fn readers_pass_a_held_lock(rt: HostRuntime) {
    let mut stage = Stage::new(&rt, KEEPS_TWO);
    let before = [
        (A, Subscribe, Subscribed),
        (First, Try(1), Accepted(0)),
        (First, Try(2), Accepted(1)),
        (First, Try(3), Accepted(2)),
    ];
    assert_played(&rt, &mut stage, &before);
    assert_taken(&rt, &mut stage.flow, &mut stage.a, &mut stage.first);
    assert_played(
        &rt,
        &mut stage,
        &[(A, Next, Value(4)), (First, Close, Gone)],
    );
    stage.leave(&rt);
}

// With the lock it would wait for good.
fn assert_polled<R: Wait + Abort>(rt: &R, flow: &mut SharedFlow<u64>, listening: &mut Listening) {
    let held = flow.hold(rt);
    let before = look_at(&held);
    let passed = [
        listening.next(rt),
        listening.take(),
        listening.next(rt),
        listening.take(),
    ];
    let after = look_at(&held);
    held.release();
    let wanted = Shown {
        count: 1,
        cache: Some([3, 4]),
    };
    assert_same(rt, "what was shown at first", before, wanted);
    assert_same(rt, "what was shown at last", after, wanted);
    let values = [Value(2), Value(3), Value(4), Nothing];
    assert_same(rt, "values without the lock", passed, values);
}

// An emission waited before, and was let in and asked for. So a receipt takes no lock any more.
#[test]
fn a_ready_poll_passes_a_held_lock(rt: HostRuntime) {
    let mut stage = Stage::new(&rt, KEEPS_TWO);
    let before = [
        (A, Subscribe, Subscribed),
        (First, Try(1), Accepted(0)),
        (First, Try(2), Accepted(1)),
        (First, Try(3), Accepted(2)),
        (Second, Emit(4), Waiting),
        (A, Next, Value(1)),
        (Second, Ask, Done(3)),
    ];
    assert_played(&rt, &mut stage, &before);
    assert_polled(&rt, &mut stage.flow, &mut stage.a);
    let after = [
        (A, Next, Pending),
        (First, Close, Gone),
        (Second, Close, Gone),
    ];
    assert_played(&rt, &mut stage, &after);
    stage.leave(&rt);
}

// What a subscription takes, and its start and its counts after that.
fn taken_and_counted(subscription: &mut Subscription<u64>) -> (Taken<u64>, [u64; 3]) {
    let taken = subscription.try_next();
    let counts = [
        subscription.start(),
        subscription.received(),
        subscription.dropped(),
    ];
    (taken, counts)
}

// The values of a prelude come first, and no count counts them. With the lock `next` would wait for good.
#[test]
fn a_prelude_passes_a_held_lock(rt: HostRuntime) -> Result<(), Fail> {
    let config = Config {
        replay: 1,
        first: 10,
        ..PLAIN
    };
    let mut parker = Parker::new(&rt)?;
    let prelude = Prelude::of(&[7, 8, 9])?;
    let mut flow = SharedFlow::new(rt.alloc(), config)?;
    let mut emitting = Emitting::new(&rt, &mut flow, 1);
    let accepted = emitting.perform(&rt, Try(1));
    let mut subscription = flow
        .subscribe_with(&rt, prelude)
        .expect(&rt, "a subscription");
    let mut held = flow.hold(&rt);
    let first = subscription.try_next();
    let second = subscription.next(&rt, &mut parker);
    let met = held.meet(&mut subscription);
    held.release();
    let third = taken_and_counted(&mut subscription);
    let value = taken_and_counted(&mut subscription);
    let last = taken_and_counted(&mut subscription);
    subscription.cancel(&rt);
    emitting.leave(&rt);
    let same = [
        accepted == Accepted(10),
        first == Taken::Value(7),
        second == Ok(8),
        third == (Taken::Value(9), [10, 0, 0]),
        value == (Taken::Value(1), [10, 1, 0]),
        last == (Taken::Nothing, [10, 1, 0]),
    ];
    assert_same(&rt, "which answers and counts are right", same, [true; 6]);
    let found = (met.accepted, met.received, met.dropped);
    assert_same(&rt, "accepted, received, dropped", found, (1, 0, 0));
    Ok(())
}

// The receipt of a value that is accepted at once.
fn receipt_of(rt: &impl Wait, emitter: &mut Emitter<u64>, value: u64) -> Option<Receipt>
    requires { emitter.old.ticket ≡ None }
    ensures { IfSome result (λ receipt. OfFlow emitter.old.party (λ name. IsReceiptOf name.lane receipt)) }
{
    match emitter.try_emit(rt, value) {
        Ok(Tried::Accepted(receipt)) => Some(receipt),
        _ => None,
    }
}

/// What was answered while the lock was kept.
#[derive(Debug, Drop, PartialEq)]
struct Answered {
    was_held: bool,
    taken: [Taken<u64>; 2],
    start: u64,
    received: u64,
    dropped: u64,
    // Whether the state had the value that it was set to, and the value after that.
    was_equal: bool,
    value: u64,
}

// Makes each call that takes no lock, once the lock is kept, which is then given back.
fn call_all(
    subscription: &mut Subscription<u64>,
    receipt: &mut Receipt,
    seat: &mut StateSeat<u64>,
    signals: &Signals,
) -> Answered
    requires { OfFlow subscription.old.party (λ name. IsReceiptOf name.lane receipt.old) }
{
    let was_held = was_set(&signals.is_held);
    subscription.told(receipt);
    let taken = [subscription.try_next(), subscription.try_next()];
    seat.set(5);
    let was_equal = seat.compare_and_set(5, 6);
    signals.is_over.store(true, Ordering::SeqCst);
    Answered {
        was_held,
        taken,
        start: subscription.start(),
        received: subscription.received(),
        dropped: subscription.dropped(),
        was_equal,
        value: seat.value(),
    }
}

// A subscription that is lent to another thread is told of a value there, and takes it.
fn assert_seen<R>(rt: &R, seat: &mut StateSeat<u64>, value: u64)
where
    R: Wait + Threads + Abort + AllocGlobal + Sync,
{
    let config = Config {
        extra: 1,
        first: 10,
        ..PLAIN
    };
    let signals = Signals::new();
    let mut flow = SharedFlow::new(rt.alloc(), config).expect(rt, "a flow");
    let mut emitter = flow.emitter(1).expect(rt, "an emitter");
    let mut subscription = flow.subscribe(rt).expect(rt, "a subscription");
    let mut receipt = receipt_of(rt, &mut emitter, value).expect(rt, "a receipt");
    let ((_, _, is_over), answered) = thread::join(
        rt,
        || keep_lock(rt, &mut flow, &signals),
        || call_all(&mut subscription, &mut receipt, seat, &signals),
    );
    subscription.cancel(rt);
    let _idle = emitter.close(rt);
    let wanted = Answered {
        was_held: true,
        taken: [Taken::Value(value), Taken::Nothing],
        start: 10,
        received: 1,
        dropped: 0,
        was_equal: true,
        value: 6,
    };
    assert_same(rt, "while the lock was kept", answered, wanted);
    let named = (receipt.emitter(), receipt.number(), is_over);
    assert_same(rt, "the receipt", named, (1, 10, true));
}

// A thread makes each call that takes no lock while another keeps it, on a subscription and on a state.
#[test]
fn all_that_takes_no_lock_passes_a_held_one(rt: HostRuntime) -> Result<(), Fail> {
    let mut seat = StateFlow::new(rt.alloc(), 0u64, 1)?;
    for value in 9..109 {
        assert_seen(&rt, &mut seat, value);
    }
    Ok(())
}
