//! Callers of a shared flow between threads: an emission and a receipt for which a thread sleeps, and both lent to threads; a
//! question that waits for its answer; a subscription that is told of an emission; and a look at the flow while its lock is kept.

ghost use Rattle.std.specs.Prelude.{◌≡◌, ◌≢◌, ◌<◌, ◌+◌, ◌++◌, ◌∷◌, [], ℕ, List, Option, None, Some, Ok, IfOk, IfErr, IfSome, IfNone};
ghost use Rattle.flow_terms.specs.declared.refusal.Refusal.TheVariants.{NoMemory};
ghost use Rattle.shared_lane.specs.Readers.{at};
ghost use Rattle.shared_lane.specs.declared.reader.Taken.TheVariants.{Nothing};
ghost use Rattle.shared_rounds.specs.declared.round.Round.TheVariants as round;
ghost use Rattle.shared_lane.specs.Views.{ReceiptSeen};
ghost use Rattle.shared_rounds.specs.Rounds.{IsAfter};
ghost use Rattle.shared_flow.specs.Emitters.{Emits, emission_by};
ghost use Rattle.shared_rounds.specs.Reach.{with_round};
ghost use Rattle.shared_flow.specs.Parties.{IsOwnReceipt, IsSameEmitter, named, sharing_of};
ghost use Rattle.shared_flow.specs.Owners.{at_rest};
ghost use Rattle.hot_callers.specs.SharedCalls.{AreOfOneFlow, HasTaken, IsSameSubscription, WereAtOnce};

use cold_flow::Refusal;
use futures::task::{Doorbell, Poll, Queue};
use shared_core::{Begun, Tried};
use shared_flow::{
    Emitter, Held, Parker, Receipt, SharedFlow, Subscription, Taken, taking_all_is_taking_each,
};
use std::alloc::{AllocError, AllocGlobal};
use std::random::RandomSource;
use std::sync::Wait;
use std::sync::atomic::{AtomicBool, Ordering};
use std::thread;
use std::thread::{Threads, yield_now};

/// How often the receiving thread looks at most whether the emitting one has begun.
const TURNS: u32 = 5_000_000;

/// The receipt of the emission in flight. The thread sleeps until the emission is finished. `None` without memory for a task.
pub fn finished<R>(rt: &R, emitter: &mut Emitter<u64>) -> Option<Receipt>
where
    R: Wait + RandomSource + AllocGlobal,
    requires in_flight { emitter.old.ticket ≢ None }
    ensures receipt { IfSome result (IsOwnReceipt emitter.old.party emitter.old.id) }
    ensures rises { IfSome result (λ receipt. IsAfter emitter.old.last receipt.number) }
    ensures done { IfSome result (λ receipt. (emitter.new.ticket ≡ None) × (emitter.new.last ≡ Some receipt.number)) }
    ensures waits { IfNone result (emitter.new.ticket ≡ emitter.old.ticket) }
    ensures same { IsSameEmitter emitter.old emitter.new }
{
    let queue = Queue::new(rt, Doorbell::parking()).ok()?;
    queue.add().ok()?.schedule();
    for _ in rt.forever() {
        let mut cx = queue.next(rt)?;
        let polled = emitter.poll_emit(rt, &mut cx);
        cx.end(&polled);
        if let Poll::Ready(receipt) = polled {
            return Some(receipt);
        }
    }
    unreachable!()
}

/// Emits a value, and answers its receipt: Kotlin's `emit`. `None` where the value was dropped, or refused.
pub fn emitted<R>(rt: &R, emitter: &mut Emitter<u64>, value: u64) -> Option<Receipt>
where
    R: Wait + RandomSource + AllocGlobal,
    requires idle { emitter.old.ticket ≡ None }
    ensures receipt { IfSome result (IsOwnReceipt emitter.old.party emitter.old.id) }
    ensures rises { IfSome result (λ receipt. IsAfter emitter.old.last receipt.number) }
    ensures done { IfSome result (λ receipt. (emitter.new.ticket ≡ None) × (emitter.new.last ≡ Some receipt.number)) }
    ensures same { IsSameEmitter emitter.old emitter.new }
{
    match emitter.start_emit(rt, value) {
        Ok(Begun::Accepted(receipt)) => Some(receipt),
        Ok(Begun::Waiting(())) => finished(rt, emitter),
        Ok(Begun::Dropped) => None,
        Err(_) => None,
    }
}

/// The next value of a subscription. The thread sleeps until one is pending. `None` without memory for a task.
pub fn received<R>(rt: &R, subscription: &mut Subscription<u64>) -> Option<u64>
where
    R: Wait + RandomSource + AllocGlobal,
    ensures same { IsSameSubscription subscription.old subscription.new }
    ensures value { IfSome result (λ value. HasTaken subscription.old (value ∷ []) subscription.new) }
    ensures nothing { IfNone result (HasTaken subscription.old [] subscription.new) }
{
    let queue = Queue::new(rt, Doorbell::parking()).ok()?;
    queue.add().ok()?.schedule();
    for _ in rt.forever() {
        let mut cx = queue.next(rt)?;
        let polled = subscription.poll_next(rt, &mut cx);
        cx.end(&polled);
        if let Poll::Ready(value) = polled {
            return Some(value);
        }
    }
    unreachable!()
}

/// Whether the emitting thread begins in time. It doesn't begin later.
fn begins(is_decided: &AtomicBool) -> bool {
    for _ in 0..TURNS {
        if is_decided.load(Ordering::SeqCst) {
            return true;
        }
        yield_now();
    }
    is_decided.swap(true, Ordering::SeqCst)
}

/// Emits a value, unless the receiving thread has given up.
fn emitted_in_time<R>(
    rt: &R,
    emitter: &mut Emitter<u64>,
    value: u64,
    is_decided: &AtomicBool,
) -> Option<Receipt>
where
    R: Wait + RandomSource + AllocGlobal,
    requires idle { emitter.old.ticket ≡ None }
    ensures receipt { IfSome result (IsOwnReceipt emitter.old.party emitter.old.id) }
    ensures same { IsSameEmitter emitter.old emitter.new }
{
    if is_decided.swap(true, Ordering::SeqCst) {
        return None;
    }
    emitted(rt, emitter, value)
}

/// The next value of a subscription, which ends where none comes: nobody waits for it then.
fn received_or_ended<R>(
    rt: &R,
    listening: &mut Option<Subscription<u64>>,
    is_decided: &AtomicBool,
) -> Option<u64>
where
    R: Wait + RandomSource + AllocGlobal,
    ensures ended { IfNone result (listening.new ≡ None) }
{
    let value = match listening {
        Some(subscription) if begins(is_decided) => received(rt, subscription),
        _ => None,
    };
    if value.is_none() {
        if let Some(subscription) = listening.take() {
            subscription.cancel(rt);
        }
    }
    value
}

/// One thread emits a value that another receives. The emitter and the subscription are lent to the threads, since no closure may
/// own them, and are spent after the join. Without memory for its task the receiving thread ends the subscription at once, so
/// that the emission doesn't wait for it. Where no thread can be had, `join` calls the receiving closure before the emitting one:
/// it gives up then, and nothing is emitted. Where the emission is refused, the receiving thread sleeps until another emitter emits.
pub fn passed_on<R>(
    rt: &R,
    flow: &mut SharedFlow<u64>,
    value: u64,
) -> Result<(Option<Receipt>, Option<u64>), Refusal>
where
    R: Wait + Threads + RandomSource + AllocGlobal + Sync,
    ensures receipt { IfOk result (λ passed. IfSome passed.0 (IsOwnReceipt flow.old.party 1)) }
    ensures round { IfOk result (λ _. (number : ℕ) × (flow.new ≡ at_rest (with_round (round.Subscribe (Ok number)) flow.new.party.seen (sharing_of (sharing_of flow.old.party))))) }
    ensures same { named flow.new.party ≡ named flow.old.party }
{
    let subscription = flow.subscribe(rt)?;
    let mut emitter = match flow.emitter(1) {
        Ok(emitter) => emitter,
        Err(refusal) => {
            subscription.cancel(rt);
            return Err(refusal);
        }
    };
    let mut listening = Some(subscription);
    let is_decided = AtomicBool::new(false);
    let passed = thread::join(
        rt,
        || emitted_in_time(rt, &mut emitter, value, &is_decided),
        || received_or_ended(rt, &mut listening, &is_decided),
    );
    if let Some(subscription) = listening {
        subscription.cancel(rt);
    }
    let _idle = emitter.close(rt);
    Ok(passed)
}

/// The next value of a subscription, for which the thread sleeps where none is pending.
pub fn awaited(
    rt: &impl Wait,
    parker: &mut Parker,
    subscription: &mut Subscription<u64>,
) -> Result<u64, Refusal>
    ensures value { IfOk result (λ value. HasTaken subscription.old (value ∷ []) subscription.new) }
    ensures nothing { IfErr result (λ refusal. (refusal ≡ NoMemory) × HasTaken subscription.old [] subscription.new) }
{
    subscription.next(rt, parker)
}

/// Emits a question into one flow, and waits for the next value of another, which answers it. `None` where the question was
/// dropped. Refused as `emit` is; and as `NoMemory` where the question stands, and there is none to wait for its answer by.
pub fn asked(
    rt: &impl Wait,
    parker: &mut Parker,
    emitter: &mut Emitter<u64>,
    subscription: &mut Subscription<u64>,
    question: u64,
) -> Result<Option<u64>, Refusal>
    requires idle { emitter.old.ticket ≡ None }
    ensures asked { IfOk result (λ _. (receipt : Option ReceiptSeen) × Emits emitter.old (emission_by emitter.old question) (Ok receipt) emitter.new) }
    ensures answered { IfOk result (λ answer. IfSome answer (λ value. HasTaken subscription.old (value ∷ []) subscription.new)) }
    ensures dropped { IfOk result (λ answer. IfNone answer (subscription.new ≡ subscription.old)) }
    ensures idle { emitter.new.ticket ≡ None }
{
    let emitted = emitter.emit(rt, parker, question)?;
    if emitted.is_none() {
        return Ok(None);
    }
    let answer = awaited(rt, parker, subscription)?;
    Ok(Some(answer))
}

/// Takes all that is pending, as many values as the list has room for: turn by turn the subscription received what was added.
pub fn taken_at_once(subscription: &mut Subscription<u64>, values: &mut Vec<u64>) -> Taken<u64>
    ensures { (taken : List ℕ) × (values.new.items ≡ values.old.items ++ taken) × HasTaken subscription.old taken subscription.new }
{
    taking_all_is_taking_each::<u64>();
    subscription.try_next_all(values)
}

/// Emits a value and tells a subscription of it: where that finds nothing then, it is past this emission already. `None` where
/// the value wasn't accepted at once.
pub fn emitted_and_heard(
    rt: &impl Wait,
    emitter: &mut Emitter<u64>,
    subscription: &mut Subscription<u64>,
    value: u64,
) -> Option<Taken<u64>>
    requires idle { emitter.old.ticket ≡ None }
    requires one_flow { AreOfOneFlow emitter.old subscription.old }
    ensures past { IfSome result (λ taken. taken ≡ Nothing → (number : ℕ) × (emitter.new.last ≡ Some number) × (number < at subscription.new.reader)) }
    ensures one_flow { AreOfOneFlow emitter.new subscription.new }
    ensures idle { emitter.new.ticket ≡ None }
{
    let Ok(Tried::Accepted(mut receipt)) = emitter.try_emit(rt, value) else {
        return None;
    };
    subscription.told(&mut receipt);
    Some(subscription.try_next())
}

/// The same with an emitter and a subscription of its own, which are spent. `None` where the value wasn't accepted at once.
pub fn heard_at_once(
    rt: &impl Wait,
    flow: &mut SharedFlow<u64>,
    value: u64,
) -> Result<Option<Taken<u64>>, Refusal>
    ensures same { named flow.new.party ≡ named flow.old.party }
    ensures halved { IfOk result (λ _. flow.new.party.halved ≡ flow.old.party.halved + 2) }
{
    let mut subscription = flow.subscribe(rt)?;
    let mut emitter = match flow.emitter(1) {
        Ok(emitter) => emitter,
        Err(refusal) => {
            subscription.cancel(rt);
            return Err(refusal);
        }
    };
    let heard = emitted_and_heard(rt, &mut emitter, &mut subscription, value);
    let _idle = emitter.close(rt);
    subscription.cancel(rt);
    Ok(heard)
}

// Adds the replay cache to a list, with the lock kept.
fn add_cache(held: &Held<'_, u64>, values: &mut Vec<u64>) -> Result<(), AllocError>
    ensures { IfOk result (λ _. values.new.items ≡ values.old.items ++ held.now.kept.shared.sequencer.cache) }
{
    for index in 0..held.replay_len() {
        values.push(held.replay_at(index))?;
    }
    Ok(())
}

/// How many subscribe, with the replay cache of the same moment, which is added to a list. Nobody emits or subscribes in between,
/// since the lock is kept. Refused as `NoMemory`, and then the list has some of the values more.
pub fn counted_with_cache(
    rt: &impl Wait,
    flow: &mut SharedFlow<u64>,
    values: &mut Vec<u64>,
) -> Result<u32, Refusal>
    ensures at_once { IfOk result (λ count. (words : List ℕ) × (values.new.items ≡ values.old.items ++ words) × WereAtOnce flow.old.party count words) }
    ensures refused { IfErr result (λ refusal. refusal ≡ NoMemory) }
    ensures round { (count : ℕ) × (flow.new ≡ at_rest (with_round (round.Hold count) flow.new.party.seen flow.old.party)) }
{
    let held = flow.hold(rt);
    let count = held.count();
    let added = add_cache(&held, values);
    held.release();
    match added {
        Ok(()) => Ok(count),
        Err(AllocError) => Err(Refusal::NoMemory),
    }
}
