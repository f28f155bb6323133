//! A caller of a shared flow in two threads, one of which emits and the other receives, with the sentence for both.

ghost use Rattle.std.specs.Prelude.{◌≡◌, ◌⊎◌, ◌++◌, Err, None, IfOk, IfErr, IfSome, IfNone};
ghost use Rattle.flow_terms.specs.declared.refusal.Refusal.TheVariants.{NoMemory};
ghost use Rattle.shared_core.specs.Kept.{making_refusal};
ghost use Rattle.shared_core.specs.Preludes.{prelude_values};
ghost use Rattle.shared_rounds.specs.Rounds.{IsAtLimit};
ghost use Rattle.hot_callers.specs.Exchanges.{EndsBoth, EndsEmitters, Exchange, LateExchange, MeetsBoth, ReceivesBetween, TakesEach, TakesInTurn, TellsBoth, TriesEach};
ghost use Rattle.hot_callers.specs.Receiving.{ReceivesItsOwn, ReceivesOfBoth, WereTried};
ghost use Rattle.shared_flow.specs.Emitted.{emitted};

use crate::alone_calling::an_emitter_alone;
use cold_flow::Refusal;
use shared_core::{Config, Prelude};
use shared_flow::{
    Emitter, SharedFlow, Subscription, Taken, each_subscription_receives_prelude_cache_then_later,
};
use std::alloc::{AllocError, AllocGlobal};
use std::sync::Wait;
use std::thread::{Threads, join_mut, yield_now};

// Tries to emit each value.
fn try_each(rt: &impl Wait, emitter: &mut Emitter<u64>, values: &[u64])
    requires idle { emitter.old.ticket ≡ None }
    ensures has { WereTried (emitted emitter.old) values.now (emitted emitter.new) }
    ensures tries { TriesEach values.now emitter.old emitter.new }
{
    for value in values {
        let _answer = emitter.try_emit(rt, *value);
    }
}

// Looks once for a value, which is added to a list. Without memory for it none is taken.
fn take_one(subscription: &mut Subscription<u64>, received: &mut Vec<u64>) -> Result<(), AllocError>
    ensures has { TakesEach received.old.items subscription.old received.new.items subscription.new }
    ensures turns { TakesInTurn received.old.items subscription.old received.new.items subscription.new }
{
    received.reserve(1)?;
    let value = match subscription.try_next() {
        Taken::Value(value) => value,
        Taken::Nothing => return Ok(()),
        Taken::Overtaken => return Ok(()),
    };
    received.push_reserved(value);
    Ok(())
}

// Looks so often for a value.
fn take_each(
    subscription: &mut Subscription<u64>,
    turns: usize,
    received: &mut Vec<u64>,
) -> Result<(), AllocError>
    ensures has { TakesEach received.old.items subscription.old received.new.items subscription.new }
    ensures turns { TakesInTurn received.old.items subscription.old received.new.items subscription.new }
{
    for _ in 0..turns {
        take_one(subscription, received)?;
        yield_now();
    }
    Ok(())
}

// Emits in one thread, and receives in the other. Neither waits for the other.
fn in_two_threads<R: Threads + Wait + Sync>(
    rt: &R,
    emitter: &mut Emitter<u64>,
    values: &[u64],
    subscription: &mut Subscription<u64>,
    turns: usize,
    received: &mut Vec<u64>,
) -> Result<(), AllocError>
    requires idle { emitter.old.ticket ≡ None }
    ensures has { TakesEach received.old.items subscription.old received.new.items subscription.new }
    ensures turns { TakesInTurn received.old.items subscription.old received.new.items subscription.new }
    ensures emits { TriesEach values.now emitter.old emitter.new }
{
    let ((), taken) = join_mut(
        rt,
        &mut ||
            requires { emitter.now.ticket ≡ None }
            ensures { TriesEach values.entry.now emitter.entry.now emitter.exit.now }
        { try_each(rt, emitter, values) },
        &mut ||
            ensures has { TakesEach received.entry.now.items subscription.entry.now
                received.exit.now.items subscription.exit.now }
            ensures turns { TakesInTurn received.entry.now.items subscription.entry.now received.exit.now.items subscription.exit.now }
        { take_each(subscription, turns, received) },
    );
    taken
}

// Two emit, each in a thread of its own, and a third thread receives.
fn in_three_threads<R: Threads + Wait + Sync>(
    rt: &R,
    one: &mut Emitter<u64>,
    first: &[u64],
    two: &mut Emitter<u64>,
    second: &[u64],
    subscription: &mut Subscription<u64>,
    turns: usize,
    received: &mut Vec<u64>,
) -> Result<(), AllocError>
    requires idle { (one.old.ticket ≡ None) × (two.old.ticket ≡ None) }
    ensures has { TakesEach received.old.items subscription.old received.new.items subscription.new }
    ensures turns { TakesInTurn received.old.items subscription.old received.new.items subscription.new }
    ensures one { TriesEach first.now one.old one.new }
    ensures two { TriesEach second.now two.old two.new }
{
    let ((), taken) = join_mut(
        rt,
        &mut ||
            requires { one.now.ticket ≡ None }
            ensures { TriesEach first.entry.now one.entry.now one.exit.now }
        { try_each(rt, one, first) },
        &mut ||
            requires { two.now.ticket ≡ None }
            ensures has { TakesEach received.entry.now.items subscription.entry.now
                received.exit.now.items subscription.exit.now }
            ensures turns { TakesInTurn received.entry.now.items subscription.entry.now received.exit.now.items subscription.exit.now }
            ensures two { TriesEach second.entry.now two.entry.now two.exit.now }
        { in_two_threads(rt, two, second, subscription, turns, received) },
    );
    taken
}

// The owner meets both: from then on all three have one list of rounds, and the subscription has seen all that was accepted.
fn meet_both(
    rt: &impl Wait,
    flow: &mut SharedFlow<u64>,
    emitter: &mut Emitter<u64>,
    subscription: &mut Subscription<u64>,
)
    requires emitter { emitter.old.party.lock ≡ flow.old.party.lock }
    requires subscription { (subscription.old.party.lock ≡ flow.old.party.lock) × (subscription.old.party.flow ≡ flow.old.party.flow) }
    ensures { MeetsBoth flow.old.party flow.new.party emitter.old emitter.new subscription.old subscription.new }
{
    let mut held = flow.hold(rt);
    held.tell_emitter(emitter);
    held.tell_subscription(subscription);
    let _met = held.meet(subscription);
    held.release();
}

// The owner ends both, and takes them in, with their rounds and their shares of the lock. By the round that it makes then it knows who made
// each.
fn end_both(
    rt: &impl Wait,
    flow: &mut SharedFlow<u64>,
    emitter: Emitter<u64>,
    subscription: Subscription<u64>,
)
    requires emitter { emitter.party.lock ≡ flow.old.party.lock }
    requires subscription { subscription.party.lock ≡ flow.old.party.lock }
    requires idle { emitter.ticket ≡ None }
    ensures { EndsBoth flow.old.party flow.new.party emitter subscription }
{
    flow.cancel(rt, subscription);
    flow.close(rt, emitter);
    flow.subscription_count(rt);
}

/// What came of an exchange.
#[derive(Drop)]
pub struct Exchanged {
    /// The owner of the flow, which has taken the others in, with the list of rounds that it has seen.
    pub flow: SharedFlow<u64>,
    /// What was received, in its order.
    pub received: Vec<u64>,
}

/// Makes a flow, emits values in one thread and receives in another, which looks so often for one. What is received is of the prelude and
/// then of these values, each in its order and once; nobody else emits. Both are lent to the threads, meet their flow then, and are ended
/// by its owner, which takes them in.
///
/// Refused as `SharedFlow::new` is, then as `SharedFlow::subscribe` is, and as `NoMemory`.
pub fn emit_and_receive<R>(
    rt: &R,
    config: Config,
    prelude: Prelude<u64>,
    values: &[u64],
    turns: usize,
) -> Result<Exchanged, Refusal>
where
    R: Threads + Wait + Sync + AllocGlobal,
    ensures has { IfOk result (λ exchanged.
        ReceivesItsOwn config.policy (prelude_values prelude) values.now exchanged.received.items) }
    ensures exchange { IfOk result (λ exchanged. Exchange config (prelude_values prelude) values.now exchanged.received.items exchanged.flow.party) }
    ensures refused { IfSome (making_refusal config) (λ refusal. result ≡ Err refusal) }
    ensures otherwise { IfNone (making_refusal config) (IfErr result (λ refusal. (refusal ≡ NoMemory) ⊎ IsAtLimit refusal)) }
{
    each_subscription_receives_prelude_cache_then_later::<u64>();
    an_emitter_alone::<u64>();
    let mut flow = SharedFlow::new(rt.alloc(), config)?;
    let mut emitter = flow.emitter(1)?;
    let mut subscription = match flow.subscribe_with(rt, prelude) {
        Ok(subscription) => subscription,
        Err(refusal) => {
            emitter.close(rt);
            return Err(refusal);
        }
    };
    let mut received = Vec::new(rt.alloc());
    let taken = in_two_threads(
        rt,
        &mut emitter,
        values,
        &mut subscription,
        turns,
        &mut received,
    );
    meet_both(rt, &mut flow, &mut emitter, &mut subscription);
    emitter.emissions_are_its_part();
    end_both(rt, &mut flow, emitter, subscription);
    taken?;
    Ok(Exchanged { flow, received })
}

// A subscription begins, receives what two emit meanwhile, meets its flow, as does the second emitter, and is ended.
fn receive_between<R>(
    rt: &R,
    flow: &mut SharedFlow<u64>,
    prelude: Prelude<u64>,
    one: &mut Emitter<u64>,
    first: &[u64],
    two: &mut Emitter<u64>,
    second: &[u64],
    turns: usize,
) -> Result<Vec<u64>, Refusal>
where
    R: Threads + Wait + Sync + AllocGlobal,
    requires idle { (one.old.ticket ≡ None) × (two.old.ticket ≡ None) }
    requires two { two.old.party.lock ≡ flow.old.party.lock }
    ensures one { IfOk result (λ _. TriesEach first.now one.old one.new) }
    ensures two { IfOk result (λ _. TriesEach second.now two.old two.new) }
    ensures receives { IfOk result (λ received. ReceivesBetween flow.old.party flow.new.party (prelude_values prelude) received.items two.new.party) }
    ensures refused { IfErr result (λ refusal. (refusal ≡ NoMemory) ⊎ IsAtLimit refusal) }
{
    let mut subscription = flow.subscribe_with(rt, prelude)?;
    let mut received = Vec::new(rt.alloc());
    let taken = in_three_threads(
        rt,
        one,
        first,
        two,
        second,
        &mut subscription,
        turns,
        &mut received,
    );
    meet_both(rt, flow, two, &mut subscription);
    flow.cancel(rt, subscription);
    taken?;
    Ok(received)
}

// The owner tells both emitters of all rounds.
fn tell_both(
    rt: &impl Wait,
    flow: &mut SharedFlow<u64>,
    one: &mut Emitter<u64>,
    two: &mut Emitter<u64>,
)
    requires { (one.old.party.lock ≡ flow.old.party.lock) × (two.old.party.lock ≡ flow.old.party.lock) }
    ensures { TellsBoth flow.old.party flow.new.party one.old one.new two.old two.new }
{
    let mut held = flow.hold(rt);
    held.tell_emitter(one);
    held.tell_emitter(two);
    held.release();
}

// The owner ends both emitters, and takes them in. By the round that it makes then it knows who made each.
fn end_emitters(rt: &impl Wait, flow: &mut SharedFlow<u64>, one: Emitter<u64>, two: Emitter<u64>)
    requires lock { (one.party.lock ≡ flow.old.party.lock) × (two.party.lock ≡ flow.old.party.lock) }
    requires idle { (one.ticket ≡ None) × (two.ticket ≡ None) }
    ensures { EndsEmitters flow.old.party flow.new.party one two }
{
    flow.close(rt, one);
    flow.close(rt, two);
    flow.subscription_count(rt);
}

/// Does so with two emitters, each in a thread of its own. What is received is of the prelude and then, mixed, of what both emit. The first
/// has tried the `early` values before the subscription begins; the second tries the `late` ones after it was ended, of which it has
/// received nothing, and the list of rounds goes on.
///
/// Refused as `SharedFlow::new` is, then as `SharedFlow::subscribe` is, and as `NoMemory`.
pub fn emit_and_receive_between<R>(
    rt: &R,
    config: Config,
    prelude: Prelude<u64>,
    early: &[u64],
    first: &[u64],
    second: &[u64],
    late: &[u64],
    turns: usize,
) -> Result<Exchanged, Refusal>
where
    R: Threads + Wait + Sync + AllocGlobal,
    ensures has { IfOk result (λ exchanged.
        ReceivesOfBoth (prelude_values prelude) (early.now ++ first.now) second.now exchanged.received.items) }
    ensures exchange { IfOk result (λ exchanged. LateExchange config (prelude_values prelude) (early.now ++ first.now) second.now late.now exchanged.received.items exchanged.flow.party) }
    ensures refused { IfSome (making_refusal config) (λ refusal. result ≡ Err refusal) }
    ensures otherwise { IfNone (making_refusal config) (IfErr result (λ refusal. (refusal ≡ NoMemory) ⊎ IsAtLimit refusal)) }
{
    each_subscription_receives_prelude_cache_then_later::<u64>();
    let mut flow = SharedFlow::new(rt.alloc(), config)?;
    let mut one = flow.emitter(1)?;
    let mut two = match flow.emitter(2) {
        Ok(two) => two,
        Err(refusal) => {
            one.close(rt);
            return Err(refusal);
        }
    };
    try_each(rt, &mut one, early);
    let between = receive_between(
        rt, &mut flow, prelude, &mut one, first, &mut two, second, turns,
    );
    let received = match between {
        Ok(received) => received,
        Err(refusal) => {
            one.close(rt);
            two.close(rt);
            return Err(refusal);
        }
    };
    try_each(rt, &mut two, late);
    tell_both(rt, &mut flow, &mut one, &mut two);
    end_emitters(rt, &mut flow, one, two);
    Ok(Exchanged { flow, received })
}
