//! A flow with one emitter and one subscription, which have the whole lock with its owner: what came is what was emitted.

ghost use Rattle.std.specs.Prelude.{◌≡◌, ◌⊎◌, ◌+◌, ◌<◌, ℕ, Err, None, length, IfOk, IfErr, IfSome, IfNone};
ghost use Rattle.flow_terms.specs.declared.refusal.Refusal.TheVariants.{NoMemory, Spent, EmitsFull};
ghost use Rattle.round_lock.specs.History.{HasAll};
ghost use Rattle.shared_core.specs.Kept.{making_refusal};
ghost use Rattle.shared_core.specs.Preludes.{prelude_values};
ghost use Rattle.shared_rounds.specs.Rounds.{IsAtLimit};
ghost use Rattle.shared_flow.specs.Emitted.{GrewBy, GrewByAll, emitted};
ghost use Rattle.hot_callers.specs.Alone.{AreNew, EmitterAloneLaw, HaveWholeLock, OnlyTakes, ReceivesOnlyIts, TakesBoth};
ghost use Rattle.hot_callers.specs.Exchanges.{IsSameParty, TakesEach};
ghost use Rattle.hot_callers.specs.Receiving.{ReceivesItsOwn};

use cold_flow::Refusal;
use shared_core::{Config, Prelude};
use shared_flow::{CutShort, Emitter, Parker, SharedFlow, Subscription, Word};
use std::alloc::AllocGlobal;
use std::random::RandomSource;
use std::sync::Wait;
use std::thread::{Threads, join_mut};

/// A law, with nothing to run. An owner met a subscription after all rounds of an emitter, of whose emissions none was withdrawn, and
/// made a round later with the whole lock, which it has with those that it took in, of whom the emitter alone emitted (`EmitsAlone`).
/// Then what the subscription has seen since its start are the last words that the emitter emitted and that were accepted, in order.
pub fn an_emitter_alone<T: Word>()
    ensures { EmitterAloneLaw T }
{}

/// A new flow's owner, emitter and subscription, which have the whole lock between them.
pub struct Parties {
    pub flow: SharedFlow<u64>,
    pub emitter: Emitter<u64>,
    pub subscription: Subscription<u64>,
}

/// Makes a flow with one emitter, whose id is 1, and one subscription. Lend emitter and subscription to threads, and end both by
/// [`end_alone`].
///
/// Refused as `SharedFlow::new` is, then as `SharedFlow::subscribe` is.
pub fn begin_alone<R>(rt: &R, config: Config, prelude: Prelude<u64>) -> Result<Parties, Refusal>
where
    R: Wait + AllocGlobal,
    ensures has { IfOk result (λ new. AreNew config (prelude_values prelude) new.flow.party new.emitter new.subscription) }
    ensures refused { IfSome (making_refusal config) (λ refusal. result ≡ Err refusal) }
    ensures otherwise { IfNone (making_refusal config) (IfErr result (λ refusal. (refusal ≡ NoMemory) ⊎ IsAtLimit refusal)) }
{
    let mut flow = SharedFlow::new(rt.alloc(), config)?;
    let mut emitter = flow.emitter(1)?;
    match flow.subscribe_with(rt, prelude) {
        Ok(subscription) => Ok(Parties {
            flow,
            emitter,
            subscription,
        }),
        Err(refusal) => {
            emitter.close(rt);
            Err(refusal)
        }
    }
}

/// Ends an emitter and a subscription, which have the whole lock with this owner, and takes both in. Where all words of the emitter were
/// emitted to their end, what the subscription has received is its own: of its prelude, and then of the last ones that were accepted, in
/// order and once, less what the policy dropped.
///
/// The emitter ends first, and then the subscription meets the flow: so it has seen all.
pub fn end_alone(
    rt: &impl Wait,
    flow: &mut SharedFlow<u64>,
    emitter: Emitter<u64>,
    subscription: Subscription<u64>,
)
    requires idle { emitter.ticket ≡ None }
    requires whole { HaveWholeLock flow.old.party emitter.party subscription.party }
    ensures has { ReceivesOnlyIts flow.old.party.flow emitter subscription }
    ensures taken { TakesBoth flow.old.party flow.new.party emitter.party subscription.party }
    ensures whole { HasAll flow.new.party.halved flow.new.party.taken }
{
    an_emitter_alone::<u64>();
    emitter.emissions_are_its_part();
    flow.close(rt, emitter);
    let mut subscription = subscription;
    flow.meet(rt, &mut subscription);
    subscription.receives_all_but_dropped();
    flow.cancel(rt, subscription);
    flow.subscription_count(rt);
}

/// Emits the values and waits until all are emitted, as [`Emitter::emit_all`] does, and is refused as that is. Its share of the lock stays
/// what it was.
pub fn emit_each(
    rt: &impl Wait,
    emitter: &mut Emitter<u64>,
    parker: &mut Parker,
    values: &[u64],
) -> Result<u64, CutShort>
    requires idle { emitter.old.ticket ≡ None }
    ensures has { GrewByAll (emitted emitter.old) values.now result (emitted emitter.new) }
    ensures idle { emitter.new.ticket ≡ None }
    ensures same { IsSameParty emitter.old.party emitter.new.party }
    ensures refused { IfErr result (λ cut. (cut.refusal ≡ NoMemory) ⊎ ((cut.refusal ≡ Spent) ⊎ (cut.refusal ≡ EmitsFull))) }
{
    emitter.emit_all(rt, parker, values)
}

// Waits for a value, which is added to a list. Without memory none is taken.
fn take_next(
    rt: &impl Wait,
    parker: &mut Parker,
    subscription: &mut Subscription<u64>,
    received: &mut Vec<u64>,
) -> Result<(), Refusal>
    ensures has { TakesEach received.old.items subscription.old received.new.items subscription.new }
    ensures one { IfOk result (λ _. length received.new.items ≡ length received.old.items + 1) }
    ensures none { IfErr result (λ _. received.new.items ≡ received.old.items) }
    ensures only { OnlyTakes subscription.old subscription.new }
    ensures refused { IfErr result (λ refusal. refusal ≡ NoMemory) }
{
    received.reserve(1)?;
    let value = subscription.next(rt, parker)?;
    received.push_reserved(value);
    Ok(())
}

/// Waits for so many values, and adds each to a list: Kotlin's `take(count).toList()`. It emits nothing, and its share of the lock stays
/// what it was. Refused as `NoMemory`: what was received until then, which is fewer, is in the list.
pub fn take_waiting(
    rt: &impl Wait,
    parker: &mut Parker,
    subscription: &mut Subscription<u64>,
    count: usize,
    received: &mut Vec<u64>,
) -> Result<(), Refusal>
    ensures has { TakesEach received.old.items subscription.old received.new.items subscription.new }
    ensures all { IfOk result (λ _. length received.new.items ≡ length received.old.items + count) }
    ensures fewer { IfErr result (λ _. length received.new.items < length received.old.items + count) }
    ensures only { OnlyTakes subscription.old subscription.new }
    ensures refused { IfErr result (λ refusal. refusal ≡ NoMemory) }
{
    for _turn in 0..count {
        take_next(rt, parker, subscription, received)?;
    }
    Ok(())
}

// Emits in one thread, and takes in another. Both sleep where they have to wait.
fn take_while_emitting<R: Threads + Wait + Sync>(
    rt: &R,
    emitter: &mut Emitter<u64>,
    sending: &mut Parker,
    values: &[u64],
    subscription: &mut Subscription<u64>,
    receiving: &mut Parker,
    count: usize,
    received: &mut Vec<u64>,
) -> (Result<u64, CutShort>, Result<(), Refusal>)
    requires idle { emitter.old.ticket ≡ None }
    ensures emits { GrewByAll (emitted emitter.old) values.now result.0 (emitted emitter.new) }
    ensures idle { emitter.new.ticket ≡ None }
    ensures same { IsSameParty emitter.old.party emitter.new.party }
    ensures cut { IfErr result.0 (λ cut. (cut.refusal ≡ NoMemory) ⊎ ((cut.refusal ≡ Spent) ⊎ (cut.refusal ≡ EmitsFull))) }
    ensures has { TakesEach received.old.items subscription.old received.new.items subscription.new }
    ensures all { IfOk result.1 (λ _. length received.new.items ≡ length received.old.items + count) }
    ensures only { OnlyTakes subscription.old subscription.new }
    ensures refused { IfErr result.1 (λ refusal. refusal ≡ NoMemory) }
{
    join_mut(
        rt,
        &mut ||
            requires { emitter.now.ticket ≡ None }
            ensures emits { GrewByAll (emitted emitter.entry.now) values.entry.now result (emitted emitter.exit.now) }
            ensures idle { emitter.exit.now.ticket ≡ None }
            ensures same { IsSameParty emitter.entry.now.party emitter.exit.now.party }
            ensures cut { IfErr result (λ cut. (cut.refusal ≡ NoMemory) ⊎ ((cut.refusal ≡ Spent) ⊎ (cut.refusal ≡ EmitsFull))) }
        { emit_each(rt, emitter, sending, values) },
        &mut ||
            ensures has { TakesEach received.entry.now.items subscription.entry.now received.exit.now.items subscription.exit.now }
            ensures all { IfOk result (λ _. length received.exit.now.items ≡ length received.entry.now.items + count) }
            ensures only { OnlyTakes subscription.entry.now subscription.exit.now }
            ensures refused { IfErr result (λ refusal. refusal ≡ NoMemory) }
        { take_waiting(rt, receiving, subscription, count, received) },
    )
}

// Does so, each by a parker of its own. Refused, where emitting is, for that reason.
fn emit_and_take<R>(
    rt: &R,
    emitter: &mut Emitter<u64>,
    values: &[u64],
    subscription: &mut Subscription<u64>,
    count: usize,
    received: &mut Vec<u64>,
) -> Result<(), Refusal>
where
    R: Threads + Wait + Sync + RandomSource + AllocGlobal,
    requires idle { emitter.old.ticket ≡ None }
    ensures emits { IfOk result (λ _. (n : ℕ) × GrewBy (emitted emitter.old) values.now n (emitted emitter.new)) }
    ensures idle { emitter.new.ticket ≡ None }
    ensures same { IsSameParty emitter.old.party emitter.new.party }
    ensures has { TakesEach received.old.items subscription.old received.new.items subscription.new }
    ensures all { IfOk result (λ _. length received.new.items ≡ length received.old.items + count) }
    ensures only { OnlyTakes subscription.old subscription.new }
    ensures refused { IfErr result (λ refusal. (refusal ≡ NoMemory) ⊎ ((refusal ≡ Spent) ⊎ (refusal ≡ EmitsFull))) }
{
    let mut sending = Parker::new(rt)?;
    let mut receiving = Parker::new(rt)?;
    let (sent, taken) = take_while_emitting(
        rt,
        emitter,
        &mut sending,
        values,
        subscription,
        &mut receiving,
        count,
        received,
    );
    match sent {
        Ok(_count) => taken,
        Err(cut) => Err(cut.refusal),
    }
}

/// Makes a flow, emits values in one thread, and takes so many in another, each of which sleeps where it has to wait. What came is of
/// these values alone: of the last ones that were accepted, in order and once, less what the policy dropped.
///
/// Refused as [`begin_alone`] is, and then as `Emitter::emit` is. It returns where so many values come, and where none waits for room that
/// nobody makes: that isn't claimed.
pub fn emit_and_collect<R>(
    rt: &R,
    config: Config,
    prelude: Prelude<u64>,
    values: &[u64],
    count: usize,
) -> Result<Vec<u64>, Refusal>
where
    R: Threads + Wait + Sync + RandomSource + AllocGlobal,
    ensures has { IfOk result (λ received. ReceivesItsOwn config.policy (prelude_values prelude) values.now received.items) }
    ensures all { IfOk result (λ received. length received.items ≡ count) }
    ensures refused { IfSome (making_refusal config) (λ refusal. result ≡ Err refusal) }
    ensures otherwise { IfNone (making_refusal config) (IfErr result (λ refusal. (refusal ≡ NoMemory) ⊎ (IsAtLimit refusal ⊎ (refusal ≡ EmitsFull)))) }
{
    let alone = begin_alone(rt, config, prelude)?;
    let Parties {
        mut flow,
        mut emitter,
        mut subscription,
    } = alone;
    let mut received = Vec::new(rt.alloc());
    let taken = emit_and_take(
        rt,
        &mut emitter,
        values,
        &mut subscription,
        count,
        &mut received,
    );
    end_alone(rt, &mut flow, emitter, subscription);
    taken?;
    Ok(received)
}
