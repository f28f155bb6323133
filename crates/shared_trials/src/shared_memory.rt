//! The calls of a shared flow that take memory: each succeeds where it is there. Where one allocation fails, as under
//! `rt try --test --fail-alloc N`, the call that wanted it is refused and leaves all as it was, so that it succeeds when it is
//! made once more. To keep the lock takes none.

use crate::shared_stage::config;
use crate::tools::assert_same;
use cold_flow::{Policy, Refusal};
use shared_core::{Tried, Withdrawn};
use shared_flow::{Emitter, SharedFlow, Subscription};
use std::alloc::AllocGlobal;
use std::process::Abort;
use std::sync::Wait;
use trial_tools::made_again;

// Whether nobody subscribes, and these values are in the replay cache.
fn is_unchanged<R: Wait + AllocGlobal>(rt: &R, flow: &mut SharedFlow<u64>, values: &[u64]) -> bool {
    let mut cache = Vec::new(rt.alloc());
    let added = flow.replay_cache_into(rt, &mut cache);
    added.is_ok() && cache.as_slice() == values && flow.subscription_count(rt) == 0
}

fn flow_made<R: AllocGlobal>(rt: &R) -> Result<SharedFlow<u64>, Refusal> {
    let config = config(2, 0, Policy::Suspend);
    match SharedFlow::new(rt.alloc(), config) {
        Ok(flow) => Ok(flow),
        Err(Refusal::NoMemory) => SharedFlow::new(rt.alloc(), config),
        Err(refusal) => Err(refusal),
    }
}

fn emitter_made<R: Wait + Abort + AllocGlobal>(
    rt: &R,
    flow: &mut SharedFlow<u64>,
    values: &[u64],
) -> Result<Emitter<u64>, Refusal> {
    match flow.emitter(3) {
        Ok(emitter) => Ok(emitter),
        Err(Refusal::NoMemory) => {
            assert!(rt; is_unchanged(rt, flow, values), "a refused emitter");
            flow.emitter(3)
        }
        Err(refusal) => Err(refusal),
    }
}

fn other_made<R: Wait + Abort + AllocGlobal>(
    rt: &R,
    flow: &mut SharedFlow<u64>,
    values: &[u64],
) -> Result<SharedFlow<u64>, Refusal> {
    match flow.dup() {
        Ok(other) => Ok(other),
        Err(Refusal::NoMemory) => {
            assert!(rt; is_unchanged(rt, flow, values), "a refused owner");
            flow.dup()
        }
        Err(refusal) => Err(refusal),
    }
}

// A refused one takes no place.
fn subscription_made<R: Wait + Abort + AllocGlobal>(
    rt: &R,
    flow: &mut SharedFlow<u64>,
    values: &[u64],
) -> Result<Subscription<u64>, Refusal> {
    match flow.subscribe(rt) {
        Ok(subscription) => Ok(subscription),
        Err(Refusal::NoMemory) => {
            assert!(rt; is_unchanged(rt, flow, values), "a refused subscription");
            flow.subscribe(rt)
        }
        Err(refusal) => Err(refusal),
    }
}

// What was refused adds nothing to the 4 that was there.
fn cache_added<R: Wait + Abort>(
    rt: &R,
    flow: &mut SharedFlow<u64>,
    out: &mut Vec<u64>,
) -> Result<(), Refusal> {
    match flow.replay_cache_into(rt, out) {
        Ok(()) => Ok(()),
        Err(Refusal::NoMemory) => {
            assert_eq!(rt; out.as_slice(), [4].as_slice(), "a refused cache");
            flow.replay_cache_into(rt, out)
        }
        Err(refusal) => Err(refusal),
    }
}

// The number of an accepted value's receipt.
fn number_of<R: Wait>(rt: &R, emitter: &mut Emitter<u64>, value: u64) -> Option<u64> {
    if emitter.in_flight() {
        return None;
    }
    match emitter.try_emit(rt, value) {
        Ok(Tried::Accepted(receipt)) => Some(receipt.number()),
        _ => None,
    }
}

// Two values are accepted, by their own numbers.
fn assert_accepted<R: Wait + Abort>(rt: &R, emitter: &mut Emitter<u64>) {
    let first = number_of(rt, emitter, 5);
    let second = number_of(rt, emitter, 6);
    assert_same(rt, "receipts", (first, second), (Some(0), Some(1)));
}

// One subscribes to a flow that has another owner too, who counts it, and then keeps the lock.
fn assert_subscribed<R: Wait + Abort + AllocGlobal>(
    rt: &R,
    flow: &mut SharedFlow<u64>,
    other: &mut SharedFlow<u64>,
) {
    let subscription = subscription_made(rt, flow, &[5, 6]).expect(rt, "a subscription");
    let count = other.subscription_count(rt);
    let held = other.hold(rt);
    let kept = (held.count(), held.replay_len());
    held.release();
    subscription.cancel(rt);
    assert_same(rt, "subscriptions", count, 1);
    assert_same(rt, "count and cache while the lock is kept", kept, (1, 2));
}

// The replay cache is added to a list that has one value, and room for no other.
fn assert_cached<R: Wait + Abort + AllocGlobal>(rt: &R, flow: &mut SharedFlow<u64>) {
    let alloc = rt.alloc();
    let room = made_again(&|| Vec::with_capacity(alloc, 1));
    let mut cache = room.expect(rt, "room for a value");
    cache.push(4).expect(rt, "room for a value");
    let added = cache_added(rt, flow, &mut cache);
    assert_same(rt, "the cache's call", added, Ok(()));
    assert_same(rt, "cache", cache.as_slice(), [4, 5, 6].as_slice());
}

#[test]
fn what_was_refused_for_want_of_memory_is_as_before(rt: HostRuntime) {
    let mut flow = flow_made(&rt).expect(&rt, "a flow");
    let mut emitter = emitter_made(&rt, &mut flow, &[]).expect(&rt, "an emitter");
    assert_accepted(&rt, &mut emitter);
    let mut other = other_made(&rt, &mut flow, &[5, 6]).expect(&rt, "another owner");
    assert_subscribed(&rt, &mut flow, &mut other);
    let idle = matches!(emitter.close(&rt), Withdrawn::Gone);
    assert_same(&rt, "the emitter was idle at its close", idle, true);
    assert_cached(&rt, &mut other);
}
