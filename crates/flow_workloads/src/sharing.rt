//! A cold flow that is shared among visitors who come and go, poll by poll at rising moments.

use crate::tally::{Rest, Tally};
use cold_flow::{Flow, Policy, Step, Stepped, scripted};
use flow_sharing::{Polled, Sharing, Started, share_in};
use futures::task::{Context, Solo};
use shared_core::Config;
use shared_flow::{SharedFlow, Subscription, Taken};
use std::alloc::{AllocGlobal, Global};
use std::sync::Wait;
use workload_inputs::{Random, Scale};

/// How many visitors come.
const VISITS: u64 = 6_000;

/// How many polls a visitor stays for.
const STAY: u64 = 12;

/// What the flow is made with.
const PLACES: Config = Config {
    replay: 4,
    extra: 60,
    policy: Policy::DropOldest,
    subscribers: 4,
    emits: 1,
    first: 0,
};

/// A step, now and then pending.
#[inline]
fn step(random: &mut Random) -> Step<u64, u64> {
    if random.is_one_of(1, 24) {
        Step::Pending
    } else {
        Step::Value(random.next())
    }
}

/// A source of so many steps.
fn source(alloc: Global, random: &mut Random, tally: &mut Tally, steps: u64) -> Stepped<u64, u64> {
    let mut script = Vec::new(alloc);
    for _ in 0..steps {
        tally.noted(script.push(step(random)));
    }
    scripted(script)
}

/// What a subscription has received is taken in.
fn take(subscription: &mut Subscription<u64>, tally: &mut Tally) {
    let mut taken: u64 = 0;
    let mut rest = Rest::Enough;
    for _ in 0..64 {
        match subscription.try_next() {
            Taken::Value(value) => tally.given(Some(value)),
            Taken::Nothing => {
                rest = Rest::Nothing;
                break;
            }
            Taken::Overtaken => tally.overtaken(),
        }
        taken = taken.wrapping_add(1);
    }
    tally.rested(rest, taken);
}

/// What a poll found, and what it came to, is taken in.
fn polled(tally: &mut Tally, poll: Polled) {
    tally.number(poll.now);
    tally.number(u64::from(poll.count));
    tally.number(u64::from(poll.on));
    tally.number(u64::from(poll.reset));
}

/// A poll, so much later.
#[inline]
fn poll<F: Flow<Item = u64, Fault = u64>>(
    rt: &impl Wait,
    sharing: &mut Sharing<u64, F>,
    cx: &mut Context<'_>,
    now: &mut u64,
    later: u64,
    tally: &mut Tally,
) {
    *now = now.wrapping_add(later);
    if let Some(poll) = tally.noted(sharing.poll(rt, *now, cx)) {
        polled(tally, poll);
    }
}

/// A visitor comes, receives for some polls, and goes. Some polls later the next may come.
fn visit<F: Flow<Item = u64, Fault = u64>>(
    rt: &impl Wait,
    flow: &mut SharedFlow<u64>,
    sharing: &mut Sharing<u64, F>,
    cx: &mut Context<'_>,
    now: &mut u64,
    tally: &mut Tally,
) {
    if let Some(mut subscription) = tally.noted(flow.subscribe(rt)) {
        for _ in 0..STAY {
            poll(rt, sharing, cx, now, 7, tally);
            take(&mut subscription, tally);
        }
        subscription.cancel(rt);
    }
    for _ in 0..3 {
        poll(rt, sharing, cx, now, 9, tally);
    }
}

/// So many visits of one sharing, in one task.
fn visits<F: Flow<Item = u64, Fault = u64>>(
    rt: &impl Wait,
    task: &Solo,
    flow: &mut SharedFlow<u64>,
    sharing: &mut Sharing<u64, F>,
    count: u64,
    tally: &mut Tally,
) {
    let mut cx = task.begin();
    let mut now = 0;
    for _ in 0..count {
        visit(rt, flow, sharing, &mut cx, &mut now, tally);
    }
    cx.cancel();
}

/// A source shared into a new flow.
fn share<R>(
    rt: &R,
    task: &Solo,
    started: Started,
    random: &mut Random,
    tally: &mut Tally,
    count: u64,
)
where
    R: AllocGlobal + Wait,
{
    let Some(mut flow) = tally.noted(SharedFlow::new(rt.alloc(), PLACES)) else {
        return;
    };
    let upstream = source(rt.alloc(), random, tally, 3000);
    if let Some(mut sharing) = tally.noted(share_in(&mut flow, upstream, started)) {
        visits(rt, task, &mut flow, &mut sharing, count, tally);
        tally.closed(sharing.close(rt));
    }
}

/// Shares sources by each kind of start.
pub(crate) fn run<R>(rt: &R, task: &Solo, random: &mut Random, scale: Scale, tally: &mut Tally)
where
    R: AllocGlobal + Wait,
{
    let while_subscribed = Started::WhileSubscribed {
        stop: 20,
        expire: None,
    };
    let soon_expired = Started::WhileSubscribed {
        stop: 10,
        expire: Some(5),
    };
    for started in [
        while_subscribed,
        soon_expired,
        Started::Eagerly,
        Started::Lazily,
    ] {
        share(rt, task, started, random, tally, scale.of(VISITS));
    }
}
