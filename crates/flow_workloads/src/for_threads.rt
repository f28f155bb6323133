//! Flows for threads of which one thread makes all calls: emissions that sleep, one subscription where many could be, and some that
//! come and go beside others.

use crate::ending::{Ends, end_all};
use crate::listeners::listen;
use crate::tally::Tally;
use futures::task::{Context, Doorbell, Poll, Solo};
use shared_core::{Begun, Config};
use shared_flow::{Emitter, SharedFlow, Subscription};
use std::alloc::AllocGlobal;
use std::random::RandomSource;
use std::sync::Wait;

/// What is done with a flow for threads.
#[derive(Clone, Copy)]
pub(crate) enum Company {
    /// So many emitters emit by turns into a flow with few places, so that the others sleep. One subscription takes each value.
    Emitters(u32),
    /// A subscription comes and goes beside so many.
    Subscriptions(u32),
}

/// So many emitters, or fewer where there is no memory for one.
fn emitters_of<R>(rt: &R, flow: &mut SharedFlow<u64>, count: u32) -> Vec<Emitter<u64>>
where
    R: AllocGlobal + Wait,
{
    let mut emitters = Vec::new(rt.alloc());
    for id in 0..count {
        let Ok(emitter) = flow.emitter(id) else {
            break;
        };
        if let Err(refused) = emitters.push(emitter) {
            drop(refused.value.close(rt));
        }
    }
    emitters
}

impl Ends for Emitter<u64> {
    fn end<R: Wait>(self, rt: &R, _tally: &mut Tally) {
        drop(self.close(rt));
    }
}

/// Ends an emission that is finished, and begins the next one, which sleeps where it has to wait.
#[inline(never)]
fn go_on(
    rt: &impl Wait,
    emitter: &mut Emitter<u64>,
    cx: &mut Context<'_>,
    value: u64,
    tally: &mut Tally,
) {
    if emitter.in_flight()
        && let Poll::Ready(receipt) = emitter.poll_emit(rt, cx)
    {
        tally.number(receipt.number());
    }
    if !emitter.in_flight()
        && let Some(Begun::Accepted(receipt)) = tally.noted(emitter.start_emit(rt, value))
    {
        tally.number(receipt.number());
    }
    if emitter.in_flight() {
        drop(emitter.poll_emit(rt, cx));
    }
}

/// Each emitter goes on.
fn begin_all(
    rt: &impl Wait,
    emitters: &mut Vec<Emitter<u64>>,
    cx: &mut Context<'_>,
    value: u64,
    tally: &mut Tally,
) {
    for emitter in emitters.iter_mut() {
        go_on(rt, emitter, cx, value, tally);
    }
}

/// All emitters begin. Then the subscription takes a value so often, after which each time the emitter whose turn it is goes on.
fn take_turns(
    rt: &impl Wait,
    subscription: &mut Subscription<u64>,
    emitters: &mut Vec<Emitter<u64>>,
    cx: &mut Context<'_>,
    (value, turns): (u64, u64),
    tally: &mut Tally,
) {
    begin_all(rt, emitters, cx, value, tally);
    let count = emitters.len().max(1) as u64;
    for turn in 0..turns {
        tally.given(subscription.next_now(rt));
        if let Some(emitter) = emitters.get_mut((turn % count) as usize) {
            go_on(rt, emitter, cx, value, tally);
        }
    }
}

/// One subscribes, and these emitters take turns so often.
fn with_reader(
    rt: &impl Wait,
    flow: &mut SharedFlow<u64>,
    emitters: &mut Vec<Emitter<u64>>,
    cx: &mut Context<'_>,
    work: (u64, u64),
    tally: &mut Tally,
) {
    if let Some(mut subscription) = tally.noted(flow.subscribe(rt)) {
        take_turns(rt, &mut subscription, emitters, cx, work, tally);
        subscription.cancel(rt);
    }
}

/// So many emitters take turns so often, each emission with this value.
fn among_emitters<R>(
    rt: &R,
    flow: &mut SharedFlow<u64>,
    count: u32,
    work: (u64, u64),
    tally: &mut Tally,
)
where
    R: AllocGlobal + RandomSource + Wait,
{
    if let Some(task) = tally.noted(Solo::new(rt, Doorbell::spinning())) {
        let mut emitters = emitters_of(rt, flow, count);
        let mut cx = task.begin();
        with_reader(rt, flow, &mut emitters, &mut cx, work, tally);
        cx.cancel();
        end_all(rt, emitters, tally);
    }
}

/// A subscription comes and goes so often beside so many others.
fn among_subscriptions<R>(
    rt: &R,
    flow: &mut SharedFlow<u64>,
    count: u32,
    rounds: u64,
    tally: &mut Tally,
)
where
    R: AllocGlobal + RandomSource + Wait,
{
    let others = listen(rt, flow, count, 0, tally);
    for round in 0..rounds {
        if let Some(subscription) = tally.noted(flow.subscribe(rt)) {
            subscription.cancel(rt);
            tally.number(round);
        }
    }
    end_all(rt, others, tally);
}

impl Company {
    /// Makes a flow, and calls on it in so many rounds, each emission with this value.
    pub(crate) fn on_flow<R>(
        self,
        rt: &R,
        config: Config,
        (value, rounds): (u64, u64),
        tally: &mut Tally,
    )
    where
        R: AllocGlobal + RandomSource + Wait,
    {
        let Some(mut flow) = tally.noted(SharedFlow::<u64>::new(rt.alloc(), config)) else {
            return;
        };
        match self {
            Company::Emitters(count) => {
                among_emitters(rt, &mut flow, count, (value, rounds), tally);
            }
            Company::Subscriptions(count) => {
                among_subscriptions(rt, &mut flow, count, rounds, tally);
            }
        }
    }
}
