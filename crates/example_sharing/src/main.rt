//! A cold flow that is shared while somebody subscribes, and 50 milliseconds longer, by a real clock.
#![tactic(auto)]

use cold_flow::{Numbers, Policy, Refusal, range};
use flow_sharing::{Sharing, Started, share_in};
use futures::task::{Context, Doorbell, Solo};
use shared_core::Config;
use shared_flow::SharedFlow;
use std::alloc::AllocGlobal;
use std::rt::Clock;
use std::sync::Wait;
use std::time::{Duration, Instant};
use std::{io, thread};
use thiserror::Error;

/// The shared flow, which the numbers are emitted into.
const PLACES: Config = Config {
    replay: 0,
    extra: 8,
    policy: Policy::Suspend,
    subscribers: 1,
    emits: 1,
    first: 0,
};

/// Kotlin's `SharingStarted.WhileSubscribed(stopTimeoutMillis = 50)`.
const STARTED: Started = Started::WhileSubscribed {
    stop: 50,
    expire: None,
};

/// Why the program ends early.
#[derive(Debug, Drop, Error)]
enum Fault {
    #[error("{0}")]
    Refused(#[from] Refusal),
    #[error("no clock or no output")]
    Host(#[from] io::Error),
}

/// One poll of the sharing, at the moment that the clock gives: whether sharing is on. Nothing runs by itself, so without polls
/// nothing is shared, and nothing stops.
fn is_on<R: Clock + Wait>(
    rt: &R,
    start: Instant,
    sharing: &mut Sharing<u64, Numbers<()>>,
    cx: &mut Context<'_>,
) -> Result<bool, Fault> {
    let milliseconds = start.elapsed(rt)?.as_millis();
    let now = u64::try_from(milliseconds).unwrap_or(u64::MAX);
    Ok(sharing.poll(rt, now, cx)?.on)
}

/// Polls before somebody subscribes, meanwhile, and after, until sharing stops.
fn poll_on<R: Clock + Print + Wait>(
    rt: &R,
    flow: &mut SharedFlow<u64>,
    sharing: &mut Sharing<u64, Numbers<()>>,
    cx: &mut Context<'_>,
) -> Result<(), Fault> {
    let start = Instant::now(rt)?;
    println!(rt; "nobody yet: {}", is_on(rt, start, sharing, cx)?)?;
    let mut reader = flow.subscribe(rt)?;
    let on = is_on(rt, start, sharing, cx);
    let value = reader.poll_next(rt, cx);
    reader.cancel(rt);
    println!(rt; "somebody: {}, {value:?}", on?)?;
    println!(rt; "nobody any more: {}", is_on(rt, start, sharing, cx)?)?;
    for _ in rt.forever() {
        if !is_on(rt, start, sharing, cx)? {
            break;
        }
        thread::sleep(rt, Duration::from_millis(5));
    }
    println!(rt; "50 milliseconds later: false")?;
    Ok(())
}

/// Shares the numbers 1, 2 and 3.
fn run<R>(rt: &R, cx: &mut Context<'_>) -> Result<(), Fault>
where
    R: Clock + Print + Wait + AllocGlobal,
{
    let mut flow = SharedFlow::new(rt.alloc(), PLACES)?;
    let mut sharing = share_in(&mut flow, range(1, 4), STARTED)?;
    let polled = poll_on(rt, &mut flow, &mut sharing, cx);
    sharing.close(rt);
    polled
}

fn main(rt: HostRuntime) -> Result<(), Fault> {
    let task = Solo::new(&rt, Doorbell::spinning())?;
    let mut cx = task.begin();
    let ran = run(&rt, &mut cx);
    cx.cancel();
    ran
}
