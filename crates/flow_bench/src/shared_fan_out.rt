//! A fan-out of a shared flow for threads, whose listeners sleep where no value is there.

ghost use Rattle.futures.specs.Poll.{OnPending};
ghost use Rattle.futures.specs.Task.{IsArmed};

use crate::fan_out::{Drains, InOrder, fan_out};
use crate::fault::Fault;
use crate::measured::Measured;
use crate::shared_ends::IdleEmitter;
use crate::sides::{Admits, Ends, admit_all, end_all};
use futures::task::{Context, Doorbell, Poll, Queue};
use shared_core::Config;
use shared_flow::{SharedFlow, Subscription};
use std::alloc::AllocGlobal;
use std::random::RandomSource;
use std::rt::Clock;
use std::sync::Wait;
use std::thread::Threads;

/// A subscription with the task in which its thread sleeps.
struct Listener {
    subscription: Subscription<u64>,
    task: Queue,
    received: Received,
    // Between two listeners in a list, so that those of two threads share no cache line.
    _apart: [u64; 16],
}

/// What a listener received.
#[derive(Clone, Copy)]
struct Received {
    /// How many values.
    count: u64,
    /// Whether each was one above the one before.
    in_order: bool,
}

/// What came to the listeners of a new flow.
pub(crate) fn fanned_out<R>(rt: &R, config: Config, values: u64) -> Result<Measured, Fault>
where
    R: Clock + AllocGlobal + RandomSource + Threads + Wait + Sync,
{
    let mut flow = SharedFlow::<u64>::new(rt.alloc(), config)?;
    let mut listeners = admit_all(rt, &mut flow, config.subscribers)?;
    let fanned_out = emit_to_all(rt, &mut flow, &mut listeners, values);
    end_all(rt, listeners);
    fanned_out
}

/// What came from one emitter to all listeners.
fn emit_to_all<R>(
    rt: &R,
    flow: &mut SharedFlow<u64>,
    listeners: &mut Vec<Listener>,
    values: u64,
) -> Result<Measured, Fault>
where
    R: Clock + Threads + Wait + Sync,
{
    let mut emitter = IdleEmitter::of(flow)?;
    let fanned_out = fan_out(rt, &mut emitter, listeners, values);
    emitter.close(rt);
    Ok(fanned_out)
}

impl Admits<Listener> for SharedFlow<u64> {
    fn admit<R: AllocGlobal + RandomSource + Wait>(&mut self, rt: &R) -> Option<Listener> {
        listener_of(rt, self).ok()
    }
}

fn listener_of<R>(rt: &R, flow: &mut SharedFlow<u64>) -> Result<Listener, Fault>
where
    R: AllocGlobal + RandomSource + Wait,
{
    let task = Queue::new(rt, Doorbell::parking())?;
    task.add()?.schedule();
    let subscription = flow.subscribe(rt)?;
    Ok(Listener {
        subscription,
        task,
        received: Received {
            count: 0,
            in_order: true,
        },
        _apart: [0; 16],
    })
}

impl Drains<u64> for Listener {
    /// Takes so many values. The thread sleeps where none is there.
    #[inline(never)]
    fn drain<R: Clock + Wait>(&mut self, rt: &R, end: u64) {
        for _ in rt.forever() {
            let Some(mut cx) = self.task.next(rt) else {
                break;
            };
            let polled = take_ready(rt, &mut self.subscription, &mut self.received, &mut cx, end);
            cx.end(&polled);
            if polled.is_ready() {
                break;
            }
        }
    }
}

impl InOrder for Listener {
    fn in_order(&self) -> u64 {
        if self.received.in_order {
            self.received.count
        } else {
            0
        }
    }
}

impl Ends for Listener {
    fn end<R: Wait>(self, rt: &R) {
        let Listener {
            subscription,
            task: _,
            received: _,
            _apart: _,
        } = self;
        subscription.cancel(rt);
    }
}

/// Takes what is there, up to so many values in all. Pending where there are fewer.
fn take_ready(
    rt: &impl Wait,
    subscription: &mut Subscription<u64>,
    received: &mut Received,
    cx: &mut Context<'_>,
    values: u64,
) -> Poll<()>
    ensures { OnPending result (IsArmed cx.new) }
{
    for _ in received.count..values {
        let Poll::Ready(value) = subscription.poll_next(rt, cx) else {
            return Poll::Pending;
        };
        received.in_order = received.in_order && value == received.count;
        received.count = received.count.wrapping_add(1);
    }
    Poll::Ready(())
}
