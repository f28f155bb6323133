//! Receipts of a shared flow for threads, on one thread: what the emitter's lock adds to those of a lane.

use crate::fault::Fault;
use crate::measured::Measured;
use crate::receipts::{self, Received, Takes};
use crate::shared_ends::IdleEmitter;
use crate::sides::{Admits, Emits, admit_all, end_all};
use futures::task::{Context, Doorbell, Poll, Solo};
use shared_core::Config;
use shared_flow::{SharedFlow, Subscription};
use std::alloc::AllocGlobal;
use std::random::RandomSource;
use std::rt::Clock;
use std::sync::Wait;

/// An emitter, with what the subscriptions are polled by. It must be ended.
struct Polling<'a> {
    emitter: IdleEmitter,
    cx: Context<'a>,
}

impl Polling<'_> {
    fn end<R: Wait>(self, rt: &R) {
        let Polling { emitter, cx } = self;
        cx.cancel();
        emitter.close(rt);
    }
}

impl Emits for Polling<'_> {
    #[inline]
    fn emit<R: Wait>(&mut self, rt: &R, value: u64) -> bool {
        self.emitter.emit(rt, value)
    }
}

impl Takes<Subscription<u64>> for Polling<'_> {
    #[inline]
    fn take<R: Wait>(
        &mut self,
        rt: &R,
        reader: &mut Subscription<u64>,
        taken: Received,
    ) -> Option<Received> {
        match reader.poll_next(rt, &mut self.cx) {
            Poll::Ready(value) => Some(taken.with(value)),
            Poll::Pending => None,
        }
    }
}

impl Admits<Subscription<u64>> for SharedFlow<u64> {
    fn admit<R>(&mut self, rt: &R) -> Option<Subscription<u64>>
    where
        R: AllocGlobal + RandomSource + Wait,
    {
        self.subscribe(rt).ok()
    }
}

/// The receipts of a new flow.
pub(crate) fn receipts<R>(rt: &R, config: Config, values: u64) -> Result<Measured, Fault>
where
    R: Clock + AllocGlobal + RandomSource + Wait,
{
    let task = Solo::new(rt, Doorbell::spinning())?;
    let mut flow = SharedFlow::<u64>::new(rt.alloc(), config)?;
    let mut readers = admit_all(rt, &mut flow, config.subscribers)?;
    let receipts = take_each(rt, &task, &mut flow, &mut readers, values);
    end_all(rt, readers);
    receipts
}

/// Emits so many values, each of which all subscriptions take.
fn take_each<R: Clock + Wait>(
    rt: &R,
    task: &Solo,
    flow: &mut SharedFlow<u64>,
    readers: &mut Vec<Subscription<u64>>,
    values: u64,
) -> Result<Measured, Fault> {
    let mut polling = Polling {
        emitter: IdleEmitter::of(flow)?,
        cx: task.begin(),
    };
    let receipts = receipts::receipts(rt, &mut polling, readers, values);
    polling.end(rt);
    Ok(receipts)
}
