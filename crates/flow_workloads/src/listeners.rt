//! Subscriptions of a shared flow on threads of their own.

use crate::acting::Acts;
use crate::course::{Course, Emitters};
use crate::ending::Ends;
use crate::tally::Tally;
use shared_flow::{Parker, SharedFlow, Subscription};
use std::alloc::AllocGlobal;
use std::random::RandomSource;
use std::sync::Wait;

/// A subscription with what its thread sleeps by. It must be ended.
pub(crate) struct Listener {
    subscription: Subscription<u64>,
    parker: Parker,
    /// How many values it is to take.
    values: u64,
    received: Course,
    // Between two listeners in a list, so that those of two threads share no cache line.
    _apart: [u64; 16],
}

impl Listener {
    fn new<R>(rt: &R, flow: &mut SharedFlow<u64>, values: u64) -> Option<Listener>
    where
        R: AllocGlobal + RandomSource + Wait,
    {
        let parker = Parker::new(rt).ok()?;
        let subscription = flow.subscribe(rt).ok()?;
        Some(Listener {
            subscription,
            parker,
            values,
            received: Course::new(),
            _apart: [0; 16],
        })
    }

    /// Takes so many values, and sleeps where none is there.
    #[inline(never)]
    fn take(&mut self, rt: &impl Wait, values: u64) {
        for _ in 0..values {
            let Ok(value) = self.subscription.next(rt, &mut self.parker) else {
                break;
            };
            self.received.number(value);
        }
    }
}

impl Ends for Listener {
    fn end<R: Wait>(self, rt: &R, _tally: &mut Tally) {
        let Listener {
            subscription,
            parker: _,
            values: _,
            received: _,
            _apart: _,
        } = self;
        subscription.cancel(rt);
    }
}

impl Acts for Listener {
    fn act<R: Wait>(&mut self, rt: &R) {
        let values = self.values;
        self.take(rt, values);
    }
}

/// So many listeners, or fewer where one is refused. Each is to take so many values.
pub(crate) fn listen<R>(
    rt: &R,
    flow: &mut SharedFlow<u64>,
    count: u32,
    values: u64,
    tally: &mut Tally,
) -> Vec<Listener>
where
    R: AllocGlobal + RandomSource + Wait,
{
    let mut listeners = Vec::new(rt.alloc());
    for _ in 0..count {
        let Some(listener) = Listener::new(rt, flow, values) else {
            break;
        };
        if let Err(refused) = listeners.push(listener) {
            refused.value.end(rt, tally);
        }
    }
    listeners
}

/// What came to each listener is taken in, as far as so many emitters fix it.
pub(crate) fn take_in(listeners: &[Listener], emitters: Emitters, tally: &mut Tally) {
    for listener in listeners {
        listener.received.told(tally, emitters);
    }
}
