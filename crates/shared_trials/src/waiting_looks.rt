//! Whom a receipt helps of one that waits in `next`, whichever of its looks finds the value.

use crate::shared_stage::{Call, Emitting, config};
use crate::tools::assert_same;
use crate::waiting_rows::received;
use cold_flow::{Policy, Refusal};
use shared_flow::{Parker, SharedFlow, Subscription};
use std::alloc::AllocGlobal;
use std::process::Abort;
use std::random::RandomSource;
use std::sync::Wait;
use std::sync::atomic::{AtomicBool, Ordering};
use std::thread::Threads;
use std::{hint, thread};

/// How often a thread looks at most whether another one is about to wait.
const NEAR: u32 = 1_000_000;

/// How often one that waits is met while it looks.
const TRIES: u64 = 100;

// Ends a subscription, once another thread is about to wait.
fn leave_near(rt: &impl Wait, leaving: &mut Option<Subscription<u64>>, is_near: &AtomicBool) {
    for _ in 0..NEAR {
        if is_near.load(Ordering::SeqCst) {
            break;
        }
        hint::spin_loop();
    }
    if let Some(subscription) = leaving.take() {
        subscription.cancel(rt);
    }
}

// What one that waits receives, for whom another one leaves just as it begins to look.
fn received_as_one_leaves<R: Wait + Threads + Sync>(
    rt: &R,
    waiting: &mut Subscription<u64>,
    parker: &mut Parker,
    leaving: &mut Option<Subscription<u64>>,
) -> Result<u64, Refusal> {
    let is_near = AtomicBool::new(false);
    let (found, ()) = thread::join(
        rt,
        || {
            is_near.store(true, Ordering::SeqCst);
            received(rt, waiting, parker)
        },
        || leave_near(rt, leaving, &is_near),
    );
    found
}

// Emits a value, which waits, and asks for it.
fn fall_asleep(rt: &impl Wait, emitting: &mut Emitting, value: u64) {
    emitting.perform(rt, Call::Emit(value));
    emitting.perform(rt, Call::Ask);
}

/// An owner, two emitters, and a subscription that waits by its parker.
struct Scene {
    flow: SharedFlow<u64>,
    first: Emitting,
    second: Emitting,
    waiting: Subscription<u64>,
    parker: Parker,
}

impl Scene {
    fn new<R: Wait + Abort + RandomSource + AllocGlobal>(rt: &R) -> Scene {
        let parker = Parker::new(rt).expect(rt, "a parker");
        let made = SharedFlow::new(rt.alloc(), config(0, 1, Policy::Suspend));
        let mut flow = made.expect(rt, "a flow");
        Scene {
            first: Emitting::new(rt, &mut flow, 1),
            second: Emitting::new(rt, &mut flow, 2),
            waiting: flow.subscribe(rt).expect(rt, "a subscription"),
            flow,
            parker,
        }
    }

    // Two emissions wait and sleep, since one subscription has yet to receive what was accepted before. It leaves, so that the first
    // is let in. Whether the other one received that value, and woke the second emission by its receipt.
    fn is_second_woken<R: Wait + Threads + Sync>(&mut self, rt: &R) -> bool {
        let mut leaving = self.flow.subscribe(rt).ok();
        self.first.perform(rt, Call::Try(0));
        let _taken = self.waiting.try_next();
        fall_asleep(rt, &mut self.first, 1);
        fall_asleep(rt, &mut self.second, 2);
        let before = self.second.wakes();
        let found = received_as_one_leaves(rt, &mut self.waiting, &mut self.parker, &mut leaving);
        let is_woken = self.second.wakes() > before;
        self.first.perform(rt, Call::TakeBack);
        self.second.perform(rt, Call::TakeBack);
        let _taken = self.waiting.try_next();
        if let Some(subscription) = leaving {
            subscription.cancel(rt);
        }
        found == Ok(1) && is_woken
    }

    fn end(self, rt: &impl Wait) {
        let Scene {
            flow,
            first,
            second,
            waiting,
            parker: _,
        } = self;
        waiting.cancel(rt);
        first.leave(rt);
        second.leave(rt);
        drop(flow);
    }
}

// Whichever look finds the value, before the thread would sleep or after it was woken, with the lock or without it. Most of these are
// made while it looks on.
#[test]
fn each_look_of_one_that_waits_helps(rt: HostRuntime) {
    let mut scene = Scene::new(&rt);
    let mut count: u64 = 0;
    for _ in 0..TRIES {
        if scene.is_second_woken(&rt) {
            count = count.saturating_add(1);
        }
    }
    scene.end(&rt);
    assert_same(&rt, "woken by a receipt", count, TRIES);
}
