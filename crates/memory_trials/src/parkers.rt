//! What a parker has of memory after many waits that ended while the thread looked on, so that the turn which each began with was
//! never taken: as much as after the first of them. No contract says that turns don't pile up.

use crate::pages::pages;
use flow_stopping::{Received, StoppableParker};
use shared_core::{Config, Policy};
use shared_flow::{Emitter, Parker, Refusal, SharedFlow, Subscription};
use std::alloc::AllocGlobal;
use std::process::Abort;
use std::rt::Files;
use std::sync::Wait;
use std::test::Fail;
use std::thread;
use std::time::{Clock, Duration, Instant};

/// How many waits there are before the first count, and between both; fewer, where the machine has so much else to do that it is late.
const FIRST: u64 = 1_000;

const WAITS: u64 = 100_000;

/// After so many seconds it is late: a thread that looks on has to share its processor, and each answer takes milliseconds.
const LATE: u64 = 20;

/// What is asked last, and not answered.
const END: u64 = u64::MAX;

/// How many pages more may come in between. Turns that piled up would need twice as many, if every second wait left one.
const FEW: u64 = 64;

/// One value may be pending.
const CONFIG: Config = Config {
    replay: 0,
    extra: 1,
    policy: Policy::Suspend,
    subscribers: 1,
    emits: 1,
    first: 0,
};

/// Who says values on one flow and hears those of another, in a thread of its own.
struct Side {
    emitter: Emitter<u64>,
    subscription: Subscription<u64>,
}

impl Side {
    fn of<R: Wait + Abort>(
        rt: &R,
        says: &mut SharedFlow<u64>,
        hears: &mut SharedFlow<u64>,
    ) -> Side {
        let subscription = hears.subscribe(rt).expect(rt, "a subscription");
        let emitter = says.emitter(1).expect(rt, "an emitter");
        Side {
            emitter,
            subscription,
        }
    }

    // Says a value. It is accepted, since the other side has received the one before.
    fn say(&mut self, rt: &impl Wait, value: u64) {
        if !self.emitter.in_flight() {
            let _accepted = self.emitter.try_emit(rt, value);
        }
    }

    // Waits for the next value, once more where there was no memory to wait by.
    fn hear(&mut self, rt: &impl Wait, parker: &mut Parker) -> Result<u64, Refusal> {
        match self.subscription.next(rt, parker) {
            Ok(value) => Ok(value),
            Err(_) => self.subscription.next(rt, parker),
        }
    }

    // Asks so often, or until it is late, and waits for each answer. How many weren't the question.
    fn ask<R: Wait + Clock>(
        &mut self,
        rt: &R,
        parker: &mut Parker,
        times: u64,
        start: Instant,
    ) -> u64 {
        let mut wrong: u64 = 0;
        for question in 0..times {
            if question % 256 == 0 && is_late(rt, start) {
                break;
            }
            self.say(rt, question);
            if self.hear(rt, parker) != Ok(question) {
                wrong = wrong.saturating_add(1);
            }
        }
        wrong
    }

    // How many answers were wrong, and how many pages more the process has after the last ones than after the first.
    fn ask_and_count<R: Wait + Clock + Files + Abort + AllocGlobal>(
        &mut self,
        rt: &R,
        parker: &mut Parker,
    ) -> (u64, u64) {
        let start = Instant::now(rt).expect(rt, "the time");
        let first = self.ask(rt, parker, FIRST, start);
        let before = pages(rt);
        let last = self.ask(rt, parker, WAITS, start);
        let more = pages(rt).saturating_sub(before);
        self.say(rt, END);
        (first.saturating_add(last), more)
    }

    // Answers each question at once, up to the last: this side looks on all the time, so that the other one has hardly begun to wait.
    fn answer(&mut self, rt: &impl Wait) {
        for _ in rt.forever() {
            match self.subscription.next_now(rt) {
                Some(END) => return,
                Some(question) => self.say(rt, question),
                None => {}
            }
        }
        unreachable!()
    }

    fn end(self, rt: &impl Wait) {
        let Side {
            emitter,
            subscription,
        } = self;
        subscription.cancel(rt);
        emitter.close(rt);
    }
}

// Whether it is late, or the clock can't tell.
fn is_late(rt: &impl Clock, start: Instant) -> bool {
    match start.elapsed(rt) {
        Ok(passed) => passed >= Duration::from_secs(LATE),
        Err(_) => true,
    }
}

#[test]
fn turns_of_a_parker_do_not_pile_up(rt: HostRuntime) -> Result<(), Fail> {
    let mut questions = SharedFlow::new(rt.alloc(), CONFIG).expect(&rt, "a flow");
    let mut answers = SharedFlow::new(rt.alloc(), CONFIG).expect(&rt, "a flow");
    let mut parker = Parker::new(&rt).expect(&rt, "a parker");
    let mut asking = Side::of(&rt, &mut questions, &mut answers);
    let mut answering = Side::of(&rt, &mut answers, &mut questions);
    let ((wrong, more), ()) = thread::join(
        &rt,
        || asking.ask_and_count(&rt, &mut parker),
        || answering.answer(&rt),
    );
    asking.end(&rt);
    answering.end(&rt);
    assert_eq!(rt; wrong, 0);
    assert!(rt; more <= FEW, "{more} pages more");
    Ok(())
}

// Receives so many values, each of which is there as the wait begins. How many were right.
fn hear_at_once(rt: &impl Wait, side: &mut Side, parker: &mut StoppableParker, times: u64) -> u64 {
    let mut right: u64 = 0;
    for value in 0..times {
        side.say(rt, value);
        if let Ok(Received::Value(heard)) = parker.next(rt, &mut side.subscription) {
            if heard == value {
                right = right.saturating_add(1);
            }
        }
    }
    right
}

/// A parker that can be stopped begins to wait before its first look.
#[test]
fn turns_of_a_parker_that_can_be_stopped_do_not_pile_up(rt: HostRuntime) -> Result<(), Fail> {
    let mut flow = SharedFlow::new(rt.alloc(), CONFIG).expect(&rt, "a flow");
    let mut other = flow.dup().expect(&rt, "another owner");
    let (mut parker, _stopper) = StoppableParker::new(&rt).expect(&rt, "a parker");
    let mut side = Side::of(&rt, &mut flow, &mut other);
    let first = hear_at_once(&rt, &mut side, &mut parker, FIRST);
    let before = pages(&rt);
    let last = hear_at_once(&rt, &mut side, &mut parker, WAITS);
    let more = pages(&rt).saturating_sub(before);
    side.end(&rt);
    assert_eq!(rt; (first, last), (FIRST, WAITS));
    assert!(rt; more <= FEW, "{more} pages more");
    Ok(())
}
