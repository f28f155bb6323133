//! The parties on the flow for threads.

use crate::calls::{Answer, Block, Call, Party, ROOM, Stage, values_from};
use crate::schedules::{Engine, Schedule, play_on};
use crate::story::{Story, Wrong};
use futures::task::Poll;
use futures::test::MockTask;
use shared_core::{Begun, Tried, Withdrawn};
use shared_flow::{Emitter, Receipt, SharedFlow, Subscription, Taken};
use std::alloc::AllocGlobal;
use std::sync::Wait;

/// Makes flows for threads. One task polls all that is polled.
#[derive(Drop)]
pub struct Flows<'a, R> {
    pub rt: &'a R,
    pub task: &'a MockTask,
}

// The number of a receipt, which has to be of the emitter with this id.
fn told(id: u32, receipt: &Receipt) -> Answer {
    if receipt.emitter() == id {
        Answer::Told(receipt.number())
    } else {
        Answer::Other
    }
}

fn attempt(rt: &impl Wait, id: u32, emitter: &mut Emitter<u64>, value: u64) -> Answer {
    if emitter.in_flight() {
        return Answer::Other;
    }
    match emitter.try_emit(rt, value) {
        Ok(Tried::Accepted(receipt)) => told(id, &receipt),
        Ok(_) => Answer::Refused,
        Err(_) => Answer::Other,
    }
}

fn attempt_all(rt: &impl Wait, emitter: &mut Emitter<u64>, first: u64, size: u64) -> Answer {
    let values = values_from(first);
    let Some(block) = values.get(..size as usize) else {
        return Answer::Other;
    };
    if emitter.in_flight() {
        return Answer::Other;
    }
    match emitter.try_emit_all(rt, block) {
        Ok(accepted) => Answer::Accepted(accepted),
        Err(_) => Answer::Other,
    }
}

fn emit(rt: &impl Wait, id: u32, emitter: &mut Emitter<u64>, value: u64) -> Answer {
    if emitter.in_flight() {
        return Answer::Other;
    }
    match emitter.start_emit(rt, value) {
        Ok(Begun::Accepted(receipt)) => told(id, &receipt),
        Ok(Begun::Dropped) => Answer::Refused,
        Ok(Begun::Waiting(())) => Answer::Waiting,
        Err(_) => Answer::Other,
    }
}

fn take_back(rt: &impl Wait, id: u32, emitter: &mut Emitter<u64>) -> Answer {
    match emitter.cancel_emit(rt) {
        Withdrawn::Left(receipt) => told(id, &receipt),
        Withdrawn::Removed => Answer::Removed,
        Withdrawn::Gone => Answer::Other,
    }
}

fn take(subscription: &mut Subscription<u64>) -> Answer {
    match subscription.try_next() {
        Taken::Value(value) => Answer::Value(value),
        Taken::Nothing => Answer::Nothing,
        Taken::Overtaken => Answer::Other,
    }
}

fn take_all(subscription: &mut Subscription<u64>, out: &mut Vec<u64>) -> Answer {
    out.clear();
    match subscription.try_next_all(out) {
        Taken::Value(_) => Answer::Values(Block::of(out)),
        Taken::Nothing => Answer::Nothing,
        Taken::Overtaken => Answer::Other,
    }
}

fn leave(rt: &impl Wait, place: Option<Subscription<u64>>) -> Answer {
    match place {
        Some(subscription) => {
            subscription.cancel(rt);
            Answer::Ended
        }
        None => Answer::Other,
    }
}

impl<R: Wait> Flows<'_, R> {
    fn ask(&self, id: u32, emitter: &mut Emitter<u64>) -> Answer {
        let polled = self.task.enter(|cx| {
            if !emitter.in_flight() {
                return None;
            }
            Some(emitter.poll_emit(self.rt, cx))
        });
        match polled {
            None => Answer::Other,
            Some(Poll::Pending) => Answer::Waiting,
            Some(Poll::Ready(receipt)) => told(id, &receipt),
        }
    }

    fn send(&self, id: u32, emitter: &mut Emitter<u64>, call: Call) -> Answer {
        match call {
            Call::Try(value) => attempt(self.rt, id, emitter, value),
            Call::TryAll(first, size) => attempt_all(self.rt, emitter, first, size),
            Call::Emit(value) => emit(self.rt, id, emitter, value),
            Call::Ask => self.ask(id, emitter),
            Call::TakeBack => take_back(self.rt, id, emitter),
            _ => Answer::Other,
        }
    }

    // By a poll, or without the lock.
    fn receive(
        &self,
        subscription: &mut Subscription<u64>,
        out: &mut Vec<u64>,
        call: Call,
    ) -> Answer {
        if call == Call::Take {
            return take(subscription);
        }
        if call == Call::TakeAll {
            return take_all(subscription, out);
        }
        match self.task.enter(|cx| subscription.poll_next(self.rt, cx)) {
            Poll::Ready(value) => Answer::Value(value),
            Poll::Pending => Answer::Nothing,
        }
    }

    fn subscribe(
        &self,
        flow: &mut SharedFlow<u64>,
        place: &mut Option<Subscription<u64>>,
    ) -> Answer {
        let Ok(subscription) = flow.subscribe(self.rt) else {
            return Answer::Other;
        };
        let start = subscription.start();
        match place.replace(subscription) {
            None => Answer::Began(Some(start)),
            Some(before) => {
                before.cancel(self.rt);
                Answer::Other
            }
        }
    }

    fn hear(
        &self,
        flow: &mut SharedFlow<u64>,
        place: &mut Option<Subscription<u64>>,
        out: &mut Vec<u64>,
        call: Call,
    ) -> Answer {
        match call {
            Call::Subscribe => self.subscribe(flow, place),
            Call::Cancel => leave(self.rt, place.take()),
            _ => match place {
                Some(subscription) => self.receive(subscription, out, call),
                None => Answer::Other,
            },
        }
    }
}

struct OnFlow<'a, R> {
    flows: &'a Flows<'a, R>,
    flow: SharedFlow<u64>,
    first: Emitter<u64>,
    second: Emitter<u64>,
    a: Option<Subscription<u64>>,
    b: Option<Subscription<u64>>,
    /// Room for a block of receipts.
    out: Vec<u64>,
}

impl<R: Wait> Stage for OnFlow<'_, R> {
    fn perform(&mut self, party: Party, call: Call) -> Answer {
        match party {
            Party::First => self.flows.send(1, &mut self.first, call),
            Party::Second => self.flows.send(2, &mut self.second, call),
            Party::A => self
                .flows
                .hear(&mut self.flow, &mut self.a, &mut self.out, call),
            Party::B => self
                .flows
                .hear(&mut self.flow, &mut self.b, &mut self.out, call),
        }
    }
}

impl<R: Wait> OnFlow<'_, R> {
    // Ends all that is there.
    fn leave(self) {
        let OnFlow {
            flows,
            flow: _,
            first,
            second,
            a,
            b,
            out: _,
        } = self;
        leave(flows.rt, a);
        leave(flows.rt, b);
        first.close(flows.rt);
        second.close(flows.rt);
    }
}

impl<R: Wait + AllocGlobal> Engine for Flows<'_, R> {
    fn play(&self, schedule: &Schedule) -> Result<(), Wrong> {
        let Ok(mut flow) = SharedFlow::new(self.rt.alloc(), schedule.config) else {
            return Err(Wrong::NotMade);
        };
        let Ok(out) = Vec::with_capacity(self.rt.alloc(), ROOM) else {
            return Err(Wrong::NoMemory);
        };
        let Ok(first) = flow.emitter(1) else {
            return Err(Wrong::NotMade);
        };
        let Ok(second) = flow.emitter(2) else {
            first.close(self.rt);
            return Err(Wrong::NotMade);
        };
        let mut stage = OnFlow {
            flows: self,
            flow,
            first,
            second,
            a: None,
            b: None,
            out,
        };
        let mut story = Story::new(self.rt.alloc(), schedule.config);
        let played = play_on(&mut stage, &mut story, schedule);
        stage.leave();
        played
    }
}
