//! A shared flow for threads, on one thread, by the calls of one on one thread: what a receipt makes room for is accepted at once.

use crate::body_rows::Body;
use cold_flow::Refusal;
use futures::task::Poll;
use futures::test::MockTask;
use shared_core::{
    Begun, Call, Config, Emit, Next, Prelude, Reply, SubId, Ticket, Tried, Withdrawn,
};
use shared_flow::{Emitter, Receipt, SharedFlow, Subscription, Taken};
use std::alloc::AllocGlobal;
use std::sync::Wait;

/// A shared flow with its parties. It must be ended.
pub(crate) struct FlowBody<'a, R> {
    rt: &'a R,
    /// The task that polls.
    task: &'a MockTask,
    flow: SharedFlow<u64>,
    /// The number of the first subscription, and of the first ticket.
    first: u64,
    /// An emitter for each ticket that was given, while that is out.
    emitters: Vec<Option<Emitter<u64>>>,
    /// The subscriptions that were made, each while it is live.
    subscriptions: Vec<Option<Subscription<u64>>>,
}

fn attempted(rt: &impl Wait, emitter: &mut Emitter<u64>, value: u64) -> Option<Reply<u64>> {
    if emitter.in_flight() {
        return None;
    }
    Some(Reply::Tried(match emitter.try_emit(rt, value) {
        Ok(Tried::Accepted(receipt)) => Ok(Tried::Accepted(receipt.number())),
        Ok(Tried::Dropped) => Ok(Tried::Dropped),
        Ok(Tried::Full) => Ok(Tried::Full),
        Err(refusal) => Err(refusal),
    }))
}

// What an emission comes to that is begun. Where it waits its ticket is this one.
fn begun(
    rt: &impl Wait,
    emitter: &mut Emitter<u64>,
    value: u64,
    ticket: Ticket,
) -> Option<Reply<u64>> {
    if emitter.in_flight() {
        return None;
    }
    Some(Reply::Begun(match emitter.start_emit(rt, value) {
        Ok(Begun::Accepted(receipt)) => Ok(Begun::Accepted(receipt.number())),
        Ok(Begun::Dropped) => Ok(Begun::Dropped),
        Ok(Begun::Waiting(())) => Ok(Begun::Waiting(ticket)),
        Err(refusal) => Err(refusal),
    }))
}

fn attempted_all(
    rt: &impl Wait,
    emitter: &mut Emitter<u64>,
    values: &[u64],
) -> Result<u64, Refusal> {
    if emitter.in_flight() {
        return Ok(0);
    }
    emitter.try_emit_all(rt, values)
}

fn withdrawn(withdrawn: Withdrawn<Receipt>) -> Withdrawn<u64> {
    match withdrawn {
        Withdrawn::Removed => Withdrawn::Removed,
        Withdrawn::Left(receipt) => Withdrawn::Left(receipt.number()),
        Withdrawn::Gone => Withdrawn::Gone,
    }
}

// On one thread nobody is overtaken: that is an answer which the lists never give.
fn next_of(taken: Taken<u64>) -> Next<u64> {
    match taken {
        Taken::Value(value) => Next::Value(value),
        Taken::Nothing => Next::Nothing,
        Taken::Overtaken => Next::Closed,
    }
}

impl<'a, R: Wait + AllocGlobal> FlowBody<'a, R> {
    pub(crate) fn new(
        rt: &'a R,
        task: &'a MockTask,
        config: Config,
    ) -> Result<FlowBody<'a, R>, Refusal> {
        Ok(FlowBody {
            rt,
            task,
            flow: SharedFlow::new(rt.alloc(), config)?,
            first: config.first,
            emitters: Vec::new(rt.alloc()),
            subscriptions: Vec::new(rt.alloc()),
        })
    }

    // Where the subscription or the ticket with this number is, if it was made.
    fn index(&self, number: u64) -> usize {
        number.saturating_sub(self.first) as usize
    }

    fn attempt(&mut self, id: u32, value: u64) -> Option<Reply<u64>> {
        let Ok(mut emitter) = self.flow.emitter(id) else {
            return None;
        };
        let reply = attempted(self.rt, &mut emitter, value);
        emitter.close(self.rt);
        reply
    }

    fn start(&mut self, id: u32, value: u64) -> Option<Reply<u64>> {
        let Ok(mut emitter) = self.flow.emitter(id) else {
            return None;
        };
        let ticket = Ticket(self.first.saturating_add(self.emitters.len() as u64));
        let reply = begun(self.rt, &mut emitter, value, ticket);
        if !emitter.in_flight() {
            emitter.close(self.rt);
            return reply;
        }
        if let Err(refused) = self.emitters.push(Some(emitter)) {
            leave(self.rt, refused.value);
            return None;
        }
        reply
    }

    fn poll(&mut self, ticket: Ticket) -> Emit {
        let index = self.index(ticket.0);
        let Some(place) = self.emitters.get_mut(index) else {
            return Emit::Gone;
        };
        let Some(emitter) = place else {
            return Emit::Gone;
        };
        let rt = self.rt;
        let polled = self.task.enter(|cx| {
            if !emitter.in_flight() {
                return None;
            }
            Some(emitter.poll_emit(rt, cx))
        });
        match polled {
            None => Emit::Gone,
            Some(Poll::Pending) => Emit::Waiting,
            Some(Poll::Ready(receipt)) => {
                leave(rt, place.take());
                Emit::Done(receipt.number())
            }
        }
    }

    fn withdraw(&mut self, ticket: Ticket) -> Withdrawn<u64> {
        let index = self.index(ticket.0);
        let Some(place) = self.emitters.get_mut(index) else {
            return Withdrawn::Gone;
        };
        match place.take() {
            Some(emitter) => withdrawn(emitter.close(self.rt)),
            None => Withdrawn::Gone,
        }
    }

    fn subscribe(&mut self, prelude: Prelude<u64>) -> Option<Reply<u64>> {
        let number = self.first.saturating_add(self.subscriptions.len() as u64);
        match self.flow.subscribe_with(self.rt, prelude) {
            Ok(subscription) => match self.subscriptions.push(Some(subscription)) {
                Ok(()) => Some(Reply::Sub(Ok(SubId(number)))),
                Err(refused) => {
                    cancel(self.rt, refused.value);
                    None
                }
            },
            Err(refusal) => Some(Reply::Sub(Err(refusal))),
        }
    }

    fn next(&mut self, id: SubId) -> Next<u64> {
        let index = self.index(id.0);
        let Some(place) = self.subscriptions.get_mut(index) else {
            return Next::Closed;
        };
        let Some(subscription) = place else {
            return Next::Closed;
        };
        let rt = self.rt;
        match self.task.enter(|cx| subscription.poll_next(rt, cx)) {
            Poll::Ready(value) => Next::Value(value),
            Poll::Pending => Next::Nothing,
        }
    }

    fn cancel(&mut self, id: SubId) -> bool {
        let index = self.index(id.0);
        match self.subscriptions.get_mut(index) {
            Some(place) => cancel(self.rt, place.take()),
            None => false,
        }
    }

    /// Ends all parties.
    pub(crate) fn end(self) {
        let FlowBody {
            rt,
            task: _,
            flow: _,
            first: _,
            emitters,
            subscriptions,
        } = self;
        cancel_all(rt, subscriptions);
        leave_all(rt, emitters);
    }
}

// Ends an emitter, where there is one.
fn leave(rt: &impl Wait, place: Option<Emitter<u64>>) {
    if let Some(emitter) = place {
        emitter.close(rt);
    }
}

// Ends a subscription that is live. Answers whether it was.
fn cancel(rt: &impl Wait, place: Option<Subscription<u64>>) -> bool {
    match place {
        Some(subscription) => {
            subscription.cancel(rt);
            true
        }
        None => false,
    }
}

fn leave_all(rt: &impl Wait, mut emitters: Vec<Option<Emitter<u64>>>) {
    while let Some(place) = emitters.pop() {
        leave(rt, place);
    }
    emitters.destroy_empty();
}

fn cancel_all(rt: &impl Wait, mut subscriptions: Vec<Option<Subscription<u64>>>) {
    while let Some(place) = subscriptions.pop() {
        cancel(rt, place);
    }
    subscriptions.destroy_empty();
}

impl<R: Wait + AllocGlobal> Body for FlowBody<'_, R> {
    fn make(&mut self, call: Call<u64>) -> Option<Reply<u64>> {
        match call {
            Call::Try(id, value) => self.attempt(id, value),
            Call::Start(id, value) => self.start(id, value),
            Call::Poll(ticket) => Some(Reply::Emit(self.poll(ticket))),
            Call::Withdraw(ticket) => Some(Reply::Withdrawn(self.withdraw(ticket))),
            Call::Subscribe => self.subscribe(Prelude::empty()),
            Call::SubscribeWith(prelude) => self.subscribe(prelude),
            Call::Next(id) => Some(Reply::Next(self.next(id))),
            Call::Cancel(id) => Some(Reply::Cancelled(self.cancel(id))),
            Call::Reset => {
                self.flow.reset_replay(self.rt);
                Some(Reply::Reset)
            }
            Call::Count => Some(Reply::Count(self.flow.subscription_count(self.rt))),
        }
    }

    fn try_all(&mut self, emitter: u32, values: &[u64]) -> Result<u64, Refusal> {
        let mut emitter = self.flow.emitter(emitter)?;
        let answer = attempted_all(self.rt, &mut emitter, values);
        emitter.close(self.rt);
        answer
    }

    // What the values of one block make room for may be in the next.
    fn next_all(&mut self, id: SubId, out: &mut Vec<u64>) -> Next<u64> {
        let index = self.index(id.0);
        let Some(place) = self.subscriptions.get_mut(index) else {
            return Next::Closed;
        };
        let Some(subscription) = place else {
            return Next::Closed;
        };
        let mut taken: u64 = 0;
        for _ in 0..out.capacity() {
            match next_of(subscription.try_next_all(out)) {
                Next::Value(count) if count > 0 => taken = taken.saturating_add(count),
                none if taken == 0 => return none,
                _ => break,
            }
            // What waits is accepted by a call that takes the lock.
            let _live = self.flow.subscription_count(self.rt);
        }
        Next::Value(taken)
    }

    fn caches(&mut self, values: &[u64]) -> bool {
        let mut cache = Vec::new(self.rt.alloc());
        let is_told = self.flow.replay_cache_into(self.rt, &mut cache).is_ok();
        is_told && cache.as_slice() == values
    }
}
