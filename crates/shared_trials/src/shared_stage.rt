//! A shared flow with three emitters and two subscriptions, whose calls are made line by line.

ghost use Rattle.std.specs.Prelude.{◌≡◌, ⊤};

use cold_flow::{Policy, Refusal};
use futures::task::Poll;
use futures::test::MockTask;
use shared_core::{Begun, Config, Tried, Withdrawn};
use shared_flow::{Emitter, Receipt, SharedFlow, Subscription, Taken};
use std::alloc::{AllocError, AllocGlobal};
use std::process::Abort;
use std::random::RandomSource;
use std::sync::Wait;

/// Who makes a call: the owner of the flow, an emitter, or a subscription.
#[derive(Copy)]
pub enum Party {
    Owner,
    First,
    Second,
    Third,
    A,
    B,
}

impl Clone for Party {
    ghost is_clone = { λ it copy. copy ≡ it };

    ghost is_infallible = { λ _. ⊤ };

    fn clone(&self) -> Result<Self, AllocError> {
        Ok(*self)
    }
}

/// A call of the owner, of an emitter, or of a subscription.
#[derive(Copy)]
pub enum Call {
    Reset,
    Count,
    Try(u64),
    Emit(u64),
    Ask,
    TakeBack,
    /// An emitter's end.
    Close,
    Subscribe,
    Next,
    /// A `try_next`, for which no lock is taken.
    Take,
    /// A subscription's start, and how many values it received and lost.
    Counts,
    Cancel,
}

impl Clone for Call {
    ghost is_clone = { λ it copy. copy ≡ it };

    ghost is_infallible = { λ _. ⊤ };

    fn clone(&self) -> Result<Self, AllocError> {
        Ok(*self)
    }
}

/// What a call answered.
#[derive(Copy, Debug, PartialEq)]
pub enum Answer {
    Accepted(u64),
    Dropped,
    Full,
    Waiting,
    Done(u64),
    Value(u64),
    Pending,
    Nothing,
    Overtaken,
    Removed,
    Left(u64),
    Gone,
    Refused(u8),
    Reset,
    Count(u32),
    Subscribed,
    Counts(u64, u64, u64),
    Cancelled,
    // The receipt was another emitter's.
    Foreign,
    // Nobody has such a call, or it may not be made now.
    NotMade,
}

impl Clone for Answer {
    ghost is_clone = { λ it copy. copy ≡ it };

    ghost is_infallible = { λ _. ⊤ };

    fn clone(&self) -> Result<Self, AllocError> {
        Ok(*self)
    }
}

/// A call, and what it has to answer.
pub type Line = (Party, Call, Answer);

/// A config with 8 subscribers and 8 emissions in flight, and numbers from 0 on.
pub(crate) fn config(replay: u64, extra: u64, policy: Policy) -> Config {
    Config {
        replay,
        extra,
        policy,
        subscribers: 8,
        emits: 8,
        first: 0,
    }
}

/// A task that is polled by hand, and how often it was woken.
#[derive(Drop)]
pub struct Watcher {
    task: MockTask,
    wakes: u32,
}

impl Watcher {
    pub(crate) fn new<R: Abort + RandomSource + AllocGlobal>(rt: &R) -> Watcher {
        let task = MockTask::new(rt).expect(rt, "a task");
        task.enter(|_| ());
        Watcher { task, wakes: 0 }
    }

    /// How often it was woken so far. Nobody is woken twice by one call, so it is asked after each.
    pub(crate) fn wakes(&mut self) -> u32 {
        if self.task.is_woken() {
            self.task.enter(|_| ());
            self.wakes = self.wakes.saturating_add(1);
        }
        self.wakes
    }
}

/// An emitter up to its end, and the task that polls it.
pub struct Emitting {
    emitter: Option<Emitter<u64>>,
    id: u32,
    watcher: Watcher,
}

impl Emitting {
    pub(crate) fn new<R: Wait + Abort + RandomSource + AllocGlobal>(
        rt: &R,
        flow: &mut SharedFlow<u64>,
        id: u32,
    ) -> Emitting {
        Emitting {
            emitter: Some(flow.emitter(id).expect(rt, "an emitter")),
            id,
            watcher: Watcher::new(rt),
        }
    }

    pub(crate) fn perform(&mut self, rt: &impl Wait, call: Call) -> Answer {
        match call {
            Call::Ask => self.ask(rt),
            Call::Close => self.close(rt),
            _ => match &mut self.emitter {
                Some(emitter) => made(rt, emitter, self.id, call),
                None => Answer::NotMade,
            },
        }
    }

    /// How often its task was woken so far.
    pub(crate) fn wakes(&mut self) -> u32 {
        self.watcher.wakes()
    }

    fn ask(&mut self, rt: &impl Wait) -> Answer {
        let Some(emitter) = &mut self.emitter else {
            return Answer::NotMade;
        };
        let polled = self.watcher.task.enter(|cx| {
            if !emitter.in_flight() {
                return None;
            }
            Some(emitter.poll_emit(rt, cx))
        });
        match polled {
            None => Answer::NotMade,
            Some(Poll::Pending) => Answer::Pending,
            Some(Poll::Ready(receipt)) => {
                received(&receipt, self.id, Answer::Done(receipt.number()))
            }
        }
    }

    /// Ends the emitter, and says what became of its emission.
    pub(crate) fn close(&mut self, rt: &impl Wait) -> Answer {
        match self.emitter.take() {
            Some(emitter) => withdrawn(emitter.close(rt), self.id),
            None => Answer::NotMade,
        }
    }

    /// Ends the emitter, where it hasn't ended before.
    pub(crate) fn leave(self, rt: &impl Wait) {
        let Emitting {
            emitter,
            id: _,
            watcher: _,
        } = self;
        if let Some(emitter) = emitter {
            emitter.close(rt);
        }
    }
}

// The answer with the number of a receipt, which has to be that of the emitter with this id.
fn received(receipt: &Receipt, id: u32, answer: Answer) -> Answer {
    if receipt.emitter() == id {
        answer
    } else {
        Answer::Foreign
    }
}

/// What became of an emission of the emitter with this id.
pub(crate) fn withdrawn(withdrawn: Withdrawn<Receipt>, id: u32) -> Answer {
    match withdrawn {
        Withdrawn::Removed => Answer::Removed,
        Withdrawn::Left(receipt) => received(&receipt, id, Answer::Left(receipt.number())),
        Withdrawn::Gone => Answer::Gone,
    }
}

fn tried(tried: Result<Tried<Receipt>, Refusal>, id: u32) -> Answer {
    match tried {
        Ok(Tried::Accepted(receipt)) => received(&receipt, id, Answer::Accepted(receipt.number())),
        Ok(Tried::Dropped) => Answer::Dropped,
        Ok(Tried::Full) => Answer::Full,
        Err(refusal) => Answer::Refused(refusal.number()),
    }
}

fn begun(begun: Result<Begun<Receipt, ()>, Refusal>, id: u32) -> Answer {
    match begun {
        Ok(Begun::Accepted(receipt)) => received(&receipt, id, Answer::Accepted(receipt.number())),
        Ok(Begun::Dropped) => Answer::Dropped,
        Ok(Begun::Waiting(())) => Answer::Waiting,
        Err(refusal) => Answer::Refused(refusal.number()),
    }
}

// A call of an emitter for which no task is needed.
fn made(rt: &impl Wait, emitter: &mut Emitter<u64>, id: u32, call: Call) -> Answer {
    if let Call::TakeBack = call {
        return withdrawn(emitter.cancel_emit(rt), id);
    }
    if emitter.in_flight() {
        return Answer::NotMade;
    }
    match call {
        Call::Try(value) => tried(emitter.try_emit(rt, value), id),
        Call::Emit(value) => begun(emitter.start_emit(rt, value), id),
        _ => Answer::NotMade,
    }
}

/// A subscription, where there is one, and the task that polls it.
pub struct Listening {
    subscription: Option<Subscription<u64>>,
    watcher: Watcher,
}

impl Listening {
    pub(crate) fn new<R: Abort + RandomSource + AllocGlobal>(rt: &R) -> Listening {
        Listening {
            subscription: None,
            watcher: Watcher::new(rt),
        }
    }

    pub(crate) fn perform(
        &mut self,
        rt: &impl Wait,
        flow: &mut SharedFlow<u64>,
        call: Call,
    ) -> Answer {
        match call {
            Call::Subscribe => self.subscribe(rt, flow),
            Call::Next => self.next(rt),
            Call::Take => self.take(),
            Call::Counts => self.counts(),
            Call::Cancel => self.cancel(rt),
            _ => Answer::NotMade,
        }
    }

    fn subscribe(&mut self, rt: &impl Wait, flow: &mut SharedFlow<u64>) -> Answer {
        if self.subscription.is_some() {
            return Answer::NotMade;
        }
        match flow.subscribe(rt) {
            Err(refusal) => Answer::Refused(refusal.number()),
            Ok(subscription) => {
                if let Some(before) = self.subscription.replace(subscription) {
                    before.cancel(rt);
                }
                Answer::Subscribed
            }
        }
    }

    pub(crate) fn next(&mut self, rt: &impl Wait) -> Answer {
        let Some(subscription) = &mut self.subscription else {
            return Answer::NotMade;
        };
        match self.watcher.task.enter(|cx| subscription.poll_next(rt, cx)) {
            Poll::Ready(value) => Answer::Value(value),
            Poll::Pending => Answer::Pending,
        }
    }

    /// Takes a value without the lock.
    pub(crate) fn take(&mut self) -> Answer {
        let Some(subscription) = &mut self.subscription else {
            return Answer::NotMade;
        };
        match subscription.try_next() {
            Taken::Value(value) => Answer::Value(value),
            Taken::Nothing => Answer::Nothing,
            Taken::Overtaken => Answer::Overtaken,
        }
    }

    fn counts(&self) -> Answer {
        match &self.subscription {
            Some(it) => Answer::Counts(it.start(), it.received(), it.dropped()),
            None => Answer::NotMade,
        }
    }

    fn cancel(&mut self, rt: &impl Wait) -> Answer {
        match self.subscription.take() {
            None => Answer::NotMade,
            Some(subscription) => {
                subscription.cancel(rt);
                Answer::Cancelled
            }
        }
    }

    /// Ends the subscription, where there is one.
    pub(crate) fn leave(self, rt: &impl Wait) {
        let Listening {
            subscription,
            watcher: _,
        } = self;
        if let Some(subscription) = subscription {
            subscription.cancel(rt);
        }
    }
}

/// A flow, its emitters with the ids 1, 2 and 7, of which the third is of another owner, and two subscriptions, which begin with
/// `Subscribe`.
pub struct Stage {
    pub flow: SharedFlow<u64>,
    other: SharedFlow<u64>,
    pub first: Emitting,
    second: Emitting,
    third: Emitting,
    pub a: Listening,
    b: Listening,
}

impl Stage {
    pub(crate) fn new<R: Wait + Abort + RandomSource + AllocGlobal>(
        rt: &R,
        config: Config,
    ) -> Stage {
        let mut flow = SharedFlow::new(rt.alloc(), config).expect(rt, "a flow");
        let mut other = flow.dup().expect(rt, "another owner");
        Stage {
            first: Emitting::new(rt, &mut flow, 1),
            second: Emitting::new(rt, &mut flow, 2),
            third: Emitting::new(rt, &mut other, 7),
            a: Listening::new(rt),
            b: Listening::new(rt),
            flow,
            other,
        }
    }

    fn manage(&mut self, rt: &impl Wait, call: Call) -> Answer {
        match call {
            Call::Reset => {
                self.flow.reset_replay(rt);
                Answer::Reset
            }
            Call::Count => Answer::Count(self.flow.subscription_count(rt)),
            _ => Answer::NotMade,
        }
    }

    fn perform(&mut self, rt: &impl Wait, party: Party, call: Call) -> Answer {
        match party {
            Party::Owner => self.manage(rt, call),
            Party::First => self.first.perform(rt, call),
            Party::Second => self.second.perform(rt, call),
            Party::Third => self.third.perform(rt, call),
            Party::A => self.a.perform(rt, &mut self.flow, call),
            Party::B => self.b.perform(rt, &mut self.flow, call),
        }
    }

    // How often A, B, First, Second and Third were woken so far.
    fn wakes(&mut self) -> [u32; 5] {
        [
            self.a.watcher.wakes(),
            self.b.watcher.wakes(),
            self.first.wakes(),
            self.second.wakes(),
            self.third.wakes(),
        ]
    }

    /// The number of the first line that was answered otherwise, or of all lines where none was.
    pub(crate) fn play(&mut self, rt: &impl Wait, lines: &[Line]) -> usize {
        for (number, line) in lines.iter().enumerate() {
            let (party, call, answer) = *line;
            if self.perform(rt, party, call) != answer {
                return number;
            }
        }
        lines.len()
    }

    /// The same, where after each line the wakes of A, B, First, Second and Third so far are compared too.
    pub(crate) fn watch(&mut self, rt: &impl Wait, lines: &[(Line, [u32; 5])]) -> usize {
        for (number, line) in lines.iter().enumerate() {
            let ((party, call, answer), wakes) = *line;
            if self.perform(rt, party, call) != answer || self.wakes() != wakes {
                return number;
            }
        }
        lines.len()
    }

    /// Whether the replay cache has these values.
    pub(crate) fn caches<R: Wait + AllocGlobal>(&mut self, rt: &R, values: &[u64]) -> bool {
        caches(rt, &mut self.flow, values)
    }

    /// Ends all.
    pub(crate) fn leave(self, rt: &impl Wait) {
        let Stage {
            flow: _,
            other: _,
            first,
            second,
            third,
            a,
            b,
        } = self;
        a.leave(rt);
        b.leave(rt);
        first.leave(rt);
        second.leave(rt);
        third.leave(rt);
    }
}

/// Whether a flow's replay cache has these values.
pub(crate) fn caches<R: Wait + AllocGlobal>(
    rt: &R,
    flow: &mut SharedFlow<u64>,
    values: &[u64],
) -> bool {
    let mut cache = Vec::new(rt.alloc());
    flow.replay_cache_into(rt, &mut cache).is_ok() && cache.as_slice() == values
}
