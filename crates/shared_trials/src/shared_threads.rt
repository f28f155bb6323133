//! Emitters and subscriptions of a shared flow, lent to threads of their own and spent after the join. A thread sleeps until its
//! task is woken.

ghost use Rattle.futures.specs.Poll.{OnPending};
ghost use Rattle.futures.specs.Task.{IsArmed};

use crate::ledger::{Heard, Said};
use crate::shared_stage::config;
use crate::tools::assert_same;
use cold_flow::Policy;
use futures::task::{Context, Doorbell, Poll, Queue};
use hot_callers::passed_on;
use shared_core::{Begun, Withdrawn};
use shared_flow::{Emitter, Receipt, SharedFlow, Subscription, Taken};
use std::alloc::AllocGlobal;
use std::process::Abort;
use std::random::RandomSource;
use std::sync::Wait;
use std::sync::atomic::{AtomicBool, AtomicU64, AtomicUsize, Ordering};
use std::test::Fail;
use std::thread::{Threads, for_each_mut, yield_now};

/// How often a thread looks at most whether all others have come.
const LOOKS: u32 = 5_000_000;

/// How often each thread polls at most. It sleeps in between, so two polls for each value are enough.
const TURNS: u32 = 100_000;

/// How many threads there are at most.
const THREADS: usize = 8;

// A task that is ready to be polled.
fn task_of<R: Abort + RandomSource + AllocGlobal>(rt: &R) -> Queue {
    let task = Queue::new(rt, Doorbell::parking()).expect(rt, "a task");
    task.add().expect(rt, "a place in it").schedule();
    task
}

fn tasks_of<R>(rt: &R, count: usize) -> Result<Vec<Queue>, Fail>
where
    R: Abort + RandomSource + AllocGlobal,
{
    let mut tasks = Vec::new(rt.alloc());
    for _ in 0..count {
        tasks.push(task_of(rt))?;
    }
    Ok(tasks)
}

/// What the threads of a test share.
#[derive(Drop)]
struct Stage {
    /// A task for each thread.
    tasks: Vec<Queue>,
    /// How many threads have come.
    come: AtomicUsize,
    /// How many emitters still emit. After the last one no thread sleeps any more.
    emitting: AtomicU64,
    /// Whether the threads may begin.
    is_open: AtomicBool,
    /// Whether a subscription has left that had enough.
    has_left: AtomicBool,
}

impl Stage {
    fn new(tasks: Vec<Queue>, emitting: u64, is_open: bool) -> Stage {
        Stage {
            tasks,
            come: AtomicUsize::new(0),
            emitting: AtomicU64::new(emitting),
            is_open: AtomicBool::new(is_open),
            has_left: AtomicBool::new(false),
        }
    }

    // No thread sleeps any more.
    fn shut_down(&self) {
        for task in &self.tasks {
            task.shut_down();
        }
    }

    // Waits until all threads have come. Where one can't be had, a party is called after another, which would sleep for
    // good: no thread sleeps then.
    fn meet(&self) {
        self.come.fetch_add(1, Ordering::SeqCst);
        for _ in 0..LOOKS {
            if self.come.load(Ordering::SeqCst) >= self.tasks.len() {
                return;
            }
            yield_now();
        }
        self.come.store(self.tasks.len(), Ordering::SeqCst);
        self.shut_down();
    }

    // Waits until the threads may begin.
    fn wait(&self) {
        for _ in 0..TURNS {
            if self.is_open.load(Ordering::SeqCst) {
                return;
            }
            yield_now();
        }
    }

    // Polls until nothing is left to do, and sleeps after each poll that got nothing until the task is woken.
    //
    // Where it gives up, no thread sleeps any more, since what it waits for may never come.
    fn run<R: Wait>(&self, rt: &R, index: usize, party: &mut Party) {
        let Some(task) = self.tasks.get(index) else {
            return;
        };
        self.wait();
        for _ in 0..TURNS {
            if party.is_done(self) {
                return;
            }
            let Some(mut cx) = task.next(rt) else {
                return;
            };
            let polled = party.poll(rt, self, &mut cx);
            if polled.is_ready() {
                let _again: Poll<()> = cx.yield_now();
            }
            cx.park();
            if polled == Poll::Ready(false) {
                break;
            }
        }
        self.shut_down();
    }

    // Keeps the lock a while, so that those who want it wait for it together.
    fn keep_lock(&self, rt: &impl Wait, flow: &mut SharedFlow<u64>) {
        let held = flow.hold(rt);
        self.is_open.store(true, Ordering::SeqCst);
        for _ in 0..100 {
            yield_now();
        }
        held.release();
    }

    // What one thread does.
    fn enter<R: Wait>(&self, rt: &R, index: usize, party: &mut Party) {
        self.meet();
        match party {
            Party::Keeping(flow) => self.keep_lock(rt, flow),
            Party::Emitting(_) => {
                self.run(rt, index, party);
                if self.emitting.fetch_sub(1, Ordering::SeqCst) == 1 {
                    self.shut_down();
                }
            }
            Party::Listening(_) => self.run(rt, index, party),
        }
    }

    // Each party runs in a thread of its own.
    fn run_all<R: Wait + Threads + Sync>(&self, rt: &R, parties: &mut [Party]) {
        for_each_mut(
            rt,
            parties,
            THREADS,
            &|index, party: &mut Party| self.enter(rt, index, party),
        );
    }
}

/// What one that ran came to.
#[derive(Debug, Drop, PartialEq)]
struct Outcome {
    /// How many values were accepted for it, or received by it.
    count: u64,
    /// How many were dropped for it.
    dropped: u64,
    /// The numbers of its receipts rose, or the values of each emitter did, so that none came twice.
    rises: bool,
    /// No value of an emitter was missing before a later one.
    is_whole: bool,
    /// It did all that it had to, by itself.
    is_done: bool,
}

/// One that does all that it has to do and misses nothing.
fn all_of(count: u64) -> Outcome {
    Outcome {
        count,
        dropped: 0,
        rises: true,
        is_whole: true,
        is_done: true,
    }
}

/// What one that runs in a thread has to do.
enum Part {
    /// It emits values by the emitter with this id, at least so many.
    Emits(u32, u64),
    /// The same, and it goes on after that until a subscription has left.
    EmitsOn(u32, u64),
    /// It receives so many values.
    Receives(u64),
    /// It keeps the lock for a while.
    Keeps,
}

/// One that runs in a thread: it emits, receives, or keeps the lock.
enum Party {
    Emitting(Emitting),
    Listening(Listening),
    Keeping(SharedFlow<u64>),
}

impl Party {
    // One with this part, in a flow of this policy.
    fn of<R: Wait + Abort>(
        rt: &R,
        flow: &mut SharedFlow<u64>,
        part: &Part,
        policy: Policy,
    ) -> Party {
        match part {
            Part::Emits(id, least) => Emitting::party(rt, flow, *id, *least, policy, false),
            Part::EmitsOn(id, least) => Emitting::party(rt, flow, *id, *least, policy, true),
            Part::Receives(most) => Listening::party(rt, flow, *most),
            Part::Keeps => Party::Keeping(flow.dup().expect(rt, "another owner")),
        }
    }

    fn is_done(&self, stage: &Stage) -> bool {
        match self {
            Party::Emitting(emitting) => emitting.is_done(stage),
            Party::Listening(listening) => listening.subscription.is_none(),
            Party::Keeping(_) => true,
        }
    }

    // One poll. Ready where it got something, and whether that was right.
    fn poll<R: Wait>(&mut self, rt: &R, stage: &Stage, cx: &mut Context<'_>) -> Poll<bool>
        ensures { OnPending result (IsArmed cx.new) }
    {
        match self {
            Party::Emitting(emitting) => emitting.poll(rt, cx),
            Party::Listening(listening) => listening.poll(rt, stage, cx),
            Party::Keeping(_) => Poll::Ready(true),
        }
    }

    // Ends it, and says what it came to.
    fn end(self, rt: &impl Wait, stage: &Stage) -> Outcome {
        match self {
            Party::Emitting(emitting) => emitting.end(rt, stage),
            Party::Listening(listening) => listening.end(rt),
            Party::Keeping(_) => all_of(0),
        }
    }
}

/// An emitter. It emits rising values, at least so many.
struct Emitting {
    emitter: Emitter<u64>,
    said: Said,
    emitted: u64,
    least: u64,
    /// Whether it goes on after that until a subscription has left.
    goes_on: bool,
    /// Whether an emission may be dropped.
    drops: bool,
}

impl Emitting {
    fn party<R: Wait + Abort>(
        rt: &R,
        flow: &mut SharedFlow<u64>,
        id: u32,
        least: u64,
        policy: Policy,
        goes_on: bool,
    ) -> Party {
        Party::Emitting(Emitting {
            emitter: flow.emitter(id).expect(rt, "an emitter"),
            said: Said::by(id),
            emitted: 0,
            least,
            goes_on,
            drops: policy == Policy::DropLatest,
        })
    }

    fn is_done(&self, stage: &Stage) -> bool {
        self.emitted >= self.least && (!self.goes_on || stage.has_left.load(Ordering::SeqCst))
    }

    // The value is emitted. One that only goes on until a subscription has left gives that time.
    fn go_on(&mut self) {
        self.emitted = self.emitted.saturating_add(1);
        if self.emitted > self.least {
            for _ in 0..100 {
                yield_now();
            }
        }
    }

    // Takes the receipt of the value, and says whether the numbers rise so far.
    fn take(&mut self, receipt: &Receipt) -> bool {
        self.go_on();
        self.said.take(receipt)
    }

    fn poll<R: Wait>(&mut self, rt: &R, cx: &mut Context<'_>) -> Poll<bool>
        ensures { OnPending result (IsArmed cx.new) }
    {
        if !self.emitter.in_flight() {
            let value = self.said.value(self.emitted);
            match self.emitter.start_emit(rt, value) {
                Ok(Begun::Accepted(receipt)) => return Poll::Ready(self.take(&receipt)),
                Ok(Begun::Waiting(())) => {}
                Ok(Begun::Dropped) => {
                    self.go_on();
                    return Poll::Ready(self.drops);
                }
                Err(_) => return Poll::Ready(false),
            }
        }
        match self.emitter.poll_emit(rt, cx) {
            Poll::Ready(receipt) => Poll::Ready(self.take(&receipt)),
            Poll::Pending => Poll::Pending,
        }
    }

    fn end(self, rt: &impl Wait, stage: &Stage) -> Outcome {
        let is_done = self.is_done(stage);
        let Emitting {
            emitter,
            said,
            emitted,
            least: _,
            goes_on: _,
            drops: _,
        } = self;
        let is_idle = matches!(emitter.close(rt), Withdrawn::Gone);
        Outcome {
            count: said.accepted,
            dropped: emitted.saturating_sub(said.accepted),
            rises: said.rises,
            is_whole: true,
            is_done: is_done && is_idle,
        }
    }
}

/// A subscription, which ends by itself once it has so many values.
struct Listening {
    subscription: Option<Subscription<u64>>,
    most: u64,
    heard: Heard,
}

impl Listening {
    fn party<R: Wait + Abort>(rt: &R, flow: &mut SharedFlow<u64>, most: u64) -> Party {
        Party::Listening(Listening {
            subscription: Some(flow.subscribe(rt).expect(rt, "a subscription")),
            most,
            heard: Heard::nothing(),
        })
    }

    fn poll<R: Wait>(&mut self, rt: &R, stage: &Stage, cx: &mut Context<'_>) -> Poll<bool>
        ensures { OnPending result (IsArmed cx.new) }
    {
        let Some(subscription) = &mut self.subscription else {
            return Poll::Ready(true);
        };
        let Poll::Ready(value) = subscription.poll_next(rt, cx) else {
            return Poll::Pending;
        };
        let rises = self.heard.note(value);
        if self.heard.received >= self.most {
            self.leave(rt, stage);
        }
        Poll::Ready(rises)
    }

    fn leave(&mut self, rt: &impl Wait, stage: &Stage) {
        if let Some(subscription) = self.subscription.take() {
            subscription.cancel(rt);
        }
        stage.has_left.store(true, Ordering::SeqCst);
    }

    fn end(self, rt: &impl Wait) -> Outcome {
        let Listening {
            subscription,
            most: _,
            mut heard,
        } = self;
        let is_done = subscription.is_none();
        let dropped = match subscription {
            Some(subscription) => drained(rt, subscription, &mut heard),
            None => 0,
        };
        Outcome {
            count: heard.received,
            dropped,
            rises: heard.rises,
            is_whole: heard.is_whole,
            is_done,
        }
    }
}

// Takes what is pending, ends the subscription, and says how many values were dropped in all.
fn drained(rt: &impl Wait, mut subscription: Subscription<u64>, heard: &mut Heard) -> u64 {
    for _ in 0..TURNS {
        match subscription.try_next() {
            Taken::Value(value) => {
                heard.note(value);
            }
            Taken::Nothing => break,
            Taken::Overtaken => {}
        }
    }
    let dropped = subscription.dropped();
    subscription.cancel(rt);
    dropped
}

// One party for each part. One for which there is no place is ended.
fn joined<R: Wait + Abort + AllocGlobal>(
    rt: &R,
    stage: &Stage,
    flow: &mut SharedFlow<u64>,
    scene: &Scene<'_>,
) -> Vec<Party> {
    let mut parties = Vec::new(rt.alloc());
    for part in scene.parts {
        if let Err(refused) = parties.push(Party::of(rt, flow, part, scene.policy)) {
            refused.value.end(rt, stage);
        }
    }
    parties
}

// Ends each party, the last one first, and adds what it came to.
fn end_all<R: Wait + AllocGlobal>(rt: &R, stage: &Stage, mut parties: Vec<Party>) -> Vec<Outcome> {
    let mut outcomes = Vec::new(rt.alloc());
    while let Some(party) = parties.pop() {
        let _is_added = outcomes.push(party.end(rt, stage));
    }
    parties.destroy_empty();
    outcomes
}

/// Those that run on a new flow, each in a thread of its own. Where one keeps the lock, the others wait for it before they begin.
#[derive(Drop)]
struct Scene<'a> {
    name: &'a str,
    extra: u64,
    policy: Policy,
    is_open: bool,
    parts: &'a [Part],
}

// What each party of a scene came to, the last one first, and how many subscriptions were left.
fn played<R>(rt: &R, scene: &Scene<'_>) -> Result<(Vec<Outcome>, u32), Fail>
where
    R: Wait + Threads + Abort + RandomSource + AllocGlobal + Sync,
{
    let tasks = tasks_of(rt, scene.parts.len())?;
    let stage = Stage::new(tasks, scene.emitters(), scene.is_open);
    let config = config(0, scene.extra, scene.policy);
    let mut flow = SharedFlow::new(rt.alloc(), config).expect(rt, "a flow");
    let mut parties = joined(rt, &stage, &mut flow, scene);
    stage.run_all(rt, &mut parties);
    let outcomes = end_all(rt, &stage, parties);
    Ok((outcomes, flow.subscription_count(rt)))
}

impl Scene<'_> {
    // After how many emitters nobody sleeps any more: those that go on. Where none does, the last emission isn't the end.
    fn emitters(&self) -> u64 {
        let mut count: u64 = 0;
        for part in self.parts {
            if let Part::EmitsOn(..) = part {
                count = count.saturating_add(1);
            }
        }
        if count == 0 { u64::MAX } else { count }
    }
}

// Each party of a scene does all that it has to do and misses nothing. Beside a scene stand the counts, the last party's first.
const PASSING: &[(Scene<'_>, &[u64])] = &[
    (
        Scene {
            name: "a thousand hand overs",
            extra: 0,
            policy: Policy::Suspend,
            is_open: true,
            parts: &[Part::Emits(0, 1000), Part::Receives(1000)],
        },
        &[1000, 1000],
    ),
    (
        Scene {
            name: "no wake is lost without places",
            extra: 0,
            policy: Policy::Suspend,
            is_open: true,
            parts: &[Part::Emits(0, 10_000), Part::Receives(10_000)],
        },
        &[10_000, 10_000],
    ),
    (
        Scene {
            name: "no wake is lost with one place",
            extra: 1,
            policy: Policy::Suspend,
            is_open: true,
            parts: &[Part::Emits(0, 10_000), Part::Receives(10_000)],
        },
        &[10_000, 10_000],
    ),
    (
        Scene {
            name: "no wake is lost with two places",
            extra: 2,
            policy: Policy::Suspend,
            is_open: true,
            parts: &[Part::Emits(0, 10_000), Part::Receives(10_000)],
        },
        &[10_000, 10_000],
    ),
    (
        Scene {
            name: "three emitters and four subscriptions",
            extra: 8,
            policy: Policy::Suspend,
            is_open: true,
            parts: &[
                Part::Emits(0, 1000),
                Part::Emits(1, 1000),
                Part::Emits(2, 1000),
                Part::Receives(3000),
                Part::Receives(3000),
                Part::Receives(3000),
                Part::Receives(3000),
            ],
        },
        &[3000, 3000, 3000, 3000, 1000, 1000, 1000],
    ),
];

// A subscription looks for a value, and finds none without the lock. While it waits for the lock, an emitter does too: whoever is
// first, the value is received.
const MEETING: &Scene<'_> = &Scene {
    name: "emitter and subscription meet at the lock",
    extra: 1,
    policy: Policy::Suspend,
    is_open: false,
    parts: &[Part::Emits(0, 1), Part::Receives(1), Part::Keeps],
};

fn assert_all_pass<R>(rt: &R, scene: &Scene<'_>, counts: &[u64]) -> Result<(), Fail>
where
    R: Wait + Threads + Abort + RandomSource + AllocGlobal + Sync,
{
    let (outcomes, _) = played(rt, scene)?;
    assert_same(rt, scene.name, outcomes.len(), counts.len());
    for (outcome, count) in outcomes.iter().zip(counts) {
        assert_same(rt, scene.name, outcome, &all_of(*count));
    }
    Ok(())
}

// A wake that is lost has those that sleep do so for good. Now and then a value is accepted between a subscription's two looks, or
// received right before or after an emission's last look. One thread can't make that happen, since each lies inside one call.
#[test]
fn no_wake_is_lost(rt: HostRuntime) -> Result<(), Fail> {
    for (scene, counts) in PASSING {
        assert_all_pass(&rt, scene, counts)?;
    }
    Ok(())
}

#[test]
fn emitter_and_subscription_meet_at_the_lock(rt: HostRuntime) -> Result<(), Fail> {
    for _ in 0..300 {
        assert_all_pass(&rt, MEETING, &[0, 1, 1])?;
    }
    Ok(())
}

// Of two emitters and two subscriptions, one of which has left after a hundred values, the last one first. The other stays, and has
// in the end all that was accepted, less what was dropped for it.
fn assert_one_left(rt: &impl Abort, scene: &Scene<'_>, outcomes: &[Outcome]) {
    let [leaves, stays, second, first] = outcomes else {
        assert!(rt; false, "an outcome is missing");
        return;
    };
    let are_done = [first.is_done, second.is_done, stays.is_done, leaves.is_done];
    assert_same(rt, scene.name, are_done, [true, true, false, true]);
    assert_same(rt, "the values up to the end", leaves.count, 100);
    let rise = [first.rises, second.rises, stays.rises, leaves.rises];
    assert_same(rt, "receipts and values that rise", rise, [true; 4]);
    let accepted = first.count.saturating_add(second.count);
    let received = stays.count.saturating_add(stays.dropped);
    assert_same(rt, "received or dropped", received, accepted);
    if scene.policy != Policy::DropOldest {
        assert_same(rt, "dropped from what was accepted", stays.dropped, 0);
    }
    if scene.policy == Policy::Suspend {
        let are_whole = [stays.is_whole, leaves.is_whole];
        assert_same(rt, "none is lost", are_whole, [true; 2]);
    }
}

#[test]
fn one_of_two_leaves_under_each_policy(rt: HostRuntime) -> Result<(), Fail> {
    const PARTS: &[Part] = &[
        Part::EmitsOn(0, 1000),
        Part::EmitsOn(1, 1000),
        Part::Receives(u64::MAX),
        Part::Receives(100),
    ];
    for policy in [Policy::Suspend, Policy::DropOldest, Policy::DropLatest] {
        let scene = Scene {
            name: "who is done",
            extra: 4,
            policy,
            is_open: true,
            parts: PARTS,
        };
        let (outcomes, count) = played(&rt, &scene)?;
        assert_one_left(&rt, &scene, &outcomes);
        assert_same(&rt, "subscriptions", count, 0);
    }
    Ok(())
}

// One thread emits a value, its emitter's so many-th, and another sleeps until it has it.
fn assert_passed_on<R>(
    rt: &R,
    flow: &mut SharedFlow<u64>,
    number: u64,
    value: u64,
) -> Result<(), u8>
where
    R: AllocGlobal + RandomSource + Threads + Wait + Abort + Sync,
{
    let passed = passed_on(rt, flow, value);
    let (receipt, received) = passed.map_err(|refusal| refusal.number())?;
    let receipt = receipt.map(|receipt| (receipt.emitter(), receipt.number()));
    assert_eq!(rt; (receipt, received), (Some((1, number)), Some(value)));
    Ok(())
}

#[test]
fn a_sleeping_thread_is_woken(rt: HostRuntime) -> Result<(), Fail> {
    for extra in [0, 1] {
        let made = SharedFlow::new(rt.alloc(), config(0, extra, Policy::Suspend));
        let mut flow = made.map_err(|refusal| refusal.number())?;
        for number in 0..20 {
            assert_passed_on(&rt, &mut flow, number, number + 7)?;
        }
    }
    Ok(())
}
