//! A cold flow that is started and stopped, and how it feeds the place where its values go.

ghost use Rattle.std.specs.Prelude.{◌≡◌, Some, true, IsTrue, OnOk, OnErr, IfErr};
ghost use Rattle.futures.specs.Poll.{OnPending};
ghost use Rattle.futures.specs.Task.{IsArmed, Keeps};
ghost use Rattle.cold_flow.specs.declared.cause.Cause.TheVariants.{Refused};
ghost use Rattle.flow_terms.specs.declared.refusal.Refusal.TheVariants.{NoMemory};
ghost use Rattle.flow_terms.specs.declared.command.Command.TheVariants.{Start};
ghost use Rattle.sharing_upstream.specs.declared.upstream.Course.TheVariants.{Running, Broken};
ghost use Rattle.sharing_upstream.specs.Courses.{IsNew, Asked, AnsweredPending, is_running, stopped, after_end};
ghost use Rattle.sharing_upstream.specs.Upstreams.{cause_kept, IsUnstarted};
ghost use Rattle.sharing_upstream.specs.Sharings.{Obeys, Takes, Shares};

use crate::destination::{Destination, Offer};
use cold_flow::{Cause, Event, Flow, Refusal, Run, Word};
use flow_terms::Command;
use futures::task::{Context, Poll};
use std::mem;

// How many events of its upstream a poll takes at most. The end of a run is one of them.
const EVENTS: u32 = 32;

/// A cold flow that is started and stopped any number of times, and has one run at a time.
///
/// A run that finishes gives nothing more until the next start. One that fails or is refused ends the upstream for good, and its
/// cause is kept. It must be spent, by [`close`](Upstream::close).
pub struct Upstream<F: Flow> {
    pub(crate) flow: F,
    pub(crate) course: Course<LiveRun<F::Running>, F::Fault>,
}

impl<F: Flow> Upstream<F> {
    /// An upstream that wasn't started.
    pub fn new(flow: F) -> Upstream<F>
        ensures { IsUnstarted flow result }
    {
        Upstream {
            flow,
            course: Course::Idle,
        }
    }

    // Begins a new run, and cancels the one before it, where that is going. Refused as `NoMemory`, and then nothing changes.
    fn start(&mut self) -> Result<(), Refusal>
        ensures ok { OnOk result (IsNew (λ live. F.Running.may live.run) (λ live. F.Running.ended live.run) (F.may self.old.flow) self.new.course) }
        ensures flow { self.new.flow ≡ self.old.flow }
        ensures err { OnErr result (self.new.course ≡ self.old.course) }
        ensures refused { IfErr result (λ refusal. refusal ≡ NoMemory) }
    {
        let run = self.flow.start()?;
        let_go(mem::replace(&mut self.course, Course::Running(LiveRun::new(run))));
        Ok(())
    }

    // Cancels the run, where one is going.
    fn stop(&mut self)
        ensures flow { self.new.flow ≡ self.old.flow }
        ensures course { self.new.course ≡ stopped self.old.course }
    {
        if let Course::Running(_) = &self.course {
            let_go(mem::replace(&mut self.course, Course::Idle));
        }
    }

    // Cancels the run for good, since a value of it was refused.
    fn break_off(&mut self, refusal: Refusal)
        ensures flow { self.new.flow ≡ self.old.flow }
        ensures course { self.new.course ≡ Broken (Refused refusal) }
    {
        let_go(mem::replace(&mut self.course, Course::Broken(Cause::Refused(refusal))));
    }

    // Asks the run for one event: its next value, or none where no run is going any more.
    fn poll(&mut self, cx: &mut Context<'_>) -> Poll<Option<F::Item>>
        ensures flow { self.new.flow ≡ self.old.flow }
        ensures asked { Asked (λ live. F.Running.may live.run) (λ live. F.Running.ended live.run) self.old.course result self.new.course }
        ensures polled { OnPending result (AnsweredPending (λ was answer is. F.Running.polled was.run answer is.run) self.old.course self.new.course) }
        ensures armed { OnPending result (IsArmed cx.new) }
        ensures kept { Keeps cx.old cx.new }
    {
        let (answer, course) = ask(mem::replace(&mut self.course, Course::Idle), cx);
        // What stands there meanwhile is no run.
        let_go(mem::replace(&mut self.course, course));
        answer
    }

    /// Why it ended for good: a run failed or was refused, or a value of it was refused. None while it may go on.
    pub fn fault(&self) -> Option<Cause<F::Fault>>
        ensures { result ≡ cause_kept self.now }
    {
        match self.course {
            Course::Broken(cause) => Some(cause),
            Course::Idle | Course::Running(_) => None,
        }
    }

    /// Cancels the run, where one is going, and lets the upstream go.
    pub fn close(self) {
        let Upstream { flow: _, course } = self;
        let_go(course);
    }
}

impl<T: Word, F: Flow<Item = T>> Upstream<F> {
    // Does what the strategy commands. Refused where a start is, and then nothing changes.
    pub(crate) fn obey<D: Destination<T>>(
        &mut self,
        destination: &mut D,
        command: Option<Command>,
    ) -> Result<(), Refusal>
        ensures obeys { OnOk result (Obeys (D.steps (D.kept destination.old)) (λ live. F.Running.may live.run) (λ live. F.Running.ended live.run)
            (F.may self.old.flow) command self.old.course (D.seen destination.old) self.new.course (D.seen destination.new)) }
        ensures flow { self.new.flow ≡ self.old.flow }
        ensures kept { D.kept destination.new ≡ D.kept destination.old }
        ensures err { OnErr result ((self.new.course ≡ self.old.course) × (D.seen destination.new ≡ D.seen destination.old)) }
        ensures refused { IfErr result (λ refusal. (refusal ≡ NoMemory) × (command ≡ Some Start)) }
    {
        match command {
            None => Ok(()),
            Some(Command::Start) => self.start(),
            Some(Command::Stop) => {
                self.stop();
                destination.withdraw();
                Ok(())
            }
            Some(Command::StopAndReset) => {
                self.stop();
                destination.withdraw();
                destination.reset();
                Ok(())
            }
        }
    }

    // Asks the value that waits, and unless it still does, takes events.
    pub(crate) fn share<D: Destination<T>>(&mut self, destination: &mut D, cx: &mut Context<'_>)
        ensures shares { Shares (D.steps (D.kept destination.old)) (λ live. F.Running.may live.run) (λ live. F.Running.ended live.run)
            (λ was answer is. F.Running.polled was.run answer is.run) true self.old.course (D.seen destination.old) self.new.course (D.seen destination.new) }
        ensures flow { self.new.flow ≡ self.old.flow }
        ensures kept { D.kept destination.new ≡ D.kept destination.old }
        ensures armed { IsTrue (is_running self.new.course) → IsArmed cx.new }
        ensures wakes { Keeps cx.old cx.new }
    {
        if !destination.still_waits(cx) {
            self.take_events(destination, cx);
        }
    }

    // Takes events and offers each value, until there is nothing yet or the run has ended, or a value waits. Where it stops for another
    // reason than a pending answer, it asks to be polled again.
    fn take_events<D: Destination<T>>(&mut self, destination: &mut D, cx: &mut Context<'_>)
        requires free { D.free (D.seen destination.old) }
        ensures takes { Takes (D.steps (D.kept destination.old)) (λ live. F.Running.may live.run) (λ live. F.Running.ended live.run)
            (λ was answer is. F.Running.polled was.run answer is.run) self.old.course (D.seen destination.old) self.new.course (D.seen destination.new) }
        ensures flow { self.new.flow ≡ self.old.flow }
        ensures kept { D.kept destination.new ≡ D.kept destination.old }
        ensures armed { IsTrue (is_running self.new.course) → IsArmed cx.new }
        ensures wakes { Keeps cx.old cx.new }
    {
        for _event in 0..EVENTS {
            let value = match self.poll(cx) {
                Poll::Ready(Some(value)) => value,
                Poll::Ready(None) => return,
                Poll::Pending => return,
            };
            match destination.offer(value) {
                Offer::Accepted => {}
                Offer::Waiting => {
                    let _again: Poll<()> = cx.yield_now();
                    return;
                }
                Offer::Refused(refusal) => {
                    self.break_off(refusal);
                    return;
                }
            }
        }
        let _again: Poll<()> = cx.yield_now();
    }
}

/// Where an upstream stands. `U` is a run of it.
pub enum Course<U, E> {
    /// No run is going: none was started, or the last one finished or was stopped.
    Idle,
    /// A run is going.
    Running(U),
    /// A run failed or was refused, or what it gave was refused. It isn't started again.
    Broken(Cause<E>),
}

// Asks the run, where one is going, for one event, and says how the upstream stands then.
fn ask<R: Run>(
    course: Course<LiveRun<R>, R::Fault>,
    cx: &mut Context<'_>,
) -> (Poll<Option<R::Item>>, Course<LiveRun<R>, R::Fault>)
    ensures asked { Asked (λ live. R.may live.run) (λ live. R.ended live.run) course result.0 result.1 }
    ensures polled { OnPending result.0 (AnsweredPending (λ was answer is. R.polled was.run answer is.run) course result.1) }
    ensures armed { OnPending result.0 (IsArmed cx.new) }
    ensures kept { Keeps cx.old cx.new }
{
    match course {
        Course::Running(live) => ask_run(live, cx),
        Course::Idle => (Poll::Ready(None), Course::Idle),
        Course::Broken(cause) => (Poll::Ready(None), Course::Broken(cause)),
    }
}

// Asks the run for one event, and lets it go where it has ended.
fn ask_run<R: Run>(
    mut live: LiveRun<R>,
    cx: &mut Context<'_>,
) -> (Poll<Option<R::Item>>, Course<LiveRun<R>, R::Fault>)
    ensures asked { Asked (λ live. R.may live.run) (λ live. R.ended live.run) (Running live) result.0 result.1 }
    ensures polled { OnPending result.0 (AnsweredPending (λ was answer is. R.polled was.run answer is.run) (Running live) result.1) }
    ensures armed { OnPending result.0 (IsArmed cx.new) }
    ensures kept { Keeps cx.old cx.new }
{
    match live.run.poll_next(cx) {
        Poll::Ready(Event::Value(value)) => (Poll::Ready(Some(value)), Course::Running(live)),
        Poll::Ready(Event::End(cause)) => {
            live.spend();
            (Poll::Ready(None), after_end(cause))
        }
        Poll::Pending => (Poll::Pending, Course::Running(live)),
    }
}

// How an upstream stands after its run ended: a failure and a refusal are kept.
fn after_end<U, E: Copy>(cause: Cause<E>) -> Course<U, E>
    ensures { result ≡ after_end cause }
{
    match cause {
        Cause::Finished | Cause::Cancelled => Course::Idle,
        Cause::Failed(_) | Cause::Refused(_) => Course::Broken(cause),
    }
}

// Cancels the run, where one is going.
fn let_go<R: Run, E: Copy>(course: Course<LiveRun<R>, E>) {
    match course {
        Course::Running(live) => live.cancel(),
        Course::Idle | Course::Broken(_) => {}
    }
}

/// A run of an upstream. It must be spent, and that asks that it has stopped: so none is let go while its sources go on.
pub struct LiveRun<R> {
    pub(crate) run: R,
}

impl<R: Run> LiveRun<R> {
    fn new(run: R) -> LiveRun<R>
        ensures { result.run ≡ run }
    {
        LiveRun { run }
    }

    // Cancels the run, and lets it go.
    fn cancel(mut self) {
        // What it does is what `spend` asks for.
        self.run.cancel();
        self.spend();
    }

    // Lets the run go.
    fn spend(self)
        requires { IsTrue (R.stopped self.run) }
    {
        let LiveRun { run: _ } = self;
    }
}
