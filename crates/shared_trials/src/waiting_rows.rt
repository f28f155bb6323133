//! Calls of `emit` and `next` that one thread makes, and waits until it is answered.

ghost use Rattle.std.specs.Prelude.{◌≡◌, None};

use crate::shared_stage::config;
use crate::tools::assert_same;
use cold_flow::{Policy, Refusal};
use hot_callers::asked;
use shared_core::{Begun, Tried, Withdrawn};
use shared_flow::{Emitter, Parker, Receipt, SharedFlow, Subscription};
use std::alloc::AllocGlobal;
use std::process::Abort;
use std::random::RandomSource;
use std::sync::Wait;

/// Emits once more where there was no memory to wait by: the value was given up then.
pub(crate) fn emitted<R: Wait>(
    rt: &R,
    emitter: &mut Emitter<u64>,
    parker: &mut Parker,
    value: u64,
) -> Result<Option<Receipt>, Refusal>
    requires idle { emitter.old.ticket ≡ None }
{
    match emitter.emit(rt, parker, value) {
        Ok(receipt) => Ok(receipt),
        Err(Refusal::NoMemory) => emitter.emit(rt, parker, value),
        Err(refusal) => Err(refusal),
    }
}

/// Receives, and asks once more where there was no memory to wait by.
pub(crate) fn received<R: Wait>(
    rt: &R,
    subscription: &mut Subscription<u64>,
    parker: &mut Parker,
) -> Result<u64, Refusal> {
    match subscription.next(rt, parker) {
        Ok(value) => Ok(value),
        Err(_) => subscription.next(rt, parker),
    }
}

// How often, of so many values, one that waits for the next lets it in itself: its looks before it would sleep find nothing, since
// the emission waits for another subscription, whose receipt wakes nobody, and its look under the lock lets that emission in.
fn let_in<R: Wait + Abort>(
    rt: &R,
    flow: &mut SharedFlow<u64>,
    parker: &mut Parker,
    values: u64,
) -> u64 {
    let mut emitter = flow.emitter(1).expect(rt, "an emitter");
    let mut waiting = flow.subscribe(rt).expect(rt, "a subscription");
    let mut other = flow.subscribe(rt).expect(rt, "a subscription");
    let mut count: u64 = 0;
    let _first = emitter.try_emit(rt, 0);
    let _taken = waiting.try_next();
    for value in 1..=values {
        if emitter.in_flight() {
            break;
        }
        let begun = emitter.start_emit(rt, value);
        let _taken = other.try_next();
        let found = received(rt, &mut waiting, parker);
        let withdrawn = emitter.cancel_emit(rt);
        let waited = matches!(begun, Ok(Begun::Waiting(())));
        if waited && found == Ok(value) && matches!(withdrawn, Withdrawn::Left(_)) {
            count = count.saturating_add(1);
        }
    }
    waiting.cancel(rt);
    other.cancel(rt);
    emitter.close(rt);
    count
}

#[test]
fn one_that_waits_lets_in_what_it_waits_for(rt: HostRuntime) {
    let mut parker = Parker::new(&rt).expect(&rt, "a parker");
    let made = SharedFlow::<u64>::new(rt.alloc(), config(0, 1, Policy::Suspend));
    let mut flow = made.expect(&rt, "a flow");
    let count = let_in(&rt, &mut flow, &mut parker, 3);
    assert_same(&rt, "let in and received", count, 3);
}

// The question is accepted, since nobody subscribes there, and the answer stands in the other flow's replay cache.
fn assert_answered<R: Wait + Abort + AllocGlobal>(
    rt: &R,
    questions: &mut SharedFlow<u64>,
    answers: &mut SharedFlow<u64>,
    parker: &mut Parker,
) {
    let mut asking = questions.emitter(1).expect(rt, "an emitter");
    let mut answering = answers.emitter(2).expect(rt, "an emitter");
    let mut subscription = answers.subscribe(rt).expect(rt, "a subscription");
    let there = matches!(answering.try_emit(rt, 7), Ok(Tried::Accepted(_)));
    let answer = asked(rt, parker, &mut asking, &mut subscription, 5);
    subscription.cancel(rt);
    answering.close(rt);
    asking.close(rt);
    assert_same(rt, "the answer is there", there, true);
    assert_same(rt, "the answer", answer, Ok(Some(7)));
}

#[test]
fn a_question_is_answered(rt: HostRuntime) {
    let mut parker = Parker::new(&rt).expect(&rt, "a parker");
    let made = SharedFlow::<u64>::new(rt.alloc(), config(1, 0, Policy::Suspend));
    let mut questions = made.expect(&rt, "a flow");
    let made = SharedFlow::<u64>::new(rt.alloc(), config(1, 0, Policy::Suspend));
    let mut answers = made.expect(&rt, "a flow");
    assert_answered(&rt, &mut questions, &mut answers, &mut parker);
}
