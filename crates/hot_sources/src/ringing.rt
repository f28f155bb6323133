//! A thread that sleeps for a run over states.

ghost use Rattle.std.specs.Prelude.{◌≡◌, [], IfOk, IfErr, IfSome, MatchOption};
ghost use Rattle.futures.specs.Task.{Keeps};
ghost use Rattle.futures.specs.declared.task.Poll.TheVariants.{Ready};
ghost use Rattle.flow_terms.specs.declared.refusal.Refusal.TheVariants.{NoMemory};
ghost use Rattle.cold_flow.specs.Poll.{Narrows, end_of};
ghost use Rattle.cold_flow.specs.Polled.{Gave};
ghost use Rattle.hot_sources.specs.Waiting.{Came, TookUntil};

use crate::sources::collecting::CollectingRun;
use crate::sources::combining::CollectingBothRun;
use cold_flow::{Event, Refusal, Run, Sift, Sifted};
use flow_terms::Word;
use futures::task::{Context, Doorbell, Poll, Solo};
use state_bell::Bell;
use std::alloc::{AllocGlobal, Allocator};
use std::random::RandomSource;
use std::sync::Wait;

/// A run over collectors of states alone, through operators or none. A poll of it that answers pending has asked each collector, so
/// there is no more until a state is set.
pub trait OverStates: Run {}

impl<'a, T: Word, E: Copy, A: Allocator> OverStates for CollectingRun<'a, T, E, A> {}

impl<'a, T: Word, U: Word> OverStates for CollectingBothRun<'a, T, U> {}

impl<S: OverStates, M: Sift<S::Item>> OverStates for Sifted<S, M> {}

/// The next value of `chain`, for which the thread sleeps until a state changes: one turn of Kotlin's `collect`. `None` where all were
/// let go, by [`Bell::let_go`], and nothing is new: what was set before that is given first.
///
/// Whoever sets a state of the chain has to ring this bell. It takes no memory and no lock. That a wake arrives isn't claimed.
pub fn next_rung<S: OverStates>(
    rt: &impl Wait,
    bell: &Bell,
    chain: &mut S,
    cx: &mut Context<'_>,
) -> Option<Event<S::Item, S::Fault>>
    ensures narrows { IfSome result (λ event. Narrows (S.may chain.old) (Ready event) (S.may chain.new)) }
    ensures came { MatchOption result (Gave S.polled chain.old [] chain.new) (λ event. Came S.polled chain.old event chain.new) }
    ensures kept { Keeps cx.old cx.new }
{
    bell.lie_down();
    let next = wait(rt, bell, chain, cx);
    bell.rise();
    next
}

// Sleeps until something is new, or all were let go. The thread has to be counted as a sleeper.
fn wait<S: OverStates>(
    rt: &impl Wait,
    bell: &Bell,
    chain: &mut S,
    cx: &mut Context<'_>,
) -> Option<Event<S::Item, S::Fault>>
    ensures narrows { IfSome result (λ event. Narrows (S.may chain.old) (Ready event) (S.may chain.new)) }
    ensures came { MatchOption result (Gave S.polled chain.old [] chain.new) (λ event. Came S.polled chain.old event chain.new) }
    ensures kept { Keeps cx.old cx.new }
{
    'turns: for _ in rt.forever() {
        // Both are loaded before the values: a ring after that is seen by the turn, and what was set before the end is given first. So
        // it is where a poll yields because it left out 64 values: what it left unasked was set, and rung, after its last ask.
        let turn = bell.turn();
        let is_let_go = bell.is_let_go();
        if let Poll::Ready(event) = chain.poll_next(cx) {
            return Some(event);
        }
        if is_let_go {
            return None;
        }
        bell.sleep(rt, turn);
    }
    unreachable!()
}

/// All that `chain` gives until all are let go, by [`Bell::let_go`], as a list: Kotlin's `toList(list)` over states, in a scope that is
/// cancelled. The thread sleeps until a state changes. What was set before the end is in the list; a run that was cancelled gives nothing.
///
/// Whoever sets a state of the chain has to ring this bell. Refused as `NoMemory`, and then what was taken is let go; the run goes on.
pub fn collect_list<R, S: OverStates>(
    rt: &R,
    bell: &Bell,
    chain: &mut S,
) -> Result<Vec<S::Item>, Refusal>
where
    R: Wait + RandomSource + AllocGlobal,
    ensures took { IfOk result (λ list. TookUntil S.polled chain.old [] list.items chain.new) }
    ensures refused { IfErr result (λ refusal. (refusal ≡ NoMemory) × ((xs : _) × Gave S.polled chain.old xs chain.new)) }
{
    let Ok(task) = Solo::new(rt, Doorbell::spinning()) else {
        return Err(Refusal::NoMemory);
    };
    let mut list = Vec::new(rt.alloc());
    let mut cx = task.begin();
    let taken = take_all(rt, bell, chain, &mut cx, &mut list);
    cx.cancel();
    taken?;
    Ok(list)
}

// Adds all that `chain` gives to `out`, until all are let go, or it ends.
fn take_all<S: OverStates>(
    rt: &impl Wait,
    bell: &Bell,
    chain: &mut S,
    cx: &mut Context<'_>,
    out: &mut Vec<S::Item>,
) -> Result<(), Refusal>
    ensures took { IfOk result (λ _. TookUntil S.polled chain.old out.old.items out.new.items chain.new) }
    ensures refused { IfErr result (λ refusal. (refusal ≡ NoMemory) × ((xs : _) × Gave S.polled chain.old xs chain.new)) }
    ensures kept { Keeps cx.old cx.new }
{
    'values: for _ in rt.forever() {
        if out.reserve(1).is_err() {
            return Err(Refusal::NoMemory);
        }
        match next_rung(rt, bell, chain, cx) {
            Some(Event::Value(value)) => out.push_reserved(value),
            Some(Event::End(_cause)) => return Ok(()),
            None => return Ok(()),
        }
    }
    unreachable!()
}
