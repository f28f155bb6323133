//! A thread that sleeps until either of two states changes.
ghost use Rattle.std.specs.Prelude.{◌≡◌, ◌++◌, None, MatchOption, IfSome, IfNone};
ghost use Rattle.state_flow.specs.Collected.{collected};
ghost use Rattle.state_waiting.specs.Waits.{MissedOn};
ghost use Rattle.paired_states.specs.Pairing.{Asked, AskedOnce, AskedNone, IsSomeOf, first_of, second_of};

use crate::fresh::Fresh;
use flow_terms::Word;
use state_bell::{Bell, LOOKS, pause};
use state_flow::Collector;
use std::sync::Wait;

/// What is new of either state, for which the thread sleeps: one turn of Kotlin's `combine(first, second) { .. }.collect { }`. Keep
/// the last value of each: at the first call both are new. `None` where all were let go, by [`Bell::let_go`], and nothing is new:
/// what was set before that is given first.
///
/// Whoever sets either state has to ring this bell. It takes no lock and no memory. That a wake arrives isn't claimed.
pub fn next_of_two<T: Word, U: Word>(
    rt: &impl Wait,
    bell: &Bell,
    first: &mut Collector<T>,
    second: &mut Collector<U>,
) -> Option<Fresh<T, U>>
    ensures has { (collected first.new ≡ collected first.old ++ first_of result)
        × (collected second.new ≡ collected second.old ++ second_of result) }
    ensures same_flow { (first.new.flow ≡ first.old.flow) × (second.new.flow ≡ second.old.flow) }
    ensures asked { MatchOption result (AskedNone first.old.view second.old.view first.new.view second.new.view)
        (λ fresh. Asked first.old.view second.old.view fresh.first fresh.second first.new.view second.new.view) }
{
    if let Some(fresh) = look_on(first, second) {
        return Some(fresh);
    }
    bell.lie_down();
    let fresh = wait(rt, bell, first, second);
    bell.rise();
    fresh
}

// Sleeps until something is new, or all were let go. The thread has to be counted as a sleeper.
fn wait<T: Word, U: Word>(
    rt: &impl Wait,
    bell: &Bell,
    first: &mut Collector<T>,
    second: &mut Collector<U>,
) -> Option<Fresh<T, U>>
    ensures same_flow { (first.new.flow ≡ first.old.flow) × (second.new.flow ≡ second.old.flow) }
    ensures asked { MatchOption result (AskedNone first.old.view second.old.view first.new.view second.new.view)
        (λ fresh. Asked first.old.view second.old.view fresh.first fresh.second first.new.view second.new.view) }
{
    'turns: for _ in rt.forever() {
        // Both are loaded before the values: a ring after that is seen by the turn, and what was set before the end is given first.
        let turn = bell.turn();
        let is_let_go = bell.is_let_go();
        if let Some(fresh) = ask(first, second) {
            return Some(fresh);
        }
        if is_let_go {
            return None;
        }
        bell.sleep(rt, turn);
    }
    unreachable!()
}

// Asks both a few times, until something is new.
fn look_on<T: Word, U: Word>(
    first: &mut Collector<T>,
    second: &mut Collector<U>,
) -> Option<Fresh<T, U>>
    ensures same_flow { (first.new.flow ≡ first.old.flow) × (second.new.flow ≡ second.old.flow) }
    ensures asked { IfSome result (λ fresh. Asked first.old.view second.old.view fresh.first fresh.second first.new.view second.new.view) }
    ensures missed { IfNone result (MissedOn first.old.view first.new.view × MissedOn second.old.view second.new.view) }
{
    'looks: for _ in 0..LOOKS {
        if let Some(fresh) = ask(first, second) {
            return Some(fresh);
        }
        pause();
    }
    None
}

// Asks each once.
fn ask<T: Word, U: Word>(first: &mut Collector<T>, second: &mut Collector<U>) -> Option<Fresh<T, U>>
    ensures same_flow { (first.new.flow ≡ first.old.flow) × (second.new.flow ≡ second.old.flow) }
    ensures asked { MatchOption result (AskedOnce first.old.view second.old.view None None first.new.view second.new.view)
        (λ fresh. AskedOnce first.old.view second.old.view fresh.first fresh.second first.new.view second.new.view × IsSomeOf fresh.first fresh.second) }
{
    let fresh = Fresh {
        first: first.try_next(),
        second: second.try_next(),
    };
    if fresh.first.is_none() && fresh.second.is_none() {
        return None;
    }
    Some(fresh)
}
