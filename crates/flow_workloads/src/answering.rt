//! Two states, by which two threads answer each other: each sleeps until the other has set its state.

use crate::acting::{Acts, both};
use crate::course::{Course, Emitters};
use crate::tally::Tally;
use cold_flow::Refusal;
use state_waiting::{Collected, WatchedSeat, Watcher};
use std::alloc::{AllocGlobal, Global};
use std::random::RandomSource;
use std::sync::Wait;
use std::thread::Threads;

/// Two seats at a new state.
fn seats(alloc: Global) -> Result<(WatchedSeat<u64>, WatchedSeat<u64>), Refusal> {
    let mut seat = WatchedSeat::new(alloc, 0u64, 2)?;
    let other = seat.take_seat(0)?;
    Ok((seat, other))
}

/// One of two who answer each other so many times: the state that it sets, and the one that it watches. It must be ended.
struct Side {
    seat: WatchedSeat<u64>,
    watcher: Watcher<u64>,
    turns: u64,
    /// The values that it answered.
    values: Course,
}

impl Side {
    /// A side that passes over the first value of the state that it watches.
    fn new(seat: WatchedSeat<u64>, watched: WatchedSeat<u64>, turns: u64) -> Side {
        let mut watcher = watched.collect();
        drop(watcher.try_next());
        Side {
            seat,
            watcher,
            turns,
            values: Course::new(),
        }
    }

    fn end(self, tally: &mut Tally) {
        let Side {
            seat: _,
            watcher,
            turns: _,
            values,
        } = self;
        drop(watcher.cancel());
        values.told(tally, Emitters::One);
    }
}

impl Acts for Side {
    fn act<R: Wait>(&mut self, rt: &R) {
        self.values = answer(rt, &mut self.seat, &mut self.watcher, self.turns);
    }
}

/// Answers so many values of the one state, each by the number after it, which it sets the other to. Gives what they were.
#[inline(never)]
fn answer(
    rt: &impl Wait,
    seat: &mut WatchedSeat<u64>,
    watcher: &mut Watcher<u64>,
    turns: u64,
) -> Course {
    let mut values = Course::new();
    for _ in 0..turns {
        let Collected::Value(value) = watcher.next(rt) else {
            break;
        };
        values.number(value);
        seat.set(value.wrapping_add(1));
    }
    seat.stop();
    values
}

/// Two threads answer each other so many times by two new states, after the second has said this value.
pub(crate) fn run<R>(rt: &R, (value, turns): (u64, u64), tally: &mut Tally)
where
    R: AllocGlobal + RandomSource + Threads + Wait + Sync,
{
    let alloc = rt.alloc();
    if let (Some((seat, watched)), Some((other_seat, other_watched))) = (
        tally.noted(seats(alloc)),
        tally.noted(seats(alloc)),
    ) {
        let mut one = Side::new(seat, other_watched, turns);
        let mut other = Side::new(other_seat, watched, turns);
        other.seat.set(value);
        both(rt, &mut one, &mut other);
        one.end(tally);
        other.end(tally);
    }
}
