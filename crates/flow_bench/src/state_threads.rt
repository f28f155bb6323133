//! A state flow between threads: one sets without pause, and one or two others ask without pause.

use crate::fan_out::{Drains, Works, work_beside};
use crate::fault::Fault;
use crate::measured::{Measured, nanoseconds_since, now};
use crate::report::{Line, Report};
use crate::sides::{Admits, Ends, admit_all};
use crate::state_alone::timed_sets;
use bench_figures::{Subject, Unit};
use state_flow::{StateFlow, StateSeat};
use std::alloc::AllocGlobal;
use std::random::RandomSource;
use std::rt::Clock;
use std::sync::Wait;
use std::thread::Threads;

/// How many values are set.
const SETS: u64 = 2_000_000;

/// What the asks of all collectors were.
#[derive(Clone, Copy)]
struct Asked {
    asks: u64,
    /// The total is the last value that each was given, 0 where one wasn't above the one before.
    measured: Measured,
}

/// What a collector was given so far.
#[derive(Clone, Copy)]
struct Given {
    asks: u64,
    /// The last value, or nothing where one wasn't above the one before.
    last: Option<u64>,
}

/// The thread that sets the numbers from 1 to `sets`.
#[derive(Drop)]
struct Writing<'a> {
    seat: &'a mut StateSeat<u64>,
    sets: u64,
    set: Measured,
}

/// A collector's thread.
#[derive(Drop)]
struct Asking {
    /// None, once it asked.
    seat: Option<StateSeat<u64>>,
    given: Given,
    /// None, where the clock can't be read.
    nanoseconds: Option<u64>,
}

/// Makes the measurement with one collector and with two.
pub(crate) fn measure<R>(rt: &R, report: &mut Report)
where
    R: Clock + Print + AllocGlobal + RandomSource + Threads + Wait + Sync,
{
    let sets = report.count(SETS);
    for (scenario, collectors) in [("state-c1", 1), ("state-c2", 2)] {
        if let Some((set, asked)) = report.noted(measured(rt, collectors, sets)) {
            // The last value of both is the number of the sets.
            report.figure(rt, line_of(scenario, "set"), sets, set, sets);
            report.figure(
                rt,
                line_of(scenario, "ask"),
                asked.asks,
                asked.measured,
                sets,
            );
        }
    }
}

fn line_of(scenario: &'static str, name: &'static str) -> Line {
    Line {
        subject: Subject::State,
        scenario,
        name,
        unit: Unit::Nanoseconds,
    }
}

/// What one thread set, and so many others asked. The asks of all are one figure.
fn measured<R>(rt: &R, collectors: u32, sets: u64) -> Result<(Measured, Asked), Fault>
where
    R: Clock + AllocGlobal + RandomSource + Threads + Wait + Sync,
{
    // A seat for the thread that sets, too.
    let mut seat = StateFlow::new(rt.alloc(), 0u64, collectors.saturating_add(1))?;
    let mut asking = admit_all(rt, &mut seat, collectors)?;
    let mut writing = Writing {
        seat: &mut seat,
        sets,
        set: Measured {
            total: 0,
            nanoseconds: None,
        },
    };
    work_beside(rt, &mut writing, &mut asking, sets);
    Ok((writing.set, asked_by(asking.as_slice(), collectors)))
}

impl Works for Writing<'_> {
    fn work<R: Clock + Wait>(&mut self, rt: &R) {
        self.set = timed_sets(rt, self.seat, self.sets);
    }
}

impl Admits<Asking> for StateSeat<u64> {
    fn admit<R: AllocGlobal + RandomSource + Wait>(&mut self, _rt: &R) -> Option<Asking> {
        let seat = self.take_seat(0).ok()?;
        Some(Asking {
            seat: Some(seat),
            given: Given {
                asks: 0,
                last: None,
            },
            nanoseconds: None,
        })
    }
}

impl Ends for Asking {
    fn end<R: Wait>(self, _rt: &R) {}
}

impl Drains<u64> for Asking {
    /// Asks until that value came.
    fn drain<R: Clock + Wait>(&mut self, rt: &R, end: u64) {
        let Some(seat) = self.seat.take() else {
            return;
        };
        let start = now(rt);
        self.given = ask_up_to(rt, seat, end);
        self.nanoseconds = nanoseconds_since(rt, start);
    }
}

/// The asks of so many collectors, as one. The last value is 0 where one of them was refused.
fn asked_by(asking: &[Asking], collectors: u32) -> Asked {
    let mut asks: u64 = 0;
    let mut nanoseconds = Some(0u64);
    let mut last = if asking.len() == collectors as usize {
        u64::MAX
    } else {
        0
    };
    for one in asking {
        asks = asks.wrapping_add(one.given.asks);
        nanoseconds = match (nanoseconds, one.nanoseconds) {
            (Some(before), Some(more)) => Some(before.wrapping_add(more)),
            _ => None,
        };
        last = last.min(one.given.last.unwrap_or(0));
    }
    Asked {
        asks,
        measured: Measured {
            total: last,
            nanoseconds,
        },
    }
}

/// Asks until that value came, and looks whether each value is above the one before.
fn ask_up_to(rt: &impl Wait, seat: StateSeat<u64>, last: u64) -> Given {
    let mut collector = seat.collect();
    let mut given = Given {
        asks: 0,
        last: Some(0),
    };
    let mut newest: u64 = 0;
    for _ in rt.forever() {
        given.asks = given.asks.wrapping_add(1);
        if let Some(value) = collector.try_next() {
            given.last = match given.last {
                Some(before) if before <= value => Some(value),
                _ => None,
            };
            newest = value;
        }
        if newest == last {
            break;
        }
    }
    drop(collector.cancel());
    given
}
