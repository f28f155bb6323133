//! A lane between threads, where the oldest values are dropped: one emits without pause, and one, two or four others
//! take what is left.

use crate::config::config_of;
use crate::fan_out::{Drains, Works, work_beside};
use crate::fault::Fault;
use crate::lane_ends::{LaneReader, LaneSequencer};
use crate::measured::{Measured, nanoseconds_since, now};
use crate::pause::Pause;
use crate::report::{Line, Report};
use crate::sides::{Emits, admit_all, end_all};
use bench_figures::{Portion, Subject, Unit};
use cold_flow::Policy;
use shared_core::Config;
use shared_lane::{Lane, Taken};
use std::alloc::AllocGlobal;
use std::random::RandomSource;
use std::rt::Clock;
use std::sync::Wait;
use std::sync::atomic::{AtomicBool, Ordering};
use std::thread::Threads;

/// How many values are emitted.
const VALUES: u64 = 2_000_000;

/// What one measurement counted.
#[derive(Clone, Copy)]
struct Counts {
    emitted: u64,
    received: u64,
    /// What was received in rising order, and what was dropped.
    accounted: u64,
    /// The nanoseconds of the emissions alone. None, where the clock can't be read.
    emission: Option<u64>,
    /// Until the last reader had ended.
    nanoseconds: Option<u64>,
}

/// Makes the measurement with 1, 2 and 4 readers.
pub(crate) fn measure<R>(rt: &R, report: &mut Report)
where
    R: Clock + Print + AllocGlobal + RandomSource + Threads + Wait + Sync,
{
    let values = report.count(VALUES);
    for (scenario, readers) in [("lossy-n1", 1), ("lossy-n2", 2), ("lossy-n4", 4)] {
        let config = config_of(readers, 1024, Policy::DropOldest);
        if let Some(counts) = report.noted(measured(rt, config, values)) {
            let sent = values.wrapping_mul(u64::from(readers));
            counts.report(rt, report, scenario, (values, sent));
        }
    }
}

impl Counts {
    /// Reports what the emissions cost, what was received, and which share that was.
    fn report(
        self,
        rt: &impl Print,
        report: &mut Report,
        scenario: &'static str,
        (values, sent): (u64, u64),
    ) {
        let emission = Measured {
            total: self.emitted,
            nanoseconds: self.emission,
        };
        let line = line_of(scenario, "emission", Unit::Nanoseconds);
        report.figure(rt, line, self.emitted, emission, values);
        let receipts = Measured {
            total: self.accounted,
            nanoseconds: self.nanoseconds,
        };
        let line = line_of(scenario, "receipts", Unit::MillionsASecond);
        report.figure(rt, line, self.received, receipts, sent);
        report.share(rt, self.kept(scenario, sent), sent);
    }

    fn kept(self, scenario: &'static str, sent: u64) -> Portion {
        let tenths = self.received.wrapping_mul(1000).checked_div(sent);
        Portion {
            subject: Subject::Lane,
            scenario,
            name: "kept",
            tenths: tenths.unwrap_or(0),
            sent,
            total: self.accounted,
        }
    }
}

fn line_of(scenario: &'static str, name: &'static str, unit: Unit) -> Line {
    Line {
        subject: Subject::Lane,
        scenario,
        name,
        unit,
    }
}

/// Counts with a new lane.
fn measured<R>(rt: &R, config: Config, values: u64) -> Result<Counts, Fault>
where
    R: Clock + AllocGlobal + RandomSource + Threads + Wait + Sync,
{
    let (lane, sequencer) = Lane::new(rt.alloc(), config)?;
    // Not beside the sequencer, which each emission changes.
    let lane = Box::new(rt.alloc(), lane)?;
    let mut sequencer = LaneSequencer::of(&lane, sequencer);
    counted_with(rt, &mut sequencer, config.subscribers, values)
}

/// The same with so many readers of a lane that has none.
fn counted_with<R>(
    rt: &R,
    sequencer: &mut LaneSequencer<'_>,
    readers: u32,
    values: u64,
) -> Result<Counts, Fault>
where
    R: Clock + AllocGlobal + RandomSource + Threads + Wait + Sync,
{
    let mut readers = admit_all(rt, sequencer, readers)?;
    let counts = run(rt, sequencer, &mut readers, values);
    end_all(rt, readers);
    Ok(counts)
}

impl Drains<&AtomicBool> for LaneReader<'_> {
    fn drain<R: Clock + Wait>(&mut self, rt: &R, end: &AtomicBool) {
        self.in_order = drain(rt, self, end);
    }
}

/// Who emits so many values, and then says that it is over.
#[derive(Drop)]
struct Flooding<'a, 'l> {
    sequencer: &'a mut LaneSequencer<'l>,
    values: u64,
    over: &'a AtomicBool,
    /// The nanoseconds of it. None, where the clock can't be read.
    took: Option<u64>,
}

impl Works for Flooding<'_, '_> {
    fn work<R: Clock + Wait>(&mut self, rt: &R) {
        let start = now(rt);
        emit_all(rt, self.sequencer, self.values);
        self.over.store(true, Ordering::SeqCst);
        self.took = nanoseconds_since(rt, start);
    }
}

/// Emits while the readers take, and counts.
fn run<R>(
    rt: &R,
    sequencer: &mut LaneSequencer<'_>,
    readers: &mut Vec<LaneReader<'_>>,
    values: u64,
) -> Counts
where
    R: Clock + Threads + Wait + Sync,
{
    let over = AtomicBool::new(false);
    let start = now(rt);
    let mut flooding = Flooding {
        sequencer,
        values,
        over: &over,
        took: None,
    };
    work_beside(rt, &mut flooding, readers, &over);
    let emission = flooding.took;
    let nanoseconds = nanoseconds_since(rt, start);
    counts_of(sequencer, readers, emission, nanoseconds)
}

/// What was emitted and taken, with the nanoseconds of the emissions and of all.
fn counts_of(
    sequencer: &LaneSequencer<'_>,
    readers: &[LaneReader<'_>],
    emission: Option<u64>,
    nanoseconds: Option<u64>,
) -> Counts {
    let mut counts = Counts {
        emitted: sequencer.next_number(),
        received: 0,
        accounted: 0,
        emission,
        nanoseconds,
    };
    for reader in readers {
        counts.received = counts.received.wrapping_add(reader.received());
        let accounted = reader.in_order.wrapping_add(reader.dropped());
        counts.accounted = counts.accounted.wrapping_add(accounted);
    }
    counts
}

/// Emits the numbers from 1 to `values`.
#[inline(never)]
fn emit_all<R: Wait>(rt: &R, sequencer: &mut LaneSequencer<'_>, values: u64) {
    let mut last: u64 = 0;
    for _ in 0..values {
        if sequencer.emit(rt, last.wrapping_add(1)) {
            last = last.wrapping_add(1);
        }
    }
}

/// Takes values until nothing is left once the emissions are over, and gives their number, if they rose.
#[inline(never)]
fn drain<R: Wait>(rt: &R, reader: &mut LaneReader<'_>, over: &AtomicBool) -> u64 {
    let mut last: u64 = 0;
    let mut taken: u64 = 0;
    let mut rising = true;
    let mut pause = Pause::new();
    for _ in rt.forever() {
        let is_over = over.load(Ordering::SeqCst);
        match reader.try_next() {
            Taken::Value(value) => {
                rising = rising && last < value;
                last = value;
                taken = taken.wrapping_add(1);
                pause = Pause::new();
            }
            Taken::Nothing if is_over => break,
            Taken::Nothing => pause.wait(),
            Taken::Overtaken => {}
        }
    }
    if rising { taken } else { 0 }
}
