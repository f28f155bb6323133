//! A thread's side of a state in a soak: a seat by which it sets, and a collector that comes and leaves.

use crate::fault::Fault;
use crate::record::Record;
use state_flow::{Collector, StateSeat};

/// Where the values of the next thread begin, as a shift.
const APART: u32 = 32;

/// Its collector must be ended.
pub(crate) struct StateSide {
    seat: StateSeat<u64>,
    /// The seat of the collector while there is none.
    resting: Option<StateSeat<u64>>,
    collector: Option<Collector<u64>>,
    /// The last value that the collector gave of each thread.
    last: [Option<u64>; 5],
    /// The last value that the collector gave.
    latest: Option<u64>,
    sets: u64,
    given: u64,
    is_right: bool,
}

impl StateSide {
    pub(crate) fn new(seat: StateSeat<u64>, resting: StateSeat<u64>) -> StateSide {
        StateSide {
            seat,
            resting: Some(resting),
            collector: None,
            last: [None; 5],
            latest: None,
            sets: 0,
            given: 0,
            is_right: true,
        }
    }

    pub(crate) fn set(&mut self, value: u64) {
        self.seat.set(value);
        self.sets = self.sets.saturating_add(1);
    }

    // A value that the collector gave: each of a thread's is above its last one.
    fn hear(&mut self, value: u64) {
        self.given = self.given.saturating_add(1);
        self.latest = Some(value);
        match self.last.get_mut((value >> APART) as usize) {
            Some(last) if last.is_none_or(|last| last < value) => *last = Some(value),
            _ => self.is_right = false,
        }
    }

    pub(crate) fn ask(&mut self) {
        let Some(collector) = &mut self.collector else {
            return;
        };
        if let Some(value) = collector.try_next() {
            self.hear(value);
        }
    }

    /// Begins to collect, or ends it.
    pub(crate) fn come_or_leave(&mut self) {
        if let Some(collector) = self.collector.take() {
            self.resting = Some(collector.cancel());
            return;
        }
        let Some(seat) = self.resting.take() else {
            return;
        };
        self.last = [None; 5];
        self.latest = None;
        if let Some(before) = self.collector.replace(seat.collect()) {
            drop(before.cancel());
        }
    }

    /// Whether the collector, where there is one, gave this value last.
    pub(crate) fn has_last(&self, value: u64) -> bool {
        self.collector.is_none() || self.latest == Some(value)
    }

    /// Ends the collector, and adds what was done.
    pub(crate) fn end(self, record: &mut Record) {
        let StateSide {
            seat: _,
            resting: _,
            collector,
            last: _,
            latest: _,
            sets,
            given,
            is_right,
        } = self;
        if let Some(collector) = collector {
            drop(collector.cancel());
        }
        record.sets = sets;
        record.given = given;
        record.expect(is_right);
    }
}

/// Two more seats of a state: one to set it from, and one for a collector.
pub(crate) fn two_seats(
    other: &mut StateSeat<u64>,
) -> Result<(StateSeat<u64>, StateSeat<u64>), Fault> {
    let seat = other.take_seat(0)?;
    let resting = other.take_seat(0)?;
    Ok((seat, resting))
}
