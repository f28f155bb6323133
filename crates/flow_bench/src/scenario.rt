//! The scenarios that can be measured.

use crate::report::Report;
use crate::series::{
    COLD, FAN_OUT_BY_BLOCK, FAN_OUT_BY_VALUE, HOT, RECEIPTS_BY_BLOCK, RECEIPTS_BY_VALUE, SPLIT,
    STATE_ALONE, Series, TEXTS, measure_all,
};
use crate::{lane_lossy, script_lines, state_threads};
use std::alloc::AllocGlobal;
use std::random::RandomSource;
use std::rt::Clock;
use std::sync::Wait;
use std::thread::Threads;

/// A scenario: a name that the command line may have, for some measurements.
#[derive(Clone, Copy)]
pub enum Scenario {
    /// `receipts`: receipts of a shared flow on one thread, by the core, by the flow for threads and by a lane.
    Receipts,
    /// `receipts-by16`: the same by blocks of 16 values.
    ReceiptsBy16,
    /// `fan-out`: a lane between threads that loses no value, and a shared flow.
    FanOut,
    /// `fan-out-by64`: the same by blocks of 64 values.
    FanOutBy64,
    /// `lossy`: a lane between threads that drops the oldest values.
    Lossy,
    /// `state`: a state flow, alone and between threads.
    State,
    /// `split`: a buffer between two threads.
    Split,
    /// `cold`: chains of cold flows.
    Cold,
    /// `hot`: a chain over a subscription, and looks alone.
    Hot,
    /// `script`: lines of a script.
    Script,
    /// `texts`: receipts of a shared flow of texts, on one thread.
    Texts,
}

impl Scenario {
    /// Every scenario.
    pub const ALL: [Scenario; 11] = [
        Scenario::Receipts,
        Scenario::ReceiptsBy16,
        Scenario::FanOut,
        Scenario::FanOutBy64,
        Scenario::Lossy,
        Scenario::State,
        Scenario::Split,
        Scenario::Cold,
        Scenario::Hot,
        Scenario::Script,
        Scenario::Texts,
    ];

    /// The scenario of that name.
    pub(crate) fn of(name: &str) -> Option<Scenario> {
        match name {
            "receipts" => Some(Scenario::Receipts),
            "receipts-by16" => Some(Scenario::ReceiptsBy16),
            "fan-out" => Some(Scenario::FanOut),
            "fan-out-by64" => Some(Scenario::FanOutBy64),
            "lossy" => Some(Scenario::Lossy),
            "state" => Some(Scenario::State),
            "split" => Some(Scenario::Split),
            "cold" => Some(Scenario::Cold),
            "hot" => Some(Scenario::Hot),
            "script" => Some(Scenario::Script),
            "texts" => Some(Scenario::Texts),
            _ => None,
        }
    }

    /// Those of its measurements that give one figure each.
    fn series(self) -> &'static [Series] {
        match self {
            Scenario::Receipts => RECEIPTS_BY_VALUE,
            Scenario::ReceiptsBy16 => RECEIPTS_BY_BLOCK,
            Scenario::FanOut => FAN_OUT_BY_VALUE,
            Scenario::FanOutBy64 => FAN_OUT_BY_BLOCK,
            Scenario::State => STATE_ALONE,
            Scenario::Split => SPLIT,
            Scenario::Cold => COLD,
            Scenario::Hot => HOT,
            Scenario::Texts => TEXTS,
            Scenario::Lossy | Scenario::Script => &[],
        }
    }

    /// Makes each measurement of the scenario once, and writes what it gave.
    pub(crate) fn measure<R>(self, rt: &R, report: &mut Report)
    where
        R: Clock + Print + AllocGlobal + RandomSource + Threads + Wait + Sync,
    {
        measure_all(rt, self.series(), report);
        match self {
            Scenario::Lossy => lane_lossy::measure(rt, report),
            Scenario::State => state_threads::measure(rt, report),
            Scenario::Script => script_lines::measure(rt, report),
            _ => {}
        }
    }
}
