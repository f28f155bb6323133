//! Measurements of one figure each.

use crate::config::config_of;
use crate::fault::Fault;
use crate::jobs::Job;
use crate::lane_jobs::{on_lane, on_lane_by_block};
use crate::measured::Measured;
use crate::report::{Line, Report};
use crate::sums::sum_to;
use crate::{
    chains, core_receipts, hot_chains, more_chains, shared_blocks, shared_fan_out, shared_receipts,
    split_values, state_alone, text_receipts,
};
use bench_figures::{Subject, Unit};
use cold_flow::Policy;
use std::alloc::AllocGlobal;
use std::random::RandomSource;
use std::rt::Clock;
use std::sync::Wait;
use std::thread::Threads;

/// What is measured, by which flow, and how its values go.
#[derive(Clone, Copy)]
enum Part {
    CoreReceipts,
    SharedReceipts,
    LaneReceipts,
    CoreBlocks,
    SharedBlocks,
    LaneBlocks,
    TextReceipts,
    LaneFanOut,
    SharedFanOut,
    LaneBlockFanOut,
    SharedBlockFanOut,
    Sets,
    Reads,
    SetsAndAsks,
    Split,
    Chain,
    Pairs,
    MoreChain,
    ByHand,
    Looks,
    Takes,
}

/// Measurements that differ by a number alone: of readers, or of places.
#[derive(Clone, Copy)]
pub(crate) struct Series {
    part: Part,
    subject: Subject,
    name: &'static str,
    unit: Unit,
    /// How many values or calls there are at full size.
    values: u64,
    /// The scenario in full, with its number.
    scenarios: &'static [(&'static str, u32)],
}

/// A series of what is counted in nanoseconds.
macro_rules! series {
    ($part:ident, $subject:ident, $name:literal, $values:expr, $scenarios:expr) => {
        Series {
            part: Part::$part,
            subject: Subject::$subject,
            name: $name,
            unit: Unit::Nanoseconds,
            values: $values,
            scenarios: $scenarios,
        }
    };
}

/// A series of values that go out to all, by the million a second.
macro_rules! fan_out {
    ($part:ident, $subject:ident, $values:expr, $scenarios:expr) => {
        Series {
            unit: Unit::MillionsASecond,
            ..series!($part, $subject, "values", $values, $scenarios)
        }
    };
}

const RECEIPTS: &[(&'static str, u32)] = &[
    ("receipts-n1", 1),
    ("receipts-n4", 4),
    ("receipts-n8", 8),
];

const BLOCKS: &[(&'static str, u32)] = &[
    ("receipts-by16-n1", 1),
    ("receipts-by16-n4", 4),
    ("receipts-by16-n8", 8),
];

const FAN_OUT: &[(&'static str, u32)] = &[
    ("fan-out-n1", 1),
    ("fan-out-n2", 2),
    ("fan-out-n4", 4),
    ("fan-out-n16", 16),
    ("fan-out-n32", 32),
];

const BLOCK_FAN_OUT: &[(&'static str, u32)] = &[
    ("fan-out-by64-n1", 1),
    ("fan-out-by64-n2", 2),
    ("fan-out-by64-n4", 4),
];

const ALONE: &[(&'static str, u32)] = &[("state-alone", 0)];

/// `receipts`: on one thread, value by value.
pub(crate) const RECEIPTS_BY_VALUE: &[Series] = &[
    series!(CoreReceipts, Core, "receipt", 2_000_000, RECEIPTS),
    series!(SharedReceipts, Shared, "receipt", 2_000_000, RECEIPTS),
    series!(LaneReceipts, Lane, "receipt", 2_000_000, RECEIPTS),
];

/// `receipts-by16`: the same by the block.
pub(crate) const RECEIPTS_BY_BLOCK: &[Series] = &[
    series!(CoreBlocks, Core, "receipt", 2_000_000, BLOCKS),
    series!(SharedBlocks, Shared, "receipt", 2_000_000, BLOCKS),
    series!(LaneBlocks, Lane, "receipt", 2_000_000, BLOCKS),
];

/// `texts`: of a flow of texts.
pub(crate) const TEXTS: &[Series] = &[series!(
    TextReceipts,
    Values,
    "receipt",
    2_000_000,
    &[("texts-n1", 1), ("texts-n4", 4), ("texts-n8", 8)]
)];

/// `fan-out`: between threads, fewer values to subscriptions, which sleep.
pub(crate) const FAN_OUT_BY_VALUE: &[Series] = &[
    fan_out!(LaneFanOut, Lane, 5_000_000, FAN_OUT),
    fan_out!(SharedFanOut, Shared, 2_000_000, FAN_OUT),
];

/// `fan-out-by64`: the same by the block.
pub(crate) const FAN_OUT_BY_BLOCK: &[Series] = &[
    fan_out!(LaneBlockFanOut, Lane, 10_000_000, BLOCK_FAN_OUT),
    fan_out!(SharedBlockFanOut, Shared, 10_000_000, BLOCK_FAN_OUT),
];

/// `state`, on one thread.
pub(crate) const STATE_ALONE: &[Series] = &[
    series!(Sets, State, "set", 5_000_000, ALONE),
    series!(Reads, State, "read", 5_000_000, ALONE),
    series!(SetsAndAsks, State, "set+ask", 5_000_000, ALONE),
];

/// `split`: the smallest capacity hands over fewer values, since its threads wait most.
pub(crate) const SPLIT: &[Series] = &[
    series!(Split, Buffer, "value", 500_000, &[("split-k4", 4)]),
    series!(
        Split,
        Buffer,
        "value",
        5_000_000,
        &[("split-k64", 64), ("split-k1024", 1024)]
    ),
];

/// `cold`: chains of cold flows.
pub(crate) const COLD: &[Series] = &[
    series!(Chain, Cold, "element", 10_000_000, &[("cold-chain", 0)]),
    series!(Pairs, Cold, "element", 10_000_000, &[("cold-zip", 0)]),
    series!(MoreChain, Cold, "element", 10_000_000, &[("cold-more", 0)]),
    series!(ByHand, Cold, "element", 10_000_000, &[("cold-by-hand", 0)]),
];

/// `hot`: a chain over a subscription, and looks alone.
pub(crate) const HOT: &[Series] = &[
    series!(Looks, Shared, "value", 6_400_000, &[("hot-looks", 0)]),
    series!(Takes, Shared, "value", 6_400_000, &[("hot-takes", 0)]),
];

/// How many values a block of `receipts-by16` has.
const RECEIPTS_BLOCK: usize = 16;

/// How many values a block of `fan-out-by64` has.
const FAN_OUT_BLOCK: usize = 64;

impl Part {
    /// Measures it once, with so many readers or places.
    fn measured<R>(self, rt: &R, number: u32, values: u64) -> Result<Measured, Fault>
    where
        R: Clock + AllocGlobal + RandomSource + Threads + Wait + Sync,
    {
        let calm = config_of(number, 64, Policy::Suspend);
        let wide = config_of(number, 1024, Policy::Suspend);
        let blocks = values / RECEIPTS_BLOCK as u64;
        match self {
            Part::CoreReceipts => core_receipts::receipts(rt, calm, values),
            Part::SharedReceipts => shared_receipts::receipts(rt, calm, values),
            Part::LaneReceipts => on_lane(rt, calm, Job::Receipts(values)),
            Part::CoreBlocks => core_receipts::receipts_by_block(rt, calm, RECEIPTS_BLOCK, blocks),
            Part::SharedBlocks => {
                shared_blocks::on_flow(rt, calm, RECEIPTS_BLOCK, Job::Receipts(blocks))
            }
            Part::LaneBlocks => on_lane_by_block(rt, calm, RECEIPTS_BLOCK, Job::Receipts(blocks)),
            Part::TextReceipts => text_receipts::receipts(rt, number, values),
            Part::LaneFanOut => on_lane(rt, wide, Job::FanOut(values)),
            Part::SharedFanOut => shared_fan_out::fanned_out(rt, wide, values),
            Part::LaneBlockFanOut => on_lane_by_block(rt, wide, FAN_OUT_BLOCK, Job::FanOut(values)),
            Part::SharedBlockFanOut => {
                shared_blocks::on_flow(rt, wide, FAN_OUT_BLOCK, Job::FanOut(values))
            }
            Part::Sets => state_alone::sets(rt, values),
            Part::Reads => state_alone::reads(rt, values),
            Part::SetsAndAsks => state_alone::sets_and_asks(rt, values),
            Part::Split => split_values::through(rt, u64::from(number), values),
            Part::Chain => chains::chain(rt, values),
            Part::Pairs => chains::pairs(rt, values),
            Part::MoreChain => more_chains::chain(rt, values),
            Part::ByHand => Ok(more_chains::by_hand(rt, values)),
            Part::Looks => hot_chains::by_looks(rt, values),
            Part::Takes => hot_chains::by_takes(rt, values),
        }
    }

    /// How many operations so many values are.
    fn operations(self, number: u32, values: u64) -> u64 {
        match self {
            Part::CoreReceipts
            | Part::SharedReceipts
            | Part::LaneReceipts
            | Part::CoreBlocks
            | Part::SharedBlocks
            | Part::LaneBlocks
            | Part::TextReceipts => values.wrapping_mul(u64::from(number)),
            _ => values,
        }
    }

    /// The total that is to come of so many values.
    fn wanted(self, number: u32, values: u64) -> u64 {
        match self {
            Part::CoreReceipts
            | Part::SharedReceipts
            | Part::LaneReceipts
            | Part::CoreBlocks
            | Part::SharedBlocks
            | Part::LaneBlocks
            | Part::TextReceipts => sum_to(values).wrapping_mul(u64::from(number)),
            Part::LaneFanOut
            | Part::SharedFanOut
            | Part::LaneBlockFanOut
            | Part::SharedBlockFanOut => values.wrapping_mul(u64::from(number)),
            Part::Sets | Part::Reads | Part::Split => values,
            Part::SetsAndAsks | Part::Looks => sum_to(values),
            // The even ones of 1 to `values`: twice the numbers up to half of them.
            Part::Chain => sum_to(values / 2).wrapping_mul(2),
            // Both sides have the numbers from 0 to below `values`.
            Part::Pairs => sum_to(values.saturating_sub(1)).wrapping_mul(2),
            Part::MoreChain | Part::ByHand => more_chains::total_of(values),
            // One more than each even number.
            Part::Takes => sum_to(values / 2).wrapping_mul(2).wrapping_add(values / 2),
        }
    }
}

impl Series {
    /// Makes each measurement once, and writes what it gave.
    pub(crate) fn measure<R>(self, rt: &R, report: &mut Report)
    where
        R: Clock + Print + AllocGlobal + RandomSource + Threads + Wait + Sync,
    {
        let values = report.count(self.values);
        for (scenario, number) in self.scenarios {
            if let Some(measured) = report.noted(self.part.measured(rt, *number, values)) {
                let line = Line {
                    subject: self.subject,
                    scenario,
                    name: self.name,
                    unit: self.unit,
                };
                let operations = self.part.operations(*number, values);
                let wanted = self.part.wanted(*number, values);
                report.figure(rt, line, operations, measured, wanted);
            }
        }
    }
}

/// Makes the measurements of each series.
pub(crate) fn measure_all<R>(rt: &R, all: &[Series], report: &mut Report)
where
    R: Clock + Print + AllocGlobal + RandomSource + Threads + Wait + Sync,
{
    for series in all {
        series.measure(rt, report);
    }
}
