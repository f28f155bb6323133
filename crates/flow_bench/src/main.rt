//! Measures what the flows cost: `flow_bench [SCENARIO..]`.
//!
//! With scenarios it makes each of their measurements five times, and writes a line for each figure. Without one it makes
//! every measurement a thousandth of its size, once, and writes only what never varies: that is what the gate asks for.
//! The status is 0 where every check held, 1 for a fault, which is named on standard error, and 2, with nothing written,
//! where the command line names no scenario.
#![tactic(auto)]

mod blocks;
mod chains;
mod config;
mod core_receipts;
mod fan_out;
mod fault;
mod hot_chains;
mod jobs;
mod lane_ends;
mod lane_jobs;
mod lane_lossy;
mod measured;
mod more_chains;
mod pause;
mod receipts;
mod report;
mod scenario;
mod script_lines;
mod series;
mod shared_blocks;
mod shared_ends;
mod shared_fan_out;
mod shared_receipts;
mod sides;
mod split_values;
mod state_alone;
mod state_threads;
mod sums;
mod text_receipts;

use bench_figures::Size;
use fault::Fault;
use program_words::{Stop, WordsFault, plain_words, status_of, words_of};
use report::Report;
use scenario::Scenario;
use std::alloc::{AllocGlobal, Global};
use std::process::ExitCode;
use std::random::RandomSource;
use std::rt::{Clock, Env};
use std::sync::Wait;
use std::thread::Threads;

/// How often each measurement is made.
const REPEATS: u32 = 5;

/// The scenarios of these names.
fn named(alloc: Global, names: &[&str]) -> Result<Vec<Scenario>, WordsFault> {
    let mut scenarios = Vec::new(alloc);
    for name in names {
        let Some(scenario) = Scenario::of(name) else {
            return Err(WordsFault::Usage);
        };
        scenarios.push(scenario)?;
    }
    Ok(scenarios)
}

/// The scenarios that the command line asks for, in its order.
fn scenarios_asked<R: Env + AllocGlobal>(rt: &R) -> Result<Vec<Scenario>, WordsFault> {
    let words = words_of(rt)?;
    let names = plain_words(rt.alloc(), words.as_slice())?;
    named(rt.alloc(), names.as_slice())
}

/// Makes the measurements of each scenario, up to the first with a fault.
fn measure_all<R>(rt: &R, scenarios: &[Scenario], size: Size) -> Result<(), Fault>
where
    R: Clock + Print + AllocGlobal + RandomSource + Threads + Wait + Sync,
{
    let mut report = Report::new(size);
    for scenario in scenarios {
        scenario.measure(rt, &mut report);
        report.end()?;
    }
    Ok(())
}

/// Makes the measurements of these scenarios, and where there is none, every one in small.
fn measure<R>(rt: &R, scenarios: &[Scenario]) -> Result<(), Fault>
where
    R: Clock + Print + AllocGlobal + RandomSource + Threads + Wait + Sync,
{
    if scenarios.is_empty() {
        return measure_all(rt, Scenario::ALL.as_slice(), Size::Small);
    }
    for _repeat in 0..REPEATS {
        measure_all(rt, scenarios, Size::Full)?;
    }
    Ok(())
}

/// Makes what the command line asks for.
fn run<R>(rt: &R) -> Result<(), Stop<Fault>>
where
    R: Env + Clock + Print + AllocGlobal + RandomSource + Threads + Wait + Sync,
{
    let scenarios = scenarios_asked(rt)?;
    measure(rt, scenarios.as_slice()).map_err(Stop::Fault)
}

fn main(rt: HostRuntime) -> ExitCode {
    status_of(&rt, "flow_bench", run(&rt))
}
