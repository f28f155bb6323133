//! Workloads of flows: `flow_workloads [events|threads|chains|waits|edges|CASE SEED]`, where CASE is one of the cases of `edges`.
//!
//! With a name and a number below 2^32 it makes that workload's own inputs from the number, runs them, and writes a digest of all
//! results. Without words it does a thousandth of each, for the number 1. The status is 0 where all was run, 1 for a fault, which is
//! named on standard error, and 2, with nothing written, for any other command line.
#![tactic(auto)]

mod acting;
mod actions;
mod answering;
mod chains;
mod course;
mod crowd;
mod edges;
mod ending;
mod events;
mod fan_out;
mod fault;
mod for_threads;
mod halves;
mod laggards;
mod listeners;
mod lookups;
mod merges;
mod narrow;
mod pending;
mod repeated;
mod rows;
mod sharing;
mod speakers;
mod states;
mod tallied;
mod tally;
mod threads;
mod tickets;
mod values;
mod waits;
mod workload;

use fault::Fault;
use program_words::{Stop, WordsFault, plain_words, status_of, words_of};
use std::alloc::{AllocGlobal, Global};
use std::process::ExitCode;
use std::random::RandomSource;
use std::rt::Env;
use std::sync::Wait;
use std::thread::Threads;
use workload::{Order, Workload};
use workload_inputs::Scale;

/// What these words ask for. Nothing, where there is none.
fn order_of(words: &[&str]) -> Result<Option<Order>, WordsFault> {
    match words {
        [] => Ok(None),
        [name, seed] => match Order::of(name, seed) {
            Some(order) => Ok(Some(order)),
            None => Err(WordsFault::Usage),
        },
        [_] | [_, _, _, ..] => Err(WordsFault::Usage),
    }
}

/// What the words of a command line ask for, the first of which is the program's own name.
fn order_in(alloc: Global, words: &[String]) -> Result<Option<Order>, WordsFault> {
    let plain = plain_words(alloc, words)?;
    order_of(plain.as_slice())
}

/// Runs a workload, and writes its digest.
fn report<R>(rt: &R, order: Order, scale: Scale) -> Result<(), Fault>
where
    R: Print + AllocGlobal + RandomSource + Threads + Wait + Sync,
{
    let digest = order.workload.run(rt, order.seed, scale)?;
    let value = digest.value();
    println!(rt; "{} {value:016x}", order.workload.name())?;
    Ok(())
}

/// Runs a thousandth of each workload.
fn report_all<R>(rt: &R) -> Result<(), Fault>
where
    R: Print + AllocGlobal + RandomSource + Threads + Wait + Sync,
{
    for workload in Workload::ALL {
        report(rt, Order { workload, seed: 1 }, Scale::Small)?;
    }
    Ok(())
}

/// Runs what the command line asks for.
fn run<R>(rt: &R) -> Result<(), Stop<Fault>>
where
    R: Env + Print + AllocGlobal + RandomSource + Threads + Wait + Sync,
{
    let words = words_of(rt)?;
    let ran = match order_in(rt.alloc(), words.as_slice())? {
        Some(order) => report(rt, order, Scale::Full),
        None => report_all(rt),
    };
    ran.map_err(Stop::Fault)
}

fn main(rt: HostRuntime) -> ExitCode {
    status_of(&rt, "flow_workloads", run(&rt))
}
