//! Lets four threads work at random over a shared flow and a state, and checks the place of every value:
//! `flow_soak [MINUTES]`.
//!
//! With a number it makes rounds for so many minutes, and writes what was done. Without one it makes a single round,
//! and writes only what never varies: that is what the gate asks for.
//!
//! The status is 0 where every value was in its place, 1 for a fault, which is named on standard error, and 2, with
//! nothing written, where the command line has no number.
#![tactic(auto)]

mod counts;
mod emitting_side;
mod fault;
mod places;
mod random;
mod receiving_side;
mod record;
mod rounds;
mod soak;
mod state_side;
mod worker;

use fault::Fault;
use program_words::{Stop, minutes_asked, status_of};
use soak::{soak_for, soak_once};
use std::alloc::AllocGlobal;
use std::process::ExitCode;
use std::random::RandomSource;
use std::rt::{Clock, Env};
use std::sync::Wait;
use std::thread::Threads;

/// Makes what the command line asks for.
fn run<R>(rt: &R) -> Result<(), Stop<Fault>>
where
    R: Env + Clock + Print + AllocGlobal + RandomSource + Threads + Wait + Sync,
{
    let soaked = match minutes_asked(rt)? {
        Some(minutes) => soak_for(rt, minutes),
        None => soak_once(rt),
    };
    soaked.map_err(Stop::Fault)
}

fn main(rt: HostRuntime) -> ExitCode {
    status_of(&rt, "flow_soak", run(&rt))
}
