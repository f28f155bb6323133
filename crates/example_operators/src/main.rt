//! An operator of one's own over cold flows, and chains of those of `more_operators`.
#![tactic(auto)]

mod lambdas;
mod lists;
mod pairs;

use cold_flow::{Collected, Flow, Refusal, Run, range};
use futures::task::{Context, Doorbell, Poll, Solo};
use lambdas::{Add, Below, Half, Tally};
use lists::{counted, pairs, quiet, six, states, tries};
use more_operators::on_each;
use std::alloc::{AllocGlobal, Global};
use std::io;
use thiserror::Error;

/// Why the program ends early.
#[derive(Debug, Drop, Error)]
enum Fault {
    #[error("{0}")]
    Refused(#[from] Refusal),
    #[error("no output")]
    Host(#[from] io::Error),
}

/// Kotlin's `(1..3).asFlow().onEach { count++ }`, polled by hand: each value, and how many came so far.
fn poll_by_hand<R: Print>(rt: &R, cx: &mut Context<'_>) -> Result<(), Fault> {
    let mut run = on_each(range::<()>(1, 4), Tally { count: 0 }).start()?;
    for _ in 0..4 {
        if let Poll::Ready(event) = run.poll_next(cx) {
            println!(rt; "{event:?}, {} so far", run.action().count)?;
        }
    }
    Ok(())
}

/// Kotlin's `flow { emit(1); emit(2); throw Fault(fault) }.retry(2) { (it as Fault).number < 10 }.toList()`.
fn tries_of_two(
    alloc: Global,
    fault: u64,
    cx: &mut Context<'_>,
) -> Result<Collected<u64, u64>, Refusal> {
    tries(alloc, vec![in alloc; 1u64, 2]?, fault, 2, 10, cx)
}

/// When `quiet` is asked, in milliseconds: the second and the third number come 90 after the one before, and the others 1010, as in
/// the example of Kotlin's documentation.
const MOMENTS: [u64; 9] = [0, 90, 180, 1_190, 1_190, 2_200, 2_200, 2_200, 2_200];

/// All of them, with the context of one task.
fn run<R: Print + AllocGlobal>(rt: &R, cx: &mut Context<'_>) -> Result<(), Fault> {
    let list = pairs(rt.alloc(), 4, cx)?;
    println!(rt; "{:?}, {:?}", list.values, list.cause)?;
    let list = six(
        rt.alloc(),
        10,
        2,
        Half,
        Below { limit: 2 },
        Below { limit: 4 },
        Add,
        cx,
    )?;
    println!(rt; "{:?}, {:?}", list.values, list.cause)?;
    let list = states(rt.alloc(), 100, Add, 20, cx)?;
    println!(rt; "{:?}, {:?}", list.values, list.cause)?;
    let list = counted(rt.alloc(), 4, cx)?;
    println!(rt; "{:?}, {:?}", list.values, list.cause)?;
    poll_by_hand(rt, cx)?;
    for fault in &[7, 70] {
        let list = tries_of_two(rt.alloc(), *fault, cx)?;
        println!(rt; "{:?}, {:?}", list.values, list.cause)?;
    }
    for (now, event) in &quiet(rt.alloc(), 6, 1_000, &MOMENTS, cx)? {
        println!(rt; "at {now}: {event:?}")?;
    }
    Ok(())
}

fn main(rt: HostRuntime) -> Result<(), Fault> {
    let task = Solo::new(&rt, Doorbell::spinning())?;
    let mut cx = task.begin();
    let ran = run(&rt, &mut cx);
    cx.cancel();
    ran
}
