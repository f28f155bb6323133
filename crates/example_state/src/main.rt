//! A state flow between two threads: one sets it, the other sleeps until it changes.
#![tactic(auto)]

use state_waiting::{Collected, Refusal, WatchedSeat};
use std::alloc::AllocGlobal;
use std::process::ExitCode;
use std::rt::Clock;
use std::sync::Wait;
use std::thread::Threads;
use std::time::Duration;
use std::{io, thread};

/// The last value that is set.
const DONE: u64 = 100;

/// What the watching thread came to.
#[derive(Clone, Copy)]
struct Watched {
    last: Option<u64>,
    /// Whether each value was above the one before.
    rose: bool,
}

/// Sets the values from 1 to 100, with a short rest after each tenth of them. After the last one it stops who watches.
fn work<R: Clock>(rt: &R, mut seat: WatchedSeat<u64>) {
    for percent in 1..=DONE {
        seat.set(percent);
        if percent % 10 == 0 {
            thread::sleep(rt, Duration::from_millis(5));
        }
    }
    seat.stop();
}

/// Collects until it is stopped, and sleeps while nothing is new. It may miss values between: a watcher is given the latest one,
/// and the last one before it is told of the stop.
fn watch<R: Wait>(rt: &R, seat: WatchedSeat<u64>) -> Watched {
    let mut watcher = seat.collect();
    let mut watched = Watched {
        last: None,
        rose: true,
    };
    for _ in rt.forever() {
        match watcher.next(rt) {
            Collected::Value(percent) => {
                let is_above = watched.last.is_none_or(|before| before < percent);
                watched = Watched {
                    last: Some(percent),
                    rose: watched.rose && is_above,
                };
            }
            Collected::Stopped => break,
        }
    }
    let _seat = watcher.cancel();
    watched
}

/// Both threads, each with a seat of the state. Who waits for the other stands first: without a second thread it is called last.
fn run<R>(rt: &R) -> Result<Watched, Refusal>
where
    R: Clock + Wait + Threads + AllocGlobal + Sync,
{
    let mut worker = WatchedSeat::new(rt.alloc(), 0u64, 2)?;
    let watching = worker.take_seat(0)?;
    let (watched, ()) = thread::join(rt, move || watch(rt, watching), move || work(rt, worker));
    Ok(watched)
}

fn main(rt: HostRuntime) -> io::Result<ExitCode> {
    match run(&rt) {
        Ok(watched) => {
            println!(rt;
                "last: {:?}, each above the one before: {}",
                watched.last, watched.rose
            )?;
            Ok(ExitCode::SUCCESS)
        }
        Err(refusal) => {
            eprintln!(rt; "refused: {refusal}")?;
            Ok(ExitCode::FAILURE)
        }
    }
}
