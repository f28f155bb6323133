//! Two states that two threads set, and the areas that a third one sees, which sleeps until either changes.
#![tactic(auto)]

ghost use Rattle.std.specs.Prelude.{◌*◌, ◌%◌, ◌^◌};

use cold_flow::{Apply, Refusal};
use hot_sources::{collect_list, combining, distinct};
use paired_states::{RungSeat, paired};
use std::alloc::AllocGlobal;
use std::random::RandomSource;
use std::sync::Wait;
use std::thread;
use std::thread::Threads;

/// Kotlin's `{ width, height -> width * height }`, modulo 2^64.
#[derive(Clone, Copy)]
struct Area;

impl Apply<(u64, u64)> for Area {
    type Out = u64;

    ghost gives = { λ _ size. (size.0 * size.1) % 2 ^ 64 };

    fn apply(&self, size: (u64, u64)) -> u64 {
        size.0.wrapping_mul(size.1)
    }
}

/// What the threads need of a runtime.
trait Runtime: Wait + Threads + RandomSource + AllocGlobal + Sync {}

impl<R: Wait + Threads + RandomSource + AllocGlobal + Sync> Runtime for R {}

/// One thread: it sets a state.
fn set_all(side: &mut RungSeat<u64>) {
    for length in 1..=10 {
        side.set(length);
    }
}

/// Both threads that set, and then who watches is let go.
fn set_both(rt: &impl Runtime, width: &mut RungSeat<u64>, height: &mut RungSeat<u64>) {
    let ((), ()) = thread::join(rt, || set_all(width), || set_all(height));
    width.stop();
}

/// The areas that were seen.
fn run(rt: &impl Runtime) -> Result<Vec<u64>, Refusal> {
    let (mut width, mut height, mut size) = paired(rt.alloc(), 0u64, 0u64)?;
    let mut areas = distinct(combining(&mut size.first, &mut size.second, Area));
    let (seen, ()) = thread::join(
        rt,
        || collect_list(rt, &size.bell, &mut areas),
        || set_both(rt, &mut width, &mut height),
    );
    let (_width, _height) = size.cancel();
    seen
}

fn main(rt: HostRuntime) -> Result<(), anyhow::Error> {
    let seen = run(&rt)?;
    println!(rt; "last: {:?}", seen.last())?;
    Ok(())
}
