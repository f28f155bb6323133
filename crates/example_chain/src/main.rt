//! A cold chain: of the numbers from 1 up, the even ones, squared, the first three of those, as a list.
#![tactic(auto)]

ghost use Rattle.std.specs.Prelude.{◌*◌, ◌%◌, ◌^◌, nat_lt};

use cold_flow::{Apply, Collected, Flow, Refusal, filter, map, range, take, to_list};
use futures::task::{Context, Doorbell, Solo};
use std::alloc::Global;
use std::io;
use std::process::ExitCode;

/// Kotlin's `{ it % 2 == 0 }`. `gives` says of it what a contract sees.
#[derive(Clone, Copy)]
struct IsEven;

impl Apply<u64> for IsEven {
    type Out = bool;

    ghost gives = { λ _ number. nat_lt (number % 2) 1 };

    fn apply(&self, number: u64) -> bool {
        number % 2 < 1
    }
}

/// Kotlin's `{ it * it }`, modulo 2^64.
#[derive(Clone, Copy)]
struct Square;

impl Apply<u64> for Square {
    type Out = u64;

    ghost gives = { λ _ number. (number * number) % 2 ^ 64 };

    fn apply(&self, number: u64) -> u64 {
        number.wrapping_mul(number)
    }
}

/// Kotlin's `(1..<100).asFlow().filter { it % 2 == 0 }.map { it * it }.take(3).toList()`. The type `()` of faults says that nothing
/// here fails.
fn squares(alloc: Global, cx: &mut Context<'_>) -> Result<Collected<u64, ()>, Refusal> {
    let even = filter(range::<()>(1, 100), IsEven);
    let flow = take(map(even, Square), 3)?;
    to_list(alloc, flow.start()?, cx)
}

fn main(rt: HostRuntime) -> io::Result<ExitCode> {
    let task = Solo::new(&rt, Doorbell::spinning())?;
    let mut cx = task.begin();
    let list = squares(rt.alloc(), &mut cx);
    cx.cancel();
    match list {
        Ok(list) => {
            println!(rt; "{:?}, {:?}", list.values, list.cause)?;
            Ok(ExitCode::SUCCESS)
        }
        Err(refusal) => {
            eprintln!(rt; "refused: {refusal}")?;
            Ok(ExitCode::FAILURE)
        }
    }
}
