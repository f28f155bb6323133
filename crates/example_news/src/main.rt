//! A shared flow between two threads: one emits, the other takes the first five halves of even numbers.
#![tactic(auto)]

ghost use Rattle.std.specs.Prelude.{◌≡◌, ◌==◌, ◌/◌, ◌%◌, None};

use cold_flow::{Apply, Refusal};
use hot_sources::{emitter_and_subscription, filter, map, receiving, take_list};
use shared_core::{Config, Policy};
use shared_flow::{Emitter, Parker};
use std::alloc::AllocGlobal;
use std::random::RandomSource;
use std::sync::Wait;
use std::thread;
use std::thread::Threads;

/// Kotlin's `MutableSharedFlow(extraBufferCapacity = 20)`, and the limits that Kotlin lacks.
const NEWS: Config = Config {
    replay: 0,
    extra: 20,
    policy: Policy::Suspend,
    subscribers: 1,
    emits: 1,
    first: 0,
};

/// Kotlin's `{ it % 2 == 0 }`.
#[derive(Clone, Copy)]
struct Even;

impl Apply<u64> for Even {
    type Out = bool;

    ghost gives = { λ _ n. n % 2 == 0 };

    fn apply(&self, argument: u64) -> bool {
        argument % 2 == 0
    }
}

/// Kotlin's `{ it / 2 }`.
#[derive(Clone, Copy)]
struct Half;

impl Apply<u64> for Half {
    type Out = u64;

    ghost gives = { λ _ n. n / 2 };

    fn apply(&self, argument: u64) -> u64 {
        argument / 2
    }
}

/// What the threads need of a runtime.
trait Runtime: Wait + Threads + RandomSource + AllocGlobal + Sync {}

impl<R: Wait + Threads + RandomSource + AllocGlobal + Sync> Runtime for R {}

/// One thread: it emits the numbers from 1 to 20. There is room for all of them, so it doesn't wait.
fn send(rt: &impl Wait, emitter: &mut Emitter<u64>, parker: &mut Parker) -> Result<(), Refusal>
    requires { emitter.old.ticket ≡ None }
{
    for number in 1..=20 {
        emitter.emit(rt, parker, number)?;
    }
    Ok(())
}

/// The other takes. Without a second thread `join` calls its second closure first, so the one that doesn't wait stands there.
fn run(rt: &impl Runtime) -> Result<Vec<u64>, Refusal> {
    let mut parker = Parker::new(rt)?;
    let (mut emitter, mut news) = emitter_and_subscription(rt, NEWS)?;
    let mut halves = map(filter(receiving::<(), _, _>(&mut news, rt), Even), Half);
    let (taken, sent) = thread::join(
        rt,
        || take_list(rt, &mut halves, 5),
        ||
            requires { emitter.ticket ≡ None }
        { send(rt, &mut emitter, &mut parker) },
    );
    emitter.close(rt);
    news.cancel(rt);
    sent.and(taken)
}

fn main(rt: HostRuntime) -> Result<(), anyhow::Error> {
    println!(rt; "{:?}", run(&rt)?)?;
    Ok(())
}
