//! A shared flow between two threads: one emits, the other receives, and sleeps while nothing is there. Who emits lets the other one
//! go where it gives up.
#![tactic(auto)]

ghost use Rattle.std.specs.Prelude.{◌≡◌, None};

use flow_stopping::{Received, StoppableParker, Stopper};
use shared_core::{Config, Policy, Refusal};
use shared_flow::{Emitter, Parker, SharedFlow, Subscription};
use std::alloc::AllocGlobal;
use std::process::ExitCode;
use std::random::RandomSource;
use std::sync::Wait;
use std::thread::Threads;
use std::{io, thread};

/// Kotlin's `MutableSharedFlow(replay = 8)`, and the limits that Kotlin lacks.
const NEWS: Config = Config {
    replay: 8,
    extra: 0,
    policy: Policy::Suspend,
    subscribers: 1,
    emits: 1,
    first: 0,
};

/// Emits two values. There is room for them, so it doesn't wait.
fn emit_both(rt: &impl Wait, emitter: &mut Emitter<u64>, parker: &mut Parker) -> Result<(), Refusal>
    requires { emitter.old.ticket ≡ None }
{
    emitter.emit(rt, parker, 10)?;
    emitter.emit(rt, parker, 20)?;
    Ok(())
}

/// One thread: it emits, or gives up and lets the other go, which sleeps until the values are there.
fn send(
    rt: &impl Wait,
    emitter: &mut Emitter<u64>,
    parker: &mut Parker,
    other: &Stopper,
) -> Result<(), Refusal>
    requires { emitter.old.ticket ≡ None }
{
    let sent = emit_both(rt, emitter, parker);
    if sent.is_err() {
        other.stop();
    }
    sent
}

/// The other thread: it receives two values, and sleeps until each is there. Nothing where it was let go.
fn receive(
    rt: &impl Wait,
    reader: &mut Subscription<u64>,
    parker: &mut StoppableParker,
) -> Result<Option<(u64, u64)>, Refusal> {
    let Received::Value(first) = parker.next(rt, reader)? else {
        return Ok(None);
    };
    let Received::Value(second) = parker.next(rt, reader)? else {
        return Ok(None);
    };
    Ok(Some((first, second)))
}

/// Both threads. Where no second one can be had, `join` calls the second closure first, so the one that doesn't wait stands there. What
/// was made is ended on each path: an emitter and a subscription have no `Drop`.
fn run<R>(rt: &R) -> Result<Option<(u64, u64)>, Refusal>
where
    R: Wait + Threads + RandomSource + AllocGlobal + Sync,
{
    let mut sending = Parker::new(rt)?;
    let (mut receiving, stopper) = StoppableParker::new(rt)?;
    let mut flow = SharedFlow::new(rt.alloc(), NEWS)?;
    let mut reader = flow.subscribe(rt)?;
    let received = match flow.emitter(1) {
        Ok(mut emitter) => {
            let (received, sent) = thread::join(
                rt,
                || receive(rt, &mut reader, &mut receiving),
                ||
                    requires { emitter.ticket ≡ None }
                { send(rt, &mut emitter, &mut sending, &stopper) },
            );
            emitter.close(rt);
            sent.and(received)
        }
        Err(refusal) => Err(refusal),
    };
    reader.cancel(rt);
    received
}

fn main(rt: HostRuntime) -> io::Result<ExitCode> {
    match run(&rt) {
        Ok(Some((first, second))) => {
            println!(rt; "received: {first}, {second}")?;
            Ok(ExitCode::SUCCESS)
        }
        Ok(None) => {
            eprintln!(rt; "let go")?;
            Ok(ExitCode::FAILURE)
        }
        Err(refusal) => {
            eprintln!(rt; "refused: {refusal}")?;
            Ok(ExitCode::FAILURE)
        }
    }
}
