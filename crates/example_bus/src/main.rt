//! An event bus on threads: two senders, two listeners that sleep while no message is there, and one who comes late.
#![tactic(auto)]

ghost use Rattle.std.specs.Prelude.{◌≡◌, None};

mod message;

use message::Message;
use shared_core::{Config, Policy};
use shared_flow::{Emitter, Parker, Refusal, SharedFlow, Subscription};
use std::alloc::AllocGlobal;
use std::io::Print;
use std::process::ExitCode;
use std::random::RandomSource;
use std::sync::Wait;
use std::thread::Threads;
use std::{io, thread};

/// Kotlin's `MutableSharedFlow(replay = 4, extraBufferCapacity = 60)`, and the limits that Kotlin lacks. There is room for all
/// messages, so no sender waits for a listener.
const BUS: Config = Config {
    replay: 4,
    extra: 60,
    policy: Policy::Suspend,
    subscribers: 2,
    emits: 3,
    first: 0,
};

/// How many messages each sender sends.
const EACH: u32 = 10;

/// The last message of all.
const END: Message = Message {
    sender: 0,
    number: 0,
};

/// What the bus and its threads need of a runtime: to wait, to start threads, to name a parker and to take memory. `Sync`, since
/// it is lent to each thread.
trait Runtime: Wait + Threads + RandomSource + AllocGlobal + Sync {}

impl<R: Wait + Threads + RandomSource + AllocGlobal + Sync> Runtime for R {}

/// What the listeners heard.
#[derive(Drop)]
struct Heard {
    one: Vec<Message>,
    other: Vec<Message>,
    late: Vec<Message>,
}

/// Sends the messages of one sender: a loop of `emit`. It needs that nothing is in flight, and `emit` leaves nothing in flight.
fn send_all(
    rt: &impl Wait,
    emitter: &mut Emitter<Message>,
    parker: &mut Parker,
    sender: u32,
) -> Result<(), Refusal>
    requires { emitter.old.ticket ≡ None }
{
    for number in 1..=EACH {
        emitter.emit(rt, parker, Message { sender, number })?;
    }
    Ok(())
}

/// One sender's thread, with an owner of the bus that was moved into it, and an emitter and a parker of its own.
fn send(rt: &impl Runtime, mut bus: SharedFlow<Message>, sender: u32) -> Result<(), Refusal> {
    let mut parker = Parker::new(rt)?;
    let mut emitter = bus.emitter(sender)?;
    let sent = send_all(rt, &mut emitter, &mut parker, sender);
    emitter.close(rt);
    sent
}

/// An owner of the bus for each sender.
#[derive(Drop)]
struct Senders {
    one: SharedFlow<Message>,
    other: SharedFlow<Message>,
}

impl Senders {
    fn of(bus: &mut SharedFlow<Message>) -> Result<Senders, Refusal> {
        let one = bus.dup()?;
        let other = bus.dup()?;
        Ok(Senders { one, other })
    }

    /// Both send, on two threads.
    fn send(self, rt: &impl Runtime) -> Result<(), Refusal> {
        let Senders { one, other } = self;
        let (first, second) = thread::join(
            rt,
            move || send(rt, one, 1),
            move || send(rt, other, 2),
        );
        first.and(second)
    }
}

/// Both senders, and then the last message, which is sent also where a sender gave up: the listeners wait for it.
fn send_both(
    rt: &impl Runtime,
    senders: Senders,
    closing: &mut Emitter<Message>,
    parker: &mut Parker,
) -> Result<(), Refusal>
    requires { closing.old.ticket ≡ None }
{
    let sent = senders.send(rt);
    closing.emit(rt, parker, END)?;
    sent
}

/// Listens up to the last message of all. The thread sleeps while none is there.
fn listen(rt: &impl Runtime, reader: &mut Subscription<Message>) -> Result<Vec<Message>, Refusal> {
    let mut parker = Parker::new(rt)?;
    let mut heard = Vec::new(rt.alloc());
    for _ in rt.forever() {
        let message = reader.next(rt, &mut parker)?;
        heard.push(message)?;
        if message == END {
            break;
        }
    }
    Ok(heard)
}

/// Listens from the replay cache on.
fn listen_late(rt: &impl Runtime, bus: &mut SharedFlow<Message>) -> Result<Vec<Message>, Refusal> {
    let mut reader = bus.subscribe(rt)?;
    let heard = listen(rt, &mut reader);
    reader.cancel(rt);
    heard
}

/// Both listeners, on two threads.
fn listen_both(
    rt: &impl Runtime,
    one: &mut Subscription<Message>,
    other: &mut Subscription<Message>,
) -> Result<(Vec<Message>, Vec<Message>), Refusal> {
    let (one, other) = thread::join(rt, || listen(rt, one), || listen(rt, other));
    Ok((one?, other?))
}

/// Listeners and senders at once. Where no thread can be had, `join` calls the second closure first, so the senders stand there.
fn exchange(
    rt: &impl Runtime,
    senders: Senders,
    closing: &mut Emitter<Message>,
    parker: &mut Parker,
    one: &mut Subscription<Message>,
    other: &mut Subscription<Message>,
) -> Result<(Vec<Message>, Vec<Message>), Refusal>
    requires { closing.old.ticket ≡ None }
{
    let (heard, sent) = thread::join(
        rt,
        || listen_both(rt, one, other),
        ||
            requires { closing.now.ticket ≡ None }
        { send_both(rt, senders, closing, parker) },
    );
    sent?;
    heard
}

/// All threads but the late listener's. What they need is made before they start, and lent to them or moved into them.
fn hear_both(
    rt: &impl Runtime,
    bus: &mut SharedFlow<Message>,
    one: &mut Subscription<Message>,
    other: &mut Subscription<Message>,
) -> Result<(Vec<Message>, Vec<Message>), Refusal> {
    let mut parker = Parker::new(rt)?;
    let senders = Senders::of(bus)?;
    let mut closing = bus.emitter(0)?;
    let heard = exchange(rt, senders, &mut closing, &mut parker, one, other);
    closing.close(rt);
    heard
}

/// Two listeners from the start, up to the last message.
fn hear(
    rt: &impl Runtime,
    bus: &mut SharedFlow<Message>,
) -> Result<(Vec<Message>, Vec<Message>), Refusal> {
    let mut first = bus.subscribe(rt)?;
    let heard = match bus.subscribe(rt) {
        Ok(mut second) => {
            let heard = hear_both(rt, bus, &mut first, &mut second);
            second.cancel(rt);
            heard
        }
        Err(refusal) => Err(refusal),
    };
    first.cancel(rt);
    heard
}

/// The bus with two listeners from the start, and one who comes when all is over.
fn run(rt: &impl Runtime) -> Result<Heard, Refusal> {
    let mut bus = SharedFlow::new(rt.alloc(), BUS)?;
    let (one, other) = hear(rt, &mut bus)?;
    let late = listen_late(rt, &mut bus)?;
    Ok(Heard { one, other, late })
}

/// Whether the messages of a sender are all there, in its order.
fn is_in_order(heard: &[Message], sender: u32) -> bool {
    let sent = heard.iter().filter(|message| message.sender == sender);
    sent.map(|message| message.number).eq(1..=EACH)
}

/// Says what was heard.
fn tell(rt: &impl Print, heard: &Heard) -> io::Result<()> {
    let Heard { one, other, late } = heard;
    let is_same = one == other;
    let are_in_order = is_in_order(one, 1) && is_in_order(one, 2);
    let are_last = one.as_slice().ends_with(late.as_slice());
    println!(rt; "heard: {}, by both the same: {is_same}", one.len())?;
    println!(rt; "each sender in order: {are_in_order}")?;
    println!(rt; "late: {}, the last ones: {are_last}", late.len())
}

fn main(rt: HostRuntime) -> io::Result<ExitCode> {
    match run(&rt) {
        Ok(heard) => {
            tell(&rt, &heard)?;
            Ok(ExitCode::SUCCESS)
        }
        Err(refusal) => {
            eprintln!(rt; "refused: {refusal}")?;
            Ok(ExitCode::FAILURE)
        }
    }
}
