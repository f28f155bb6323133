//! The steps of both sides on the channel, one function for each kind.

ghost use Rattle.std.specs.Prelude.{◌≡◌, ◌++◌, [], ◌∷◌, ◌<◌, true, false, length, Option, Some, None, IfOk};
ghost use Rattle.crossbeam_channel.specs.Claims.{view as knows, IsSeatAt};
ghost use Rattle.crossbeam_channel.specs.Ends.{sends_on, receives_on, ruled_capacity};
ghost use Rattle.crossbeam_channel.specs.Fifo.{Held};
ghost use Rattle.flow_buffer.specs.Channel.{Sends, Offers, Overwrites, DropsOldest, Takes, MayTake, Looks, feed_side, drain_side};
ghost use Rattle.flow_buffer.specs.Sides.{Filled, Levels, may_drop};

use crate::rule::{Buffering, Missed, Missing, Overwriting, Sending, Taking};
use crate::side::Side;
use cold_flow::{Event, Policy};
use crossbeam_channel::{Pass, RuledReceiver, RuledSender, TrySendError};
use flow_terms::Fill;
use std::marker::Brand;
use std::sync::Wait;

pub(crate) type Sender<T, E> = RuledSender<Event<T, E>, Side<T, E>, Buffering>;

pub(crate) type Receiver<T, E> = RuledReceiver<Event<T, E>, Side<T, E>, Buffering>;

pub(crate) type Knowledge<T, E> = Pass<Event<T, E>, Side<T, E>>;

// Waits for a place. A send that finds no receiver is made again.
pub(crate) fn send<T: Copy, E: Copy, R: Wait>(
    rt: &R,
    sender: &Sender<T, E>,
    pass: &mut Knowledge<T, E>,
    item: Event<T, E>,
)
    requires channel { IsSeatAt (sends_on sender.now) pass.old }
    requires unended { knows pass.old ≡ feed_side (knows pass.old).lossy None (knows pass.old).produced (knows pass.old).level }
    ensures channel { IsSeatAt (sends_on sender.now) pass.new }
    ensures sent { Sends (knows pass.old) item (knows pass.new) }
{
    for _ in rt.forever() {
        if sender.send_as::<Sending, R>(rt, pass, item).is_ok() {
            return;
        }
    }
    unreachable!()
}

// Sends it unless the channel is full.
pub(crate) fn offer<T: Copy, E: Copy, R: Wait>(
    rt: &R,
    sender: &Sender<T, E>,
    pass: &mut Knowledge<T, E>,
    item: Event<T, E>,
) -> bool
    requires channel { IsSeatAt (sends_on sender.now) pass.old }
    requires unended { knows pass.old ≡ feed_side (knows pass.old).lossy None (knows pass.old).produced (knows pass.old).level }
    ensures channel { IsSeatAt (sends_on sender.now) pass.new }
    ensures sent { Offers (ruled_capacity (sends_on sender.now)) (knows pass.old) item result (knows pass.new) }
{
    for _ in rt.forever() {
        match sender.try_send_as::<Sending, R>(rt, pass, item) {
            Ok(()) => return true,
            Err(TrySendError::Full(_)) => return false,
            Err(_) => {}
        }
    }
    unreachable!()
}

// Takes the oldest value out, if there is one.
pub(crate) fn drop_oldest<T: Copy, E: Copy, R: Wait>(
    rt: &R,
    receiver: &Receiver<T, E>,
    pass: &mut Knowledge<T, E>,
) -> bool
    requires channel { IsSeatAt (receives_on receiver.now) pass.old }
    requires unended { knows pass.old ≡ feed_side true None (knows pass.old).produced (knows pass.old).level }
    ensures channel { IsSeatAt (receives_on receiver.now) pass.new }
    ensures dropped { DropsOldest (knows pass.old) result (knows pass.new) }
{
    receiver.try_recv_as::<Overwriting, R>(rt, pass).is_ok()
}

// Notes that a new value was dropped.
fn note<T: Copy, E: Copy, W: Missed<T>>(sender: &Sender<T, E>, pass: &mut Knowledge<T, E>, value: T)
    requires value { W.value ≡ Some value }
    requires channel { IsSeatAt (sends_on sender.now) pass.old }
    requires unended { knows pass.old ≡ feed_side true None (knows pass.old).produced (knows pass.old).level }
    ensures channel { IsSeatAt (sends_on sender.now) pass.new }
    ensures dropped { knows pass.new ≡ feed_side true None ((knows pass.old).produced ++ (true, value) ∷ []) (knows pass.old).level }
{
    let _spare = sender.another::<Missing<W>>(pass);
}

pub(crate) fn drop_latest<T: Copy, E: Copy>(
    sender: &Sender<T, E>,
    pass: &mut Knowledge<T, E>,
    value: T,
)
    requires channel { IsSeatAt (sends_on sender.now) pass.old }
    requires unended { knows pass.old ≡ feed_side true None (knows pass.old).produced (knows pass.old).level }
    ensures channel { IsSeatAt (sends_on sender.now) pass.new }
    ensures dropped { knows pass.new ≡ feed_side true None ((knows pass.old).produced ++ (true, value) ∷ []) (knows pass.old).level }
{
    note::<T, E, Brand>(sender, pass, value);
}

// Puts a value in, as the policy says.
pub(crate) fn put<T: Copy, E: Copy, R: Wait>(
    rt: &R,
    sender: &Sender<T, E>,
    receiver: &Receiver<T, E>,
    pass: &mut Knowledge<T, E>,
    policy: Policy,
    value: T,
) -> Fill
    requires ends { receives_on receiver.now ≡ sends_on sender.now }
    requires channel { IsSeatAt (sends_on sender.now) pass.old }
    requires unended { knows pass.old ≡ feed_side (may_drop policy) None (knows pass.old).produced (knows pass.old).level }
    ensures channel { IsSeatAt (sends_on sender.now) pass.new }
    ensures unended { knows pass.new ≡ feed_side (may_drop policy) None (knows pass.new).produced (knows pass.new).level }
    ensures fill { Filled (ruled_capacity (sends_on sender.now)) policy (knows pass.old).produced value result (knows pass.new).produced }
    ensures level { Levels (ruled_capacity (sends_on sender.now)) (knows pass.old).level.held result (knows pass.new).level.held }
{
    match policy {
        Policy::Suspend => put_or_wait(rt, sender, pass, value),
        Policy::DropOldest => put_over_oldest(rt, sender, receiver, pass, value),
        Policy::DropLatest => put_or_drop(rt, sender, pass, value),
    }
}

// Puts a value in, and waits for a place where the channel is full. Only then is the send made that may sleep.
fn put_or_wait<T: Copy, E: Copy, R: Wait>(
    rt: &R,
    sender: &Sender<T, E>,
    pass: &mut Knowledge<T, E>,
    value: T,
) -> Fill
    requires channel { IsSeatAt (sends_on sender.now) pass.old }
    requires unended { knows pass.old ≡ feed_side false None (knows pass.old).produced (knows pass.old).level }
    ensures channel { IsSeatAt (sends_on sender.now) pass.new }
    ensures unended { knows pass.new ≡ feed_side false None (knows pass.new).produced (knows pass.new).level }
    ensures fill { Filled (ruled_capacity (sends_on sender.now)) Policy.Suspend (knows pass.old).produced value result (knows pass.new).produced }
    ensures level { Levels (ruled_capacity (sends_on sender.now)) (knows pass.old).level.held result (knows pass.new).level.held }
{
    if offer(rt, sender, pass, Event::Value(value)) {
        return Fill::Took;
    }
    send(rt, sender, pass, Event::Value(value));
    Fill::Took
}

// Puts a value in, over the oldest one where the channel is full.
fn put_over_oldest<T: Copy, E: Copy, R: Wait>(
    rt: &R,
    sender: &Sender<T, E>,
    receiver: &Receiver<T, E>,
    pass: &mut Knowledge<T, E>,
    value: T,
) -> Fill
    requires ends { receives_on receiver.now ≡ sends_on sender.now }
    requires channel { IsSeatAt (sends_on sender.now) pass.old }
    requires unended { knows pass.old ≡ feed_side true None (knows pass.old).produced (knows pass.old).level }
    ensures channel { IsSeatAt (sends_on sender.now) pass.new }
    ensures unended { knows pass.new ≡ feed_side true None (knows pass.new).produced (knows pass.new).level }
    ensures fill { Filled (ruled_capacity (sends_on sender.now)) Policy.DropOldest (knows pass.old).produced value result (knows pass.new).produced }
    ensures level { Levels (ruled_capacity (sends_on sender.now)) (knows pass.old).level.held result (knows pass.new).level.held }
{
    if offer(rt, sender, pass, Event::Value(value)) {
        return Fill::Took;
    }
    let dropped = drop_oldest(rt, receiver, pass);
    send(rt, sender, pass, Event::Value(value));
    if dropped { Fill::Overwrote } else { Fill::Took }
}

// Puts a value in, or drops it where the channel is full.
fn put_or_drop<T: Copy, E: Copy, R: Wait>(
    rt: &R,
    sender: &Sender<T, E>,
    pass: &mut Knowledge<T, E>,
    value: T,
) -> Fill
    requires channel { IsSeatAt (sends_on sender.now) pass.old }
    requires unended { knows pass.old ≡ feed_side true None (knows pass.old).produced (knows pass.old).level }
    ensures channel { IsSeatAt (sends_on sender.now) pass.new }
    ensures unended { knows pass.new ≡ feed_side true None (knows pass.new).produced (knows pass.new).level }
    ensures fill { Filled (ruled_capacity (sends_on sender.now)) Policy.DropLatest (knows pass.old).produced value result (knows pass.new).produced }
    ensures level { Levels (ruled_capacity (sends_on sender.now)) (knows pass.old).level.held result (knows pass.new).level.held }
{
    if offer(rt, sender, pass, Event::Value(value)) {
        return Fill::Took;
    }
    drop_latest(sender, pass, value);
    Fill::Dropped
}

// Waits for a message. A receive that finds no sender is made again.
pub(crate) fn receive<T: Copy, E: Copy, R: Wait>(
    rt: &R,
    receiver: &Receiver<T, E>,
    pass: &mut Knowledge<T, E>,
) -> Event<T, E>
    requires channel { IsSeatAt (receives_on receiver.now) pass.old }
    requires unended { knows pass.old ≡ drain_side (knows pass.old).lossy None (knows pass.old).taken (knows pass.old).history (knows pass.old).seen }
    ensures channel { IsSeatAt (receives_on receiver.now) pass.new }
    ensures taken { Takes (knows pass.old) result (knows pass.new) }
{
    for _ in rt.forever() {
        if let Ok(item) = receiver.recv_as::<Taking, R>(rt, pass) {
            return item;
        }
    }
    unreachable!()
}

// Takes the oldest message, if there is one.
pub(crate) fn try_receive<T: Copy, E: Copy, R: Wait>(
    rt: &R,
    receiver: &Receiver<T, E>,
    pass: &mut Knowledge<T, E>,
) -> Option<Event<T, E>>
    requires channel { IsSeatAt (receives_on receiver.now) pass.old }
    requires unended { knows pass.old ≡ drain_side (knows pass.old).lossy None (knows pass.old).taken (knows pass.old).history (knows pass.old).seen }
    ensures channel { IsSeatAt (receives_on receiver.now) pass.new }
    ensures taken { MayTake (knows pass.old) result (knows pass.new) }
{
    receiver.try_recv_as::<Taking, R>(rt, pass).ok()
}
