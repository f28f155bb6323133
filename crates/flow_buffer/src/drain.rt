//! The side of a buffer between two threads that takes values out.

ghost use Rattle.std.specs.Prelude.{◌≡◌, length, Option};
ghost use Rattle.crossbeam_channel.specs.Ends.{receives_on};
ghost use Rattle.flow_buffer.specs.Fitting.{drain_view, IsDrain};
ghost use Rattle.flow_buffer.specs.Sides.{Draining, saturated, taken_after, end_by, Gave, MayGive};

use crate::steps::{Knowledge, Receiver, receive, try_receive};
use cold_flow::{Cause, Event};
use std::marker::Model;
use std::sync::Wait;

/// The collector's side of a buffer between two threads.
///
/// It is kept until its end. Where it is let go before, the feed may wait for good.
#[derive(Drop)]
pub struct Drain<T: Copy, E: Copy> {
    pub(crate) receiver: Receiver<T, E>,
    pub(crate) pass: Knowledge<T, E>,
    // How many values were taken. It stays at its greatest.
    pub(crate) taken: u64,
    // The end that was received.
    pub(crate) end: Option<Cause<E>>,
}

impl<T: Copy, E: Copy> Model for Drain<T, E> {
    ghost Value = { Draining T E };

    ghost view = { λ d. drain_view (receives_on d.receiver) d.pass d.end };

    ghost invariant = { λ d. IsDrain (receives_on d.receiver) d.pass d.taken d.end };
}

// How many values were taken once this message came.
fn taken_after<T: Copy, E: Copy>(taken: u64, event: Event<T, E>) -> u64
    ensures { result ≡ taken_after taken event }
{
    match event {
        Event::Value(_) => taken.saturating_add(1),
        Event::End(_) => taken,
    }
}

// The end, if that is what came.
fn end_by<T: Copy, E: Copy>(event: Event<T, E>) -> Option<Cause<E>>
    ensures { result ≡ end_by event }
{
    match event {
        Event::Value(_) => None,
        Event::End(cause) => Some(cause),
    }
}

impl<T: Copy, E: Copy> Drain<T, E> {
    /// The oldest value that was put in and neither taken nor dropped, or the end, which every later call gives again.
    ///
    /// It waits while the buffer is empty. With the end it is known what became of every value that the feed produced:
    /// each was taken or dropped, and under `Policy::Suspend` none was dropped. That the feed puts anything in isn't claimed.
    pub fn next(&mut self, rt: &impl Wait) -> Event<T, E>
        ensures gave { Gave self.old result self.new }
    {
        if let Some(cause) = self.end {
            return Event::End(cause);
        }
        let event = receive(rt, &self.receiver, &mut self.pass);
        self.taken = taken_after(self.taken, event);
        self.end = end_by(event);
        event
    }

    /// What [`Drain::next`] gives, without waiting for it: `None` where the buffer was empty and no end was received, and then
    /// nothing has changed.
    pub fn try_next(&mut self, rt: &impl Wait) -> Option<Event<T, E>>
        ensures gave { MayGive self.old result self.new }
    {
        if let Some(cause) = self.end {
            return Some(Event::End(cause));
        }
        match try_receive(rt, &self.receiver, &mut self.pass) {
            Some(event) => {
                self.taken = taken_after(self.taken, event);
                self.end = end_by(event);
                Some(event)
            }
            None => None,
        }
    }

    /// How many values were taken: a count that stays at 2^64 - 1 once it is there.
    pub fn taken_count(&self) -> u64
        ensures { result ≡ saturated (length self.now.taken) }
    {
        self.taken
    }
}
