//! The feed's end of the channel.

ghost use Rattle.std.specs.Prelude.{◌≡◌, ◌≢◌, ◌≤◌, ◌+◌, [], true, false, length, map, Option, Some, None, is_some, MatchBool, MatchOption};
ghost use Rattle.crossbeam_channel.specs.Claims.{view as knows, IsSeatAt};
ghost use Rattle.crossbeam_channel.specs.Ends.{sends_on, receives_on, ruled_capacity};
ghost use Rattle.flow_buffer.specs.Channel.{at_first, feed_side, Agree};
ghost use Rattle.flow_buffer.specs.Fitting.{channel_of, feed_view, IsFeed};
ghost use Rattle.cold_flow.specs.declared.event.Event.TheVariants.{Value, End};
ghost use Rattle.flow_terms.specs.declared.policy.Policy.TheVariants.{Suspend};
ghost use Rattle.flow_buffer.specs.Feed.{Settles};
ghost use Rattle.flow_buffer.specs.Sides.{Feeding, may_drop, saturated, drops, is_loss, Filled, Levels, WasFull};

use crate::drain::Drain;
use crate::rule::{Agreeing, Together};
use crate::steps::{Knowledge, Receiver, Sender, offer, put, send};
use cold_flow::{Cause, Event, Policy};
use flow_terms::Fill;
use std::marker::Model;
use std::sync::Wait;

/// The feed's end of the channel. It is let go by `spend`, which asks that an end was sent, so that no drain waits in vain, and by
/// `meet` with the drain itself. No other module reads its fields, so none lets it go otherwise.
pub struct Inlet<T: Copy, E: Copy> {
    sender: Sender<T, E>,
    // Takes the oldest value out, where the policy lets a full buffer drop it.
    receiver: Receiver<T, E>,
    pass: Knowledge<T, E>,
    policy: Policy,
    // How many values were dropped. It stays at its greatest.
    dropped: u64,
    // What came and found no place.
    waiting: Option<Event<T, E>>,
    // The end that was sent.
    sent: Option<Cause<E>>,
}

impl<T: Copy, E: Copy> Model for Inlet<T, E> {
    ghost Value = { Feeding T E };

    ghost view = { λ f. feed_view (sends_on f.sender) f.policy f.pass f.waiting f.sent };

    ghost invariant = { λ f. IsFeed (sends_on f.sender) (receives_on f.receiver) f.policy f.pass f.dropped f.waiting f.sent };
}

// Whether a value was dropped.
fn is_loss(fill: Fill) -> bool
    ensures { result ≡ is_loss fill }
{
    matches!(fill, Fill::Overwrote | Fill::Dropped)
}

impl<T: Copy, E: Copy> Inlet<T, E> {
    // The feed's end of a channel that nothing was sent into.
    pub(crate) fn new(
        sender: Sender<T, E>,
        receiver: Receiver<T, E>,
        pass: Knowledge<T, E>,
        policy: Policy,
    ) -> Inlet<T, E>
        requires ends { receives_on receiver ≡ sends_on sender }
        requires channel { IsSeatAt (sends_on sender) pass }
        requires fresh { knows pass ≡ feed_side (may_drop policy) None [] at_first }
        ensures { result ≡ record {
          channel = channel_of (sends_on sender);
          capacity = ruled_capacity (sends_on sender);
          policy = policy;
          produced = [];
          level = 0;
          waiting = None;
          sent = None;
        } }
    {
        Inlet {
            sender,
            receiver,
            pass,
            policy,
            dropped: 0,
            waiting: None,
            sent: None,
        }
    }

    // Puts a value in, as the policy says where the channel is full.
    pub(crate) fn fill(&mut self, rt: &impl Wait, value: T) -> Fill
        requires unended { self.old.sent ≡ None }
        ensures fill { Filled self.old.capacity self.old.policy self.old.produced value result self.new.produced }
        ensures level { Levels self.old.capacity self.old.level result self.new.level }
        ensures same { self.new ≡ record self.old { produced = self.new.produced; level = self.new.level; waiting = None } }
    {
        let fill = put(
            rt,
            &self.sender,
            &self.receiver,
            &mut self.pass,
            self.policy,
            value,
        );
        self.waiting = None;
        if is_loss(fill) {
            self.dropped = self.dropped.saturating_add(1);
        }
        fill
    }

    // Sends the end, which waits for a place and is never dropped.
    pub(crate) fn finish(&mut self, rt: &impl Wait, cause: Cause<E>)
        requires unended { self.old.sent ≡ None }
        ensures { self.new ≡ record self.old { waiting = None; sent = Some cause } }
    {
        send(rt, &self.sender, &mut self.pass, Event::End(cause));
        self.waiting = None;
        self.sent = Some(cause);
    }

    // Puts a value in as `fill` does. Where that would wait for a place, the value waits here, and the answer is `None`.
    pub(crate) fn try_fill(&mut self, rt: &impl Wait, value: T) -> Option<Fill>
        requires unended { self.old.sent ≡ None }
        ensures fill { MatchOption result ((self.old.policy ≡ Suspend) × WasFull self.old.capacity self.old.produced) (λ fill. Filled self.old.capacity self.old.policy self.old.produced value fill self.new.produced) }
        ensures level { MatchOption result (self.old.capacity ≤ self.old.level) (λ fill. Levels self.old.capacity self.old.level fill self.new.level) }
        ensures same { MatchOption result (self.new ≡ record self.old { waiting = Some (Value value) }) (λ _. self.new ≡ record self.old { produced = self.new.produced; level = self.new.level; waiting = None }) }
    {
        if self.policy != Policy::Suspend {
            return Some(self.fill(rt, value));
        }
        if offer(rt, &self.sender, &mut self.pass, Event::Value(value)) {
            self.waiting = None;
            return Some(Fill::Took);
        }
        self.waiting = Some(Event::Value(value));
        None
    }

    // Sends the end if there is a place, and says whether it did. Where there is none, the end waits here.
    pub(crate) fn try_finish(&mut self, rt: &impl Wait, cause: Cause<E>) -> bool
        requires unended { self.old.sent ≡ None }
        ensures { MatchBool result (self.new ≡ record self.old { waiting = None; sent = Some cause }) (WasFull self.old.capacity self.old.produced × (self.old.capacity ≤ self.old.level) × (self.new ≡ record self.old { waiting = Some (End cause) })) }
    {
        if offer(rt, &self.sender, &mut self.pass, Event::End(cause)) {
            self.waiting = None;
            self.sent = Some(cause);
            return true;
        }
        self.waiting = Some(Event::End(cause));
        false
    }

    // Puts what waits, which waits for a place.
    pub(crate) fn settle(&mut self, rt: &impl Wait)
        requires unended { self.old.sent ≡ None }
        ensures { Settles self.old.waiting self.old self.new }
    {
        match self.waiting {
            Some(Event::Value(value)) => {
                self.fill(rt, value);
            }
            Some(Event::End(cause)) => self.finish(rt, cause),
            None => {}
        }
    }

    // What waits for a place.
    pub(crate) fn waiting(&self) -> Option<Event<T, E>>
        ensures { result ≡ self.now.waiting }
    {
        self.waiting
    }

    pub(crate) fn has_ended(&self) -> bool
        ensures { result ≡ is_some self.now.sent }
    {
        self.sent.is_some()
    }

    pub(crate) fn dropped_count(&self) -> u64
        ensures { result ≡ saturated (drops self.now.produced) }
    {
        self.dropped
    }

    // Lets the channel go, once an end was sent.
    pub(crate) fn spend(self)
        requires ended { self.sent ≢ None }
    {
        let Inlet {
            sender: _,
            receiver: _,
            pass: _,
            policy: _,
            dropped: _,
            waiting: _,
            sent: _,
        } = self;
    }

    // Lets the channel go with the drain that takes out of it.
    pub(crate) fn meet(self, drain: Drain<T, E>)
        requires { drain.channel ≡ self.channel }
        ensures agree { Agree self.produced self.sent drain.taken drain.end drain.history }
        ensures put { drain.end ≢ None → self.waiting ≡ None }
        ensures all { drain.end ≢ None → length drain.taken + drops self.produced ≡ length self.produced }
        ensures whole { drain.end ≢ None → drain.lossy ≡ false → map (λ e. e.1) drain.taken ≡ map (λ e. e.1) self.produced }
    {
        let Inlet {
            sender,
            receiver: _,
            mut pass,
            policy: _,
            dropped: _,
            waiting: _,
            sent: _,
        } = self;
        let Drain {
            receiver: _,
            pass: other,
            taken: _,
            end: _,
        } = drain;
        sender.absorb::<Together>(&mut pass, other);
        sender.learn_as::<Agreeing>(&mut pass);
    }
}
