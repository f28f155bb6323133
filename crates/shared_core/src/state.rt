//! A shared flow on one thread: Kotlin's `MutableSharedFlow`, with each of its suspensions an answer that the caller sees.
//!
//! An accepted emission gets the next number. Its value joins the replay cache, and is pending for each live subscription
//! until that receives or loses it. With `replay` 2 and `extra` 2, after the emissions 0 to 5:
//!
//! ```text
//! emissions    0  1  2  3  4  5          the next one has number 6
//! cache                    4  5          the latest ones, for a subscription that comes now
//! live     a                  5          it received 0 to 4
//!          b         2  3  4  5          it received 0 and 1, and all its places are taken
//! accepted                 t  u          tickets of 4 and 5, which waited and weren't asked about since
//! waiting                        v  w    tickets of emissions without room, the oldest first
//! ```
//!
//! The values 2 to 5 are kept once, in a ring (`ring.rt`); `cache`, `a` and `b` are numbers that say where they stand in it.
//!
//! # A slow subscription
//!
//! Here `b` is slow. What it meets is up to the policy of the flow.
//!
//! - `Suspend`: it loses nothing and holds up every emitter. `try_emit` answers `Full`, `start_emit` gives a ticket and the
//!   emission waits. Each `next` of `b` makes room, and the oldest waiting emission is accepted at once.
//! - `DropOldest`: the emission is accepted and `b` loses 2. Subscription `a` loses nothing.
//! - `DropLatest`: the emission is dropped, for `a` and for the cache too.
//!
//! Without a live subscription there is always room. A subscription that is cancelled gives up what it has pending.
//!
//! # A flow without places
//!
//! Where `replay` and `extra` are both 0, no value can be kept for later. `start_emit` hands its value over: it is pending for
//! each live subscription, and the emission isn't finished until all of them received it or were cancelled. Its ticket stands
//! in `accepted` from the start. A `try_emit` can't wait for that and answers `Full`.
//!
//! # A prelude
//!
//! Whoever subscribes may hand in values for this subscription alone (`subscribe_with`). It receives these first, then the replay
//! cache as it stood at its start, then what is accepted later. They take no place: an emission waits for room only where values
//! of the flow fill the places, and no policy drops them. To be given one makes no room, so nothing that waits is accepted then.
//!
//! # Memory
//!
//! `new` reserves all memory. Of the calls only `run` takes more, for the replies.

ghost use Rattle.std.specs.Prelude.{◌≡◌, None, IfOk, IfSome, IfNone, IsOkUnless, OnOk, OnErr};
ghost use Rattle.shared_core.specs.Flow.{empty};
ghost use Rattle.shared_core.specs.Kept.{parameters_of, making_refusal};
ghost use Rattle.shared_core.specs.Runs.{Runs, call_of, reply_of};
ghost use Rattle.shared_core.specs.Calls as calls;
ghost use Rattle.shared_core.specs.Shown.{Follows, Shows};

mod blocks;
mod emissions;
mod replay;
mod subscriptions;

use crate::call::{Call, Reply};
use crate::config::Config;
use crate::greetings::Greetings;
use crate::queue::Queue;
use crate::ring::Ring;
use crate::tickets::{Accepted, OutTicket, Waiting};
use flow_terms::Refusal;
use std::alloc::{AllocError, Allocator, Global};
use std::marker::Model;

/// A shared flow on one thread: Kotlin's `MutableSharedFlow`. It never completes.
///
/// Contracts see its parameters, the next number, the replay cache, each live subscription with what it has pending, what is
/// left of preludes, how many subscriptions and tickets were given, and the tickets that are out. They see neither which emissions were accepted
/// nor what was received or lost: the states of the model have these, and each shows as such a picture. A call answers what
/// the model answers, whichever state it is that shows so, and leaves a flow that shows the model after the call.
pub struct SharedState<T: Copy> {
    config: Config,
    /// The last accepted values, with the replay cache and the place of each live subscription.
    ring: Ring<T>,
    /// The preludes that subscriptions are still being given.
    greetings: Greetings<T>,
    /// How many subscriptions were made.
    subscribed: u64,
    /// How many tickets were given.
    given: u64,
    /// The accepted emissions whose ticket is out, the oldest ticket first.
    accepted: Queue<OutTicket<Accepted>>,
    /// The emissions that wait for room, the oldest first. Their tickets are later than those of accepted ones.
    waiting: Queue<OutTicket<Waiting<T>>>,
}

impl<T: Copy> Model for SharedState<T> {
    ghost use Rattle.std.specs.Prelude.{◌≡◌, ◌++◌, map, length};
    ghost use Rattle.shared_core.specs.Shown.{Seen};
    ghost use Rattle.shared_core.specs.Kept.{AreNumbered, IsRingOf, AreTickets, parameters_of, shown_accepted, shown_waiting};

    ghost Value = { Seen T };

    ghost view = { λ s. record {
      parameters = parameters_of s.config;
      next_number = s.ring.next_number;
      cache = s.ring.cache;
      live = s.ring.live;
      rests = s.greetings.values;
      subscriptions = s.subscribed;
      tickets = s.given;
      out = map shown_accepted s.accepted.values ++ map shown_waiting s.waiting.values;
    } };

    ghost invariant = { λ s. record {
      numbers : AreNumbered s.config s.ring.next_number s.subscribed s.given (length s.waiting.values);
      ring : IsRingOf s.config s.ring;
      tickets : AreTickets s.config s.ring.next_number s.accepted s.waiting;
      greetings : s.greetings.limit ≡ s.config.subscribers;
    } };
}

// By hand: who lets one go proves this call alone, and nothing of what it is made of.
impl<T: Copy> Drop for SharedState<T> {
    fn drop(self) {
        let SharedState {
            config: _,
            ring,
            greetings,
            subscribed: _,
            given: _,
            accepted,
            waiting,
        } = self;
        drop(ring);
        drop(greetings);
        drop(accepted);
        drop(waiting);
    }
}

impl<T: Copy> SharedState<T> {
    /// A flow without subscriptions: Kotlin's `MutableSharedFlow(replay, extraBufferCapacity, onBufferOverflow)`.
    ///
    /// Reserves all memory that the flow will use. Refused, in this order: `TooLarge` where `replay` and `extra` are over
    /// 65,536 together; `PolicyNeedsBuffer` where both are 0 and the policy isn't `Suspend`; `BadLimit` where `subscribers` or
    /// `emits` is 0 or over 1,024, or `first` is over 2^62; `NoMemory`.
    pub fn new(alloc: Global, config: Config) -> Result<SharedState<T>, Refusal>
        ensures refused { IfSome (making_refusal config) (λ refusal. result ≡ Err refusal) }
        ensures made { IfNone (making_refusal config) (IsOkUnless result Refusal.NoMemory) }
        ensures shows { IfOk result (λ made. Shows made (empty (parameters_of config))) }
    {
        if let Some(refusal) = config.refusal() {
            return Err(refusal);
        }
        Ok(SharedState::reserved(alloc, config)?)
    }

    // All memory that the flow will use, and nothing in it.
    fn reserved(alloc: Global, config: Config) -> Result<SharedState<T>, AllocError>
        requires { making_refusal config ≡ None }
        ensures { IfOk result (λ made. Shows made (empty (parameters_of config))) }
    {
        let ring = Ring::new(alloc, &config)?;
        let greetings = Greetings::new(alloc, config.subscribers as usize)?;
        let accepted = Queue::new(alloc, config.emits as usize)?;
        let waiting = Queue::new(alloc, config.emits as usize)?;
        Ok(SharedState {
            config,
            ring,
            greetings,
            subscribed: 0,
            given: 0,
            accepted,
            waiting,
        })
    }

    /// Makes one call.
    fn make(&mut self, call: Call<T>) -> Reply<T>
        ensures { Follows (calls.step (call_of call)) self.old (reply_of result) self.new }
    {
        match call {
            Call::Try(emitter, value) => Reply::Tried(self.try_emit(emitter, value)),
            Call::Start(emitter, value) => Reply::Begun(self.start_emit(emitter, value)),
            Call::Poll(ticket) => Reply::Emit(self.poll_emit(ticket)),
            Call::Withdraw(ticket) => Reply::Withdrawn(self.cancel_emit(ticket)),
            Call::Subscribe => Reply::Sub(self.subscribe()),
            Call::SubscribeWith(prelude) => Reply::Sub(self.subscribe_with(prelude)),
            Call::Next(id) => Reply::Next(self.next(id)),
            Call::Cancel(id) => Reply::Cancelled(self.cancel(id)),
            Call::Reset => {
                self.reset_replay();
                Reply::Reset
            }
            Call::Count => Reply::Count(self.subscription_count()),
        }
    }

    /// Makes the calls in order, and adds the reply to each to `out`.
    ///
    /// Room for the replies is reserved first. Where there is no memory for that, the refusal is `NoMemory` and no call was made.
    pub fn run<A: Allocator>(
        &mut self,
        calls: &[Call<T>],
        out: &mut Vec<Reply<T>, A>,
    ) -> Result<(), Refusal>
        ensures memory { IsOkUnless result Refusal.NoMemory }
        ensures ok { OnOk result (Runs calls.now self.old out.old.items out.new.items self.new) }
        ensures err { OnErr result ((self.new ≡ self.old) × (out.new.items ≡ out.old.items)) }
    {
        out.reserve(calls.len())?;
        for call in calls {
            out.push_reserved(self.make(*call));
        }
        Ok(())
    }
}
