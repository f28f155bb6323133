//! What the history of a flow is made of: the calls that were made under its lock, with their answers.
ghost use Rattle.std.specs.Prelude.{◌≡◌};
ghost use Rattle.shared_rounds.specs.Tries.{ticket_of};

use flow_terms::Refusal;
use shared_core::{Begun, Emit, Ticket, Tried, Withdrawn};
use std::collections::LinkedList;

/// An emission: whose it is, and the word of its value.
#[derive(Clone, Copy, Drop)]
pub struct Emission {
    /// The id of its emitter.
    pub emitter: u32,
    /// The word of its value.
    pub word: u64,
}

/// A call that was made under the lock, with its answer. The program keeps none of them: contracts alone speak of them.
#[derive(Drop)]
pub enum Round {
    /// `Emitter::try_emit`, with the number of an accepted emission.
    Try(Emission, Result<Tried<u64>, Refusal>),
    /// `Emitter::try_emit_all`, with the emitter, the words of all its values, and how many of them were accepted, from the first on.
    TryAll(u32, LinkedList<u64>, Result<u64, Refusal>),
    /// `Emitter::start_emit`, with the number of an accepted emission or the ticket of one that waits.
    Start(Emission, Result<Begun<u64, Ticket>, Refusal>),
    /// `Emitter::poll_emit`.
    Poll(Ticket, Emit),
    /// A `poll_emit` whose ticket stood for an emission that isn't this emitter's latest, which no run of an `Emitter` shows:
    /// the ticket, the emitter, its last number, and that of the emission.
    StrayPoll(Ticket, u32, Option<u64>, u64),
    /// `Emitter::cancel_emit` or `close`, with an emission in flight.
    Withdraw(Ticket, Withdrawn<u64>),
    /// A `cancel_emit` whose ticket stood for an emission that isn't this emitter's latest, as above.
    StrayWithdraw(Ticket, u32, Option<u64>, u64),
    /// `SharedFlow::subscribe`, with the number of the subscription.
    Subscribe(Result<u64, Refusal>),
    /// A call of a `Subscription` that receives, where it took the lock and has a value, with the number of the subscription. What it
    /// received is its reader's.
    Next(u64),
    /// A `Subscription::poll_next` that found no value under the lock either, with the number of the subscription.
    Pending(u64),
    /// `Subscription::cancel`, with the number of the subscription.
    Cancel(u64),
    /// `SharedFlow::reset_replay`.
    Reset,
    /// `SharedFlow::replay_cache_into`, with the words that it read.
    Cache(Result<LinkedList<u64>, Refusal>),
    /// `SharedFlow::subscription_count`.
    Count(u32),
    /// `SharedFlow::hold`, up to `Held::release`, with the count of subscriptions.
    Hold(u32),
}

/// The ticket of an emission that isn't finished.
pub fn begun_ticket(begun: &Result<Begun<u64, Ticket>, Refusal>) -> Option<Ticket>
    ensures { result ≡ ticket_of begun.now }
{
    match begun {
        Ok(Begun::Waiting(ticket)) => Some(*ticket),
        Ok(Begun::Accepted(_)) => None,
        Ok(Begun::Dropped) => None,
        Err(_) => None,
    }
}
