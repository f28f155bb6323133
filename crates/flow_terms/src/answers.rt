//! The answers of the calls of a shared flow.

ghost use Rattle.std.specs.Prelude.{◌≡◌, ⊤};

use std::alloc::AllocError;

/// The answer of a try. `N` is how an accepted emission is named: its number, counted up from `first`.
#[derive(Clone, Copy, Debug, PartialEq, Eq)]
pub enum Tried<N> {
    /// It was accepted.
    Accepted(N),
    /// The policy dropped it, and nothing changed.
    Dropped,
    /// It would have to wait, and nothing changed.
    Full,
}

/// The answer at the start of an emission. `K` is the ticket of one that isn't finished.
#[derive(Copy, Debug, PartialEq, Eq)]
pub enum Begun<N, K> {
    /// It was accepted and is finished.
    Accepted(N),
    /// The policy dropped it, and nothing changed.
    Dropped,
    /// It isn't finished: it waits for room, or was accepted and is on its way to the subscriptions.
    Waiting(K),
}

impl<N: Copy, K: Copy> Clone for Begun<N, K> {
    ghost is_clone = { λ it copy. copy ≡ it };

    ghost is_infallible = { λ _. ⊤ };

    fn clone(&self) -> Result<Begun<N, K>, AllocError> {
        Ok(*self)
    }
}

/// Where an emission stands.
#[derive(Clone, Copy, Debug, PartialEq, Eq)]
pub enum Emit {
    /// It was accepted with this number and is finished; its ticket is taken back.
    Done(u64),
    /// It isn't finished.
    Waiting,
    /// The ticket isn't out.
    Gone,
}

/// What became of an emission that was given up.
#[derive(Clone, Copy, Debug, PartialEq, Eq)]
pub enum Withdrawn<N> {
    /// It waited and was never accepted.
    Removed,
    /// It was accepted, and its value stays with the subscriptions.
    Left(N),
    /// The ticket isn't out.
    Gone,
}

/// The next value of a subscription.
#[derive(Clone, Copy, Debug, PartialEq, Eq)]
pub enum Next<T> {
    /// The value, which is received with this answer.
    Value(T),
    /// No value is pending yet.
    Nothing,
    /// The subscription isn't live.
    Closed,
}
