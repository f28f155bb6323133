//! A call of a shared flow as a value, and its reply.

ghost use Rattle.std.specs.Prelude.{◌≡◌, ⊤};

use crate::prelude::Prelude;
use flow_terms::{Begun, Emit, Next, Refusal, SubId, Ticket, Tried, Withdrawn};
use std::alloc::AllocError;

/// A call of a shared flow.
#[derive(Copy)]
pub enum Call<T> {
    /// `try_emit`, by this emitter.
    Try(u32, T),
    /// `start_emit`, by this emitter.
    Start(u32, T),
    /// `poll_emit`
    Poll(Ticket),
    /// `cancel_emit`
    Withdraw(Ticket),
    /// `subscribe`
    Subscribe,
    /// `subscribe_with`
    SubscribeWith(Prelude<T>),
    /// `next`
    Next(SubId),
    /// `cancel`
    Cancel(SubId),
    /// `reset_replay`
    Reset,
    /// `subscription_count`
    Count,
}

impl<T: Copy> Clone for Call<T> {
    ghost is_clone = { λ it copy. copy ≡ it };

    ghost is_infallible = { λ _. ⊤ };

    fn clone(&self) -> Result<Call<T>, AllocError> {
        Ok(*self)
    }
}

/// The whole answer of a call.
#[derive(Copy, Debug, PartialEq, Eq)]
pub enum Reply<T> {
    /// To `try_emit`.
    Tried(Result<Tried<u64>, Refusal>),
    /// To `start_emit`.
    Begun(Result<Begun<u64, Ticket>, Refusal>),
    /// To `poll_emit`.
    Emit(Emit),
    /// To `cancel_emit`.
    Withdrawn(Withdrawn<u64>),
    /// To `subscribe` and `subscribe_with`.
    Sub(Result<SubId, Refusal>),
    /// To `next`.
    Next(Next<T>),
    /// To `cancel`.
    Cancelled(bool),
    /// To `reset_replay`, which has no answer.
    Reset,
    /// To `subscription_count`.
    Count(u32),
}

impl<T: Copy> Clone for Reply<T> {
    ghost is_clone = { λ it copy. copy ≡ it };

    ghost is_infallible = { λ _. ⊤ };

    fn clone(&self) -> Result<Reply<T>, AllocError> {
        Ok(*self)
    }
}
