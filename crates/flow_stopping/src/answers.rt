//! What a wait comes to that can be let go.

use shared_flow::Receipt;

/// What [`StoppableParker::next`](crate::StoppableParker::next) came to.
#[derive(Drop)]
pub enum Received<T> {
    /// The next value.
    Value(T),
    /// The parker was stopped, and nothing was received.
    Stopped,
}

/// What [`StoppableParker::emit`](crate::StoppableParker::emit) came to.
#[derive(Drop)]
pub enum Emitted {
    /// The value was accepted.
    Accepted(Receipt),
    /// The policy dropped the value.
    Dropped,
    /// The parker was stopped, and the value was not accepted.
    Stopped,
}
