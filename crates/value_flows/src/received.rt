//! What an emission comes to, and an ask for the next value of a subscription.

use crate::boxed::BoxedRing;
use round_lock::Guarded;

/// The answer to one who emits. A value that wasn't accepted is handed back.
#[derive(Debug, Drop)]
pub enum Emitted<T> {
    /// It was accepted under this number: so many were accepted before.
    Accepted(u64),
    /// The policy dropped it: `DropLatest`, where a subscription has no place free.
    Dropped(T),
    /// It would have to wait: `Suspend`, where a subscription has no place free.
    Full(T),
    /// It had to wait, and all who wait on the flow were let go.
    Stopped(T),
}

/// What one try to emit came to.
pub(crate) enum Offered<T> {
    /// It was accepted under this number, and this value was let go for it.
    Accepted(u64, Option<T>),
    /// The policy dropped it.
    Dropped(T),
    /// It would have to wait.
    Full(T),
}

/// What one turn of a wait for room came to.
pub(crate) enum Tried<T> {
    /// The wait is over.
    Over(Emitted<T>),
    /// There was no room for the value: the thread sleeps on this turn of the bell.
    Asleep(u32, T),
}

/// The answer to one who asks for the next value of a subscription.
#[derive(Debug, Drop)]
pub enum Received<T> {
    /// The next value, which is received with this answer.
    Value(T),
    /// So many values were dropped before they were received, as later ones needed their places. The next ask gives the oldest value
    /// that is kept.
    Missed(u64),
    /// There is none yet.
    Nothing,
    /// There is none, and all who wait on the flow were let go, or this subscription alone.
    Stopped,
}

/// What one ask came to.
pub(crate) enum Looked<T> {
    /// The next value is there. The lock is taken for it.
    There(Guarded<BoxedRing<T>>),
    /// So many were missed.
    Missed(u64),
    /// There is none.
    Nothing,
}

/// What a wait came to.
pub(crate) enum Awaited<T> {
    /// The next value is there. The lock is taken for it.
    There(Guarded<BoxedRing<T>>),
    /// So many were missed.
    Missed(u64),
    /// It was let go, and there is none.
    Stopped,
}

/// What one turn of a wait came to.
pub(crate) enum Attempt<T> {
    /// The wait is over.
    Over(Awaited<T>),
    /// There was nothing: the thread sleeps on this turn of the bell.
    Asleep(u32),
}
