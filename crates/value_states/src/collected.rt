//! What a wait for the next value of a state comes to.

use crate::versioned::Versioned;
use round_lock::Guarded;

/// What [`Watcher::next`](crate::Watcher::next) came to.
#[derive(Drop)]
pub enum Collected<T> {
    /// The value, of a version above each that the watcher was given before; or what was made of it.
    Value(T),
    /// All who wait on the state were let go, or this watcher alone, and there was nothing new.
    Stopped,
}

/// What a wait came to.
pub(crate) enum Awaited<T> {
    /// There is a value that the watcher wasn't given. The lock is taken for it.
    News(Guarded<Versioned<T>>),
    /// It was let go, and there is nothing new.
    Stopped,
}

/// What one turn of a wait came to.
pub(crate) enum Attempt<T> {
    /// The wait is over.
    Over(Awaited<T>),
    /// There was nothing: the thread sleeps on this turn of the bell.
    Asleep(u32),
}
