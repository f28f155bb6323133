//! What a wait for the next value of a state comes to.

/// What [`Watcher::next`](crate::Watcher::next) came to.
#[derive(Drop)]
pub enum Collected<T> {
    /// The value, which differs from the last one that the watcher was given.
    Value(T),
    /// All who wait on the state were let go, or this watcher alone, and there was nothing new.
    Stopped,
}

/// What one turn of a wait came to.
pub(crate) enum Attempt<T> {
    /// The wait is over.
    Over(Collected<T>),
    /// There was nothing: the thread sleeps on this turn of the bell.
    Asleep(u32),
}
