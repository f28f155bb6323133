//! A call on a state.

/// What a call did to a state. Contracts alone speak of it: the program keeps none.
#[derive(Clone, Copy)]
pub enum Round {
    /// The value was read, or compared, or asked for, and stays.
    Read,
    /// A value was written: the next of the history.
    Write,
    /// A watcher was given the value, which has this version.
    Give(u64),
}
