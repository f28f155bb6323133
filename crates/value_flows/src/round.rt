//! A call on a flow.

/// What a call did to what lies under the lock of a flow. Contracts alone speak of it: the program keeps none.
#[derive(Clone, Copy)]
pub enum Round {
    /// It was looked at, and stays.
    Look,
    /// A value was accepted: the next of the list.
    Emit,
    /// A subscription took this place, and is to receive the value with this number first.
    Begin(u64, u64),
    /// The subscription with this place was given the value with this number.
    Give(u64, u64),
    /// The subscription with this place was told that it missed so many values, from this number on.
    Miss(u64, u64, u64),
    /// The subscription with this place ended.
    End(u64),
    /// The replay cache was emptied.
    Forget,
}
