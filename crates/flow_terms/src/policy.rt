//! What a full flow does with an emission: Kotlin's `BufferOverflow`.

/// What happens to an emission that finds no room.
#[derive(Clone, Copy, Debug, PartialEq, Eq)]
pub enum Policy {
    /// The emission waits until there is room: `BufferOverflow.SUSPEND`.
    Suspend,
    /// The oldest value that nobody took yet makes room for it: `BufferOverflow.DROP_OLDEST`.
    DropOldest,
    /// The new value itself is dropped: `BufferOverflow.DROP_LATEST`.
    DropLatest,
}
