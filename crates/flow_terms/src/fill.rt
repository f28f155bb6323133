//! What filling a buffer once did.

/// What filling a buffer once did.
#[derive(Clone, Copy, Debug, PartialEq, Eq)]
pub enum Fill {
    /// The source gave a value, and the buffer took it.
    Took,
    /// The buffer took a value, and dropped the oldest one that nobody took yet to make room for it.
    Overwrote,
    /// The source gave a value, and the buffer dropped it, since it was full.
    Dropped,
    /// The buffer is full, and the source was not asked.
    Full,
    /// The source has nothing yet.
    Pending,
    /// The source has ended. So it is at every later call.
    Ended,
}
