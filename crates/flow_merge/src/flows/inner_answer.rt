//! What a question to an inner run of a merge brings.

use cold_flow::Event;

/// What a question to an inner run brought.
#[derive(Drop)]
pub enum InnerAnswer<B, E> {
    /// A value, or the end of the whole.
    Gave(Event<B, E>),
    /// The run has finished, and left.
    Left,
    /// The run has finished, and so has the outer, or another run stands in its place.
    Followed,
    /// The run has finished and left, and the outer has nothing yet.
    OuterWaits,
    /// The run has nothing yet.
    Waits,
}
