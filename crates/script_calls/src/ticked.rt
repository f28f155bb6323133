//! What a tick comes to.

use flow_terms::Refusal;

/// What one poll of a sharing comes to.
pub enum Ticked {
    /// The source is being collected.
    On,
    /// The source is not being collected.
    Off,
    /// The source failed by this fault, at this poll or before, and sharing has ended for good.
    Failed(u64),
    /// The start of the source was refused at this poll alone, or sharing has ended for good by a refusal.
    Refused(Refusal),
}
