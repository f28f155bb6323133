//! Why a run ended.

use flow_terms::Refusal;

/// Why a run ended: what Kotlin's `onCompletion` is told, and more than it is told.
#[derive(Clone, Copy, Debug, PartialEq, Eq)]
pub enum Cause<E> {
    /// The run gave all that it had.
    Finished,
    /// The run failed with the caller's own fault: Kotlin's exception.
    Failed(E),
    /// The run was cancelled before it ended: Kotlin's `CancellationException`.
    Cancelled,
    /// A call that the run depends on was refused.
    Refused(Refusal),
}
