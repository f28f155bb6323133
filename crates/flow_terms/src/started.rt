//! When a sharing is on: Kotlin's `SharingStarted`.

use crate::plan::Plan;

/// When the upstream of a sharing is collected, by the moments of its polls and the live subscriptions that they found:
/// Kotlin's `SharingStarted`. Moments and spans are whole milliseconds.
#[derive(Clone, Copy, Debug, PartialEq, Eq)]
pub enum Started {
    /// On from the first poll: `SharingStarted.Eagerly`.
    Eagerly,
    /// On from the first poll that finds a subscription: `SharingStarted.Lazily`.
    Lazily,
    /// On while there are subscriptions: `SharingStarted.WhileSubscribed`.
    WhileSubscribed {
        /// For how long after the last subscription it stays on: `stopTimeoutMillis`.
        stop: u64,
        /// How long after the stop the replay cache is reset, None for never: `replayExpirationMillis`.
        expire: Option<u64>,
    },
    /// As a plan commands: a strategy of the caller's own, `SharingStarted { }`.
    Custom(Plan),
}
