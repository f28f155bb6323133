//! Cold flows that are collected once for many: Kotlin's `shareIn` and `stateIn`.
//!
//! When the upstream is collected, and how it feeds the place where its values go, is [`sharing_upstream`]'s, whose public names are
//! given on here. Nothing runs by itself: a sharing is polled by whoever has it, with the moment handed in.
//!
//! # A flow that is shared
//! [`share_in`] takes a shared flow and emits into it. Each poll of its [`Sharing`] counts the flow's subscriptions, does what the
//! strategy commands, and, while sharing is on, offers what the upstream gives, each value once and in order. Where the flow lets an
//! emission wait, that value waits in the sharing, and the upstream isn't asked until it was accepted or withdrawn. A stop cancels the
//! run and withdraws the waiting emission; a reset empties the replay cache.
//!
//! # A state that is shared
//! [`state_in`] sets the initial value of a state flow. Each poll of its [`StateSharing`] counts the collectors, does what the strategy
//! commands, and, while sharing is on, sets what the upstream gives. A start begins a new run of the upstream, a stop cancels it, and a
//! reset sets the initial value again.
//!
//! # How sharing ends
//! An upstream that finishes gives nothing more until the next start, and ends no subscription and no collector. One that fails, or a
//! run or an emission that is refused, ends sharing for good; `fault` tells why. `close` ends it at any time.
//!
//! # What is not claimed
//! That any poll is made, and at which moments. That nobody else emits into the flow, or sets the state.
#![tactic(auto)]

mod flow_destination;
mod share;
mod sharing;
mod state_destination;
mod state_sharing;

pub use share::share_in;
pub use sharing::Sharing;
pub use sharing_upstream::{Command, Entry, Plan, Polled, Started, Strategy, polls};
pub use state_sharing::{StateSharing, state_in};
