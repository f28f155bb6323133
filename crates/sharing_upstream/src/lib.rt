//! When an upstream is collected, and how it feeds the place where its values go: Kotlin's `SharingStarted`, and what its `shareIn`
//! and `stateIn` have in common.
//!
//! # When an upstream is collected
//! A [`Strategy`] is told the moment of each poll and how many subscriptions that found, and commands a start, a stop, or a stop with
//! a reset. [`Started`] says by which rule. `Eagerly` starts at the first poll, `Lazily` at the first that finds a subscription, and
//! neither stops. `WhileSubscribed` is on while there are subscriptions, and for `stop` milliseconds after. Its time is counted from
//! the poll that first found none. Once `expire` milliseconds more have passed, what is shared is reset, once.
//!
//! `Custom` is a strategy of a caller's own, by a [`Plan`]: a list of at most 32 commands. Each poll takes at most the next [`Entry`]
//! of it, where the poll comes at its moment or later and finds a count in its range. What that commands is done, unless the command
//! before it was the same.
//!
//! # Who keeps the time
//! Nothing runs by itself. A sharing is polled by whoever has it, with the moment handed in, so a stop comes at the first poll after
//! its time. A moment earlier than one already handed in is taken as the latest one.
//!
//! # Where its values go
//! A [`Destination`] says how many listen, and is offered each value. [`poll_sharing`] is one poll over any of them: it counts, does what
//! the strategy commands, and, while sharing is on, offers what the [`Upstream`] gives, each value once and in order. While one waits
//! there, the upstream isn't asked.
//!
//! # How sharing ends
//! An upstream that finishes gives nothing more until the next start. One that fails, or a run or a value that is refused, ends sharing
//! for good; `fault` tells why. `close` ends it at any time.
//!
//! # An example
//! ```
//! let mut strategy = Strategy::new(Started::WhileSubscribed { stop: 100, expire: Some(50) });
//! strategy.step(10, 1);     // Some(Command::Start)
//! strategy.step(1000, 0);   // None
//! strategy.step(1100, 0);   // Some(Command::Stop)
//! strategy.step(1150, 0);   // Some(Command::StopAndReset)
//! ```
//!
//! # What is not claimed
//! That any poll is made, and at which moments.
#![tactic(auto)]

mod destination;
mod polling;
pub mod polls;
mod strategy;
mod upstream;

pub use destination::{Destination, Offer};
pub use flow_terms::{Command, Entry, Plan, Started};
pub use polling::{Polled, poll_sharing};
pub use strategy::Strategy;
pub use upstream::Upstream;
