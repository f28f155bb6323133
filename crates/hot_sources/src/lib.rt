//! Hot flows as sources of runs: what is received from a shared flow, or collected from a state, goes through operators and is
//! read by ends, as in Kotlin, where a `SharedFlow` and a `StateFlow` are flows.
//!
//! ```text
//! let mut chain = map(filter(receiving::<(), _, _>(&mut subscription, rt), Even), Half);
//! let list = take_list(rt, &mut chain, 5)?;                 // sleeps until there are five
//! chain.cancel();                                           // the subscription is as it was, and goes on
//! ```
//!
//! A run here borrows its subscription or collector, which is there once: so it is no `Flow`, and these operators go over runs.
//! It ends by `cancel` alone, which leaves what it borrowed as it is.
#![tactic(auto)]

mod mixing;
mod opening;
mod operators;
mod ringing;
mod sources;
mod waiting;

pub use cold_flow::{Apply, Cause, Differing, Event, Refusal, Run, Sift, Sifted, Testing, Word};
pub use mixing::{StateAndFlow, state_and_flow};
pub use opening::emitter_and_subscription;
pub use operators::distinct::distinct;
pub use operators::filter::filter;
pub use operators::map::{Changing, map};
pub use ringing::{OverStates, collect_list, next_rung};
pub use shared_flow::Parker;
pub use sources::both::{BothRun, combine};
pub use sources::collecting::{CollectingRun, collecting};
pub use sources::combining::{CollectingBothRun, LatestOfTwo, combining};
pub use sources::reading::{ReadingRun, reading};
pub use sources::receiving::{ReceivingRun, receiving};
pub use sources::watching::{WatchingRun, watching};
pub use waiting::{next_of, take_list, take_of};
pub use waking_states::{TaskBell, WakingSeat};
