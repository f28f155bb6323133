//! Two states whose watcher sleeps until either changes: Kotlin's `combine(width, height) { w, h -> .. }.collect { }`.
//!
//! ```text
//! let (mut width, mut height, mut size) = paired(rt.alloc(), 640u64, 480u64)?;
//! width.set(800);                                                   // on one thread
//! width.stop();                                                     // ends the other's loop
//! let Some(fresh) = size.next(rt) else { break };                   // in a loop on another, which sleeps between
//! latest = (fresh.first.unwrap_or(latest.0), fresh.second.unwrap_or(latest.1));
//! ```
//!
//! Each state is one of `state_flow`'s. Who sets one of them does it by a [`RungSeat`], which rings the bell: a set by a seat of
//! another kind wakes nobody.
#![tactic(auto)]

mod fresh;
mod pair;
mod waiting;

pub use flow_terms::{Refusal, Word};
pub use fresh::Fresh;
pub use pair::{PairWatcher, paired};
pub use state_bell::Bell;
pub use state_flow::{Collector, StateSeat};
pub use state_waiting::RungSeat;
pub use waiting::next_of_two;
