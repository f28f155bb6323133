//! A state whose watchers sleep until it changes: Kotlin's `StateFlow.collect`, which suspends.
//!
//! A collector of `state_flow` that finds nothing new yields, so a thread that watches an idle state keeps a processor busy, or
//! rests by a clock. A [`Watcher`] is a collector that sleeps; who sets the value by a [`WatchedSeat`] wakes it:
//!
//! ```text
//! let mut seat = WatchedSeat::new(rt.alloc(), 0, 2)?;
//! let mut watcher = seat.take_seat(0)?.collect();
//! let ((), last) = thread::join(
//!     rt,
//!     || set_all(rt, &mut seat),                // by seat.set(value); at the end, or where it gives up, seat.stop()
//!     || watch(rt, &mut watcher),               // by watcher.next(rt): Collected::Value(value), or Collected::Stopped
//! );
//! seat.give_back(watcher.cancel());
//! ```
//!
//! # What a set costs
//! The swap of [`StateSeat::set`](state_flow::StateSeat::set), and one load of the number of those who sleep. Only where somebody
//! sleeps, or is about to, there is more: one addition, and a wake.
//!
//! # What a slow watcher misses
//! What a slow collector misses: each value that was replaced before it asked, and never the last one.
#![tactic(auto)]

mod collected;
mod rung;
mod seat;
#[cfg(test)]
mod tests;
mod watcher;

pub use collected::Collected;
pub use flow_terms::{Refusal, Word};
pub use rung::RungSeat;
pub use seat::WatchedSeat;
pub use state_bell::Stopper;
pub use watcher::Watcher;
