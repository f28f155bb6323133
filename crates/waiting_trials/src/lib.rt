//! Tests of waits between threads: that each comes to its end, and is let go at any moment. Nothing stands on this crate.
#![tactic(auto)]

#[cfg(test)]
mod combined_waits;
#[cfg(test)]
mod lock_threads;
#[cfg(test)]
mod stopped_waits;
