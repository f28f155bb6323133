//! An event log, a counter, and a program of two threads: callers of shared flows, proved from their contracts alone.
#![tactic(auto)]

mod counter;
mod event_log;
mod two_threads;

pub use counter::count_accepted;
pub use event_log::{log_all_there, log_events, log_one, log_whole};
pub use two_threads::emit_and_log;
