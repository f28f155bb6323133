//! States that wake a task: whoever sleeps for one of them and for something else besides, as in Kotlin's
//! `combine(state, flow) { .. }`, sleeps by wakers.
//!
//! ```text
//! let bell = TaskBell::new(rt.alloc())?;
//! let mut price = WakingSeat::over(seat, bell);      // of state_flow; set by it wakes the task
//! price.set(5);
//! price.stop();                                      // lets the task go, for good
//! ```
//!
//! A run over such a state is `watching` of `hot_sources`.
#![tactic(auto)]

mod bell;

pub use bell::TaskBell;
pub use flow_terms::Word;

/// A seat at a state, which wakes the task that sleeps by its bell; `stop` lets that task go. It takes no memory, and a lock for some
/// steps.
pub type WakingSeat<T> = state_waiting::RungSeat<T, TaskBell>;
