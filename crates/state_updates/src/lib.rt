//! Updates of a state by a function of its value: Kotlin's `update { }`, `updateAndGet { }` and `getAndUpdate { }` of a
//! `MutableStateFlow`.
//!
//! ```text
//! update(rt, &mut seat, |count| count.wrapping_add(1));             // until nobody came between
//! let left = update_and_get(rt, &mut seat, |count| count / 2);
//! let done = try_update(&mut seat, 4, |count| count / 2);           // at most four tries
//! ```
//!
//! A try reads the value, calls the function, and sets what it answered where the value is still the one that was read. Where
//! another thread came between, it begins anew, so the function may be called more than once: it should do nothing but answer.
#![tactic(auto)]

mod updated;
mod updating;

pub use state_flow::{StateSeat, Word};
pub use updated::Updated;
pub use updating::{get_and_update, try_update, update, update_and_get};
