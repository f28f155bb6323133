//! What the watchers of a state sleep by, whatever the state is made of: a bell that who changes it rings, who lets one watcher go
//! alone, how often a thread looks on before it sleeps, and how long it waits at most.
//!
//! It stands beside a state, and no contract speaks of it: who sleeps and who is woken is tested, and searched by a model.
//! `state_waiting` has it beside a word, `value_states` beside a value of any type.
#![tactic(auto)]

mod bell;
mod limit;
mod looking;
mod stopper;

pub use bell::{Bell, Ring};
pub use limit::Limit;
pub use looking::{LOOKS, pause};
pub use stopper::Stopper;
