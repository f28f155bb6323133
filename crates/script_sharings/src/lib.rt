//! What shares the sources of a script: into a shared flow for threads ([`ScriptSharing`]), or onto a state ([`Stated`]).
//!
//! A ghost member says what a tick does: it is one poll of the sharing, at that very moment.
#![tactic(auto)]

mod share;
mod stated;
mod ticks;

pub use share::ScriptSharing;
pub use stated::Stated;
