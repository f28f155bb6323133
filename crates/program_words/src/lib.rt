//! What the command lines of the programs here ask for, and the status that a program ends with.
//!
//! It stands beside the flows, so that to read what `clap` promises keeps no flow and no script waiting.
#![tactic(auto)]

mod asked;
mod fault;
mod plain;
mod stop;
mod wish;

pub use asked::{engine_asked, engine_in, minutes_asked, minutes_in};
pub use fault::WordsFault;
pub use plain::{plain_words, words_of};
pub use stop::{Stop, status_of};
pub use wish::{Wish, wish_asked, wish_in};
