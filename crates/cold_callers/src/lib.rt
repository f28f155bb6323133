//! Callers of cold flows, as the crates' documents show them. Each is proved from the contracts of the crates below
//! alone.
#![tactic(auto)]

mod cold_calling;
mod merge_calling;
mod more_calling;
mod source_calling;

pub use cold_calling::{Countdown, CountdownRun, chain, mapped_list, taken_down};
pub use merge_calling::{joined_list, zipped_lists};
pub use more_calling::six;
pub use source_calling::{Halve, Repeated, gathered_halves, mapped_halves, repeated_list};
