//! Callers of sources that are there once, and of sources that do something. They are proved from the contracts of the crates
//! below alone.
#![tactic(auto)]

mod calling_calling;
mod combining_calling;
mod receiving_calling;
mod updating_calling;

pub use calling_calling::{Always, Instead, NoMore, load_or};
pub use combining_calling::{Cost, Runtime, costs, costs_of_ten};
pub use receiving_calling::{Even, Half, five_halves};
pub use updating_calling::{count_one, count_within};
