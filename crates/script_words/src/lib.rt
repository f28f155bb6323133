//! The lines of a script and the words of a line, and the fields and the segments that words are read as; the engine that a
//! word names.
#![tactic(auto)]

mod engine;
mod fields;
mod lines;
mod numbers;
mod segments;
mod start;
mod words;

pub use engine::Engine;
pub use fields::number_of;
pub use lines::Lines;
pub use numbers::Numbers;
pub use segments::Segments;
pub use start::{Entries, Start};
pub use words::Words;
