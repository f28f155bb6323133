//! What a benchmark measures: how large a measurement is, and the figures that it gives.
#![tactic(auto)]

mod figure;
mod share;
mod size;
mod wrong_total;

pub use figure::{Figure, Subject, Unit};
pub use share::Portion;
pub use size::Size;
pub use wrong_total::WrongTotal;
