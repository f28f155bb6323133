//! The marks of a picture of a script: which there are, and where they stand, by the script's lines and their answers.
#![tactic(auto)]

mod answered;
mod deed;
mod firsts;
mod guests;
mod happening;
mod homes;
mod ledger;
mod loss;
mod mark;
mod marking;
mod moves;
mod numbers;
mod preludes;
mod reply;
mod rows;
mod said;
mod standing;
mod told;

pub use mark::{Kind, Mark, Row, Spot};
pub use marking::marks;
pub use said::Said;
