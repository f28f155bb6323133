//! Tools of the crates of tests: what a table says that didn't come, what is made once more, a start that threads agree on, and whether
//! what came rises.
#![tactic(auto)]

mod again;
mod differences;
mod meeting;
mod rising;

pub use again::made_again;
pub use differences::Differences;
pub use meeting::Gathering;
pub use rising::rise_below;
