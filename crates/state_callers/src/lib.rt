//! Callers of states whose watchers sleep and of flows of any type, as the crates' documents show them. Each is proved from the contracts
//! of the crates below alone.
#![tactic(auto)]

mod flow_calling;
mod value_calling;
mod word_calling;

pub use flow_calling::{log_text, log_texts, logged_once};
pub use value_calling::{line_added, lines_awaited};
pub use word_calling::awaited_twice;
