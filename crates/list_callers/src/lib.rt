//! Callers that take a whole list through a flow: its values through a buffer, its calls through a shared flow. Each is proved
//! from the contracts of the crates below alone, and wrong callers are refused.
#![tactic(auto)]

mod buffer_calling;
mod headline_caller;
mod taking_caller;

pub use buffer_calling::{buffered_list, conflated_list};
pub use headline_caller::run_new_flow;
pub use taking_caller::{Taken, offer_and_take};
