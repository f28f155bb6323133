//! The terms that all flows share: why a call is refused, what a full flow does, and what calls answer.
//!
//! Callers find each of them under the crate of the flow that they use, as `cold_flow::Refusal` or `shared_core::Tried`.
#![tactic(auto)]

mod answers;
mod command;
mod few;
mod fill;
mod ids;
mod plan;
mod policy;
mod refusal;
mod started;
mod word;

pub use answers::{Begun, Emit, Next, Tried, Withdrawn};
pub use command::Command;
pub use few::Few;
pub use fill::Fill;
pub use ids::{SubId, Ticket};
pub use plan::{Entry, Plan};
pub use policy::Policy;
pub use refusal::Refusal;
pub use started::Started;
pub use word::Word;
