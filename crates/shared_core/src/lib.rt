//! Kotlin's shared flow on one thread, with every call proved against a model of its documentation.
//!
//! `SharedState` is the flow. Its page has a picture of the state, and says what a slow subscription meets.
//! `each_subscription_receives_prelude_cache_then_later` says what holds over any list of calls. The model is read first in
//! `specs/Flow.antt` and `specs/Calls.antt`.
#![tactic(auto)]

mod call;
mod config;
mod greetings;
mod headline;
mod laws;
mod place;
mod prelude;
mod queue;
mod rest;
mod ring;
mod slowest;
mod state;
mod tickets;

pub use call::{Call, Reply};
pub use config::Config;
pub use flow_terms::{Begun, Emit, Next, Policy, Refusal, SubId, Ticket, Tried, Withdrawn};
pub use headline::each_subscription_receives_prelude_cache_then_later;
pub use laws::each_subscription_has_its_story;
pub use prelude::Prelude;
pub use rest::Rest;
pub use state::SharedState;
