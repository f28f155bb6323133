//! A shared flow of values of any type, between threads: Kotlin's `MutableSharedFlow` of a data class.
#![tactic(auto)]

mod bells;
mod boxed;
mod config;
mod cursors;
mod flow;
mod laws;
mod received;
mod ring;
mod round;
mod rounds;
mod subscription;

pub use config::Config;
pub use cursors::Cursors;
pub use flow::ValueFlow;
pub use flow_terms::{Policy, Refusal};
pub use laws::one_list_of_values;
pub use received::{Emitted, Received};
pub use ring::Ring;
pub use round::Round;
pub use state_bell::Stopper;
pub use subscription::Subscription;
