//! What a script knows of the flows and states that its names stand for: the calls that it makes on them, as traits.
//!
//! A ghost member of each trait says what its calls do, as relations between what stood before a call, what the call was handed and
//! replied, and what stands after it. So whoever calls by these traits is proved without any flow, and each flow implements them by
//! what its own contracts say.
#![tactic(auto)]

mod mutable_shared;
mod mutable_state;
pub mod places;
mod shared;
mod shared_source;
mod state;
mod ticked;

pub use mutable_shared::MutableShared;
pub use mutable_state::MutableState;
pub use shared::Shared;
pub use shared_source::SharedSource;
pub use state::State;
pub use ticked::Ticked;
