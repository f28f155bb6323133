//! A state of any type that threads share: Kotlin's `MutableStateFlow(UiState(..))`.
#![tactic(auto)]

mod collected;
mod laws;
mod round;
mod rounds;
mod state;
mod versioned;
mod watcher;

pub use collected::Collected;
pub use laws::one_history;
pub use round::Round;
pub use state::ValueState;
pub use state_bell::Stopper;
pub use versioned::Versioned;
pub use watcher::Watcher;
