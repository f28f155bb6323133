//! Sources that do something: each run calls the code of its user, as in Kotlin's `flow { emit(api.load()) }`.
//!
//! ```text
//! let pages = catch_with(retry(calling(LoadPage { number }), 3, Always), Instead(NO_PAGE));
//! ```
//!
//! The code may read a file or ask a service, may fail, and may answer that it isn't done: then it is called again. So a `retry` over
//! it may succeed where the call before failed, and so does each collection by itself.
#![tactic(auto)]

mod code;
mod hand;

pub use code::{Call, Called, calling};
pub use cold_flow::{Flow, Step};
pub use hand::{HandedValues, handed};
