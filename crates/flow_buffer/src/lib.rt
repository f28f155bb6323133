//! Buffers between a cold flow and whoever collects it.
//!
//! In one task, [`buffer`] and [`conflate`] put a buffer behind a flow; its run is a [`Buffered`], which can be filled apart
//! from being polled. Between two threads, [`split`] starts a flow and gives the two ends of a buffer, a [`Feed`] and a
//! [`Drain`].
//!
//! A buffer holds the values that were produced and not yet taken, at most as many as its capacity:
//!
//! ```text
//!   source -> fill -> | newest .. .. oldest | -> take -> collector
//!                           \ dropped by the policy
//! ```
#![tactic(auto)]

mod buffer_flow;
mod buffered;
mod capacity;
mod drain;
mod ending;
mod feed;
mod inlet;
mod making;
mod meeting;
mod rule;
mod side;
mod splitting;
mod steps;
mod store;

pub use buffer_flow::Buffer;
pub use buffered::Buffered;
pub use capacity::MAX_CAPACITY;
pub use drain::Drain;
pub use feed::Feed;
pub use flow_terms::Fill;
pub use making::{buffer, conflate};
pub use meeting::agree;
pub use splitting::split;
