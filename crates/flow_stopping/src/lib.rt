//! Waits on a shared flow that can be let go: in Kotlin, a coroutine's job that is cancelled while it is suspended in `emit` or in
//! `collect`.
//!
//! A thread that sleeps in `Subscription::next` or `Emitter::emit` sleeps until its value or its room is there. Where the other
//! side gives up, nobody wakes it. Who waits by a [`StoppableParker`] is let go by its [`Stopper`], from any thread:
//!
//! ```text
//! let (mut parker, stopper) = StoppableParker::new(rt)?;
//! let (received, sent) = thread::join(
//!     rt,
//!     || receive_all(rt, &mut subscription, &mut parker),    // by parker.next(rt, &mut subscription)
//!     || {
//!         let sent = emit_all(rt, &mut emitter, &mut other);
//!         if sent.is_err() {
//!             stopper.stop();                                // what the other waits for won't come
//!         }
//!         sent
//!     },
//! );
//! ```
#![tactic(auto)]

mod answers;
mod emitting;
mod parker;
mod receiving;
mod stopper;

pub use answers::{Emitted, Received};
pub use parker::StoppableParker;
pub use stopper::Stopper;
