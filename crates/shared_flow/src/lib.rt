//! Kotlin's `MutableSharedFlow` for threads: one flow on a lane, with any number of owners, emitters and subscriptions.
//!
//! A `SharedFlow` is an owner of the flow; `dup` makes another, for another thread. Whoever emits holds an `Emitter` of it,
//! whoever receives a `Subscription`. The side that emits stands behind a lock: the lane's sequencer, and those that sleep. A
//! subscription reads the lane with no lock.
//!
//! # One list of rounds
//! A *round* is a call that took the lock, with its answer. Each party keeps, for contracts alone, the rounds that it made; each
//! call's clause says that they grew by exactly this call with this answer. The rule of the lock says that between any two
//! calls there is one list of rounds of which each party's are its part, in its order, and that the flow is what exactly that list
//! left of a new one (`each_lock_has_one_list`). So the emissions that were accepted are those of that list, each emitter's in its
//! own order, and what a subscription received, then what is pending for it, is its prelude, the replay cache at its start and they,
//! less what its policy dropped (`each_subscription_receives_prelude_cache_then_later`).
//!
//! # Emitters and subscriptions must be spent
//! `Emitter` and `Subscription` have no `Drop`. An emitter ends by `close` and a subscription by `cancel`, and code that
//! forgets it doesn't compile. So a subscription that nobody has any more never holds up an emitter, and no emission stays in
//! flight without an owner.
//!
//! What has no `Drop` can't be moved into a thread: no closure may own it, and no channel carries it. It is made before the
//! threads start, lent to them by `&mut` in the closures of `thread::join`, and spent after the join:
//!
//! ```text
//! let mut emitter = flow.emitter(1)?;
//! let mut subscription = flow.subscribe(rt)?;
//! let passed = thread::join(rt, || emitted(rt, &mut emitter, 5), || received(rt, &mut subscription));
//! subscription.cancel(rt);
//! emitter.close(rt);
//! ```
//!
//! A `SharedFlow` has `Drop`, and may be moved into a thread.
//!
//! # Waiting
//! `start_emit` of an emission without room answers `Waiting`, and `poll_emit` asks for it; `poll_next` without a value is
//! pending. These wait for the lock alone. A pending poll has left the waker of its context in a table under the lock, or asked
//! to be polled again. A woken task polls once more; what its poll then answers, the wake doesn't say.
//!
//! A thread that has nothing else to do calls `Emitter::emit` and `Subscription::next`: each looks on for some microseconds without
//! the lock, makes these polls then, and sleeps by the thread's `Parker` between two of them.
//!
//! # Values by the block
//! `Emitter::try_emit_all` emits many values by one round, up to the first that isn't accepted, and `Subscription::try_next_all`
//! takes all that are there, as many as a vector has room for. Neither takes memory, and neither waits: `emit_all` and `next_all` do.
//!
//! # Who is woken
//! - An acceptance wakes each subscription that sleeps: the value is pending for it. Nothing else wakes one.
//! - A call that takes the lock wakes the emissions that sleep and are finished by then. A `try_next` or `try_next_all` takes no lock
//!   and wakes nobody.
//! - A withdrawal helps nobody: an emission that waited had taken no room, and an accepted value stays pending.
//! - A waker can't be thrown away, so who stops waiting by `cancel`, `cancel_emit` or `close` wakes its own task; and so does one
//!   that slept and is polled again without having been woken, where that poll ends its wait.
#![tactic(auto)]

mod emitter;
mod flow;
mod laws;
mod parker;
mod subscription;

pub use emitter::{CutShort, Emitter};
pub use flow::{Held, Kept, SharedFlow};
pub use flow_terms::{Refusal, Word};
pub use laws::{
    each_emitter_in_its_own_order, each_lock_has_one_list,
    each_subscription_receives_prelude_cache_then_later, one_list_of_rounds,
    taking_all_is_taking_each, values_are_lost_by_acceptances_alone,
};
pub use parker::Parker;
pub use shared_core::Prelude;
pub use shared_lane::{Met, Receipt, Taken};
pub use shared_rounds::{Emission, Round};
pub use subscription::Subscription;
