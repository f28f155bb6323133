//! What lies under the lock of a shared flow, and the one way through it.
//!
//! Each party of a flow, an owner, an emitter or a subscription, holds an [`Access`]. It [enters](Access::enter), and has what lies
//! under the lock, a [`Shared`]: the lane's sequencer, and those that sleep. It asks that for one thing, and [leaves](Access::leave)
//! with the [`Round`] that says what was asked and answered. So all rounds of a flow form one list, in the order in which the lock was
//! taken; each party's are its part of that list, and the list left the flow as it is (`Does`, `Found`, `Left`).
//!
//! Who leaves wakes those whom the round has helped, and no others (`WakesWhomItHelps`), and leaves the flag up where an emission may have to
//! wait for a receipt (`IsTied`): one word beside the lane, which a subscription looks at, without the lock, after it received.
//!
//! This crate has no flow that one could emit into: that is `shared_flow`, whose parties are written over it.
#![tactic(auto)]

mod access;
mod flag;
mod round;
mod shared;
mod wait_list;

pub use access::{Access, Inside};
pub use flag::Looker;
pub use round::{Emission, Round, begun_ticket};
pub use shared::{NewReader, Polled, Released, Shared, Track};
pub use state_bell::{LOOKS, pause};
pub use wait_list::WaitKey;
