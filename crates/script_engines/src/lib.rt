//! The flows and the states that a script may stand on: each answers the calls of a script by those of this repository's own.
//!
//! A ghost member says what each call does. Of a flow on one thread that is its model's call ([`OneThread`]); of one for threads the
//! round or the look of the party that made it: of an owner with its subscriptions ([`Subscriptions`]), and of emitters beside them
//! ([`ForThreads`]). Of a state it is the step that a seat which runs collectors ([`Watched`]) made on the history of the value; where
//! that seat has all seats, what a call answers is a function of the calls before it ([`acts_as_kept`]).
#![tactic(auto)]

mod for_threads;
mod laws;
mod one_thread;
mod subscriptions;
mod watched;

pub use for_threads::ForThreads;
pub use laws::acts_as_kept;
pub use one_thread::OneThread;
pub use subscriptions::Subscriptions;
pub use watched::Watched;
