//! What every flow shares, and cold flows of one source.
//!
//! A `Flow` is a plan: it can be collected any number of times, and nothing happens before. Each collection is a `Run` of its own,
//! which is polled: `poll_next` gives one value, the end, or nothing yet. An operator, as `map` or `take`, is a flow over a flow, so
//! a chain of them is one value, with no allocation of its own. `collect`, `to_list`, `fold` and `first` read a run.
//!
//! # How runs end
//! A run ends once, by a `Cause`: it finished, it failed with a fault of the caller's type, it was cancelled, or a call that it
//! depends on was refused. Every later poll gives the same end. `cancel` ends a run and all that it rests on; what a run still held
//! is given up. A run that is dropped is not told, so cancel it first where a source has to know.
//!
//! # What a run promises
//! Contracts see a run as the traces that it can still give (`may`). Each poll narrows them: what was given and what can still come
//! is always part of what could come before. An operator's traces are one function of its source's, so what comes out of a chain
//! over `of` or `range` is fixed by its contract.
//!
//! # Slow sources
//! A poll that left out 64 values in a row yields: it answers pending and asks to be polled again, so that no task holds its thread
//! for long. So do `collect`, `fold` and `first` after 64 values.
//!
//! The crate gives on what all flows share: why a call is refused (`Refusal`), what a full flow does with an emission
//! (`Policy`), the values that fit an atomic word (`Word`), and up to four values (`Few`).
#![tactic(auto)]

mod apply;
mod builders;
mod cause;
mod ends;
mod event;
mod flow;
mod operators;
mod run;

pub use apply::Apply;
pub use builders::listed::{Listed, failing, of};
pub use builders::range::{Numbers, range};
pub use builders::scripted::{Step, Stepped, scripted};
pub use builders::steps::{EndingRun, FiniteSteps, Steps};
pub use builders::unfold::{Unfolded, Unfolding, unfold};
pub use cause::Cause;
pub use ends::collect::{Collected, Collecting, Gathering, collect};
pub use ends::first;
pub use ends::first_value::First;
pub use ends::fold::{Folding, fold};
pub use ends::to_list::to_list;
pub use event::Event;
pub use flow::Flow;
pub use flow_terms::{Few, Policy, Refusal, Word};
pub use operators::catch_with::{Catching, Caught, catch_with};
pub use operators::closing::Closing;
pub use operators::distinct::{Differing, distinct};
pub use operators::drop_first::{Skipping, drop_first};
pub use operators::filter::{Testing, filter};
pub use operators::finale::{Concluded, ConcludedRun, Finale};
pub use operators::map::{Mapped, map};
pub use operators::on_completion::{Completing, on_completion};
pub use operators::sift::{Sift, Sifted};
pub use operators::take::{Taken, TakenRun, take};
pub use operators::transform::{Transformed, TransformedRun, transform};
pub use run::{BUDGET, Finite, Run};
