//! Operators and ends of cold flows beyond those of `cold_flow`, in the form of those: each has its function on traces in `specs/`,
//! and its run answers, ends and stops as `cold_flow::Run` says.
#![tactic(auto)]

mod ends;
mod operators;

pub use ends::all::all;
pub use ends::any::{Seeking, any};
pub use ends::count::{Counting, count};
pub use ends::deciding::{Decide, Deciding};
pub use ends::last::{Latest, last};
pub use ends::none::none;
pub use ends::reduce::{Joining, reduce};
pub use ends::single::{Lone, Only, single};
pub use operators::act::Act;
pub use operators::again::Again;
pub use operators::chunk::Chunk;
pub use operators::chunked::{Gathering, chunked};
pub use operators::debounce::{Quiet, debounce};
pub use operators::distinct_by::{DifferingBy, distinct_by};
pub use operators::drop_while::{Dropping, drop_while};
pub use operators::filter_map::{Choosing, filter_map};
pub use operators::holding::Holding;
pub use operators::on_each::{Acting, on_each};
pub use operators::on_empty::{Defaulting, on_empty};
pub use operators::on_start::{Unchanged, on_start};
pub use operators::onward::Onward;
pub use operators::paced::{Pace, Paced, Timestamped, list_at};
pub use operators::relay::{Relay, Relayed, RelayedRun};
pub use operators::retry::{FiniteFlow, Regardless, Retried, RetriedRun, retry};
pub use operators::retry_when::retry_when;
pub use operators::running_reduce::{Reducing, running_reduce};
pub use operators::sample::{Windows, sample};
pub use operators::scan::{Scanned, ScannedRun, scan};
pub use operators::take_while::{Passing, PassingRun, take_while};
pub use operators::timeout::{Expiring, timeout};
pub use operators::transform_while::{Halting, transform_while};
pub use operators::with_index::{Numbering, with_index};
