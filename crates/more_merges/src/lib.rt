//! Cold flows of several sources beyond those of `flow_merge`: Kotlin's `merge`, `flatMapLatest`, and `merge` and `combine` of a list.
#![tactic(auto)]

mod flows;

pub use flows::combine_all::{CombinedAll, combine_all};
pub use flows::flat_map_latest::{Switched, SwitchedRun, flat_map_latest};
pub use flows::merge::{Interleaved, InterleavedRun, merge};
pub use flows::merge_all::{ValueAlone, merge_all};
pub use flows::merge_indexed::{Indexed, IndexedRun, merge_indexed};
pub use flows::row::{ApplyAll, Row};
