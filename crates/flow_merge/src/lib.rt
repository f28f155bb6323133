//! Cold flows of several sources: Kotlin's `zip`, `combine`, `flatMapConcat` and `flatMapMerge`.
//!
//! A flow of several sources is a flow like any other: it holds its sources, a start starts a run of each, and a poll asks them.
#![tactic(auto)]

mod flows;

pub use flows::bound::{Bound, KnownBound, Unbounded};
pub use flows::combine::{Combined, CombinedRun, combine};
pub use flows::flat_map_concat::{Concatenated, ConcatenatedRun, flat_map_concat};
pub use flows::flat_map_merge::{MAX_WORKERS, Merged, MergedRun, flat_map_merge};
pub use flows::turn::Turn;
pub use flows::zip::{Zipped, ZippedRun, zip};
