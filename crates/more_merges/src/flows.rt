//! The flows, one a file: the flow, its run, its poll.

pub mod combine_all;
pub mod flat_map_latest;
pub mod merge;
pub mod merge_all;
pub mod merge_indexed;
pub mod row;
pub mod sides;
pub mod standing;
