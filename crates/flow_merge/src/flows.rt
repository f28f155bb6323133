//! The flows, one a file: the flow, its run, its poll.

pub mod bound;
pub mod combine;
pub mod flat_map_concat;
pub mod flat_map_merge;
pub mod inner_answer;
pub mod side;
pub mod standing;
pub mod turn;
pub mod zip;
