//! Operators over a run.

pub mod distinct;
pub mod filter;
pub mod map;
