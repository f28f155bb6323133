//! Flows that come from nothing but values.

pub mod listed;
pub mod range;
pub mod scripted;
pub mod steps;
pub mod unfold;
