//! What the workloads of a benchmark are made of: numbers that follow from a seed, and the digest of results.
#![tactic(auto)]

mod digest;
mod random;
mod scale;

pub use digest::Digest;
pub use random::{Random, seed_in};
pub use scale::Scale;
