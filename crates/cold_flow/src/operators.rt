//! Operators over one source.

pub mod catch_with;
pub mod closing;
pub mod distinct;
pub mod drop_first;
pub mod filter;
pub mod finale;
pub mod map;
pub mod on_completion;
pub mod sift;
pub mod take;
pub mod transform;
