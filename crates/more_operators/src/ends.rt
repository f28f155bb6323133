//! What answers one value of a run: the ends, one a file, and what they have in common.

pub mod all;
pub mod any;
pub mod count;
pub mod deciding;
pub mod last;
pub mod none;
pub mod reduce;
pub mod single;
