//! What an operator answers for a value that may be the last.

ghost use Rattle.std.specs.Prelude.{◌≡◌, ⊤};

use cold_flow::Few;
use std::alloc::AllocError;

/// Up to four values, and whether it goes on: what `transform_while` is given for each value.
#[derive(Copy)]
pub enum Onward<U> {
    /// These values, and then it goes on.
    More(Few<U>),
    /// These values, and then it finishes.
    Stop(Few<U>),
}

impl<U: Copy> Clone for Onward<U> {
    ghost is_clone = { λ value copy. copy ≡ value };

    ghost is_infallible = { λ _. ⊤ };

    fn clone(&self) -> Result<Self, AllocError> {
        Ok(*self)
    }
}
