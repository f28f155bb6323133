//! What a poll gives.

ghost use Rattle.std.specs.Prelude.{◌≡◌, ⊤};

use crate::cause::Cause;
use std::alloc::AllocError;

/// What a poll that is ready gives: one value, or the end.
#[derive(Copy, Debug, PartialEq, Eq)]
pub enum Event<T, E> {
    /// The next value.
    Value(T),
    /// The end, which every later poll gives again.
    End(Cause<E>),
}

impl<T: Copy, E: Copy> Clone for Event<T, E> {
    ghost is_clone = { λ value copy. copy ≡ value };

    ghost is_infallible = { λ _. ⊤ };

    fn clone(&self) -> Result<Self, AllocError> {
        Ok(*self)
    }
}
