//! What an update came to.
ghost use Rattle.std.specs.Prelude.{◌≡◌, ⊤};

use std::alloc::AllocError;

/// What an update found and set, in one step.
#[derive(Copy)]
pub struct Updated<T> {
    /// The value that it found.
    pub found: T,
    /// What the function answered of that, and the state's value then.
    pub value: T,
}

impl<T: Copy> Clone for Updated<T> {
    ghost is_clone = { λ value copy. copy ≡ value };

    ghost is_infallible = { λ _. ⊤ };

    fn clone(&self) -> Result<Self, AllocError> {
        Ok(*self)
    }
}
