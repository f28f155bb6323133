//! `map` over a run.

ghost use Rattle.std.specs.Prelude.{◌≡◌, Some, map as mapped_values, refl, ⊤};

use cold_flow::{Apply, Run, Sift, Sifted};
use std::alloc::AllocError;

/// Passes on what the function answers of each value.
#[derive(Copy)]
pub struct Changing<G> {
    function: G,
}

impl<G: Copy> Clone for Changing<G> {
    ghost is_clone = { λ value copy. copy ≡ value };

    ghost is_infallible = { λ _. ⊤ };

    fn clone(&self) -> Result<Self, AllocError> {
        Ok(*self)
    }
}

/// `function` of each value of `source` from now on: Kotlin's `map`, over a run.
pub fn map<S: Run, U: Copy, G: Apply<S::Item, Out = U>>(
    source: S,
    function: G,
) -> Sifted<S, Changing<G>>
    ensures { (result.source ≡ source) × (result.sift ≡ record { function = function }) }
{
    Sifted::over_run(source, Changing { function })
}

impl<T: Copy, U: Copy, G: Apply<T, Out = U>> Sift<T> for Changing<G> {
    type Out = U;

    ghost passes = { λ s. mapped_values (G.gives s.function) };

    ghost keeps = { λ s x. Some (G.gives s.function x) };

    ghost after = { λ s _. s };

    fn sift(&mut self, value: T) -> Option<U> {
        Some(self.function.apply(value))
    }

    ghost none = { λ _. refl };

    ghost step = { λ _ _ _. refl };
}
