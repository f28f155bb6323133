//! `filter_map`: what a function gives of each value, where it gives something.

ghost use Rattle.std.specs.Prelude.{◌≡◌, filter_map as chosen_values, refl, IsTrue, ⊤};
ghost use Rattle.cold_flow.specs.Trace.{on_values};
ghost use Rattle.cold_flow.specs.Poll.{Makes, MakesExactly, IsWithinPolls};

use cold_flow::{Apply, Flow, Sift, Sifted};
use std::alloc::AllocError;

/// Passes on what the function answers, where it answers `Some`.
#[derive(Copy)]
pub struct Choosing<G> {
    function: G,
}

impl<G: Copy> Clone for Choosing<G> {
    ghost is_clone = { λ value copy. copy ≡ value };

    ghost is_infallible = { λ _. ⊤ };

    fn clone(&self) -> Result<Self, AllocError> {
        Ok(*self)
    }
}

/// What `function` answers of each value of `source`, where it answers `Some`: Kotlin's `mapNotNull`, and its `filterNotNull` and
/// `filterIsInstance`.
///
/// After 64 values that were left out a poll yields. Any end of the source passes, a failure too. Cancelled, it cancels the source
/// and ends by `Cause::Cancelled`.
pub fn filter_map<U: Copy, F: Flow, G: Apply<F::Item, Out = Option<U>>>(
    source: F,
    function: G,
) -> Sifted<F, Choosing<G>>
    ensures gives { Makes (on_values (chosen_values (G.gives function))) (F.may source) (⟦<Sifted<F, Choosing<G>> as Flow>⟧.may result) }
    ensures exact { MakesExactly (on_values (chosen_values (G.gives function))) (F.may source)
        (⟦<Sifted<F, Choosing<G>> as Flow>⟧.may result) }
    ensures lasts { IsWithinPolls (F.polls source) (⟦<Sifted<F, Choosing<G>> as Flow>⟧.polls result) }
    ensures starts { IsTrue (F.starts source) → IsTrue (⟦<Sifted<F, Choosing<G>> as Flow>⟧.starts result) }
{
    Sifted::new(source, Choosing { function })
}

impl<T: Copy, U: Copy, G: Apply<T, Out = Option<U>>> Sift<T> for Choosing<G> {
    type Out = U;

    ghost passes = { λ s. chosen_values (G.gives s.function) };

    ghost keeps = { λ s. G.gives s.function };

    ghost after = { λ s _. s };

    fn sift(&mut self, value: T) -> Option<U> {
        self.function.apply(value)
    }

    ghost none = { λ _. refl };

    ghost step = { λ _ _ _. refl };
}
