//! `filter`: the values that a test answers true.

ghost use Rattle.std.specs.Prelude.{◌≡◌, Some, None, filter as kept_values, if◌then◌else◌, refl, IsTrue, ⊤};
ghost use Rattle.cold_flow.specs.Trace.{on_values};
ghost use Rattle.cold_flow.specs.Poll.{Makes, MakesExactly, IsWithinPolls};

use crate::apply::Apply;
use crate::flow::Flow;
use crate::operators::sift::{Sift, Sifted};
use std::alloc::AllocError;

/// Passes on the values that the test answers true.
#[derive(Copy)]
pub struct Testing<G> {
    test: G,
}

impl<G> Testing<G> {
    /// What passes a value on where `test` answers true. Never refused.
    pub fn new(test: G) -> Testing<G>
        ensures { result ≡ record { test = test } }
    {
        Testing { test }
    }
}

impl<G: Copy> Clone for Testing<G> {
    ghost is_clone = { λ value copy. copy ≡ value };

    ghost is_infallible = { λ _. ⊤ };

    fn clone(&self) -> Result<Self, AllocError> {
        Ok(*self)
    }
}

/// The values of `source` that `test` answers true: Kotlin's `filter`.
///
/// After 64 values that were left out a poll yields. Any end of the source passes, a failure too.
/// Cancelled, it cancels the source and ends by `Cause::Cancelled`.
pub fn filter<F: Flow, G: Apply<F::Item, Out = bool>>(source: F, test: G) -> Sifted<F, Testing<G>>
    ensures gives { Makes (on_values (kept_values (G.gives test))) (F.may source) (⟦<Sifted<F, Testing<G>> as Flow>⟧.may result) }
    ensures exact { MakesExactly (on_values (kept_values (G.gives test))) (F.may source) (⟦<Sifted<F, Testing<G>> as Flow>⟧.may result) }
    ensures lasts { IsWithinPolls (F.polls source) (⟦<Sifted<F, Testing<G>> as Flow>⟧.polls result) }
    ensures starts { IsTrue (F.starts source) → IsTrue (⟦<Sifted<F, Testing<G>> as Flow>⟧.starts result) }
{
    Sifted::new(source, Testing { test })
}

impl<T: Copy, G: Apply<T, Out = bool>> Sift<T> for Testing<G> {
    ghost use Rattle.cold_flow.specs.SiftLaws.{filter-step};

    type Out = T;

    ghost passes = { λ s. kept_values (G.gives s.test) };

    ghost keeps = { λ s x. if G.gives s.test x then Some x else None };

    ghost after = { λ s _. s };

    fn sift(&mut self, value: T) -> Option<T> {
        if self.test.apply(value) {
            Some(value)
        } else {
            None
        }
    }

    ghost none = { λ _. refl };

    ghost step = { λ s. filter-step (G.gives s.test) };
}
