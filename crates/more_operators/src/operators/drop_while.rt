//! `drop_while`: the values from the first on that fails a test.

ghost use Rattle.std.specs.Prelude.{◌≡◌, ◌&&◌, true, IsTrue, ⊤};
ghost use Rattle.cold_flow.specs.Trace.{on_values};
ghost use Rattle.cold_flow.specs.Poll.{Makes, MakesExactly, IsWithinPolls};
ghost use Rattle.more_operators.specs.DropWhile.{dropped_while, left_out, drop_while-none, drop_while-step};

use cold_flow::{Apply, Flow, Sift, Sifted};
use std::alloc::AllocError;

/// Leaves out values until one fails the test.
#[derive(Copy)]
pub struct Dropping<G> {
    test: G,
    // Whether no value has failed the test yet.
    is_dropping: bool,
}

impl<G: Copy> Clone for Dropping<G> {
    ghost is_clone = { λ value copy. copy ≡ value };

    ghost is_infallible = { λ _. ⊤ };

    fn clone(&self) -> Result<Self, AllocError> {
        Ok(*self)
    }
}

/// The values of `source` from the first on that `test` answers false: Kotlin's `dropWhile`. The test isn't asked of those after it.
///
/// After 64 values that were left out a poll yields. Any end of the source passes, a failure too. Cancelled, it cancels the source
/// and ends by `Cause::Cancelled`.
pub fn drop_while<F: Flow, G: Apply<F::Item, Out = bool>>(
    source: F,
    test: G,
) -> Sifted<F, Dropping<G>>
    ensures gives { Makes (on_values (dropped_while (G.gives test) true)) (F.may source) (⟦<Sifted<F, Dropping<G>> as Flow>⟧.may result) }
    ensures exact { MakesExactly (on_values (dropped_while (G.gives test) true)) (F.may source)
        (⟦<Sifted<F, Dropping<G>> as Flow>⟧.may result) }
    ensures lasts { IsWithinPolls (F.polls source) (⟦<Sifted<F, Dropping<G>> as Flow>⟧.polls result) }
    ensures starts { IsTrue (F.starts source) → IsTrue (⟦<Sifted<F, Dropping<G>> as Flow>⟧.starts result) }
{
    Sifted::new(
        source,
        Dropping {
            test,
            is_dropping: true,
        },
    )
}

impl<T: Copy, G: Apply<T, Out = bool>> Sift<T> for Dropping<G> {
    type Out = T;

    ghost passes = { λ s. dropped_while (G.gives s.test) s.is_dropping };

    ghost keeps = { λ s. left_out (G.gives s.test) s.is_dropping };

    ghost after = { λ s x. record {
      test = s.test;
      is_dropping = s.is_dropping && G.gives s.test x;
    } };

    fn sift(&mut self, value: T) -> Option<T> {
        self.is_dropping = self.is_dropping && self.test.apply(value);
        if self.is_dropping { None } else { Some(value) }
    }

    ghost none = { λ s. drop_while-none (G.gives s.test) s.is_dropping };

    ghost step = { λ s. drop_while-step (G.gives s.test) s.is_dropping };
}
