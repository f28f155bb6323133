//! `running_reduce`: the first value, and what a function makes of the last answer and of each value.

ghost use Rattle.std.specs.Prelude.{◌≡◌, Some, None, refl, IsTrue, ⊤};
ghost use Rattle.cold_flow.specs.Trace.{on_values};
ghost use Rattle.cold_flow.specs.Poll.{Makes, MakesExactly, IsWithinPolls};
ghost use Rattle.more_operators.specs.Reduce.{reduced_after, next_state};

use cold_flow::{Apply, Flow, Sift, Sifted};
use std::alloc::AllocError;

/// Passes on what the function makes of the last answer and of each value.
#[derive(Copy)]
pub struct Reducing<T, G> {
    // What was given last.
    state: Option<T>,
    function: G,
}

impl<T: Copy, G: Copy> Clone for Reducing<T, G> {
    ghost is_clone = { λ value copy. copy ≡ value };

    ghost is_infallible = { λ _. ⊤ };

    fn clone(&self) -> Result<Self, AllocError> {
        Ok(*self)
    }
}

/// The first value of `source`, and then what `function` makes of the last answer and of each value: Kotlin's `runningReduce`.
///
/// Any end of the source passes, a failure too. Cancelled, it cancels the source and ends by `Cause::Cancelled`.
pub fn running_reduce<F: Flow, G: Apply<(F::Item, F::Item), Out = F::Item>>(
    source: F,
    function: G,
) -> Sifted<F, Reducing<F::Item, G>>
    ensures gives { Makes (on_values (reduced_after (G.gives function) None)) (F.may source)
        (⟦<Sifted<F, Reducing<F::Item, G>> as Flow>⟧.may result) }
    ensures exact { MakesExactly (on_values (reduced_after (G.gives function) None)) (F.may source)
        (⟦<Sifted<F, Reducing<F::Item, G>> as Flow>⟧.may result) }
    ensures lasts { IsWithinPolls (F.polls source) (⟦<Sifted<F, Reducing<F::Item, G>> as Flow>⟧.polls result) }
    ensures starts { IsTrue (F.starts source) → IsTrue (⟦<Sifted<F, Reducing<F::Item, G>> as Flow>⟧.starts result) }
{
    Sifted::new(
        source,
        Reducing {
            state: None,
            function,
        },
    )
}

impl<T: Copy, G: Apply<(T, T), Out = T>> Sift<T> for Reducing<T, G> {
    type Out = T;

    ghost passes = { λ s. reduced_after (G.gives s.function) s.state };

    ghost keeps = { λ s x. Some (next_state (G.gives s.function) s.state x) };

    ghost after = { λ s x. record {
      state = Some (next_state (G.gives s.function) s.state x);
      function = s.function;
    } };

    fn sift(&mut self, value: T) -> Option<T> {
        let next = match self.state {
            None => value,
            Some(state) => self.function.apply((state, value)),
        };
        self.state = Some(next);
        self.state
    }

    ghost none = { λ _. refl };

    ghost step = { λ _ _ _. refl };
}
