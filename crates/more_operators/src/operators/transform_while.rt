//! `transform_while`: up to four values for each value, until a function says that it was the last.

ghost use Rattle.std.specs.Prelude.{◌≡◌, IsTrue, ⊤};
ghost use Rattle.flow_terms.specs.declared.few.Few.TheVariants.{Zero};
ghost use Rattle.cold_flow.specs.declared.operators.closing.Closing.TheVariants.{Open};
ghost use Rattle.cold_flow.specs.Poll.{Makes, MakesExactly, IsWithinPolls};
ghost use Rattle.more_operators.specs.Held.{held_polls};
ghost use Rattle.more_operators.specs.TransformWhile.{transform_while_trace};

use crate::operators::onward::Onward;
use crate::operators::relay::{Relay, Relayed};
use cold_flow::{Apply, Few, Flow};
use std::alloc::AllocError;

/// Gives what the function answers of each value, until that is `Onward::Stop`.
#[derive(Copy)]
pub struct Halting<G> {
    function: G,
}

impl<G: Copy> Clone for Halting<G> {
    ghost is_clone = { λ value copy. copy ≡ value };

    ghost is_infallible = { λ _. ⊤ };

    fn clone(&self) -> Result<Self, AllocError> {
        Ok(*self)
    }
}

/// The values that `function` answers for each value of `source`, joined in order, up to those of the first `Onward::Stop`, and
/// then `Cause::Finished`: Kotlin's `transformWhile`, with at most four `emit` calls for each value.
///
/// With that value the source is cancelled. They come one a poll; the source is asked when none is held. After 64 answers without
/// values a poll yields. Where the source ends before, its end passes. Cancelled, it cancels the source, gives up the values that it
/// holds, and ends by `Cause::Cancelled`.
pub fn transform_while<F: Flow, U: Copy, G: Apply<F::Item, Out = Onward<U>>>(
    source: F,
    function: G,
) -> Relayed<F, Halting<G>, U>
    ensures gives { Makes (transform_while_trace (G.gives function)) (F.may source) (⟦<Relayed<F, Halting<G>, U> as Flow>⟧.may result) }
    ensures exact { MakesExactly (transform_while_trace (G.gives function)) (F.may source)
        (⟦<Relayed<F, Halting<G>, U> as Flow>⟧.may result) }
    ensures lasts { IsWithinPolls (held_polls {B = U} {E = F.Fault} Open Zero (F.polls source))
        (⟦<Relayed<F, Halting<G>, U> as Flow>⟧.polls result) }
    ensures starts { IsTrue (F.starts source) → IsTrue (⟦<Relayed<F, Halting<G>, U> as Flow>⟧.starts result) }
{
    Relayed::new(source, Halting { function }, Few::Zero)
}

impl<T: Copy, U: Copy, G: Apply<T, Out = Onward<U>>> Relay<T> for Halting<G> {
    ghost use Rattle.more_operators.specs.RelayedLaws.{never_true};

    type Out = U;

    ghost takes = { λ s. G.gives s.function };

    ghost after = { λ s _. s };

    ghost closes = { λ _. Zero };

    fn take(&mut self, value: T) -> Onward<U> {
        self.function.apply(value)
    }

    fn close(&self) -> Few<U> {
        Few::Zero
    }

    ghost gives_soon = { λ _ _ never. never_true never };
}
