//! `on_start`: values before those of the source.

ghost use Rattle.std.specs.Prelude.{true, IsTrue, refl};
ghost use Rattle.flow_terms.specs.declared.few.Few.TheVariants.{Zero, One};
ghost use Rattle.flow_terms.specs.Few.{values_of};
ghost use Rattle.cold_flow.specs.declared.operators.closing.Closing.TheVariants.{Open};
ghost use Rattle.cold_flow.specs.Poll.{Makes, MakesExactly, IsWithinPolls};
ghost use Rattle.more_operators.specs.declared.operators.onward.Onward.TheVariants.{More};
ghost use Rattle.more_operators.specs.Held.{held_polls};
ghost use Rattle.more_operators.specs.Retry.{behind};

use crate::operators::onward::Onward;
use crate::operators::relay::{Relay, Relayed};
use cold_flow::{Few, Flow};

/// Passes each value on.
#[derive(Clone, Copy)]
pub struct Unchanged;

/// The values of `first`, and then those of `source`: Kotlin's `onStart`, with at most four `emit` calls.
///
/// They come one a poll, and the source isn't asked before. Any end of the source passes, a failure too. Cancelled, it cancels the
/// source, gives up the values that it holds, and ends by `Cause::Cancelled`.
pub fn on_start<F: Flow>(source: F, first: Few<F::Item>) -> Relayed<F, Unchanged, F::Item>
    ensures gives { Makes (behind (values_of first)) (F.may source) (⟦<Relayed<F, Unchanged, F::Item> as Flow>⟧.may result) }
    ensures exact { MakesExactly (behind (values_of first)) (F.may source) (⟦<Relayed<F, Unchanged, F::Item> as Flow>⟧.may result) }
    ensures lasts { IsWithinPolls (held_polls {B = F.Item} {E = F.Fault} Open first (F.polls source))
        (⟦<Relayed<F, Unchanged, F::Item> as Flow>⟧.polls result) }
    ensures prompt { IsTrue (F.prompt source) → IsTrue (⟦<Relayed<F, Unchanged, F::Item> as Flow>⟧.prompt result) }
    ensures starts { IsTrue (F.starts source) → IsTrue (⟦<Relayed<F, Unchanged, F::Item> as Flow>⟧.starts result) }
{
    Relayed::new(source, Unchanged, first)
}

impl<T: Copy> Relay<T> for Unchanged {
    ghost use Rattle.more_operators.specs.RelayedLaws.{gives_at_once};

    type Out = T;

    ghost takes = { λ _ x. More (One x) };

    ghost after = { λ s _. s };

    ghost closes = { λ _. Zero };

    ghost steady = { λ _. true };

    fn take(&mut self, value: T) -> Onward<T> {
        Onward::More(Few::One(value))
    }

    fn close(&self) -> Few<T> {
        Few::Zero
    }

    ghost gives_soon = { λ _ x _. (gives_at_once (One x) refl, refl) };
}
