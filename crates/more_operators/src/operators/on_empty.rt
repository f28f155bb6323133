//! `on_empty`: values in place of none.

ghost use Rattle.std.specs.Prelude.{◌≡◌, true, false, IsTrue, if◌then◌else◌, refl, ⊤};
ghost use Rattle.flow_terms.specs.declared.few.Few.TheVariants.{Zero, One};
ghost use Rattle.cold_flow.specs.declared.operators.closing.Closing.TheVariants.{Open};
ghost use Rattle.cold_flow.specs.Poll.{Makes, MakesExactly, IsWithinPolls};
ghost use Rattle.more_operators.specs.declared.operators.onward.Onward.TheVariants.{More};
ghost use Rattle.more_operators.specs.Held.{held_polls};
ghost use Rattle.more_operators.specs.Empty.{or_else};

use crate::operators::onward::Onward;
use crate::operators::relay::{Relay, Relayed};
use cold_flow::{Few, Flow};
use std::alloc::AllocError;

/// Passes each value on, and gives others where there was none.
#[derive(Copy)]
pub struct Defaulting<T> {
    values: Few<T>,
    // Whether no value came yet.
    is_empty: bool,
}

impl<T: Copy> Clone for Defaulting<T> {
    ghost is_clone = { λ value copy. copy ≡ value };

    ghost is_infallible = { λ _. ⊤ };

    fn clone(&self) -> Result<Self, AllocError> {
        Ok(*self)
    }
}

/// The values of `source`, and `values` where it finishes with none: Kotlin's `onEmpty`, with at most four `emit` calls.
///
/// Where the source ends otherwise, that end passes. Cancelled, it cancels the source, gives up the values that it holds, and ends
/// by `Cause::Cancelled`.
pub fn on_empty<F: Flow>(
    source: F,
    values: Few<F::Item>,
) -> Relayed<F, Defaulting<F::Item>, F::Item>
    ensures gives { Makes (or_else values) (F.may source) (⟦<Relayed<F, Defaulting<F::Item>, F::Item> as Flow>⟧.may result) }
    ensures exact { MakesExactly (or_else values) (F.may source) (⟦<Relayed<F, Defaulting<F::Item>, F::Item> as Flow>⟧.may result) }
    ensures lasts { IsWithinPolls (held_polls {B = F.Item} {E = F.Fault} Open Zero (F.polls source))
        (⟦<Relayed<F, Defaulting<F::Item>, F::Item> as Flow>⟧.polls result) }
    ensures prompt { IsTrue (F.prompt source) → IsTrue (⟦<Relayed<F, Defaulting<F::Item>, F::Item> as Flow>⟧.prompt result) }
    ensures starts { IsTrue (F.starts source) → IsTrue (⟦<Relayed<F, Defaulting<F::Item>, F::Item> as Flow>⟧.starts result) }
{
    Relayed::new(
        source,
        Defaulting {
            values,
            is_empty: true,
        },
        Few::Zero,
    )
}

impl<T: Copy> Relay<T> for Defaulting<T> {
    ghost use Rattle.more_operators.specs.RelayedLaws.{gives_at_once};

    type Out = T;

    ghost takes = { λ _ x. More (One x) };

    ghost after = { λ s _. record {
      values = s.values;
      is_empty = false;
    } };

    ghost closes = { λ s. if s.is_empty then s.values else Zero };

    ghost steady = { λ _. true };

    fn take(&mut self, value: T) -> Onward<T> {
        self.is_empty = false;
        Onward::More(Few::One(value))
    }

    fn close(&self) -> Few<T> {
        if self.is_empty {
            self.values
        } else {
            Few::Zero
        }
    }

    ghost gives_soon = { λ _ x _. (gives_at_once (One x) refl, refl) };
}
