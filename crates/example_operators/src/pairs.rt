//! `zip_with_next`: an operator of one's own, as a `Sift`.

ghost use Rattle.std.specs.Prelude.{Some, None, IsTrue, refl};
ghost use Rattle.cold_flow.specs.Trace.{on_values};
ghost use Rattle.cold_flow.specs.Poll.{MakesExactly, IsWithinPolls};
ghost use Rattle.example_operators.specs.Pairs.{pairs_after, pair_of, pairs_step};

use cold_flow::{Flow, Sift, Sifted};
use std::alloc::AllocError;

/// Passes on each value with the one after it.
pub struct Pairing<T> {
    before: Option<T>,
}

impl<T: Copy> Clone for Pairing<T> {
    fn clone(&self) -> Result<Pairing<T>, AllocError> {
        Ok(*self)
    }
}

impl<T: Copy> Copy for Pairing<T> {}

impl<T: Copy> Sift<T> for Pairing<T> {
    type Out = (T, T);

    ghost passes = { λ pairing values. pairs_after pairing.before values };

    ghost keeps = { λ pairing value. pair_of pairing.before value };

    ghost after = { λ _ value. record { before = Some value } };

    fn sift(&mut self, value: T) -> Option<(T, T)> {
        let before = self.before;
        self.before = Some(value);
        before.map(|before| (before, value))
    }

    ghost none = { λ _. refl };

    ghost step = { λ pairing x xs. pairs_step pairing.before x xs };
}

/// Each value of `source` with the one after it: Kotlin's `zipWithNext` of a list.
pub fn zip_with_next<F: Flow>(source: F) -> Sifted<F, Pairing<F::Item>>
    ensures exact { MakesExactly (on_values (pairs_after None)) (F.may source) (⟦<Sifted<F, Pairing<F::Item>> as Flow>⟧.may result) }
    ensures lasts { IsWithinPolls (F.polls source) (⟦<Sifted<F, Pairing<F::Item>> as Flow>⟧.polls result) }
    ensures starts { IsTrue (F.starts source) → IsTrue (⟦<Sifted<F, Pairing<F::Item>> as Flow>⟧.starts result) }
{
    Sifted::new(source, Pairing { before: None })
}
