//! `distinct_by`: the values whose key differs from the one directly before.

ghost use Rattle.std.specs.Prelude.{◌≡◌, Some, None, refl, IsTrue, ⊤};
ghost use Rattle.cold_flow.specs.Trace.{on_values};
ghost use Rattle.cold_flow.specs.Poll.{Makes, MakesExactly, IsWithinPolls};
ghost use Rattle.more_operators.specs.DistinctBy.{distinct_by_after, differing_by};

use cold_flow::{Apply, Flow, Sift, Sifted};
use std::alloc::AllocError;

/// Leaves out a value whose key equals that of the one before it.
#[derive(Copy)]
pub struct DifferingBy<K, G> {
    // The key of the last value that the source gave.
    last: Option<K>,
    key: G,
}

impl<K: Copy, G: Copy> Clone for DifferingBy<K, G> {
    ghost is_clone = { λ value copy. copy ≡ value };

    ghost is_infallible = { λ _. ⊤ };

    fn clone(&self) -> Result<Self, AllocError> {
        Ok(*self)
    }
}

/// The values of `source` whose `key` differs from that of the one directly before them in it: Kotlin's `distinctUntilChangedBy`.
///
/// After 64 values that were left out a poll yields. Any end of the source passes, a failure too. Cancelled, it cancels the source
/// and ends by `Cause::Cancelled`.
pub fn distinct_by<K: Copy + Eq, F: Flow, G: Apply<F::Item, Out = K>>(
    source: F,
    key: G,
) -> Sifted<F, DifferingBy<K, G>>
    ensures gives { Makes (on_values (distinct_by_after K.eq (G.gives key) None)) (F.may source)
        (⟦<Sifted<F, DifferingBy<K, G>> as Flow>⟧.may result) }
    ensures exact { MakesExactly (on_values (distinct_by_after K.eq (G.gives key) None)) (F.may source)
        (⟦<Sifted<F, DifferingBy<K, G>> as Flow>⟧.may result) }
    ensures lasts { IsWithinPolls (F.polls source) (⟦<Sifted<F, DifferingBy<K, G>> as Flow>⟧.polls result) }
    ensures starts { IsTrue (F.starts source) → IsTrue (⟦<Sifted<F, DifferingBy<K, G>> as Flow>⟧.starts result) }
{
    Sifted::new(source, DifferingBy { last: None, key })
}

impl<T: Copy, K: Copy + Eq, G: Apply<T, Out = K>> Sift<T> for DifferingBy<K, G> {
    type Out = T;

    ghost passes = { λ s. distinct_by_after K.eq (G.gives s.key) s.last };

    ghost keeps = { λ s. differing_by K.eq (G.gives s.key) s.last };

    ghost after = { λ s x. record {
      last = Some (G.gives s.key x);
      key = s.key;
    } };

    fn sift(&mut self, value: T) -> Option<T> {
        let key = self.key.apply(value);
        let is_same = match self.last {
            Some(last) => last == key,
            None => false,
        };
        self.last = Some(key);
        if is_same { None } else { Some(value) }
    }

    ghost none = { λ _. refl };

    ghost step = { λ _ _ _. refl };
}
