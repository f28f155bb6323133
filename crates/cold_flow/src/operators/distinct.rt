//! `distinct`: the values that differ from the one directly before them.

ghost use Rattle.std.specs.Prelude.{◌≡◌, Some, None, refl, IsTrue, ⊤};
ghost use Rattle.cold_flow.specs.Distinct.{distinct_after, differing};
ghost use Rattle.cold_flow.specs.Trace.{on_values};
ghost use Rattle.cold_flow.specs.Poll.{Makes, MakesExactly, IsWithinPolls};

use crate::flow::Flow;
use crate::operators::sift::{Sift, Sifted};
use std::alloc::AllocError;

/// Leaves out a value that equals the one before it.
#[derive(Copy)]
pub struct Differing<T> {
    // The last value that the source gave.
    last: Option<T>,
}

impl<T: Copy> Differing<T> {
    /// One that has seen no value yet, and so leaves the first one in.
    pub fn new() -> Differing<T>
        ensures { result ≡ record { last = None } }
    {
        Differing { last: None }
    }
}

impl<T: Copy> Clone for Differing<T> {
    ghost is_clone = { λ value copy. copy ≡ value };

    ghost is_infallible = { λ _. ⊤ };

    fn clone(&self) -> Result<Self, AllocError> {
        Ok(*self)
    }
}

/// The values of `source` that differ from the one directly before them in it: Kotlin's
/// `distinctUntilChanged`.
///
/// A value that comes back after another one is given again. After 64 values that were left out a poll yields. Any end of the source
/// passes, a failure too. Cancelled, it cancels the source and ends by `Cause::Cancelled`.
pub fn distinct<T: Copy + Eq, F: Flow<Item = T>>(source: F) -> Sifted<F, Differing<T>>
    ensures gives { Makes (on_values (distinct_after T.eq None)) (F.may source) (⟦<Sifted<F, Differing<T>> as Flow>⟧.may result) }
    ensures exact { MakesExactly (on_values (distinct_after T.eq None)) (F.may source) (⟦<Sifted<F, Differing<T>> as Flow>⟧.may result) }
    ensures lasts { IsWithinPolls (F.polls source) (⟦<Sifted<F, Differing<T>> as Flow>⟧.polls result) }
    ensures starts { IsTrue (F.starts source) → IsTrue (⟦<Sifted<F, Differing<T>> as Flow>⟧.starts result) }
{
    Sifted::new(source, Differing::new())
}

impl<T: Copy + Eq> Sift<T> for Differing<T> {
    type Out = T;

    ghost passes = { λ s. distinct_after T.eq s.last };

    ghost keeps = { λ s. differing T.eq s.last };

    ghost after = { λ s x. record { last = Some x } };

    fn sift(&mut self, value: T) -> Option<T> {
        let is_same = match self.last {
            Some(last) => last == value,
            None => false,
        };
        self.last = Some(value);
        if is_same { None } else { Some(value) }
    }

    ghost none = { λ _. refl };

    ghost step = { λ _ _ _. refl };
}
