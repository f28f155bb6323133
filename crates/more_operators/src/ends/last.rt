//! `last`: the last value of a run.

ghost use Rattle.std.specs.Prelude.{◌≡◌, Some, None, ⊤};
ghost use Rattle.cold_flow.specs.Trace.{Trace};
ghost use Rattle.more_operators.specs.Answers.{at_end, last_after};
ghost use Rattle.more_operators.specs.Decided.{decided_trace};
ghost use Rattle.more_operators.specs.Deciders.{decided_run, decider_of, answered};

use crate::ends::deciding::{Decide, Deciding};
use cold_flow::Run;
use std::alloc::AllocError;

/// Keeps the last value.
#[derive(Copy)]
pub struct Latest<T> {
    last: Option<T>,
}

impl<T: Copy> Clone for Latest<T> {
    ghost is_clone = { λ value copy. copy ≡ value };

    ghost is_infallible = { λ _. ⊤ };

    fn clone(&self) -> Result<Self, AllocError> {
        Ok(*self)
    }
}

/// The last value of `run`: Kotlin's `lastOrNull`, and its `last`. `None` where the run finishes with no value. See
/// `Deciding::poll`.
pub fn last<R: Run>(run: R) -> Deciding<R, Latest<R::Item>, Option<R::Item>>
    ensures asks { (decided_run result ≡ run) × (answered result ≡ None) }
    ensures answers { (t : Trace R.Item R.Fault) → decided_trace ⟦<Latest<R::Item> as Decide<R::Item>>⟧.decides
        ⟦<Latest<R::Item> as Decide<R::Item>>⟧.after ⟦<Latest<R::Item> as Decide<R::Item>>⟧.closes (decider_of result) t
        ≡ at_end (last_after None) t }
{
    Deciding::new(run, Latest { last: None })
}

impl<T: Copy> Decide<T> for Latest<T> {
    type Out = Option<T>;

    ghost decides = { λ _ _. None };

    ghost after = { λ _ x. record { last = Some x } };

    ghost closes = { λ s. s.last };

    fn take(&mut self, value: T) -> Option<Option<T>> {
        self.last = Some(value);
        None
    }

    fn close(&self) -> Option<T> {
        self.last
    }
}
