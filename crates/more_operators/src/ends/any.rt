//! `any`: whether a value of a run passes a test.

ghost use Rattle.std.specs.Prelude.{◌≡◌, Some, None, not, if◌then◌else◌, ⊤};
ghost use Rattle.cold_flow.specs.Trace.{Trace};
ghost use Rattle.more_operators.specs.Answers.{any_of, is_sought};
ghost use Rattle.more_operators.specs.Decided.{decided_trace};
ghost use Rattle.more_operators.specs.Deciders.{decided_run, decider_of, answered};

use crate::ends::deciding::{Decide, Deciding};
use cold_flow::{Apply, Run};
use std::alloc::AllocError;

/// Seeks a value that settles it.
#[derive(Copy)]
pub struct Seeking<G> {
    pub(crate) test: G,
    // What the test answers of a value that settles it.
    pub(crate) sought: bool,
    // The answer with such a value, and the other one where there is none.
    pub(crate) answer: bool,
}

impl<G: Copy> Clone for Seeking<G> {
    ghost is_clone = { λ value copy. copy ≡ value };

    ghost is_infallible = { λ _. ⊤ };

    fn clone(&self) -> Result<Self, AllocError> {
        Ok(*self)
    }
}

/// Whether `test` answers true of a value of `run`: Kotlin's `any`. With the first such value the run is cancelled. See
/// `Deciding::poll`.
pub fn any<R: Run, G: Apply<R::Item, Out = bool>>(run: R, test: G) -> Deciding<R, Seeking<G>, bool>
    ensures asks { (decided_run result ≡ run) × (answered result ≡ None) }
    ensures answers { (t : Trace R.Item R.Fault) → decided_trace ⟦<Seeking<G> as Decide<R::Item>>⟧.decides
        ⟦<Seeking<G> as Decide<R::Item>>⟧.after ⟦<Seeking<G> as Decide<R::Item>>⟧.closes (decider_of result) t ≡ any_of (G.gives test) t }
{
    Deciding::new(
        run,
        Seeking {
            test,
            sought: true,
            answer: true,
        },
    )
}

impl<T: Copy, G: Apply<T, Out = bool>> Decide<T> for Seeking<G> {
    type Out = bool;

    ghost decides = { λ s x. if is_sought s.sought (G.gives s.test x) then Some s.answer else None };

    ghost after = { λ s _. s };

    ghost closes = { λ s. not s.answer };

    fn take(&mut self, value: T) -> Option<bool> {
        let found = self.test.apply(value);
        let is_sought = if self.sought { found } else { !found };
        if is_sought { Some(self.answer) } else { None }
    }

    fn close(&self) -> bool {
        !self.answer
    }
}
