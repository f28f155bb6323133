//! `reduce`: one value from all values of a run.

ghost use Rattle.std.specs.Prelude.{◌≡◌, Some, None, ⊤};
ghost use Rattle.cold_flow.specs.Trace.{Trace};
ghost use Rattle.more_operators.specs.Answers.{at_end, reduced_to};
ghost use Rattle.more_operators.specs.Decided.{decided_trace};
ghost use Rattle.more_operators.specs.Deciders.{decided_run, decider_of, answered};
ghost use Rattle.more_operators.specs.Reduce.{next_state};

use crate::ends::deciding::{Decide, Deciding};
use cold_flow::{Apply, Run};
use std::alloc::AllocError;

/// Keeps what the function makes of the values.
#[derive(Copy)]
pub struct Joining<T, G> {
    // What it made of the values so far.
    state: Option<T>,
    function: G,
}

impl<T: Copy, G: Copy> Clone for Joining<T, G> {
    ghost is_clone = { λ value copy. copy ≡ value };

    ghost is_infallible = { λ _. ⊤ };

    fn clone(&self) -> Result<Self, AllocError> {
        Ok(*self)
    }
}

/// What `function` makes of the first value of `run` and of each one after it, in order: Kotlin's `reduce`. `None` where the run
/// finishes with no value. See `Deciding::poll`.
pub fn reduce<R: Run, G: Apply<(R::Item, R::Item), Out = R::Item>>(
    run: R,
    function: G,
) -> Deciding<R, Joining<R::Item, G>, Option<R::Item>>
    ensures asks { (decided_run result ≡ run) × (answered result ≡ None) }
    ensures answers { (t : Trace R.Item R.Fault) → decided_trace ⟦<Joining<R::Item, G> as Decide<R::Item>>⟧.decides
        ⟦<Joining<R::Item, G> as Decide<R::Item>>⟧.after ⟦<Joining<R::Item, G> as Decide<R::Item>>⟧.closes (decider_of result) t
        ≡ at_end (reduced_to (G.gives function) None) t }
{
    Deciding::new(
        run,
        Joining {
            state: None,
            function,
        },
    )
}

impl<T: Copy, G: Apply<(T, T), Out = T>> Decide<T> for Joining<T, G> {
    type Out = Option<T>;

    ghost decides = { λ _ _. None };

    ghost after = { λ s x. record {
      state = Some (next_state (G.gives s.function) s.state x);
      function = s.function;
    } };

    ghost closes = { λ s. s.state };

    fn take(&mut self, value: T) -> Option<Option<T>> {
        let next = match self.state {
            None => value,
            Some(state) => self.function.apply((state, value)),
        };
        self.state = Some(next);
        None
    }

    fn close(&self) -> Option<T> {
        self.state
    }
}
