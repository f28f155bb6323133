//! `count`: how many values a run gives.

ghost use Rattle.std.specs.Prelude.{◌≡◌, ◌+◌, ◌%◌, ◌^◌, None};
ghost use Rattle.cold_flow.specs.Trace.{Trace};
ghost use Rattle.more_operators.specs.Answers.{at_end, counted_from};
ghost use Rattle.more_operators.specs.Decided.{decided_trace};
ghost use Rattle.more_operators.specs.Deciders.{decided_run, decider_of, answered};

use crate::ends::deciding::{Decide, Deciding};
use cold_flow::Run;

/// Counts the values.
#[derive(Clone, Copy)]
pub struct Counting {
    // How many came.
    count: u64,
}

/// How many values `run` gives, modulo 2^64: Kotlin's `count`. See `Deciding::poll`.
pub fn count<R: Run>(run: R) -> Deciding<R, Counting, u64>
    ensures asks { (decided_run result ≡ run) × (answered result ≡ None) }
    ensures answers { (t : Trace R.Item R.Fault) → decided_trace ⟦<Counting as Decide<R::Item>>⟧.decides ⟦<Counting as Decide<R::Item>>⟧.after
        ⟦<Counting as Decide<R::Item>>⟧.closes (decider_of result) t ≡ at_end (counted_from 0) t }
{
    Deciding::new(run, Counting { count: 0 })
}

impl<T: Copy> Decide<T> for Counting {
    type Out = u64;

    ghost decides = { λ _ _. None };

    ghost after = { λ s _. record { count = (s.count + 1) % 2 ^ 64 } };

    ghost closes = { λ s. s.count };

    fn take(&mut self, _value: T) -> Option<u64> {
        self.count = self.count.wrapping_add(1);
        None
    }

    fn close(&self) -> u64 {
        self.count
    }
}
