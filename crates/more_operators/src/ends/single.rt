//! `single`: the one value of a run.

ghost use Rattle.std.specs.Prelude.{◌≡◌, Some, None, ⊤};
ghost use Rattle.cold_flow.specs.Trace.{Trace};
ghost use Rattle.more_operators.specs.Answers.{single_of, settles_lone, lone_of};
ghost use Rattle.more_operators.specs.Decided.{decided_trace};
ghost use Rattle.more_operators.specs.Deciders.{decided_run, decider_of, answered};

use crate::ends::deciding::{Decide, Deciding};
use cold_flow::Run;
use std::alloc::AllocError;

/// Whether a run gave one value alone.
#[derive(Copy, Debug, PartialEq, Eq)]
pub enum Only<T> {
    /// It gave none.
    Nothing,
    /// It gave this one alone.
    One(T),
    /// It gave more than one.
    Several,
}

impl<T: Copy> Clone for Only<T> {
    ghost is_clone = { λ value copy. copy ≡ value };

    ghost is_infallible = { λ _. ⊤ };

    fn clone(&self) -> Result<Self, AllocError> {
        Ok(*self)
    }
}

/// Keeps the first value, and is settled by a second one.
#[derive(Copy)]
pub struct Lone<T> {
    only: Option<T>,
}

impl<T: Copy> Clone for Lone<T> {
    ghost is_clone = { λ value copy. copy ≡ value };

    ghost is_infallible = { λ _. ⊤ };

    fn clone(&self) -> Result<Self, AllocError> {
        Ok(*self)
    }
}

/// The value of a `run` that gives one alone: Kotlin's `single`, whose two exceptions are `Only::Nothing` and `Only::Several`.
/// With a second value the run is cancelled. See `Deciding::poll`.
pub fn single<R: Run>(run: R) -> Deciding<R, Lone<R::Item>, Only<R::Item>>
    ensures asks { (decided_run result ≡ run) × (answered result ≡ None) }
    ensures answers { (t : Trace R.Item R.Fault) → decided_trace ⟦<Lone<R::Item> as Decide<R::Item>>⟧.decides
        ⟦<Lone<R::Item> as Decide<R::Item>>⟧.after ⟦<Lone<R::Item> as Decide<R::Item>>⟧.closes (decider_of result) t ≡ single_of t }
{
    Deciding::new(run, Lone { only: None })
}

impl<T: Copy> Decide<T> for Lone<T> {
    type Out = Only<T>;

    ghost decides = { λ s _. settles_lone s.only };

    ghost after = { λ _ x. record { only = Some x } };

    ghost closes = { λ s. lone_of s.only };

    fn take(&mut self, value: T) -> Option<Only<T>> {
        let before = self.only;
        self.only = Some(value);
        match before {
            Some(_) => Some(Only::Several),
            None => None,
        }
    }

    fn close(&self) -> Only<T> {
        match self.only {
            Some(value) => Only::One(value),
            None => Only::Nothing,
        }
    }
}
