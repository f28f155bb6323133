//! A caller of a source that does something: Kotlin's
//! `flow { emit(load()) }.retry(3).catch { emit(instead) }.onCompletion { }.first()`.

ghost use Rattle.std.specs.Prelude.{◌≡◌, true, Some, None, IfOk};
ghost use Rattle.cold_flow.specs.declared.operators.catch_with.Caught.TheVariants.{Last};
ghost use Rattle.source_callers.specs.Loads.{LoadedOr};

use calling_sources::{Call, calling};
use cold_flow::{Apply, Caught, Cause, Flow, Refusal, catch_with, first, on_completion};
use futures::task::{Context, Poll};
use more_operators::retry;

/// Answers true of each fault.
#[derive(Clone, Copy)]
pub struct Always;

impl Apply<u64> for Always {
    type Out = bool;

    ghost gives = { λ _ _. true };

    fn apply(&self, _argument: u64) -> bool {
        true
    }
}

/// A value in place of a failure.
#[derive(Clone, Copy)]
pub struct Instead(pub u64);

impl Apply<u64> for Instead {
    type Out = Caught<u64, u64>;

    ghost gives = { λ s _. Last s.0 };

    fn apply(&self, _argument: u64) -> Caught<u64, u64> {
        Caught::Last(self.0)
    }
}

/// Adds no value at the end.
#[derive(Clone, Copy)]
pub struct NoMore;

impl Apply<Cause<u64>> for NoMore {
    type Out = Option<u64>;

    ghost gives = { λ _ _. None };

    fn apply(&self, _argument: Cause<u64>) -> Option<u64> {
        None
    }
}

/// Asks once for what `load` answers, called up to four times, or else `instead`. A value is an answer of `load`, or `instead`.
///
/// Refused as `NoMemory`, where a start is.
pub fn load_or<C: Call<Item = u64, Fault = u64>>(
    load: C,
    instead: u64,
    cx: &mut Context<'_>,
) -> Result<Poll<Result<u64, Cause<u64>>>, Refusal>
    ensures { IfOk result (LoadedOr (C.answers load) instead) }
{
    let pages = catch_with(retry(calling(load), 3, Always), Instead(instead));
    let mut loading = first(on_completion(pages, NoMore).start()?);
    Ok(loading.poll(cx))
}
