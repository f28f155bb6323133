//! What collects a run.

ghost use Rattle.std.specs.Prelude.{◌≡◌, None};
ghost use Rattle.cold_flow.specs.Ends.{asked_run, answered};

use crate::ends::first_value::First;
use crate::run::Run;

pub mod collect;
pub mod first_value;
pub mod fold;
pub mod to_list;

/// Waits for the first value of `run`: Kotlin's `first`.
pub fn first<R: Run>(run: R) -> First<R>
    ensures { (asked_run result ≡ run) × (answered result ≡ None) }
{
    First { run, answer: None }
}
