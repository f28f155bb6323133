//! `all`: whether each value of a run passes a test.

ghost use Rattle.std.specs.Prelude.{◌≡◌, None};
ghost use Rattle.cold_flow.specs.Trace.{Trace};
ghost use Rattle.more_operators.specs.Answers.{all_of};
ghost use Rattle.more_operators.specs.Decided.{decided_trace};
ghost use Rattle.more_operators.specs.Deciders.{decided_run, decider_of, answered};

use crate::ends::any::Seeking;
use crate::ends::deciding::{Decide, Deciding};
use cold_flow::{Apply, Run};

/// Whether `test` answers true of each value of `run`: Kotlin's `all`. With the first that fails the run is cancelled. See
/// `Deciding::poll`.
pub fn all<R: Run, G: Apply<R::Item, Out = bool>>(run: R, test: G) -> Deciding<R, Seeking<G>, bool>
    ensures asks { (decided_run result ≡ run) × (answered result ≡ None) }
    ensures answers { (t : Trace R.Item R.Fault) → decided_trace ⟦<Seeking<G> as Decide<R::Item>>⟧.decides
        ⟦<Seeking<G> as Decide<R::Item>>⟧.after ⟦<Seeking<G> as Decide<R::Item>>⟧.closes (decider_of result) t ≡ all_of (G.gives test) t }
{
    Deciding::new(
        run,
        Seeking {
            test,
            sought: false,
            answer: false,
        },
    )
}
