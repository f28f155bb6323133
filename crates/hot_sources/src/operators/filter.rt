//! `filter` over a run.

ghost use Rattle.std.specs.Prelude.{◌≡◌};

use cold_flow::{Apply, Run, Sifted, Testing};

/// The values of `source` from now on that `test` answers true: Kotlin's `filter`, over a run.
///
/// After 64 values that were left out a poll yields.
pub fn filter<S: Run, G: Apply<S::Item, Out = bool>>(source: S, test: G) -> Sifted<S, Testing<G>>
    ensures { (result.source ≡ source) × (result.sift ≡ record { test = test }) }
{
    Sifted::over_run(source, Testing::new(test))
}
