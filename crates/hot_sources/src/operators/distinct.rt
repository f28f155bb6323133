//! `distinct` over a run.

ghost use Rattle.std.specs.Prelude.{◌≡◌, None};

use cold_flow::{Differing, Run, Sifted};

/// The values of `source` from now on that differ from the one directly before them: Kotlin's `distinctUntilChanged`, over a run.
///
/// A value that comes back after another one is given again. After 64 values that were left out a poll yields.
pub fn distinct<T: Copy + Eq, S: Run<Item = T>>(source: S) -> Sifted<S, Differing<T>>
    ensures { (result.source ≡ source) × (result.sift ≡ record { last = None }) }
{
    Sifted::over_run(source, Differing::new())
}
