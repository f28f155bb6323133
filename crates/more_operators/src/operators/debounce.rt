//! `debounce`: the values after which no other came for a while.

ghost use Rattle.std.specs.Prelude.{◌≡◌, None, true};
ghost use Rattle.more_operators.specs.Paced.{is_quiet};

use crate::operators::paced::{Pace, Paced};
use cold_flow::Run;

/// Gives a value once none came for a timeout.
#[derive(Clone, Copy)]
pub struct Quiet {
    timeout: u64,
}

/// The values of `source` after which none came for `timeout` milliseconds: Kotlin's `debounce`.
///
/// The last value is given where the source finishes, and is lost where it fails.
pub fn debounce<T: Copy, S: Run<Item = T>>(source: S, timeout: u64) -> Paced<S, Quiet, T>
    ensures { (result.source ≡ source) × (result.pace.timeout ≡ timeout) × (result.held ≡ None) }
{
    Paced::new(source, Quiet { timeout })
}

impl Pace for Quiet {
    ghost due = { λ p. is_quiet p.timeout };

    ghost gives_last = { λ _. true };

    fn is_due(&self, since: u64, moment: u64) -> bool {
        moment.saturating_sub(since) >= self.timeout
    }

    fn keeps_last(&self) -> bool {
        true
    }
}
