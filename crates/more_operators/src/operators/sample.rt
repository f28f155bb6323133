//! `sample`: the last value of each window.

ghost use Rattle.std.specs.Prelude.{◌≡◌, ◌<◌, None, false, IfOk, MatchResult};
ghost use Rattle.flow_terms.specs.declared.refusal.Refusal.TheVariants.{NotPositive};
ghost use Rattle.more_operators.specs.Paced.{is_past};

use crate::operators::paced::{Pace, Paced};
use cold_flow::{Refusal, Run};

/// Gives a value once its window is over.
#[derive(Clone, Copy)]
pub struct Windows {
    period: u64,
    start: u64,
    ghost positive: { 0 < period },
}

/// The last value of `source` in each window of `period` milliseconds, of which the first begins at `start`: Kotlin's `sample`.
///
/// A value is in the window of the moment at which it was asked for, and is given by the first poll after that window. Where the source
/// ends before, the last value is lost. It is refused with `Refusal::NotPositive` where `period` is 0, and then the source is
/// cancelled.
pub fn sample<T: Copy, S: Run<Item = T>>(
    mut source: S,
    period: u64,
    start: u64,
) -> Result<Paced<S, Windows, T>, Refusal>
    ensures made { IfOk result (λ run. (run.source ≡ source) × (run.pace.period ≡ period) × (run.pace.start ≡ start) × (run.held ≡ None)) }
    ensures refused { MatchResult result (λ _. 0 < period) (λ e. (e ≡ NotPositive) × (period ≡ 0)) }
{
    if period == 0 {
        source.cancel();
        return Err(Refusal::NotPositive);
    }
    Ok(Paced::new(source, Windows { period, start }))
}

impl Pace for Windows {
    ghost due = { λ p. is_past p.period p.start };

    ghost gives_last = { λ _. false };

    fn is_due(&self, since: u64, moment: u64) -> bool {
        let window = since.saturating_sub(self.start) / self.period;
        moment.saturating_sub(self.start) / self.period != window
    }

    fn keeps_last(&self) -> bool {
        false
    }
}
