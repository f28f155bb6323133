//! `retry_when`: another run after a failure, by how many followed before.

ghost use Rattle.std.specs.Prelude.{IsTrue};
ghost use Rattle.cold_flow.specs.Poll.{MakesExactly, Within, IsWithinPolls};
ghost use Rattle.more_operators.specs.Retry.{MayRetry, RetriesExactlyWhen, retried_when, by_attempt, retried_polls};

use crate::operators::again::Again;
use crate::operators::retry::Retried;
use cold_flow::Flow;

/// The values of `source`, which is started anew after a failure, while `test` says so of its fault and of how many runs followed before,
/// and at most `times` times: Kotlin's `retryWhen`.
///
/// Lend the flow, as `retry_when(&flow, 9, test)`; what is said of `retry` holds of it, too.
pub fn retry_when<F: Flow + Copy, G: Again<F::Fault>>(
    source: F,
    times: u32,
    test: G,
) -> Retried<F, G>
    ensures gives { Within (MayRetry (by_attempt (G.follows test) times) (F.starts source) (F.may source) times (F.may source))
        (⟦<Retried<F, G> as Flow>⟧.may result) }
    ensures exact { RetriesExactlyWhen (by_attempt (G.follows test) times) times (F.may source) (⟦<Retried<F, G> as Flow>⟧.may result) }

    // Where no start can be refused, it is fixed whole.
    ensures fixed { IsTrue (F.starts source) → MakesExactly (retried_when (by_attempt (G.follows test) times) times) (F.may source)
        (⟦<Retried<F, G> as Flow>⟧.may result) }
    ensures lasts { IsWithinPolls (retried_polls times (F.polls source) (F.polls source)) (⟦<Retried<F, G> as Flow>⟧.polls result) }
    ensures starts { IsTrue (F.starts source) → IsTrue (⟦<Retried<F, G> as Flow>⟧.starts result) }
{
    Retried {
        source,
        times,
        test,
    }
}
