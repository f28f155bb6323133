//! One poll of a sharing, wherever its values go: what it answers, what its strategy makes of it, and the place that it feeds.

ghost use Rattle.std.specs.Prelude.{◌≡◌, None, false, IsTrue, IfOk, IfErr, OnErr};
ghost use Rattle.futures.specs.Task.{IsArmed, Keeps};
ghost use Rattle.flow_terms.specs.declared.refusal.Refusal.TheVariants.{NoMemory};
ghost use Rattle.sharing_upstream.specs.Shown.{started_by, keeping};
ghost use Rattle.sharing_upstream.specs.Polls.{ShowsMore, PolledSo, Commands, Answers};
ghost use Rattle.sharing_upstream.specs.Sharings.{IsRefusedAt};
ghost use Rattle.sharing_upstream.specs.Upstreams.{flow_of, course_of, has_run, cause_kept, PollsAt};

use crate::destination::Destination;
use crate::strategy::{Kept, Strategy, resets};
use crate::upstream::Upstream;
use cold_flow::{Flow, Refusal, Word};
use flow_terms::Command;
use futures::task::Context;

/// One poll at the moment `now`: counts who listens, does what the strategy commands, and where sharing is on, offers what the upstream
/// gives. Where the sharing has ended for good, it only counts.
///
/// Refused where a start is, and then strategy and upstream are as before.
pub fn poll_sharing<T: Word, F: Flow<Item = T>, D: Destination<T>>(
    upstream: &mut Upstream<F>,
    strategy: &mut Strategy,
    destination: &mut D,
    now: u64,
    cx: &mut Context<'_>,
) -> Result<Polled, Refusal>
    ensures started { started_by strategy.new ≡ started_by strategy.old }
    ensures shows { IfOk result (λ polled. ShowsMore strategy.old now polled.count strategy.new) }
    ensures answers { IfOk result (Answers strategy.old (cause_kept upstream.old) now) }
    ensures acts { IfOk result (λ polled. PollsAt (D.steps (D.kept destination.old)) F.Running.may F.Running.ended F.Running.polled F.may strategy.old
        now polled upstream.old (D.seen destination.old) upstream.new (D.seen destination.new)) }
    ensures flow { flow_of upstream.new ≡ flow_of upstream.old }
    ensures kept { D.kept destination.new ≡ D.kept destination.old }
    ensures err { OnErr result ((strategy.new ≡ strategy.old) × (course_of upstream.new ≡ course_of upstream.old)) }
    ensures refused { IfErr result (λ refusal. (refusal ≡ NoMemory) × (cause_kept upstream.old ≡ None)) }
    ensures starts { IfErr result (λ _. IsRefusedAt (D.steps (D.kept destination.old)) strategy.old now (D.seen destination.old) (D.seen destination.new)) }
    ensures armed { IfOk result (λ polled. IsTrue polled.on → IsTrue (has_run upstream.new) → IsArmed cx.new) }
    ensures wakes { Keeps cx.old cx.new }
{
    let count = destination.count();
    let decision = Decision::of(strategy, now, count);
    if upstream.fault().is_some() {
        strategy.kept = decision.kept;
        return Ok(decision.polled.over());
    }
    upstream.obey(destination, decision.command)?;
    strategy.kept = decision.kept;
    if decision.polled.on {
        upstream.share(destination, cx);
    }
    Ok(decision.polled)
}

/// What a poll of a sharing found, and what it came to. Kotlin has no such value: there a sharing runs by itself.
#[derive(Clone, Copy, Debug, PartialEq, Eq)]
pub struct Polled {
    /// The moment of the poll, in milliseconds: the greatest one handed in so far.
    pub now: u64,
    /// How many subscriptions were live.
    pub count: u32,
    /// Whether sharing is on.
    pub on: bool,
    /// Whether what is shared was reset at this poll.
    pub reset: bool,
}

impl Polled {
    // The same poll of a sharing that has ended for good.
    pub(crate) fn over(self) -> Polled
        ensures { result ≡ record self { on = false; reset = false } }
    {
        Polled {
            on: false,
            reset: false,
            ..self
        }
    }
}

// What a strategy makes of one poll of a sharing.
#[derive(Clone, Copy)]
pub(crate) struct Decision {
    // What the strategy keeps after the poll.
    pub(crate) kept: Kept,
    // What the poll answers.
    pub(crate) polled: Polled,
    // What the sharing is to do.
    pub(crate) command: Option<Command>,
}

impl Decision {
    // Leaves the strategy as it was, as a poll does whose start is refused.
    pub(crate) fn of(strategy: &Strategy, now: u64, count: u32) -> Decision
        ensures count { result.polled.count ≡ count }
        ensures shows { ShowsMore strategy.now now count (keeping result.kept strategy.now) }
        ensures polled { PolledSo strategy.now now count result.polled }
        ensures command { Commands strategy.now now count result.command }
    {
        let (kept, command) = strategy.after(now, count);
        let polled = Polled {
            now: kept.latest,
            count,
            on: kept.on,
            reset: resets(command),
        };
        Decision {
            kept,
            polled,
            command,
        }
    }
}
