//! A state that is set from a cold flow.
ghost use Rattle.std.specs.Prelude.{◌≡◌, [], None, IsTrue, IfOk, IfErr, OnErr};
ghost use Rattle.futures.specs.Task.{IsArmed, Keeps};
ghost use Rattle.flow_terms.specs.declared.refusal.Refusal.TheVariants.{NoMemory};
ghost use Rattle.state_flow.specs.Calls.{Sets};
ghost use Rattle.sharing_upstream.specs.Shown.{started_by, Shows};
ghost use Rattle.sharing_upstream.specs.Polls.{ShowsMore, Answers};
ghost use Rattle.sharing_upstream.specs.Upstreams.{flow_of, course_of, has_run, cause_kept, IsUnstarted};
ghost use Rattle.flow_sharing.specs.StateSharings.{seat_of, initial_of, upstream_of, strategy_of, SetsWhatItTakes, SetsAt, RefusesAt};

use crate::state_destination::StateDestination;
use cold_flow::{Cause, Flow, Refusal, Word};
use flow_terms::Started;
use futures::task::Context;
use sharing_upstream::{Polled, Strategy, Upstream, poll_sharing};
use state_flow::StateSeat;
use std::alloc::{Allocator, Global};

/// A state flow that is set from a cold flow, while its strategy says so: what Kotlin's `stateIn` starts.
///
/// It must be spent, by [`close`](StateSharing::close). Contracts see its strategy, its upstream, its seat at the state, and
/// the state's initial value.
pub struct StateSharing<T: Word, F: Flow<Item = T>, A: Allocator = Global> {
    seat: StateSeat<T, A>,
    // What a reset sets.
    initial: T,
    upstream: Upstream<F>,
    strategy: Strategy,
}

/// Sets the state to `initial`, and shares `upstream` by it from the first poll on that is to start it: Kotlin's `stateIn`.
/// The upstream isn't started before.
pub fn state_in<T: Word, F: Flow<Item = T>, A: Allocator>(
    seat: StateSeat<T, A>,
    initial: T,
    upstream: F,
    started: Started,
) -> StateSharing<T, F, A>
    ensures has { Sets seat.view initial (seat_of result).view }
    ensures same_flow { (seat_of result).flow ≡ seat.flow }
    ensures initial { initial_of result ≡ initial }
    ensures upstream { IsUnstarted upstream (upstream_of result) }
    ensures started { started_by (strategy_of result) ≡ started }
    ensures shows { Shows (strategy_of result) [] }
{
    let mut seat = seat;
    seat.set(initial);
    StateSharing {
        seat,
        initial,
        upstream: Upstream::new(upstream),
        strategy: Strategy::new(started),
    }
}

impl<T: Word, F: Flow<Item = T>, A: Allocator> StateSharing<T, F, A> {
    /// One poll at the moment `now`, in milliseconds: counts the collectors, starts or stops the upstream or sets the initial
    /// value where the strategy says so, and, where sharing is on, sets what the upstream gives, at most 32 events. Kotlin has
    /// no such call: there a sharing runs by itself.
    ///
    /// Refused by `NoMemory` where a start of the upstream is; then the sharing is as before, its latest moment too. An upstream that
    /// failed, or whose run was refused, ends sharing for good: from the next poll on it is off, and nothing is reset.
    ///
    /// The first clause, `has`, says what it took of the upstream, and that each value was set once, in order.
    pub fn poll(&mut self, now: u64, cx: &mut Context<'_>) -> Result<Polled, Refusal>
        ensures has { SetsWhatItTakes F.Running.may F.may self.old self.new }
        ensures started { started_by (strategy_of self.new) ≡ started_by (strategy_of self.old) }
        ensures shows { IfOk result (λ polled. ShowsMore (strategy_of self.old) now polled.count (strategy_of self.new)) }
        ensures answers { IfOk result (Answers (strategy_of self.old) (cause_kept (upstream_of self.old)) now) }
        ensures acts { IfOk result (λ polled. SetsAt F.Running.may F.Running.ended F.Running.polled F.may self.old now polled self.new) }
        ensures same { ((seat_of self.new).flow ≡ (seat_of self.old).flow) × (initial_of self.new ≡ initial_of self.old)
            × (flow_of (upstream_of self.new) ≡ flow_of (upstream_of self.old)) }
        ensures err { OnErr result ((strategy_of self.new ≡ strategy_of self.old)
            × (course_of (upstream_of self.new) ≡ course_of (upstream_of self.old))) }
        ensures refused { IfErr result (λ refusal. (refusal ≡ NoMemory) × (cause_kept (upstream_of self.old) ≡ None)) }
        ensures starts { IfErr result (λ _. RefusesAt self.old now self.new) }
        ensures armed { IfOk result (λ polled. IsTrue polled.on → IsTrue (has_run (upstream_of self.new)) → IsArmed cx.new) }
        ensures kept { Keeps cx.old cx.new }
    {
        let mut destination = StateDestination {
            seat: &mut self.seat,
            initial: &self.initial,
        };
        poll_sharing(
            &mut self.upstream,
            &mut self.strategy,
            &mut destination,
            now,
            cx,
        )
    }

    /// Why sharing ended for good: the upstream failed, or a run of it was refused. None as long as it hasn't.
    pub fn fault(&self) -> Option<Cause<F::Fault>>
        ensures has { result ≡ cause_kept (upstream_of self.now) }
    {
        self.upstream.fault()
    }

    /// Ends the sharing, cancels the run of its upstream, and gives the seat back: what Kotlin does where the sharing's scope is
    /// cancelled. The state keeps its value.
    pub fn close(self) -> StateSeat<T, A>
        ensures has { result ≡ seat_of self }
    {
        let StateSharing {
            seat,
            initial: _,
            upstream,
            strategy: _,
        } = self;
        upstream.close();
        seat
    }
}
