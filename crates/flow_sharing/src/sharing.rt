//! A cold flow that is shared, poll by poll.

ghost use Rattle.std.specs.Prelude.{◌≡◌, [], None, IsTrue, IfOk, IfErr, OnErr};
ghost use Rattle.futures.specs.Task.{IsArmed, Keeps};
ghost use Rattle.flow_terms.specs.declared.refusal.Refusal.TheVariants.{NoMemory};
ghost use Rattle.flow_terms.specs.declared.answers.Withdrawn.TheVariants as withdrawn;
ghost use Rattle.shared_flow.specs.Emitters.{EndedWith};
ghost use Rattle.shared_flow.specs.Emitted.{emitted, after_cancel, IsLeftOf};
ghost use Rattle.shared_flow.specs.Parties.{Emitting, IfLeft, named};
ghost use Rattle.sharing_upstream.specs.Shown.{started_by, Shows};
ghost use Rattle.sharing_upstream.specs.Polls.{ShowsMore, Answers};
ghost use Rattle.sharing_upstream.specs.Upstreams.{flow_of, has_run, cause_kept, IsUnstarted};

use crate::flow_destination::{FlowDestination, Outlet};
use cold_flow::{Cause, Flow, Refusal, Word};
use flow_terms::Started;
use futures::task::Context;
use shared_core::Withdrawn;
use shared_flow::{Emitter, Receipt, SharedFlow};
use sharing_upstream::{Polled, Strategy, Upstream, poll_sharing};
use std::sync::Wait;

/// A cold flow that is being shared. It must be spent, by [`Sharing::close`].
///
/// Whoever has it polls it, each time with a moment in whole milliseconds.
pub struct Sharing<T: Word, F: Flow<Item = T>> {
    // An owner of the flow, which counts its subscriptions and resets its replay cache.
    pub(crate) flow: SharedFlow<T>,
    pub(crate) outlet: Outlet<T>,
    pub(crate) upstream: Upstream<F>,
    pub(crate) strategy: Strategy,
    ghost one_flow: { named outlet.emitter.party ≡ named flow.party },
    ghost id: { outlet.emitter.id ≡ 0 },
}

// Lets an owner of the flow go. In one place, since the proof of all that goes with it is long.
pub(crate) fn leave<T: Word>(_flow: SharedFlow<T>) {}

impl<T: Word, F: Flow<Item = T>> Sharing<T, F> {
    ghost use Rattle.flow_sharing.specs.Sharings.{shared_by, waiting_in, upstream_of, strategy_of, emitter_of, shared, EmitsWhatItTakes, SharesAt, RefusesAt, IsAsBefore};

    // The sharing of an upstream that wasn't started, into the flow of an owner and of an emitter without an emission in flight.
    pub(crate) fn over(
        flow: SharedFlow<T>,
        emitter: Emitter<T>,
        upstream: F,
        started: Started,
    ) -> Sharing<T, F>
        requires one_flow { named emitter.party ≡ named flow.party }
        requires id { emitter.id ≡ 0 }
        requires idle { emitter.ticket ≡ None }
        ensures flow { result.flow ≡ flow }
        ensures upstream { IsUnstarted upstream result.upstream }
        ensures emitter { result.outlet.emitter ≡ emitter }
        ensures idle { result.outlet.waiting ≡ None }
        ensures started { started_by result.strategy ≡ started }
        ensures shows { Shows result.strategy [] }
    {
        Sharing {
            flow,
            outlet: Outlet::new(emitter),
            upstream: Upstream::new(upstream),
            strategy: Strategy::new(started),
        }
    }

    /// One poll, at the moment `now`: counts the subscriptions, starts or stops the upstream as the strategy commands, and while
    /// sharing is on, emits what the upstream gives.
    ///
    /// A moment before the latest one is taken as that. At a start a new run begins; at a stop the run is cancelled and the waiting
    /// emission withdrawn, and at a reset the replay cache is emptied. A poll that is on first asks the waiting emission. Unless that
    /// still waits, it takes at most 32 events of the upstream, until that has nothing yet or has ended, or an emission waits. While
    /// a run is going, the task is woken once a poll may find more.
    ///
    /// A failure of the run, or a refusal by it or by an emission, ends sharing for good. The poll that meets it answers as any other;
    /// every later one is off. See [`Sharing::fault`].
    ///
    /// Refused as `NoMemory` where the start of a run is, and then the sharing is as before, its latest moment too.
    ///
    /// The first clause, `has`, says what it took of the upstream, and that each value was emitted once, in order.
    pub fn poll(
        &mut self,
        rt: &impl Wait,
        now: u64,
        cx: &mut Context<'_>,
    ) -> Result<Polled, Refusal>
        ensures has { EmitsWhatItTakes T.word F.Running.may F.may self.old self.new }
        ensures started { started_by (strategy_of self.new) ≡ started_by (strategy_of self.old) }
        ensures shows { IfOk result (λ polled. ShowsMore (strategy_of self.old) now polled.count (strategy_of self.new)) }
        ensures answers { IfOk result (Answers (strategy_of self.old) (cause_kept (upstream_of self.old)) now) }
        ensures acts { IfOk result (λ polled. SharesAt T.word F.Running.may F.Running.ended F.Running.polled F.may self.old now polled self.new) }
        ensures same { (shared_by self.new ≡ shared_by self.old) × (flow_of (upstream_of self.new) ≡ flow_of (upstream_of self.old)) }
        ensures err { OnErr result (IsAsBefore self.old self.new) }
        ensures refused { IfErr result (λ refusal. (refusal ≡ NoMemory) × (cause_kept (upstream_of self.old) ≡ None)) }
        ensures starts { IfErr result (λ _. RefusesAt T.word self.old now self.new) }
        ensures armed { IfOk result (λ polled. IsTrue polled.on → IsTrue (has_run (upstream_of self.new)) → IsArmed cx.new) }
        ensures kept { Keeps cx.old cx.new }
    {
        let mut destination = FlowDestination {
            flow: &mut self.flow,
            outlet: &mut self.outlet,
            rt,
        };
        poll_sharing(
            &mut self.upstream,
            &mut self.strategy,
            &mut destination,
            now,
            cx,
        )
    }

    /// Why sharing ended for good: a failure of a run, or a refusal by a run or by an emission. None while it may go on.
    pub fn fault(&self) -> Option<Cause<F::Fault>>
        ensures has { result ≡ cause_kept (upstream_of self.now) }
    {
        self.upstream.fault()
    }

    /// Ends the sharing as a stop does: cancels the run, and withdraws the waiting emission.
    ///
    /// `Removed` where that was never accepted. `Left` where it was accepted: its value stays with its subscriptions. `Gone` where none
    /// waited.
    pub fn close(self, rt: &impl Wait) -> Withdrawn<Receipt>
        // of the emitter that is left: the list is complete
        ensures has { (left : Emitting) × IsLeftOf (emitter_of self) result left
            × (emitted left ≡ after_cancel result (shared self)) }
        ensures idle { waiting_in self ≡ None → result ≡ withdrawn.Gone }
        ensures ended { EndedWith (emitter_of self) result }
        ensures receipt { IfLeft result (λ receipt. receipt.emitter ≡ 0) }
    {
        let Sharing {
            flow,
            outlet,
            upstream,
            strategy: _,
        } = self;
        upstream.close();
        let withdrawn = outlet.close(rt);
        leave(flow);
        withdrawn
    }
}
