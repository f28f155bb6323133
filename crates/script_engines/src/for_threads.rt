//! A shared flow for threads, as a script calls it.

ghost use Rattle.std.specs.Prelude.{◌≡◌, Some, None, IfOk, IfErr, IsOkUnless};
ghost use Rattle.std.specs.Option.{ForSome};
ghost use Rattle.shared_core.specs.Kept.{making_refusal};
ghost use Rattle.script_calls.specs.Makings.{MadeUnless};
ghost use Rattle.shared_flow.specs.Parties.{Emitting};
ghost use Rattle.script_engines.specs.Parties.{IsUntouched, Spares};

use crate::subscriptions::Subscriptions;
use flow_terms::{Begun, Emit, Next, Refusal, SubId, Ticket, Tried, Withdrawn};
use futures::task::{Context, Poll};
use script_calls::places::{emission_of, ticket_at};
use script_calls::{MutableShared, Shared};
use shared_core::Config;
use shared_flow::{Emitter, SharedFlow};
use std::alloc::{AllocError, Global};
use std::sync::Wait;

/// The emitter that stands behind each emission of a script.
const EMITTER: u32 = 0;

/// A shared flow for threads, as a script calls it: an owner with its subscriptions, and emitters. It must be spent, by
/// [`close`](Shared::close).
pub struct ForThreads<'a, W> {
    rt: &'a W,
    subscriptions: Subscriptions<'a, W>,
    // Who makes each try and begins each emission.
    emitter: Emitter<u64>,
    // Who takes its place, where its emission has to wait. It is kept where that is finished at once: its share of the lock would be
    // lost, and nobody could say what it had emitted.
    spare: Option<Emitter<u64>>,
    // Each emission that had to wait has an emitter of its own, which is idle where that is finished or given up.
    emissions: Vec<Emitter<u64>>,
    ghost idle: { emitter.ticket ≡ None },
    ghost ready: { ForSome spare (λ e. e.ticket ≡ None) },
}

// Has a spare emitter stand by, which this owner makes where none does.
fn prepare(
    spare: &mut Option<Emitter<u64>>,
    flow: &mut SharedFlow<u64>,
    rt: &impl Wait,
) -> Result<(), Refusal>
    requires { ForSome spare.old (λ e. e.ticket ≡ None) }
    ensures ready { IfOk result (λ _. (e : Emitting) × (spare.new ≡ Some e) × (e.ticket ≡ None) × Spares spare.old flow.old e flow.new) }
    ensures memory { IsOkUnless result Refusal.NoMemory }
    ensures same { IfErr result (λ _. (spare.new ≡ spare.old) × (flow.new ≡ flow.old)) }
{
    if spare.is_some() {
        return Ok(());
    }
    let emitter = flow.emitter(EMITTER)?;
    if let Some(other) = spare.replace(emitter) {
        let _idle = other.close(rt);
    }
    Ok(())
}

impl<'a, W: Wait> ForThreads<'a, W> {
    ghost use Rattle.script_engines.specs.Seen.{parties_of};

    /// A flow without subscriptions. Refused as `SharedFlow::new` is by its config, and then by `NoMemory` at most.
    pub fn new(rt: &'a W, alloc: Global, config: Config) -> Result<ForThreads<'a, W>, Refusal>
        ensures { MadeUnless (making_refusal config) result (λ made. IsUntouched config (parties_of made)) }
    {
        let mut flow = SharedFlow::new(alloc, config)?;
        let emitter = flow.emitter(EMITTER)?;
        Ok(ForThreads {
            rt,
            subscriptions: Subscriptions::new(rt, alloc, flow),
            emitter,
            spare: None,
            emissions: Vec::new(alloc),
        })
    }
}

impl<'a, W: Wait> Shared for ForThreads<'a, W> {
    ghost use Rattle.script_calls.specs.Views.{receipts_of};
    ghost use Rattle.script_engines.specs.Subscribing.{subscribing_of};
    ghost use Rattle.script_engines.specs.Parties.{receiving};

    ghost receipts = { receipts_of (λ it. record { subscriptions = subscribing_of it.subscriptions; emitter = it.emitter; spare = it.spare; emissions = it.emissions.items }) receiving };

    fn subscribe(&mut self, prelude: &[u64]) -> Result<SubId, Refusal> {
        self.subscriptions.subscribe(prelude)
    }

    fn next(&mut self, id: SubId, cx: &mut Context<'_>) -> Next<u64> {
        self.subscriptions.next(id, cx)
    }

    fn cancel(&mut self, id: SubId) -> bool {
        self.subscriptions.cancel(id)
    }

    fn cache(&mut self, alloc: Global) -> Result<Result<Vec<u64>, Refusal>, AllocError> {
        self.subscriptions.cache(alloc)
    }

    fn count(&mut self) -> u32 {
        self.subscriptions.count()
    }

    fn close(self) {
        let ForThreads {
            rt,
            subscriptions,
            emitter,
            spare,
            mut emissions,
        } = self;
        while let Some(emission) = emissions.pop() {
            let _withdrawn = emission.close(rt);
        }
        emissions.destroy_empty();
        if let Some(spare) = spare {
            let _idle = spare.close(rt);
        }
        let _idle = emitter.close(rt);
        subscriptions.close();
    }
}

impl<'a, W: Wait> MutableShared for ForThreads<'a, W> {
    ghost use Rattle.script_calls.specs.Views.{emissions_of};
    ghost use Rattle.script_engines.specs.Subscribing.{subscribing_of};
    ghost use Rattle.script_engines.specs.Parties.{emitting};

    ghost emissions = { emissions_of (λ it. record { subscriptions = subscribing_of it.subscriptions; emitter = it.emitter; spare = it.spare; emissions = it.emissions.items }) emitting };

    fn try_emit(&mut self, value: u64) -> Result<Tried<u64>, Refusal> {
        match self.emitter.try_emit(self.rt, value)? {
            Tried::Accepted(receipt) => Ok(Tried::Accepted(receipt.number())),
            Tried::Dropped => Ok(Tried::Dropped),
            Tried::Full => Ok(Tried::Full),
        }
    }

    fn start_emit(&mut self, value: u64) -> Result<Begun<u64, Ticket>, Refusal> {
        self.emissions.reserve(1)?;
        prepare(&mut self.spare, &mut self.subscriptions.flow, self.rt)?;
        match self.emitter.start_emit(self.rt, value) {
            Ok(Begun::Accepted(receipt)) => Ok(Begun::Accepted(receipt.number())),
            Ok(Begun::Dropped) => Ok(Begun::Dropped),
            Ok(Begun::Waiting(())) => {
                let Some(spare) = self.spare.take() else {
                    unreachable!()
                };
                let place = self.emissions.len();
                let emitter = std::mem::replace(&mut self.emitter, spare);
                self.emissions.push_reserved(emitter);
                Ok(Begun::Waiting(ticket_at(place)))
            }
            Err(refusal) => Err(refusal),
        }
    }

    fn poll_emit(&mut self, ticket: Ticket, cx: &mut Context<'_>) -> Emit {
        let Some(emitter) = self.emissions.get_mut(emission_of(ticket)) else {
            return Emit::Gone;
        };
        if !emitter.in_flight() {
            return Emit::Gone;
        }
        let Poll::Ready(receipt) = emitter.poll_emit(self.rt, cx) else {
            return Emit::Waiting;
        };
        Emit::Done(receipt.number())
    }

    fn withdraw(&mut self, ticket: Ticket) -> Withdrawn<u64> {
        let Some(emitter) = self.emissions.get_mut(emission_of(ticket)) else {
            return Withdrawn::Gone;
        };
        match emitter.cancel_emit(self.rt) {
            Withdrawn::Removed => Withdrawn::Removed,
            Withdrawn::Left(receipt) => Withdrawn::Left(receipt.number()),
            Withdrawn::Gone => Withdrawn::Gone,
        }
    }

    fn reset(&mut self) {
        self.subscriptions.flow.reset_replay(self.rt);
    }
}
