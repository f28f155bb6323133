//! A shared flow on one thread, as a script calls it.

ghost use Rattle.std.specs.Prelude.{IfOk};
ghost use Rattle.shared_core.specs.Flow.{cache, empty};
ghost use Rattle.shared_core.specs.Kept.{making_refusal, parameters_of};
ghost use Rattle.shared_core.specs.Shown.{Shows, Reads};
ghost use Rattle.script_calls.specs.Makings.{MadeUnless};
ghost use Rattle.script_engines.specs.Seen.{state_of};

use flow_terms::{Begun, Emit, Next, Refusal, SubId, Ticket, Tried, Withdrawn};
use futures::task::Context;
use script_calls::{MutableShared, Shared};
use shared_core::{Config, Prelude, SharedState};
use std::alloc::{AllocError, Global};

/// The emitter that stands behind each emission of a script.
const EMITTER: u32 = 0;

/// A shared flow on one thread, as a script calls it: each call is its model's.
#[derive(Drop)]
pub struct OneThread {
    state: SharedState<u64>,
}

impl OneThread {
    /// A flow without subscriptions. Refused as `SharedState::new`, and then by `NoMemory`.
    pub fn new(alloc: Global, config: Config) -> Result<OneThread, Refusal>
        ensures { MadeUnless (making_refusal config) result (λ made. Shows (state_of made) (empty (parameters_of config))) }
    {
        let state = SharedState::new(alloc, config)?;
        Ok(OneThread { state })
    }
}

/// The values of a flow's replay cache, the oldest first.
fn cached(alloc: Global, flow: &SharedState<u64>) -> Result<Vec<u64>, AllocError>
    ensures { IfOk result (λ values. Reads cache flow.now values.items) }
{
    let count = flow.replay_len();
    let mut values = Vec::with_capacity(alloc, count as usize)?;
    for index in 0..count {
        values.push_reserved(flow.replay_at(index));
    }
    Ok(values)
}

impl Shared for OneThread {
    ghost use Rattle.script_calls.specs.Views.{receipts_of};
    ghost use Rattle.script_engines.specs.Modelling.{receiving};

    ghost receipts = { receipts_of (λ flow. flow.state) receiving };

    fn subscribe(&mut self, prelude: &[u64]) -> Result<SubId, Refusal> {
        let prelude = Prelude::of(prelude)?;
        self.state.subscribe_with(prelude)
    }

    fn next(&mut self, id: SubId, _cx: &mut Context<'_>) -> Next<u64> {
        self.state.next(id)
    }

    fn cancel(&mut self, id: SubId) -> bool {
        self.state.cancel(id)
    }

    fn cache(&mut self, alloc: Global) -> Result<Result<Vec<u64>, Refusal>, AllocError> {
        let values = cached(alloc, &self.state)?;
        Ok(Ok(values))
    }

    fn count(&mut self) -> u32 {
        self.state.subscription_count()
    }

    fn close(self) {}
}

impl MutableShared for OneThread {
    ghost use Rattle.script_calls.specs.Views.{emissions_of};
    ghost use Rattle.script_engines.specs.Modelling.{emitting};

    ghost emissions = { emissions_of (λ flow. flow.state) emitting };

    fn try_emit(&mut self, value: u64) -> Result<Tried<u64>, Refusal> {
        self.state.try_emit(EMITTER, value)
    }

    fn start_emit(&mut self, value: u64) -> Result<Begun<u64, Ticket>, Refusal> {
        self.state.start_emit(EMITTER, value)
    }

    fn poll_emit(&mut self, ticket: Ticket, _cx: &mut Context<'_>) -> Emit {
        self.state.poll_emit(ticket)
    }

    fn withdraw(&mut self, ticket: Ticket) -> Withdrawn<u64> {
        self.state.cancel_emit(ticket)
    }

    fn reset(&mut self) {
        self.state.reset_replay();
    }
}
