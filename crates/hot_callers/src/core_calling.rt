//! Two callers of a shared flow on one thread, who know it by its contracts alone.

ghost use Rattle.std.specs.Prelude.{◌≡◌, IfOk};

use cold_flow::{Policy, Refusal};
use shared_core::{Config, Next, SharedState};
use std::alloc::Global;

/// A flow with one place for one subscription.
const ONE_PLACE: Config = Config {
    replay: 0,
    extra: 1,
    policy: Policy::Suspend,
    subscribers: 1,
    emits: 1,
    first: 0,
};

/// One value, from a try to the subscription.
pub fn received_once(alloc: Global, value: u64) -> Result<Next<u64>, Refusal>
    ensures { IfOk result (λ next. next ≡ Next.Value value) }
{
    let mut flow = SharedState::new(alloc, ONE_PLACE)?;
    let id = flow.subscribe()?;
    let _tried = flow.try_emit(1, value)?;
    Ok(flow.next(id))
}

/// The second of two values, which waited until the first was received.
pub fn received_in_turn(alloc: Global, first: u64, second: u64) -> Result<Next<u64>, Refusal>
    ensures { IfOk result (λ next. next ≡ Next.Value second) }
{
    let mut flow = SharedState::new(alloc, ONE_PLACE)?;
    let id = flow.subscribe()?;
    let _accepted = flow.start_emit(1, first)?;
    let _waiting = flow.start_emit(1, second)?;
    let _first = flow.next(id);
    Ok(flow.next(id))
}
