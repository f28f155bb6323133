//! `share_in`: a cold flow, shared.

ghost use Rattle.std.specs.Prelude.{◌≡◌, [], None, IfOk, IfErr, IsOkUnless};
ghost use Rattle.shared_flow.specs.Parties.{named, sharing_of};
ghost use Rattle.sharing_upstream.specs.Shown.{started_by, Shows};
ghost use Rattle.sharing_upstream.specs.Upstreams.{IsUnstarted};
ghost use Rattle.flow_sharing.specs.FlowDestinations.{IsNewDestination};
ghost use Rattle.flow_sharing.specs.Sharings.{shared, shared_by, waiting_in, place_of, upstream_of, strategy_of};

use crate::sharing::Sharing;
use cold_flow::{Flow, Refusal, Word};
use flow_terms::Started;
use shared_flow::SharedFlow;

/// Shares `upstream`: what one run of it gives is emitted into `flow`, for all its subscriptions, while `started` says so. Kotlin's
/// `shareIn`, where a coroutine does what a caller of [`Sharing::poll`] does here.
///
/// Its emitter has the id 0. Nobody else is to emit into the flow. The sharing has half of the flow's share of the lock. Refused as
/// `NoMemory`, and then nothing is shared.
pub fn share_in<T: Word, F: Flow<Item = T>>(
    flow: &mut SharedFlow<T>,
    upstream: F,
    started: Started,
) -> Result<Sharing<T, F>, Refusal>
    ensures has { IfOk result (λ sharing. (shared sharing ≡ []) × (waiting_in sharing ≡ None)) }
    ensures flow { IfOk result (λ sharing. shared_by sharing ≡ named flow.old.party) }
    ensures upstream { IfOk result (λ sharing. IsUnstarted upstream (upstream_of sharing)) }
    ensures place { IfOk result (λ sharing. IsNewDestination flow.new.party (place_of sharing)) }
    ensures started { IfOk result (λ sharing. (started_by (strategy_of sharing) ≡ started) × Shows (strategy_of sharing) []) }
    ensures memory { IsOkUnless result Refusal.NoMemory }
    ensures half { IfOk result (λ _. flow.new ≡ record flow.old { party = sharing_of flow.old.party }) }
    ensures same { IfErr result (λ _. flow.new ≡ flow.old) }
{
    let mut owner = flow.dup()?;
    let emitter = match owner.emitter(0) {
        Ok(emitter) => emitter,
        Err(refusal) => {
            flow.take_back(owner);
            return Err(refusal);
        }
    };
    Ok(Sharing::over(owner, emitter, upstream, started))
}
