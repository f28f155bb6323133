//! A caller of sharings.

ghost use Rattle.std.specs.Prelude.{◌≡◌, ◌⊎◌, true, IfOk};
ghost use Rattle.shared_flow.specs.Parties.{sharing_of};

use cold_flow::{Flow, Refusal, Word};
use flow_sharing::{Polled, Started, share_in};
use futures::task::Context;
use shared_flow::SharedFlow;
use std::sync::Wait;

/// One poll of an eager sharing, which is on. The sharing has half of the flow's share of the lock, and is closed.
pub fn first_poll<T: Word, F: Flow<Item = T>>(
    rt: &impl Wait,
    flow: &mut SharedFlow<T>,
    upstream: F,
    now: u64,
    cx: &mut Context<'_>,
) -> Result<Polled, Refusal>
    ensures on { IfOk result (λ polled. polled.on ≡ true) }
    ensures half { IfOk result (λ _. flow.new ≡ record flow.old { party = sharing_of flow.old.party }) }
    ensures same { (flow.new ≡ flow.old) ⊎ (flow.new ≡ record flow.old { party = sharing_of flow.old.party }) }
{
    let mut sharing = share_in(flow, upstream, Started::Eagerly)?;
    let polled = sharing.poll(rt, now, cx);
    sharing.close(rt);
    polled
}
