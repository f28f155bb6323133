//! What a subscription receives, of a program's calls and the replies that it got.

ghost use Rattle.std.specs.Prelude.{◌≡◌, [], IfOk, IfSome, IfNone, IsOkUnless, OnErr};
ghost use Rattle.shared_core.specs.Kept.{making_refusal, parameters_of};
ghost use Rattle.shared_core.specs.Headline.{Headline};
ghost use Rattle.shared_core.specs.Made.{execution_made, IsExecutionOf};

use cold_flow::Refusal;
use shared_core::{
    Call, Config, Reply, SharedState, each_subscription_receives_prelude_cache_then_later,
};
use std::alloc::Global;

/// Makes the calls on a new flow, and gives the flow with the replies.
///
/// What each subscription received by these replies, then what is pending for it in the flow, is its prelude, the replay
/// cache at its start and all later accepted emissions, in order and once, less just the values its policy dropped. A
/// refusal leaves no replies.
pub fn run_new_flow<T: Copy>(
    alloc: Global,
    config: Config,
    calls: &[Call<T>],
    replies: &mut Vec<Reply<T>>,
) -> Result<SharedState<T>, Refusal>
    requires { replies.old.items ≡ [] }
    ensures refused { IfSome (making_refusal config) (λ refusal. result ≡ Err refusal) }
    ensures made { IfNone (making_refusal config) (IsOkUnless result Refusal.NoMemory) }
    ensures err { OnErr result (replies.new.items ≡ replies.old.items) }
    ensures execution { IfOk result (λ flow. IsExecutionOf (parameters_of config) (execution_made calls.now replies.new.items flow)) }
    ensures headline { IfOk result (λ flow. Headline (execution_made calls.now replies.new.items flow)) }
{
    each_subscription_receives_prelude_cache_then_later::<T>();
    let mut flow = SharedState::new(alloc, config)?;
    flow.run(calls, replies)?;
    Ok(flow)
}
