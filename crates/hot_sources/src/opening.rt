//! Both ends of a new shared flow.

ghost use Rattle.std.specs.Prelude.{◌≡◌, ◌⊎◌, [], None, Err, IfOk, IfErr, IfSome, IfNone};
ghost use Rattle.flow_terms.specs.declared.refusal.Refusal.TheVariants.{NoMemory};
ghost use Rattle.shared_core.specs.Kept.{making_refusal};
ghost use Rattle.shared_rounds.specs.Names.{IsMadeWith};
ghost use Rattle.shared_rounds.specs.Rounds.{IsAtLimit};
ghost use Rattle.shared_flow.specs.Parties.{named, received};

use cold_flow::{Refusal, Word};
use shared_core::Config;
use shared_flow::{Emitter, SharedFlow, Subscription};
use std::alloc::AllocGlobal;
use std::sync::Wait;

/// A new shared flow, as an emitter and a subscription, one for each of two threads: Kotlin's `MutableSharedFlow(..)`, of which one
/// coroutine emits and one collects. The subscription is there before the first emission. The emitter's id is 0.
///
/// Both must be spent: `emitter.close(rt)`, `subscription.cancel(rt)`. The flow is let go with the last of them. Who needs more of either
/// makes them of a `SharedFlow`. Refused as [`SharedFlow::new`] is, by the same of `config`, and else by `NoMemory`.
pub fn emitter_and_subscription<R, T: Word>(
    rt: &R,
    config: Config,
) -> Result<(Emitter<T>, Subscription<T>), Refusal>
where
    R: Wait + AllocGlobal,
    ensures refused { IfSome (making_refusal config) (λ refusal. result ≡ Err refusal) }
    ensures limits { IfNone (making_refusal config) (IfErr result (λ refusal. (refusal ≡ NoMemory) ⊎ IsAtLimit refusal)) }
    ensures config { IfOk result (λ both. IsMadeWith config both.0.party.flow) }
    ensures same_flow { IfOk result (λ both. named both.1.party ≡ named both.0.party) }
    ensures emitter { IfOk result (λ both. (both.0.id ≡ 0) × (both.0.ticket ≡ None) × (both.0.last ≡ None) × (both.0.party.rounds ≡ [])) }
    ensures subscription { IfOk result (λ both. (received T.read_as both.1 ≡ []) × (both.1.rest ≡ [])) }
{
    let mut flow = SharedFlow::new(rt.alloc(), config)?;
    let emitter = flow.emitter(0)?;
    match flow.subscribe(rt) {
        Ok(subscription) => Ok((emitter, subscription)),
        Err(refusal) => {
            emitter.close(rt);
            Err(refusal)
        }
    }
}
