//! A new state and a new shared flow that one thread combines.

ghost use Rattle.std.specs.Prelude.{◌≡◌, ◌⊎◌, [], Some, None, IfOk, IfErr};
ghost use Rattle.flow_terms.specs.declared.refusal.Refusal.TheVariants.{NoMemory};
ghost use Rattle.shared_core.specs.Kept.{making_refusal};
ghost use Rattle.shared_rounds.specs.Names.{IsMadeWith};
ghost use Rattle.shared_rounds.specs.Rounds.{IsAtLimit};
ghost use Rattle.shared_flow.specs.Parties.{named, received};
ghost use Rattle.shared_flow.specs.Received.{IsComplete};
ghost use Rattle.state_flow.specs.Calls.{Begins, Ends};
ghost use Rattle.state_flow.specs.Views.{opening, giver, taker};

use crate::opening::emitter_and_subscription;
use cold_flow::{Refusal, Word};
use shared_core::Config;
use shared_flow::{Emitter, Met, Subscription};
use state_flow::{Collector, StateFlow, StateSeat};
use std::alloc::AllocGlobal;
use std::sync::{Arc, Wait};
use waking_states::{TaskBell, WakingSeat};

/// Who combines a state and a shared flow: the state's collector, the bell that wakes it, and a subscription. It must be spent, by
/// [`cancel`](StateAndFlow::cancel).
pub struct StateAndFlow<T: Word, U: Word> {
    /// The state's collector.
    pub state: Collector<T>,
    /// What the state's seat rings.
    pub bell: Arc<TaskBell>,
    /// The flow's subscription.
    pub flow: Subscription<U>,
}

impl<T: Word, U: Word> StateAndFlow<T, U> {
    /// Ends both, and gives the state's seat back: what Kotlin does where the coroutine that collects is cancelled. Says what had become of
    /// the emissions, as [`Subscription::cancel`] does.
    pub fn cancel(self, rt: &impl Wait) -> (StateSeat<T>, Met)
        ensures state { Ends self.state.view result.0.view × (result.0.flow ≡ self.state.flow) }
        ensures flow { IsComplete U.read_as self.flow result.1 }
    {
        let StateAndFlow { state, bell, flow } = self;
        drop(bell);
        (state.cancel(), flow.cancel(rt))
    }
}

/// A new state and a new shared flow: a seat to set the state by, an emitter of the flow, and who combines both, which was given nothing
/// yet. Kotlin's `MutableStateFlow(value)` and `MutableSharedFlow(..)`, of which somebody collects the `combine`.
///
/// [`WakingSeat::stop`] lets go who combines. The emitter's id is 0, and it must be spent, as [`StateAndFlow`] must. Who needs more seats,
/// emitters or subscriptions makes state, bell and flow by themselves. Refused as [`emitter_and_subscription`] is, and first by `NoMemory`.
pub fn state_and_flow<R, T: Word, U: Word>(
    rt: &R,
    value: T,
    config: Config,
) -> Result<(WakingSeat<T>, Emitter<U>, StateAndFlow<T, U>), Refusal>
where
    R: Wait + AllocGlobal,
    ensures seat { IfOk result (λ made. made.0.view ≡ giver 1 (opening value 2)) }
    ensures state { IfOk result (λ made. Begins (taker 1 (opening value 2)) made.2.state.view × (made.2.state.flow ≡ made.0.flow)) }
    ensures config { IfOk result (λ made. IsMadeWith config made.1.party.flow) }
    ensures same_flow { IfOk result (λ made. named made.2.flow.party ≡ named made.1.party) }
    ensures emitter { IfOk result (λ made. (made.1.id ≡ 0) × (made.1.ticket ≡ None) × (made.1.last ≡ None) × (made.1.party.rounds ≡ [])) }
    ensures flow { IfOk result (λ made. (received U.read_as made.2.flow ≡ []) × (made.2.flow.rest ≡ [])) }
    ensures refused { IfErr result (λ refusal. (refusal ≡ NoMemory) ⊎ ((making_refusal config ≡ Some refusal) ⊎ IsAtLimit refusal)) }
{
    let bell = TaskBell::new(rt.alloc())?;
    let rung = Arc::try_clone(&bell)?;
    let mut seat = StateFlow::new(rt.alloc(), value, 2)?;
    let watched = seat.take_seat(0)?;
    let (emitter, flow) = emitter_and_subscription(rt, config)?;
    let both = StateAndFlow {
        state: watched.collect(),
        bell,
        flow,
    };
    Ok((WakingSeat::over(seat, rung), emitter, both))
}
