//! A program that goes by the answers of its calls, and what its subscription received.

ghost use Rattle.std.specs.Prelude.{◌≡◌, ◌⊎◌, IfOk, IfErr, IfSome, IfNone, OnOk, Err};
ghost use Rattle.flow_terms.specs.declared.refusal.Refusal.TheVariants.{NoMemory, Spent};
ghost use Rattle.shared_core.specs.Flow.{State};
ghost use Rattle.shared_core.specs.Kept.{making_refusal, parameters_of};
ghost use Rattle.shared_core.specs.Shown.{Shows};
ghost use Rattle.list_callers.specs.Taking.{OffersNone, OffersOneMore, TookByTheHeadline};

use cold_flow::Refusal;
use shared_core::{Config, Next, SharedState, SubId, Tried};
use std::alloc::Global;

/// What a subscription took, and the flow that is left.
#[derive(Drop)]
pub struct Taken<T: Copy> {
    pub flow: SharedState<T>,
    pub subscription: SubId,
    pub values: Vec<T>,
}

/// Takes a value, where one is pending. Answers whether it did.
fn take_one<T: Copy>(
    flow: &mut SharedState<T>,
    subscription: SubId,
    taken: &mut Vec<T>,
) -> Result<bool, Refusal>
    ensures took { OnOk result (OffersNone subscription.0 flow.old taken.old.items flow.new taken.new.items) }
    ensures refused { IfErr result (λ refusal. refusal ≡ NoMemory) }
{
    match flow.next(subscription) {
        Next::Value(value) => {
            taken.push(value)?;
            Ok(true)
        }
        Next::Nothing | Next::Closed => Ok(false),
    }
}

/// Offers a value. Where there is no room for it the subscription takes one, and the value is passed over.
fn offer<T: Copy>(
    flow: &mut SharedState<T>,
    subscription: SubId,
    value: T,
    taken: &mut Vec<T>,
) -> Result<(), Refusal>
    ensures offered { OnOk result (OffersOneMore subscription.0 value flow.old taken.old.items flow.new taken.new.items) }
    ensures refused { IfErr result (λ refusal. (M : State T) → Shows flow.old M → (refusal ≡ NoMemory) ⊎ (refusal ≡ Spent)) }
{
    match flow.try_emit(0, value)? {
        Tried::Accepted(_) | Tried::Dropped => Ok(()),
        Tried::Full => {
            let _took = take_one(flow, subscription, taken)?;
            Ok(())
        }
    }
}

/// Offers the values to a subscription of a new flow, which takes one wherever there is no room for the next.
///
/// What it took, then what is pending for it in the flow, is all that was accepted of them, in order and once, less just
/// the values its policy dropped: the headline holds of the replies to these calls.
///
/// Refused as `SharedState::new` refuses such a flow; any other refusal is `NoMemory`, or `Spent` where the numbers are used up.
pub fn offer_and_take<T: Copy>(
    alloc: Global,
    config: Config,
    values: &[T],
) -> Result<Taken<T>, Refusal>
    ensures took { IfOk result (λ it. TookByTheHeadline (parameters_of config) it.subscription.0 it.flow values.now it.values.items) }
    ensures refused { IfSome (making_refusal config) (λ refusal. result ≡ Err refusal) }
    ensures otherwise { IfNone (making_refusal config) (IfErr result (λ refusal. (refusal ≡ NoMemory) ⊎ (refusal ≡ Spent))) }
{
    let mut flow = SharedState::new(alloc, config)?;
    let subscription = flow.subscribe()?;
    let mut taken = Vec::new(alloc);
    for value in values {
        offer(&mut flow, subscription, *value, &mut taken)?;
    }
    Ok(Taken {
        flow,
        subscription,
        values: taken,
    })
}
