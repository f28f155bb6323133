//! Making a buffer in one task.

ghost use Rattle.std.specs.Prelude.{◌≡◌, List, [], IfOk, IsTrue, MatchResult};
ghost use Rattle.cold_flow.specs.declared.cause.Cause.{Cause};
ghost use Rattle.flow_terms.specs.declared.policy.Policy.TheVariants.{Suspend, DropOldest};
ghost use Rattle.cold_flow.specs.Trace.{ended_by};
ghost use Rattle.cold_flow.specs.Poll.{Within, IsWithinPolls};
ghost use Rattle.flow_buffer.specs.Capacity.{RefusesCapacity};
ghost use Rattle.flow_buffer.specs.Delivery.{Delivered, GivesWhole, GivesLatest};
ghost use Rattle.flow_buffer.specs.Views.{IsMadeOf};

use crate::buffer_flow::Buffer;
use crate::capacity::checked;
use cold_flow::{Flow, Policy, Refusal};
use std::alloc::Global;

/// Puts a buffer of that capacity behind the flow: Kotlin's `buffer`, whose default capacity is left out.
///
/// Under `Policy::Suspend` it gives all that its source gives. Under `Policy::DropOldest` a run that ends gave the last value
/// of its source last.
///
/// Refused, in this order, with `Refusal::TooLarge` for a capacity over 65,536, and `Refusal::NotPositive` for 0.
pub fn buffer<F: Flow>(
    alloc: Global,
    source: F,
    capacity: u64,
    policy: Policy,
) -> Result<Buffer<F>, Refusal>
    ensures made { MatchResult result (IsMadeOf source capacity policy) (RefusesCapacity capacity) }
    ensures gives { IfOk result (λ made. Within (Delivered capacity policy [] (F.may source)) (⟦<Buffer<F> as Flow>⟧.may made)) }
    ensures exact { IfOk result (λ made. policy ≡ Suspend → GivesWhole (F.may source) (⟦<Buffer<F> as Flow>⟧.may made)) }
    ensures latest { IfOk result (λ made. policy ≡ DropOldest → GivesLatest (F.may source) (⟦<Buffer<F> as Flow>⟧.may made)) }
    ensures lasts { IfOk result (λ made. IsWithinPolls (F.polls source) (⟦<Buffer<F> as Flow>⟧.polls made)) }
    ensures prompt { IfOk result (λ made. IsTrue (F.prompt source) → IsTrue (⟦<Buffer<F> as Flow>⟧.prompt made)) }
{
    let capacity = checked(capacity)?;
    Ok(Buffer {
        source,
        capacity,
        policy,
        alloc,
    })
}

/// Keeps only the latest value that the collector did not take yet: Kotlin's `conflate`, a buffer of capacity 1 under
/// `Policy::DropOldest`. A run that ends gave the last value of its source last.
pub fn conflate<F: Flow>(alloc: Global, source: F) -> Buffer<F>
    ensures made { IsMadeOf source 1 DropOldest result }
    ensures gives { Within (Delivered 1 DropOldest [] (F.may source)) (⟦<Buffer<F> as Flow>⟧.may result) }
    ensures latest { GivesLatest (F.may source) (⟦<Buffer<F> as Flow>⟧.may result) }
    ensures lasts { IsWithinPolls (F.polls source) (⟦<Buffer<F> as Flow>⟧.polls result) }
    ensures prompt { IsTrue (F.prompt source) → IsTrue (⟦<Buffer<F> as Flow>⟧.prompt result) }
{
    Buffer {
        source,
        capacity: 1,
        policy: Policy::DropOldest,
        alloc,
    }
}
