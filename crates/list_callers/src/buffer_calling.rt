//! Callers of buffers: what a collection through a buffer leaves of a list is fixed by its contract.

ghost use Rattle.std.specs.Prelude.{◌≡◌, None, IfOk, IfErr};
ghost use Rattle.flow_terms.specs.declared.refusal.Refusal.TheVariants.{NoMemory};
ghost use Rattle.cold_flow.specs.declared.cause.Cause.TheVariants.{Finished};
ghost use Rattle.cold_flow.specs.Trace.{ended_by};
ghost use Rattle.flow_buffer.specs.Capacity.{WasRefused};
ghost use Rattle.flow_buffer.specs.Delivery.{latest};

use cold_flow::{Collected, Flow, Policy, Refusal, of, to_list};
use flow_buffer::{buffer, conflate};
use futures::task::Context;
use std::alloc::Global;

/// A buffer that waits leaves out nothing.
pub fn buffered_list<T: Copy, E: Copy>(
    alloc: Global,
    values: Vec<T>,
    capacity: u64,
    cx: &mut Context<'_>,
) -> Result<Collected<T, E>, Refusal>
    ensures whole { IfOk result (λ list. ended_by list.values.items list.cause ≡ ended_by values.items Finished) }
    ensures refused { IfErr result (λ refusal. WasRefused capacity refusal) }
{
    let flow = buffer(alloc, of::<T, E>(values), capacity, Policy::Suspend)?;
    to_list(alloc, flow.start()?, cx)
}

/// A conflated flow gives the last value last.
pub fn conflated_list<T: Copy, E: Copy>(
    alloc: Global,
    values: Vec<T>,
    cx: &mut Context<'_>,
) -> Result<Collected<T, E>, Refusal>
    ensures last { IfOk result (λ list. latest None list.values.items ≡ latest None values.items) }
    ensures refused { IfErr result (λ refusal. refusal ≡ NoMemory) }
{
    let flow = conflate(alloc, of::<T, E>(values));
    to_list(alloc, flow.start()?, cx)
}
