//! Making a buffer between two threads.

ghost use Rattle.std.specs.Prelude.{◌≡◌, ◌<◌, [], Option, None, IfOk, IfErr};
ghost use Rattle.cold_flow.specs.Poll.{Within};
ghost use Rattle.flow_buffer.specs.Capacity.{refused_capacity, WasRefused};
ghost use Rattle.flow_buffer.specs.Sides.{may_drop};
ghost use Rattle.flow_buffer.specs.Views.{upstream_of, feeding};

use crate::capacity::checked;
use crate::drain::Drain;
use crate::feed::Feed;
use crate::inlet::Inlet;
use crate::rule::{Buffering, Lossless, Lossy};
use crate::side::Side;
use cold_flow::{Event, Flow, Policy, Refusal};
use crossbeam_channel::bounded_with;
use std::alloc::Global;

/// Starts the flow, and puts a buffer of that capacity between its run and whoever collects it: Kotlin's `buffer` where
/// the collector runs on another thread.
///
/// Refused, in this order, with `Refusal::TooLarge` for a capacity over 65,536, `Refusal::NotPositive` for 0, and
/// `Refusal::NoMemory`.
pub fn split<F: Flow>(
    alloc: Global,
    source: F,
    capacity: u64,
    policy: Policy,
) -> Result<(Feed<F::Running>, Drain<F::Item, F::Fault>), Refusal>
    ensures capacity { IfOk result (λ r. refused_capacity capacity ≡ None) }
    ensures started { IfOk result (λ r. Within (F.may source) (F.Running.may (upstream_of r.0))) }
    ensures feed { IfOk result (λ r. feeding r.0 ≡ record { channel = r.1.channel; capacity = capacity; policy = policy; produced = []; level = 0; waiting = None; sent = None }) }
    ensures drain { IfOk result (λ r. r.1 ≡ record { channel = (feeding r.0).channel; lossy = may_drop policy; taken = []; end = None; history = [] }) }
    ensures refused { IfErr result (λ refusal. WasRefused capacity refusal) }
{
    let places = checked(capacity)?;
    let (sender, receiver, mut pass) = bounded_with::<
        Event<F::Item, F::Fault>,
        Side<F::Item, F::Fault>,
        Buffering,
        Global,
    >(alloc, places)?;
    let other = receiver.try_clone()?;
    let upstream = source.start()?;
    let knowledge = match policy {
        Policy::Suspend => sender.another::<Lossless>(&mut pass),
        Policy::DropOldest | Policy::DropLatest => sender.another::<Lossy>(&mut pass),
    };
    let inlet = Inlet::new(sender, other, pass, policy);
    let drain = Drain {
        receiver,
        pass: knowledge,
        taken: 0,
        end: None,
    };
    Ok((Feed { upstream, inlet }, drain))
}
