//! The shared flow that a line of a script makes, on either engine.

ghost use Rattle.std.specs.Prelude.{ℕ, Result};
ghost use Rattle.flow_terms.specs.declared.policy.Policy.{Policy};
ghost use Rattle.flow_terms.specs.declared.refusal.Refusal.{Refusal};
ghost use Rattle.flow_script.specs.Makers.{MakesOneThread, MakesForThreads};

use crate::making::config_of;
use flow_terms::{Policy, Refusal};
use script_calls::MutableShared;
use script_engines::{ForThreads, OneThread};
use std::alloc::Global;
use std::sync::Wait;

/// A shared flow of one of the engines, as a line makes it.
pub trait EngineFlow<'r, W: Wait>: MutableShared {
    // What is made with a replay, an extra and a policy.
    ghost makes: { ℕ → ℕ → Policy → Result Self Refusal → Type 0 };

    /// A new flow with these, for [`config_of`]'s subscriptions and emissions. Refused as its config is, and else by `NoMemory`.
    fn make(
        rt: &'r W,
        alloc: Global,
        replay: u64,
        extra: u64,
        policy: Policy,
    ) -> Result<Self, Refusal>
        ensures { makes replay extra policy result };
}

impl<'r, W: Wait> EngineFlow<'r, W> for OneThread {
    ghost makes = { MakesOneThread };

    fn make(
        _rt: &'r W,
        alloc: Global,
        replay: u64,
        extra: u64,
        policy: Policy,
    ) -> Result<OneThread, Refusal> {
        OneThread::new(alloc, config_of(replay, extra, policy))
    }
}

impl<'r, W: Wait> EngineFlow<'r, W> for ForThreads<'r, W> {
    ghost makes = { MakesForThreads };

    fn make(
        rt: &'r W,
        alloc: Global,
        replay: u64,
        extra: u64,
        policy: Policy,
    ) -> Result<ForThreads<'r, W>, Refusal> {
        ForThreads::new(rt, alloc, config_of(replay, extra, policy))
    }
}
