//! Flows: what can be collected.

ghost use Rattle.std.specs.Prelude.{◌≡◌, List, Bool, false, IsTrue, IsOk, IfOk, IfErr, None};
ghost use Rattle.std.specs.Iterator.{Count, endless};
ghost use Rattle.cold_flow.specs.declared.cause.Cause.TheVariants.{Cancelled};
ghost use Rattle.flow_terms.specs.declared.refusal.Refusal.TheVariants.{NoMemory};
ghost use Rattle.cold_flow.specs.Trace.{Trace, ended_by};
ghost use Rattle.cold_flow.specs.Poll.{Within, IsWithinPolls};

use crate::run::Run;
use flow_terms::Refusal;

/// A cold flow, Kotlin's `Flow`: it can be collected any number of times, each time by a run of its own.
///
/// Nothing happens before a run is started and polled.
pub trait Flow: Drop {
    /// What its runs give.
    type Item: Copy;

    /// What its runs fail with.
    type Fault: Copy;

    /// A run of it.
    type Running: Run<Item = Self::Item, Fault = Self::Fault>;

    // Holds of each trace that a new run can give.
    ghost may: { Self → Trace Self.Item Self.Fault → Type 0 };

    // No more polls than this come before the end of a new run.
    ghost polls: { Self → Count } = { λ _. endless };

    // No poll of a new run answers pending.
    ghost prompt: { Self → Bool } = { λ _. false };

    // No start is refused.
    ghost starts: { Self → Bool } = { λ _. false };

    /// Starts a run. It is refused with `Refusal::NoMemory` alone, and then nothing was started.
    fn start(&self) -> Result<Self::Running, Refusal>
        ensures gives { IfOk result (λ r. Within (may self.now) (Self.Running.may r)) }
        ensures fresh { IfOk result (λ r. Self.Running.ended r ≡ None) }
        ensures lasts { IfOk result (λ r. IsWithinPolls (polls self.now) (Self.Running.polls r)) }
        ensures prompt { IfOk result (λ r. IsTrue (prompt self.now) → IsTrue (Self.Running.prompt r)) }
        ensures starts { IsTrue (starts self.now) → IsOk result }
        ensures refused { IfErr result (λ e. e ≡ NoMemory) };

    // Only a cancelled run ends by `Cancelled`.
    ghost uncancelled: { (f : Self) (xs : List Self.Item) → may f (ended_by xs Cancelled) → ⊥ };
}

impl<'a, F: Flow> Flow for &'a F {
    type Item = F::Item;

    type Fault = F::Fault;

    type Running = F::Running;

    ghost may = { λ f. F.may f.now };

    ghost polls = { λ f. F.polls f.now };

    ghost prompt = { λ f. F.prompt f.now };

    ghost starts = { λ f. F.starts f.now };

    fn start(&self) -> Result<F::Running, Refusal> {
        (**self).start()
    }

    ghost uncancelled = { λ f. F.uncancelled f.now };
}
