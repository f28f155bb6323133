//! Runs: flows that are being collected.

ghost use Rattle.std.specs.Prelude.{◌≡◌, Option, Some, [], Bool, false, IsTrue, IsSome};
ghost use Rattle.std.specs.Iterator.{Count, endless, IsFinite};
ghost use Rattle.futures.specs.Poll.{OnPending};
ghost use Rattle.futures.specs.declared.task.Poll.{Poll};
ghost use Rattle.futures.specs.declared.task.Poll.TheVariants.{Ready};
ghost use Rattle.futures.specs.Task.{IsArmed, Keeps};
ghost use Rattle.cold_flow.specs.declared.cause.Cause.{Cause};
ghost use Rattle.cold_flow.specs.declared.event.Event.{Event};
ghost use Rattle.cold_flow.specs.declared.event.Event.TheVariants.{End};
ghost use Rattle.cold_flow.specs.Trace.{Trace, ◌⊑◌, so_far, ended_by};
ghost use Rattle.cold_flow.specs.Poll.{Narrows, end_of, after_cancel, Approaches, IsReady};

use crate::cause::Cause;
use crate::event::Event;
use futures::task::{Context, Poll};

/// After so many answers of a source that gave its caller nothing, a poll yields: it asks to be polled again, and answers
/// pending.
pub const BUDGET: u32 = 64;

/// A flow that is being collected: one collector's run of it.
///
/// A run asks its sources only inside its own polls. After an end, every poll gives that end again.
pub trait Run: Drop {
    /// What it gives.
    type Item: Copy;

    /// What it fails with.
    type Fault: Copy;

    // Holds of each trace that the run can still give.
    ghost may: { Self → Trace Self.Item Self.Fault → Type 0 };

    // The cause that every poll answers from now on: an end was given, or the run was cancelled.
    ghost ended: { Self → Option (Cause Self.Fault) };

    // No source of the run is asked any more.
    ghost stopped: { Self → Bool };

    // No more polls than this come before the end.
    ghost polls: { Self → Count } = { λ _. endless };

    // No poll answers pending.
    ghost prompt: { Self → Bool } = { λ _. false };

    // The run was polled, gave this answer, and then stood so. Who has any run knows this of its polls alone, so its contract can
    // name the polls that it made. An operator says here of which sources a pending poll waits.
    ghost polled: { Self → Poll (Event Self.Item Self.Fault) → Self → Type 0 } = { λ _ _ _. Unit {0} };

    // The run was cancelled, and then stood so.
    ghost cancelled: { Self → Self → Type 0 } = { λ _ _. Unit {0} };

    /// The next value, or the end; pending where a source has nothing yet, and the task is woken once there may be more.
    fn poll_next(&mut self, cx: &mut Context<'_>) -> Poll<Event<Self::Item, Self::Fault>>
        ensures narrows { Narrows (may self.old) result (may self.new) }
        ensures ends { ended self.new ≡ end_of result }
        ensures stops { IsSome (end_of result) → IsTrue (stopped self.new) }
        ensures stays { (k : _) → ended self.old ≡ Some k → result ≡ Ready (End k) }
        ensures approaches { Approaches (polls self.old) result (polls self.new) }
        ensures prompt { IsTrue (prompt self.old) → IsReady result × IsTrue (prompt self.new) }
        ensures polled { polled self.old result self.new }
        ensures armed { OnPending result (IsArmed cx.new) }
        ensures kept { Keeps cx.old cx.new };

    /// The cause that every poll gives from now on: an end was given, or the run was cancelled. `None` before.
    fn end(&self) -> Option<Cause<Self::Fault>>
        ensures { result ≡ ended self.now };

    /// Ends the run by `Cause::Cancelled`, and each of its sources that has not ended. After an end it changes nothing.
    fn cancel(&mut self)
        ensures ends { ended self.new ≡ Some (after_cancel (ended self.old)) }
        ensures stops { IsTrue (stopped self.new) }
        ensures cancelled { cancelled self.old self.new };

    // Of an ended run no source is asked any more.
    ghost halts: { (r : Self) → IsSome (ended r) → IsTrue (stopped r) };

    // Any run may have given nothing yet.
    ghost begins: { (r : Self) → may r (so_far []) };

    // An ended run gives no value more.
    ghost over: { (r : Self) (k : Cause Self.Fault) → ended r ≡ Some k
        → (t : Trace Self.Item Self.Fault) → may r t → t ⊑ ended_by [] k };
}

/// A run that has ended within a number of polls, which it knows from its start.
pub trait Finite: Run {
    ghost is_finite: { (r : Self) → IsFinite (Self.polls r) };
}
