//! `fold`: one state from all values of a run.

ghost use Rattle.std.specs.Prelude.{◌≡◌, Option, None};
ghost use Rattle.futures.specs.Poll.{OnPending};
ghost use Rattle.futures.specs.Task.{IsArmed, Keeps};
ghost use Rattle.cold_flow.specs.Ends.{folded_run, state_of, function_of, folded_cause};
ghost use Rattle.cold_flow.specs.Poll.{Narrows, end_of};
ghost use Rattle.cold_flow.specs.Fold.{FoldsTo, state_after};
ghost use Rattle.cold_flow.specs.Polled.{TakesInto};

use crate::apply::Apply;
use crate::cause::Cause;
use crate::event::Event;
use crate::run::{BUDGET, Run};
use futures::ready;
use futures::task::{Context, Poll};

/// A run whose values are being folded.
#[derive(Drop)]
pub struct Folding<R: Run, S, G> {
    run: R,
    // What the values so far made of the first state.
    state: S,
    function: G,
    // How the run ended, once it has.
    cause: Option<Cause<R::Fault>>,
}

/// Folds the values of `run`, from `init` on, by `function` of the state and the next value: Kotlin's `fold`. See `Folding::poll`.
pub fn fold<R: Run, S: Copy, G: Apply<(S, R::Item), Out = S>>(
    run: R,
    init: S,
    function: G,
) -> Folding<R, S, G>
    ensures { (folded_run result ≡ run) × (state_of result ≡ init) × (function_of result ≡ function)
        × (folded_cause result ≡ None) }
{
    Folding {
        run,
        state: init,
        function,
        cause: None,
    }
}

impl<R: Run, S: Copy, G: Apply<(S, R::Item), Out = S>> Folding<R, S, G> {
    /// Takes at most 64 values of the run, and then yields. It is ready with the last state and the cause once the run has ended, and
    /// every later poll answers the same.
    #[inline(always)]
    pub fn poll(&mut self, cx: &mut Context<'_>) -> Poll<(S, Cause<R::Fault>)>
        ensures folds { FoldsTo (G.gives (function_of self.old)) (folded_cause self.old) (state_of self.old) (R.may (folded_run self.old)) result
            (folded_cause self.new) (state_of self.new) (R.may (folded_run self.new)) }
        ensures takes { TakesInto R.polled (G.gives (function_of self.old)) (folded_cause self.old) (state_of self.old) (folded_run self.old) result
            (state_of self.new) (folded_run self.new) }
        ensures same { function_of self.new ≡ function_of self.old }
        ensures armed { OnPending result (IsArmed cx.new) }
        ensures kept { Keeps cx.old cx.new }
    {
        if let Some(cause) = self.cause {
            return Poll::Ready((self.state, cause));
        }
        // The first answer stands apart from the loop: behind it the run is known to go on, so no turn asks for an end from before.
        if let Event::End(cause) = ready!(self.take(cx)) {
            return Poll::Ready((self.state, cause));
        }
        for _taken in 1..BUDGET {
            if let Event::End(cause) = ready!(self.take(cx)) {
                return Poll::Ready((self.state, cause));
            }
        }
        cx.yield_now()
    }

    // Polls the run, and takes what it answers into the state.
    #[inline(always)]
    fn take(&mut self, cx: &mut Context<'_>) -> Poll<Event<R::Item, R::Fault>>
        ensures narrows { Narrows (R.may self.old.run) result (R.may self.new.run) }
        ensures polled { R.polled self.old.run result self.new.run }
        ensures state { self.new.state ≡ state_after (G.gives self.old.function) self.old.state result }
        ensures ended { self.old.cause ≡ None → self.new.cause ≡ end_of result }
        ensures same { self.new.function ≡ self.old.function }
        ensures armed { OnPending result (IsArmed cx.new) }
        ensures kept { Keeps cx.old cx.new }
    {
        match ready!(self.run.poll_next(cx)) {
            Event::Value(value) => {
                self.state = self.function.apply((self.state, value));
                Poll::Ready(Event::Value(value))
            }
            Event::End(cause) => {
                self.cause = Some(cause);
                Poll::Ready(Event::End(cause))
            }
        }
    }
}
