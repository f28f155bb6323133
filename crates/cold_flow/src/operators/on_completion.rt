//! `on_completion`: an action at the end.

ghost use Rattle.std.specs.Prelude.{◌≡◌, ◌⊎◌, [], Option, Some, None, IsTrue, ⊤};
ghost use Rattle.cold_flow.specs.declared.cause.Cause.TheVariants.{Finished, Cancelled};
ghost use Rattle.cold_flow.specs.Trace.{ended_by};
ghost use Rattle.cold_flow.specs.Poll.{Makes, MakesExactly, Fixes, IsWithinPolls};
ghost use Rattle.cold_flow.specs.Finale.{with_finale, completing};
ghost use Rattle.cold_flow.specs.Closing.{and_one};

use crate::apply::Apply;
use crate::cause::Cause;
use crate::flow::Flow;
use crate::operators::closing::Closing;
use crate::operators::finale::{Concluded, ConcludedRun, Finale};
use crate::run::Run;
use std::alloc::AllocError;

/// What `on_completion` makes of an end.
#[derive(Copy)]
pub struct Completing<G> {
    action: G,
}

impl<G: Copy> Clone for Completing<G> {
    ghost is_clone = { λ value copy. copy ≡ value };

    ghost is_infallible = { λ _. ⊤ };

    fn clone(&self) -> Result<Self, AllocError> {
        Ok(*self)
    }
}

/// The values of `source`, whose end `action` is told: Kotlin's `onCompletion`.
///
/// The action is asked once: when the end of the source is seen, or at `cancel`, whichever is first. Where it is told
/// `Cause::Finished` and answers `Some`, that value is given before the end. Any end of the source passes, a
/// failure too. Cancelled before the end, it cancels the source and ends by `Cause::Cancelled`.
pub fn on_completion<F: Flow, G: Apply<Cause<F::Fault>, Out = Option<F::Item>>>(
    source: F,
    action: G,
) -> Concluded<F, Completing<G>>
    ensures gives { Makes (with_finale (completing (G.gives action))) (F.may source)
        (⟦<Concluded<F, Completing<G>> as Flow>⟧.may result) }
    ensures exact { MakesExactly (with_finale (completing (G.gives action))) (F.may source)
        (⟦<Concluded<F, Completing<G>> as Flow>⟧.may result) }
    ensures lasts { IsWithinPolls (and_one (F.polls source)) (⟦<Concluded<F, Completing<G>> as Flow>⟧.polls result) }
    ensures prompt { IsTrue (F.prompt source) → IsTrue (⟦<Concluded<F, Completing<G>> as Flow>⟧.prompt result) }
    ensures starts { IsTrue (F.starts source) → IsTrue (⟦<Concluded<F, Completing<G>> as Flow>⟧.starts result) }
{
    Concluded::new(source, Completing { action })
}

impl<T: Copy, E: Copy, G: Apply<Cause<E>, Out = Option<T>>> Finale<T, E> for Completing<G> {
    ghost use Rattle.cold_flow.specs.FinaleLaws.{completing_last, completing_cancels};

    ghost gives = { λ f. completing (G.gives f.action) };

    // Tells the action of the source's end. What it answers is a last value where the source has finished.
    fn finale(&self, cause: Cause<E>) -> (Option<T>, Cause<E>)
        ensures { result ≡ completing (G.gives self.now.action) cause }
    {
        let last = self.action.apply(cause);
        if let Cause::Finished = cause {
            return (last, cause);
        }
        (None, cause)
    }

    ghost finishes = { λ f. completing_last (G.gives f.action) };

    ghost cancels = { λ f. completing_cancels (G.gives f.action) };
}

impl<
    T: Copy,
    E: Copy,
    S: Run<Item = T, Fault = E>,
    G: Apply<Cause<E>, Out = Option<T>>,
> ConcludedRun<S, Completing<G>, E> {
    ghost use Rattle.cold_flow.specs.ConcludedRuns.{cause_told};

    /// The cause that the action was told, and `None` before.
    ///
    /// That is the cause by which the run ended, or `Cause::Finished` from the last value on, also where the run was cancelled then.
    pub fn noted(&self) -> Option<Cause<E>>
        ensures told { result ≡ cause_told self.now }
        ensures ended { (k : _) → ⟦<ConcludedRun<S, Completing<G>, E> as Run>⟧.ended self.now ≡ Some k
            → (result ≡ Some k) ⊎ ((k ≡ Cancelled) × (result ≡ Some Finished)) }
        ensures going { ⟦<ConcludedRun<S, Completing<G>, E> as Run>⟧.ended self.now ≡ None
            → (result ≡ None) ⊎ ((result ≡ Some Finished) × Fixes (ended_by [] Finished) (⟦<ConcludedRun<S, Completing<G>, E> as Run>⟧.may self.now)) }
    {
        if self.last_given {
            return Some(Cause::Finished);
        }
        match self.closing {
            Closing::Over(cause) => Some(cause),
            _ => None,
        }
    }
}
