//! `catch_with`: another end in place of a failure.

ghost use Rattle.std.specs.Prelude.{◌≡◌, IsTrue, ⊤};
ghost use Rattle.cold_flow.specs.Poll.{Makes, MakesExactly, IsWithinPolls};
ghost use Rattle.cold_flow.specs.Finale.{with_finale, catching};
ghost use Rattle.cold_flow.specs.Closing.{and_one};

use crate::apply::Apply;
use crate::cause::Cause;
use crate::flow::Flow;
use crate::operators::finale::{Concluded, Finale};
use std::alloc::AllocError;

/// What `catch_with` makes of a failure.
#[derive(Copy)]
pub enum Caught<T, E> {
    /// It ends by `Cause::Finished`.
    End,
    /// It gives this value, and then ends by `Cause::Finished`.
    Last(T),
    /// It fails with this fault instead.
    Fault(E),
}

impl<T: Copy, E: Copy> Clone for Caught<T, E> {
    ghost is_clone = { λ value copy. copy ≡ value };

    ghost is_infallible = { λ _. ⊤ };

    fn clone(&self) -> Result<Self, AllocError> {
        Ok(*self)
    }
}

/// What `catch_with` makes of an end.
#[derive(Copy)]
pub struct Catching<G> {
    handler: G,
}

impl<G: Copy> Clone for Catching<G> {
    ghost is_clone = { λ value copy. copy ≡ value };

    ghost is_infallible = { λ _. ⊤ };

    fn clone(&self) -> Result<Self, AllocError> {
        Ok(*self)
    }
}

/// The values of `source`, and where it fails, what `handler` answers of its fault: Kotlin's `catch`.
///
/// Any other end of the source passes. A failure that arises downstream never reaches the handler. Cancelled before the end, also
/// after a last value, it cancels the source and ends by `Cause::Cancelled`.
pub fn catch_with<F: Flow, G: Apply<F::Fault, Out = Caught<F::Item, F::Fault>>>(
    source: F,
    handler: G,
) -> Concluded<F, Catching<G>>
    ensures gives { Makes (with_finale (catching (G.gives handler))) (F.may source) (⟦<Concluded<F, Catching<G>> as Flow>⟧.may result) }
    ensures exact { MakesExactly (with_finale (catching (G.gives handler))) (F.may source)
        (⟦<Concluded<F, Catching<G>> as Flow>⟧.may result) }
    ensures lasts { IsWithinPolls (and_one (F.polls source)) (⟦<Concluded<F, Catching<G>> as Flow>⟧.polls result) }
    ensures prompt { IsTrue (F.prompt source) → IsTrue (⟦<Concluded<F, Catching<G>> as Flow>⟧.prompt result) }
    ensures starts { IsTrue (F.starts source) → IsTrue (⟦<Concluded<F, Catching<G>> as Flow>⟧.starts result) }
{
    Concluded::new(source, Catching { handler })
}

impl<T: Copy, E: Copy, G: Apply<E, Out = Caught<T, E>>> Finale<T, E> for Catching<G> {
    ghost use Rattle.cold_flow.specs.FinaleLaws.{catching_last, catching_cancels};

    ghost gives = { λ f. catching (G.gives f.handler) };

    fn finale(&self, cause: Cause<E>) -> (Option<T>, Cause<E>)
        ensures { result ≡ catching (G.gives self.now.handler) cause }
    {
        match cause {
            Cause::Finished => (None, Cause::Finished),
            Cause::Failed(fault) => match self.handler.apply(fault) {
                Caught::End => (None, Cause::Finished),
                Caught::Last(value) => (Some(value), Cause::Finished),
                Caught::Fault(other) => (None, Cause::Failed(other)),
            },
            Cause::Cancelled => (None, Cause::Cancelled),
            Cause::Refused(refusal) => (None, Cause::Refused(refusal)),
        }
    }

    ghost finishes = { λ f. catching_last (G.gives f.handler) };

    ghost cancels = { λ f. catching_cancels (G.gives f.handler) };
}
