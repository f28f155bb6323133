//! A source of what others hand over.

ghost use Rattle.std.specs.Prelude.{◌≡◌, IsTrue, true, ⊤, refl};
ghost use Rattle.cold_flow.specs.Poll.{Within};
ghost use Rattle.calling_sources.specs.Handing.{IsOpen};

use cold_flow::{EndingRun, Flow, Refusal, Step, Steps};
use std::alloc::AllocError;
use std::cell::Cell;
use std::marker::PhantomData;

/// The flow of `handed`, and the steps of a run of it.
#[derive(Copy)]
pub struct HandedValues<'a, T, E> {
    next: &'a Cell<Option<T>>,
    marker: PhantomData<E>,
}

impl<'a, T: Copy, E: Copy> Clone for HandedValues<'a, T, E> {
    ghost is_clone = { λ value copy. copy ≡ value };

    ghost is_infallible = { λ _. ⊤ };

    fn clone(&self) -> Result<Self, AllocError> {
        Ok(*self)
    }
}

/// The values that others put into `next`: Kotlin's `channel.receiveAsFlow()`, of a `Channel(CONFLATED)`.
///
/// A poll takes the value that is there, and leaves nothing; where nothing is there it yields. So a value that is put in over one that
/// wasn't taken stands in its place. It never ends of itself. Of two runs one takes it. A start is never refused, and takes nothing.
/// `T` is the type of what `next` holds, and `E` that of the faults of the chain, `handed::<_, ()>(&next)` where nothing else fixes it.
pub fn handed<'a, T: Copy, E: Copy>(next: &'a Cell<Option<T>>) -> HandedValues<'a, T, E>
    ensures gives { Within IsOpen (⟦<HandedValues<'a, T, E> as Flow>⟧.may result) }
    ensures starts { IsTrue (⟦<HandedValues<'a, T, E> as Flow>⟧.starts result) }
{
    HandedValues {
        next,
        marker: PhantomData,
    }
}

impl<'a, T: Copy, E: Copy> Flow for HandedValues<'a, T, E> {
    ghost use Rattle.calling_sources.specs.Handing.{open-uncancelled};

    type Item = T;

    type Fault = E;

    type Running = EndingRun<HandedValues<'a, T, E>, E>;

    ghost may = { λ _. IsOpen };

    ghost starts = { λ _. true };

    fn start(&self) -> Result<EndingRun<HandedValues<'a, T, E>, E>, Refusal> {
        Ok(EndingRun::new(*self))
    }

    ghost uncancelled = { λ _ xs h. open-uncancelled xs h };
}

impl<'a, T: Copy, E: Copy> Steps for HandedValues<'a, T, E> {
    type Item = T;

    type Fault = E;

    ghost may = { λ _. IsOpen };

    fn step(&mut self) -> Option<Step<T, E>> {
        match self.next.replace(None) {
            Some(value) => Some(Step::Value(value)),
            None => Some(Step::Pending),
        }
    }

    ghost begins = { λ _. refl };
}
