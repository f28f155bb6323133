//! A source whose runs call the code of its user.

ghost use Rattle.std.specs.Prelude.{◌≡◌, Bool, true, false, IsTrue, ⊤};
ghost use Rattle.cold_flow.specs.declared.builders.scripted.Step.{Step};
ghost use Rattle.cold_flow.specs.Poll.{Within};
ghost use Rattle.calling_sources.specs.Calling.{GivesOnce, IsDone, OnceOrDone};

use cold_flow::{EndingRun, Flow, Refusal, Step, Steps};
use std::alloc::AllocError;

/// Code that a source calls: it reads a file, or asks a service. What it does outside its answer no contract says.
pub trait Call: Copy {
    /// The value that it is called for.
    type Item: Copy;

    /// What it fails with.
    type Fault: Copy;

    // Holds of each answer that a call may give.
    ghost answers: { Self → Step Self.Item Self.Fault → Type 0 } = { λ _ _. ⊤ };

    // No call answers that it isn't done.
    ghost prompt: { Self → Bool } = { λ _. false };

    /// The value, or a fault, or that it isn't done: then it is called again.
    fn call(&self) -> Step<Self::Item, Self::Fault>
        ensures answers { answers self.now result }
        ensures prompt { IsTrue (prompt self.now) → IsDone result };
}

/// The flow of `calling`, and the steps of a run of it.
#[derive(Copy)]
pub struct Called<C> {
    code: C,
    // Once it gave its value.
    is_done: bool,
}

impl<C: Copy> Clone for Called<C> {
    ghost is_clone = { λ value copy. copy ≡ value };

    ghost is_infallible = { λ _. ⊤ };

    fn clone(&self) -> Result<Self, AllocError> {
        Ok(*self)
    }
}

/// What `code` answers, called by each run anew: Kotlin's `flow { emit(load()) }`.
///
/// A run gives the value and finishes, or fails with the fault; where the code isn't done, it asks to be polled again, and calls it
/// again. It calls it in its polls alone, and no more once it has a value or a fault. No poll is pending where the code is always done
/// (`prompt`). A start takes no memory and calls nothing. That two calls answer alike isn't claimed.
pub fn calling<C: Call>(code: C) -> Called<C>
    ensures made { result ≡ record { code = code; is_done = false } }
    ensures gives { Within (GivesOnce (C.answers code)) (⟦<Called<C> as Flow>⟧.may result) }
    ensures prompt { IsTrue (C.prompt code) → IsTrue (⟦<Called<C> as Flow>⟧.prompt result) }
    ensures starts { IsTrue (⟦<Called<C> as Flow>⟧.starts result) }
{
    Called {
        code,
        is_done: false,
    }
}

impl<C: Call> Flow for Called<C> {
    ghost use Rattle.calling_sources.specs.CallingLaws.{done-uncancelled};

    type Item = C::Item;

    type Fault = C::Fault;

    type Running = EndingRun<Called<C>, C::Fault>;

    ghost may = { λ f. OnceOrDone f.is_done (C.answers f.code) };

    ghost prompt = { λ f. C.prompt f.code };

    ghost starts = { λ _. true };

    fn start(&self) -> Result<EndingRun<Called<C>, C::Fault>, Refusal> {
        Ok(EndingRun::new(*self))
    }

    ghost uncancelled = { λ f. done-uncancelled f.is_done (C.answers f.code) };
}

impl<C: Call> Steps for Called<C> {
    ghost use Rattle.calling_sources.specs.CallingLaws.{done-begins};

    type Item = C::Item;

    type Fault = C::Fault;

    ghost may = { λ s. OnceOrDone s.is_done (C.answers s.code) };

    ghost prompt = { λ s. C.prompt s.code };

    fn step(&mut self) -> Option<Step<C::Item, C::Fault>> {
        if self.is_done {
            return None;
        }
        match self.code.call() {
            Step::Value(value) => {
                self.is_done = true;
                Some(Step::Value(value))
            }
            Step::Pending => Some(Step::Pending),
            Step::Fail(fault) => Some(Step::Fail(fault)),
        }
    }

    ghost begins = { λ s. done-begins s.is_done (C.answers s.code) };
}
