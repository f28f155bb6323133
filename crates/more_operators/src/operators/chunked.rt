//! `chunked`: the values in chunks.

ghost use Rattle.std.specs.Prelude.{◌≡◌, ◌<◌, ◌≤◌, List, Option, None, IfOk, MatchResult, IsTrue, ⊤, ◌⊎◌};
ghost use Rattle.flow_terms.specs.declared.few.Few.TheVariants.{Zero};
ghost use Rattle.flow_terms.specs.declared.refusal.Refusal.TheVariants.{NotPositive, BadLimit};
ghost use Rattle.cold_flow.specs.declared.operators.closing.Closing.TheVariants.{Open};
ghost use Rattle.cold_flow.specs.Poll.{Makes, MakesExactly, IsWithinPolls};
ghost use Rattle.more_operators.specs.Chunked.{chunked_trace};
ghost use Rattle.more_operators.specs.Held.{held_polls};

use crate::operators::chunk::{Chunk, LONGEST};
use crate::operators::onward::Onward;
use crate::operators::relay::{Relay, Relayed};
use cold_flow::{Few, Flow, Refusal};
use std::alloc::AllocError;
use std::marker::Model;

/// Gathers values until there are as many as a chunk is to have.
#[derive(Copy)]
pub struct Gathering<T> {
    // How many values a chunk has.
    size: u32,
    // The values since the last chunk.
    gathered: Option<Chunk<T>>,
}

impl<T> Model for Gathering<T> {
    ghost use Rattle.more_operators.specs.Gathers.{Gathers};

    ghost Value = { Gathers T };

    ghost use Rattle.more_operators.specs.Gathers.{IsGathering};

    ghost view = { λ g. record { size = g.size; gathered = g.gathered } };

    ghost invariant = { λ g. IsGathering g.size g.gathered };

    ghost inverse = { λ g. record { size = g.size; gathered = g.gathered } };
}

impl<T: Copy> Clone for Gathering<T> {
    ghost is_clone = { λ value copy. copy ≡ value };

    ghost is_infallible = { λ _. ⊤ };

    fn clone(&self) -> Result<Self, AllocError> {
        Ok(*self)
    }
}

/// The values of `source` in chunks of `size`: Kotlin's `chunked`. It is refused with `Refusal::NotPositive` where `size` is 0, and with
/// `Refusal::BadLimit` where it is above 16.
///
/// A chunk is given when it is full. Where the source finishes, the values left are given as a last, shorter chunk before that end.
/// Where the source ends otherwise, they are lost, and that end passes. Cancelled, it cancels the source, gives up the values that it
/// has gathered, and ends by `Cause::Cancelled`.
pub fn chunked<F: Flow>(
    source: F,
    size: u32,
) -> Result<Relayed<F, Gathering<F::Item>, Chunk<F::Item>>, Refusal>
    ensures gives { IfOk result (λ f. Makes (chunked_trace size) (F.may source)
        (⟦<Relayed<F, Gathering<F::Item>, Chunk<F::Item>> as Flow>⟧.may f)) }
    ensures exact { IfOk result (λ f. MakesExactly (chunked_trace size) (F.may source)
        (⟦<Relayed<F, Gathering<F::Item>, Chunk<F::Item>> as Flow>⟧.may f)) }
    ensures lasts { IfOk result (λ f. IsWithinPolls (held_polls {B = List F.Item} {E = F.Fault} Open Zero (F.polls source))
        (⟦<Relayed<F, Gathering<F::Item>, Chunk<F::Item>> as Flow>⟧.polls f)) }
    ensures prompt { IfOk result (λ f. IsTrue (F.prompt source)
        → IsTrue (⟦<Relayed<F, Gathering<F::Item>, Chunk<F::Item>> as Flow>⟧.prompt f)) }
    ensures starts { IfOk result (λ f. IsTrue (F.starts source)
        → IsTrue (⟦<Relayed<F, Gathering<F::Item>, Chunk<F::Item>> as Flow>⟧.starts f)) }
    ensures refused { MatchResult result (λ _. (0 < size) × (size ≤ 16))
        (λ e. ((e ≡ NotPositive) × (size ≡ 0)) ⊎ ((e ≡ BadLimit) × (16 < size))) }
{
    if size == 0 {
        return Err(Refusal::NotPositive);
    }
    if size > LONGEST {
        return Err(Refusal::BadLimit);
    }
    let gathering = Gathering {
        size,
        gathered: None,
    };
    Ok(Relayed::new(source, gathering, Few::Zero))
}

impl<T: Copy> Relay<T> for Gathering<T> {
    ghost use Rattle.more_operators.specs.ChunkedLaws.{gathers_soon};
    ghost use Rattle.more_operators.specs.Gathers.{given_for, gathered_after, given_last, is_gathering, silent_for};

    type Out = Chunk<T>;

    ghost takes = { given_for };

    ghost after = { gathered_after };

    ghost closes = { given_last };

    ghost steady = { is_gathering };

    ghost silent = { silent_for };

    fn take(&mut self, value: T) -> Onward<Chunk<T>> {
        let chunk = match self.gathered {
            None => Chunk::of(value),
            Some(chunk) => chunk.followed_by(value),
        };
        if chunk.len() == self.size {
            self.gathered = None;
            return Onward::More(Few::One(chunk));
        }
        self.gathered = Some(chunk);
        Onward::More(Few::Zero)
    }

    fn close(&self) -> Few<Chunk<T>> {
        match self.gathered {
            None => Few::Zero,
            Some(chunk) => Few::One(chunk),
        }
    }

    ghost gives_soon = { gathers_soon };
}
