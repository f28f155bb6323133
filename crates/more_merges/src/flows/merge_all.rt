//! Several flows at once.

ghost use Rattle.std.specs.Prelude.{◌≡◌, IsTrue, ⊤};
ghost use Rattle.cold_flow.specs.Trace.{map_trace};
ghost use Rattle.cold_flow.specs.Poll.{Makes, IsWithinPolls};
ghost use Rattle.flow_merge.specs.Counting.{with_end};
ghost use Rattle.more_merges.specs.Joins.{MayJoin, all_polls, each_is, value_of};

use crate::flows::merge_indexed::{Indexed, merge_indexed};
use cold_flow::{Apply, Flow, Mapped, map};
use std::alloc::{AllocError, Global};

/// The value without its index.
#[derive(Copy)]
pub struct ValueAlone;

impl Clone for ValueAlone {
    ghost is_clone = { λ function copy. copy ≡ function };

    ghost is_infallible = { λ _. ⊤ };

    fn clone(&self) -> Result<Self, AllocError> {
        Ok(*self)
    }
}

impl<T: Copy> Apply<(usize, T)> for ValueAlone {
    type Out = T;

    ghost gives = { λ _. value_of };

    fn apply(&self, argument: (usize, T)) -> T {
        argument.1
    }
}

/// The values of all `flows` as they come: Kotlin's `merge` of a list.
///
/// What is said of `merge_indexed` holds of it, which tells the index of each value, too.
pub fn merge_all<F: Flow>(alloc: Global, flows: Vec<F>) -> Mapped<Indexed<F>, ValueAlone>
    ensures gives { Makes (map_trace value_of) (MayJoin F.may flows.items) (⟦<Mapped<Indexed<F>, ValueAlone> as Flow>⟧.may result) }
    ensures lasts { IsWithinPolls (all_polls (λ flow. with_end (F.polls flow)) flows.items)
        (⟦<Mapped<Indexed<F>, ValueAlone> as Flow>⟧.polls result) }
    ensures prompt { IsTrue (each_is F.prompt flows.items) → IsTrue (⟦<Mapped<Indexed<F>, ValueAlone> as Flow>⟧.prompt result) }
{
    map(merge_indexed(alloc, flows), ValueAlone)
}
