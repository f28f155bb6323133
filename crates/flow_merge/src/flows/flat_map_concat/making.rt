//! Puts inner flows one after the other.

ghost use Rattle.std.specs.Prelude.{None, IsTrue};
ghost use Rattle.cold_flow.specs.Poll.{Within};
ghost use Rattle.flow_merge.specs.Concat.{MayConcat, JoinsExactlyOrRefused, JoinsExactly};
ghost use Rattle.flow_merge.specs.Views.{IsMadeOf};

use super::Concatenated;
use crate::flows::bound::Unbounded;
use cold_flow::{Apply, Flow};
use std::marker::PhantomData;

/// Kotlin's `flatMapConcat`: the inner flows that `function` answers for the outer values, one after the other.
///
/// The outer flow is asked only while no inner run stands. A failure of the outer or of an inner flow is the end, and so is an inner
/// start that is refused: then the end is `Cause::Refused`. The outer run is cancelled with it.
pub fn flat_map_concat<
    B: Copy,
    E: Copy,
    S: Flow<Fault = E>,
    F: Flow<Item = B, Fault = E>,
    G: Apply<S::Item, Out = F>,
>(outer: S, function: G) -> Concatenated<S, F, G, Unbounded>
    ensures gives { Within (MayConcat (λ x. F.starts (G.gives function x)) (λ x. F.may (G.gives function x)) F.Running.may None (S.may outer))
        (⟦<Concatenated<S, F, G, Unbounded> as Flow>⟧.may result) }
    ensures made { IsMadeOf outer function result }

    // What is collected is fixed where no inner start is refused.
    ensures exact { JoinsExactlyOrRefused (λ x. F.may (G.gives function x)) (S.may outer) (⟦<Concatenated<S, F, G, Unbounded> as Flow>⟧.may result) }

    // Where none can be refused, it is fixed whole.
    ensures fixed { JoinsExactly (λ x. F.starts (G.gives function x)) (λ x. F.may (G.gives function x)) (S.may outer)
        (⟦<Concatenated<S, F, G, Unbounded> as Flow>⟧.may result) }
    ensures starts { IsTrue (S.starts outer) → IsTrue (⟦<Concatenated<S, F, G, Unbounded> as Flow>⟧.starts result) }
{
    Concatenated {
        outer,
        function,
        bound: PhantomData,
    }
}
