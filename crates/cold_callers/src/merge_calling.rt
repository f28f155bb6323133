//! Callers of flows of several sources: what is collected is fixed by the contracts of the flows.

ghost use Rattle.std.specs.Prelude.{◌≡◌, IfOk};
ghost use Rattle.cold_flow.specs.Poll.{IsWithinPolls};
ghost use Rattle.flow_merge.specs.Zip.{zip_trace};
ghost use Rattle.cold_callers.specs.Lists.{trace_of, whole_list, CollectsJoined};

use cold_flow::{Apply, Collected, Finite, Flow, Refusal, of, to_list};
use flow_merge::{KnownBound, flat_map_concat, zip};
use futures::task::Context;
use std::alloc::Global;

/// `function` of the pairs of two lists.
pub fn zipped_lists<T: Copy, U: Copy, V: Copy, E: Copy, G: Apply<(T, U), Out = V>>(
    alloc: Global,
    left: Vec<T>,
    right: Vec<U>,
    function: G,
    cx: &mut Context<'_>,
) -> Result<Collected<V, E>, Refusal>
    ensures { IfOk result (λ list. trace_of list ≡ zip_trace (G.gives function) (whole_list left.items) (whole_list right.items)) }
{
    let flow = zip(of::<T, E>(left), of::<U, E>(right), function);
    to_list(alloc, flow.start()?, cx)
}

/// What the inner flows of the values give, one after the other. No inner run takes more polls than `N` says.
pub fn joined_list<
    T: Copy,
    U: Copy,
    E: Copy,
    F: Flow<Item = U, Fault = E>,
    G: Apply<T, Out = F>,
    N: KnownBound,
>(
    alloc: Global,
    values: Vec<T>,
    function: G,
    cx: &mut Context<'_>,
) -> Result<Collected<U, E>, Refusal>
where
    F::Running: Finite,
    requires { (x : T) → IsWithinPolls N.most (F.polls (G.gives function x)) }
    ensures { CollectsJoined (λ x. F.may (G.gives function x)) values.items result }
{
    let flow = flat_map_concat(of::<T, E>(values), function).within::<N>();
    to_list(alloc, flow.start()?, cx)
}
