//! A caller of `more_operators`: what comes out of six of its operators in a row is fixed by its contract.

ghost use Rattle.std.specs.Prelude.{◌≡◌, ◌-◌, filter, IfOk};
ghost use Rattle.std.specs.List.{range_with_len};
ghost use Rattle.more_operators.specs.Chunked.{cut};
ghost use Rattle.cold_callers.specs.Lists.{trace_of, whole_list};
ghost use Rattle.cold_callers.specs.More.{six_trace};

use cold_flow::{Apply, Collected, Few, Flow, Refusal, filter, range, to_list};
use futures::task::Context;
use more_operators::{
    Chunk, chunked, distinct_by, drop_while, filter_map, on_start, running_reduce, take_while,
};
use std::alloc::Global;

/// Six operators over the numbers from 1 up to below `to`: Kotlin's `(1..<to).asFlow().distinctUntilChangedBy(key).dropWhile(early)
/// .mapNotNull(choose).runningReduce(function).takeWhile(wanted).onStart { emit(0) }.toList()`.
pub fn six<
    K: Copy + Eq,
    G: Apply<u64, Out = K>,
    H: Apply<u64, Out = bool>,
    C: Apply<u64, Out = Option<u64>>,
    J: Apply<(u64, u64), Out = u64>,
    W: Apply<u64, Out = bool>,
>(
    alloc: Global,
    to: u64,
    key: G,
    early: H,
    choose: C,
    function: J,
    wanted: W,
    cx: &mut Context<'_>,
) -> Result<Collected<u64, ()>, Refusal>
    ensures { IfOk result (λ list. trace_of list ≡ six_trace K.eq (G.gives key) (H.gives early) (C.gives choose) (J.gives function) (W.gives wanted) to) }
{
    let late = drop_while(distinct_by(range::<()>(1, to), key), early);
    let joined = running_reduce(filter_map(late, choose), function);
    let flow = on_start(take_while(joined, wanted), Few::One(0));
    to_list(alloc, flow.start()?, cx)
}

/// The numbers from 1 up to below `to` that pass, in chunks: Kotlin's `(1..<to).asFlow().filter(wanted).chunked(size).toList()`.
pub fn in_chunks<H: Apply<u64, Out = bool>>(
    alloc: Global,
    to: u64,
    wanted: H,
    size: u32,
    cx: &mut Context<'_>,
) -> Result<Collected<Chunk<u64>, ()>, Refusal>
    ensures { IfOk result (λ list. trace_of list ≡ whole_list (cut size (filter (H.gives wanted) (range_with_len 1 (to - 1))))) }
{
    let flow = chunked(filter(range::<()>(1, to), wanted), size)?;
    to_list(alloc, flow.start()?, cx)
}
