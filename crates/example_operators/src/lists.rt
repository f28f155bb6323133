//! Chains over the operators. What comes out of each is its contract.

ghost use Rattle.std.specs.Prelude.{◌≡◌, ◌⊎◌, ◌-◌, ℕ, [], ◌∷◌, None, true, nat_lt, filter_map as chosen_values, IfOk};
ghost use Rattle.std.specs.List.{range_with_len};
ghost use Rattle.flow_terms.specs.declared.few.Few.TheVariants.{One};
ghost use Rattle.cold_flow.specs.declared.cause.Cause.TheVariants.{Finished, Failed};
ghost use Rattle.cold_flow.specs.Trace.{ended_by, on_values};
ghost use Rattle.more_operators.specs.DropWhile.{dropped_while};
ghost use Rattle.more_operators.specs.Empty.{or_else};
ghost use Rattle.more_operators.specs.Paced.{debounced};
ghost use Rattle.more_operators.specs.Retry.{behind, retried, IsUnstarted};
ghost use Rattle.more_operators.specs.Scan.{scan_trace};
ghost use Rattle.more_operators.specs.While.{while_trace};
ghost use Rattle.example_operators.specs.Pairs.{pairs_after};

use crate::lambdas::{Below, Tally};
use crate::pairs::zip_with_next;
use cold_flow::{Apply, Collected, Event, Few, Flow, Refusal, failing, range, to_list};
use futures::task::Context;
use more_operators::{
    debounce, drop_while, filter_map, list_at, on_each, on_empty, on_start, retry, scan, take_while,
};
use std::alloc::Global;

/// Kotlin's `(1..<to).asFlow().scan(0, function).takeWhile { it < limit }.toList()`.
pub fn states<G: Apply<(u64, u64), Out = u64>>(
    alloc: Global,
    to: u64,
    function: G,
    limit: u64,
    cx: &mut Context<'_>,
) -> Result<Collected<u64, ()>, Refusal>
    ensures { IfOk result (λ list. ended_by list.values.items list.cause ≡ while_trace (λ state. nat_lt state limit)
        (scan_trace (G.gives function) 0 (ended_by (range_with_len 1 (to - 1)) Finished))) }
{
    let flow = take_while(scan(range::<()>(1, to), 0, function), Below { limit });
    to_list(alloc, flow.start()?, cx)
}

/// Six operators: Kotlin's `(1..<to).asFlow().onStart { emit(first) }.mapNotNull(choose).dropWhile(early).takeWhile(wanted)
/// .onEmpty { emit(0) }.scan(0, function).toList()`.
pub fn six<
    C: Apply<u64, Out = Option<u64>>,
    H: Apply<u64, Out = bool>,
    J: Apply<u64, Out = bool>,
    G: Apply<(u64, u64), Out = u64>,
>(
    alloc: Global,
    to: u64,
    first: u64,
    choose: C,
    early: H,
    wanted: J,
    function: G,
    cx: &mut Context<'_>,
) -> Result<Collected<u64, ()>, Refusal>
    ensures { let whole = ended_by (range_with_len 1 (to - 1)) Finished in
        let chosen = on_values (chosen_values (C.gives choose)) (behind (first ∷ []) whole) in
        let passed = while_trace (J.gives wanted) (on_values (dropped_while (H.gives early) true) chosen) in
        IfOk result (λ list. ended_by list.values.items list.cause ≡ scan_trace (G.gives function) 0 (or_else (One 0) passed)) }
{
    let chosen = filter_map(on_start(range::<()>(1, to), Few::One(first)), choose);
    let passed = take_while(drop_while(chosen, early), wanted);
    let flow = scan(on_empty(passed, Few::One(0)), 0, function);
    to_list(alloc, flow.start()?, cx)
}

/// Kotlin's `(1..<to).asFlow().toList().zipWithNext()`, by an operator of one's own.
pub fn pairs(
    alloc: Global,
    to: u64,
    cx: &mut Context<'_>,
) -> Result<Collected<(u64, u64), ()>, Refusal>
    ensures { IfOk result (λ list. ended_by list.values.items list.cause
        ≡ on_values (pairs_after None) (ended_by (range_with_len 1 (to - 1)) Finished)) }
{
    let flow = zip_with_next(range::<()>(1, to));
    to_list(alloc, flow.start()?, cx)
}

/// Kotlin's `(1..<to).asFlow().onEach { count++ }.toList()`.
pub fn counted(alloc: Global, to: u64, cx: &mut Context<'_>) -> Result<Collected<u64, ()>, Refusal>
    ensures { IfOk result (λ list. ended_by list.values.items list.cause ≡ ended_by (range_with_len 1 (to - 1)) Finished) }
{
    let flow = on_each(range::<()>(1, to), Tally { count: 0 });
    to_list(alloc, flow.start()?, cx)
}

/// Kotlin's `flow { values.forEach { emit(it) }; throw Fault(fault) }.retry(times) { (it as Fault).number < limit }.toList()`. Each
/// start copies the values, and may be refused.
pub fn tries(
    alloc: Global,
    values: Vec<u64>,
    fault: u64,
    times: u32,
    limit: u64,
    cx: &mut Context<'_>,
) -> Result<Collected<u64, u64>, Refusal>
    ensures { let whole = ended_by values.items (Failed fault) in
        let passes = λ (found : ℕ). nat_lt found limit in
        IfOk result (λ list. (ended_by list.values.items list.cause ≡ retried passes times whole)
        ⊎ IsUnstarted passes times whole (ended_by list.values.items list.cause)) }
{
    let flow = failing(values, fault);
    to_list(alloc, retry(&flow, times, Below { limit }).start()?, cx)
}

/// What `debounce` gives of the numbers from 1 up to below `to`, asked at each of `moments`, with the moment. A question takes one
/// number, so the moments say when each of them comes.
pub fn quiet(
    alloc: Global,
    to: u64,
    timeout: u64,
    moments: &[u64],
    cx: &mut Context<'_>,
) -> Result<Vec<(u64, Event<u64, ()>)>, Refusal>
    ensures { IfOk result (λ list. list.items ≡ debounced timeout None (ended_by (range_with_len 1 (to - 1)) Finished) moments.now) }
{
    let run = debounce(range::<()>(1, to).start()?, timeout);
    list_at(alloc, run, moments, cx)
}
