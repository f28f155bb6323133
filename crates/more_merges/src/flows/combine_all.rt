//! The latest values of several flows.

ghost use Rattle.std.specs.Prelude.{None, replicate, vec_len};
ghost use Rattle.cold_flow.specs.Poll.{Through, Makes, IsWithinPolls};
ghost use Rattle.cold_flow.specs.Trace.{on_values};
ghost use Rattle.flow_merge.specs.Counting.{with_end};
ghost use Rattle.more_merges.specs.Joins.{MayJoin, all_polls};
ghost use Rattle.more_merges.specs.Row.{combined};

use crate::flows::merge_indexed::{Indexed, IndexedRun};
use crate::flows::row::{ApplyAll, Row};
use cold_flow::{Flow, Refusal, Sifted};
use std::alloc::Global;

/// The flow of `combine_all`.
#[derive(Drop)]
pub struct CombinedAll<F, G> {
    source: Indexed<F>,
    function: G,
}

/// Kotlin's `combine` of a list of flows: at each value of any flow `function` of the latest value of each, once each has given one.
///
/// The flows are asked as by `merge_indexed`. It finishes once all have; a failure of one is the end, and cancels the others. The order
/// between two flows is not claimed. A start takes places for the runs and their latest values from `alloc`; it is refused where these
/// are, or the start of a flow is, and then none is left started. After 64 values that gave nothing a poll yields.
pub fn combine_all<F: Flow, G: ApplyAll<F::Item>>(
    alloc: Global,
    flows: Vec<F>,
    function: G,
) -> CombinedAll<F, G>
    ensures gives { Makes (on_values (combined (G.gives function) (replicate (vec_len flows) None))) (MayJoin F.may flows.items)
        (⟦<CombinedAll<F, G> as Flow>⟧.may result) }
    ensures lasts { IsWithinPolls (all_polls (λ flow. with_end (F.polls flow)) flows.items) (⟦<CombinedAll<F, G> as Flow>⟧.polls result) }
{
    CombinedAll {
        source: Indexed { alloc, flows },
        function,
    }
}

impl<F: Flow, G: ApplyAll<F::Item>> Flow for CombinedAll<F, G> {
    ghost use Rattle.cold_flow.specs.Laws.{Through-uncancelled};
    ghost use Rattle.more_merges.specs.JoinsLaws.{join_uncancelled};

    type Item = G::Out;

    type Fault = F::Fault;

    type Running = Sifted<IndexedRun<F::Running, F::Fault>, Row<F::Item, G>>;

    ghost may = { λ f. Through (on_values (combined (G.gives f.function) (replicate (vec_len f.source.flows) None)))
        (⟦<Indexed<F> as Flow>⟧.may f.source) };

    ghost polls = { λ f. ⟦<Indexed<F> as Flow>⟧.polls f.source };

    fn start(&self) -> Result<Sifted<IndexedRun<F::Running, F::Fault>, Row<F::Item, G>>, Refusal> {
        let row = Row::new(self.source.alloc, self.source.flows.len(), self.function)?;
        Ok(Sifted::over_run(self.source.start()?, row))
    }

    ghost uncancelled = { λ f. Through-uncancelled _ _ (λ _ _ e. e) (join_uncancelled F.may F.uncancelled f.source.flows.items) };
}
