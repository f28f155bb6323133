//! The flow of a buffer in one task.

ghost use Rattle.std.specs.Prelude.{◌≡◌, ◌<◌, [], None, IfOk, IfErr, IsTrue};
ghost use Rattle.flow_terms.specs.declared.refusal.Refusal.TheVariants.{NoMemory};
ghost use Rattle.cold_flow.specs.Poll.{Within, IsWithinPolls};
ghost use Rattle.flow_buffer.specs.declared.ending.Ending.TheVariants.{Going};
ghost use Rattle.flow_buffer.specs.Delivery.{Delivered};

use crate::buffered::Buffered;
use crate::store::Store;
use cold_flow::{Flow, Policy, Refusal};
use std::alloc::Global;

/// A flow with a buffer behind it, in one task.
#[derive(Drop)]
pub struct Buffer<F> {
    pub(crate) source: F,
    pub(crate) capacity: usize,
    pub(crate) policy: Policy,
    pub(crate) alloc: Global,
    ghost places: { 0 < capacity },
}

impl<F: Flow> Flow for Buffer<F> {
    ghost use Rattle.flow_buffer.specs.DeliveryLaws.{delivered_uncancelled};
    ghost use Rattle.flow_buffer.specs.Views.{source_flow, nothing_in, source_run, ending_of, end_given, HasContents, polls_left_of, GivesFromEmpty};

    type Item = F::Item;

    type Fault = F::Fault;

    type Running = Buffered<F::Running>;

    ghost may = { λ f. Delivered f.capacity f.policy [] (F.may f.source) };

    ghost polls = { λ f. F.polls f.source };

    ghost prompt = { λ f. F.prompt f.source };

    /// Reserves the buffer's one ring, and starts the source.
    fn start(&self) -> Result<Buffered<F::Running>, Refusal>
        ensures source { IfOk result (λ r. Within (F.may (source_flow self.now)) (F.Running.may (source_run r))) }
        ensures going { IfOk result (λ r. ending_of r ≡ Going) }
        ensures begins { IfOk result (λ r. HasContents r (nothing_in self.now)) }
        ensures gives { IfOk result (λ r. GivesFromEmpty F.may F.Running.may self.now r) }
        ensures fresh { IfOk result (λ r. end_given r ≡ None) }
        ensures lasts { IfOk result (λ r. IsWithinPolls (F.polls (source_flow self.now)) (polls_left_of F.Running.polls r)) }
        ensures prompt { IfOk result (λ r. IsTrue (F.prompt (source_flow self.now)) → IsTrue (F.Running.prompt (source_run r))) }
        ensures refused { IfErr result (λ e. e ≡ NoMemory) }
    {
        let store = Store::new(self.alloc, self.capacity, self.policy)?;
        let source = self.source.start()?;
        Ok(Buffered { source, store })
    }

    ghost uncancelled = { λ f. delivered_uncancelled f.capacity f.policy (F.may f.source) (F.uncancelled f.source) };
}
