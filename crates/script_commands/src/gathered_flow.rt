//! The flow of what a stage gave.

ghost use Rattle.std.specs.Prelude.{length, true};
ghost use Rattle.std.specs.Iterator.{at_most};
ghost use Rattle.cold_flow.specs.Poll.{Beginnings};
ghost use Rattle.cold_flow.specs.Trace.{ended_by, cause_of};

use crate::list_run::ListRun;
use cold_flow::{Flow, Refusal};

/// A flow of values that stand elsewhere, so that a start copies none, takes no memory and is never refused.
#[derive(Clone, Copy)]
pub struct GatheredFlow<'a> {
    pub values: &'a [u64],
    /// The fault by which it fails after them, or nothing where it finishes.
    pub fault: Option<u64>,
}

impl<'a> Flow for GatheredFlow<'a> {
    ghost use Rattle.cold_flow.specs.Laws.{list-uncancelled};

    type Item = u64;

    type Fault = u64;

    type Running = ListRun<&'a [u64]>;

    ghost may = { λ f. Beginnings (ended_by f.values.now (cause_of f.fault)) };

    ghost polls = { λ f. at_most (length f.values.now) };

    ghost prompt = { λ _. true };

    ghost starts = { λ _. true };

    fn start(&self) -> Result<ListRun<&'a [u64]>, Refusal> {
        Ok(ListRun {
            left: self.values,
            fault: self.fault,
            ended: None,
        })
    }

    ghost uncancelled = { λ f xs h. list-uncancelled _ f.fault xs h };
}
