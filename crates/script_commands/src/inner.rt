//! The inner flows of `concat`.

ghost use Rattle.std.specs.Prelude.{length, true};
ghost use Rattle.std.specs.Iterator.{at_most};
ghost use Rattle.flow_terms.specs.Few.{values_of};
ghost use Rattle.cold_flow.specs.Poll.{Beginnings};
ghost use Rattle.cold_flow.specs.Trace.{ended_by, cause_of};

use crate::list_run::ListRun;
use cold_flow::{Few, Flow, Refusal};
use flow_merge::{Bound, KnownBound};

/// A flow of a few values that stand in it, so that a start takes no memory and is never refused.
#[derive(Clone, Copy)]
pub struct Inner {
    pub values: Few<u64>,
    /// The fault by which it fails after them, or nothing where it finishes.
    pub fault: Option<u64>,
}

impl Flow for Inner {
    ghost use Rattle.cold_flow.specs.Laws.{list-uncancelled};

    type Item = u64;

    type Fault = u64;

    type Running = ListRun<Few<u64>>;

    ghost may = { λ f. Beginnings (ended_by (values_of f.values) (cause_of f.fault)) };

    ghost polls = { λ f. at_most (length (values_of f.values)) };

    ghost starts = { λ _. true };

    fn start(&self) -> Result<ListRun<Few<u64>>, Refusal> {
        Ok(ListRun {
            left: self.values,
            fault: self.fault,
            ended: None,
        })
    }

    ghost uncancelled = { λ f xs h. list-uncancelled _ f.fault xs h };
}

/// An inner flow of `concat` gives two values at most, one a poll.
#[derive(Clone, Copy)]
pub struct AtMostTwo;

impl Bound for AtMostTwo {
    ghost most = { at_most 2 };
}

impl KnownBound for AtMostTwo {
    ghost known = { tt };
}
