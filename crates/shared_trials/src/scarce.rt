//! Flows whose start is refused at first.

use cold_flow::{Flow, Refusal, Step, Stepped, scripted};
use std::alloc::{AllocError, Global};
use std::cell::Cell;

/// What a flow gives.
pub(crate) enum Source<'a> {
    /// These steps.
    Steps(&'a [Step<u64, u64>]),
    /// So many numbers from 0 up, and the end by a fault, where there is one.
    Rising(u64, Option<u64>),
}

impl Source<'_> {
    /// The flow, by its steps.
    pub(crate) fn flow(&self, alloc: Global) -> Result<Stepped<u64, u64>, AllocError> {
        match self {
            Source::Steps(steps) => Ok(scripted(steps.to_vec(alloc)?)),
            Source::Rising(count, fault) => rising(alloc, *count, *fault),
        }
    }
}

fn rising(alloc: Global, count: u64, fault: Option<u64>) -> Result<Stepped<u64, u64>, AllocError> {
    let mut steps = Vec::new(alloc);
    for number in 0..count {
        steps.push(Step::Value(number))?;
    }
    if let Some(fault) = fault {
        steps.push(Step::Fail(fault))?;
    }
    Ok(scripted(steps))
}

/// A flow whose start finds no memory so many times.
#[derive(Drop)]
pub(crate) struct Scarce<'a, F> {
    refusals: &'a Cell<u32>,
    flow: F,
}

impl<'a, F> Scarce<'a, F> {
    pub(crate) fn of(flow: F, refusals: &'a Cell<u32>) -> Scarce<'a, F> {
        Scarce { refusals, flow }
    }
}

impl<F: Flow> Flow for Scarce<'_, F> {
    type Item = F::Item;

    type Fault = F::Fault;

    type Running = F::Running;

    ghost may = { λ s. F.may s.flow };

    fn start(&self) -> Result<F::Running, Refusal> {
        let left = self.refusals.get();
        if left > 0 {
            self.refusals.set(left - 1);
            return Err(Refusal::NoMemory);
        }
        self.flow.start()
    }

    ghost uncancelled = { λ s. F.uncancelled s.flow };
}
