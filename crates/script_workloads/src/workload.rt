//! The workloads, by their names.

use crate::fault::Fault;
use crate::{pictures, pipes, scripts};
use std::alloc::AllocGlobal;
use std::random::RandomSource;
use std::sync::Wait;
use workload_inputs::{Digest, Scale, seed_in};

/// A workload.
#[derive(Clone, Copy)]
pub(crate) enum Workload {
    /// Scripts of many kinds, on both engines.
    Scripts,
    /// Scripts of long cold pipes.
    Pipes,
    /// Scripts that are drawn, in both forms.
    Pictures,
}

/// A workload, and the number that its inputs are made from.
#[derive(Clone, Copy)]
pub(crate) struct Order {
    pub(crate) workload: Workload,
    pub(crate) seed: u64,
}

impl Workload {
    /// Each of them.
    pub(crate) const ALL: [Workload; 3] = [Workload::Scripts, Workload::Pipes, Workload::Pictures];

    /// Its name.
    pub(crate) fn name(self) -> &'static str {
        match self {
            Workload::Scripts => "scripts",
            Workload::Pipes => "pipes",
            Workload::Pictures => "pictures",
        }
    }

    /// The workload of this name.
    fn named(name: &str) -> Option<Workload> {
        match name {
            "scripts" => Some(Workload::Scripts),
            "pipes" => Some(Workload::Pipes),
            "pictures" => Some(Workload::Pictures),
            _ => None,
        }
    }

    /// Runs it on the inputs of this number, and gives the digest of all results.
    pub(crate) fn run<R>(self, rt: &R, seed: u64, scale: Scale) -> Result<Digest, Fault>
    where
        R: AllocGlobal + RandomSource + Wait,
    {
        match self {
            Workload::Scripts => scripts::run(rt, seed, scale),
            Workload::Pipes => pipes::run(rt, seed, scale),
            Workload::Pictures => pictures::run(rt, seed, scale),
        }
    }
}

impl Order {
    /// What these two words ask for.
    pub(crate) fn of(name: &str, seed: &str) -> Option<Order> {
        Some(Order {
            workload: Workload::named(name)?,
            seed: seed_in(seed)?,
        })
    }
}
