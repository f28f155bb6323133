//! The workloads, by their names.

use crate::edges::Edge;
use crate::fault::Fault;
use crate::tally::Tally;
use crate::{chains, edges, events, threads, waits};
use std::alloc::AllocGlobal;
use std::random::RandomSource;
use std::sync::Wait;
use std::thread::Threads;
use workload_inputs::{Digest, Random, Scale, seed_in};

/// A workload.
#[derive(Clone, Copy)]
pub(crate) enum Workload {
    /// Events to many on one thread.
    Events,
    /// Events, states and buffers between threads.
    Threads,
    /// Cold flows through operators, and shared ones.
    Chains,
    /// Threads that wait for each other, beside busy ones too.
    Waits,
    /// Calls that the others don't make: each case.
    Edges,
    /// One case of them.
    Edge(Edge),
}

/// A workload, and the number that its inputs are made from.
#[derive(Clone, Copy)]
pub(crate) struct Order {
    pub(crate) workload: Workload,
    pub(crate) seed: u64,
}

impl Workload {
    /// Each of them.
    pub(crate) const ALL: [Workload; 5] = [
        Workload::Events,
        Workload::Threads,
        Workload::Chains,
        Workload::Waits,
        Workload::Edges,
    ];

    /// Its name.
    pub(crate) fn name(self) -> &'static str {
        match self {
            Workload::Events => "events",
            Workload::Threads => "threads",
            Workload::Chains => "chains",
            Workload::Waits => "waits",
            Workload::Edges => "edges",
            Workload::Edge(edge) => edge.name(),
        }
    }

    /// The workload of this name.
    fn named(name: &str) -> Option<Workload> {
        match name {
            "events" => Some(Workload::Events),
            "threads" => Some(Workload::Threads),
            "chains" => Some(Workload::Chains),
            "waits" => Some(Workload::Waits),
            "edges" => Some(Workload::Edges),
            _ => Some(Workload::Edge(Edge::named(name)?)),
        }
    }

    /// Runs it on the inputs of this number, and gives the digest of all results.
    pub(crate) fn run<R>(self, rt: &R, seed: u64, scale: Scale) -> Result<Digest, Fault>
    where
        R: AllocGlobal + RandomSource + Threads + Wait + Sync,
    {
        let mut random = Random::new(seed);
        let mut tally = Tally::new();
        match self {
            Workload::Events => events::run(rt.alloc(), &mut random, scale, &mut tally),
            Workload::Threads => threads::run(rt, &mut random, scale, &mut tally),
            Workload::Chains => chains::run(rt, &mut random, scale, &mut tally),
            Workload::Waits => waits::run(rt, &mut random, scale, &mut tally),
            Workload::Edges => edges::run(rt, seed, scale, &mut tally),
            Workload::Edge(edge) => edge.run(rt, seed, scale, &mut tally),
        }
        tally.end()
    }
}

impl Order {
    /// What these two words ask for.
    pub(crate) fn of(name: &str, seed: &str) -> Option<Order> {
        Some(Order {
            workload: Workload::named(name)?,
            seed: seed_in(seed)?,
        })
    }
}
