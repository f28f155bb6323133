//! Calls at the edges of what other workloads make: slow subscriptions among many, gaps, one place, none, nobody, emissions that
//! sleep, subscriptions that come and go.

use crate::edges::Work::{ForThreads, NewFlows, OneFlow, TextRows};
use crate::for_threads::Company;
use crate::tallied::Tallied;
use crate::tally::Tally;
use crate::{laggards, lookups, narrow, rows};
use shared_core::{Config, Policy, SharedState};
use std::alloc::{AllocGlobal, Global};
use std::random::RandomSource;
use std::sync::Wait;
use workload_inputs::Scale;

/// What is called on a flow, once or in rounds.
#[derive(Clone, Copy)]
enum Calls {
    /// One of many subscriptions is slow.
    Laggard,
    /// Two of them are.
    TwoLaggards,
    /// Places at the front of many, behind a gap.
    FrontGap,
    /// Nobody listens.
    Nobody,
    /// The oldest value makes way.
    Oldest,
    /// Three places with gaps between.
    Gaps,
    /// Few places, and each takes each value.
    TakenByAll,
    /// No place, and each takes each value.
    HandOver,
    /// One of the oldest of many tickets is asked for.
    FrontTickets,
}

/// What a case does in its rounds.
#[derive(Clone, Copy)]
enum Work {
    /// In each it makes these calls on a new flow.
    NewFlows(Config, Calls),
    /// It makes these on one flow.
    OneFlow(Config, Calls),
    /// It makes these on one flow for threads, from one thread.
    ForThreads(Config, Company),
    /// It draws a picture, with a row for each.
    TextRows,
}

/// A case, which is timed by itself.
#[derive(Clone, Copy)]
pub(crate) struct Edge {
    name: &'static str,
    work: Work,
    rounds: u64,
}

/// A flow with one place for one subscription, and with one ticket.
const ONE_PLACE: Config = Config {
    replay: 0,
    extra: 1,
    policy: Policy::Suspend,
    subscribers: 1,
    emits: 1,
    first: 0,
};

/// A flow with as many places as may be, for as many subscriptions.
const LARGEST: Config = Config {
    extra: 65_536,
    subscribers: 1024,
    ..ONE_PLACE
};

/// The flow with one place, but for what is named.
macro_rules! flow {
    ($($field:ident: $value:expr),*) => {
        Config { $($field: $value,)* ..ONE_PLACE }
    };
}

/// A case, by its name: what it does, and in how many rounds.
macro_rules! edge {
    ($name:literal: $work:expr, $rounds:expr) => {
        Edge { name: $name, work: $work, rounds: $rounds }
    };
}

/// How many cases there are.
const CASES: usize = 22;

/// Each case.
const EDGES: [Edge; CASES] = [
    edge!("laggard_1024": NewFlows(LARGEST, Calls::Laggard), 7),
    edge!("laggard_8": NewFlows(flow!(extra: 65_536, subscribers: 8), Calls::Laggard), 100),
    edge!("two_laggards": NewFlows(LARGEST, Calls::TwoLaggards), 7),
    edge!("nobody": OneFlow(flow!(extra: 64, subscribers: 8), Calls::Nobody), 20_000_000),
    edge!("oldest_1": OneFlow(flow!(extra: 64, policy: Policy::DropOldest), Calls::Oldest), 10_000_000),
    edge!("front_gap": NewFlows(LARGEST, Calls::FrontGap), 40),
    edge!("gaps": OneFlow(flow!(extra: 64, subscribers: 10), Calls::Gaps), 3_000_000),
    edge!("one_place_1": OneFlow(ONE_PLACE, Calls::TakenByAll), 8_000_000),
    edge!("one_place_2": OneFlow(flow!(subscribers: 2), Calls::TakenByAll), 4_000_000),
    edge!("one_place_8": OneFlow(flow!(subscribers: 8), Calls::TakenByAll), 1_000_000),
    edge!("one_place_1024": OneFlow(flow!(subscribers: 1024), Calls::TakenByAll), 8_000),
    edge!("hand_over_1": OneFlow(flow!(extra: 0), Calls::HandOver), 4_000_000),
    edge!("hand_over_8": OneFlow(flow!(extra: 0, subscribers: 8), Calls::HandOver), 500_000),
    edge!("front_tickets": OneFlow(flow!(emits: 1024), Calls::FrontTickets), 20_000_000),
    edge!("asleep_10": ForThreads(flow!(emits: 1024), Company::Emitters(10)), 1_000_000),
    edge!("asleep_100": ForThreads(flow!(emits: 1024), Company::Emitters(100)), 20_000),
    edge!("asleep_1000": ForThreads(flow!(emits: 1024), Company::Emitters(1000)), 500),
    edge!("lone_reader": ForThreads(flow!(extra: 64, subscribers: 1024), Company::Emitters(1)), 1_000_000),
    edge!("churn_1": ForThreads(flow!(subscribers: 1024), Company::Subscriptions(1)), 1_000_000),
    edge!("churn_64": ForThreads(flow!(subscribers: 1024), Company::Subscriptions(64)), 1_000_000),
    edge!("churn_512": ForThreads(flow!(subscribers: 1024), Company::Subscriptions(512)), 1_000_000),
    edge!("text_rows": TextRows, 400_000),
];

impl Calls {
    /// Makes them on a new flow that may have so many subscriptions, each emission with this value.
    fn make(
        self,
        alloc: Global,
        calls: &mut Tallied,
        subscribers: u32,
        (value, rounds): (u64, u64),
    ) {
        match self {
            Calls::Laggard => laggards::one(alloc, calls, value, subscribers),
            Calls::TwoLaggards => laggards::two(alloc, calls, value, subscribers),
            Calls::FrontGap => lookups::front_gap(alloc, calls, value, subscribers),
            Calls::Nobody => calls.attempt_all(value, rounds),
            Calls::Oldest => narrow::oldest(calls, value, rounds),
            Calls::Gaps => lookups::gaps(alloc, calls, value, rounds),
            Calls::TakenByAll => narrow::taken_by_all(alloc, calls, subscribers, (value, rounds)),
            Calls::HandOver => narrow::hand_over(alloc, calls, subscribers, (value, rounds)),
            Calls::FrontTickets => lookups::front_tickets(alloc, calls, value, rounds),
        }
    }

    /// Makes them on so many new flows, one after another.
    fn on_flows(
        self,
        alloc: Global,
        config: Config,
        flows: u64,
        work: (u64, u64),
        tally: &mut Tally,
    ) {
        for _ in 0..flows {
            if let Some(flow) = tally.noted(SharedState::new(alloc, config)) {
                let mut calls = Tallied {
                    flow,
                    tally: *tally,
                };
                self.make(alloc, &mut calls, config.subscribers, work);
                *tally = calls.tally;
            }
        }
    }
}

impl Edge {
    /// Its name.
    pub(crate) fn name(self) -> &'static str {
        self.name
    }

    /// The case at this place. The one function that names the table, since a proof reads all of it wherever it is named.
    fn at(place: usize) -> Option<Edge> {
        EDGES.get(place).copied()
    }

    /// The case of this name.
    pub(crate) fn named(name: &str) -> Option<Edge> {
        for place in 0..CASES {
            let edge = Edge::at(place)?;
            if edge.name == name {
                return Some(edge);
            }
        }
        None
    }

    /// Makes its calls, each emission with this value.
    pub(crate) fn run<R>(self, rt: &R, value: u64, scale: Scale, tally: &mut Tally)
    where
        R: AllocGlobal + RandomSource + Wait,
    {
        let alloc = rt.alloc();
        let rounds = scale.of(self.rounds);
        match self.work {
            NewFlows(config, calls) => calls.on_flows(alloc, config, rounds, (value, 1), tally),
            OneFlow(config, calls) => calls.on_flows(alloc, config, 1, (value, rounds), tally),
            ForThreads(config, company) => company.on_flow(rt, config, (value, rounds), tally),
            TextRows => rows::text_rows(alloc, rounds, tally),
        }
    }
}

/// Runs each case.
pub(crate) fn run<R>(rt: &R, value: u64, scale: Scale, tally: &mut Tally)
where
    R: AllocGlobal + RandomSource + Wait,
{
    for place in 0..CASES {
        if let Some(edge) = Edge::at(place) {
            let mut part = Tally::new();
            edge.run(rt, value, scale, &mut part);
            tally.part(part);
        }
    }
}
