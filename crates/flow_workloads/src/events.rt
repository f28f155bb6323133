//! Events to many on one thread: bursts of emissions, after which each subscription takes what is there.

use crate::crowd::Crowd;
use crate::tallied::Tallied;
use crate::tally::Tally;
use crate::tickets;
use shared_core::{Config, Policy, SharedState};
use std::alloc::Global;
use workload_inputs::{Random, Scale};

/// What goes on on a flow.
#[derive(Clone, Copy)]
enum Plot {
    /// Each burst is taken by most.
    Bursts,
    /// The same, where every second subscription has gone at first, so that their numbers have gaps.
    Thinned,
    /// Emissions wait for a slow subscription.
    Tickets,
}

/// A loop of a user interface: what goes on on its flow, how many subscriptions and tickets there are, by which policy, and
/// how many rounds it makes.
#[derive(Clone, Copy)]
struct Loop {
    plot: Plot,
    subscriptions: u32,
    tickets: u32,
    policy: Policy,
    rounds: u64,
}

const LOOPS: [Loop; 9] = [
    Loop {
        plot: Plot::Bursts,
        subscriptions: 1,
        tickets: 1,
        policy: Policy::Suspend,
        rounds: 100_000,
    },
    Loop {
        plot: Plot::Bursts,
        subscriptions: 1,
        tickets: 1,
        policy: Policy::DropOldest,
        rounds: 100_000,
    },
    Loop {
        plot: Plot::Bursts,
        subscriptions: 8,
        tickets: 1,
        policy: Policy::Suspend,
        rounds: 40_000,
    },
    Loop {
        plot: Plot::Bursts,
        subscriptions: 8,
        tickets: 1,
        policy: Policy::DropOldest,
        rounds: 40_000,
    },
    Loop {
        plot: Plot::Bursts,
        subscriptions: 8,
        tickets: 1,
        policy: Policy::DropLatest,
        rounds: 40_000,
    },
    Loop {
        plot: Plot::Bursts,
        subscriptions: 200,
        tickets: 1,
        policy: Policy::Suspend,
        rounds: 1_000,
    },
    Loop {
        plot: Plot::Bursts,
        subscriptions: 200,
        tickets: 1,
        policy: Policy::DropOldest,
        rounds: 1_000,
    },
    Loop {
        plot: Plot::Thinned,
        subscriptions: 1024,
        tickets: 1,
        policy: Policy::DropOldest,
        rounds: 60,
    },
    Loop {
        plot: Plot::Tickets,
        subscriptions: tickets::SUBSCRIPTIONS,
        tickets: tickets::TICKETS,
        policy: Policy::Suspend,
        rounds: 600,
    },
];

/// What a flow with so many subscriptions is made with. It keeps 16 values for newcomers.
fn config_of(subscribers: u32, emits: u32, policy: Policy) -> Config {
    Config {
        replay: 16,
        extra: 48,
        policy,
        subscribers,
        emits,
        first: 0,
    }
}

/// A burst of 1 to 50 emissions.
fn burst(calls: &mut Tallied, random: &mut Random) {
    for _ in 0..1 + random.below(50) {
        calls.try_emit(random.next());
    }
}

/// Rounds of a burst, after which most take what is there. Now and then somebody comes in another's place, asks for what is kept, or
/// empties it.
fn rounds(calls: &mut Tallied, crowd: &mut Crowd, random: &mut Random, count: u64) {
    for _ in 0..count {
        burst(calls, random);
        crowd.take_all(calls, random, 64);
        match random.below(64) {
            0..=3 => crowd.change(calls, random),
            4 => calls.tally.number(calls.flow.replay_len()),
            5 => calls
                .tally
                .number(u64::from(calls.flow.subscription_count())),
            6 => calls.flow.reset_replay(),
            _ => {}
        }
    }
}

impl Loop {
    /// Its subscriptions come, and so many rounds are made.
    fn play(self, alloc: Global, calls: &mut Tallied, random: &mut Random, count: u64) {
        let mut crowd = Crowd::of(alloc, calls, self.subscriptions);
        match self.plot {
            Plot::Bursts => rounds(calls, &mut crowd, random, count),
            Plot::Thinned => {
                crowd.thin_out(alloc, calls);
                rounds(calls, &mut crowd, random, count);
            }
            Plot::Tickets => tickets::rounds(alloc, calls, &crowd, random, count),
        }
    }

    /// Its rounds on a new flow.
    fn run(self, alloc: Global, random: &mut Random, scale: Scale, tally: &mut Tally) {
        let config = config_of(self.subscriptions, self.tickets, self.policy);
        if let Some(flow) = tally.noted(SharedState::new(alloc, config)) {
            let mut calls = Tallied {
                flow,
                tally: *tally,
            };
            self.play(alloc, &mut calls, random, scale.of(self.rounds));
            *tally = calls.tally;
        }
    }
}

/// Runs each loop.
pub(crate) fn run(alloc: Global, random: &mut Random, scale: Scale, tally: &mut Tally) {
    for each in LOOPS {
        each.run(alloc, random, scale, tally);
    }
}
