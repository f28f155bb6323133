//! Events, states and buffers between threads.

use crate::course::Emitters;
use crate::fan_out::Cast;
use crate::tally::Tally;
use crate::{fan_out, halves, states};
use std::alloc::AllocGlobal;
use std::random::RandomSource;
use std::sync::Wait;
use std::thread::Threads;
use workload_inputs::{Random, Scale};

const CASTS: [Cast; 6] = [
    Cast {
        places: 64,
        emitters: Emitters::One,
        values: 600_000,
        listeners: 1,
    },
    Cast {
        places: 65_536,
        emitters: Emitters::One,
        values: 300_000,
        listeners: 3,
    },
    Cast {
        places: 64,
        emitters: Emitters::One,
        values: 150_000,
        listeners: 3,
    },
    Cast {
        places: 1024,
        emitters: Emitters::Two,
        values: 100_000,
        listeners: 2,
    },
    Cast {
        places: 4,
        emitters: Emitters::One,
        values: 60_000,
        listeners: 2,
    },
    Cast {
        places: 1,
        emitters: Emitters::Two,
        values: 20_000,
        listeners: 1,
    },
];

/// Runs each cast, and then states and buffers.
pub(crate) fn run<R>(rt: &R, random: &mut Random, scale: Scale, tally: &mut Tally)
where
    R: AllocGlobal + RandomSource + Threads + Wait + Sync,
{
    for cast in CASTS {
        let values = scale.of(cast.values);
        fan_out::run(rt, Cast { values, ..cast }, random, tally);
    }
    states::run(rt, random, scale, tally);
    halves::run(rt, random, scale, tally);
}
