//! A shared flow between threads, under `Suspend`: one or two emit, and some others take every value.

use crate::acting::all_of_both;
use crate::course::Emitters;
use crate::ending::end_all;
use crate::fault::Fault;
use crate::listeners::{Listener, listen, take_in};
use crate::speakers::{Speech, hire, said_by};
use crate::tally::Tally;
use shared_core::{Config, Policy};
use shared_flow::SharedFlow;
use std::alloc::AllocGlobal;
use std::random::RandomSource;
use std::sync::Wait;
use std::thread::Threads;
use workload_inputs::Random;

/// Who takes part: how many places there are, who emits, how many values each of them, and how many listen.
#[derive(Clone, Copy)]
pub(crate) struct Cast {
    pub(crate) places: u64,
    pub(crate) emitters: Emitters,
    pub(crate) values: u64,
    pub(crate) listeners: u32,
}

/// The emitters of a flow speak, and the listeners take all that they say. Of the numbers that the emitters were given what no
/// schedule changes is taken in.
fn speak_to<R>(
    rt: &R,
    flow: &mut SharedFlow<u64>,
    listeners: &mut Vec<Listener>,
    cast: Cast,
    seed: u64,
    tally: &mut Tally,
)
where
    R: AllocGlobal + RandomSource + Threads + Wait + Sync,
{
    let speech = Speech {
        seed,
        values: cast.values,
    };
    let count = cast.emitters.count();
    let mut speakers = hire(rt, flow, count, speech, tally);
    // Where one is missing the listeners would wait for what it was to say.
    if speakers.len() == count as usize {
        all_of_both(rt, &mut speakers, listeners);
    } else {
        tally.note(Fault::Otherwise);
    }
    let (numbers, also_numbers) = said_by(&speakers);
    end_all(rt, speakers, tally);
    match cast.emitters {
        Emitters::One => numbers.told(tally, Emitters::One),
        Emitters::Two => numbers.told_with(&also_numbers, tally),
    }
}

/// What a flow is made with.
fn config_of(cast: Cast) -> Config {
    Config {
        replay: 0,
        extra: cast.places,
        policy: Policy::Suspend,
        subscribers: cast.listeners,
        emits: 2,
        first: 0,
    }
}

/// The values of a cast go through a new flow, and what came to each listener is taken in.
pub(crate) fn run<R>(rt: &R, cast: Cast, random: &mut Random, tally: &mut Tally)
where
    R: AllocGlobal + RandomSource + Threads + Wait + Sync,
{
    if let Some(mut flow) = tally.noted(SharedFlow::<u64>::new(rt.alloc(), config_of(cast))) {
        let all = cast.emitters.together(cast.values);
        let mut listeners = listen(rt, &mut flow, cast.listeners, all, tally);
        speak_to(rt, &mut flow, &mut listeners, cast, random.next(), tally);
        take_in(listeners.as_slice(), cast.emitters, tally);
        end_all(rt, listeners, tally);
    }
}
