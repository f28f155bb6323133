//! One round: four threads over a new flow and a new state.

use crate::fault::Fault;
use crate::random::Random;
use crate::record::Record;
use crate::worker::Worker;
use shared_core::{Config, Policy};
use shared_flow::SharedFlow;
use state_flow::{StateFlow, StateSeat};
use std::alloc::{AllocError, AllocGlobal};
use std::random::RandomSource;
use std::sync::Wait;
use std::thread::{Threads, for_each_mut};

const THREADS: usize = 4;

/// A flow with up to six places, and a policy that it may have.
fn config_of(random: &mut Random) -> Config {
    let replay = random.below(4);
    let extra = random.below(4);
    let policy = match random.below(3) {
        0 if replay.saturating_add(extra) > 0 => Policy::DropOldest,
        1 if replay.saturating_add(extra) > 0 => Policy::DropLatest,
        _ => Policy::Suspend,
    };
    Config {
        replay,
        extra,
        policy,
        subscribers: 4,
        emits: 4,
        first: 0,
    }
}

/// One round over a new flow and a new state: what each thread did.
pub(crate) fn round<R>(rt: &R, random: &mut Random) -> Result<Vec<Record>, Fault>
where
    R: AllocGlobal + RandomSource + Threads + Wait + Sync,
{
    let config = config_of(random);
    let mut flow = SharedFlow::<u64>::new(rt.alloc(), config)?;
    let mut state = StateFlow::new(rt.alloc(), 0u64, 9)?;
    round_over(rt, &mut flow, &mut state, random, config.policy)
}

/// The round over a flow and a state that nobody uses yet.
fn round_over<R>(
    rt: &R,
    flow: &mut SharedFlow<u64>,
    state: &mut StateSeat<u64>,
    random: &mut Random,
    policy: Policy,
) -> Result<Vec<Record>, Fault>
where
    R: AllocGlobal + RandomSource + Threads + Wait + Sync,
{
    let records = Vec::with_capacity(rt.alloc(), THREADS)?;
    let places = Vec::with_capacity(rt.alloc(), THREADS)?;
    let mut workers = hire(rt, flow, state, random, places);
    work(rt, &mut workers);
    take_rest(rt, &mut workers, state.value());
    dismiss(rt, workers, records, policy)
}

/// Each worker takes its steps in a thread of its own.
fn work<R>(rt: &R, workers: &mut Vec<Worker>)
where
    R: Threads + Wait + Sync,
{
    for_each_mut(
        rt,
        workers.as_mut_slice(),
        THREADS,
        &|_, worker: &mut Worker| worker.run(rt),
    );
}

/// Each worker takes back what it has in flight, and then each takes what is left. The state holds this value.
fn take_rest(rt: &impl Wait, workers: &mut Vec<Worker>, value: u64) {
    for worker in workers.iter_mut() {
        worker.take_back(rt);
    }
    for worker in workers.iter_mut() {
        worker.drain(value);
    }
}

/// A worker for each thread, or fewer where one is refused.
fn hire<R>(
    rt: &R,
    flow: &mut SharedFlow<u64>,
    state: &mut StateSeat<u64>,
    random: &mut Random,
    mut workers: Vec<Worker>,
) -> Vec<Worker>
where
    R: AllocGlobal + RandomSource + Wait,
{
    for id in 1..=THREADS {
        let Ok(worker) = Worker::new(rt, flow, state, id as u32, random) else {
            break;
        };
        if let Err(refused) = workers.push(worker) {
            refused.value.end(rt);
        }
    }
    workers
}

/// Ends each worker, and keeps its record.
fn dismiss(
    rt: &impl Wait,
    mut workers: Vec<Worker>,
    mut records: Vec<Record>,
    policy: Policy,
) -> Result<Vec<Record>, Fault> {
    let mut is_right = true;
    let mut has_room = true;
    while let Some(worker) = workers.pop() {
        let record = worker.end(rt);
        is_right = is_right && record.is_right;
        is_right = is_right && (record.dropped == 0 || policy == Policy::DropOldest);
        has_room = has_room && records.push(record).is_ok();
    }
    workers.destroy_empty();
    if !is_right {
        return Err(Fault::OutOfOrder);
    }
    if !has_room {
        return Err(Fault::NoMemory(AllocError));
    }
    Ok(records)
}
