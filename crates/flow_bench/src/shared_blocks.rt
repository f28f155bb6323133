//! A shared flow for threads, by the block: receipts on one thread, and a fan-out whose listeners sleep where no value is
//! there.

use crate::blocks::{BlockReader, ByBlock, places};
use crate::fan_out::ReadsBlocks;
use crate::fault::Fault;
use crate::jobs::Job;
use crate::measured::Measured;
use crate::receipts::TakesBlocks;
use crate::shared_ends::IdleEmitter;
use crate::sides::{Admits, Ends, admit_all, end_all};
use shared_core::Config;
use shared_flow::{Parker, SharedFlow, Subscription};
use std::alloc::AllocGlobal;
use std::random::RandomSource;
use std::rt::Clock;
use std::sync::Wait;
use std::thread::Threads;

/// A subscription, with what its thread sleeps by.
struct Sleeper {
    subscription: Subscription<u64>,
    parker: Parker,
}

impl TakesBlocks<Sleeper> for IdleEmitter {
    #[inline]
    fn take_block<R: Wait>(&mut self, _rt: &R, reader: &mut Sleeper, block: &mut Vec<u64>) {
        let _taken = reader.subscription.try_next_all(block);
    }
}

impl ReadsBlocks for Sleeper {
    /// It waits until a value is there.
    #[inline]
    fn read_block<R: Wait>(&mut self, rt: &R, block: &mut Vec<u64>) {
        let _taken = self.subscription.next_all(rt, &mut self.parker, block);
    }
}

impl Admits<Sleeper> for SharedFlow<u64> {
    fn admit<R: AllocGlobal + RandomSource + Wait>(&mut self, rt: &R) -> Option<Sleeper> {
        let parker = Parker::new(rt).ok()?;
        let subscription = self.subscribe(rt).ok()?;
        Some(Sleeper {
            subscription,
            parker,
        })
    }
}

impl Ends for Sleeper {
    fn end<R: Wait>(self, rt: &R) {
        let Sleeper {
            subscription,
            parker: _,
        } = self;
        subscription.cancel(rt);
    }
}

/// Measures a new flow by blocks of so many values.
pub(crate) fn on_flow<R>(rt: &R, config: Config, block: usize, job: Job) -> Result<Measured, Fault>
where
    R: Clock + AllocGlobal + RandomSource + Threads + Wait + Sync,
{
    let block = places(rt, block)?;
    let mut flow = ByBlock::of(SharedFlow::<u64>::new(rt.alloc(), config)?, block);
    let mut sleepers = admit_all(rt, &mut flow, config.subscribers)?;
    let measured = by_emitter(rt, &mut flow, &mut sleepers, job);
    end_all(rt, sleepers);
    measured
}

/// The same with its emitter and these readers.
fn by_emitter<R>(
    rt: &R,
    flow: &mut ByBlock<SharedFlow<u64>>,
    sleepers: &mut Vec<BlockReader<Sleeper>>,
    job: Job,
) -> Result<Measured, Fault>
where
    R: Clock + AllocGlobal + Threads + Wait + Sync,
{
    let block = places(rt, flow.block.len())?;
    let mut emitter = ByBlock::of(IdleEmitter::of(&mut flow.flow)?, block);
    let measured = job.measured(rt, &mut emitter, sleepers);
    close(rt, emitter);
    Ok(measured)
}

pub(crate) fn close<R: Wait>(rt: &R, emitter: ByBlock<IdleEmitter>) {
    let ByBlock { flow, block: _ } = emitter;
    flow.close(rt);
}
