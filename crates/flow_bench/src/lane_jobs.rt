//! Receipts and a fan-out of a lane, whose readers look again and again.

use crate::blocks::{ByBlock, places};
use crate::fan_out::{Drains, ReadsBlocks};
use crate::fault::Fault;
use crate::jobs::Job;
use crate::lane_ends::{LaneReader, LaneSequencer};
use crate::measured::Measured;
use crate::pause::Pause;
use crate::receipts::{Received, Takes, TakesBlocks};
use shared_core::Config;
use shared_lane::{Lane, Taken};
use std::alloc::AllocGlobal;
use std::random::RandomSource;
use std::rt::Clock;
use std::sync::Wait;
use std::thread::Threads;

impl<'a> Takes<LaneReader<'a>> for LaneSequencer<'a> {
    #[inline]
    fn take<R: Wait>(
        &mut self,
        _rt: &R,
        reader: &mut LaneReader<'a>,
        taken: Received,
    ) -> Option<Received> {
        match reader.try_next() {
            Taken::Value(value) => Some(taken.with(value)),
            Taken::Nothing | Taken::Overtaken => None,
        }
    }
}

impl<'a> TakesBlocks<LaneReader<'a>> for LaneSequencer<'a> {
    #[inline]
    fn take_block<R: Wait>(&mut self, rt: &R, reader: &mut LaneReader<'a>, block: &mut Vec<u64>) {
        reader.read_block(rt, block);
    }
}

impl Drains<u64> for LaneReader<'_> {
    fn drain<R: Clock + Wait>(&mut self, rt: &R, end: u64) {
        self.in_order = drain(rt, self, end);
    }
}

/// Measures a new lane.
pub(crate) fn on_lane<R>(rt: &R, config: Config, job: Job) -> Result<Measured, Fault>
where
    R: Clock + AllocGlobal + RandomSource + Threads + Wait + Sync,
{
    let (lane, sequencer) = Lane::new(rt.alloc(), config)?;
    // Not beside the sequencer, which each emission changes.
    let lane = Box::new(rt.alloc(), lane)?;
    let mut sequencer = LaneSequencer::of(&lane, sequencer);
    job.on(rt, &mut sequencer, config.subscribers)
}

/// The same by blocks of so many values.
pub(crate) fn on_lane_by_block<R>(
    rt: &R,
    config: Config,
    block: usize,
    job: Job,
) -> Result<Measured, Fault>
where
    R: Clock + AllocGlobal + RandomSource + Threads + Wait + Sync,
{
    let block = places(rt, block)?;
    let (lane, sequencer) = Lane::new(rt.alloc(), config)?;
    let lane = Box::new(rt.alloc(), lane)?;
    let mut sequencer = ByBlock::of(LaneSequencer::of(&lane, sequencer), block);
    job.on(rt, &mut sequencer, config.subscribers)
}

/// Takes so many values, and gives their number, if each was one above the one before.
#[inline(never)]
fn drain<R: Wait>(rt: &R, reader: &mut LaneReader<'_>, values: u64) -> u64 {
    let mut next: u64 = 0;
    let mut in_order = true;
    let mut pause = Pause::new();
    for _ in rt.forever() {
        if next >= values {
            break;
        }
        if let Taken::Value(value) = reader.try_next() {
            in_order = in_order && value == next;
            next = next.wrapping_add(1);
            pause = Pause::new();
        } else {
            pause.wait();
        }
    }
    if in_order { next } else { 0 }
}
