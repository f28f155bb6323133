//! Receipts of a shared flow for one thread.

use crate::blocks::{ByBlock, places};
use crate::fault::Fault;
use crate::measured::Measured;
use crate::receipts::{Received, Takes, TakesBlocks, receipts_of};
use crate::sides::{Admits, Emits, EmitsBlocks, Ends};
use shared_core::{Config, Next, SharedState, SubId, Tried};
use std::alloc::AllocGlobal;
use std::random::RandomSource;
use std::rt::Clock;
use std::sync::Wait;

impl Emits for SharedState<u64> {
    #[inline]
    fn emit<R: Wait>(&mut self, _rt: &R, value: u64) -> bool {
        matches!(self.try_emit(0, value), Ok(Tried::Accepted(_)))
    }
}

impl Takes<SubId> for SharedState<u64> {
    #[inline]
    fn take<R: Wait>(&mut self, _rt: &R, reader: &mut SubId, taken: Received) -> Option<Received> {
        match self.next(*reader) {
            Next::Value(value) => Some(taken.with(value)),
            Next::Nothing | Next::Closed => None,
        }
    }
}

impl EmitsBlocks for SharedState<u64> {
    #[inline]
    fn emit_block<R: Wait>(&mut self, _rt: &R, block: &[u64]) -> u64 {
        self.try_emit_all(0, block).unwrap_or(0)
    }
}

impl TakesBlocks<SubId> for SharedState<u64> {
    #[inline]
    fn take_block<R: Wait>(&mut self, _rt: &R, reader: &mut SubId, block: &mut Vec<u64>) {
        let _taken = self.try_next_all(*reader, block);
    }
}

// A subscription ends with its flow.
impl Ends for SubId {
    fn end<R: Wait>(self, _rt: &R) {}
}

impl Admits<SubId> for SharedState<u64> {
    fn admit<R: AllocGlobal + RandomSource + Wait>(&mut self, _rt: &R) -> Option<SubId> {
        self.subscribe().ok()
    }
}

/// The receipts of a new flow.
pub(crate) fn receipts<R>(rt: &R, config: Config, values: u64) -> Result<Measured, Fault>
where
    R: Clock + AllocGlobal + RandomSource + Wait,
{
    let mut flow = SharedState::<u64>::new(rt.alloc(), config)?;
    receipts_of(rt, &mut flow, config.subscribers, values)
}

/// The same, by so many blocks of this size.
pub(crate) fn receipts_by_block<R>(
    rt: &R,
    config: Config,
    block: usize,
    blocks: u64,
) -> Result<Measured, Fault>
where
    R: Clock + AllocGlobal + RandomSource + Wait,
{
    let block = places(rt, block)?;
    let mut flow = ByBlock::of(SharedState::<u64>::new(rt.alloc(), config)?, block);
    receipts_of(rt, &mut flow, config.subscribers, blocks)
}
