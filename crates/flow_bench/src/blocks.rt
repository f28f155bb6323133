//! Numbers by the block: so many are emitted by one call, and a reader takes as many.

use crate::fan_out::{Drains, InOrder, ReadsBlocks};
use crate::fault::Fault;
use crate::pause::Pause;
use crate::receipts::{Received, Takes, TakesBlocks};
use crate::sides::{Admits, Emits, EmitsBlocks, Ends, Feeds};
use std::alloc::AllocGlobal;
use std::random::RandomSource;
use std::rt::Clock;
use std::sync::Wait;

/// A flow, or who emits to it, by the block.
#[derive(Drop)]
pub(crate) struct ByBlock<F> {
    pub(crate) flow: F,
    /// What one call emits.
    pub(crate) block: Vec<u64>,
}

/// A reader that takes values by the block.
pub(crate) struct BlockReader<L> {
    reader: L,
    /// What one call took.
    block: Vec<u64>,
    /// How many values came to it in order.
    in_order: u64,
    // Between two readers in a list, so that those of two threads share no cache line.
    _apart: [u64; 16],
}

impl<F> ByBlock<F> {
    /// With as many values in a block as the list has places.
    pub(crate) fn of(flow: F, block: Vec<u64>) -> ByBlock<F> {
        ByBlock { flow, block }
    }
}

impl<F: EmitsBlocks> Emits for ByBlock<F> {
    /// Emits a block, from this value up.
    #[inline]
    fn emit<R: Wait>(&mut self, rt: &R, value: u64) -> bool {
        count_from(value, &mut self.block);
        self.flow.emit_block(rt, &self.block) == self.block.len() as u64
    }
}

impl<F: EmitsBlocks> Feeds for ByBlock<F> {
    #[inline]
    fn feed<R: Wait>(&mut self, rt: &R, next: u64, end: u64) -> u64 {
        count_from(next, &mut self.block);
        let left = end.saturating_sub(next) as usize;
        let count = left.min(self.block.len());
        self.flow.emit_block(rt, &self.block[..count])
    }
}

impl<L, F: Admits<L>> Admits<BlockReader<L>> for ByBlock<F> {
    fn admit<R: AllocGlobal + RandomSource + Wait>(&mut self, rt: &R) -> Option<BlockReader<L>> {
        let block = Vec::with_capacity(rt.alloc(), self.block.len()).ok()?;
        let reader = self.flow.admit(rt)?;
        Some(BlockReader {
            reader,
            block,
            in_order: 0,
            _apart: [0; 16],
        })
    }
}

impl<L, F: TakesBlocks<L>> Takes<BlockReader<L>> for ByBlock<F> {
    #[inline]
    fn take<R: Wait>(
        &mut self,
        rt: &R,
        reader: &mut BlockReader<L>,
        taken: Received,
    ) -> Option<Received> {
        reader.block.clear();
        self.flow
            .take_block(rt, &mut reader.reader, &mut reader.block);
        if reader.block.len() < self.block.len() {
            return None;
        }
        Some(with_all(taken, &reader.block))
    }
}

impl<L: ReadsBlocks> Drains<u64> for BlockReader<L> {
    /// Takes so many values.
    #[inline(never)]
    fn drain<R: Clock + Wait>(&mut self, rt: &R, end: u64) {
        let mut next: u64 = 0;
        let mut in_order = true;
        let mut pause = Pause::new();
        for _ in rt.forever() {
            if next >= end {
                break;
            }
            self.block.clear();
            self.reader.read_block(rt, &mut self.block);
            if self.block.is_empty() {
                pause.wait();
                continue;
            }
            in_order = in_order && counts_from(next, &self.block);
            next = next.wrapping_add(self.block.len() as u64);
            pause = Pause::new();
        }
        self.in_order = if in_order { next } else { 0 };
    }
}

impl<L> InOrder for BlockReader<L> {
    fn in_order(&self) -> u64 {
        self.in_order
    }
}

impl<L: Ends> Ends for BlockReader<L> {
    fn end<R: Wait>(self, rt: &R) {
        let BlockReader {
            reader,
            block: _,
            in_order: _,
            _apart: _,
        } = self;
        reader.end(rt);
    }
}

/// A list for a block of so many values.
pub(crate) fn places<R: AllocGlobal>(rt: &R, size: usize) -> Result<Vec<u64>, Fault> {
    let block = vec![in rt.alloc(); 0; size]?;
    Ok(block)
}

/// Writes the numbers from this one up.
#[inline]
fn count_from(first: u64, block: &mut [u64]) {
    let mut next = first;
    for place in block.iter_mut() {
        *place = next;
        next = next.wrapping_add(1);
    }
}

/// Whether the values are the numbers from this one up.
#[inline]
fn counts_from(first: u64, block: &[u64]) -> bool {
    let mut next = first;
    let mut same = true;
    for value in block {
        same &= *value == next;
        next = next.wrapping_add(1);
    }
    same
}

/// What was taken, with all values of a block.
#[inline]
fn with_all(taken: Received, block: &[u64]) -> Received {
    let mut taken = taken;
    for value in block {
        taken = taken.with(*value);
    }
    taken
}
