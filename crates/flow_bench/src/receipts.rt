//! Receipts on one thread: a value is emitted, and each reader takes it before the next one.

use crate::fault::Fault;
use crate::measured::{Measured, now};
use crate::sides::{Admits, Emits, EmitsBlocks, Ends, admit_all, end_all};
use std::alloc::AllocGlobal;
use std::random::RandomSource;
use std::rt::Clock;
use std::sync::Wait;

/// Who emits, and has its readers take.
pub(crate) trait Takes<L>: Emits {
    /// The reader takes what one emission has, if it is there: what was taken, with that.
    fn take<R: Wait>(&mut self, rt: &R, reader: &mut L, taken: Received) -> Option<Received>;
}

/// Who emits by the block, and has its readers take so.
pub(crate) trait TakesBlocks<L>: EmitsBlocks {
    /// The reader takes what is there, as far as the block has room.
    fn take_block<R: Wait>(&mut self, rt: &R, reader: &mut L, block: &mut Vec<u64>);
}

/// What the readers took so far.
#[derive(Clone, Copy)]
pub(crate) struct Received {
    /// The last value.
    last: u64,
    /// The sum of all of them, modulo 2^64.
    total: u64,
}

impl Received {
    /// With one value more.
    #[inline]
    pub(crate) fn with(self, value: u64) -> Received {
        Received {
            last: value,
            total: self.total.wrapping_add(value),
        }
    }
}

/// The receipts of so many readers of a flow that has none, and so many emissions.
pub(crate) fn receipts_of<R, F, L>(
    rt: &R,
    flow: &mut F,
    readers: u32,
    emissions: u64,
) -> Result<Measured, Fault>
where
    R: Clock + AllocGlobal + RandomSource + Wait,
    F: Admits<L> + Takes<L>,
    L: Ends,
{
    let mut readers = admit_all(rt, flow, readers)?;
    let receipts = receipts(rt, flow, &mut readers, emissions);
    end_all(rt, readers);
    Ok(receipts)
}

/// The receipts of these readers, and so many emissions, which are in their time.
pub(crate) fn receipts<R, F, L>(
    rt: &R,
    flow: &mut F,
    readers: &mut Vec<L>,
    emissions: u64,
) -> Measured
where
    R: Clock + Wait,
    F: Takes<L>,
{
    let start = now(rt);
    let total = emit_and_take(rt, flow, readers, emissions);
    Measured::since(rt, start, total.unwrap_or(0))
}

/// Emits the numbers from 1 up, each emission once the one before was taken, and gives the sum of what was taken. Each
/// emission begins one above the last value that was taken.
#[inline(never)]
fn emit_and_take<R, F, L>(rt: &R, flow: &mut F, readers: &mut Vec<L>, emissions: u64) -> Option<u64>
where
    R: Wait,
    F: Takes<L>,
{
    let mut taken = Received { last: 0, total: 0 };
    for _ in 0..emissions {
        if !flow.emit(rt, taken.last.wrapping_add(1)) {
            return None;
        }
        taken = take_all(rt, flow, readers, taken)?;
    }
    Some(taken.total)
}

/// Each reader takes what one emission has, if it is there for each.
fn take_all<R, F, L>(
    rt: &R,
    flow: &mut F,
    readers: &mut Vec<L>,
    mut taken: Received,
) -> Option<Received>
where
    R: Wait,
    F: Takes<L>,
{
    for reader in readers.iter_mut() {
        taken = flow.take(rt, reader, taken)?;
    }
    Some(taken)
}
