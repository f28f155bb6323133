//! What measurements ask of a flow, whichever it is: one emits, and its readers take.

use crate::fault::Fault;
use std::alloc::AllocGlobal;
use std::random::RandomSource;
use std::sync::Wait;

/// A reader. It must be ended.
pub(crate) trait Ends {
    fn end<R: Wait>(self, rt: &R);
}

/// Who admits readers.
pub(crate) trait Admits<L> {
    /// One more, where none is refused.
    fn admit<R: AllocGlobal + RandomSource + Wait>(&mut self, rt: &R) -> Option<L>;
}

/// So many readers, or fewer where one is refused.
pub(crate) fn admit_all<R, F, L>(rt: &R, flow: &mut F, count: u32) -> Result<Vec<L>, Fault>
where
    R: AllocGlobal + RandomSource + Wait,
    F: Admits<L>,
    L: Ends,
{
    let mut readers = Vec::with_capacity(rt.alloc(), count as usize)?;
    for _ in 0..count {
        let Some(reader) = flow.admit(rt) else {
            break;
        };
        if let Err(refused) = readers.push(reader) {
            refused.value.end(rt);
        }
    }
    Ok(readers)
}

/// Each reader is ended.
pub(crate) fn end_all<R: Wait, L: Ends>(rt: &R, mut readers: Vec<L>) {
    while let Some(reader) = readers.pop() {
        reader.end(rt);
    }
    readers.destroy_empty();
}

/// Who emits.
pub(crate) trait Emits {
    /// Emits a value: whether it was accepted.
    fn emit<R: Wait>(&mut self, rt: &R, value: u64) -> bool;
}

/// Who emits by the block.
pub(crate) trait EmitsBlocks {
    /// Emits these values, from the first on: how many were accepted.
    fn emit_block<R: Wait>(&mut self, rt: &R, block: &[u64]) -> u64;
}

/// Who emits numbers in their order.
pub(crate) trait Feeds {
    /// Emits the number `next`, or a block of numbers from it on, all below `end`: how many were accepted.
    fn feed<R: Wait>(&mut self, rt: &R, next: u64, end: u64) -> u64;
}
