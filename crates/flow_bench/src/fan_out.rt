//! A fan-out between threads, where no value is lost: one emits, and one to 32 others take every value.

use crate::measured::{Measured, now};
use crate::pause::Pause;
use crate::sides::Feeds;
use std::rt::Clock;
use std::sync::Wait;
use std::thread;
use std::thread::{Threads, for_each_mut};

/// A reader that takes values in a thread of its own, up to an end.
pub(crate) trait Drains<U> {
    fn drain<R: Clock + Wait>(&mut self, rt: &R, end: U);
}

/// A reader that takes values by the block.
pub(crate) trait ReadsBlocks {
    /// Takes what is there, as far as the block has room.
    fn read_block<R: Wait>(&mut self, rt: &R, block: &mut Vec<u64>);
}

/// Who works in a thread of its own, while readers take.
pub(crate) trait Works {
    fn work<R: Clock + Wait>(&mut self, rt: &R);
}

pub(crate) trait InOrder {
    /// How many values came to it, where they came in order.
    fn in_order(&self) -> u64;
}

/// Who emits so many values.
#[derive(Drop)]
struct Feeding<'a, E> {
    emitter: &'a mut E,
    values: u64,
}

impl<E: Feeds> Works for Feeding<'_, E> {
    fn work<R: Clock + Wait>(&mut self, rt: &R) {
        feed(rt, self.emitter, self.values);
    }
}

/// Emits so many values, while each reader takes them, from the start of the first thread to the end of the last one. The
/// total is how many came in order.
pub(crate) fn fan_out<R, E, L>(
    rt: &R,
    emitter: &mut E,
    readers: &mut Vec<L>,
    values: u64,
) -> Measured
where
    R: Clock + Threads + Wait + Sync,
    E: Feeds + Send,
    L: Drains<u64> + InOrder + Send,
{
    let start = now(rt);
    work_beside(rt, &mut Feeding { emitter, values }, readers, values);
    let mut measured = Measured::since(rt, start, 0);
    measured.total = sum_in_order(readers.as_slice());
    measured
}

/// One works, while each reader takes values up to this end.
pub(crate) fn work_beside<R, W, L, U>(rt: &R, worker: &mut W, readers: &mut Vec<L>, end: U)
where
    R: Clock + Threads + Wait + Sync,
    W: Works + Send,
    L: Drains<U> + Send,
    U: Copy + Sync,
{
    thread::join(rt, || worker.work(rt), || drain_all(rt, readers, end));
}

/// Emits the numbers from 0 to below `values`. Where there is no room it doesn't sleep, but tries again.
#[inline(never)]
fn feed<R: Wait, E: Feeds>(rt: &R, emitter: &mut E, values: u64) {
    let mut next: u64 = 0;
    let mut pause = Pause::new();
    for _ in rt.forever() {
        if next >= values {
            break;
        }
        let accepted = emitter.feed(rt, next, values);
        if accepted > 0 {
            next = next.wrapping_add(accepted);
            pause = Pause::new();
        } else {
            pause.wait();
        }
    }
}

/// Each reader takes the values in a thread of its own.
fn drain_all<R, L, U>(rt: &R, readers: &mut Vec<L>, end: U)
where
    R: Clock + Threads + Wait + Sync,
    L: Drains<U> + Send,
    U: Copy + Sync,
{
    let threads = readers.len().max(1);
    for_each_mut(
        rt,
        readers.as_mut_slice(),
        threads,
        &|_, reader: &mut L| reader.drain(rt, end),
    );
}

/// How many values came in order to all readers.
fn sum_in_order<L: InOrder>(readers: &[L]) -> u64 {
    let mut total: u64 = 0;
    for reader in readers {
        total = total.wrapping_add(reader.in_order());
    }
    total
}
