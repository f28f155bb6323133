//! `filter`, `map` and a number of values of a subscription, beside looks alone.

use crate::blocks::{ByBlock, places};
use crate::chains::{IsEven, OneMore};
use crate::config::config_of;
use crate::fault::Fault;
use crate::measured::{Measured, now};
use crate::shared_blocks::close;
use crate::shared_ends::IdleEmitter;
use crate::sides::Emits;
use cold_flow::{Policy, Run};
use hot_sources::{Parker, filter, map, receiving, take_of};
use shared_flow::{SharedFlow, Subscription};
use std::alloc::AllocGlobal;
use std::random::RandomSource;
use std::rt::Clock;
use std::sync::Wait;

/// How many are emitted before they are received. Half of them are even, the last one too.
const BLOCK: usize = 64;

/// Who receives a block, and gives the sum of what came.
trait Sums {
    fn sum_block<R: Wait>(&mut self, rt: &R) -> u64;
}

/// Who looks for each value.
#[derive(Drop)]
struct Looks<'a> {
    news: &'a mut Subscription<u64>,
}

impl Sums for Looks<'_> {
    #[inline]
    fn sum_block<R: Wait>(&mut self, rt: &R) -> u64 {
        let mut total: u64 = 0;
        for _ in 0..BLOCK {
            let Some(value) = self.news.next_now(rt) else {
                break;
            };
            total = total.wrapping_add(value);
        }
        total
    }
}

/// Who takes half as many values of a chain by one call, and would sleep for them.
#[derive(Drop)]
struct Takes<S> {
    chain: S,
    parker: Parker,
    taken: Vec<u64>,
}

impl<S: Run<Item = u64>> Sums for Takes<S> {
    #[inline]
    fn sum_block<R: Wait>(&mut self, rt: &R) -> u64 {
        self.taken.clear();
        let _ended = take_of(
            rt,
            &mut self.parker,
            &mut self.chain,
            BLOCK / 2,
            &mut self.taken,
        );
        let mut total: u64 = 0;
        for value in &self.taken {
            total = total.wrapping_add(*value);
        }
        total
    }
}

/// A flow for one emitter and one subscription, with room for a block.
fn new_flow<R: AllocGlobal>(rt: &R) -> Result<SharedFlow<u64>, Fault> {
    let config = config_of(1, BLOCK as u64, Policy::Suspend);
    Ok(SharedFlow::<u64>::new(rt.alloc(), config)?)
}

/// So many values, each looked for.
pub(crate) fn by_looks<R>(rt: &R, values: u64) -> Result<Measured, Fault>
where
    R: Clock + AllocGlobal + RandomSource + Wait,
{
    let mut flow = new_flow(rt)?;
    let mut news = flow.subscribe(rt)?;
    let receipts = timed(rt, &mut flow, &mut Looks { news: &mut news }, values);
    news.cancel(rt);
    receipts
}

/// So many values, taken through a chain.
pub(crate) fn by_takes<R>(rt: &R, values: u64) -> Result<Measured, Fault>
where
    R: Clock + AllocGlobal + RandomSource + Wait,
{
    let mut flow = new_flow(rt)?;
    let mut news = flow.subscribe(rt)?;
    let source = receiving::<(), _, _>(&mut news, rt);
    let receipts = by_takes_of(rt, &mut flow, source, values);
    news.cancel(rt);
    receipts
}

/// The same with what the subscription receives.
fn by_takes_of<R, S>(
    rt: &R,
    flow: &mut SharedFlow<u64>,
    source: S,
    values: u64,
) -> Result<Measured, Fault>
where
    R: Clock + AllocGlobal + RandomSource + Wait,
    S: Run<Item = u64>,
{
    let parker = Parker::new(rt)?;
    let taken = Vec::with_capacity(rt.alloc(), BLOCK / 2)?;
    let chain = map(filter(source, IsEven), OneMore);
    let mut takes = Takes {
        chain,
        parker,
        taken,
    };
    timed(rt, flow, &mut takes, values)
}

/// Emits so many values by the block, each of which is received before the next one, from a new emitter to its close.
fn timed<R, T>(
    rt: &R,
    flow: &mut SharedFlow<u64>,
    reader: &mut T,
    values: u64,
) -> Result<Measured, Fault>
where
    R: Clock + AllocGlobal + Wait,
    T: Sums,
{
    let block = places(rt, BLOCK)?;
    let start = now(rt);
    let mut emitter = ByBlock::of(IdleEmitter::of(flow)?, block);
    let total = sum_of(rt, &mut emitter, reader, values / BLOCK as u64);
    close(rt, emitter);
    Ok(Measured::since(rt, start, total))
}

// Kept apart, as each measured loop.
#[inline(never)]
fn sum_of<R: Wait, T: Sums>(
    rt: &R,
    emitter: &mut ByBlock<IdleEmitter>,
    reader: &mut T,
    blocks: u64,
) -> u64 {
    let mut total: u64 = 0;
    let mut next: u64 = 1;
    for _ in 0..blocks {
        let _all = emitter.emit(rt, next);
        next = next.wrapping_add(BLOCK as u64);
        total = total.wrapping_add(reader.sum_block(rt));
    }
    total
}
