//! Values by the block: emitters that wait until all are accepted, and subscriptions that wait for what is there, each in a thread
//! of its own; and how far an emitter came that was refused.

ghost use Rattle.std.specs.Prelude.{◌≡◌, None};

use crate::ledger::{Heard, Said};
use crate::shared_stage::config;
use crate::tools::assert_same;
use cold_flow::{Policy, Refusal};
use shared_core::Config;
use shared_flow::{CutShort, Emitter, Parker, Prelude, SharedFlow, Subscription};
use std::alloc::AllocGlobal;
use std::process::Abort;
use std::random::RandomSource;
use std::sync::Wait;
use std::test::Fail;
use std::thread::{Threads, for_each_mut};

/// How many values each emitter emits. There are two emitters and four subscriptions.
const VALUES: u64 = 500_000;

const EMITTERS: u32 = 2;

const SUBSCRIPTIONS: u32 = 4;

/// How many values a block has at most, and how many may be pending: some blocks have more.
const MOST: u64 = 64;

const PLACES: u64 = 48;

/// How often each calls at most.
const TURNS: u64 = 2 * VALUES;

/// One that runs in a thread: an emitter, or a subscription.
enum Party {
    Emitting(Emitter<u64>, Said),
    Listening(Subscription<u64>, Heard),
}

/// A party, what its thread sleeps by, the block at hand, and numbers that look random for its size.
struct Side {
    party: Party,
    parker: Parker,
    block: Vec<u64>,
    random: u64,
}

// A number below `MOST`.
fn size(random: &mut u64) -> usize {
    *random ^= random.wrapping_shl(13);
    *random ^= *random >> 7;
    *random ^= random.wrapping_shl(17);
    ((*random >> 11) % MOST) as usize
}

// Emits all values, in blocks. Where the emitter is refused it goes on behind those that were accepted.
fn emit_values(
    rt: &impl Wait,
    emitter: &mut Emitter<u64>,
    said: &mut Said,
    parker: &mut Parker,
    block: &mut Vec<u64>,
    random: &mut u64,
) {
    for _ in 0..TURNS {
        if said.accepted >= VALUES || emitter.in_flight() {
            return;
        }
        fill(block, said, size(random));
        said.accepted = match emitter.emit_all(rt, parker, block) {
            Ok(count) => said.accepted.saturating_add(count),
            Err(cut) => said.accepted.saturating_add(cut.accepted),
        };
    }
}

// The next values of an emitter: one more than so many, where as many are left.
fn fill(block: &mut Vec<u64>, said: &Said, size: usize) {
    block.clear();
    for later in 0..=size as u64 {
        let emitted = said.accepted.saturating_add(later);
        if emitted < VALUES {
            let _is_full = block.push(said.value(emitted));
        }
    }
}

// Receives the values of all emitters, as many at a time as there is room for behind some of those before.
fn hear_values(
    rt: &impl Wait,
    subscription: &mut Subscription<u64>,
    heard: &mut Heard,
    parker: &mut Parker,
    block: &mut Vec<u64>,
    random: &mut u64,
) {
    for _ in 0..TURNS {
        if heard.received >= VALUES * u64::from(EMITTERS) {
            return;
        }
        block.truncate(size(random));
        let before = block.len();
        let count = subscription.next_all(rt, parker, block).unwrap_or(0);
        let values = block.get(before..).unwrap_or(&[]);
        heard.is_whole = heard.is_whole && values.len() as u64 == count;
        for value in values {
            heard.note(*value);
        }
    }
}

impl Side {
    fn new<R: Wait + Abort + RandomSource + AllocGlobal>(rt: &R, party: Party, seed: u32) -> Side {
        Side {
            party,
            parker: Parker::new(rt).expect(rt, "a parker"),
            block: Vec::with_capacity(rt.alloc(), MOST as usize).expect(rt, "room for a block"),
            random: u64::from(seed).wrapping_add(0x9E37_79B9_7F4A_7C15),
        }
    }

    fn run(&mut self, rt: &impl Wait) {
        let Side {
            party,
            parker,
            block,
            random,
        } = self;
        match party {
            Party::Emitting(emitter, said) => {
                emit_values(rt, emitter, said, parker, block, random);
            }
            Party::Listening(subscription, heard) => {
                hear_values(rt, subscription, heard, parker, block, random);
            }
        }
    }

    // Ends it. How many values were accepted, or received and lost, and whether that is right.
    fn end(self, rt: &impl Wait) -> (u64, bool) {
        let Side {
            party,
            parker: _,
            block: _,
            random: _,
        } = self;
        match party {
            Party::Emitting(emitter, said) => {
                emitter.close(rt);
                (said.accepted, said.accepted == VALUES)
            }
            Party::Listening(subscription, heard) => {
                let counted = subscription
                    .received()
                    .saturating_add(subscription.dropped());
                subscription.cancel(rt);
                let is_right = heard.rises && heard.is_whole && heard.received == counted;
                (counted, is_right)
            }
        }
    }
}

// The sides of a flow. One for which there is no place is ended.
fn joined<R: Wait + Abort + RandomSource + AllocGlobal>(
    rt: &R,
    flow: &mut SharedFlow<u64>,
) -> Vec<Side> {
    let mut sides = Vec::new(rt.alloc());
    for seed in 0..EMITTERS + SUBSCRIPTIONS {
        let party = if seed < EMITTERS {
            let emitter = flow.emitter(seed).expect(rt, "an emitter");
            Party::Emitting(emitter, Said::by(seed))
        } else {
            let subscription = flow.subscribe(rt).expect(rt, "a subscription");
            Party::Listening(subscription, Heard::nothing())
        };
        if let Err(refused) = sides.push(Side::new(rt, party, seed)) {
            refused.value.end(rt);
        }
    }
    sides
}

// Ends each side. How many values were accepted and received in all, and whether each side's are right.
fn end_all(rt: &impl Wait, mut sides: Vec<Side>) -> (u64, bool) {
    let mut total: u64 = 0;
    let mut are_right = true;
    while let Some(side) = sides.pop() {
        let (count, is_right) = side.end(rt);
        total = total.saturating_add(count);
        are_right = are_right && is_right;
    }
    sides.destroy_empty();
    (total, are_right)
}

fn run_all<R: Wait + Threads + Sync>(rt: &R, sides: &mut [Side]) {
    for_each_mut(rt, sides, 8, &|_, side: &mut Side| side.run(rt));
}

/// A million values by blocks: each subscription receives them all, once and each emitter's in its order.
#[test]
fn a_million_values_come_by_blocks(rt: HostRuntime) -> Result<(), Fail> {
    let mut flow = SharedFlow::new(rt.alloc(), config(0, PLACES, Policy::Suspend))?;
    let mut sides = joined(&rt, &mut flow);
    run_all(&rt, &mut sides);
    let found = end_all(&rt, sides);
    assert_same(&rt, "accepted and received", found, (5_000_000, true));
    Ok(())
}

/// What an emitter of these values comes to, where each subscription is there that makes it wait.
fn emitted<R: Wait + Abort + RandomSource>(
    rt: &R,
    flow: &mut SharedFlow<u64>,
    parker: &mut Parker,
    values: &[u64],
) -> Result<u64, CutShort> {
    let mut emitter = flow.emitter(1).expect(rt, "an emitter");
    let emitted = emitter.emit_all(rt, parker, values);
    emitter.close(rt);
    emitted
}

/// Two numbers are left, so that of three values two are accepted. The subscription receives those of its prelude first.
#[test]
fn blocks_tell_how_far_they_came(rt: HostRuntime) -> Result<(), Fail> {
    let config = Config {
        first: (1 << 62) - 2,
        ..config(0, 4, Policy::Suspend)
    };
    let mut parker = Parker::new(&rt)?;
    let mut flow = SharedFlow::new(rt.alloc(), config)?;
    let mut block = Vec::with_capacity(rt.alloc(), 2)?;
    let mut rest = Vec::with_capacity(rt.alloc(), 4)?;
    let prelude = Prelude::of(&[7, 8, 9])?;
    let mut subscription = flow
        .subscribe_with(&rt, prelude)
        .expect(&rt, "a subscription");
    let told = emitted(&rt, &mut flow, &mut parker, &[1, 2, 3]);
    let counts = [
        subscription.next_all(&rt, &mut parker, &mut block),
        subscription.next_all(&rt, &mut parker, &mut block),
        subscription.next_all(&rt, &mut parker, &mut rest),
        subscription.next_all(&rt, &mut parker, &mut rest),
    ];
    subscription.cancel(&rt);
    let wanted = CutShort {
        emitted: 2,
        accepted: 2,
        refusal: Refusal::Spent,
    };
    assert_same(&rt, "how far it came", told, Err(wanted));
    assert_same(&rt, "counts", counts, [Ok(2), Ok(0), Ok(1), Ok(2)]);
    assert_same(&rt, "the first", block.as_slice(), [7, 8].as_slice());
    assert_same(&rt, "the rest", rest.as_slice(), [9, 1, 2].as_slice());
    Ok(())
}
