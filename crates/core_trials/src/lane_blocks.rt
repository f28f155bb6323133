//! A lane by the block: many words are emitted by one call, and many are taken by one.

ghost use Rattle.shared_lane.specs.Readers.{IsReaderOf};
ghost use Rattle.shared_lane.specs.Sequencers.{IsSequencerOf};

use crate::lane_body::{Listening, Sending, lane_of};
use crate::tools::assert_same;
use cold_flow::Policy;
use shared_core::Config;
use shared_lane::{Lane, Reader, Sequencer, Taken};
use std::alloc::{AllocGlobal, Global};
use std::process::Abort;
use std::sync::atomic::{AtomicBool, Ordering};
use std::test::Fail;
use std::thread::{Threads, join_mut, yield_now};

/// The emitter of every value.
const EMITTER: u32 = 5;

/// How often a thread asks at most. It yields where it gets nothing.
const TURNS: u32 = 5_000_000;

const fn flow(policy: Policy, extra: u64) -> Config {
    Config {
        replay: 0,
        extra,
        policy,
        subscribers: 2,
        emits: 1,
        first: 10,
    }
}

/// A call, and its answer.
enum Exchange {
    /// Of these words so many are accepted.
    Try(&'static [u64], u64),
    /// With room for so many these are taken.
    Take(usize, Taken<u64>, &'static [u64]),
}

/// The calls while one reader is open.
struct Life {
    name: &'static str,
    policy: Policy,
    extra: u64,
    exchanges: &'static [Exchange],
}

const LIVES: &[Life] = &[
    Life {
        name: "stops where there is no room",
        policy: Policy::Suspend,
        extra: 4,
        exchanges: &[
            Exchange::Try(&[1, 2, 3, 4, 5, 6], 4),
            Exchange::Try(&[5], 0),
            Exchange::Take(3, Taken::Value(3), &[1, 2, 3]),
            Exchange::Try(&[5, 6, 7, 8], 3),
            Exchange::Take(0, Taken::Value(0), &[]),
            Exchange::Take(9, Taken::Value(4), &[4, 5, 6, 7]),
            Exchange::Take(9, Taken::Nothing, &[]),
            Exchange::Try(&[], 0),
            Exchange::Try(&[8, 9], 2),
            Exchange::Take(9, Taken::Value(2), &[8, 9]),
        ],
    },
    Life {
        name: "loses the oldest",
        policy: Policy::DropOldest,
        extra: 2,
        exchanges: &[
            Exchange::Try(&[1, 2, 3, 4, 5, 6, 7], 7),
            Exchange::Take(9, Taken::Value(2), &[6, 7]),
            Exchange::Try(&[8], 1),
            Exchange::Take(1, Taken::Value(1), &[8]),
            Exchange::Take(1, Taken::Nothing, &[]),
        ],
    },
    Life {
        name: "drops what comes too late",
        policy: Policy::DropLatest,
        extra: 3,
        exchanges: &[
            Exchange::Try(&[1, 2, 3, 4, 5], 3),
            Exchange::Take(2, Taken::Value(2), &[1, 2]),
            Exchange::Try(&[6, 7, 8], 2),
            Exchange::Take(9, Taken::Value(3), &[3, 6, 7]),
        ],
    },
    Life {
        name: "hands nothing over by a try",
        policy: Policy::Suspend,
        extra: 0,
        exchanges: &[
            Exchange::Try(&[1, 2], 0),
            Exchange::Take(1, Taken::Nothing, &[]),
        ],
    },
];

// Whether the reader takes these, with so much room.
fn takes(
    alloc: Global,
    lane: &Lane<Global>,
    reader: &mut Reader,
    room: usize,
    answer: Taken<u64>,
    values: &[u64],
) -> bool
    requires { IsReaderOf lane.now reader.old }
    ensures { IsReaderOf lane.now reader.new }
{
    let Ok(mut out) = Vec::with_capacity(alloc, room) else {
        return false;
    };
    let taken = reader.try_next_all(lane, &mut out);
    taken == answer && out.as_slice() == values
}

// How many of the calls, from the first on, were answered as they should be.
fn answered(
    alloc: Global,
    lane: &Lane<Global>,
    sequencer: &mut Sequencer<Global>,
    reader: &mut Reader,
    exchanges: &[Exchange],
) -> usize
    requires { IsSequencerOf lane.now sequencer.old × IsReaderOf lane.now reader.old }
    ensures { IsSequencerOf lane.now sequencer.new × IsReaderOf lane.now reader.new }
{
    let mut count: usize = 0;
    for exchange in exchanges {
        let same = match exchange {
            Exchange::Try(words, accepted) => {
                sequencer.try_emit_all(lane, EMITTER, words) == Ok(*accepted)
            }
            Exchange::Take(room, answer, values) => {
                takes(alloc, lane, reader, *room, *answer, values)
            }
        };
        if !same {
            return count;
        }
        count = count.saturating_add(1);
    }
    count
}

#[test]
fn blocks_of_one_reader(rt: HostRuntime) -> Result<(), Fail> {
    for life in LIVES {
        let (lane, mut sequencer) = lane_of(rt.alloc(), flow(life.policy, life.extra))?;
        let mut reader = sequencer.admit(&lane).expect(&rt, "a reader");
        let count = answered(
            rt.alloc(),
            &lane,
            &mut sequencer,
            &mut reader,
            life.exchanges,
        );
        reader.close(&lane);
        assert_same(&rt, life.name, count, life.exchanges.len());
    }
    Ok(())
}

/// How many words a block has, and how many there are.
const BLOCK: usize = 16;

const WORDS: u64 = 20_000;

impl Sending<'_> {
    // Emits a block of numbers from this one on, and says how many were accepted.
    fn emit_from(&mut self, first: u64) -> Option<u64> {
        let mut block = [0; BLOCK];
        for (index, word) in block.iter_mut().enumerate() {
            *word = first.wrapping_add(index as u64);
        }
        self.sequencer.try_emit_all(self.lane, EMITTER, &block).ok()
    }

    // Emits the numbers from 0 on, `WORDS` of them at least, and says how many.
    fn feed(&mut self, over: &AtomicBool) -> u64 {
        let mut next: u64 = 0;
        for _ in 0..TURNS {
            match self.emit_from(next) {
                Some(0) => yield_now(),
                Some(count) => next = next.wrapping_add(count),
                None => break,
            }
            if next >= WORDS {
                break;
            }
        }
        over.store(true, Ordering::SeqCst);
        next
    }
}

/// What a reader came to.
#[derive(Clone, Copy, Debug, PartialEq, Drop)]
struct Heard {
    /// The word that comes next, where none is lost.
    next: u64,
    /// Each word was above the one before.
    rises: bool,
    /// No word was left out.
    whole: bool,
}

impl Heard {
    fn note(&mut self, word: u64) {
        self.rises = self.rises && word >= self.next;
        self.whole = self.whole && word == self.next;
        self.next = word.wrapping_add(1);
    }
}

impl Listening<'_> {
    // Takes words into `out` until nothing is left once all were emitted.
    fn drain(&mut self, out: &mut Vec<u64, Global>, over: &AtomicBool) -> Heard {
        let mut heard = Heard {
            next: 0,
            rises: true,
            whole: true,
        };
        for _ in 0..TURNS {
            let was_over = over.load(Ordering::SeqCst);
            out.clear();
            if self.reader.try_next_all(self.lane, out) == Taken::Nothing {
                if was_over {
                    break;
                }
                yield_now();
            }
            for word in out.iter() {
                heard.note(*word);
            }
        }
        heard
    }
}

// Blocks are emitted in one thread, and taken in another.
fn assert_run<R>(rt: &R, policy: Policy)
where
    R: AllocGlobal + Threads + Abort + Sync,
{
    let config = Config {
        first: 0,
        ..flow(policy, 64)
    };
    let (lane, sequencer) = Lane::new(rt.alloc(), config).expect(rt, "a lane");
    let mut sending = Sending {
        lane: &lane,
        sequencer,
    };
    let mut out = Vec::with_capacity(rt.alloc(), 32).expect(rt, "room");
    let mut listening = sending.admit().expect(rt, "a reader");
    let over = AtomicBool::new(false);
    let (heard, fed) = join_mut(
        rt,
        &mut || listening.drain(&mut out, &over),
        &mut || sending.feed(&over),
    );
    let counted = listening.leave();
    assert_same(rt, "received or dropped", counted, fed);
    assert_same(rt, "the last came", heard.next, fed);
    assert_same(rt, "each above the one before", heard.rises, true);
    if policy == Policy::Suspend {
        assert_same(rt, "none was left out", heard.whole, true);
    }
}

#[test]
fn blocks_between_threads(rt: HostRuntime) {
    assert_run(&rt, Policy::Suspend);
    assert_run(&rt, Policy::DropOldest);
}
