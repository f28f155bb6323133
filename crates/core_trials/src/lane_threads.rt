//! A lane among threads: one is the sequencer for three emitters, and each of four readers is lent to a thread of its
//! own.

ghost use Rattle.shared_lane.specs.Readers.{IsReaderOf};
ghost use Rattle.shared_lane.specs.Sequencers.{IsSequencerOf};

use crate::tools::assert_same;
use cold_flow::Policy;
use shared_core::{Begun, Config, Emit, Ticket};
use shared_lane::{Lane, Reader, Sequencer, Taken};
use std::alloc::{AllocGlobal, Global};
use std::process::Abort;
use std::sync::atomic::{AtomicBool, Ordering};
use std::thread::{Threads, for_each_mut, join_mut, yield_now};

/// How many readers there are.
const READERS: usize = 4;

/// The words of an emitter begin at so many times its id.
const APART: u64 = 1_000_000;

/// How often a thread asks at most. It yields where it gets nothing.
const TURNS: u32 = 5_000_000;

/// A sequencer with its lane.
#[derive(Drop)]
struct Stage<'a> {
    lane: &'a Lane<Global>,
    sequencer: Sequencer<Global>,
    ghost fits: { IsSequencerOf lane.now sequencer },
}

/// An emitter's next word, as a count, and the ticket of the one before where that waits.
#[derive(Drop)]
struct Emitting {
    id: u32,
    next: u64,
    ticket: Option<Ticket>,
}

/// What a turn came to.
#[derive(Drop)]
enum Turn {
    Done,
    Waits,
    Wrong,
}

impl<'a> Stage<'a> {
    fn admit<R: Abort>(&mut self, rt: &R) -> Listening<'a> {
        let reader = self.sequencer.admit(self.lane).expect(rt, "a reader");
        Listening {
            lane: self.lane,
            reader,
            last: [None; 3],
            rises: true,
        }
    }

    // Begins the emitter's next emission, or asks for the one that waits. Emitter `id` has the words from `id * APART` on.
    fn turn(&mut self, emitting: &mut Emitting) -> Turn {
        if let Some(ticket) = emitting.ticket {
            return match self.sequencer.poll_emit(self.lane, ticket) {
                Emit::Done(_) => {
                    emitting.ticket = None;
                    Turn::Done
                }
                Emit::Waiting => Turn::Waits,
                Emit::Gone => Turn::Wrong,
            };
        }
        let word = u64::from(emitting.id)
            .wrapping_mul(APART)
            .wrapping_add(emitting.next);
        let begun = self.sequencer.start_emit(self.lane, emitting.id, word);
        emitting.next = emitting.next.wrapping_add(1);
        match begun {
            Ok(Begun::Accepted(_)) => Turn::Done,
            Ok(Begun::Waiting(ticket)) => {
                emitting.ticket = Some(ticket);
                Turn::Waits
            }
            Ok(Begun::Dropped) | Err(_) => Turn::Wrong,
        }
    }

    // A turn of each emitter that isn't done, after those that wait were accepted where there is room.
    fn round(&mut self, emitters: &mut [Emitting; 3], words: u64) -> Turn {
        self.sequencer.scan(self.lane);
        let mut round = Turn::Done;
        for emitting in emitters.iter_mut() {
            if emitting.next < words || emitting.ticket.is_some() {
                match self.turn(emitting) {
                    Turn::Wrong => return Turn::Wrong,
                    Turn::Waits => round = Turn::Waits,
                    Turn::Done => {}
                }
            }
        }
        round
    }
}

fn is_done(emitters: &[Emitting; 3], words: u64) -> bool {
    emitters.iter().all(|emitting| emitting.next >= words && emitting.ticket.is_none())
}

// Emits so many words of each of three emitters. At its end, which may be because a reader gave up, no reader waits for more.
fn emit_all(stage: &mut Stage<'_>, words: u64, over: &AtomicBool) -> bool {
    let mut emitters = [0, 1, 2].map(|id| Emitting {
        id,
        next: 0,
        ticket: None,
    });
    for _ in 0..TURNS {
        if is_done(&emitters, words) || over.load(Ordering::SeqCst) {
            break;
        }
        match stage.round(&mut emitters, words) {
            Turn::Done => {}
            Turn::Waits => yield_now(),
            Turn::Wrong => break,
        }
    }
    over.store(true, Ordering::SeqCst);
    is_done(&emitters, words)
}

/// A reader with its lane, the last word that it got from each emitter, and whether each was above the one before.
struct Listening<'a> {
    lane: &'a Lane<Global>,
    reader: Reader,
    last: [Option<u64>; 3],
    rises: bool,
    ghost fits: { IsReaderOf lane.now reader },
}

/// What a reader came to.
#[derive(Drop)]
struct Heard {
    received: u64,
    dropped: u64,
    /// Each emitter's words rose.
    rises: bool,
}

impl<'a> Listening<'a> {
    fn note(&mut self, word: u64) {
        let Some(last) = self.last.get_mut((word / APART) as usize) else {
            self.rises = false;
            return;
        };
        if last.is_some_and(|before| word <= before) {
            self.rises = false;
        }
        *last = Some(word);
    }

    // Takes words until nothing is left once all were emitted. A reader that gives up says that it is over.
    fn take_all(&mut self, over: &AtomicBool) {
        for _ in 0..TURNS {
            let was_over = over.load(Ordering::SeqCst);
            match self.reader.try_next(self.lane) {
                Taken::Value(word) => self.note(word),
                Taken::Nothing => {
                    if was_over {
                        return;
                    }
                    yield_now();
                }
                Taken::Overtaken => {}
            }
            if !self.rises {
                break;
            }
        }
        over.store(true, Ordering::SeqCst);
    }

    // Ends the reader, and says what it came to.
    fn leave(self) -> Heard {
        let Listening {
            lane,
            reader,
            last: _,
            rises,
        } = self;
        let heard = Heard {
            received: reader.received(),
            dropped: reader.dropped(),
            rises,
        };
        reader.close(lane);
        heard
    }
}

// So many readers, or fewer where memory is refused.
fn admit_all<'a, R: Abort>(
    rt: &R,
    stage: &mut Stage<'a>,
    mut readers: Vec<Listening<'a>>,
) -> Vec<Listening<'a>> {
    for _ in 0..READERS {
        if let Err(refused) = readers.push(stage.admit(rt)) {
            refused.value.leave();
        }
    }
    readers
}

// The sequencer and the readers run, each in a thread of its own. Whether all was emitted. Where no thread can be had, the last is
// called first, and under the dropping policies it waits for nobody.
fn run_all<R: Threads + Sync>(
    rt: &R,
    stage: &mut Stage<'_>,
    readers: &mut Vec<Listening<'_>>,
    words: u64,
) -> bool {
    let over = AtomicBool::new(false);
    let ((), emitted) = join_mut(
        rt,
        &mut || listen_all(rt, readers, &over),
        &mut || emit_all(stage, words, &over),
    );
    emitted
}

fn listen_all<R: Threads + Sync>(rt: &R, readers: &mut Vec<Listening<'_>>, over: &AtomicBool) {
    for_each_mut(
        rt,
        readers.as_mut_slice(),
        READERS,
        &|_, listening: &mut Listening<'_>| listening.take_all(over),
    );
}

// Ends each reader, and compares how many there were, and what each says.
fn assert_each<R: Abort>(rt: &R, mut readers: Vec<Listening<'_>>, run: &Run) {
    let all = run.words.saturating_mul(3);
    let mut count: usize = 0;
    while let Some(listening) = readers.pop() {
        let Heard {
            received,
            dropped,
            rises,
        } = listening.leave();
        assert_same(rt, "the words of each emitter rise", rises, true);
        let heard = received.saturating_add(dropped);
        assert_same(rt, "received or dropped", heard, all);
        if run.policy != Policy::DropOldest {
            assert_same(rt, "dropped", dropped, 0);
        }
        count = count.wrapping_add(1);
    }
    readers.destroy_empty();
    assert_same(rt, "readers", count, READERS);
}

/// So many words of each of three emitters, which go through a lane with so many places.
struct Run {
    words: u64,
    extra: u64,
    policy: Policy,
}

const RUNS: &[Run] = &[
    Run {
        words: 1000,
        extra: 8,
        policy: Policy::Suspend,
    },
    Run {
        words: 1000,
        extra: 8,
        policy: Policy::DropOldest,
    },
    // Readers that are overtaken lose none uncounted.
    Run {
        words: 33_334,
        extra: 2,
        policy: Policy::DropOldest,
    },
];

fn assert_run<R>(rt: &R, run: &Run)
where
    R: AllocGlobal + Threads + Abort + Sync,
{
    let config = Config {
        replay: 0,
        extra: run.extra,
        policy: run.policy,
        subscribers: 8,
        emits: 3,
        first: 0,
    };
    let (lane, sequencer) = Lane::new(rt.alloc(), config).expect(rt, "a lane");
    let mut stage = Stage {
        lane: &lane,
        sequencer,
    };
    let places = Vec::with_capacity(rt.alloc(), READERS).expect(rt, "room");
    let mut readers = admit_all(rt, &mut stage, places);
    let emitted = run_all(rt, &mut stage, &mut readers, run.words);
    assert_each(rt, readers, run);
    assert_same(rt, "all words were emitted", emitted, true);
}

#[test]
fn lane_three_emitters(rt: HostRuntime) {
    for run in RUNS {
        assert_run(&rt, run);
    }
}
