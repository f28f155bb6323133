//! Worked examples of a lane on one thread: its sequencer and one reader at a time.

ghost use Rattle.std.specs.Prelude.{IfOk};
ghost use Rattle.shared_lane.specs.Readers.{IsReaderOf};
ghost use Rattle.shared_lane.specs.Sequencers.{IsSequencerOf};

use crate::tools::assert_same;
use cold_flow::{Policy, Refusal};
use shared_core::{Begun, Config, Emit, Ticket, Tried};
use shared_lane::{Lane, Met, Reader, Sequencer, Taken, meet};
use std::alloc::Global;
use std::process::Abort;
use std::test::Fail;

/// The emitter of every value.
const EMITTER: u32 = 5;

const SUSPENDS: Config = Config {
    replay: 0,
    extra: 2,
    policy: Policy::Suspend,
    subscribers: 1,
    emits: 1,
    first: 0,
};

const DROPS_OLDEST: Config = Config {
    replay: 1,
    extra: 1,
    policy: Policy::DropOldest,
    subscribers: 1,
    emits: 1,
    first: 0,
};

/// A call, and its answer.
enum Exchange {
    Try(u64, Tried<u64>),
    Start(u64, Begun<u64, Ticket>),
    Scan(u32),
    Poll(Ticket, Emit),
    Next(Taken<u64>),
}

/// The calls while one reader is open, what it says of itself after them, and how much was accepted since its start.
struct Life<'a> {
    name: &'a str,
    exchanges: &'a [Exchange],
    start: u64,
    accepted: u64,
    received: u64,
    dropped: u64,
}

const WAITS_FOR_ROOM: Life<'_> = Life {
    name: "waits for room",
    exchanges: &[
        Exchange::Try(7, Tried::Accepted(0)),
        Exchange::Try(8, Tried::Accepted(1)),
        Exchange::Try(9, Tried::Full),
        Exchange::Next(Taken::Value(7)),
        Exchange::Start(9, Begun::Accepted(2)),
        Exchange::Start(10, Begun::Waiting(Ticket(0))),
        Exchange::Next(Taken::Value(8)),
        Exchange::Scan(1),
        Exchange::Poll(Ticket(0), Emit::Done(3)),
        Exchange::Next(Taken::Value(9)),
        Exchange::Next(Taken::Value(10)),
        Exchange::Next(Taken::Nothing),
    ],
    start: 0,
    accepted: 4,
    received: 4,
    dropped: 0,
};

const LOSES_THREE: Life<'_> = Life {
    name: "loses three",
    exchanges: &[
        Exchange::Try(1, Tried::Accepted(0)),
        Exchange::Try(2, Tried::Accepted(1)),
        Exchange::Try(3, Tried::Accepted(2)),
        Exchange::Try(4, Tried::Accepted(3)),
        Exchange::Try(5, Tried::Accepted(4)),
        Exchange::Next(Taken::Value(4)),
        Exchange::Next(Taken::Value(5)),
        Exchange::Next(Taken::Nothing),
    ],
    start: 0,
    accepted: 5,
    received: 2,
    dropped: 3,
};

const BEGINS_AT_THE_CACHE: Life<'_> = Life {
    name: "begins at the cache",
    exchanges: &[Exchange::Next(Taken::Value(5))],
    start: 4,
    accepted: 1,
    received: 1,
    dropped: 0,
};

// A lane, and its sequencer.
fn lane_of(alloc: Global, config: Config) -> Result<(Lane<Global>, Sequencer<Global>), u8>
    ensures { IfOk result (λ made. IsSequencerOf made.0 made.1) }
{
    Lane::new(alloc, config).map_err(|refusal| refusal.number())
}

// A reader in the next free place.
fn admitted(rt: &impl Abort, lane: &Lane<Global>, sequencer: &mut Sequencer<Global>) -> Reader
    requires { IsSequencerOf lane.now sequencer.old }
    ensures { IsSequencerOf lane.now sequencer.new × IsReaderOf lane.now result }
{
    sequencer.admit(lane).expect(rt, "a reader")
}

// Makes a call. Whether it was answered so.
fn is_answered(
    lane: &Lane<Global>,
    sequencer: &mut Sequencer<Global>,
    reader: &mut Reader,
    exchange: &Exchange,
) -> bool
    requires { IsSequencerOf lane.now sequencer.old × IsReaderOf lane.now reader.old }
    ensures { IsSequencerOf lane.now sequencer.new × IsReaderOf lane.now reader.new }
{
    match exchange {
        Exchange::Try(word, answer) => sequencer.try_emit(lane, EMITTER, *word) == Ok(*answer),
        Exchange::Start(word, answer) => sequencer.start_emit(lane, EMITTER, *word) == Ok(*answer),
        Exchange::Scan(answer) => sequencer.scan(lane) == *answer,
        Exchange::Poll(ticket, answer) => sequencer.poll_emit(lane, *ticket) == *answer,
        Exchange::Next(answer) => reader.try_next(lane) == *answer,
    }
}

// How many of the calls, from the first on, were answered as they should be.
fn answered(
    lane: &Lane<Global>,
    sequencer: &mut Sequencer<Global>,
    reader: &mut Reader,
    exchanges: &[Exchange],
) -> usize
    requires { IsSequencerOf lane.now sequencer.old × IsReaderOf lane.now reader.old }
    ensures { IsSequencerOf lane.now sequencer.new × IsReaderOf lane.now reader.new }
{
    let mut count: usize = 0;
    for exchange in exchanges {
        if !is_answered(lane, sequencer, reader, exchange) {
            return count;
        }
        count = count.saturating_add(1);
    }
    count
}

// Lives this life as a new reader: compares the answers, what the reader says of itself, also at its end, and what sequencer and
// reader find when they meet.
fn assert_life(
    rt: &impl Abort,
    lane: &Lane<Global>,
    sequencer: &mut Sequencer<Global>,
    life: &Life<'_>,
)
    requires { IsSequencerOf lane.now sequencer.old }
    ensures { IsSequencerOf lane.now sequencer.new }
{
    let mut reader = admitted(rt, lane, sequencer);
    let count = answered(lane, sequencer, &mut reader, life.exchanges);
    let found = (reader.start(), reader.received(), reader.dropped());
    let Met {
        accepted,
        received,
        dropped,
    } = meet(lane, sequencer, &mut reader);
    let met = (accepted, received, dropped);
    let closed = reader.close(lane);
    let ended = (closed.received(), closed.dropped());
    assert_same(rt, life.name, count, life.exchanges.len());
    assert_same(
        rt,
        life.name,
        found,
        (life.start, life.received, life.dropped),
    );
    assert_same(
        rt,
        life.name,
        met,
        (life.accepted, life.received, life.dropped),
    );
    assert_same(rt, life.name, ended, (life.received, life.dropped));
}

#[test]
fn lane_suspends(rt: HostRuntime) -> Result<(), Fail> {
    let (lane, mut sequencer) = lane_of(rt.alloc(), SUSPENDS)?;
    assert_life(&rt, &lane, &mut sequencer, &WAITS_FOR_ROOM);
    Ok(())
}

#[test]
fn lane_drops_oldest(rt: HostRuntime) -> Result<(), Fail> {
    let (lane, mut sequencer) = lane_of(rt.alloc(), DROPS_OLDEST)?;
    assert_life(&rt, &lane, &mut sequencer, &LOSES_THREE);
    assert_life(&rt, &lane, &mut sequencer, &BEGINS_AT_THE_CACHE);
    Ok(())
}

// A reader takes a place and a value, and leaves the place. While it is there nobody else gets in.
fn assert_place_is_free(
    rt: &impl Abort,
    lane: &Lane<Global>,
    sequencer: &mut Sequencer<Global>,
    word: u64,
)
    requires { IsSequencerOf lane.now sequencer.old }
    ensures { IsSequencerOf lane.now sequencer.new }
{
    assert_same(rt, "readers before", sequencer.live(lane), 0);
    let mut reader = admitted(rt, lane, sequencer);
    assert_same(rt, "readers", sequencer.live(lane), 1);
    assert_same(
        rt,
        "a try",
        sequencer.try_emit(lane, EMITTER, word),
        Ok(Tried::Accepted(word)),
    );
    assert_same(rt, "a value", reader.try_next(lane), Taken::Value(word));
    reader.close(lane);
}

/// Each reader gets the only place, which the one before has left.
#[test]
fn a_place_is_left_and_taken_a_thousand_times(rt: HostRuntime) -> Result<(), Fail> {
    let (lane, mut sequencer) = lane_of(rt.alloc(), SUSPENDS)?;
    for word in 0..1000 {
        assert_place_is_free(&rt, &lane, &mut sequencer, word);
    }
    assert_same(&rt, "readers at the end", sequencer.live(&lane), 0);
    Ok(())
}

/// A sequencer that is told of an end counts that reader no more, at its own lane alone. One that has opened the place again
/// counts the next reader still.
#[test]
fn an_end_is_told(rt: HostRuntime) -> Result<(), Fail> {
    let (lane, mut sequencer) = lane_of(rt.alloc(), SUSPENDS)?;
    let (other_lane, mut other_sequencer) = lane_of(rt.alloc(), SUSPENDS)?;
    let other = admitted(&rt, &other_lane, &mut other_sequencer);
    let mut first = admitted(&rt, &lane, &mut sequencer).close(&lane);
    sequencer.told_end(&lane, &mut first);
    assert_same(&rt, "readers, told", sequencer.live(&lane), 0);
    assert_same(&rt, "of another lane", other_sequencer.live(&other_lane), 1);
    let second = admitted(&rt, &lane, &mut sequencer);
    sequencer.told_end(&lane, &mut first);
    assert_same(&rt, "readers, told again", sequencer.live(&lane), 1);
    second.close(&lane);
    other.close(&other_lane);
    Ok(())
}

// A lane, made once more where memory was refused.
fn made_at_last(alloc: Global, config: Config) -> Result<(Lane<Global>, Sequencer<Global>), Refusal>
    ensures { IfOk result (λ made. IsSequencerOf made.0 made.1) }
{
    match Lane::new(alloc, config) {
        Err(Refusal::NoMemory) => Lane::new(alloc, config),
        made => made,
    }
}

// How many readers a new lane has, and whether it accepts a first value.
fn new_lane(alloc: Global, config: Config) -> Result<(u32, bool), Refusal> {
    let (lane, mut sequencer) = made_at_last(alloc, config)?;
    let live = sequencer.live(&lane);
    let tried = sequencer.try_emit(&lane, EMITTER, 7);
    Ok((live, tried == Ok(Tried::Accepted(0))))
}

/// The one call that takes memory succeeds where memory is there, also under `rt try --test --fail-alloc N` when it is
/// made once more.
#[test]
fn a_lane_is_made_where_memory_is(rt: HostRuntime) {
    for config in [SUSPENDS, DROPS_OLDEST] {
        let said = new_lane(rt.alloc(), config);
        assert_same(&rt, "readers, and whether it accepts", said, Ok((0, true)));
    }
}
