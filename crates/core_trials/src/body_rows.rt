//! The ring, a lane, and a shared flow for threads, beside the lists that the ring replaced: call by call, and by blocks, which the
//! lists take one by one.

mod flow_body;
mod list_body;

use crate::core_rows::caches;
use crate::lane_body::{LaneBody, lane_of};
use cold_flow::{Policy, Refusal};
use flow_body::FlowBody;
use futures::test::MockTask;
use list_body::ListBody;
use shared_core::{Call, Config, Next, Prelude, Reply, SharedState, SubId, Ticket};
use std::alloc::{AllocError, AllocGlobal, Global};
use std::process::Abort;
use std::random::RandomSource;
use std::sync::Wait;
use std::test::Fail;

/// How many lists of calls are made on each body, and how many calls each has.
const LISTS: u64 = 10_000;

const CALLS: u64 = 200;

/// How many lists are made on flows with many seats.
const MANY_SEATED: u64 = 3_000;

/// How many values a block has at most: as many as the flow has places.
const MOST: usize = 64;

/// The numbers stay below this.
const LIMIT: u64 = 1 << 62;

/// A body of a shared flow that is tried beside the lists.
pub(crate) trait Body {
    /// Makes one call. No reply where memory was refused.
    fn make(&mut self, call: Call<u64>) -> Option<Reply<u64>>;

    /// How many of these values are accepted at once.
    fn try_all(&mut self, emitter: u32, values: &[u64]) -> Result<u64, Refusal>;

    /// Receives as many values as `out` has room for, which is at least one.
    fn next_all(&mut self, id: SubId, out: &mut Vec<u64>) -> Next<u64>;

    /// Are these the values of the replay cache?
    fn caches(&mut self, values: &[u64]) -> bool;
}

/// The ring, and room for its replies.
#[derive(Drop)]
struct RingBody {
    flow: SharedState<u64>,
    replies: Vec<Reply<u64>>,
}

impl Body for RingBody {
    fn make(&mut self, call: Call<u64>) -> Option<Reply<u64>> {
        self.replies.clear();
        self.flow.run(&[call], &mut self.replies).ok()?;
        self.replies.pop()
    }

    fn try_all(&mut self, emitter: u32, values: &[u64]) -> Result<u64, Refusal> {
        self.flow.try_emit_all(emitter, values)
    }

    fn next_all(&mut self, id: SubId, out: &mut Vec<u64>) -> Next<u64> {
        self.flow.try_next_all(id, out)
    }

    fn caches(&mut self, values: &[u64]) -> bool {
        caches(&self.flow, values)
    }
}

/// Which body is tried beside the lists.
#[derive(Clone, Copy)]
enum Kind {
    Ring,
    Lane,
    Flow,
}

/// Numbers that look random, the same in each run.
#[derive(Drop)]
struct Random {
    state: u64,
    /// A lane has no preludes.
    kind: Kind,
    /// How many subscriptions, and how many tickets, a flow has at most: 64 or fewer.
    seats: u64,
}

impl Random {
    /// A number below the bound.
    fn below(&mut self, bound: u64) -> u64 {
        let mut state = self.state;
        state ^= state.wrapping_shl(13);
        state ^= state >> 7;
        state ^= state.wrapping_shl(17);
        self.state = state;
        (state >> 11) % bound.max(1)
    }

    /// A flow with at most 5 places, or with 64, and a policy that it may have.
    fn config(&mut self) -> Config {
        let capacity = match self.below(8) {
            0 => MOST as u64,
            _ => self.below(6),
        };
        let replay = self.below(capacity.saturating_add(1)).min(capacity);
        let policy = match self.below(3) {
            0 if capacity > 0 => Policy::DropOldest,
            1 if capacity > 0 => Policy::DropLatest,
            _ => Policy::Suspend,
        };
        let first = match self.below(8) {
            0 => LIMIT - self.below(60).min(60),
            _ => self.below(1000),
        };
        Config {
            replay,
            extra: capacity.saturating_sub(replay),
            policy,
            subscribers: (1 + self.below(self.seats).min(63)) as u32,
            emits: (1 + self.below(self.seats).min(63)) as u32,
            first,
        }
    }

    /// A number of which `given` were given from `first` on: mostly one of the latest.
    fn number(&mut self, first: u64, given: u64) -> u64 {
        first.saturating_add(given.saturating_sub(self.below(self.seats.saturating_add(2))))
    }

    fn emitter(&mut self) -> u32 {
        self.below(3).min(2) as u32
    }

    fn subscription(&mut self, body: &ListBody) -> SubId {
        SubId(self.number(body.config.first, body.subscribed))
    }

    fn ticket(&mut self, body: &ListBody) -> Ticket {
        Ticket(self.number(body.config.first, body.given))
    }

    /// How many values a block has, or has room for.
    fn size(&mut self) -> usize {
        match self.below(4) {
            0 => 1,
            1 => 2,
            2 => 3,
            _ => MOST,
        }
    }

    /// A subscription with a prelude of at most three values.
    fn subscribing(&mut self) -> Call<u64> {
        let values = [self.below(1000), self.below(1000), self.below(1000)];
        let count = self.below(4).min(3) as usize;
        match Prelude::of(&values[..count]) {
            Ok(prelude) if !matches!(self.kind, Kind::Lane) => Call::SubscribeWith(prelude),
            _ => Call::Subscribe,
        }
    }

    fn call(&mut self, body: &ListBody) -> Call<u64> {
        match self.below(20) {
            0..=2 => Call::Try(self.emitter(), self.below(1000)),
            3..=6 => Call::Start(self.emitter(), self.below(1000)),
            7..=8 => Call::Poll(self.ticket(body)),
            9 => Call::Withdraw(self.ticket(body)),
            10 => Call::Subscribe,
            11 => self.subscribing(),
            12..=17 => Call::Next(self.subscription(body)),
            18 => Call::Cancel(self.subscription(body)),
            _ => match self.below(2) {
                0 => Call::Reset,
                _ => Call::Count,
            },
        }
    }
}

/// Makes a call on both bodies. Answers whether both reply the same.
fn call_agrees<B: Body>(random: &mut Random, lists: &mut ListBody, body: &mut B) -> bool {
    let call = random.call(lists);
    match lists.make(call) {
        Ok(reply) => body.make(call) == Some(reply),
        Err(_) => false,
    }
}

/// Tries a block of values, which the lists try one by one.
fn tries_agree<B: Body>(random: &mut Random, lists: &mut ListBody, body: &mut B) -> bool {
    let mut values = [0; MOST];
    for value in values.iter_mut() {
        *value = random.below(1000);
    }
    let block = &values[..random.size().min(MOST)];
    body.try_all(random.emitter(), block) == lists.try_each(block)
}

/// Receives a block of so many values at most, which the lists receive one by one.
fn receipts_agree<B: Body>(
    alloc: Global,
    lists: &mut ListBody,
    body: &mut B,
    id: SubId,
    most: usize,
) -> Result<bool, AllocError> {
    let mut wanted = Vec::new(alloc);
    let mut found = Vec::with_capacity(alloc, most)?;
    let answer = lists.next_each(id.0, most, &mut wanted)?;
    let is_answer = body.next_all(id, &mut found) == answer;
    Ok(is_answer && found.as_slice() == wanted.as_slice())
}

/// Makes a list of calls and blocks on both bodies. Answers whether all replies, and what is left at the end, are the same.
fn replies_agree<B: Body>(
    alloc: Global,
    random: &mut Random,
    lists: &mut ListBody,
    body: &mut B,
) -> Result<bool, AllocError> {
    for _ in 0..CALLS {
        let agrees = match random.below(8) {
            0 => tries_agree(random, lists, body),
            1 => {
                let id = random.subscription(lists);
                receipts_agree(alloc, lists, body, id, random.size())?
            }
            _ => call_agrees(random, lists, body),
        };
        if !agrees {
            return Ok(false);
        }
    }
    rest_agrees(alloc, lists, body)
}

/// Whether both have the same replay cache, and each subscription receives the same values that are left.
fn rest_agrees<B: Body>(
    alloc: Global,
    lists: &mut ListBody,
    body: &mut B,
) -> Result<bool, AllocError> {
    if !body.caches(lists.cache.as_slice()) {
        return Ok(false);
    }
    for made in 0..lists.subscribed {
        let id = SubId(lists.config.first.saturating_add(made));
        if !receipts_agree(alloc, lists, body, id, MOST)? {
            return Ok(false);
        }
    }
    Ok(true)
}

/// The ring, and the lists.
fn ring_agrees(alloc: Global, random: &mut Random) -> Result<bool, Fail> {
    let config = random.config();
    let mut ring = RingBody {
        flow: SharedState::new(alloc, config)?,
        replies: Vec::new(alloc),
    };
    let mut lists = ListBody::new(alloc, config);
    Ok(replies_agree(alloc, random, &mut lists, &mut ring)?)
}

/// A lane, and the lists.
fn lane_agrees(alloc: Global, random: &mut Random) -> Result<bool, Fail> {
    let config = random.config();
    let (lane, sequencer) = lane_of(alloc, config)?;
    let mut lists = ListBody::new(alloc, config);
    let mut body = LaneBody::new(alloc, &lane, sequencer, config.first);
    let agrees = replies_agree(alloc, random, &mut lists, &mut body);
    body.end();
    Ok(agrees?)
}

/// A shared flow for threads, and the lists.
fn flow_agrees<R: AllocGlobal + Wait>(
    rt: &R,
    task: &MockTask,
    random: &mut Random,
) -> Result<bool, Fail> {
    let config = random.config();
    let mut lists = ListBody::new(rt.alloc(), config);
    let mut body = FlowBody::new(rt, task, config)?;
    let agrees = replies_agree(rt.alloc(), random, &mut lists, &mut body);
    body.end();
    Ok(agrees?)
}

/// Makes so many lists of calls on flows with so many seats at most.
fn replies_are_the_same<R: AllocGlobal + RandomSource + Wait + Abort>(
    rt: &R,
    kind: Kind,
    seats: u64,
    lists: u64,
) -> Result<(), Fail> {
    let mut random = Random {
        state: 0x9E37_79B9_7F4A_7C15,
        kind,
        seats,
    };
    let task = MockTask::new(rt)?;
    for list in 0..lists {
        let agrees = match kind {
            Kind::Ring => ring_agrees(rt.alloc(), &mut random)?,
            Kind::Lane => lane_agrees(rt.alloc(), &mut random)?,
            Kind::Flow => flow_agrees(rt, &task, &mut random)?,
        };
        assert!(rt; agrees, "list {list}");
    }
    Ok(())
}

#[test]
fn ring_replies_as_the_lists_did(rt: HostRuntime) -> Result<(), Fail> {
    replies_are_the_same(&rt, Kind::Ring, 4, LISTS)
}

// With so many seats, subscriptions and tickets are looked for among many, with gaps between their numbers.
#[test]
fn ring_replies_as_the_lists_did_among_many(rt: HostRuntime) -> Result<(), Fail> {
    replies_are_the_same(&rt, Kind::Ring, 64, MANY_SEATED)
}

#[test]
fn a_lane_replies_as_the_lists_did(rt: HostRuntime) -> Result<(), Fail> {
    replies_are_the_same(&rt, Kind::Lane, 4, LISTS)
}

#[test]
fn a_shared_flow_replies_as_the_lists_did(rt: HostRuntime) -> Result<(), Fail> {
    replies_are_the_same(&rt, Kind::Flow, 4, LISTS)
}
