//! A lane on one thread, by the calls of a shared flow: what a receipt or an end makes room for is accepted at once.

ghost use Rattle.std.specs.Prelude.{IfOk};
ghost use Rattle.shared_lane.specs.Readers.{IsReaderOf};
ghost use Rattle.shared_lane.specs.Sequencers.{IsSequencerOf};

use crate::body_rows::Body;
use cold_flow::Refusal;
use shared_core::{Call, Config, Next, Reply, SubId};
use shared_lane::{Lane, Reader, Sequencer, Taken};
use std::alloc::Global;

// A lane, and its sequencer.
pub(crate) fn lane_of(
    alloc: Global,
    config: Config,
) -> Result<(Lane<Global>, Sequencer<Global>), u8>
    ensures { IfOk result (λ made. IsSequencerOf made.0 made.1) }
{
    Lane::new(alloc, config).map_err(|refusal| refusal.number())
}

/// A sequencer with its lane.
#[derive(Drop)]
pub(crate) struct Sending<'a> {
    pub(crate) lane: &'a Lane<Global>,
    pub(crate) sequencer: Sequencer<Global>,
    ghost fits: { IsSequencerOf lane.now sequencer },
}

impl<'a> Sending<'a> {
    pub(crate) fn admit(&mut self) -> Result<Listening<'a>, Refusal> {
        let reader = self.sequencer.admit(self.lane)?;
        Ok(Listening {
            lane: self.lane,
            reader,
        })
    }

    // Accepts what waits, as far as there is room.
    fn accept_waiting(&mut self) {
        self.sequencer.scan(self.lane);
    }

    // Makes a call of an emitter, or one of the flow that isn't a subscription's.
    fn make(&mut self, call: Call<u64>) -> Option<Reply<u64>> {
        let (lane, sequencer) = (self.lane, &mut self.sequencer);
        Some(match call {
            Call::Try(emitter, word) => Reply::Tried(sequencer.try_emit(lane, emitter, word)),
            Call::Start(emitter, word) => Reply::Begun(sequencer.start_emit(lane, emitter, word)),
            Call::Poll(ticket) => Reply::Emit(sequencer.poll_emit(lane, ticket)),
            Call::Withdraw(ticket) => Reply::Withdrawn(sequencer.cancel_emit(lane, ticket)),
            Call::Count => Reply::Count(sequencer.live(lane)),
            Call::Reset => {
                sequencer.reset_replay();
                Reply::Reset
            }
            _ => return None,
        })
    }

    fn try_all(&mut self, emitter: u32, words: &[u64]) -> Result<u64, Refusal> {
        self.sequencer.try_emit_all(self.lane, emitter, words)
    }

    fn caches(&self, words: &[u64]) -> bool {
        if self.sequencer.replay_len() != words.len() as u64 {
            return false;
        }
        for (index, word) in words.iter().enumerate() {
            let index = index as u64;
            if index >= self.sequencer.replay_len() || self.sequencer.replay_at(index) != *word {
                return false;
            }
        }
        true
    }
}

/// A reader with its lane.
pub(crate) struct Listening<'a> {
    pub(crate) lane: &'a Lane<Global>,
    pub(crate) reader: Reader,
    ghost fits: { IsReaderOf lane.now reader },
}

// On one thread nobody is overtaken: that is an answer which the lists never give.
fn next_of(taken: Taken<u64>) -> Next<u64> {
    match taken {
        Taken::Value(value) => Next::Value(value),
        Taken::Nothing => Next::Nothing,
        Taken::Overtaken => Next::Closed,
    }
}

impl Listening<'_> {
    fn next(&mut self) -> Next<u64> {
        next_of(self.reader.try_next(self.lane))
    }

    fn next_all(&mut self, out: &mut Vec<u64>) -> Next<u64> {
        next_of(self.reader.try_next_all(self.lane, out))
    }

    // Ends the reader, and says how many words it received or lost.
    pub(crate) fn leave(self) -> u64 {
        let Listening { lane, reader } = self;
        let counted = reader.received().saturating_add(reader.dropped());
        reader.close(lane);
        counted
    }
}

/// A lane with its readers. It must be ended.
pub(crate) struct LaneBody<'a> {
    sending: Sending<'a>,
    /// The number of the first subscription.
    first: u64,
    /// The subscriptions that were made, each while it is live.
    readers: Vec<Option<Listening<'a>>>,
}

impl<'a> LaneBody<'a> {
    pub(crate) fn new(
        alloc: Global,
        lane: &'a Lane<Global>,
        sequencer: Sequencer<Global>,
        first: u64,
    ) -> LaneBody<'a>
        requires { IsSequencerOf lane.now sequencer }
    {
        LaneBody {
            sending: Sending { lane, sequencer },
            first,
            readers: Vec::new(alloc),
        }
    }

    fn subscribe(&mut self) -> Option<Reply<u64>> {
        let number = self.sending.sequencer.next_subscription();
        match self.sending.admit() {
            Ok(listening) => match self.readers.push(Some(listening)) {
                Ok(()) => Some(Reply::Sub(Ok(SubId(number)))),
                Err(refused) => {
                    leave(refused.value);
                    None
                }
            },
            Err(refusal) => Some(Reply::Sub(Err(refusal))),
        }
    }

    // Where the reader of this subscription is, if it was made.
    fn index(&self, id: SubId) -> usize {
        id.0.saturating_sub(self.first) as usize
    }

    fn next(&mut self, id: SubId) -> Next<u64> {
        let index = self.index(id);
        let Some(Some(listening)) = self.readers.get_mut(index) else {
            return Next::Closed;
        };
        let next = listening.next();
        self.sending.accept_waiting();
        next
    }

    fn cancel(&mut self, id: SubId) -> bool {
        let index = self.index(id);
        let Some(place) = self.readers.get_mut(index) else {
            return false;
        };
        let was_live = leave(place.take());
        self.sending.accept_waiting();
        was_live
    }

    /// Ends all readers.
    pub(crate) fn end(self) {
        let LaneBody {
            sending: _,
            first: _,
            readers,
        } = self;
        end_all(readers);
    }
}

fn end_all(mut readers: Vec<Option<Listening<'_>>>) {
    while let Some(place) = readers.pop() {
        leave(place);
    }
    readers.destroy_empty();
}

// Ends a reader that is live. Answers whether it was.
fn leave(place: Option<Listening<'_>>) -> bool {
    match place {
        Some(listening) => {
            let _counted = listening.leave();
            true
        }
        None => false,
    }
}

impl Body for LaneBody<'_> {
    fn make(&mut self, call: Call<u64>) -> Option<Reply<u64>> {
        match call {
            Call::Subscribe => self.subscribe(),
            Call::Next(id) => Some(Reply::Next(self.next(id))),
            Call::Cancel(id) => Some(Reply::Cancelled(self.cancel(id))),
            _ => self.sending.make(call),
        }
    }

    fn try_all(&mut self, emitter: u32, values: &[u64]) -> Result<u64, Refusal> {
        self.sending.try_all(emitter, values)
    }

    // What the values of one block make room for may be in the next.
    fn next_all(&mut self, id: SubId, out: &mut Vec<u64>) -> Next<u64> {
        let index = self.index(id);
        let Some(Some(listening)) = self.readers.get_mut(index) else {
            return Next::Closed;
        };
        let mut taken: u64 = 0;
        for _ in 0..out.capacity() {
            match listening.next_all(out) {
                Next::Value(count) if count > 0 => taken = taken.saturating_add(count),
                none if taken == 0 => return none,
                _ => break,
            }
            self.sending.accept_waiting();
        }
        Next::Value(taken)
    }

    fn caches(&mut self, values: &[u64]) -> bool {
        self.sending.caches(values)
    }
}
