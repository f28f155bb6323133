//! The ends of a lane, each with its lane: so many readers lie in a list, and threads are lent them.

ghost use Rattle.shared_lane.specs.Readers.{IsReaderOf};
ghost use Rattle.shared_lane.specs.Sequencers.{IsSequencerOf};

use crate::fan_out::{InOrder, ReadsBlocks};
use crate::sides::{Admits, Emits, EmitsBlocks, Ends, Feeds};
use cold_flow::Refusal;
use shared_core::Tried;
use shared_lane::{Lane, Reader, Sequencer, Taken};
use std::alloc::{AllocGlobal, Global};
use std::random::RandomSource;
use std::sync::Wait;

/// A sequencer with its lane.
#[derive(Drop)]
pub(crate) struct LaneSequencer<'a> {
    lane: &'a Lane<Global>,
    sequencer: Sequencer<Global>,
    ghost fits: { IsSequencerOf lane.now sequencer },
}

/// A reader with its lane.
pub(crate) struct LaneReader<'a> {
    lane: &'a Lane<Global>,
    reader: Reader,
    /// How many values came to it in order.
    pub(crate) in_order: u64,
    // Between two readers in a list, so that those of two threads share no cache line.
    _apart: [u64; 16],
    ghost fits: { IsReaderOf lane.now reader },
}

impl<'a> LaneSequencer<'a> {
    pub(crate) fn of(lane: &'a Lane<Global>, sequencer: Sequencer<Global>) -> LaneSequencer<'a>
        requires { IsSequencerOf lane.now sequencer }
    {
        LaneSequencer { lane, sequencer }
    }

    fn try_admit(&mut self) -> Result<LaneReader<'a>, Refusal> {
        let reader = self.sequencer.admit(self.lane)?;
        Ok(LaneReader {
            lane: self.lane,
            reader,
            in_order: 0,
            _apart: [0; 16],
        })
    }

    /// The number of the next emission.
    pub(crate) fn next_number(&self) -> u64 {
        self.sequencer.next_number()
    }
}

impl Emits for LaneSequencer<'_> {
    #[inline]
    fn emit<R: Wait>(&mut self, _rt: &R, value: u64) -> bool {
        matches!(
            self.sequencer.try_emit(self.lane, 0, value),
            Ok(Tried::Accepted(_))
        )
    }
}

impl EmitsBlocks for LaneSequencer<'_> {
    #[inline]
    fn emit_block<R: Wait>(&mut self, _rt: &R, block: &[u64]) -> u64 {
        let accepted = self.sequencer.try_emit_all(self.lane, 0, block);
        accepted.unwrap_or(0)
    }
}

impl Feeds for LaneSequencer<'_> {
    #[inline]
    fn feed<R: Wait>(&mut self, rt: &R, next: u64, _end: u64) -> u64 {
        u64::from(self.emit(rt, next))
    }
}

impl<'a> Admits<LaneReader<'a>> for LaneSequencer<'a> {
    fn admit<R: AllocGlobal + RandomSource + Wait>(&mut self, _rt: &R) -> Option<LaneReader<'a>> {
        self.try_admit().ok()
    }
}

impl LaneReader<'_> {
    #[inline]
    pub(crate) fn try_next(&mut self) -> Taken<u64> {
        self.reader.try_next(self.lane)
    }

    pub(crate) fn received(&self) -> u64 {
        self.reader.received()
    }

    pub(crate) fn dropped(&self) -> u64 {
        self.reader.dropped()
    }
}

impl ReadsBlocks for LaneReader<'_> {
    #[inline]
    fn read_block<R: Wait>(&mut self, _rt: &R, block: &mut Vec<u64>) {
        let _taken = self.reader.try_next_all(self.lane, block);
    }
}

impl Ends for LaneReader<'_> {
    fn end<R: Wait>(self, _rt: &R) {
        let LaneReader {
            lane,
            reader,
            in_order: _,
            _apart: _,
        } = self;
        reader.close(lane);
    }
}

impl InOrder for LaneReader<'_> {
    fn in_order(&self) -> u64 {
        self.in_order
    }
}
