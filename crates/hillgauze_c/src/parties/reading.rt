//! A lane's reader, with the lane.
ghost use Rattle.std.specs.Prelude.{◌≡◌, ◌+◌, ◌≤◌, ◌++◌, IfOk, drop, length, vec_capacity};
ghost use Rattle.std.specs.Arc.{arc_value};
ghost use Rattle.shared_lane.specs.Readers.{IsReaderOf, IsSameReader, TookNext, received_count, lost_count};
ghost use Rattle.hillgauze_c.specs.LaneCalls.{TookAtOnce};

use shared_lane::{Lane, Reader, Taken};
use std::alloc::{AllocError, Global};
use std::marker::Model;
use std::sync::Arc;

/// A party of a lane that receives, which owns the lane together with the others. It closes its cursor where it is dropped.
///
/// Contracts see the reader.
pub struct Reading {
    lane: Arc<Lane<Global>, Global>,
    reader: Reader,
    // Where values are put that are taken at once.
    block: Vec<u64>,
}

/// How many values it takes at once, at most.
const BLOCK: usize = 64;

/// Room for a block.
pub(super) fn reserved(alloc: Global) -> Result<Vec<u64>, AllocError>
    ensures { IfOk result (λ block. vec_capacity block ≡ 64) }
{
    Vec::with_capacity(alloc, BLOCK)
}

/// Leaves room for so many values, behind what came before, as far as there is any: it isn't looked at again.
fn leave_room(block: &mut Vec<u64>, room: usize)
    requires capacity { vec_capacity block.old ≡ 64 }
    requires within { room ≤ 64 }
    ensures capacity { vec_capacity block.new ≡ 64 }
    ensures room { length block.new.items + room ≡ 64 }
{
    let filled = BLOCK - room;
    block.truncate(filled);
    for _place in block.len()..filled {
        block.push_reserved(0);
    }
}

/// Puts these words at the front of the values.
fn put_first(values: &mut [u64], words: &[u64])
    requires { length words.now ≤ length values.old }
    ensures { values.new ≡ words.now ++ drop (length words.now) values.old }
{
    values[..words.len()].copy_from_slice(words);
}

impl Model for Reading {
    ghost use Rattle.std.specs.Prelude.{◌≡◌, vec_capacity};
    ghost use Rattle.std.specs.Arc.{arc_value};
    ghost use Rattle.shared_lane.specs.Views.{ReaderSeen};
    ghost use Rattle.shared_lane.specs.Readers.{IsReaderOf};

    ghost Value = { ReaderSeen };

    ghost view = { λ r. r.reader };

    ghost invariant = { λ r. IsReaderOf (arc_value r.lane) r.reader × (vec_capacity r.block ≡ 64) };
}

impl Drop for Reading {
    fn drop(self) {
        let Reading {
            lane,
            reader,
            block: _,
        } = self;
        let _closed = reader.close(&lane);
    }
}

impl Reading {
    pub(super) fn over(lane: Arc<Lane<Global>, Global>, reader: Reader, block: Vec<u64>) -> Reading
        requires reader { IsReaderOf (arc_value lane) reader }
        requires block { vec_capacity block ≡ 64 }
        ensures { result ≡ reader }
    {
        Reading {
            lane,
            reader,
            block,
        }
    }

    /// Takes the next value.
    pub fn try_next(&mut self) -> Taken<u64>
        ensures same { IsSameReader self.old self.new }
        ensures taken { TookNext self.old result self.new }
    {
        self.reader.try_next(&self.lane)
    }

    /// Takes the next values, as many as are there and find room, and at most 64, and puts them first in `values`.
    pub fn try_next_all(&mut self, values: &mut [u64]) -> Taken<u64>
        ensures { TookAtOnce values.old values.new self.old result self.new }
    {
        let room = values.len().min(BLOCK);
        leave_room(&mut self.block, room);
        let taken = self.reader.try_next_all(&self.lane, &mut self.block);
        put_first(values, &self.block[BLOCK - room..]);
        taken
    }

    /// The number of the emission at which it began.
    pub fn start(&self) -> u64
        ensures { result ≡ self.now.start }
    {
        self.reader.start()
    }

    /// How many values it received.
    pub fn received(&self) -> u64
        ensures { result ≡ received_count self.now }
    {
        self.reader.received()
    }

    /// How many values were dropped for it, as far as it has seen.
    pub fn dropped(&self) -> u64
        ensures { result ≡ lost_count self.now }
    {
        self.reader.dropped()
    }
}
