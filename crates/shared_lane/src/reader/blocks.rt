//! A reader takes several values at once.
ghost use Rattle.std.specs.Prelude.{◌≡◌, ◌-◌, ℕ, List, ◌++◌, length, map, min, vec_capacity, ◌+◌, ◌≤◌, [], vec_len, true};
ghost use Rattle.shared_lane.specs.Readers.{IsReaderOf, IsSameReader};
ghost use Rattle.shared_lane.specs.Picks.{TookAllInto, with_picked};
ghost use Rattle.shared_lane.specs.Layout.{cell_index};
ghost use Rattle.shared_lane.specs.Seats.{IsSeatOf, IsSameSeat};
ghost use Rattle.shared_lane.specs.Steps.{position, next_number};

use super::{Reader, Taken};
use crate::lane::Lane;
use crate::rule::LaneSeat;
use crate::words::Words;
use flow_terms::Word;
use std::alloc::Allocator;

impl Reader {
    /// Takes all values that are there, as many as `out` has room for, and appends them, each read from its word: a load of its
    /// cursor and of the tail, a load of each word, and one exchange for all of them. It takes no memory.
    ///
    /// `Value` says how many: none, where `out` has no room. `Nothing` and `Overtaken` as [`try_next`](Reader::try_next) answers
    /// them; then nothing was received, and `out` is as it was.
    pub fn try_next_all<T: Word, A: Allocator, B: Allocator>(
        &mut self,
        lane: &Lane<A>,
        out: &mut Vec<T, B>,
    ) -> Taken<u64>
        requires { IsReaderOf lane.now self.old }
        ensures has { TookAllInto T.read_as out.old out.new self.old result self.new }
        ensures same { IsReaderOf lane.now self.new × IsSameReader self.old self.new }
        ensures capacity { vec_capacity out.new ≡ vec_capacity out.old }
    {
        let words = lane.words();
        let at = words.load_own(&mut self.seat, self.place);
        let cell = words.index_from(self.at, self.cell, at);
        self.at = at;
        self.cell = cell;
        let tail = words.load_tail(&mut self.seat);
        if tail == at {
            return Taken::Nothing;
        }
        let before = out.len();
        let count = (tail - at).min((out.capacity() - before) as u64);
        let next = pick_words(words, &mut self.seat, cell, count, out);
        let found = words.receive_picked(&mut self.seat, self.place, at, count);
        if found != at {
            out.truncate(before);
            self.at = found;
            self.cell = words.index_of(found);
            return Taken::Overtaken;
        }
        self.at = at + count;
        self.cell = next;
        self.taken += count;
        Taken::Value(count)
    }
}

/// Loads the cells of so many numbers from the reader's position on, which begin at the index `cell`, appends the values of
/// their words to `out`, which has room for them, and returns the index of the cell after them.
pub(crate) fn pick_words<T: Word, A: Allocator, B: Allocator>(
    words: &Words<A>,
    seat: &mut LaneSeat,
    cell: usize,
    count: u64,
    out: &mut Vec<T, B>,
) -> usize
    requires seat { IsSeatOf words.now seat.old × (seat.old.me.0.reading.active ≡ true) × (seat.old.me.0.reading.picked ≡ []) }
    requires cell { cell ≡ cell_index words.now.shape (position seat.old.me.0.reading) }
    requires there { position seat.old.me.0.reading + count ≤ next_number seat.old.me.0 }
    requires room { length out.old.items + count ≤ vec_capacity out.old }
    ensures seat { IsSameSeat seat.old seat.new }
    ensures picked { (xs : List ℕ) × (length xs ≡ count) × (out.new.items ≡ out.old.items ++ map T.read_as xs) × (seat.new.me.0 ≡ with_picked words.now.shape xs seat.old.me.0) }
    ensures cell { result ≡ cell_index words.now.shape (position seat.old.me.0.reading + count) }
    ensures capacity { vec_capacity out.new ≡ vec_capacity out.old }
{
    let mut next = cell;
    for _picked in 0..count {
        let word = words.load_next_cell(seat, next);
        out.push_reserved(T::from_word(word));
        next = words.next_index(next);
    }
    next
}
