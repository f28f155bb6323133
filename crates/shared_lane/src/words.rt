//! The words of a lane, in a table: where each lies. The steps on them are in `lane.rt` and `reader.rt`.
//!
//! ```text
//! word   0               D               2 D                    D places        D (1 + places)
//!      [ tail | unused | cursor 0 | .. | cursor 1 | .. ..  .. | last cursor | .. | cell 0 | cell 1 | .. ]
//! ```
//!
//! The tail and each cursor have `D` words to themselves ([`DISTANCE`]), since different threads write them. The cells
//! are written by the sequencer alone, in order, and lie side by side.
ghost use Rattle.std.specs.Prelude.{◌≡◌, ℕ, ◌<◌, ◌≤◌, ◌+◌, length, slice_index, IfOk};
ghost use Rattle.shared_lane.specs.Layout.{tail_word, cursor_word, cell_index, cell_word, width};
ghost use Rattle.shared_lane.specs.Law.{closed, IsShape};

use crate::rule::LaneRule;
use crate::view::{Shape, View};
use atomic_table::Table;
use std::alloc::{AllocError, Allocator};

/// The word of a closed cursor.
pub const CLOSED: u64 = u64::MAX;

/// How many words lie from one cursor to the next, and from the tail to the first: two cache lines of 64 bytes, since a
/// processor fetches lines in pairs. docs/BENCHMARKS.md has what other distances cost.
pub const DISTANCE: usize = 16;

#[derive(Drop)]
pub struct Words<A: Allocator> {
    pub table: Table<(), View, Shape, LaneRule, A>,
    pub shape: Shape,
    pub ghost tail_inside: { tail_word < table.shared.table_id.words },
    pub ghost shaped: { (table.shared.key ≡ shape) × (table.shared.table_id.words ≡ width shape) × IsShape shape },
}

/// How many words a table of this shape has.
#[tactic(auto, unfolding(crate::specs::Layout::width))]
fn word_count(shape: &Shape) -> usize
    requires { (shape.now.cells ≤ 65536) × (shape.now.places ≤ 1024) }
    ensures { result ≡ width shape.now }
{
    DISTANCE + DISTANCE * shape.places + shape.cells
}

#[tactic(auto, using(crate::proofs::Apart::tail_within))]
pub(crate) fn lay<A: Allocator + Clone>(alloc: A, shape: Shape) -> Result<Vec<u64, A>, AllocError>
    requires { IsShape shape }
    ensures sized { IfOk result (λ ws. length ws.items ≡ width shape) }
    ensures tail { IfOk result (λ ws. slice_index ws.items tail_word ≡ shape.first) }
    ensures cursors { IfOk result (λ ws. (p : ℕ) → p < shape.places → slice_index ws.items (cursor_word p) ≡ closed) }
{
    let mut words = Vec::from_elem(alloc, CLOSED, word_count(&shape))?;
    words[0] = shape.first;
    Ok(words)
}

/// The word of a place's cursor.
#[tactic(auto, unfolding(crate::specs::Layout::cursor_word))]
pub(crate) fn cursor_at(place: usize) -> usize
    requires { place < 1024 }
    ensures { result ≡ cursor_word place }
{
    DISTANCE + DISTANCE * place
}

/// The word of the cell at an index, which is that of each number with this index.
#[tactic(auto, unfolding(crate::specs::Layout::cell_word))]
pub(crate) fn cell_at(shape: &Shape, cell: usize) -> usize
    requires cell { cell < shape.now.cells }
    requires sized { (shape.now.cells ≤ 65536) × (shape.now.places ≤ 1024) }
    ensures { (n : ℕ) → cell ≡ cell_index shape.now n → result ≡ cell_word shape.now n }
{
    DISTANCE + DISTANCE * shape.places + cell
}

/// The index of a number's cell, by a division.
#[tactic(auto, unfolding(crate::specs::Layout::cell_index))]
fn index_in(shape: &Shape, number: u64) -> usize
    requires { (0 < shape.now.cells) × (shape.now.cells ≤ 65536) }
    ensures { result ≡ cell_index shape.now number }
{
    (number % shape.cells as u64) as usize
}

/// The index after one, which is that of the next number's cell.
fn index_after(shape: &Shape, cell: usize) -> usize
    requires { 0 < shape.now.cells }
    ensures { (n : ℕ) → cell ≡ cell_index shape.now n → result ≡ cell_index shape.now (n + 1) }
{
    if cell >= shape.cells - 1 {
        return 0;
    }
    cell + 1
}

// The cell of a number is found.
impl<A: Allocator> Words<A> {
    /// The index of a number's cell, by a division.
    #[inline]
    pub fn index_of(&self, number: u64) -> usize
        ensures { result ≡ cell_index self.now.shape number }
    {
        index_in(&self.shape, number)
    }

    /// The index of a number's cell, where that of `from` is known: without a division where both numbers are one.
    #[inline]
    pub fn index_from(&self, from: u64, cell: usize, number: u64) -> usize
        requires { cell ≡ cell_index self.now.shape from }
        ensures { result ≡ cell_index self.now.shape number }
    {
        if number == from {
            return cell;
        }
        self.index_of(number)
    }

    /// The index of the next number's cell, which is counted up.
    #[inline]
    pub fn next_index(&self, cell: usize) -> usize
        ensures { (n : ℕ) → cell ≡ cell_index self.now.shape n → result ≡ cell_index self.now.shape (n + 1) }
    {
        index_after(&self.shape, cell)
    }
}
