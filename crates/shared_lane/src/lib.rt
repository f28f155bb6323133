//! A shared flow on atomic words: one sequencer accepts emissions, and any number of readers take them, each on its own
//! thread, without a lock.
//!
//! # A lane
//! [`Lane::new`] gives the lane and its [`Sequencer`]. The lane is shared by reference; the sequencer is the one party that
//! accepts emissions, keeps the replay cache, and admits readers. A [`Reader`] takes every accepted value from its start on,
//! once, in order. Its start is the oldest value of the replay cache, as it was when it was admitted
//! ([`admit`](Sequencer::admit)).
//!
//! # The picture
//! ```text
//!          oldest value that is kept          the cell in flight: stored, not yet accepted
//!             |                                  |
//!   cells   [ 36 | 37 | 38 | 39 | 40 | 41 ]    [ 42 ]
//!                  ^         \_________/ ^        ^
//!                  |          replay     |        tail: the next emission's number
//!   cursors     slowest        cache   fastest
//!               reader                 reader
//! ```
//! An emission is one pass over the cursors, one store of its value and one store of the tail. A receipt is a load of the
//! reader's cursor, a load of the tail, a load of the value and one exchange of the cursor. Nothing else, and nothing
//! allocates after making.
//!
//! # By the block
//! [`try_emit_all`](Sequencer::try_emit_all) emits many words: one pass over the cursors says for how many there is room, their
//! cells are stored, and one store of the tail accepts them all. [`try_next_all`](Reader::try_next_all) takes what is there: the
//! cells from the reader's position on are loaded, and one exchange of its cursor receives them all. Tail and cursors are what
//! threads hand each other, so they go to and fro once for a block.
//!
//! # What a slow reader meets
//! The cells are as many as `replay + extra`, at least one. Where an open cursor stands that far behind the tail there is no
//! room: under `Suspend` a try is `Full` and an emission waits, with a ticket, until a [`scan`](Sequencer::scan) (which each
//! try and each start makes first) finds room; under `DropLatest` the new value is dropped; under `DropOldest` the sequencer
//! moves that cursor past its oldest value, and the reader, where it was just about to take it, answers
//! [`Overtaken`](Taken::Overtaken).
//!
//! # What a closed reader loses
//! [`close`](Reader::close) uses the reader up: what was pending is given up, its place can be used again, and it holds
//! nobody back. It answers what became of the reader ([`Closed`]), and the sequencer can be told of it
//! ([`told_end`](Sequencer::told_end)).
//!
//! # Who knows what
//! A reader has seen the accepted emissions as they were at its last load of the tail. A [`Receipt`] carries what was
//! accepted up to one emission to another thread: a reader that is [told](Reader::told) it has seen that emission. [`meet`]
//! is for one thread that has both ends: the counts are exact then.
//!
//! # An example
//! ```
//! let (lane, mut sequencer) = Lane::new(alloc, config)?;
//! let mut reader = sequencer.admit(&lane)?;
//! sequencer.try_emit(&lane, 0, 7)?;
//! let taken = reader.try_next(&lane);        // Taken::Value(7)
//! reader.close(&lane);
//! ```
//!
//! # What is not claimed
//! That an emission which waits is ever accepted, that a reader ever finds what another thread emitted, an order between
//! parties that never met, fairness, wakes: nobody sleeps here.
#![tactic(auto)]

mod closed;
mod ends;
mod headline;
mod lane;
mod plays;
mod promises;
mod reader;
mod receipt;
mod rule;
mod sequencer;
mod tickets;
mod view;
mod words;

pub use closed::Closed;
pub use ends::ended_reader_is_counted_no_more;
pub use headline::{
    accepting_together_is_accepting_each, each_reader_receives_cache_then_later,
    taking_all_is_taking_each,
};
pub use lane::Lane;
pub use promises::{closed_cursors_stay, unread_values_stay};
pub use reader::{Met, Reader, Taken, look, meet};
pub use receipt::Receipt;
pub use sequencer::Sequencer;
pub use tickets::{Standing, Waiting};
pub use view::{Known, Reading, Sequencing, Shape, View};
