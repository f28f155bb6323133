//! What the proofs know of each side of a buffer between two threads. No value of these types is made.

use cold_flow::Cause;
use std::collections::LinkedList;

/// What became of a produced value.
pub enum Fate {
    /// It was given to the collector.
    Taken,
    /// It lies in the buffer.
    Stored,
    /// The policy dropped it.
    Dropped,
}

/// What a feed learns where it puts a value in.
pub struct Level {
    /// How many it has put in.
    pub puts: u64,
    /// How many the channel held then, less one where the feed took one out itself since.
    pub held: u64,
}

/// What one side knows.
pub struct Side<T, E> {
    /// May it send?
    pub feeds: bool,
    /// May it receive as the drain does?
    pub drains: bool,
    /// May values be dropped?
    pub lossy: bool,
    /// The feed's: the end that it sent.
    pub sent: Option<Cause<E>>,
    /// The feed's: every produced value, and whether it was dropped.
    pub produced: LinkedList<(bool, T)>,
    /// The feed's: what it learned with the last value that it put in.
    pub level: Level,
    /// The drain's: the end that it received.
    pub got: Option<Cause<E>>,
    /// The drain's: every taken value with its index.
    pub taken: LinkedList<(u64, T)>,
    /// The drain's, once it has the end: what became of every produced value.
    pub history: LinkedList<(Fate, T)>,
    /// The drain's: how many values had been put in when it last took one.
    pub seen: u64,
}
