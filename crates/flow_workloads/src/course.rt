//! Numbers that come one after another, and what of them a schedule of threads can't change.

use crate::tally::Tally;
use workload_inputs::Digest;

/// How many emit into a flow.
#[derive(Clone, Copy)]
pub(crate) enum Emitters {
    /// All comes in one order, whatever the schedule.
    One,
    /// The schedule decides the order, and whose emission has which number.
    Two,
}

impl Emitters {
    /// How many values come where each emits so many.
    pub(crate) fn together(self, values: u64) -> u64 {
        match self {
            Emitters::One => values,
            Emitters::Two => values.saturating_mul(2),
        }
    }

    /// How many they are.
    pub(crate) fn count(self) -> u32 {
        match self {
            Emitters::One => 1,
            Emitters::Two => 2,
        }
    }
}

/// Numbers that come one after another.
#[derive(Clone, Copy)]
pub(crate) struct Course {
    count: u64,
    /// The sum of them, modulo 2^64, which no order changes.
    sum: u64,
    /// The digest of them in their order.
    ordered: Digest,
}

impl Course {
    /// Of none.
    pub(crate) fn new() -> Course {
        Course {
            count: 0,
            sum: 0,
            ordered: Digest::new(),
        }
    }

    /// A number comes.
    #[inline]
    pub(crate) fn number(&mut self, number: u64) {
        self.count = self.count.wrapping_add(1);
        self.sum = self.sum.wrapping_add(number);
        self.ordered.number(number);
    }

    /// Takes in how many came, and all that so many emitters fix of what they were.
    pub(crate) fn told(&self, tally: &mut Tally, emitters: Emitters) {
        tally.number(self.count);
        match emitters {
            Emitters::One => tally.number(self.ordered.value()),
            Emitters::Two => tally.number(self.sum),
        }
    }

    /// Takes in how many came of either, and the sum of all: what is fixed where the schedule deals them out.
    pub(crate) fn told_with(&self, other: &Course, tally: &mut Tally) {
        tally.number(self.count);
        tally.number(other.count);
        tally.number(self.sum.wrapping_add(other.sum));
    }
}
