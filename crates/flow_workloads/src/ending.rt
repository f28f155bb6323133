//! What must be ended.

use crate::tally::Tally;
use std::sync::Wait;

/// What must be ended.
pub(crate) trait Ends {
    /// It ends. What is to be told of that is taken in.
    fn end<R: Wait>(self, rt: &R, tally: &mut Tally);
}

/// Each of these is ended, the last one first.
pub(crate) fn end_all<R: Wait, E: Ends>(rt: &R, mut all: Vec<E>, tally: &mut Tally) {
    while let Some(one) = all.pop() {
        one.end(rt, tally);
    }
    all.destroy_empty();
}
