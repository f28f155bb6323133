//! A list of few values.

/// How many places a list has: it holds 64 values and the one that comes before the oldest of the cache goes, and has as many places
/// again, so that its values are moved to the front now and then alone.
const MOST: usize = 130;

/// A list of values, the oldest first.
#[derive(Clone, Copy)]
pub struct Queue {
    values: [u64; MOST],
    /// Where the oldest value is.
    start: usize,
    len: usize,
}

impl Queue {
    pub(crate) fn new() -> Queue {
        Queue {
            values: [0; MOST],
            start: 0,
            len: 0,
        }
    }

    pub(crate) fn len(&self) -> usize {
        self.len
    }

    /// Its values.
    pub(crate) fn as_slice(&self) -> &[u64] {
        let end = self.start.saturating_add(self.len);
        self.values.get(self.start..end).unwrap_or(&[])
    }

    /// Adds a value. One for which there is no room is missed when it should be received.
    pub(crate) fn push(&mut self, value: u64) {
        if self.start.saturating_add(self.len) == MOST {
            self.values.rotate_left(self.start.min(MOST));
            self.start = 0;
        }
        if let Some(place) = self.values.get_mut(self.start.saturating_add(self.len)) {
            *place = value;
            self.len = self.len.saturating_add(1);
        }
    }

    /// Takes the oldest value.
    pub(crate) fn pop(&mut self) -> Option<u64> {
        if self.len == 0 {
            return None;
        }
        let oldest = *self.values.get(self.start)?;
        self.start = self.start.saturating_add(1);
        self.len = self.len.saturating_sub(1);
        Some(oldest)
    }
}
