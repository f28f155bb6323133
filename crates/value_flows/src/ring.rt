//! What lies under the lock.
ghost use Rattle.std.specs.Prelude.{◌≡◌, ◌+◌, ◌-◌, ◌<◌, ◌≤◌, [], length, slice_get, Some, IfOk, IsTrue, ◌↔◌, is_none};
ghost use Rattle.std.specs.List.{position};
ghost use Rattle.value_flows.specs.Making.{places};
ghost use Rattle.value_flows.specs.Does.{IsMadeWith, Enters, HaveRoom, Stands, moved, cache_start, oldest_of, with_value};

use crate::config::Config;
use crate::cursors::Cursors;
use circular_buffer::HeapCircularBuffer;
use flow_terms::Policy;
use std::alloc::{AllocError, Global};

/// The latest accepted values of a flow. Each is kept once, whoever has still to receive it, and is let go as a later one needs its
/// place.
///
/// ```text
///            let go      |  values: three places  |
///                        +-------+-------+--------+
/// number     0   1   2   |   3   |   4   |   5    |   6  next
///                        +-------+-------+--------+
/// cached                         |<----- 2 ----->|        for a subscription that comes now
/// cursors                                        ^        one has value 5 pending
///                        ^                                another has all three, so it has no place free
/// ```
///
/// Where that one is to receive each value, the next emission has to wait, or is dropped; else value 3 is let go for it.
#[derive(Drop)]
pub struct Ring<T> {
    /// The latest accepted values, the oldest first.
    pub values: HeapCircularBuffer<T>,
    /// The number of the next emission: how many were accepted.
    pub next: u64,
    /// How many of the latest values a new subscription gets.
    pub replay: u64,
    /// It gets none before this number.
    pub forgotten: u64,
    /// Where the subscriptions stand.
    pub cursors: Cursors,
    /// What happens to an emission where one has no place free.
    pub policy: Policy,
}

/// What is open to an emission.
#[derive(Clone, Copy)]
pub(crate) enum Entrance {
    /// It is accepted.
    Open,
    /// It is dropped.
    Dropped,
    /// It has to wait.
    Full,
}

/// Where a subscription stands.
#[derive(Clone, Copy)]
pub(crate) enum Standing {
    /// Its next value is there.
    There,
    /// So many values from its next one on were let go.
    Behind(u64),
    /// Its next value isn't accepted yet.
    Nothing,
}

impl<T> Ring<T> {
    /// An empty ring, with memory for all that it will hold.
    pub(crate) fn new(alloc: Global, config: &Config) -> Result<Ring<T>, AllocError>
        requires few { places config.now ≤ 65536 }
        ensures { IfOk result (IsMadeWith config.now) }
    {
        let cursors = Cursors::new(alloc, config.subscribers as usize)?;
        let values = HeapCircularBuffer::with_capacity(
            alloc,
            (config.replay + config.extra) as usize,
        )?;
        Ok(Ring {
            values,
            next: 0,
            replay: config.replay,
            forgotten: 0,
            cursors,
            policy: config.policy,
        })
    }

    /// The number of the oldest value that is kept, or where there is none, of the next one.
    pub(crate) fn oldest(&self) -> u64
        requires { length self.now.values.items ≤ self.now.next }
        ensures { result ≡ oldest_of self.now }
    {
        self.next - self.values.len() as u64
    }

    /// The number of the first value of a subscription that comes now.
    pub(crate) fn cache_start(&self) -> u64
        ensures { result ≡ cache_start self.now }
    {
        let start = self.next.saturating_sub(self.replay);
        if self.forgotten <= start {
            start
        } else {
            self.forgotten
        }
    }

    /// Where a subscription stands whose next value has this number.
    pub(crate) fn standing(&self, number: u64) -> Standing
        requires { length self.now.values.items ≤ self.now.next }
        ensures { Stands self.now number result }
    {
        if self.next <= number {
            return Standing::Nothing;
        }
        let oldest = self.oldest();
        if number < oldest {
            return Standing::Behind(oldest - number);
        }
        Standing::There
    }

    /// The value with this number, which is kept.
    pub(crate) fn value(&self, number: u64) -> &T
        requires count { length self.now.values.items ≤ self.now.next }
        requires kept { (oldest_of self.now ≤ number) × (number < self.now.next) }
        ensures { slice_get self.now.values.items (number - oldest_of self.now) ≡ Some result.now }
    {
        let index = (number - self.oldest()) as usize;
        self.values.get(index).unwrap()
    }

    /// What is open to an emission.
    pub(crate) fn entrance(&self) -> Entrance
        ensures { Enters self.now result }
    {
        match self.policy {
            Policy::DropOldest => Entrance::Open,
            Policy::Suspend => {
                if self.have_room() {
                    return Entrance::Open;
                }
                Entrance::Full
            }
            Policy::DropLatest => {
                if self.have_room() {
                    return Entrance::Open;
                }
                Entrance::Dropped
            }
        }
    }

    // Whether each subscription has a place free.
    fn have_room(&self) -> bool
        ensures { IsTrue result ↔ HaveRoom self.now }
    {
        self.cursors
            .have_room(self.next, self.values.capacity() as u64)
    }

    /// The first free place of a subscription, if there is one.
    pub(crate) fn free_place(&self) -> Option<usize>
        ensures { result ≡ position is_none self.now.cursors }
    {
        self.cursors.free()
    }

    /// Moves the place of a subscription.
    pub(crate) fn move_to(&mut self, place: usize, cursor: Option<u64>)
        ensures { self.new ≡ moved place cursor self.old }
    {
        self.cursors.move_to(place, cursor);
    }

    /// Empties the replay cache: it begins at the next value.
    pub(crate) fn forget(&mut self)
        ensures { self.new ≡ record self.old { forgotten = self.old.next } }
    {
        self.forgotten = self.next;
    }

    /// Keeps the next value, and hands back the oldest one where its place was needed.
    pub(crate) fn accept(&mut self, value: T, next: u64) -> Option<T>
        requires { next ≡ self.old.next + 1 }
        ensures { self.new ≡ with_value value self.old }
    {
        self.next = next;
        self.values.push_back(value)
    }
}
