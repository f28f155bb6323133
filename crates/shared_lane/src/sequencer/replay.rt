//! The replay cache.
ghost use Rattle.std.specs.Prelude.{◌≡◌, ◌+◌, ◌-◌, ◌<◌, [], length, map, slice_get, Some};
ghost use Rattle.shared_lane.specs.Caches.{word_of, IsLastOf};
ghost use Rattle.shared_lane.specs.Sequencers.{seen};

use super::Sequencer;
use std::alloc::Allocator;

impl<A: Allocator> Sequencer<A> {
    /// Empties the replay cache: Kotlin's `resetReplayCache`. What a reader has still to read stays.
    pub fn reset_replay(&mut self)
        ensures { self.new ≡ record self.old { cache = [] } }
    {
        self.cache.clear();
    }

    /// How many values the replay cache holds.
    pub fn replay_len(&self) -> u64
        ensures length { result ≡ length self.now.cache }
        ensures latest { IsLastOf (seen self.now) self.now.cache }
    {
        self.cache.len() as u64
    }

    /// The value of the replay cache at an index, counted from the oldest on: one of Kotlin's `replayCache`.
    pub fn replay_at(&self, index: u64) -> u64
        requires { index < length self.now.cache }
        ensures value { slice_get self.now.cache index ≡ Some result }
        ensures accepted { slice_get (map word_of (seen self.now)) (length (seen self.now) - length self.now.cache + index) ≡ Some result }
    {
        *self.cache.get(index as usize).unwrap()
    }
}
