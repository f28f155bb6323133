//! The replay cache.

ghost use Rattle.std.specs.Prelude.{◌≡◌, ◌<◌, length, slice_get};
ghost use Rattle.shared_core.specs.Flow.{cache};
ghost use Rattle.shared_core.specs.Calls as calls;
ghost use Rattle.shared_core.specs.Shown.{Leaves, Reads};

use crate::state::SharedState;

impl<T: Copy> SharedState<T> {
    /// Empties the replay cache: Kotlin's `resetReplayCache`. Live subscriptions keep what they have pending.
    pub fn reset_replay(&mut self)
        ensures { Leaves calls.reset self.old self.new }
    {
        self.ring.reset();
    }

    /// How many values the replay cache holds: the size of Kotlin's `replayCache`.
    pub fn replay_len(&self) -> u64
        ensures count { result ≡ length self.now.cache }
        ensures shows { Reads (λ M. length (cache M)) self.now result }
    {
        self.ring.replay_len() as u64
    }

    /// A value of Kotlin's `replayCache`, by its index from the oldest one on.
    pub fn replay_at(&self, index: u64) -> T
        requires { index < length self.now.cache }
        ensures value { slice_get self.now.cache index ≡ Some result }
        ensures shows { Reads (λ M. slice_get (cache M) index) self.now (Some result) }
    {
        self.ring.replay_at(index as usize)
    }
}
