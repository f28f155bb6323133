//! A state, as a script's collectors know it.

ghost use Rattle.script_calls.specs.Calls.{Readings};

use flow_terms::{Next, Refusal, SubId};

/// A state with its collectors, as a script calls it: Kotlin's `StateFlow`. It must be spent, by [`close`](State::close).
pub trait State {
    // What each of these calls does.
    ghost readings: { Readings Self };

    /// The value.
    fn value(&mut self) -> u64
        ensures { readings.Reads self.old result self.new };

    /// A new collector. Refused with 4 or 5.
    fn collect(&mut self) -> Result<SubId, Refusal>
        ensures { readings.Collects self.old result self.new };

    /// The value, where it isn't the last one that this collector was given.
    fn next(&mut self, id: SubId) -> Next<u64>
        ensures { readings.Nexts self.old id result self.new };

    /// Ends a collector, and says whether it collected.
    fn cancel(&mut self, id: SubId) -> bool
        ensures { readings.Cancels self.old id result self.new };

    /// How many collect.
    fn count(&mut self) -> u32
        ensures { readings.Counts self.old result self.new };

    /// Ends the collectors, and lets the state go.
    fn close(self);
}
