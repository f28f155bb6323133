//! A state that a script sets.

ghost use Rattle.script_calls.specs.Calls.{Settings};

use crate::state::State;

/// A state that a script sets: Kotlin's `MutableStateFlow`.
pub trait MutableState: State {
    // What each of these calls does.
    ghost settings: { Settings Self };

    /// Sets the value.
    fn set(&mut self, value: u64)
        ensures { settings.Sets self.old value self.new };

    /// Sets the value to `update` where it is equal to `expect`, and says whether it was.
    fn compare_and_set(&mut self, expect: u64, update: u64) -> bool
        ensures { settings.Compares self.old expect update result self.new };
}
