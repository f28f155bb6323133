//! The sharing of a source.

ghost use Rattle.script_calls.specs.Calls.{Turns};

use crate::ticked::Ticked;
use futures::task::Context;

/// The sharing of a source, which a script tells the time: it feeds what Kotlin's `shareIn` or `stateIn` gives. It must be spent, by
/// [`close`](SharedSource::close).
pub trait SharedSource {
    // What a tick does.
    ghost turns: { Turns Self };

    /// One poll of the sharing, at this moment in milliseconds.
    fn tick(&mut self, now: u64, cx: &mut Context<'_>) -> Ticked
        ensures { turns.Ticks self.old now result self.new };

    /// Ends the sharing.
    fn close(self);
}
