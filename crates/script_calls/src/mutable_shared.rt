//! A shared flow into which a script emits.

ghost use Rattle.script_calls.specs.Calls.{Emissions};

use crate::shared::Shared;
use flow_terms::{Begun, Emit, Refusal, Ticket, Tried, Withdrawn};
use futures::task::Context;

/// A shared flow into which a script emits: Kotlin's `MutableSharedFlow`.
pub trait MutableShared: Shared {
    // What each of these calls does.
    ghost emissions: { Emissions Self };

    /// Emits a value where that can be done at once.
    fn try_emit(&mut self, value: u64) -> Result<Tried<u64>, Refusal>
        ensures { emissions.Tries self.old value result self.new };

    /// Begins an emission. Where it isn't finished at once, a ticket stands for it.
    fn start_emit(&mut self, value: u64) -> Result<Begun<u64, Ticket>, Refusal>
        ensures { emissions.Begins self.old value result self.new };

    /// Where an emission stands.
    fn poll_emit(&mut self, ticket: Ticket, cx: &mut Context<'_>) -> Emit
        ensures { emissions.Polls self.old ticket result self.new };

    /// Gives an emission up.
    fn withdraw(&mut self, ticket: Ticket) -> Withdrawn<u64>
        ensures { emissions.Withdraws self.old ticket result self.new };

    /// Empties the replay cache.
    fn reset(&mut self)
        ensures { emissions.Resets self.old self.new };
}
