//! What a name is of the object that it stands for.

ghost use Rattle.std.specs.Prelude.{◌≡◌};
ghost use Rattle.script_commands.specs.Parts.{subscription_in, emission_in};

use flow_terms::{Begun, Refusal, SubId, Ticket};

/// What a name is of the object that it stands for.
#[derive(Clone, Copy, Debug, PartialEq, Eq)]
pub enum Part {
    /// The object itself.
    Whole,
    /// A subscription of a flow, or a collector of a state.
    Subscription(SubId),
    /// An emission that was given this ticket.
    InFlight(Ticket),
    /// An emission that was accepted or dropped at once.
    Finished,
}

impl Part {
    /// The subscription, or the collector, that was made, if it was.
    pub fn of_subscription(subscribed: Result<SubId, Refusal>) -> Option<Part>
        ensures { result ≡ subscription_in subscribed }
    {
        match subscribed {
            Ok(id) => Some(Part::Subscription(id)),
            Err(_) => None,
        }
    }

    /// The emission that was begun, if it was.
    pub fn of_emission(begun: Result<Begun<u64, Ticket>, Refusal>) -> Option<Part>
        ensures { result ≡ emission_in begun }
    {
        match begun {
            Ok(Begun::Accepted(_) | Begun::Dropped) => Some(Part::Finished),
            Ok(Begun::Waiting(ticket)) => Some(Part::InFlight(ticket)),
            Err(_) => None,
        }
    }
}
