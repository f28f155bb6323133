//! The places that names stand for.

ghost use Rattle.std.specs.Prelude.{◌≡◌};

use flow_terms::{SubId, Ticket};

/// The name of what stands at this place among all that were made.
pub fn id_at(place: usize) -> SubId
    ensures { result.0 ≡ place }
{
    SubId(place as u64)
}

/// The place that this name stands for.
pub fn place_of(id: SubId) -> usize
    ensures { result ≡ id.0 }
{
    id.0 as usize
}

/// The ticket of what stands at this place among all that had to wait.
pub fn ticket_at(place: usize) -> Ticket
    ensures { result.0 ≡ place }
{
    Ticket(place as u64)
}

/// The place that this ticket stands for.
pub fn emission_of(ticket: Ticket) -> usize
    ensures { result ≡ ticket.0 }
{
    ticket.0 as usize
}
