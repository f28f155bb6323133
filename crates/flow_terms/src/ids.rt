//! The numbers by which callers name a subscription and an emission in flight.

/// The number of a subscription, counted up from `first`.
#[derive(Clone, Copy, Debug, PartialEq, Eq)]
pub struct SubId(pub u64);

/// The number of a ticket, which stands for an emission that wasn't finished at once. Counted up from `first`.
#[derive(Clone, Copy, Debug, PartialEq, Eq)]
pub struct Ticket(pub u64);
