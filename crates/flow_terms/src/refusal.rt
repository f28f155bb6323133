//! Why a call is refused.

ghost use Rattle.std.specs.Prelude.{◌≡◌};
ghost use Rattle.flow_terms.specs.Refusals.{number_of};
ghost use Rattle.flow_terms.specs.declared.refusal.Refusal.TheVariants.{NoMemory};

use std::alloc::{AllocError, AllocFailed};
use thiserror::Error;

/// Why a call was refused. A call says in its own documentation which of these it may answer, and in which order.
///
/// It can be shown, and is an error, so `?` brings it out of a `main`.
#[derive(Clone, Copy, Debug, PartialEq, Eq, Error)]
pub enum Refusal {
    /// The capacity of a flow or a buffer is over 65,536.
    #[error("a capacity is over 65,536")]
    TooLarge,
    /// A policy that drops values wants a flow with a capacity above 0.
    #[error("a policy that drops values needs a capacity above 0")]
    PolicyNeedsBuffer,
    /// Subscribers, emissions in flight or seats are 0 or over 1,024, or the first number is over 2^62.
    #[error("a limit is out of its range")]
    BadLimit,
    /// A growth was refused for want of memory.
    #[error("out of memory")]
    NoMemory,
    /// Each place for a subscription, or each seat, is taken.
    #[error("each place for a subscription is taken")]
    SubscribersFull,
    /// The emission would have to wait, and each ticket is out.
    #[error("each ticket for an emission is out")]
    EmitsFull,
    /// The numbers below 2^62 are used up.
    #[error("the numbers below 2^62 are used up")]
    Spent,
    /// A count of 0 where at least 1 is wanted.
    #[error("a count of 0 where at least 1 is wanted")]
    NotPositive,
    /// More than 1,024 inner flows at once.
    #[error("more than 1,024 inner flows at once")]
    TooManyWorkers,
    /// A prelude of more than 16 values.
    #[error("a prelude has more than 16 values")]
    PreludeTooLong,
    /// A plan with more than 32 entries, or with an entry whose least count is above its greatest.
    #[error("a plan has over 32 entries, or one whose least count is above its greatest")]
    BadPlan,
}

impl Refusal {
    /// The number under which the refusal is printed and documented.
    pub fn number(self) -> u8
        ensures { result ≡ number_of self }
    {
        match self {
            Refusal::TooLarge => 1,
            Refusal::PolicyNeedsBuffer => 2,
            Refusal::BadLimit => 3,
            Refusal::NoMemory => 4,
            Refusal::SubscribersFull => 5,
            Refusal::EmitsFull => 6,
            Refusal::Spent => 7,
            Refusal::NotPositive => 8,
            Refusal::TooManyWorkers => 9,
            Refusal::PreludeTooLong => 10,
            Refusal::BadPlan => 11,
        }
    }
}

impl From<AllocError> for Refusal {
    ghost from_gives = { λ _ refusal. refusal ≡ NoMemory };

    fn from(_error: AllocError) -> Refusal {
        Refusal::NoMemory
    }
}

impl<T: Drop> From<AllocFailed<T>> for Refusal {
    ghost from_gives = { λ _ refusal. refusal ≡ NoMemory };

    fn from(_error: AllocFailed<T>) -> Refusal {
        Refusal::NoMemory
    }
}
