//! What a shared flow is made with.

ghost use Rattle.std.specs.Prelude.{◌≡◌};
ghost use Rattle.shared_core.specs.Kept.{making_refusal};

use flow_terms::{Policy, Refusal};

/// Numbers stay below this.
pub(crate) const NUMBER_LIMIT: u64 = 1 << 62;

/// No flow has more places than this.
const PLACES_LIMIT: u64 = 65536;

/// No flow has more subscribers, or more emissions in flight, than this.
const SEATS_LIMIT: u32 = 1024;

/// What a shared flow is made with. `replay` and `extra` together are the places of each subscription.
#[derive(Clone, Copy, Debug, PartialEq, Eq)]
pub struct Config {
    /// How many of the latest values a new subscription gets.
    pub replay: u64,
    /// How many values more than these a subscription may have pending.
    pub extra: u64,
    /// What a flow without room does with an emission.
    pub policy: Policy,
    /// How many subscriptions may be live at once.
    pub subscribers: u32,
    /// How many tickets may be out at once.
    pub emits: u32,
    /// The number of the first emission, of the first subscription and of the first ticket.
    pub first: u64,
}

impl Config {
    /// Why no flow can be made so, where it can't: `TooLarge`, `PolicyNeedsBuffer` or `BadLimit`, the first that applies.
    /// Want of memory apart.
    pub fn refusal(&self) -> Option<Refusal>
        ensures { result ≡ making_refusal self.now }
    {
        if self.replay > PLACES_LIMIT || self.extra > PLACES_LIMIT - self.replay {
            return Some(Refusal::TooLarge);
        }
        if self.replay + self.extra == 0 && self.policy != Policy::Suspend {
            return Some(Refusal::PolicyNeedsBuffer);
        }
        if self.subscribers == 0 || self.subscribers > SEATS_LIMIT {
            return Some(Refusal::BadLimit);
        }
        if self.emits == 0 || self.emits > SEATS_LIMIT {
            return Some(Refusal::BadLimit);
        }
        if self.first > NUMBER_LIMIT {
            return Some(Refusal::BadLimit);
        }
        None
    }
}
