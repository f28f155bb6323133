//! What a flow is made with.
ghost use Rattle.std.specs.Prelude.{◌≡◌};
ghost use Rattle.value_flows.specs.Making.{making_refusal};

use flow_terms::{Policy, Refusal};

/// No flow has more places than this.
const PLACES_LIMIT: u64 = 65536;

/// No flow has more subscriptions at once than this.
const SUBSCRIBERS_LIMIT: u32 = 1024;

/// What a flow is made with. `replay` and `extra` together are its places: how many of the latest values it keeps.
#[derive(Clone, Copy, Debug, PartialEq, Eq)]
pub struct Config {
    /// How many of the latest values a new subscription gets: Kotlin's `replay`.
    pub replay: u64,
    /// How many values more than these a subscription may have pending: Kotlin's `extraBufferCapacity`.
    pub extra: u64,
    /// What a flow does with an emission where a subscription has no place free: Kotlin's `onBufferOverflow`.
    pub policy: Policy,
    /// How many subscriptions may be live at once.
    pub subscribers: u32,
}

impl Config {
    /// Why no flow can be made so, where it can't: `TooLarge`, `PolicyNeedsBuffer` where there would be no place, or `BadLimit`, the
    /// first that applies. Want of memory apart.
    pub fn refusal(&self) -> Option<Refusal>
        ensures { result ≡ making_refusal self.now }
    {
        if self.replay > PLACES_LIMIT || self.extra > PLACES_LIMIT - self.replay {
            return Some(Refusal::TooLarge);
        }
        if self.replay + self.extra == 0 {
            return Some(Refusal::PolicyNeedsBuffer);
        }
        if self.subscribers == 0 || self.subscribers > SUBSCRIBERS_LIMIT {
            return Some(Refusal::BadLimit);
        }
        None
    }
}
