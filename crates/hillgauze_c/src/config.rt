//! What C makes a shared flow or a lane with.
ghost use Rattle.std.specs.Prelude.{◌≡◌};
ghost use Rattle.hillgauze_c.specs.Makes.{policy_of, config_of};

use flow_terms::Policy;
use shared_core::Config;

/// The library's `Config`, with a number for the policy.
#[repr(C)]
#[derive(Clone, Copy)]
pub struct FlowConfig {
    pub replay: u64,
    pub extra: u64,
    pub first: u64,
    pub policy: u32,
    pub subscribers: u32,
    pub emits: u32,
}

fn policy_of(number: u32) -> Option<Policy>
    ensures { result ≡ policy_of number }
{
    if number == 0 {
        return Some(Policy::Suspend);
    }
    if number == 1 {
        return Some(Policy::DropOldest);
    }
    if number == 2 {
        return Some(Policy::DropLatest);
    }
    None
}

impl FlowConfig {
    /// The library's config, where the number stands for a policy.
    pub(crate) fn config(&self) -> Option<Config>
        ensures { result ≡ config_of self.now }
    {
        let policy = policy_of(self.policy)?;
        Some(Config {
            replay: self.replay,
            extra: self.extra,
            policy,
            subscribers: self.subscribers,
            emits: self.emits,
            first: self.first,
        })
    }
}
