//! What the shared flows are made with.

use cold_flow::Policy;
use shared_core::Config;

/// A flow for one emitter and so many subscribers, with so many places and no replay.
pub(crate) fn config_of(subscribers: u32, extra: u64, policy: Policy) -> Config {
    Config {
        replay: 0,
        extra,
        policy,
        subscribers,
        emits: 1,
        first: 0,
    }
}
