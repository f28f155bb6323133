//! What threads sleep by beside a flow.

use state_bell::Bell;
use std::alloc::{AllocError, Global};
use std::sync::Arc;

/// Two bells, which all owners and subscriptions of a flow share. No contract speaks of them.
#[derive(Drop)]
pub(crate) struct Bells {
    /// Rung after an emission: subscriptions sleep by it.
    pub(crate) news: Arc<Bell>,
    /// Rung after a receipt, and where a subscription ends: emissions that wait for room sleep by it.
    pub(crate) room: Arc<Bell>,
}

impl Bells {
    pub(crate) fn new(alloc: Global) -> Result<Bells, AllocError> {
        let news = Bell::new(alloc)?;
        let room = Bell::new(alloc)?;
        Ok(Bells { news, room })
    }

    /// The same bells, for another owner.
    pub(crate) fn shared(&self) -> Result<Bells, AllocError> {
        let news = Arc::try_clone(&self.news)?;
        let room = Arc::try_clone(&self.room)?;
        Ok(Bells { news, room })
    }
}
