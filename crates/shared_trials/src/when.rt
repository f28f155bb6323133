//! The strategies that rows name.

use flow_sharing::Started;

/// A strategy without a plan. A row of a constant names it so: the check of a constant with references doesn't cover the array
/// inside a plan, and so no `Started` there.
pub enum When {
    Eagerly,
    Lazily,
    WhileSubscribed { stop: u64, expire: Option<u64> },
}

impl When {
    pub(crate) fn started(&self) -> Started {
        match self {
            When::Eagerly => Started::Eagerly,
            When::Lazily => Started::Lazily,
            When::WhileSubscribed { stop, expire } => Started::WhileSubscribed {
                stop: *stop,
                expire: *expire,
            },
        }
    }
}
