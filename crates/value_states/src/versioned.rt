//! What lies under the lock.
ghost use Rattle.value_states.specs.Does.{IsFirst, Does};

use crate::round::Round;
use round_lock::Called;

/// The value of a state, beside its version: how many values the state had before it.
#[derive(Drop)]
pub struct Versioned<T> {
    pub value: T,
    pub version: u64,
}

impl<T> Called<Round> for Versioned<T> {
    ghost first = { IsFirst };

    ghost step = { Does };
}
