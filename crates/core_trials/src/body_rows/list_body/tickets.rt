//! Tickets that are out.

/// A ticket of an accepted emission, and the emission's index.
#[derive(Clone, Copy)]
pub struct Accepted {
    pub ticket: u64,
    pub index: u64,
}

/// A ticket of an emission that waits for room.
#[derive(Clone, Copy)]
pub struct Waiting {
    pub ticket: u64,
    pub value: u64,
}

/// The index of the emission of this ticket, where that was accepted.
pub(crate) fn index_of(accepted: &[Accepted], ticket: u64) -> Option<u64> {
    for held in accepted {
        if held.ticket == ticket {
            return Some(held.index);
        }
    }
    None
}

/// Whether the emission of this ticket waits.
pub(crate) fn is_waiting(waiting: &[Waiting], ticket: u64) -> bool {
    for held in waiting {
        if held.ticket == ticket {
            return true;
        }
    }
    false
}

/// Gives up the ticket of an accepted emission.
pub(crate) fn forget(accepted: &mut Vec<Accepted>, ticket: u64) {
    accepted.retain(|held| held.ticket != ticket);
}
