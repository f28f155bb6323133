//! Emissions whose tickets are out: those that wait, and those that were accepted.

/// An emission that waits for room.
#[derive(Clone, Copy, Drop)]
pub struct Waiting {
    /// The number of its ticket.
    pub ticket: u64,
    /// Whose it is.
    pub emitter: u32,
    /// The value's word.
    pub word: u64,
}

/// An accepted emission whose ticket is out.
#[derive(Clone, Copy, Drop)]
pub struct Standing {
    /// The number of its ticket.
    pub ticket: u64,
    /// Whose it is.
    pub emitter: u32,
    /// Its own number among the accepted ones.
    pub number: u64,
}
