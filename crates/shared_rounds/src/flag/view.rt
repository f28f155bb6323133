//! What a seat at the flag knows.
use std::collections::LinkedList;

/// A look at the flag: where its reader stood then, how many rounds its party had made, and what was found. The program makes no value
/// of it.
pub struct FlagLook {
    pub position: u64,
    pub rounds: u64,
    pub found: u64,
}

/// What contracts see of a seat at the flag. The program makes no value of it.
pub struct FlagView {
    /// Whether it is the keeper's.
    pub keeps: bool,
    /// The flag, as its keeper knows it.
    pub flag: u64,
    /// How many words the lane's sequencer had loaded as the keeper raised it for the last emission that began to wait.
    pub raised: u64,
    /// What a looker found, look by look.
    pub looks: LinkedList<FlagLook>,
}
