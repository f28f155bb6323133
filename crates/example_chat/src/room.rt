//! What all users' threads share.

use flow_stopping::Stopper;
use std::sync::atomic::{AtomicU64, Ordering};

/// Who lets go all users at once, and how many have still to speak.
#[derive(Drop)]
pub(crate) struct Room {
    stoppers: Vec<Stopper>,
    silent: AtomicU64,
}

impl Room {
    /// A room of the users whom these let go, none of whom has spoken.
    pub(crate) fn new(stoppers: Vec<Stopper>) -> Room {
        let silent = AtomicU64::new(stoppers.len() as u64);
        Room { stoppers, silent }
    }

    /// One has said all that it had to say. The last one lets all go: each line was accepted by then.
    pub(crate) fn has_spoken(&self) {
        if self.silent.fetch_sub(1, Ordering::SeqCst) == 1 {
            self.stop();
        }
    }

    /// Lets all go, those that sleep and those that will. Who gives up calls it, too.
    pub(crate) fn stop(&self) {
        for stopper in self.stoppers.iter() {
            stopper.stop();
        }
    }

    /// How many users there are.
    pub(crate) fn users(&self) -> usize {
        self.stoppers.len()
    }
}
