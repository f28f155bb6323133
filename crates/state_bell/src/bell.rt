//! What the watchers of a state sleep by, and who changes it rings.

use std::alloc::{AllocError, Global};
use std::sync::atomic::{AtomicBool, AtomicU64, Ordering};
use std::sync::{Arc, Wait};
use std::time::Duration;

/// What who changes a state rings. That a wake arrives isn't claimed.
pub trait Ring {
    /// Wakes all who sleep, after a change of what they sleep for.
    fn ring(&self);

    /// Lets go all who sleep, and who will.
    fn let_go(&self);
}

/// What all seats and watchers of a state share beside it. Who sleeps and who is woken is no part of contracts.
///
/// Why none that sleeps is forgotten: who changes the state first changes it and then loads the number of sleepers, while who is
/// about to sleep first adds itself to that number, then loads the turn, and then the state. So either the one is counted by the
/// other, or it sees the change. One that is counted finds another turn than it loaded before it asked, and doesn't fall asleep, or
/// is asleep by then, and is woken. Each step is sequentially consistent.
///
/// A sleeper compares the low 32 bits of the turn. One that is held up between its load and its sleep while 4,294,967,296 rings
/// come, or a multiple of that, sleeps until the next ring.
#[derive(Drop)]
pub struct Bell {
    // What threads sleep on: each ring adds to it.
    turn: AtomicU64,
    // How many sleep, or are about to.
    sleepers: AtomicU64,
    // Whether all were let go.
    let_go: AtomicBool,
}

impl Bell {
    /// A bell that nobody sleeps by, and by which nobody was let go. Refused where there is no memory.
    pub fn new(alloc: Global) -> Result<Arc<Bell>, AllocError> {
        let bell = Bell {
            turn: AtomicU64::new(0),
            sleepers: AtomicU64::new(0),
            let_go: AtomicBool::new(false),
        };
        Ok(Arc::new(alloc, bell)?)
    }

    /// Wakes all who sleep, after a change of what they sleep for. Where nobody does it is one load.
    pub fn ring(&self) {
        if self.sleepers.load(Ordering::SeqCst) != 0 {
            self.turn.fetch_add(1, Ordering::SeqCst);
            self.turn.wake_all();
        }
    }

    /// Lets go all who sleep, and who will.
    pub fn let_go(&self) {
        self.let_go.store(true, Ordering::SeqCst);
        self.ring();
    }

    /// Whether all were let go.
    pub fn is_let_go(&self) -> bool {
        self.let_go.load(Ordering::SeqCst)
    }

    /// One more is about to sleep.
    pub fn lie_down(&self) {
        self.sleepers.fetch_add(1, Ordering::SeqCst);
    }

    /// How many sleep, or are about to: who tests a state asks it, to see that nobody stays counted.
    pub fn sleepers(&self) -> u64 {
        self.sleepers.load(Ordering::SeqCst)
    }

    /// One is up again.
    pub fn rise(&self) {
        self.sleepers.fetch_sub(1, Ordering::SeqCst);
    }

    /// The turn, as far as a sleeper compares it.
    pub fn turn(&self) -> u32 {
        (self.turn.load(Ordering::SeqCst) % (1 << 32)) as u32
    }

    /// Sleeps until a ring, unless one came since this turn. It may also return for no reason.
    pub fn sleep(&self, rt: &impl Wait, turn: u32) {
        self.turn.park(rt, turn);
    }

    /// The same, for no longer than `time`.
    pub fn sleep_for(&self, rt: &impl Wait, turn: u32, time: Duration) {
        self.turn.park_timeout(rt, turn, time);
    }
}

impl Ring for Bell {
    fn ring(&self) {
        self.ring();
    }

    fn let_go(&self) {
        self.let_go();
    }
}
