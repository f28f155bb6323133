//! What the receipts of an emitter come to, and the values of a subscription.

use shared_flow::Receipt;

/// The values of the emitter with the id 0 begin at 0, those of the next one here, and those of a third at twice this.
const APART: u64 = 1_000_000;

/// What the receipts of an emitter say.
#[derive(Drop)]
pub struct Said {
    id: u32,
    pub accepted: u64,
    /// How many values were dropped as they were emitted.
    pub dropped: u64,
    /// The numbers of those accepted, added up.
    pub numbers: u64,
    /// The least number that the next one may have.
    least: u64,
    /// Each was this emitter's, with a number above the one before.
    pub rises: bool,
}

impl Said {
    pub(crate) fn by(id: u32) -> Said {
        Said {
            id,
            accepted: 0,
            dropped: 0,
            numbers: 0,
            least: 0,
            rises: true,
        }
    }

    /// The value that the emitter emits after so many.
    pub(crate) fn value(&self, emitted: u64) -> u64 {
        u64::from(self.id)
            .wrapping_mul(APART)
            .saturating_add(emitted)
    }

    /// Notes that a value was dropped.
    pub(crate) fn miss(&mut self) {
        self.dropped = self.dropped.saturating_add(1);
    }

    /// Takes a receipt, and says whether the numbers rise so far.
    pub(crate) fn take(&mut self, receipt: &Receipt) -> bool {
        let number = receipt.number();
        self.rises = self.rises && number >= self.least && receipt.emitter() == self.id;
        self.least = number.saturating_add(1);
        self.numbers = self.numbers.saturating_add(number);
        self.accepted = self.accepted.saturating_add(1);
        self.rises
    }
}

/// The values that a subscription received.
#[derive(Drop)]
pub struct Heard {
    pub received: u64,
    /// The value of each emitter that comes next where none is lost.
    pub next: [u64; 3],
    /// The values of each emitter rose, so that none came twice.
    pub rises: bool,
    /// No value of an emitter was missing before a later one.
    pub is_whole: bool,
}

impl Heard {
    pub(crate) fn nothing() -> Heard {
        Heard {
            received: 0,
            next: [0, APART, 2 * APART],
            rises: true,
            is_whole: true,
        }
    }

    /// Takes a value, and says whether the values rise so far.
    pub(crate) fn note(&mut self, value: u64) -> bool {
        self.received = self.received.saturating_add(1);
        let Some(next) = self.next.get_mut((value / APART) as usize) else {
            self.rises = false;
            return false;
        };
        self.rises = self.rises && value >= *next;
        self.is_whole = self.is_whole && value == *next;
        *next = value.saturating_add(1);
        self.rises
    }
}
