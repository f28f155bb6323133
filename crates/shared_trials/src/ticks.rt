//! What a poll of a sharing has to come to, of a shared flow and of a state.

use cold_flow::{Cause, Refusal};
use flow_sharing::Polled;

/// What a poll has to come to.
pub enum Tick {
    On,
    Off,
    /// Off, by a stop that resets.
    Reset,
    /// The poll met the end of sharing, and answers as any other.
    Ends(Cause<u64>),
    /// Off, since sharing ended before.
    Over(Cause<u64>),
    /// There was no memory for a start.
    Refused,
}

impl Tick {
    fn is_on(&self) -> bool {
        matches!(self, Tick::On | Tick::Ends(_))
    }

    fn fault(&self) -> Option<Cause<u64>> {
        match self {
            Tick::Ends(cause) | Tick::Over(cause) => Some(*cause),
            _ => None,
        }
    }

    /// Is that the answer, for so many subscriptions or collectors, where `now` is the latest moment, and that the fault?
    pub(crate) fn fits(
        &self,
        now: u64,
        count: u32,
        answer: Result<Polled, Refusal>,
        fault: Option<Cause<u64>>,
    ) -> bool {
        let wanted = match self {
            Tick::Refused => Err(Refusal::NoMemory),
            _ => Ok(Polled {
                now,
                count,
                on: self.is_on(),
                reset: matches!(self, Tick::Reset),
            }),
        };
        answer == wanted && fault == self.fault()
    }
}
