//! The parties of a schedule, their calls, and what a call came to.

/// Two emitters and two subscriptions.
#[derive(Clone, Copy, Debug, PartialEq, Eq)]
pub enum Party {
    First,
    Second,
    A,
    B,
}

/// How many values a block of tries has at most.
const TRIES: usize = 3;

/// How many values a block of receipts has room for.
pub const ROOM: usize = 2;

/// A call of an emitter, or of a subscription.
#[derive(Clone, Copy, Debug, PartialEq, Eq)]
pub enum Call {
    Try(u64),
    /// Tries of so many values from this one on.
    TryAll(u64, u64),
    Emit(u64),
    Ask,
    TakeBack,
    Subscribe,
    Next,
    /// A receipt that accepts nothing and registers nothing, where the flow has such a call.
    Take,
    /// As many such receipts as there is room for.
    TakeAll,
    Cancel,
}

impl Call {
    /// It begins an emission.
    pub(crate) fn begins(self) -> bool {
        matches!(self, Call::Try(_) | Call::TryAll(_, _) | Call::Emit(_))
    }

    /// After it the emission may be in flight.
    pub(crate) fn may_wait(self) -> bool {
        matches!(self, Call::Emit(_) | Call::Ask)
    }

    pub(crate) fn is_emitters(self) -> bool {
        self.begins() || self == Call::Ask || self == Call::TakeBack
    }

    pub(crate) fn receives(self) -> bool {
        matches!(self, Call::Next | Call::Take | Call::TakeAll)
    }
}

/// What a call came to.
#[derive(Clone, Copy, Debug, PartialEq, Eq)]
pub enum Answer {
    /// The emission was accepted with this number.
    Told(u64),
    /// The emission is in flight.
    Waiting,
    /// So many emissions of a block were accepted.
    Accepted(u64),
    /// There was no room for the emission.
    Refused,
    /// The emission was taken back before it was accepted.
    Removed,
    /// A subscription began, at the value with this number, where it says so.
    Began(Option<u64>),
    Value(u64),
    Values(Block),
    Nothing,
    Ended,
    /// Anything else.
    Other,
}

/// The values of a block of receipts.
#[derive(Clone, Copy, Debug, PartialEq, Eq)]
pub struct Block {
    pub values: [Option<u64>; ROOM],
}

impl Block {
    pub(crate) fn of(values: &[u64]) -> Block {
        let mut block = [None; ROOM];
        for (place, value) in block.iter_mut().zip(values.iter()) {
            *place = Some(*value);
        }
        Block { values: block }
    }
}

/// The values that follow on this one, of which a block of tries has the first.
pub(crate) fn values_from(first: u64) -> [u64; TRIES] {
    [first, first.wrapping_add(1), first.wrapping_add(2)]
}

/// A flow with two emitters, and two subscriptions that aren't there at first.
pub trait Stage {
    fn perform(&mut self, party: Party, call: Call) -> Answer;
}
