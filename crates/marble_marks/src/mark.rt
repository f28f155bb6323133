//! What a picture of a script is made of.

use script_commands::Reason;

/// What a row of a picture is for.
#[derive(Clone, Copy)]
pub enum Row {
    /// A shared flow.
    Flow,
    /// A state that begins with this value.
    State(u64),
    /// A buffer.
    Buffer,
    /// A subscription of a flow.
    Subscription,
    /// A collector of a state.
    Collector,
    /// An emission of this value that had to wait.
    Ticket(u64),
}

/// Where something stands among all that one line accepts, side by side.
#[derive(Clone, Copy)]
pub struct Spot {
    /// How many stand before it.
    pub index: usize,
    /// How many there are.
    pub count: usize,
}

impl Spot {
    /// It is the only one.
    pub const ALONE: Spot = Spot { index: 0, count: 1 };
}

/// What a mark shows.
#[derive(Clone, Copy)]
pub enum Kind {
    /// The line with this number, at the head of its column.
    Line(u64),
    /// The bad line with this number, at the head of its column, and why it is bad.
    Bad(u64, Reason),
    /// The name of a row, before it.
    Named(Row),
    /// A row begins.
    Begun(Row),
    /// A flow accepted this value.
    Accepted(u64),
    /// A flow accepted this value here, whose emission had to wait until then.
    AcceptedLater(u64, Spot),
    /// The number of the emission whose acceptance stands in the same place and spot.
    Number(u64, Spot),
    /// This value made way before it was taken.
    Lost(u64),
    /// A flow dropped this value.
    Dropped(u64),
    /// A flow was full, and this value wasn't emitted.
    Full(u64),
    /// A state was set to this value.
    Set(u64),
    /// A state answered this value.
    Holds(u64),
    /// This value was received.
    Received(u64),
    /// This value was received, of the prelude of its subscription.
    FromPrelude(u64),
    /// There was nothing to receive.
    Nothing,
    /// An emission waits still.
    Waiting,
    /// An emission is done.
    Done,
    /// An emission was taken back before it was accepted.
    Removed,
    /// An emission was left with its subscribers.
    Left,
    /// An emission had been finished before. One that was finished at once has no row, so this is shown on its flow's.
    Gone,
    /// A subscription or a collector ends.
    Cancelled,
    /// A tick at which a flow or a state takes what its upstream gives, if anything.
    Ticked,
    /// Another answer, as the text says it.
    Said,
}

/// A mark in a picture: where it stands, what it shows, and a text to it.
#[derive(Clone, Copy)]
pub struct Mark<'a> {
    /// 0 for names, then one column for each line that has an answer.
    pub column: usize,
    /// 0 for the lines, then one row for each name.
    pub row: usize,
    pub kind: Kind,
    /// The line at its number, the name of a row, and the answer where it happened.
    pub text: &'a [u8],
}
