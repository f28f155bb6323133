//! What is asked of what a name stands for, and what joins it.

use script_words::Numbers;

/// What a command asks of what a name stands for.
#[derive(Clone, Copy)]
pub enum Request {
    /// The next value: `next`.
    Next,
    /// To end: `cancel`.
    Cancel,
    /// How many are live: `count`.
    Count,
    /// The values of the replay cache: `cache`.
    Cache,
    /// To empty the replay cache: `reset`.
    Reset,
    /// To fill a buffer once: `fill`.
    Fill,
    /// Whether an emission is finished: `poll`.
    Poll,
    /// To give an emission up: `withdraw`.
    Withdraw,
    /// The value of a state: `value`.
    Value,
    /// To emit this value, where that can be done at once: `try`.
    Try(u64),
    /// To set a state to this value: `set`.
    Set(u64),
    /// To set a state to the second value where it is equal to the first: `cas`.
    CompareAndSet(u64, u64),
    /// To poll a sharing at this moment, in milliseconds: `tick`.
    Tick(u64),
}

/// What joins a flow or a state, under a name of its own. A prelude is read where it is wanted, so that a command stays small.
#[derive(Clone, Copy)]
pub enum Joiner<'a> {
    /// A subscription with a prelude of these numbers: `sub`.
    Subscription(Numbers<'a>),
    /// A collector of a state: `collect`.
    Collector,
    /// An emission of this value: `emit`.
    Emission(u64),
}
