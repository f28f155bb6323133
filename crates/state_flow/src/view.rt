//! What a seat knows.
use std::collections::LinkedList;

/// What contracts see of a seat or a collector beside its flow: the record of its own steps. The program makes no value
/// of it.
pub struct View<T> {
    /// The history of the value as it stood after the seat's last step on the value.
    pub seen: LinkedList<T>,
    /// The number of that step in the one order of all steps on the value, by all seats; the making of the flow is step 1.
    pub turn: u64,
    /// What a seat that was given back had seen, until the next step on the value; empty between calls.
    pub told: LinkedList<T>,
    /// The number of that other seat's last step on the value; 0 between calls.
    pub told_turn: u64,
    /// How many steps on the value the seat has made, with those of seats that were given back to it.
    pub steps: u64,
    /// How many values these steps wrote: those that differed from the value at that moment.
    pub writes: u64,
    /// The number of collectors after the seat's last step on that number.
    pub counted: u64,
    /// The number of that step in the one order of all steps on the number of collectors.
    pub count_turn: u64,
    /// How many steps on the number of collectors the seat has made, with those of seats that were given back to it.
    pub count_steps: u64,
    /// Whether the seat is a collector's.
    pub collects: bool,
    /// How many collectors the seat runs that have no seat of their own.
    pub runs: u64,
    /// What the collector was given since it began, in order.
    pub collected: LinkedList<T>,
    /// How many seats can be made of this one, itself among them.
    pub share: u64,
    /// How many seats the flow has in all: what the shares of all its seats add up to.
    pub seats: u64,
}
