//! A value that threads share, which can be read, set and collected: Kotlin's `StateFlow`.
//!
//! # A value and its history
//! A state flow always has a value. Setting an equal value does nothing, so the value has a history without equal
//! neighbours: the first value, then each value that was set and differed from the one before. A state flow never completes.
//!
//! # What a seat is
//! Whoever uses the flow holds a seat of it ([`StateSeat`]), one thread at a time. `StateFlow::new` gives the first, with
//! room for as many as were asked for; [`take_seat`](StateSeat::take_seat) makes one for another thread and
//! [`give_back`](StateSeat::give_back) joins two again. A seat costs no memory but a count, and none of its calls takes a
//! lock or waits: `value` is one atomic load, `set` one swap, `compare_and_set` one compare_exchange.
//!
//! # What a collector receives
//! [`collect`](StateSeat::collect) makes a [`Collector`] of a seat. Its first ask gives the value; each later ask gives the
//! value where it differs from the last one given, else nothing. So what a collector receives is a subsequence of the value
//! history without equal neighbours.
//!
//! # One thread that collects more than once
//! A [`CollectingSeat`] is a seat that runs collectors of its own, as many as other seats could be made of it. Each is asked
//! through the seat, by one load. So who has all seats of a flow knows what each of them is given.
//!
//! # What a slow collector misses
//! It misses each value that was replaced before it asked: a state flow conflates. It never misses the last one, and never
//! receives a value out of order.
//!
//! # What a cancelled collector loses
//! [`cancel`](Collector::cancel) uses the collector up and gives its seat back. Nothing is received after that, and what came
//! between the last ask and the end is not received. A collector that is made of the same seat later begins anew: its first
//! ask gives the value, equal to the last one or not.
//!
//! # An example
//! A value type of one's own says how it is written to a word and read back; then a seat sets it.
//! ```
//! pub struct Dimmer {
//!     seat: StateSeat<Light>,
//! }
//!
//! impl Dimmer {
//!     /// Sets the light, and says how many watched it right after.
//!     pub fn switch(&mut self, light: Light) -> u32
//!         ensures { (set : View Light) × (Sets self.old.seat.view light set × Counts set result self.new.seat.view) }
//!     {
//!         self.seat.set(light);
//!         self.seat.collectors()
//!     }
//! }
//! ```
//!
//! # What a collector does that finds nothing new
//! It yields: [`poll_next`](Collector::poll_next) is pending and asks to be polled again at once, and
//! [`try_next`](Collector::try_next) answers nothing. Nobody wakes a collector, so a task that polls one without end keeps a
//! processor busy. Pause between two asks, for as long as the value may be late; what was set meanwhile is conflated.
//!
//! # What is not claimed
//! That a value which another thread sets is seen by any time, or by whom first: two seats that never met know of one
//! history, and of one order of the steps on it, but not where in it the other is. Nor that a pending collector's task is
//! polled again.
#![tactic(auto)]

mod collector;
mod flow;
mod laws;
mod plays;
mod seat;
mod view;

pub use collector::Collector;
pub use flow::StateFlow;
pub use flow_terms::{Refusal, Word};
pub use laws::{given_is_picked, one_history};
pub use seat::{CollectingSeat, Hosts, Idle, Running, SeatCollector, StateSeat};
pub use view::View;
