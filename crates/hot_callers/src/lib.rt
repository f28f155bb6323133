//! Callers of hot flows, as the crates' documents show them. Each is proved from the contracts of the crates below
//! alone.
#![tactic(auto)]

mod alone_calling;
mod core_calling;
mod exchange_calling;
mod lane_calling;
mod shared_calling;
mod sharing_calling;
mod state_calling;
mod state_exchange_calling;
mod strategy_calling;

pub use alone_calling::{
    Parties, an_emitter_alone, begin_alone, emit_and_collect, emit_each, end_alone, take_waiting,
};
pub use core_calling::{received_in_turn, received_once};
pub use exchange_calling::{Exchanged, emit_and_receive, emit_and_receive_between};
pub use lane_calling::{drained, emitted_and_taken, taken_from_the_cache};
pub use shared_calling::{
    asked, awaited, counted_with_cache, emitted, emitted_and_heard, finished, heard_at_once,
    passed_on, received, taken_at_once,
};
pub use sharing_calling::first_poll;
pub use state_calling::{Dimmer, Light, asked_twice};
pub use state_exchange_calling::set_and_collect;
pub use strategy_calling::comes_and_goes;
