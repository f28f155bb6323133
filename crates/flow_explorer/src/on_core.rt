//! The parties on the flow for one thread.

use crate::calls::{Answer, Block, Call, Party, ROOM, Stage, values_from};
use crate::schedules::{Engine, Schedule, play_on};
use crate::story::{Story, Wrong};
use shared_core::{Begun, Emit, Next, SharedState, SubId, Ticket, Tried, Withdrawn};
use std::alloc::Global;

/// Makes flows for one thread.
#[derive(Drop)]
pub struct Cores {
    pub alloc: Global,
}

#[derive(Drop)]
struct OnCore {
    flow: SharedState<u64>,
    first: Option<Ticket>,
    second: Option<Ticket>,
    a: Option<SubId>,
    b: Option<SubId>,
    /// Room for a block of receipts.
    out: Vec<u64>,
}

// Tries so many values from this one on.
fn try_all(flow: &mut SharedState<u64>, id: u32, first: u64, size: u64) -> Answer {
    let values = values_from(first);
    match values.get(..size as usize) {
        Some(block) => flow
            .try_emit_all(id, block)
            .map_or(Answer::Other, Answer::Accepted),
        None => Answer::Other,
    }
}

fn take_all(flow: &mut SharedState<u64>, id: SubId, out: &mut Vec<u64>) -> Answer {
    out.clear();
    match flow.try_next_all(id, out) {
        Next::Value(_) => Answer::Values(Block::of(out)),
        Next::Nothing => Answer::Nothing,
        Next::Closed => Answer::Other,
    }
}

// A call of the emitter with this id and ticket.
fn send(flow: &mut SharedState<u64>, id: u32, out: &mut Option<Ticket>, call: Call) -> Answer {
    match (call, *out) {
        (Call::Try(value), _) => match flow.try_emit(id, value) {
            Ok(Tried::Accepted(number)) => Answer::Told(number),
            Ok(_) => Answer::Refused,
            Err(_) => Answer::Other,
        },
        (Call::TryAll(first, size), _) => try_all(flow, id, first, size),
        (Call::Emit(value), _) => match flow.start_emit(id, value) {
            Ok(Begun::Accepted(number)) => Answer::Told(number),
            Ok(Begun::Dropped) => Answer::Refused,
            Ok(Begun::Waiting(ticket)) => {
                *out = Some(ticket);
                Answer::Waiting
            }
            Err(_) => Answer::Other,
        },
        (Call::Ask, Some(ticket)) => match flow.poll_emit(ticket) {
            Emit::Done(number) => Answer::Told(number),
            Emit::Waiting => Answer::Waiting,
            Emit::Gone => Answer::Other,
        },
        (Call::TakeBack, Some(ticket)) => match flow.cancel_emit(ticket) {
            Withdrawn::Left(number) => Answer::Told(number),
            Withdrawn::Removed => Answer::Removed,
            Withdrawn::Gone => Answer::Other,
        },
        _ => Answer::Other,
    }
}

// A call of the subscription in this place.
fn hear(
    flow: &mut SharedState<u64>,
    out: &mut Vec<u64>,
    place: &mut Option<SubId>,
    call: Call,
) -> Answer {
    match (call, *place) {
        (Call::Subscribe, None) => match flow.subscribe() {
            Ok(id) => {
                *place = Some(id);
                Answer::Began(None)
            }
            Err(_) => Answer::Other,
        },
        (Call::Next | Call::Take, Some(id)) => match flow.next(id) {
            Next::Value(value) => Answer::Value(value),
            Next::Nothing => Answer::Nothing,
            Next::Closed => Answer::Other,
        },
        (Call::TakeAll, Some(id)) => take_all(flow, id, out),
        (Call::Cancel, Some(id)) if flow.cancel(id) => {
            *place = None;
            Answer::Ended
        }
        _ => Answer::Other,
    }
}

impl Stage for OnCore {
    fn perform(&mut self, party: Party, call: Call) -> Answer {
        match party {
            Party::First => send(&mut self.flow, 1, &mut self.first, call),
            Party::Second => send(&mut self.flow, 2, &mut self.second, call),
            Party::A => hear(&mut self.flow, &mut self.out, &mut self.a, call),
            Party::B => hear(&mut self.flow, &mut self.out, &mut self.b, call),
        }
    }
}

impl Engine for Cores {
    fn play(&self, schedule: &Schedule) -> Result<(), Wrong> {
        let Ok(flow) = SharedState::new(self.alloc, schedule.config) else {
            return Err(Wrong::NotMade);
        };
        let Ok(out) = Vec::with_capacity(self.alloc, ROOM) else {
            return Err(Wrong::NoMemory);
        };
        let mut stage = OnCore {
            flow,
            first: None,
            second: None,
            a: None,
            b: None,
            out,
        };
        let mut story = Story::new(self.alloc, schedule.config);
        play_on(&mut stage, &mut story, schedule)
    }
}
