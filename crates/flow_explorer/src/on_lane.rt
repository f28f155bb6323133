//! The parties on a lane: its sequencer for both emitters, and its readers.

ghost use Rattle.shared_lane.specs.Readers.{IsReaderOf};
ghost use Rattle.shared_lane.specs.Sequencers.{IsSequencerOf};

use crate::calls::{Answer, Block, Call, Party, ROOM, Stage, values_from};
use crate::schedules::{Engine, Schedule, play_on};
use crate::story::{Story, Wrong};
use shared_core::{Begun, Emit, Ticket, Tried, Withdrawn};
use shared_lane::{Lane, Reader, Sequencer, Taken};
use std::alloc::Global;

/// Makes lanes.
#[derive(Drop)]
pub struct Lanes {
    pub alloc: Global,
}

/// A reader with its lane.
struct Reading<'a> {
    lane: &'a Lane<Global>,
    reader: Reader,
    ghost fits: { IsReaderOf lane.now reader },
}

impl Reading<'_> {
    fn take(&mut self) -> Answer {
        match self.reader.try_next(self.lane) {
            Taken::Value(value) => Answer::Value(value),
            Taken::Nothing => Answer::Nothing,
            Taken::Overtaken => Answer::Other,
        }
    }

    fn take_all(&mut self, out: &mut Vec<u64>) -> Answer {
        out.clear();
        match self.reader.try_next_all(self.lane, out) {
            Taken::Value(_) => Answer::Values(Block::of(out)),
            Taken::Nothing => Answer::Nothing,
            Taken::Overtaken => Answer::Other,
        }
    }

    fn leave(self) {
        let Reading { lane, reader } = self;
        reader.close(lane);
    }
}

/// A sequencer with its lane.
#[derive(Drop)]
struct Sending<'a> {
    lane: &'a Lane<Global>,
    sequencer: Sequencer<Global>,
    ghost fits: { IsSequencerOf lane.now sequencer },
}

impl<'a> Sending<'a> {
    fn attempt(&mut self, id: u32, value: u64) -> Answer {
        match self.sequencer.try_emit(self.lane, id, value) {
            Ok(Tried::Accepted(number)) => Answer::Told(number),
            Ok(_) => Answer::Refused,
            Err(_) => Answer::Other,
        }
    }

    fn attempt_all(&mut self, id: u32, first: u64, size: u64) -> Answer {
        let values = values_from(first);
        let Some(block) = values.get(..size as usize) else {
            return Answer::Other;
        };
        match self.sequencer.try_emit_all(self.lane, id, block) {
            Ok(accepted) => Answer::Accepted(accepted),
            Err(_) => Answer::Other,
        }
    }

    fn emit(&mut self, id: u32, out: &mut Option<Ticket>, value: u64) -> Answer {
        match self.sequencer.start_emit(self.lane, id, value) {
            Ok(Begun::Accepted(number)) => Answer::Told(number),
            Ok(Begun::Dropped) => Answer::Refused,
            Ok(Begun::Waiting(ticket)) => {
                *out = Some(ticket);
                Answer::Waiting
            }
            Err(_) => Answer::Other,
        }
    }

    // What waits is accepted where there is room, and the emission with this ticket is asked for.
    fn ask(&mut self, ticket: Ticket) -> Answer {
        self.sequencer.scan(self.lane);
        match self.sequencer.poll_emit(self.lane, ticket) {
            Emit::Done(number) => Answer::Told(number),
            Emit::Waiting => Answer::Waiting,
            Emit::Gone => Answer::Other,
        }
    }

    fn take_back(&mut self, ticket: Ticket) -> Answer {
        match self.sequencer.cancel_emit(self.lane, ticket) {
            Withdrawn::Left(number) => Answer::Told(number),
            Withdrawn::Removed => Answer::Removed,
            Withdrawn::Gone => Answer::Other,
        }
    }

    fn send(&mut self, id: u32, out: &mut Option<Ticket>, call: Call) -> Answer {
        match (call, *out) {
            (Call::Try(value), _) => self.attempt(id, value),
            (Call::TryAll(first, size), _) => self.attempt_all(id, first, size),
            (Call::Emit(value), _) => self.emit(id, out, value),
            (Call::Ask, Some(ticket)) => self.ask(ticket),
            (Call::TakeBack, Some(ticket)) => self.take_back(ticket),
            _ => Answer::Other,
        }
    }

    fn admit(&mut self, place: &mut Option<Reading<'a>>) -> Answer {
        let Ok(reader) = self.sequencer.admit(self.lane) else {
            return Answer::Other;
        };
        let start = reader.start();
        let reading = Reading {
            lane: self.lane,
            reader,
        };
        match place.replace(reading) {
            None => Answer::Began(Some(start)),
            Some(before) => {
                before.leave();
                Answer::Other
            }
        }
    }

    fn hear(&mut self, out: &mut Vec<u64>, place: &mut Option<Reading<'a>>, call: Call) -> Answer {
        match call {
            Call::Subscribe => self.admit(place),
            Call::Cancel => leave(place.take()),
            _ => match place {
                Some(reading) if call == Call::TakeAll => reading.take_all(out),
                Some(reading) => reading.take(),
                None => Answer::Other,
            },
        }
    }
}

fn leave(place: Option<Reading<'_>>) -> Answer {
    match place {
        Some(reading) => {
            reading.leave();
            Answer::Ended
        }
        None => Answer::Other,
    }
}

struct OnLane<'a> {
    sending: Sending<'a>,
    first: Option<Ticket>,
    second: Option<Ticket>,
    a: Option<Reading<'a>>,
    b: Option<Reading<'a>>,
    /// Room for a block of receipts.
    out: Vec<u64>,
}

impl Stage for OnLane<'_> {
    fn perform(&mut self, party: Party, call: Call) -> Answer {
        match party {
            Party::First => self.sending.send(1, &mut self.first, call),
            Party::Second => self.sending.send(2, &mut self.second, call),
            Party::A => self.sending.hear(&mut self.out, &mut self.a, call),
            Party::B => self.sending.hear(&mut self.out, &mut self.b, call),
        }
    }
}

impl Engine for Lanes {
    fn play(&self, schedule: &Schedule) -> Result<(), Wrong> {
        let Ok((lane, sequencer)) = Lane::new(self.alloc, schedule.config) else {
            return Err(Wrong::NotMade);
        };
        let Ok(out) = Vec::with_capacity(self.alloc, ROOM) else {
            return Err(Wrong::NoMemory);
        };
        let mut stage = OnLane {
            sending: Sending {
                lane: &lane,
                sequencer,
            },
            first: None,
            second: None,
            a: None,
            b: None,
            out,
        };
        let mut story = Story::new(self.alloc, schedule.config);
        let played = play_on(&mut stage, &mut story, schedule);
        let OnLane {
            sending: _,
            first: _,
            second: _,
            a,
            b,
            out: _,
        } = stage;
        leave(a);
        leave(b);
        played
    }
}
