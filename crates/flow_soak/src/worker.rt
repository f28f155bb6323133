//! One thread of a soak: its sides of a flow and of a state.

use crate::emitting_side::{BLOCK, EmittingSide};
use crate::fault::Fault;
use crate::random::Random;
use crate::receiving_side::ReceivingSide;
use crate::record::Record;
use crate::state_side::{StateSide, two_seats};
use futures::test::MockTask;
use shared_flow::SharedFlow;
use state_flow::StateSeat;
use std::alloc::AllocGlobal;
use std::random::RandomSource;
use std::sync::Wait;

/// How many steps a thread takes in a round.
const STEPS: usize = 20_000;

/// A thread's parties. It must be ended.
pub(crate) struct Worker {
    random: Random,
    emitting: EmittingSide,
    receiving: ReceivingSide,
    state: StateSide,
    record: Record,
}

/// What a worker's parties need beside their flow.
#[derive(Drop)]
struct Tools {
    task: MockTask,
    block: Vec<u64>,
    record: Record,
}

impl Tools {
    fn new<R: AllocGlobal + RandomSource>(rt: &R, id: u32) -> Result<Tools, Fault> {
        let task = MockTask::new(rt)?;
        let block = Vec::with_capacity(rt.alloc(), BLOCK)?;
        let record = Record::with_room(rt.alloc(), id, STEPS)?;
        Ok(Tools {
            task,
            block,
            record,
        })
    }
}

impl Worker {
    pub(crate) fn new<R>(
        rt: &R,
        flow: &mut SharedFlow<u64>,
        state: &mut StateSeat<u64>,
        id: u32,
        random: &mut Random,
    ) -> Result<Worker, Fault>
    where
        R: AllocGlobal + RandomSource + Wait,
    {
        let tools = Tools::new(rt, id)?;
        let owner = flow.dup()?;
        let (seat, resting) = two_seats(state)?;
        let emitter = flow.emitter(id)?;
        let Tools {
            task,
            block,
            record,
        } = tools;
        Ok(Worker {
            random: random.split(),
            emitting: EmittingSide::new(id, emitter, task),
            receiving: ReceivingSide::new(owner, block),
            state: StateSide::new(seat, resting),
            record,
        })
    }

    /// Takes its steps.
    pub(crate) fn run(&mut self, rt: &impl Wait) {
        for _ in 0..STEPS {
            self.step(rt);
        }
    }

    fn step(&mut self, rt: &impl Wait) {
        let Worker {
            random,
            emitting,
            receiving,
            state,
            record,
        } = self;
        match random.below(32) {
            0..=5 => emitting.emit(rt, random, record),
            6..=7 => emitting.try_block(rt, random, record),
            8..=9 => emitting.ask(rt, record),
            10 => emitting.take_back(rt, record),
            11..=12 => receiving.come_or_leave(rt, record),
            13..=20 => receiving.take(record),
            21..=24 => receiving.take_block(random.below(2) == 0, record),
            25..=27 => state.set(emitting.next_value()),
            28..=30 => state.ask(),
            _ => state.come_or_leave(),
        }
    }

    /// Takes back what is in flight.
    pub(crate) fn take_back(&mut self, rt: &impl Wait) {
        self.emitting.take_back(rt, &mut self.record);
    }

    /// Takes what is pending, and what the state holds, which has this value: nobody emits or sets any more.
    pub(crate) fn drain(&mut self, value: u64) {
        self.receiving.drain(&mut self.record);
        self.state.ask();
        self.record.expect(self.state.has_last(value));
    }

    /// Ends all that is there.
    pub(crate) fn end(self, rt: &impl Wait) -> Record {
        let Worker {
            random: _,
            emitting,
            receiving,
            state,
            mut record,
        } = self;
        receiving.end(rt, &mut record);
        emitting.end(rt);
        state.end(&mut record);
        record
    }
}
