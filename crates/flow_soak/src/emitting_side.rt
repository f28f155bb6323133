//! A thread's side of a flow that emits.

use crate::random::Random;
use crate::record::{Record, Told};
use futures::task::Poll;
use futures::test::MockTask;
use shared_core::{Begun, Tried, Withdrawn};
use shared_flow::{Emitter, Receipt};
use std::sync::Wait;

/// The values of the thread with this id follow on this times the id.
pub(crate) const APART: u64 = 1 << 32;

/// How many values a block has at most, more than a subscription can have pending.
pub(crate) const BLOCK: usize = 12;

/// It must be ended.
pub(crate) struct EmittingSide {
    id: u32,
    emitter: Emitter<u64>,
    task: MockTask,
    /// The last value that the thread emitted or set.
    sent: u64,
    /// The value of its last emission that wasn't in a block.
    value: u64,
    /// The least number that its next accepted emission can have.
    least: u64,
}

impl EmittingSide {
    pub(crate) fn new(id: u32, emitter: Emitter<u64>, task: MockTask) -> EmittingSide {
        EmittingSide {
            id,
            emitter,
            task,
            sent: APART.wrapping_mul(u64::from(id)),
            value: 0,
            least: 0,
        }
    }

    /// A value that the thread didn't emit or set yet.
    pub(crate) fn next_value(&mut self) -> u64 {
        self.sent = self.sent.wrapping_add(1);
        self.sent
    }

    // Keeps a receipt, which has to be this emitter's.
    fn told(&mut self, receipt: &Receipt, record: &mut Record) {
        let number = receipt.number();
        let rises = number >= self.least;
        self.least = number.saturating_add(1);
        record.keep_told(Told {
            number: Some(number),
            value: self.value,
        });
        record.expect(rises && receipt.emitter() == self.id);
    }

    /// Tries some values at once, where no emission is in flight.
    pub(crate) fn try_block(&mut self, rt: &impl Wait, random: &mut Random, record: &mut Record) {
        let mut values = [0; BLOCK];
        for value in values.iter_mut() {
            *value = self.next_value();
        }
        let size = random.below(BLOCK as u64 + 1) as usize;
        let block = values.get(..size).unwrap_or(&[]);
        if self.emitter.in_flight() {
            return;
        }
        let accepted = self.emitter.try_emit_all(rt, block).unwrap_or(0);
        self.least = self.least.saturating_add(accepted);
        match block.get(..accepted as usize) {
            Some(accepted) => record.keep_told_block(accepted),
            None => record.expect(false),
        }
    }

    /// Tries an emission, or begins one, where none is in flight.
    pub(crate) fn emit(&mut self, rt: &impl Wait, random: &mut Random, record: &mut Record) {
        if self.emitter.in_flight() {
            return;
        }
        self.sent = self.sent.wrapping_add(1);
        self.value = self.sent;
        if random.below(2) == 0 {
            if let Ok(Tried::Accepted(receipt)) = self.emitter.try_emit(rt, self.value) {
                self.told(&receipt, record);
            }
        } else if let Ok(Begun::Accepted(receipt)) = self.emitter.start_emit(rt, self.value) {
            self.told(&receipt, record);
        }
    }

    /// Asks for what is in flight.
    pub(crate) fn ask(&mut self, rt: &impl Wait, record: &mut Record) {
        let emitter = &mut self.emitter;
        let polled = self.task.enter(|cx| {
            if !emitter.in_flight() {
                return None;
            }
            Some(emitter.poll_emit(rt, cx))
        });
        if let Some(Poll::Ready(receipt)) = polled {
            self.told(&receipt, record);
        }
    }

    /// Takes back what is in flight.
    pub(crate) fn take_back(&mut self, rt: &impl Wait, record: &mut Record) {
        if let Withdrawn::Left(receipt) = self.emitter.cancel_emit(rt) {
            self.told(&receipt, record);
        }
    }

    pub(crate) fn end(self, rt: &impl Wait) {
        let EmittingSide {
            id: _,
            emitter,
            task: _,
            sent: _,
            value: _,
            least: _,
        } = self;
        emitter.close(rt);
    }
}
