//! A shared flow for threads: its one emitter, and its subscriptions.

ghost use Rattle.std.specs.Prelude.{◌≡◌, None};

use crate::fault::Fault;
use crate::sides::{Emits, EmitsBlocks, Ends, Feeds};
use shared_core::Tried;
use shared_flow::{Emitter, SharedFlow, Subscription};
use std::sync::Wait;

/// An emitter that has nothing in flight. It must be closed.
pub(crate) struct IdleEmitter {
    emitter: Emitter<u64>,
    ghost idle: { emitter.ticket ≡ None },
}

impl IdleEmitter {
    pub(crate) fn of(flow: &mut SharedFlow<u64>) -> Result<IdleEmitter, Fault> {
        let emitter = flow.emitter(0)?;
        Ok(IdleEmitter { emitter })
    }

    pub(crate) fn close<R: Wait>(self, rt: &R) {
        let IdleEmitter { emitter } = self;
        let _idle = emitter.close(rt);
    }
}

impl Emits for IdleEmitter {
    #[inline]
    fn emit<R: Wait>(&mut self, rt: &R, value: u64) -> bool {
        matches!(self.emitter.try_emit(rt, value), Ok(Tried::Accepted(_)))
    }
}

impl EmitsBlocks for IdleEmitter {
    #[inline]
    fn emit_block<R: Wait>(&mut self, rt: &R, block: &[u64]) -> u64 {
        self.emitter.try_emit_all(rt, block).unwrap_or(0)
    }
}

impl Feeds for IdleEmitter {
    #[inline]
    fn feed<R: Wait>(&mut self, rt: &R, next: u64, _end: u64) -> u64 {
        u64::from(self.emit(rt, next))
    }
}

impl Ends for Subscription<u64> {
    fn end<R: Wait>(self, rt: &R) {
        self.cancel(rt);
    }
}
