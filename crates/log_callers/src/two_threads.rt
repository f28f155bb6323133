//! A program of two threads: one emits, and the other writes down what comes.
ghost use Rattle.std.specs.Prelude.{◌≡◌, ◌+◌, length, None, IfOk, IfErr};
ghost use Rattle.flow_terms.specs.declared.refusal.Refusal.TheVariants.{NoMemory};
ghost use Rattle.log_callers.specs.Logs.{IsWholeLog};
ghost use Rattle.shared_flow.specs.Emitted.{emitted, GrewByAll};
ghost use Rattle.shared_flow.specs.Parties.{received};

use crate::event_log::log_whole;
use shared_flow::{CutShort, Emitter, Parker, Refusal, Subscription};
use std::sync::Wait;
use std::thread::{Threads, join_mut};

/// Emits the values in one thread, and in another waits for so many events, each of which is written into a log that has all that the
/// reader received before. Both threads sleep where they have to wait.
pub fn emit_and_log<R: Threads + Wait + Sync>(
    rt: &R,
    emitter: &mut Emitter<u64>,
    sending: &mut Parker,
    values: &[u64],
    reader: &mut Subscription<u64>,
    receiving: &mut Parker,
    count: usize,
    log: &mut Vec<u64>,
) -> (Result<u64, CutShort>, Result<(), Refusal>)
    requires idle { emitter.old.ticket ≡ None }
    requires begun { log.old.items ≡ received (λ word. word) reader.old }
    ensures has { IsWholeLog log.new.items reader.new }
    ensures all { IfOk result.1 (λ _. length log.new.items ≡ length log.old.items + count) }
    ensures refused { IfErr result.1 (λ refusal. refusal ≡ NoMemory) }
    ensures emits { GrewByAll (emitted emitter.old) values.now result.0 (emitted emitter.new) }
    ensures idle { emitter.new.ticket ≡ None }
{
    join_mut(
        rt,
        &mut ||
            requires { emitter.now.ticket ≡ None }
            ensures emits { GrewByAll (emitted emitter.entry.now) values.entry.now result (emitted emitter.exit.now) }
            ensures idle { emitter.exit.now.ticket ≡ None }
        { emitter.emit_all(rt, sending, values) },
        &mut ||
            requires { log.now.items ≡ received (λ word. word) reader.now }
            ensures whole { IsWholeLog log.exit.now.items reader.exit.now }
            ensures all { IfOk result (λ _. length log.exit.now.items ≡ length log.entry.now.items + count) }
            ensures refused { IfErr result (λ refusal. refusal ≡ NoMemory) }
        { log_whole(rt, receiving, reader, count, log) },
    )
}
