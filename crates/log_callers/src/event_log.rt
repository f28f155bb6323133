//! A log of what a subscription receives.
ghost use Rattle.std.specs.Prelude.{◌≡◌, ◌+◌, length, IfOk, IfErr};
ghost use Rattle.flow_terms.specs.declared.refusal.Refusal.TheVariants.{NoMemory};
ghost use Rattle.log_callers.specs.Logs.{Logs, IsWholeLog};
ghost use Rattle.shared_flow.specs.Parties.{received};

use shared_flow::{Parker, Refusal, Subscription};
use std::sync::Wait;

/// Waits for an event, and writes it into the log: one turn of Kotlin's `collect { log += it }`. Refused as `NoMemory`, and then
/// nothing was received and nothing written.
pub fn log_one(
    rt: &impl Wait,
    parker: &mut Parker,
    reader: &mut Subscription<u64>,
    log: &mut Vec<u64>,
) -> Result<(), Refusal>
    ensures logged { Logs log.old.items reader.old log.new.items reader.new }
    ensures one { IfOk result (λ _. length log.new.items ≡ length log.old.items + 1) }
    ensures refused { IfErr result (λ refusal. refusal ≡ NoMemory) }
{
    log.reserve(1)?;
    let event = reader.next(rt, parker)?;
    log.push_reserved(event);
    Ok(())
}

/// Waits for so many events, and writes each into the log. Refused as `NoMemory`: what was received until then is in the log.
pub fn log_events(
    rt: &impl Wait,
    parker: &mut Parker,
    reader: &mut Subscription<u64>,
    count: usize,
    log: &mut Vec<u64>,
) -> Result<(), Refusal>
    ensures logged { Logs log.old.items reader.old log.new.items reader.new }
    ensures all { IfOk result (λ _. length log.new.items ≡ length log.old.items + count) }
    ensures refused { IfErr result (λ refusal. refusal ≡ NoMemory) }
{
    for _turn in 0..count {
        log_one(rt, parker, reader, log)?;
    }
    Ok(())
}

/// The same, for a log that has all that the subscription received so far, as an empty one has at its start. What then stands in
/// the log and what is pending is all that was accepted since the start, less what the policy dropped.
pub fn log_whole(
    rt: &impl Wait,
    parker: &mut Parker,
    reader: &mut Subscription<u64>,
    count: usize,
    log: &mut Vec<u64>,
) -> Result<(), Refusal>
    requires begun { log.old.items ≡ received (λ word. word) reader.old }
    ensures whole { IsWholeLog log.new.items reader.new }
    ensures all { IfOk result (λ _. length log.new.items ≡ length log.old.items + count) }
    ensures refused { IfErr result (λ refusal. refusal ≡ NoMemory) }
{
    let logged = log_events(rt, parker, reader, count, log);
    reader.receives_all_but_dropped();
    logged
}

/// Waits for an event, and writes all that are there into the log, as many as it has room for.
pub fn log_all_there(
    rt: &impl Wait,
    parker: &mut Parker,
    reader: &mut Subscription<u64>,
    log: &mut Vec<u64>,
) -> Result<u64, Refusal>
    ensures logged { Logs log.old.items reader.old log.new.items reader.new }
    ensures refused { IfErr result (λ refusal. refusal ≡ NoMemory) }
{
    reader.next_all(rt, parker, log)
}
