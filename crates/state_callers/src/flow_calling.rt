//! Callers of a flow of any type.
ghost use Rattle.std.specs.Prelude.{IfOk};
ghost use Rattle.state_callers.specs.Logs.{IsAtEnd, IsLogOf, Turns};

use std::alloc::{AllocError, Global};
use std::sync::Wait;
use value_flows::{Config, Policy, Received, Refusal, Subscription, ValueFlow};

/// Waits for a text, and writes it into the log: one turn of Kotlin's `collect { log += it }`. Nothing is written of those that were
/// missed. Whether it goes on: not where the subscription was let go. Where there is no memory nothing was received.
pub fn log_text(
    rt: &impl Wait,
    texts: &mut Subscription<String>,
    log: &mut Vec<String>,
) -> Result<bool, AllocError>
    ensures logged { IsLogOf ⟦<String as Clone>⟧.is_clone texts.old log.old.items → IsLogOf ⟦<String as Clone>⟧.is_clone texts.new log.new.items }
    ensures turns { IfOk result (λ goes_on. Turns goes_on texts.old texts.new) }
{
    log.reserve(1)?;
    match texts.next(rt)? {
        Received::Value(text) => {
            log.push_reserved(text);
            Ok(true)
        }
        Received::Missed(_) => Ok(true),
        Received::Stopped => Ok(false),
        // `next` never answers so.
        Received::Nothing => Ok(false),
    }
}

/// Writes each text into the log until the subscription is let go.
pub fn log_texts(
    rt: &impl Wait,
    texts: &mut Subscription<String>,
    log: &mut Vec<String>,
) -> Result<(), AllocError>
    ensures logged { IsLogOf ⟦<String as Clone>⟧.is_clone texts.old log.old.items → IsLogOf ⟦<String as Clone>⟧.is_clone texts.new log.new.items }
    ensures all { IfOk result (λ _. IsAtEnd texts.new) }
{
    for _ in rt.forever() {
        if !log_text(rt, texts, log)? {
            return Ok(());
        }
    }
    unreachable!()
}

/// One place, of which the oldest text is dropped.
const ONE_PLACE: Config = Config {
    replay: 0,
    extra: 1,
    policy: Policy::DropOldest,
    subscribers: 1,
};

/// A text, from an emission to the log of a subscription.
pub fn logged_once(rt: &impl Wait, alloc: Global, text: String) -> Result<Vec<String>, Refusal> {
    let mut flow = ValueFlow::new(alloc, &ONE_PLACE)?;
    let mut texts = flow.subscribe(rt)?;
    drop(flow.try_emit(rt, text));
    flow.stop();
    let mut log = Vec::new(alloc);
    let logged = log_texts(rt, &mut texts, &mut log);
    drop(texts.cancel(rt));
    logged?;
    Ok(log)
}
