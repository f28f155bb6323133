//! A counter of what was accepted.
ghost use Rattle.std.specs.Prelude.{◌≡◌, ◌<◌, ◌^◌, ◌++◌, ◌∷◌, [], None, Ok, IfOk, IfErr, cond, sum};
ghost use Rattle.flow_terms.specs.declared.refusal.Refusal.TheVariants.{Spent};
ghost use Rattle.log_callers.specs.Counts.{Counts, StopsAt};
ghost use Rattle.shared_flow.specs.Emitted.{emitted, refused, outcome_of_try, was_accepted};

use shared_core::Tried;
use shared_flow::{Emitter, Receipt, Refusal};
use std::sync::Wait;

// What of a value a try accepted: all of it, or nothing.
fn accepted_part(tried: &Tried<Receipt>, value: u64) -> u64
    ensures { result ≡ cond (was_accepted (outcome_of_try (Ok tried.now))) value 0 }
{
    match tried {
        Tried::Accepted(_) => value,
        Tried::Dropped => 0,
        Tried::Full => 0,
    }
}

// Tries to emit a value, and returns what was accepted of it: the value, or 0.
fn try_one(rt: &impl Wait, emitter: &mut Emitter<u64>, value: u64) -> Result<u64, Refusal>
    requires idle { emitter.old.ticket ≡ None }
    ensures idle { emitter.new.ticket ≡ None }
    ensures counted { IfOk result (λ taken. Counts emitter.old (value ∷ []) emitter.new taken) }
    ensures stops { IfErr result (λ refusal. emitted emitter.new ≡ emitted emitter.old ++ (value, refused Spent) ∷ []) }
    ensures refused { IfErr result (λ refusal. refusal ≡ Spent) }
{
    let tried = emitter.try_emit(rt, value)?;
    Ok(accepted_part(&tried, value))
}

/// Tries to emit each value, one after another, and returns the sum of those that were accepted. Refused as `Spent` where the flow's
/// numbers are used up: the values before that were tried, and those after it weren't.
pub fn count_accepted(
    rt: &impl Wait,
    emitter: &mut Emitter<u64>,
    values: &[u64],
) -> Result<u64, Refusal>
    requires idle { emitter.old.ticket ≡ None }
    requires small { sum values.now < 2 ^ 64 }
    ensures counted { IfOk result (λ total. Counts emitter.old values.now emitter.new total) }
    ensures idle { emitter.new.ticket ≡ None }
    ensures stops { IfErr result (λ _. StopsAt emitter.old values.now emitter.new) }
    ensures refused { IfErr result (λ refusal. refusal ≡ Spent) }
{
    let mut total = 0;
    for value in values {
        let taken = try_one(rt, emitter, *value)?;
        total += taken;
    }
    Ok(total)
}
