//! `to_list`: all values of a finite run at once.

ghost use Rattle.std.specs.Prelude.{◌≡◌, IfOk, IfErr};
ghost use Rattle.futures.specs.Task.{Keeps};
ghost use Rattle.flow_terms.specs.declared.refusal.Refusal.TheVariants.{NoMemory};
ghost use Rattle.cold_flow.specs.Trace.{ended_by};
ghost use Rattle.cold_flow.specs.Poll.{Fixes};
ghost use Rattle.cold_flow.specs.Polled.{TakesAll};

use crate::ends::collect::Collected;
use crate::event::Event;
use crate::run::Finite;
use flow_terms::Refusal;
use futures::task::{Context, Poll};
use std::alloc::Global;

/// Polls `run` to its end, and gives its values and its cause: Kotlin's `toList`, for a run that is known to end.
///
/// A pending answer is asked again at once. Where memory lacks for a value the run is cancelled, and `Refusal::NoMemory` is answered.
pub fn to_list<R: Finite>(
    alloc: Global,
    mut run: R,
    cx: &mut Context<'_>,
) -> Result<Collected<R::Item, R::Fault>, Refusal>
    ensures gave { IfOk result (λ d. R.may run (ended_by d.values.items d.cause)) }
    ensures exact { (whole : _) → Fixes whole (R.may run) → IfOk result (λ d. ended_by d.values.items d.cause ≡ whole) }
    ensures took { TakesAll R.polled R.cancelled R.stopped run result }
    ensures refused { IfErr result (λ e. e ≡ NoMemory) }
    ensures kept { Keeps cx.old cx.new }
{
    let mut values = Vec::new(alloc);
    'polls: loop {
        match run.poll_next(cx) {
            Poll::Ready(Event::Value(value)) => {
                if values.push(value).is_err() {
                    run.cancel();
                    return Err(Refusal::NoMemory);
                }
            }
            Poll::Ready(Event::End(cause)) => return Ok(Collected { values, cause }),
            Poll::Pending => {}
        }
    }
}
