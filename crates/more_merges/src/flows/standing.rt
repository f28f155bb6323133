//! A run that stands, if any: one that has finished stands no more.

ghost use Rattle.std.specs.Prelude.{◌≡◌, None, IsTrue, IsOk, IfOk, IfErr};
ghost use Rattle.futures.specs.Poll.{OnPending};
ghost use Rattle.futures.specs.Task.{IsArmed, Keeps};
ghost use Rattle.flow_terms.specs.declared.refusal.Refusal.TheVariants.{NoMemory};
ghost use Rattle.cold_flow.specs.Poll.{Within, IsReady};
ghost use Rattle.flow_merge.specs.Asking.{Asks, standing_stopped};
ghost use Rattle.flow_merge.specs.Concat.{MayStand};
ghost use Rattle.more_merges.specs.Standing.{IsLetGo, WasAsked, HasStandingWaited, OnNothing, IsNoFinish, StandingApproaches, standing_prompt};

use cold_flow::{Cause, Event, Flow, Refusal, Run};
use futures::task::{Context, Poll};

// Asks the run that stands. Where none does, or it has finished, the answer is `Ready(None)`, and none stands then.
pub(crate) fn ask_standing<R: Run>(
    standing: &mut Option<R>,
    cx: &mut Context<'_>,
) -> Poll<Option<Event<R::Item, R::Fault>>>
    ensures asked { Asks (MayStand R.may standing.old) result (MayStand R.may standing.new) }
    ensures nothing { OnNothing result (standing.new ≡ None) }
    ensures fails { IsNoFinish result }
    ensures approaches { StandingApproaches R.polls standing.old result standing.new }
    ensures prompt { IsTrue (standing_prompt R.prompt standing.old) → IsReady result × IsTrue (standing_prompt R.prompt standing.new) }
    ensures once { WasAsked R.polled standing.old standing.new }
    ensures waits { OnPending result (HasStandingWaited R.polled standing.new) }
    ensures armed { OnPending result (IsArmed cx.new) }
    ensures kept { Keeps cx.old cx.new }
{
    match standing {
        Some(run) => match run.poll_next(cx) {
            Poll::Ready(Event::Value(value)) => Poll::Ready(Some(Event::Value(value))),
            Poll::Ready(Event::End(cause)) => {
                if let Cause::Finished = cause {
                    *standing = None;
                    return Poll::Ready(None);
                }
                Poll::Ready(Some(Event::End(cause)))
            }
            Poll::Pending => Poll::Pending,
        },
        None => Poll::Ready(None),
    }
}

// Cancels the run that stands, if any.
pub(crate) fn cancel_standing<R: Run>(standing: &mut Option<R>)
    ensures stops { IsTrue (standing_stopped R.stopped standing.new) }
    ensures let_go { IsLetGo R.cancelled R.stopped standing.old }
{
    if let Some(run) = standing {
        run.cancel();
    }
}

// Cancels the run that stands, if any, and starts one of `flow` in its place.
pub(crate) fn stand_instead<F: Flow>(
    standing: &mut Option<F::Running>,
    flow: &F,
) -> Result<(), Refusal>
    ensures gives { IfOk result (λ _. Within (F.may flow.now) (MayStand F.Running.may standing.new)) }
    ensures starts { IsTrue (F.starts flow.now) → IsOk result }
    ensures refused { IfErr result (λ e. e ≡ NoMemory) }
    ensures let_go { IsLetGo F.Running.cancelled F.Running.stopped standing.old }
{
    cancel_standing(standing);
    *standing = Some(flow.start()?);
    Ok(())
}
