//! Several runs that stand side by side: one that has finished stands no more, and keeps its place.

ghost use Rattle.std.specs.Prelude.{◌≡◌, ◌<◌, ◌≤◌, None, IsTrue, IfOk, IfErr, vec_len};
ghost use Rattle.std.specs.List.{AllZip};
ghost use Rattle.flow_terms.specs.declared.refusal.Refusal.TheVariants.{NoMemory};
ghost use Rattle.futures.specs.Poll.{OnPending};
ghost use Rattle.futures.specs.Task.{IsArmed, Keeps};
ghost use Rattle.cold_flow.specs.Poll.{Narrows, Approaches, IsReady};
ghost use Rattle.flow_merge.specs.Asking.{Asks, standing_stopped};
ghost use Rattle.flow_merge.specs.Concat.{MayStand};
ghost use Rattle.flow_merge.specs.Counting.{standing_polls};
ghost use Rattle.more_merges.specs.Joins.{MayJoin, AllApproach, Began, EachHasWaited, IsPlace, StandsSo, all_polls, each_is, indexed};
ghost use Rattle.more_merges.specs.Standing.{HasStandingWaited, OnNothing, standing_prompt};

use crate::flows::standing::{ask_standing, cancel_standing};
use cold_flow::{Cause, Event, Flow, Refusal, Run};
use futures::task::{Context, Poll};
use std::alloc::Global;

// Starts a run of each flow, which stands at the place of the flow. Where one is refused, those before it are cancelled.
pub(crate) fn start_sides<F: Flow>(
    alloc: Global,
    flows: &[F],
) -> Result<Vec<Option<F::Running>>, Refusal>
    ensures began { IfOk result (λ sides. AllZip (Began F.may F.polls F.prompt F.Running.may F.Running.polls F.Running.prompt) flows.now sides.items) }
    ensures refused { IfErr result (λ refusal. refusal ≡ NoMemory) }
{
    let mut sides = Vec::with_capacity(alloc, flows.len())?;
    'starts: for flow in flows {
        match flow.start() {
            Ok(run) => sides.push_reserved(Some(run)),
            Err(refusal) => {
                cancel_sides(&mut sides);
                return Err(refusal);
            }
        }
    }
    Ok(sides)
}

// Asks the run at a place, if one stands there.
fn ask_at<R: Run>(
    sides: &mut Vec<Option<R>>,
    place: usize,
    cx: &mut Context<'_>,
) -> Poll<Option<Event<R::Item, R::Fault>>>
    requires { place < vec_len sides.old }
    ensures asked { Asks (MayJoin (MayStand R.may) sides.old.items) (indexed place result) (MayJoin (MayStand R.may) sides.new.items) }
    ensures approaches { AllApproach (all_polls (standing_polls R.polls) sides.old.items) result (all_polls (standing_polls R.polls) sides.new.items) }
    ensures prompt { IsTrue (each_is (standing_prompt R.prompt) sides.old.items) → IsReady result
        × IsTrue (each_is (standing_prompt R.prompt) sides.new.items) }
    ensures stands { StandsSo R.polled sides.old.items place result sides.new.items }
    ensures len { vec_len sides.new ≡ vec_len sides.old }
    ensures armed { OnPending result (IsArmed cx.new) }
    ensures kept { Keeps cx.old cx.new }
{
    let side = &mut sides[place];
    ask_standing(side, cx)
}

// The place of the one that is asked after `asked` others, from `first` on.
fn place_after(first: usize, asked: usize, count: usize) -> usize
    requires within { first ≤ count }
    requires left { asked < count }
    ensures within { result < count }
    ensures place { IsPlace count first asked result }
{
    let behind = count - first;
    if asked < behind {
        return first + asked;
    }
    asked - behind
}

// Asks the runs that stand one after the other, from the place `first` on, until one gives a value or fails.
pub(crate) fn ask_sides<R: Run>(
    sides: &mut Vec<Option<R>>,
    first: usize,
    cx: &mut Context<'_>,
) -> Poll<Event<(usize, R::Item), R::Fault>>
    requires { first ≤ vec_len sides.old }
    ensures narrows { Narrows (MayJoin (MayStand R.may) sides.old.items) result (MayJoin (MayStand R.may) sides.new.items) }
    ensures approaches { Approaches (all_polls (standing_polls R.polls) sides.old.items) result (all_polls (standing_polls R.polls) sides.new.items) }
    ensures prompt { IsTrue (each_is (standing_prompt R.prompt) sides.old.items) → IsReady result
        × IsTrue (each_is (standing_prompt R.prompt) sides.new.items) }
    ensures waits { OnPending result (EachHasWaited R.polled sides.new.items) }
    ensures len { vec_len sides.new ≡ vec_len sides.old }
    ensures armed { OnPending result (IsArmed cx.new) }
    ensures kept { Keeps cx.old cx.new }
{
    let count = sides.len();
    let mut waits = false;
    'places: for asked in 0..count {
        let place = place_after(first, asked, count);
        match ask_at(sides, place, cx) {
            Poll::Ready(Some(Event::Value(value))) => {
                return Poll::Ready(Event::Value((place, value)));
            }
            Poll::Ready(Some(Event::End(cause))) => return Poll::Ready(Event::End(cause)),
            Poll::Ready(None) => {}
            Poll::Pending => waits = true,
        }
    }
    if waits {
        return Poll::Pending;
    }
    Poll::Ready(Event::End(Cause::Finished))
}

// Cancels each run that stands.
pub(crate) fn cancel_sides<R: Run>(sides: &mut Vec<Option<R>>)
    ensures stops { IsTrue (each_is (standing_stopped R.stopped) sides.new.items) }
    ensures len { vec_len sides.new ≡ vec_len sides.old }
{
    for side in sides.iter_mut() {
        cancel_standing(side);
    }
}
