//! A thread that sleeps for a run.

ghost use Rattle.std.specs.Prelude.{◌≡◌, ◌⊎◌, [], IfOk, IfErr, MatchOption, ◌++◌};
ghost use Rattle.futures.specs.Poll.{OnPending};
ghost use Rattle.futures.specs.Task.{IsArmed};
ghost use Rattle.futures.specs.declared.task.Poll.TheVariants.{Ready};
ghost use Rattle.flow_terms.specs.declared.refusal.Refusal.TheVariants.{NoMemory};
ghost use Rattle.cold_flow.specs.Poll.{Narrows, end_of};
ghost use Rattle.cold_flow.specs.Polled.{Gave};
ghost use Rattle.hot_sources.specs.Waiting.{Came, TookSome, TookAll, EndedAfter};
ghost use Rattle.hot_sources.specs.WaitingLaws.{TookUpTo};

use cold_flow::{Cause, Event, Refusal, Run};
use futures::task::{Context, Poll};
use shared_flow::Parker;
use std::alloc::AllocGlobal;
use std::random::RandomSource;
use std::sync::Wait;

/// The next value of `chain`, or its end, for which the thread sleeps: one turn of Kotlin's `collect`.
///
/// It polls the run, and sleeps where that answers pending until a source of it wakes the thread. That a wake arrives isn't claimed.
/// Refused as `NoMemory` where the parker finds no memory to wait by, and then nothing was asked.
pub fn next_of<S: Run>(
    rt: &impl Wait,
    parker: &mut Parker,
    chain: &mut S,
) -> Result<Event<S::Item, S::Fault>, Refusal>
    ensures narrows { IfOk result (λ event. Narrows (S.may chain.old) (Ready event) (S.may chain.new)) }
    ensures ends { IfOk result (λ event. S.ended chain.new ≡ end_of (Ready event)) }
    ensures came { IfOk result (λ event. Came S.polled chain.old event chain.new) }
    ensures refused { IfErr result (λ refusal. (refusal ≡ NoMemory) × (chain.new ≡ chain.old)) }
{
    parker.begin()?;
    'turns: for _ in rt.forever() {
        let Some(mut cx) = parker.turn(rt) else {
            continue;
        };
        let polled = chain.poll_next(&mut cx);
        cx.end(&polled);
        if let Poll::Ready(event) = polled {
            return Ok(event);
        }
    }
    unreachable!()
}

/// Adds the next `count` values of `chain` to `out`, for each of which the thread sleeps: Kotlin's `take(count).toList()`. Where the
/// run ends before, it answers why, and `out` has the values up to that.
///
/// Values that are there are taken within one turn, so each costs a poll. Nothing behind the last of them is taken, and the run goes on,
/// or `cancel` ends it. Refused as `NoMemory` where `out` has no room and gets none, before a value is taken for it, or there is none to
/// wait by; `out` has the values that were taken until then.
pub fn take_of<S: Run>(
    rt: &impl Wait,
    parker: &mut Parker,
    chain: &mut S,
    count: usize,
    out: &mut Vec<S::Item>,
) -> Result<Option<Cause<S::Fault>>, Refusal>
    ensures took { IfOk result (λ ending. MatchOption ending
        (TookAll S.polled count chain.old out.old.items out.new.items chain.new)
        (λ cause. EndedAfter S.polled S.may chain.old out.old.items out.new.items cause chain.new)) }
    ensures refused { IfErr result (λ refusal. (refusal ≡ NoMemory) × TookSome S.polled chain.old out.old.items out.new.items chain.new) }
{
    if count == 0 {
        return Ok(None);
    }
    parker.begin()?;
    let mut left = count;
    'turns: for _ in rt.forever() {
        let Some(mut cx) = parker.turn(rt) else {
            continue;
        };
        let polled = take_ready(chain, &mut left, out, &mut cx);
        cx.end(&polled);
        if let Poll::Ready(taken) = polled {
            return taken;
        }
    }
    unreachable!()
}

/// The next `count` values of `chain` as a list, for each of which the thread sleeps: Kotlin's `take(count).toList()`. It is shorter
/// where the run ended before; [`end`](Run::end) tells why.
///
/// It takes by [`take_of`], with a parker and a list of its own: so nothing behind the last value is taken, and the run goes on. Refused
/// as `NoMemory`, and then the values that were taken are let go: who has to keep them calls `take_of`.
pub fn take_list<R, S: Run>(rt: &R, chain: &mut S, count: usize) -> Result<Vec<S::Item>, Refusal>
where
    R: Wait + RandomSource + AllocGlobal,
    ensures took { IfOk result (λ list. TookAll S.polled count chain.old [] list.items chain.new
        ⊎ ((cause : _) × EndedAfter S.polled S.may chain.old [] list.items cause chain.new)) }
    ensures refused { IfErr result (λ refusal. (refusal ≡ NoMemory) × ((xs : _) × Gave S.polled chain.old xs chain.new)) }
{
    let mut parker = Parker::new(rt)?;
    let mut list = Vec::new(rt.alloc());
    take_of(rt, &mut parker, chain, count, &mut list)?;
    Ok(list)
}

// Adds the values of `chain` that are there to `out`, `left` at most, within one turn. Pending where the chain is, and then `left` tells
// how many are still to come; ready with the end, with nothing once all `left` are there, or refused where `out` has no room.
fn take_ready<S: Run>(
    chain: &mut S,
    left: &mut usize,
    out: &mut Vec<S::Item>,
    cx: &mut Context<'_>,
) -> Poll<Result<Option<Cause<S::Fault>>, Refusal>>
    ensures took { TookUpTo S.polled S.may chain.old out.old.items left.old result out.new.items chain.new left.new }
    ensures armed { OnPending result (IsArmed cx.new) }
{
    let most = *left;
    'values: for taken in 0..most {
        if out.reserve(1).is_err() {
            return Poll::Ready(Err(Refusal::NoMemory));
        }
        match chain.poll_next(cx) {
            Poll::Ready(Event::Value(value)) => out.push_reserved(value),
            Poll::Ready(Event::End(cause)) => return Poll::Ready(Ok(Some(cause))),
            Poll::Pending => {
                *left = most - taken;
                return Poll::Pending;
            }
        }
    }
    Poll::Ready(Ok(None))
}
