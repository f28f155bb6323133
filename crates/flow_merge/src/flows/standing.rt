//! Runs that stand side by side.

ghost use Rattle.std.specs.Prelude.{◌≡◌, ◌+◌, ◌<◌, ◌≤◌, IsTrue, vec_len, vec_capacity};
ghost use Rattle.futures.specs.Poll.{OnPending};
ghost use Rattle.futures.specs.Task.{IsArmed, Keeps};
ghost use Rattle.std.specs.List.{remove};
ghost use Rattle.flow_merge.specs.Standing.{Answered, StandsBefore, all_stopped};

use cold_flow::{Event, Run};
use futures::task::{Context, Poll};

// Asks the run at a place. Where it has ended, what is told is of the others.
pub(crate) fn ask_at<R: Run>(
    runs: &mut Vec<R>,
    index: usize,
    cx: &mut Context<'_>,
) -> Poll<Event<R::Item, R::Fault>>
    requires { index < vec_len runs.old }
    ensures answered { Answered R.may runs.old.items index result runs.new.items }
    ensures len { vec_len runs.new ≡ vec_len runs.old }
    ensures armed { OnPending result (IsArmed cx.new) }
    ensures kept { Keeps cx.old cx.new }
{
    let run = &mut runs[index];
    run.poll_next(cx)
}

// Lets the run at a place leave: those behind it move up. The answer is where the turn is then.
pub(crate) fn leave<R: Drop>(runs: &mut Vec<R>, turn: usize, index: usize) -> usize
    requires stands { index < vec_len runs.old }
    requires within { turn ≤ vec_len runs.old }
    ensures left { runs.new.items ≡ remove runs.old.items index }
    ensures len { vec_len runs.new + 1 ≡ vec_len runs.old }
    ensures moves_up { index < turn → result + 1 ≡ turn }
    ensures stays { turn ≤ index → result ≡ turn }
{
    let _ended = runs.remove(index);
    if index < turn {
        return turn - 1;
    }
    turn
}

// Lets one more run stand before the turn, so that it is asked after all others. The answer is where the turn is then.
pub(crate) fn stand_before<R: Run>(runs: &mut Vec<R>, turn: usize, run: R) -> usize
    requires within { turn ≤ vec_len runs.old }
    requires room { vec_len runs.old < vec_capacity runs.old }
    ensures stands { StandsBefore runs.old.items turn run runs.new.items result }
    ensures len { vec_len runs.new ≡ vec_len runs.old + 1 }
    ensures within { result ≤ vec_len runs.new }
{
    // Behind the last one is before the first one, too, and there none moves.
    if turn == 0 || turn == runs.len() {
        runs.push_reserved(run);
        return 0;
    }
    if runs.insert(turn, run).is_err() {
        unreachable!()
    }
    turn + 1
}

// Lets a run stand in place of the one at the turn, so that it is asked after all others. The answer is where the turn is then.
pub(crate) fn stand_in_place<R: Drop>(runs: &mut Vec<R>, turn: usize, run: R) -> usize
    requires { turn < vec_len runs.old }
    ensures stands { StandsBefore (remove runs.old.items turn) turn run runs.new.items result }
    ensures len { vec_len runs.new ≡ vec_len runs.old }
    ensures within { result ≤ vec_len runs.new }
{
    runs[turn] = run;
    turn + 1
}

// Cancels each of them.
pub(crate) fn cancel_all<R: Run>(runs: &mut Vec<R>)
    ensures stopped { IsTrue (all_stopped R.stopped runs.new.items) }
    ensures len { vec_len runs.new ≡ vec_len runs.old }
{
    for run in runs.iter_mut() {
        run.cancel();
    }
}
