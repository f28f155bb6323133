//! What each call on a state of any type answers, on one thread, and when its values are let go.

use crate::parcels::{Answer, Parcel, Tally, assert_let_go, parcel_of, said, tally_of};
use std::alloc::{AllocError, AllocGlobal};
use std::process::Abort;
use std::sync::{Arc, Wait};
use std::time::{Clock, Duration};
use value_states::{Collected, ValueState, Watcher};

/// A call on a state, or on its watcher.
#[derive(Clone, Copy)]
enum Call {
    Set(u64),
    Replace(u64),
    /// To the second number, where it has the first.
    CompareAndSet(u64, u64),
    /// Unless it has it.
    SetDistinct(u64),
    /// By one, by `update`.
    CountUp,
    Value,
    Read,
    TryNext,
    TryReadNext,
    Next,
    /// For no time at all.
    NextWithin,
    ReadNext,
    /// All are let go.
    Stop,
    IsStopped,
    /// From now on clones are refused, or not.
    Refuse(bool),
    /// How many parcels are left.
    Left,
}

/// Calls on a state of 1 and its watcher, and what each has to answer.
const ROWS: &[(Call, Answer)] = &[
    // Each later value is given once, and nothing where there is none.
    (Call::TryNext, Answer::Number(1)),
    (Call::TryNext, Answer::Nothing),
    (Call::Set(2), Answer::Done),
    (Call::Set(3), Answer::Done),
    (Call::Left, Answer::Number(1)),
    (Call::Next, Answer::Number(3)),
    (Call::NextWithin, Answer::Nothing),
    // An equal value counts.
    (Call::Set(3), Answer::Done),
    (Call::TryReadNext, Answer::Number(3)),
    (Call::TryReadNext, Answer::Nothing),
    (Call::CountUp, Answer::Number(4)),
    (Call::Replace(7), Answer::Number(4)),
    (Call::Read, Answer::Number(7)),
    (Call::Value, Answer::Number(7)),
    (Call::Left, Answer::Number(1)),
    // Of a value whose clone is refused nothing is given: the next ask finds it again.
    (Call::Refuse(true), Answer::Done),
    (Call::Value, Answer::Refused),
    (Call::TryNext, Answer::Refused),
    (Call::Next, Answer::Refused),
    (Call::NextWithin, Answer::Refused),
    (Call::Refuse(false), Answer::Done),
    (Call::NextWithin, Answer::Number(7)),
    (Call::TryNext, Answer::Nothing),
    // One that compares sets another value where it answers so, and else nothing.
    (Call::CompareAndSet(6, 5), Answer::No),
    (Call::SetDistinct(7), Answer::No),
    (Call::TryNext, Answer::Nothing),
    (Call::CompareAndSet(7, 5), Answer::Yes),
    (Call::TryNext, Answer::Number(5)),
    (Call::SetDistinct(6), Answer::Yes),
    (Call::TryNext, Answer::Number(6)),
    (Call::Left, Answer::Number(1)),
    // A stop is told once there is nothing new, and what is set after it is given, too.
    (Call::Set(8), Answer::Done),
    (Call::IsStopped, Answer::No),
    (Call::Stop, Answer::Done),
    (Call::IsStopped, Answer::Yes),
    (Call::ReadNext, Answer::Number(8)),
    (Call::ReadNext, Answer::Stopped),
    (Call::Next, Answer::Stopped),
    (Call::NextWithin, Answer::Stopped),
    (Call::Set(9), Answer::Done),
    (Call::Next, Answer::Number(9)),
    (Call::Left, Answer::Number(1)),
];

fn shown(parcel: &Parcel) -> Answer {
    Answer::Number(parcel.number)
}

fn cloned(answer: Result<Parcel, AllocError>) -> Answer {
    match answer {
        Ok(parcel) => shown(&parcel),
        Err(_) => Answer::Refused,
    }
}

fn collected(answer: Collected<Answer>) -> Answer {
    match answer {
        Collected::Value(answer) => answer,
        Collected::Stopped => Answer::Stopped,
    }
}

fn awaited(answer: Result<Collected<Parcel>, AllocError>) -> Answer {
    match answer {
        Ok(Collected::Value(parcel)) => shown(&parcel),
        Ok(Collected::Stopped) => Answer::Stopped,
        Err(_) => Answer::Refused,
    }
}

fn asked(answer: Result<Option<Parcel>, AllocError>) -> Answer {
    match answer {
        Ok(Some(parcel)) => shown(&parcel),
        Ok(None) => Answer::Nothing,
        Err(_) => Answer::Refused,
    }
}

fn awaited_within<R: Wait + Clock>(rt: &R, watcher: &mut Watcher<Parcel>) -> Answer {
    match watcher.next_within(rt, Duration::ZERO) {
        Ok(Some(Collected::Value(parcel))) => shown(&parcel),
        Ok(Some(Collected::Stopped)) => Answer::Stopped,
        Ok(None) => Answer::Nothing,
        Err(_) => Answer::Refused,
    }
}

fn count_up(parcel: &mut Parcel) -> Answer {
    parcel.number = parcel.number.wrapping_add(1);
    shown(parcel)
}

/// Has the state set a parcel with this number.
fn set<R: Wait + Abort>(
    rt: &R,
    state: &mut ValueState<Parcel>,
    tally: &Arc<Tally>,
    number: u64,
) -> Answer {
    state.set(rt, parcel_of(rt, tally, number));
    Answer::Done
}

/// Has it replace its own by one with this number.
fn replace<R: Wait + Abort>(
    rt: &R,
    state: &mut ValueState<Parcel>,
    tally: &Arc<Tally>,
    number: u64,
) -> Answer {
    shown(&state.replace(rt, parcel_of(rt, tally, number)))
}

/// Has it set a parcel with the second number, where its own has the first.
fn compare_and_set<R: Wait + Abort>(
    rt: &R,
    state: &mut ValueState<Parcel>,
    tally: &Arc<Tally>,
    expect: u64,
    update: u64,
) -> Answer {
    let expected = parcel_of(rt, tally, expect);
    said(state.compare_and_set(rt, &expected, parcel_of(rt, tally, update)))
}

/// Has it set a parcel with this number, unless its own has it.
fn set_distinct<R: Wait + Abort>(
    rt: &R,
    state: &mut ValueState<Parcel>,
    tally: &Arc<Tally>,
    number: u64,
) -> Answer {
    said(state.set_distinct(rt, parcel_of(rt, tally, number)))
}

impl Call {
    /// What the watcher answers, to a call of its own.
    fn ask<R: Wait + Clock>(self, rt: &R, watcher: &mut Watcher<Parcel>) -> Answer {
        match self {
            Call::TryNext => asked(watcher.try_next(rt)),
            Call::TryReadNext => watcher
                .try_read_next(rt, |parcel| shown(parcel))
                .unwrap_or(Answer::Nothing),
            Call::Next => awaited(watcher.next(rt)),
            Call::NextWithin => awaited_within(rt, watcher),
            Call::ReadNext => collected(watcher.read_next(rt, |parcel| shown(parcel))),
            _ => said(watcher.is_stopped()),
        }
    }

    /// What the state answers, or does.
    fn make<R: Wait + Abort>(
        self,
        rt: &R,
        state: &mut ValueState<Parcel>,
        tally: &Arc<Tally>,
    ) -> Answer {
        match self {
            Call::Set(number) => return set(rt, state, tally, number),
            Call::Replace(number) => return replace(rt, state, tally, number),
            Call::CompareAndSet(expect, update) => {
                return compare_and_set(rt, state, tally, expect, update);
            }
            Call::SetDistinct(number) => return set_distinct(rt, state, tally, number),
            Call::Value => return cloned(state.value(rt)),
            Call::Read => return state.read(rt, |parcel| shown(parcel)),
            Call::CountUp => return state.update(rt, |parcel| count_up(parcel)),
            Call::Left => return Answer::Number(tally.left()),
            Call::Refuse(refuses) => tally.refuse(refuses),
            _ => state.stop(),
        }
        Answer::Done
    }

    fn answer<R: Wait + Clock + Abort>(
        self,
        rt: &R,
        state: &mut ValueState<Parcel>,
        watcher: &mut Watcher<Parcel>,
        tally: &Arc<Tally>,
    ) -> Answer {
        match self {
            Call::TryNext
            | Call::TryReadNext
            | Call::Next
            | Call::NextWithin
            | Call::ReadNext
            | Call::IsStopped => self.ask(rt, watcher),
            _ => self.make(rt, state, tally),
        }
    }
}

/// Makes each call of the table, and fails at the first that answers otherwise.
fn follow<R: Wait + Clock + Abort>(
    rt: &R,
    state: &mut ValueState<Parcel>,
    watcher: &mut Watcher<Parcel>,
    tally: &Arc<Tally>,
) {
    for (row, (call, wanted)) in ROWS.iter().enumerate() {
        let is_right = call.answer(rt, state, watcher, tally) == *wanted;
        assert!(rt; is_right, "row {row}");
    }
}

fn play<R: AllocGlobal + Wait + Clock + Abort>(rt: &R, tally: &Arc<Tally>) {
    let mut state = ValueState::new(rt.alloc(), parcel_of(rt, tally, 1)).expect(rt, "a state");
    let mut watcher = state.watch().expect(rt, "a watcher");
    follow(rt, &mut state, &mut watcher, tally);
}

/// Each call answers what it has to, and each parcel that was made is let go.
#[test]
fn each_row_gives_its_answer(rt: HostRuntime) {
    let tally = tally_of(&rt);
    play(&rt, &tally);
    assert_let_go(&rt, &tally);
}
