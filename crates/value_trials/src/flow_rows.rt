//! What each call on a flow of any type answers, on one thread, and when its values are let go.

use crate::parcels::{Answer, Parcel, Tally, assert_let_go, parcel_of, said, tally_of};
use std::alloc::{AllocError, AllocGlobal};
use std::process::Abort;
use std::sync::{Arc, Wait};
use std::time::{Clock, Duration};
use value_flows::{Config, Emitted, Policy, Received, Refusal, Subscription, ValueFlow};

/// A call on a flow, or on its first subscription.
#[derive(Clone, Copy)]
enum Call {
    TryEmit(u64),
    Emit(u64),
    TryNext,
    Next,
    /// For no time at all.
    NextWithin,
    /// What a second subscription receives first, which ends then.
    Newcomer,
    ResetReplay,
    /// All are let go.
    Stop,
    IsStopped,
    /// From now on clones are refused, or not.
    Refuse(bool),
    /// How many parcels are left.
    Left,
}

/// Calls on a new flow of two places, of which one is for the replay cache, and what each has to answer.
struct Table<'a> {
    name: &'a str,
    policy: Policy,
    rows: &'a [(Call, Answer)],
}

const TABLES: &[Table<'_>] = &[
    Table {
        name: "the oldest is dropped",
        policy: Policy::DropOldest,
        rows: &[
            (Call::TryNext, Answer::Nothing),
            (Call::TryEmit(10), Answer::Number(0)),
            (Call::Emit(11), Answer::Number(1)),
            (Call::TryEmit(12), Answer::Number(2)),
            // The first is let go at once, and the subscription told so.
            (Call::Left, Answer::Number(2)),
            (Call::TryNext, Answer::Missed(1)),
            (Call::TryNext, Answer::Number(11)),
            (Call::Next, Answer::Number(12)),
            (Call::NextWithin, Answer::Nothing),
            (Call::Newcomer, Answer::Number(12)),
            (Call::ResetReplay, Answer::Done),
            (Call::Newcomer, Answer::Nothing),
            (Call::TryEmit(13), Answer::Number(3)),
            // Of a value whose clone is refused nothing is received: the next ask finds it again.
            (Call::Refuse(true), Answer::Done),
            (Call::TryNext, Answer::Refused),
            (Call::Next, Answer::Refused),
            (Call::NextWithin, Answer::Refused),
            (Call::Refuse(false), Answer::Done),
            (Call::NextWithin, Answer::Number(13)),
            (Call::Newcomer, Answer::Number(13)),
        ],
    },
    Table {
        name: "it has to wait",
        policy: Policy::Suspend,
        rows: &[
            (Call::Emit(10), Answer::Number(0)),
            (Call::TryEmit(11), Answer::Number(1)),
            (Call::TryEmit(12), Answer::Full(12)),
            (Call::TryNext, Answer::Number(10)),
            (Call::TryEmit(13), Answer::Number(2)),
            (Call::IsStopped, Answer::No),
            // A stop is told once nothing is left, and to who would wait for room; what is emitted after it is received, too.
            (Call::Stop, Answer::Done),
            (Call::IsStopped, Answer::Yes),
            (Call::Emit(14), Answer::LetGo(14)),
            (Call::Next, Answer::Number(11)),
            (Call::Next, Answer::Number(13)),
            (Call::Next, Answer::Stopped),
            (Call::NextWithin, Answer::Stopped),
            (Call::TryNext, Answer::Nothing),
            (Call::Emit(15), Answer::Number(3)),
            (Call::Next, Answer::Number(15)),
        ],
    },
    Table {
        name: "the latest is dropped",
        policy: Policy::DropLatest,
        rows: &[
            (Call::TryEmit(10), Answer::Number(0)),
            (Call::Emit(11), Answer::Number(1)),
            (Call::TryEmit(12), Answer::Dropped(12)),
            (Call::Emit(13), Answer::Dropped(13)),
            (Call::Left, Answer::Number(2)),
            (Call::TryNext, Answer::Number(10)),
            (Call::TryNext, Answer::Number(11)),
            (Call::TryNext, Answer::Nothing),
            (Call::Newcomer, Answer::Number(11)),
        ],
    },
];

fn emitted(answer: Emitted<Parcel>) -> Answer {
    match answer {
        Emitted::Accepted(number) => Answer::Number(number),
        Emitted::Dropped(parcel) => Answer::Dropped(parcel.number),
        Emitted::Full(parcel) => Answer::Full(parcel.number),
        Emitted::Stopped(parcel) => Answer::LetGo(parcel.number),
    }
}

pub(crate) fn received(answer: Result<Received<Parcel>, AllocError>) -> Answer {
    match answer {
        Ok(Received::Value(parcel)) => Answer::Number(parcel.number),
        Ok(Received::Missed(count)) => Answer::Missed(count),
        Ok(Received::Nothing) => Answer::Nothing,
        Ok(Received::Stopped) => Answer::Stopped,
        Err(_) => Answer::Refused,
    }
}

/// Emits a parcel, which waits for room.
pub(crate) fn emit<R: Wait + Abort>(
    rt: &R,
    flow: &mut ValueFlow<Parcel>,
    tally: &Arc<Tally>,
    number: u64,
) -> Answer {
    emitted(flow.emit(rt, parcel_of(rt, tally, number)))
}

pub(crate) fn try_emit<R: Wait + Abort>(
    rt: &R,
    flow: &mut ValueFlow<Parcel>,
    tally: &Arc<Tally>,
    number: u64,
) -> Answer {
    emitted(flow.try_emit(rt, parcel_of(rt, tally, number)))
}

/// What a subscription that comes now receives first.
pub(crate) fn first_of(rt: &impl Wait, flow: &mut ValueFlow<Parcel>) -> Answer {
    match flow.subscribe(rt) {
        Ok(mut parcels) => {
            let answer = received(parcels.try_next(rt));
            drop(parcels.cancel(rt));
            answer
        }
        Err(Refusal::SubscribersFull) => Answer::AllTaken,
        Err(_) => Answer::Refused,
    }
}

impl Call {
    /// What the subscription answers, to a call of its own.
    fn ask<R: Wait + Clock>(self, rt: &R, parcels: &mut Subscription<Parcel>) -> Answer {
        match self {
            Call::TryNext => received(parcels.try_next(rt)),
            Call::Next => received(parcels.next(rt)),
            Call::NextWithin => received(parcels.next_within(rt, Duration::ZERO)),
            _ => said(parcels.is_stopped()),
        }
    }

    /// What the flow answers, or does.
    fn make<R: Wait + Abort>(
        self,
        rt: &R,
        flow: &mut ValueFlow<Parcel>,
        tally: &Arc<Tally>,
    ) -> Answer {
        match self {
            Call::TryEmit(number) => return try_emit(rt, flow, tally, number),
            Call::Emit(number) => return emit(rt, flow, tally, number),
            Call::Newcomer => return first_of(rt, flow),
            Call::Left => return Answer::Number(tally.left()),
            Call::ResetReplay => flow.reset_replay(rt),
            Call::Refuse(refuses) => tally.refuse(refuses),
            _ => flow.stop(),
        }
        Answer::Done
    }

    fn answer<R: Wait + Clock + Abort>(
        self,
        rt: &R,
        flow: &mut ValueFlow<Parcel>,
        parcels: &mut Subscription<Parcel>,
        tally: &Arc<Tally>,
    ) -> Answer {
        match self {
            Call::TryNext | Call::Next | Call::NextWithin | Call::IsStopped => {
                self.ask(rt, parcels)
            }
            _ => self.make(rt, flow, tally),
        }
    }
}

/// Makes each call of the table, and fails at the first that answers otherwise.
fn follow<R: Wait + Clock + Abort>(
    rt: &R,
    table: &Table<'_>,
    flow: &mut ValueFlow<Parcel>,
    parcels: &mut Subscription<Parcel>,
    tally: &Arc<Tally>,
) {
    for (row, (call, wanted)) in table.rows.iter().enumerate() {
        let is_right = call.answer(rt, flow, parcels, tally) == *wanted;
        assert!(rt; is_right, "{}: row {row}", table.name);
    }
}

/// A flow of two places, and of two subscriptions at most.
pub(crate) fn flow_of<R: AllocGlobal + Abort>(rt: &R, policy: Policy) -> ValueFlow<Parcel> {
    let config = Config {
        replay: 1,
        extra: 1,
        policy,
        subscribers: 2,
    };
    ValueFlow::new(rt.alloc(), &config).expect(rt, "a flow")
}

fn play<R: AllocGlobal + Wait + Clock + Abort>(rt: &R, table: &Table<'_>) {
    let tally = tally_of(rt);
    let mut flow = flow_of(rt, table.policy);
    let mut parcels = flow.subscribe(rt).expect(rt, "a subscription");
    follow(rt, table, &mut flow, &mut parcels, &tally);
    drop(parcels.cancel(rt));
    drop(flow);
    assert_let_go(rt, &tally);
}

/// Each call answers what it has to, under each policy, and each parcel that was made is let go.
#[test]
fn each_row_gives_its_answer(rt: HostRuntime) {
    for table in TABLES {
        play(&rt, table);
    }
}
