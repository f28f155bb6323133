//! A shared flow's worked examples on one thread, by its calls, and each call once where all goes well.

use crate::tools::assert_none;
use cold_flow::{Policy, Refusal};
use hot_callers::{received_in_turn, received_once};
use list_callers::run_new_flow;
use shared_core::{
    Begun, Call, Config, Emit, Next, Reply, SharedState, SubId, Ticket, Tried, Withdrawn,
};
use std::alloc::{AllocError, Global};
use std::test::Fail;
use trial_tools::Differences;

/// The numbers stay below this.
const LIMIT: u64 = 1 << 62;

const LAST: u64 = LIMIT - 1;

const NEXT_TO_LAST: u64 = LIMIT - 2;

const PLAIN: Config = Config {
    replay: 0,
    extra: 1,
    policy: Policy::Suspend,
    subscribers: 1,
    emits: 1,
    first: 0,
};

/// A flow of two subscribers that hands its values over.
const HANDING_OVER: Config = Config {
    extra: 0,
    subscribers: 2,
    ..PLAIN
};

/// A call, and its reply.
pub(crate) type Exchange = (Call<u64>, Reply<u64>);

/// The calls of a new flow with their replies, and its replay cache after them.
struct Row<'a> {
    name: &'a str,
    config: Config,
    exchanges: &'a [Exchange],
    cache: &'a [u64],
}

const FIRST_SUBSCRIBES: Exchange = (Call::Subscribe, Reply::Sub(Ok(SubId(0))));

const SECOND_SUBSCRIBES: Exchange = (Call::Subscribe, Reply::Sub(Ok(SubId(1))));

const EMISSION_WAITS: Exchange = (
    Call::Start(0, 7),
    Reply::Begun(Ok(Begun::Waiting(Ticket(0)))),
);

const FIRST_RECEIVES: Exchange = (Call::Next(SubId(0)), Reply::Next(Next::Value(7)));

const SECOND_RECEIVES: Exchange = (Call::Next(SubId(1)), Reply::Next(Next::Value(7)));

const LEFT: Exchange = (
    Call::Withdraw(Ticket(0)),
    Reply::Withdrawn(Withdrawn::Left(0)),
);

const GONE: Exchange = (Call::Withdraw(Ticket(0)), Reply::Withdrawn(Withdrawn::Gone));

const ROWS: &[Row<'_>] = &[
    Row {
        name: "run_of_calls",
        config: PLAIN,
        exchanges: &[
            FIRST_SUBSCRIBES,
            (Call::Try(1, 7), Reply::Tried(Ok(Tried::Accepted(0)))),
            FIRST_RECEIVES,
            (Call::Next(SubId(0)), Reply::Next(Next::Nothing)),
        ],
        cache: &[],
    },
    Row {
        name: "run_of_every_call",
        config: Config {
            replay: 1,
            extra: 0,
            emits: 2,
            ..PLAIN
        },
        exchanges: &[
            FIRST_SUBSCRIBES,
            (Call::Count, Reply::Count(1)),
            (Call::Start(1, 10), Reply::Begun(Ok(Begun::Accepted(0)))),
            (
                Call::Start(1, 11),
                Reply::Begun(Ok(Begun::Waiting(Ticket(0)))),
            ),
            (
                Call::Start(2, 12),
                Reply::Begun(Ok(Begun::Waiting(Ticket(1)))),
            ),
            (
                Call::Withdraw(Ticket(1)),
                Reply::Withdrawn(Withdrawn::Removed),
            ),
            (Call::Next(SubId(0)), Reply::Next(Next::Value(10))),
            (Call::Poll(Ticket(0)), Reply::Emit(Emit::Done(1))),
            GONE,
            (Call::Try(3, 13), Reply::Tried(Ok(Tried::Full))),
            (Call::Reset, Reply::Reset),
            (Call::Cancel(SubId(0)), Reply::Cancelled(true)),
            SECOND_SUBSCRIBES,
            (Call::Next(SubId(1)), Reply::Next(Next::Nothing)),
            (Call::Count, Reply::Count(1)),
        ],
        cache: &[],
    },
    Row {
        name: "each call where all goes well",
        config: Config { replay: 2, ..PLAIN },
        exchanges: &[
            (Call::Try(0, 1), Reply::Tried(Ok(Tried::Accepted(0)))),
            (Call::Try(0, 2), Reply::Tried(Ok(Tried::Accepted(1)))),
            (Call::Try(0, 3), Reply::Tried(Ok(Tried::Accepted(2)))),
            FIRST_SUBSCRIBES,
            (Call::Subscribe, Reply::Sub(Err(Refusal::SubscribersFull))),
            (Call::Count, Reply::Count(1)),
            (Call::Reset, Reply::Reset),
            (Call::Next(SubId(0)), Reply::Next(Next::Value(2))),
            (Call::Start(0, 4), Reply::Begun(Ok(Begun::Accepted(3)))),
            (Call::Start(0, 5), Reply::Begun(Ok(Begun::Accepted(4)))),
            (
                Call::Start(0, 6),
                Reply::Begun(Ok(Begun::Waiting(Ticket(0)))),
            ),
            (Call::Start(0, 7), Reply::Begun(Err(Refusal::EmitsFull))),
            (Call::Poll(Ticket(0)), Reply::Emit(Emit::Waiting)),
            (Call::Cancel(SubId(0)), Reply::Cancelled(true)),
            (Call::Poll(Ticket(0)), Reply::Emit(Emit::Done(5))),
            GONE,
        ],
        cache: &[5, 6],
    },
    Row {
        name: "numbers_spent, from the last number on",
        config: Config {
            extra: 2,
            subscribers: 2,
            emits: 2,
            first: LAST,
            ..PLAIN
        },
        exchanges: &[
            (Call::Subscribe, Reply::Sub(Ok(SubId(LAST)))),
            (Call::Subscribe, Reply::Sub(Err(Refusal::Spent))),
            (Call::Try(0, 7), Reply::Tried(Ok(Tried::Accepted(LAST)))),
            (Call::Try(0, 8), Reply::Tried(Err(Refusal::Spent))),
            (Call::Next(SubId(LAST)), Reply::Next(Next::Value(7))),
            (Call::Next(SubId(LAST)), Reply::Next(Next::Nothing)),
        ],
        cache: &[],
    },
    Row {
        name: "numbers_spent, without any number",
        config: Config {
            extra: 2,
            subscribers: 2,
            emits: 2,
            first: LIMIT,
            ..PLAIN
        },
        exchanges: &[(Call::Try(0, 7), Reply::Tried(Err(Refusal::Spent)))],
        cache: &[],
    },
    Row {
        name: "spent_before_full",
        config: Config {
            extra: 0,
            first: LAST,
            ..PLAIN
        },
        exchanges: &[
            (Call::Subscribe, Reply::Sub(Ok(SubId(LAST)))),
            (
                Call::Start(0, 7),
                Reply::Begun(Ok(Begun::Waiting(Ticket(LAST)))),
            ),
            (Call::Start(0, 8), Reply::Begun(Err(Refusal::Spent))),
            (Call::Next(SubId(LAST)), Reply::Next(Next::Value(7))),
            (Call::Poll(Ticket(LAST)), Reply::Emit(Emit::Done(LAST))),
            (Call::Poll(Ticket(LAST)), Reply::Emit(Emit::Gone)),
            (Call::Try(0, 9), Reply::Tried(Err(Refusal::Spent))),
            (Call::Cancel(SubId(LAST)), Reply::Cancelled(true)),
            (Call::Try(0, 9), Reply::Tried(Err(Refusal::Spent))),
        ],
        cache: &[],
    },
    Row {
        name: "spent_before_places",
        config: Config {
            first: LAST,
            ..PLAIN
        },
        exchanges: &[
            (Call::Subscribe, Reply::Sub(Ok(SubId(LAST)))),
            (Call::Subscribe, Reply::Sub(Err(Refusal::Spent))),
        ],
        cache: &[],
    },
    Row {
        name: "withdrawn_tickets_stay_spent",
        config: Config {
            emits: 2,
            first: NEXT_TO_LAST,
            ..PLAIN
        },
        exchanges: &[
            (Call::Subscribe, Reply::Sub(Ok(SubId(NEXT_TO_LAST)))),
            (
                Call::Try(0, 1),
                Reply::Tried(Ok(Tried::Accepted(NEXT_TO_LAST))),
            ),
            (
                Call::Start(0, 2),
                Reply::Begun(Ok(Begun::Waiting(Ticket(NEXT_TO_LAST)))),
            ),
            (
                Call::Withdraw(Ticket(NEXT_TO_LAST)),
                Reply::Withdrawn(Withdrawn::Removed),
            ),
            (
                Call::Start(0, 3),
                Reply::Begun(Ok(Begun::Waiting(Ticket(LAST)))),
            ),
            (
                Call::Withdraw(Ticket(LAST)),
                Reply::Withdrawn(Withdrawn::Removed),
            ),
            (Call::Start(0, 4), Reply::Begun(Err(Refusal::Spent))),
            (Call::Try(0, 5), Reply::Tried(Ok(Tried::Full))),
        ],
        cache: &[],
    },
    Row {
        name: "withdrawn_at_hand_over, before the receipts",
        config: HANDING_OVER,
        exchanges: &[
            FIRST_SUBSCRIBES,
            SECOND_SUBSCRIBES,
            EMISSION_WAITS,
            LEFT,
            FIRST_RECEIVES,
            SECOND_RECEIVES,
            GONE,
        ],
        cache: &[],
    },
    Row {
        name: "withdrawn_at_hand_over, between the receipts",
        config: HANDING_OVER,
        exchanges: &[
            FIRST_SUBSCRIBES,
            SECOND_SUBSCRIBES,
            EMISSION_WAITS,
            FIRST_RECEIVES,
            LEFT,
            SECOND_RECEIVES,
            GONE,
        ],
        cache: &[],
    },
    Row {
        name: "withdrawn_at_hand_over, after the receipts",
        config: HANDING_OVER,
        exchanges: &[
            FIRST_SUBSCRIBES,
            SECOND_SUBSCRIBES,
            EMISSION_WAITS,
            FIRST_RECEIVES,
            SECOND_RECEIVES,
            LEFT,
            GONE,
        ],
        cache: &[],
    },
    Row {
        name: "ring_over_capacity",
        config: Config {
            replay: 1,
            extra: 2,
            policy: Policy::DropOldest,
            subscribers: 2,
            ..PLAIN
        },
        exchanges: &[
            FIRST_SUBSCRIBES,
            (Call::Try(1, 1), Reply::Tried(Ok(Tried::Accepted(0)))),
            (Call::Try(1, 2), Reply::Tried(Ok(Tried::Accepted(1)))),
            (Call::Try(1, 3), Reply::Tried(Ok(Tried::Accepted(2)))),
            (Call::Try(1, 4), Reply::Tried(Ok(Tried::Accepted(3)))),
            (Call::Try(1, 5), Reply::Tried(Ok(Tried::Accepted(4)))),
            SECOND_SUBSCRIBES,
            (Call::Next(SubId(0)), Reply::Next(Next::Value(3))),
            (Call::Next(SubId(0)), Reply::Next(Next::Value(4))),
            (Call::Next(SubId(0)), Reply::Next(Next::Value(5))),
            (Call::Next(SubId(0)), Reply::Next(Next::Nothing)),
            (Call::Next(SubId(1)), Reply::Next(Next::Value(5))),
        ],
        cache: &[5],
    },
];

/// The reply of a flow to a call, made by its method.
fn reply_to(flow: &mut SharedState<u64>, call: Call<u64>) -> Reply<u64> {
    match call {
        Call::Try(emitter, value) => Reply::Tried(flow.try_emit(emitter, value)),
        Call::Start(emitter, value) => Reply::Begun(flow.start_emit(emitter, value)),
        Call::Poll(ticket) => Reply::Emit(flow.poll_emit(ticket)),
        Call::Withdraw(ticket) => Reply::Withdrawn(flow.cancel_emit(ticket)),
        Call::Subscribe => Reply::Sub(flow.subscribe()),
        Call::SubscribeWith(prelude) => Reply::Sub(flow.subscribe_with(prelude)),
        Call::Next(id) => Reply::Next(flow.next(id)),
        Call::Cancel(id) => Reply::Cancelled(flow.cancel(id)),
        Call::Reset => {
            flow.reset_replay();
            Reply::Reset
        }
        Call::Count => Reply::Count(flow.subscription_count()),
    }
}

/// Whether the flow replies to the call as it should.
pub(crate) fn is_replied(flow: &mut SharedState<u64>, exchange: &Exchange) -> bool {
    let (call, reply) = *exchange;
    reply_to(flow, call) == reply
}

/// How many of the calls, from the first on, were replied to as they should be.
fn replied(flow: &mut SharedState<u64>, exchanges: &[Exchange]) -> usize {
    for (index, exchange) in exchanges.iter().enumerate() {
        if !is_replied(flow, exchange) {
            return index;
        }
    }
    exchanges.len()
}

/// How many of the calls on a new flow, from the first on, were replied to as they should be, and whether its replay cache is then
/// as it should be.
fn replied_by_new(alloc: Global, row: &Row<'_>) -> Result<(usize, bool), Refusal> {
    let mut flow = SharedState::new(alloc, row.config)?;
    let count = replied(&mut flow, row.exchanges);
    Ok((count, caches(&flow, row.cache)))
}

fn calls_of(alloc: Global, exchanges: &[Exchange]) -> Result<Vec<Call<u64>>, AllocError> {
    let mut calls = Vec::new(alloc);
    for (call, _) in exchanges {
        calls.push(*call)?;
    }
    Ok(calls)
}

/// Are these the wanted replies? One that is missing or too much is not as it should be.
fn are_replies(replies: &[Reply<u64>], exchanges: &[Exchange]) -> bool {
    if replies.len() != exchanges.len() {
        return false;
    }
    for (reply, (_, wanted)) in replies.iter().zip(exchanges) {
        if *reply != *wanted {
            return false;
        }
    }
    true
}

/// Whether a new flow replies so where it runs these calls as one list.
fn is_list_replied(
    alloc: Global,
    config: Config,
    calls: &[Call<u64>],
    exchanges: &[Exchange],
) -> Result<bool, Refusal> {
    let mut replies = Vec::new(alloc);
    let _flow = run_new_flow(alloc, config, calls, &mut replies)?;
    Ok(are_replies(&replies, exchanges))
}

/// Whether a new flow that runs all calls as one list replies as it should.
pub(crate) fn is_run(
    alloc: Global,
    config: Config,
    exchanges: &[Exchange],
) -> Result<bool, Refusal> {
    let calls = calls_of(alloc, exchanges)?;
    is_list_replied(alloc, config, &calls, exchanges)
}

/// Is the replay cache these values?
pub(crate) fn caches(flow: &SharedState<u64>, values: &[u64]) -> bool {
    if flow.replay_len() != values.len() as u64 {
        return false;
    }
    for (index, value) in values.iter().enumerate() {
        if index as u64 >= flow.replay_len() || flow.replay_at(index as u64) != *value {
            return false;
        }
    }
    true
}

// A row's calls, one by one and as a list.
fn compare_row(differences: &mut Differences, alloc: Global, row: &Row<'_>) -> Result<(), Fail> {
    let replied = replied_by_new(alloc, row)?;
    differences.compare(row.name, replied, (row.exchanges.len(), true))?;
    differences.compare(row.name, is_run(alloc, row.config, row.exchanges)?, true)
}

#[test]
fn calls_are_replied_to(rt: HostRuntime) -> Result<(), Fail> {
    let mut differences = Differences::none(rt.alloc());
    for row in ROWS {
        compare_row(&mut differences, rt.alloc(), row)?;
    }
    assert_none(&rt, &differences);
    Ok(())
}

#[test]
fn callers_receive(rt: HostRuntime) -> Result<(), Fail> {
    assert_eq!(rt; received_once(rt.alloc(), 7), Ok(Next::Value(7)));
    assert_eq!(rt; received_in_turn(rt.alloc(), 7, 8), Ok(Next::Value(8)));
    Ok(())
}

/// A flow of three places, which holds up what has none.
const THREE_PLACES: Config = Config { extra: 3, ..PLAIN };

// Four values for three places. A list with room for two takes two, and the next one what is left.
#[test]
fn blocks_are_accepted_and_received(rt: HostRuntime) -> Result<(), Fail> {
    let mut flow = SharedState::new(rt.alloc(), THREE_PLACES)?;
    let id = flow.subscribe()?;
    assert_eq!(rt; flow.try_emit_all(0, &[5, 6, 7, 8]), Ok(3));
    assert_eq!(rt; flow.try_emit_all(0, &[8]), Ok(0));
    let mut out = Vec::with_capacity(rt.alloc(), 2)?;
    assert_eq!(rt; flow.try_next_all(id, &mut out), Next::Value(2));
    assert_eq!(rt; flow.try_next_all(id, &mut out), Next::Value(0));
    assert_eq!(rt; out.as_slice(), [5, 6].as_slice());
    out.clear();
    assert_eq!(rt; flow.try_next_all(id, &mut out), Next::Value(1));
    assert_eq!(rt; out.as_slice(), [7].as_slice());
    assert_eq!(rt; flow.try_next_all(id, &mut out), Next::Nothing);
    assert_eq!(rt; flow.cancel(id), true);
    assert_eq!(rt; flow.try_next_all(id, &mut out), Next::Closed);
    Ok(())
}

// The last number is given, and then none is left.
#[test]
fn block_is_cut_where_numbers_end(rt: HostRuntime) -> Result<(), Fail> {
    let mut flow = SharedState::new(
        rt.alloc(),
        Config {
            first: LAST,
            ..THREE_PLACES
        },
    )?;
    assert_eq!(rt; flow.try_emit_all(0, &[5, 6]), Ok(1));
    assert_eq!(rt; flow.try_emit_all(0, &[6]), Err(Refusal::Spent));
    assert_eq!(rt; flow.try_emit_all(0, &[]), Ok(0));
    Ok(())
}
