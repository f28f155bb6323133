//! A shared flow at its limits: the most places, subscribers and emissions in flight that a config may ask for, a long list of
//! calls, and the callers that have the headline. Each value is the number of its emission.

use crate::core_rows::{Exchange, is_replied, is_run};
use crate::tools::assert_same;
use cold_flow::{Policy, Refusal};
use list_callers::{offer_and_take, run_new_flow};
use shared_core::{
    Begun, Call, Config, Emit, Next, Reply, SharedState, SubId, Ticket, Tried, Withdrawn,
};
use std::alloc::{AllocError, Global};
use std::test::Fail;

const PLACES: u64 = 65_536;

const SEATS: u64 = 1_024;

/// The replay cache is one shorter than the places.
const MOST: Config = Config {
    replay: PLACES - 1,
    extra: 1,
    policy: Policy::Suspend,
    subscribers: SEATS as u32,
    emits: SEATS as u32,
    first: 0,
};

/// A flow with one place for one subscription.
const ONE_PLACE: Config = Config {
    replay: 0,
    extra: 1,
    policy: Policy::Suspend,
    subscribers: 1,
    emits: 1,
    first: 0,
};

/// A call, which is made many times, with the numbers from 0 on.
enum Many {
    Subscribe,
    Try,
    Start,
    Next,
    Cancel,
}

impl Many {
    /// The call with this number, and its reply.
    fn exchange(&self, number: u64) -> Exchange {
        match self {
            Many::Subscribe => (Call::Subscribe, Reply::Sub(Ok(SubId(number)))),
            Many::Try => (
                Call::Try(0, number),
                Reply::Tried(Ok(Tried::Accepted(number))),
            ),
            Many::Start => (
                Call::Start(0, PLACES.saturating_add(number)),
                Reply::Begun(Ok(Begun::Waiting(Ticket(number)))),
            ),
            Many::Next => (Call::Next(SubId(number)), Reply::Next(Next::Value(0))),
            Many::Cancel => (Call::Cancel(SubId(number)), Reply::Cancelled(true)),
        }
    }
}

/// What is done with a flow, and what has to come of it.
enum Line {
    Each(Many, u64),
    Once(Exchange),
    /// How many values are pending for a subscription.
    Pending(SubId, u64),
    /// The first and the last value of the replay cache, which is as long as it may be.
    Cache(u64, u64),
}

const LINES: &[Line] = &[
    // All seats are taken and all places of each, and as many emissions wait as may.
    Line::Each(Many::Subscribe, SEATS),
    Line::Once((Call::Subscribe, Reply::Sub(Err(Refusal::SubscribersFull)))),
    Line::Each(Many::Try, PLACES),
    Line::Once((Call::Try(0, PLACES), Reply::Tried(Ok(Tried::Full)))),
    Line::Each(Many::Start, SEATS),
    Line::Once((
        Call::Start(0, PLACES),
        Reply::Begun(Err(Refusal::EmitsFull)),
    )),
    Line::Once((Call::Count, Reply::Count(SEATS as u32))),
    Line::Pending(SubId(SEATS - 1), PLACES),
    Line::Cache(1, PLACES - 1),
    // Room comes with the last receipt, and the oldest emission that waits takes it.
    Line::Each(Many::Next, SEATS),
    Line::Once((Call::Poll(Ticket(0)), Reply::Emit(Emit::Done(PLACES)))),
    Line::Once((Call::Poll(Ticket(1)), Reply::Emit(Emit::Waiting))),
    Line::Cache(2, PLACES),
    // Once nobody is live, all that wait are accepted.
    Line::Each(Many::Cancel, SEATS),
    Line::Once((
        Call::Poll(Ticket(SEATS - 1)),
        Reply::Emit(Emit::Done(PLACES + SEATS - 1)),
    )),
    Line::Once((
        Call::Withdraw(Ticket(1)),
        Reply::Withdrawn(Withdrawn::Left(PLACES + 1)),
    )),
    Line::Once((Call::Subscribe, Reply::Sub(Ok(SubId(SEATS))))),
    Line::Pending(SubId(SEATS), PLACES - 1),
    Line::Once((
        Call::Next(SubId(SEATS)),
        Reply::Next(Next::Value(SEATS + 1)),
    )),
];

/// Whether so many calls are replied to as they should be.
fn are_replied(flow: &mut SharedState<u64>, many: &Many, count: u64) -> bool {
    for number in 0..count {
        if !is_replied(flow, &many.exchange(number)) {
            return false;
        }
    }
    true
}

/// Whether the replay cache is as long as it may be, from this value to that.
fn caches(flow: &SharedState<u64>, first: u64, last: u64) -> bool {
    if flow.replay_len() != PLACES - 1 {
        return false;
    }
    flow.replay_at(0) == first && flow.replay_at(PLACES - 2) == last
}

fn is_so(flow: &mut SharedState<u64>, line: &Line) -> bool {
    match line {
        Line::Each(many, count) => are_replied(flow, many, *count),
        Line::Once(exchange) => is_replied(flow, exchange),
        Line::Pending(id, count) => flow.pending(*id) == *count,
        Line::Cache(first, last) => caches(flow, *first, *last),
    }
}

/// The number of the first line that was answered otherwise, or of all lines where none was.
fn answered(flow: &mut SharedState<u64>, lines: &[Line]) -> usize {
    for (number, line) in lines.iter().enumerate() {
        if !is_so(flow, line) {
            return number;
        }
    }
    lines.len()
}

#[test]
fn limits_are_reached(rt: HostRuntime) -> Result<(), Fail> {
    let mut flow = SharedState::new(rt.alloc(), MOST)?;
    let count = answered(&mut flow, LINES);
    assert_same(&rt, "lines answered", count, LINES.len());
    Ok(())
}

/// A subscription, and then a thousand values, each of which it receives.
fn long_list(alloc: Global) -> Result<Vec<Exchange>, AllocError> {
    let mut exchanges = Vec::new(alloc);
    exchanges.push((Call::Subscribe, Reply::Sub(Ok(SubId(0)))))?;
    for number in 0..1_000u64 {
        exchanges.push(Many::Try.exchange(number))?;
        exchanges.push((Call::Next(SubId(0)), Reply::Next(Next::Value(number))))?;
    }
    Ok(exchanges)
}

#[test]
fn long_lists_are_run(rt: HostRuntime) -> Result<(), Fail> {
    let exchanges = long_list(rt.alloc())?;
    assert_same(&rt, "calls", exchanges.len(), 2_001);
    let is_run = is_run(rt.alloc(), ONE_PLACE, &exchanges)?;
    assert_same(&rt, "are replied to", is_run, true);
    Ok(())
}

/// Whether a flow with too many places is refused, and how many replies there are then.
fn replies_of_too_large(alloc: Global) -> (bool, usize) {
    const OVER: Config = Config {
        replay: PLACES,
        ..ONE_PLACE
    };
    let mut replies = Vec::<Reply<u64>>::new(alloc);
    let ran = run_new_flow(alloc, OVER, &[Call::Subscribe, Call::Count], &mut replies);
    (matches!(ran, Err(Refusal::TooLarge)), replies.len())
}

#[test]
fn refusals_leave_no_replies(rt: HostRuntime) {
    let refused = replies_of_too_large(rt.alloc());
    assert_same(&rt, "refused, and replies", refused, (true, 0));
}

/// Whether these values are taken of those that were offered, and how many are left.
fn taken(alloc: Global, offered: &[u64], values: &[u64]) -> Result<(bool, u64), Refusal> {
    let it = offer_and_take(alloc, ONE_PLACE, offered)?;
    let pending = it.flow.pending(it.subscription);
    Ok((it.values.as_slice() == values, pending))
}

// Every second value finds the one place taken: one is received then, and that value is passed over.
#[test]
fn offers_are_taken(rt: HostRuntime) -> Result<(), Fail> {
    let taken = taken(rt.alloc(), &[1, 2, 3, 4, 5], &[1, 3])?;
    assert_same(&rt, "taken, and pending", taken, (true, 1));
    Ok(())
}
