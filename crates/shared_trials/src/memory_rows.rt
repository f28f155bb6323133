//! Calls of shared flows, states and sharings that take memory, each with its answer. Where an allocation is refused, as under
//! `rt try --test --fail-alloc N`, the call that wanted it is refused with 4 and leaves all as it was: made once more,
//! it gives the same answer. So each test passes with ample memory, and whichever allocation is refused. The calls of a
//! shared flow between threads stand in `shared_memory.rt`.

use crate::tools::{assert_same, task_made};
use cold_flow::{Flow, Policy, Refusal, Step, Stepped, scripted};
use flow_sharing::{Polled, Sharing, Started, StateSharing, share_in, state_in};
use futures::test::MockTask;
use shared_core::{Call, Config, Next, Reply, SharedState, SubId, Tried};
use shared_flow::SharedFlow;
use state_flow::{StateFlow, StateSeat};
use std::alloc::{AllocError, Global};
use std::sync::Wait;
use trial_tools::made_again;

/// A flow of the values 1 and 2, made again where it is refused. Its start takes memory.
fn one_and_two(alloc: Global) -> Result<Stepped<u64, u64>, AllocError> {
    const STEPS: &[Step<u64, u64>] = &[Step::Value(1), Step::Value(2)];
    match STEPS.to_vec(alloc) {
        Err(_) => Ok(scripted(STEPS.to_vec(alloc)?)),
        Ok(steps) => Ok(scripted(steps)),
    }
}

/// A flow that keeps two values for newcomers.
const KEEPS_TWO: Config = Config {
    replay: 2,
    extra: 0,
    policy: Policy::Suspend,
    subscribers: 8,
    emits: 8,
    first: 0,
};

fn made(alloc: Global) -> Result<SharedState<u64>, Refusal> {
    match SharedState::new(alloc, KEEPS_TWO) {
        Err(Refusal::NoMemory) => SharedState::new(alloc, KEEPS_TWO),
        flow => flow,
    }
}

/// Runs the calls, once more where that was refused. None where the refused run changed anything.
fn run_again(
    flow: &mut SharedState<u64>,
    calls: &[Call<u64>],
    replies: &mut Vec<Reply<u64>>,
) -> Option<Result<(), Refusal>> {
    let count = replies.len();
    if flow.run(calls, replies).is_ok() {
        return Some(Ok(()));
    }
    if replies.len() != count || flow.subscription_count() != 0 || flow.replay_len() != 0 {
        return None;
    }
    Some(flow.run(calls, replies))
}

const CALLS: &[Call<u64>] = &[Call::Subscribe, Call::Try(1, 7), Call::Next(SubId(0))];

/// What stood in the list of replies before, and the replies to the calls.
const REPLIES: &[Reply<u64>] = &[
    Reply::Reset,
    Reply::Sub(Ok(SubId(0))),
    Reply::Tried(Ok(Tried::Accepted(0))),
    Reply::Next(Next::Value(7)),
];

/// A list with one reply, made again where it is refused.
fn one_reply(alloc: Global) -> Result<Vec<Reply<u64>>, AllocError> {
    const FIRST: &[Reply<u64>] = &[Reply::Reset];
    match FIRST.to_vec(alloc) {
        Err(_) => FIRST.to_vec(alloc),
        replies => replies,
    }
}

#[test]
fn new_flows_and_runs_of_calls_take_memory(rt: HostRuntime) {
    let mut replies = one_reply(rt.alloc()).expect(&rt, "a reply");
    let mut flow = made(rt.alloc()).expect(&rt, "a flow");
    let ran = run_again(&mut flow, CALLS, &mut replies);
    assert_same(&rt, "run", ran, Some(Ok(())));
    assert_same(&rt, "replies", replies.as_slice(), REPLIES);
}

/// The answer to a poll at this moment that turns sharing on, where nobody subscribes.
fn on_at(now: u64) -> Result<Polled, Refusal> {
    Ok(Polled {
        now,
        count: 0,
        on: true,
        reset: false,
    })
}

/// Whether the first poll turns sharing on. Where the start of its run is refused, the sharing is as before, its latest
/// moment too.
fn turns_on<F: Flow<Item = u64, Fault = u64>>(
    rt: &impl Wait,
    task: &MockTask,
    sharing: &mut Sharing<u64, F>,
) -> bool {
    let polled = task.enter(|cx| sharing.poll(rt, 9, cx));
    if polled != Err(Refusal::NoMemory) {
        return polled == on_at(9);
    }
    sharing.fault().is_none() && task.enter(|cx| sharing.poll(rt, 4, cx)) == on_at(4)
}

/// The same of a state.
fn state_turns_on<F: Flow<Item = u64, Fault = u64>>(
    task: &MockTask,
    sharing: &mut StateSharing<u64, F>,
) -> bool {
    let polled = task.enter(|cx| sharing.poll(9, cx));
    if polled != Err(Refusal::NoMemory) {
        return polled == on_at(9);
    }
    sharing.fault().is_none() && task.enter(|cx| sharing.poll(4, cx)) == on_at(4)
}

/// Shares a flow, once more where that was refused.
fn share_again<F: Flow<Item = u64, Fault = u64> + Copy>(
    flow: &mut SharedFlow<u64>,
    upstream: F,
) -> Result<Sharing<u64, F>, Refusal> {
    match share_in(flow, upstream, Started::Eagerly) {
        Err(Refusal::NoMemory) => share_in(flow, upstream, Started::Eagerly),
        sharing => sharing,
    }
}

/// Makes a flow, once more where that was refused.
fn flow_made(alloc: Global) -> Result<SharedFlow<u64>, Refusal> {
    match SharedFlow::new(alloc, KEEPS_TWO) {
        Err(Refusal::NoMemory) => SharedFlow::new(alloc, KEEPS_TWO),
        flow => flow,
    }
}

/// The seat of a new state with the value 3, which is made once more where that was refused.
fn seat_made(alloc: Global, seats: u32) -> Result<StateSeat<u64>, Refusal> {
    match StateFlow::new(alloc, 3u64, seats) {
        Err(Refusal::NoMemory) => StateFlow::new(alloc, 3u64, seats),
        seat => seat,
    }
}

/// What a state's first seat says of itself.
fn shown(seat: &mut StateSeat<u64>) -> (u32, u32, u64) {
    (seat.spare(), seat.collectors(), seat.value())
}

/// Takes a seat of a state that shows this, once more where that was refused. None where a refusal changed anything.
fn taken_again(
    seat: &mut StateSeat<u64>,
    before: (u32, u32, u64),
) -> Option<Result<StateSeat<u64>, Refusal>> {
    match seat.take_seat(1) {
        Err(Refusal::NoMemory) => {
            if shown(seat) != before {
                return None;
            }
            Some(seat.take_seat(1))
        }
        other => Some(other),
    }
}

#[test]
fn states_take_memory(rt: HostRuntime) {
    const BEFORE: (u32, u32, u64) = (3, 0, 3);
    let mut seat = seat_made(rt.alloc(), 4).expect(&rt, "a state");
    assert_same(&rt, "StateFlow::new", shown(&mut seat), BEFORE);
    let spare = match taken_again(&mut seat, BEFORE) {
        Some(Ok(other)) => Some((other.spare(), seat.spare())),
        _ => None,
    };
    assert_same(&rt, "take_seat", spare, Some((1, 1)));
}

/// Whether a flow that is shared is turned on by its first poll.
fn shared<F: Flow<Item = u64, Fault = u64> + Copy>(
    rt: &impl Wait,
    task: &MockTask,
    flow: &mut SharedFlow<u64>,
    upstream: F,
) -> Result<bool, Refusal> {
    let mut sharing = share_again(flow, upstream)?;
    let turned = turns_on(rt, task, &mut sharing);
    sharing.close(rt);
    Ok(turned)
}

#[test]
fn sharings_take_memory(rt: HostRuntime) {
    let task = task_made(&rt);
    let cache = made_again(&|| Vec::with_capacity(rt.alloc(), 2));
    let mut cache = cache.expect(&rt, "room for the cache");
    let mut flow = flow_made(rt.alloc()).expect(&rt, "a flow");
    let upstream = one_and_two(rt.alloc()).expect(&rt, "an upstream");
    let turned = shared(&rt, &task, &mut flow, &upstream);
    let added = flow.replay_cache_into(&rt, &mut cache);
    assert_same(&rt, "share_in and its first poll", turned, Ok(true));
    assert_same(&rt, "the cache's call", added, Ok(()));
    assert_same(&rt, "the cache", cache.as_slice(), [1, 2].as_slice());
}

/// Whether a state that a flow sets is so from the first poll on, and its value then.
fn set_from<F: Flow<Item = u64, Fault = u64>>(
    task: &MockTask,
    seat: StateSeat<u64>,
    upstream: F,
) -> (bool, u64) {
    let mut sharing = state_in(seat, 7, upstream, Started::Eagerly);
    let turned = state_turns_on(task, &mut sharing);
    let mut seat = sharing.close();
    (turned, seat.value())
}

#[test]
fn sharings_of_states_take_memory(rt: HostRuntime) {
    let task = task_made(&rt);
    let upstream = one_and_two(rt.alloc()).expect(&rt, "an upstream");
    let seat = seat_made(rt.alloc(), 1).expect(&rt, "a state");
    let set = set_from(&task, seat, &upstream);
    assert_same(
        &rt,
        "state_in, its first poll and the state",
        set,
        (true, 2),
    );
}
