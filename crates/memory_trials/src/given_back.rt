//! What is let go gives back all that it had from the system. These types have a `Drop` written by hand, and no contract says that it
//! forgets no field. What a lane and a state without watchers had of a heap is counted in `given_back.rt` of `core_trials`.

use crate::pages::pages;
use flow_stopping::StoppableParker;
use paired_states::{Bell, RungSeat};
use shared_core::{Config, Policy, Prelude, SharedState};
use shared_flow::{Parker, SharedFlow};
use state_flow::StateFlow;
use state_waiting::WatchedSeat;
use std::alloc::{AllocGlobal, Global};
use std::process::Abort;
use std::random::RandomSource;
use std::rt::Files;
use std::sync::{Arc, Wait};
use std::test::Fail;
use value_flows::ValueFlow;
use value_states::ValueState;
use waking_states::{TaskBell, WakingSeat};

/// How often something is made and let go between two counts. Where 32 bytes were forgotten each time, the process would have to ask
/// the system for more in between.
const ROUNDS: u32 = 10_000;

/// How often it is counted at most.
const COUNTS: u32 = 5;

/// One value in the replay cache; one may subscribe, and emissions wait for it.
const CONFIG: Config = Config {
    replay: 1,
    extra: 0,
    policy: Policy::Suspend,
    subscribers: 1,
    emits: 2,
    first: 0,
};

/// One value, which a later one takes the place of; one may subscribe.
const OF_ANY_TYPE: value_flows::Config = value_flows::Config {
    replay: 1,
    extra: 0,
    policy: Policy::DropOldest,
    subscribers: 1,
};

/// What is made and let go.
#[derive(Clone, Copy)]
enum Made {
    /// A `SharedState` with a subscription that has its prelude left, and an emission that waits.
    FlowOnOneThread,
    /// Two owners of a `SharedFlow`, two emitters and a subscription that end, and one that is refused.
    FlowBetweenThreads,
    Parker,
    /// A `StoppableParker`, and two that stop it.
    StoppableParker,
    /// Two seats of a watched state, of which one watches; two that let it go; and one that would let go the other.
    WatchedState,
    /// Two owners of a state of any type, and a watcher; and two that let it go.
    StateOfAnyType,
    /// Two owners of a flow of any type, of which each value is a box; two subscriptions that end, one that is refused, and two that let
    /// one go.
    FlowOfAnyType,
    /// A seat that rings a bell, rings it no more, and rings it again.
    RungSeat,
    /// The same, where the bell wakes a task.
    WakingSeat,
}

/// The same, with a name.
struct Row<'a> {
    name: &'a str,
    made: Made,
}

const ROWS: &[Row<'_>] = &[
    Row {
        name: "a flow on one thread",
        made: Made::FlowOnOneThread,
    },
    Row {
        name: "a flow between threads",
        made: Made::FlowBetweenThreads,
    },
    Row {
        name: "a parker",
        made: Made::Parker,
    },
    Row {
        name: "a parker that can be stopped",
        made: Made::StoppableParker,
    },
    Row {
        name: "a watched state",
        made: Made::WatchedState,
    },
    Row {
        name: "a state of any type",
        made: Made::StateOfAnyType,
    },
    Row {
        name: "a flow of any type",
        made: Made::FlowOfAnyType,
    },
    Row {
        name: "a seat that rings",
        made: Made::RungSeat,
    },
    Row {
        name: "a seat that wakes a task",
        made: Made::WakingSeat,
    },
];

fn flow_on_one_thread(rt: &impl Abort, alloc: Global) {
    let mut flow = SharedState::<u64>::new(alloc, CONFIG).expect(rt, "a flow");
    let prelude = Prelude::of(&[1, 2]).expect(rt, "a prelude");
    let _subscription = flow.subscribe_with(prelude).expect(rt, "a subscription");
    let _accepted = flow.start_emit(0, 7).expect(rt, "an emission");
    let _waiting = flow.start_emit(0, 8).expect(rt, "an emission");
}

// Who ends gives back what it has itself, by way of the owner that takes it in, or as it is refused: one may subscribe.
fn flow_between_threads<R: Wait + Abort>(rt: &R, alloc: Global) {
    let mut flow = SharedFlow::<u64>::new(alloc, CONFIG).expect(rt, "a flow");
    let _other = flow.dup().expect(rt, "another owner");
    let taken_in = flow.emitter(2).expect(rt, "an emitter");
    flow.close(rt, taken_in);
    let emitter = flow.emitter(1).expect(rt, "an emitter");
    let prelude = Prelude::of(&[1, 2]).expect(rt, "a prelude");
    let subscription = flow
        .subscribe_with(rt, prelude)
        .expect(rt, "a subscription");
    if let Ok(more) = flow.subscribe(rt) {
        more.cancel(rt);
    }
    subscription.cancel(rt);
    emitter.close(rt);
}

fn parker<R: Abort + RandomSource + AllocGlobal>(rt: &R) {
    let _parker = Parker::new(rt).expect(rt, "a parker");
}

fn stoppable_parker<R: Abort + RandomSource + AllocGlobal>(rt: &R) {
    let (_parker, stopper) = StoppableParker::new(rt).expect(rt, "a parker");
    let _other = stopper.clone().expect(rt, "another stopper");
}

fn watched_state(rt: &impl Abort, alloc: Global) {
    let mut seat = WatchedSeat::new(alloc, 0u64, 2).expect(rt, "a state");
    let _idle = seat.watcher_stopper(alloc).expect(rt, "a stopper");
    let mut watching = seat.take_seat(0).expect(rt, "another seat");
    let stopper = watching.watcher_stopper(alloc).expect(rt, "a stopper");
    let _other = stopper.clone().expect(rt, "another stopper");
    let _left = watching.collect().cancel();
}

fn boxed(rt: &impl Abort, alloc: Global, value: u64) -> Box<u64> {
    Box::new(alloc, value).expect(rt, "a value")
}

// Each way to write lets go the value that was there, or the one that isn't kept.
fn state_of_any_type<R: Wait + Abort>(rt: &R, alloc: Global) {
    let mut state = ValueState::new(alloc, boxed(rt, alloc, 0)).expect(rt, "a state");
    let mut other = state.dup().expect(rt, "another owner");
    let taken_in = state.dup().expect(rt, "another owner");
    state.take_in(taken_in);
    let mut watcher = state.watch().expect(rt, "a watcher");
    let stopper = watcher.stopper(alloc).expect(rt, "a stopper");
    let _another = stopper.clone().expect(rt, "another stopper");
    state.set(rt, boxed(rt, alloc, 1));
    let one = boxed(rt, alloc, 1);
    for value in 1..4 {
        let _was_equal = state.compare_and_set(rt, &one, boxed(rt, alloc, 2));
        let _differed = other.set_distinct(rt, boxed(rt, alloc, value));
    }
    let _watching = other.watch().expect(rt, "a watcher");
    let _owner = watcher.cancel();
}

// Under this policy the second value takes the place of the first, which is let go by the one who emits; the second one goes with the flow.
fn flow_of_any_type<R: Wait + Abort>(rt: &R, alloc: Global) {
    let mut flow = ValueFlow::<Box<u64>>::new(alloc, &OF_ANY_TYPE).expect(rt, "a flow");
    let mut other = flow.dup().expect(rt, "another owner");
    let taken_in = flow.dup().expect(rt, "another owner");
    flow.take_in(taken_in);
    let mut subscription = flow.subscribe(rt).expect(rt, "a subscription");
    let stopper = subscription.stopper(alloc).expect(rt, "a stopper");
    let _another = stopper.clone().expect(rt, "another stopper");
    if let Ok(more) = other.subscribe(rt) {
        let _owner = more.cancel(rt);
    }
    for value in 0..2 {
        let _accepted = other.try_emit(rt, boxed(rt, alloc, value));
    }
    let _received = subscription.try_next(rt);
    let _owner = subscription.cancel(rt);
}

fn rung_seat(rt: &impl Abort, alloc: Global) {
    let seat = StateFlow::new(alloc, 0u64, 1).expect(rt, "a state");
    let bell = Bell::new(alloc).expect(rt, "a bell");
    let mut rung = RungSeat::over(seat, Arc::try_clone(&bell).expect(rt, "a bell"));
    rung.set(1);
    let seat = rung.into_seat();
    let _rung = RungSeat::over(seat, bell);
}

fn waking_seat(rt: &impl Abort, alloc: Global) {
    let seat = StateFlow::new(alloc, 0u64, 1).expect(rt, "a state");
    let bell = TaskBell::new(alloc).expect(rt, "a bell");
    let mut waking = WakingSeat::over(seat, Arc::try_clone(&bell).expect(rt, "a bell"));
    waking.set(1);
    let seat = waking.into_seat();
    let _waking = WakingSeat::over(seat, bell);
}

impl Made {
    fn make<R: Wait + Abort + RandomSource + AllocGlobal>(self, rt: &R) {
        match self {
            Made::FlowOnOneThread => flow_on_one_thread(rt, rt.alloc()),
            Made::FlowBetweenThreads => flow_between_threads(rt, rt.alloc()),
            Made::Parker => parker(rt),
            Made::StoppableParker => stoppable_parker(rt),
            Made::WatchedState => watched_state(rt, rt.alloc()),
            Made::StateOfAnyType => state_of_any_type(rt, rt.alloc()),
            Made::FlowOfAnyType => flow_of_any_type(rt, rt.alloc()),
            Made::RungSeat => rung_seat(rt, rt.alloc()),
            Made::WakingSeat => waking_seat(rt, rt.alloc()),
        }
    }

    fn make_often<R: Wait + Abort + RandomSource + AllocGlobal>(self, rt: &R) {
        for _ in 0..ROUNDS {
            self.make(rt);
        }
    }

    // Whether, sooner or later, it needs no page more than the process has.
    fn comes_to_rest<R>(self, rt: &R) -> bool
    where
        R: Wait + Abort + RandomSource + AllocGlobal + Files,
    {
        for _ in 0..COUNTS {
            let before = pages(rt);
            self.make_often(rt);
            if pages(rt) <= before {
                return true;
            }
        }
        false
    }
}

#[test]
fn what_is_let_go_is_given_back(rt: HostRuntime) -> Result<(), Fail> {
    let mut kept = String::new(rt.alloc());
    for row in ROWS {
        if !row.made.comes_to_rest(&rt) {
            write!(kept, "{}; ", row.name)?;
        }
    }
    assert!(rt; kept.is_empty(), "memory is left of: {kept}");
    Ok(())
}
