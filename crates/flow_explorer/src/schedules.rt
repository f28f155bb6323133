//! Scenes of three parties with four calls each, and every order of the twelve calls.

use crate::calls::Call::{Cancel, Emit, Next, Subscribe, Take, TakeAll, TakeBack, Try, TryAll};
use crate::calls::Party::{A, B, First, Second};
use crate::calls::{Call, Party, Stage};
use crate::on_core::Cores;
use crate::on_flow::Flows;
use crate::on_lane::Lanes;
use crate::story::{Story, Wrong};
use futures::test::MockTask;
use shared_core::{Config, Policy};
use std::process::Abort;
use std::test::Fail;

/// How many calls all parties make together.
const CALLS: u32 = 12;

/// In how many orders they can be made: 12! / (4! · 4! · 4!).
const ORDERS: u64 = 34_650;

/// No subscription has more pending than this.
const PENDING: u32 = 3;

/// The calls of a party.
pub type Script = (Party, [Call; 4]);

/// Two emitters and a subscription; then an emitter with blocks and two subscriptions, one of which leaves, and one comes again.
const SCENES: [[Script; 3]; 2] = [
    [
        (First, [Emit(11), Try(12), Emit(13), TakeBack]),
        (Second, [Try(21), Emit(22), TakeBack, Emit(23)]),
        (A, [Subscribe, Next, Take, Next]),
    ],
    [
        (First, [Emit(11), TryAll(12, 2), Emit(14), TryAll(15, 3)]),
        (A, [Subscribe, Next, TakeAll, Cancel]),
        (B, [Subscribe, TakeAll, Cancel, Subscribe]),
    ],
];

/// How many values are kept for who comes late, and how many more may be pending: two together at most. Without a place there is one
/// policy.
const CAPACITIES: [(u64, u64); 6] = [(0, 0), (0, 1), (1, 0), (0, 2), (1, 1), (2, 0)];

const POLICIES: [Policy; 3] = [Policy::Suspend, Policy::DropOldest, Policy::DropLatest];

/// How many configs there are of each scene: each capacity with each policy, but for two without a place.
const CONFIGS: u64 = 16;

/// A scene in an order. In its turns, from the lowest bit on, the first party makes a call in those that `front` has, and the second
/// one in those of the others that `middle` has.
#[derive(Clone, Copy, Debug)]
pub struct Schedule {
    pub config: Config,
    pub scripts: [Script; 3],
    front: u32,
    middle: u32,
}

/// What makes a new flow, and plays a schedule on it.
pub trait Engine {
    fn play(&self, schedule: &Schedule) -> Result<(), Wrong>;
}

// Makes a party's call, where it can make one.
fn perform<S: Stage>(
    stage: &mut S,
    story: &mut Story,
    party: Party,
    call: Call,
) -> Result<(), Wrong> {
    match story.possible(party, call) {
        Some(call) => story.hear(party, call, stage.perform(party, call)),
        None => Ok(()),
    }
}

// What is in flight is taken back, and what is pending is received.
fn end<S: Stage>(stage: &mut S, story: &mut Story) -> Result<(), Wrong> {
    perform(stage, story, First, TakeBack)?;
    perform(stage, story, Second, TakeBack)?;
    for _ in 0..PENDING {
        perform(stage, story, A, Next)?;
        perform(stage, story, B, Next)?;
    }
    story.end()
}

/// Makes all calls of a schedule.
pub(crate) fn play_on<S: Stage>(
    stage: &mut S,
    story: &mut Story,
    schedule: &Schedule,
) -> Result<(), Wrong> {
    let [
        (front, front_calls),
        (middle, middle_calls),
        (back, back_calls),
    ] = schedule.scripts;
    let mut front_calls = front_calls.iter();
    let mut middle_calls = middle_calls.iter();
    let mut back_calls = back_calls.iter();
    let (mut fronts, mut middles) = (schedule.front, schedule.middle);
    for _ in 0..CALLS {
        let is_front = fronts & 1 == 1;
        let is_middle = !is_front && middles & 1 == 1;
        fronts >>= 1;
        let (party, call) = if is_front {
            (front, front_calls.next())
        } else {
            middles >>= 1;
            if is_middle {
                (middle, middle_calls.next())
            } else {
                (back, back_calls.next())
            }
        };
        if let Some(call) = call {
            perform(stage, story, party, *call)?;
        }
    }
    end(stage, story)
}

/// A schedule in which something was wrong.
pub type Finding = (Schedule, Wrong);

// Plays a scene in each order with these turns of the first party, and says how many there were.
fn play_orders<E: Engine>(engine: &E, schedule: Schedule) -> Result<u64, Finding> {
    let mut played: u64 = 0;
    for middle in 0..1u32 << 8 {
        if middle.count_ones() != 4 {
            continue;
        }
        let schedule = Schedule { middle, ..schedule };
        if let Err(wrong) = engine.play(&schedule) {
            return Err((schedule, wrong));
        }
        played = played.saturating_add(1);
    }
    Ok(played)
}

// Plays a scene in every order, and says how many there were.
fn play_scene<E: Engine>(engine: &E, schedule: Schedule) -> Result<u64, Finding> {
    let mut played: u64 = 0;
    for front in 0..1u32 << CALLS {
        if front.count_ones() == 4 {
            let orders = play_orders(engine, Schedule { front, ..schedule })?;
            played = played.saturating_add(orders);
        }
    }
    Ok(played)
}

// Plays each scene with this config in every order.
fn play_config<E: Engine>(engine: &E, config: Config) -> Result<u64, Finding> {
    let mut played: u64 = 0;
    for scripts in SCENES {
        let schedule = Schedule {
            config,
            scripts,
            front: 0,
            middle: 0,
        };
        played = played.saturating_add(play_scene(engine, schedule)?);
    }
    Ok(played)
}

// Plays each scene with each config under a policy in every order.
fn play_policy<E: Engine>(engine: &E, policy: Policy) -> Result<u64, Finding> {
    let mut played: u64 = 0;
    for (replay, extra) in CAPACITIES {
        let config = Config {
            replay,
            extra,
            policy,
            subscribers: 2,
            emits: 2,
            first: 3,
        };
        if config.refusal().is_none() {
            played = played.saturating_add(play_config(engine, config)?);
        }
    }
    Ok(played)
}

// Plays every schedule, and prints how many there were.
fn assert_all<R: Abort + Print, E: Engine>(rt: &R, name: &str, engine: &E) -> Result<(), Fail> {
    let mut played: u64 = 0;
    for policy in POLICIES {
        match play_policy(engine, policy) {
            Ok(count) => played = played.saturating_add(count),
            Err(finding) => assert!(rt; false, "{name}: {finding:?}"),
        }
    }
    println!(rt; "{name}: {played} schedules")?;
    assert_eq!(rt; played, CONFIGS * 2 * ORDERS, "{name}");
    Ok(())
}

#[test]
fn every_schedule_on_one_thread(rt: HostRuntime) -> Result<(), Fail> {
    assert_all(&rt, "a flow on one thread", &Cores { alloc: rt.alloc() })
}

#[test]
fn every_schedule_on_a_lane(rt: HostRuntime) -> Result<(), Fail> {
    assert_all(&rt, "a lane", &Lanes { alloc: rt.alloc() })
}

#[test]
fn every_schedule_on_a_shared_flow(rt: HostRuntime) -> Result<(), Fail> {
    let task = MockTask::new(&rt)?;
    let flows = Flows {
        rt: &rt,
        task: &task,
    };
    assert_all(&rt, "a shared flow", &flows)
}
