//! Threads that wait in `emit` and `next` while others go on: where one is slower, where values are lost meanwhile, where one
//! parker serves both waits, and where several emit and several receive. Whatever comes, each makes all its calls, so that nobody
//! waits for good.

use crate::ledger::{Heard, Said};
use crate::shared_stage::config;
use crate::tools::assert_none;
use crate::waiting_rows::{emitted, received};
use cold_flow::Policy;
use shared_flow::{Emitter, Parker, SharedFlow, Subscription};
use std::alloc::AllocGlobal;
use std::hint;
use std::process::Abort;
use std::random::RandomSource;
use std::sync::Wait;
use std::test::Fail;
use std::thread::{Threads, for_each_mut};
use trial_tools::{Differences, Gathering};

/// How many sides there are at most.
const SIDES: usize = 8;

/// How many turns of a pause pass at most between two emissions.
const PAUSE: u64 = 400;

/// What a side does: in each turn it emits a value, or receives one, or both.
#[derive(Clone, Copy)]
struct Part {
    /// It emits into the second flow and receives from the first, and not the other way round.
    is_far: bool,
    /// The id of its emitter, where it has one.
    says: Option<u32>,
    hears: bool,
    /// It receives before it emits.
    hears_first: bool,
    turns: u64,
    /// How long it lets time pass at most, so that the other one finds no value yet: it looks on, or sleeps.
    pause: u64,
    /// After how many turns each time.
    burst: u64,
}

const SAYS: Part = Part {
    is_far: false,
    says: Some(0),
    hears: false,
    hears_first: false,
    turns: 1000,
    pause: 0,
    burst: 1,
};

const HEARS: Part = Part {
    is_far: true,
    says: None,
    hears: true,
    ..SAYS
};

/// The same where values may be lost, so that nobody waits for a subscription.
const SAYS_IN_PAUSES: Part = Part {
    turns: 800,
    pause: PAUSE,
    ..SAYS
};

const HEARS_THE_LAST: Part = Part {
    turns: 800,
    ..HEARS
};

/// The sides of a talk: one says each value and then hears it from the other side, which hears it first.
const BEGINS: Part = Part {
    hears: true,
    turns: 100,
    ..SAYS
};

const ANSWERS: Part = Part {
    is_far: true,
    hears_first: true,
    ..BEGINS
};

/// What all sides came to.
#[derive(Debug, Drop, PartialEq)]
struct Total {
    accepted: u64,
    /// How many values were dropped as they were emitted.
    dropped: u64,
    /// The numbers of all receipts. Each number is given once: so these rise from 0 up, where the sum is that of as many.
    numbers: u64,
    /// How many values were received, or lost by a subscription.
    heard: u64,
    /// The numbers of each emitter's receipts rose, and the values of each emitter did wherever they were received.
    rises: bool,
    /// None was lost.
    is_whole: bool,
}

/// Sides that run at once, with so many threads at most, and what they come to. They run once for each number of places.
struct Scene<'a> {
    name: &'a str,
    extras: &'a [u64],
    policy: Policy,
    threads: usize,
    parts: &'a [Part],
    total: Total,
}

const ALL: Total = Total {
    accepted: 1000,
    dropped: 0,
    numbers: 499_500,
    heard: 1000,
    rises: true,
    is_whole: true,
};

const ALL_IN_PAUSES: Total = Total {
    accepted: 250,
    numbers: 31_125,
    heard: 250,
    ..ALL
};

const ALL_OR_LOST: Total = Total {
    accepted: 800,
    numbers: 319_600,
    heard: 800,
    ..ALL
};

const ALL_OF_A_TALK: Total = Total {
    accepted: 200,
    numbers: 9_900,
    heard: 200,
    ..ALL
};

const ANSWERED: Scene<'_> = Scene {
    name: "threads that wait are answered",
    extras: &[0, 1, 8],
    policy: Policy::Suspend,
    threads: SIDES,
    parts: &[SAYS, HEARS],
    total: ALL,
};

const LAST_VALUE: Scene<'_> = Scene {
    name: "one that waits has the last value",
    extras: &[1, 2],
    policy: Policy::DropOldest,
    parts: &[SAYS_IN_PAUSES, HEARS_THE_LAST],
    total: ALL_OR_LOST,
    ..ANSWERED
};

const TALK: Scene<'_> = Scene {
    name: "one parker serves both waits",
    extras: &[0, 1],
    parts: &[BEGINS, ANSWERS],
    total: ALL_OF_A_TALK,
    ..ANSWERED
};

/// Where one is slower, the other looks on, finds its value by that, or sleeps and is woken: by turns, as the pauses go.
const PAIRS: &[Scene<'_>] = &[
    ANSWERED,
    Scene {
        name: "one that receives waits for a slower one",
        parts: &[
            Part {
                turns: 250,
                pause: 8000,
                ..SAYS
            },
            Part {
                turns: 250,
                ..HEARS
            },
        ],
        total: ALL_IN_PAUSES,
        ..ANSWERED
    },
    Scene {
        name: "one that emits waits for a slower one",
        parts: &[
            Part { turns: 250, ..SAYS },
            Part {
                turns: 250,
                pause: 8000,
                ..HEARS
            },
        ],
        total: ALL_IN_PAUSES,
        ..ANSWERED
    },
    Scene {
        name: "both are as slow",
        parts: &[
            Part {
                turns: 250,
                pause: 64,
                ..SAYS
            },
            Part {
                turns: 250,
                pause: 64,
                ..HEARS
            },
        ],
        total: ALL_IN_PAUSES,
        ..ANSWERED
    },
];

const DROPPING: &[Scene<'_>] = &[
    // Under a policy that drops, nobody waits. Of two values the first is kept in the one place, and the second dropped.
    Scene {
        name: "what is there is answered at once",
        extras: &[1],
        policy: Policy::DropLatest,
        threads: 1,
        parts: &[Part { turns: 2, ..SAYS }, Part { turns: 1, ..HEARS }],
        total: Total {
            accepted: 1,
            dropped: 1,
            numbers: 0,
            heard: 1,
            ..ALL
        },
    },
    // Under `DropOldest` the last value is never lost, and each other one is received in order or dropped. A subscription that
    // waits for one loses some just as it looks.
    LAST_VALUE,
    Scene {
        name: "one that waits has the last value of two at once",
        parts: &[
            Part {
                burst: 2,
                ..SAYS_IN_PAUSES
            },
            HEARS_THE_LAST,
        ],
        ..LAST_VALUE
    },
    Scene {
        name: "one that waits has the last value of five at once",
        parts: &[
            Part {
                burst: 5,
                ..SAYS_IN_PAUSES
            },
            HEARS_THE_LAST,
        ],
        ..LAST_VALUE
    },
];

const TALKS: &[Scene<'_>] = &[
    // A wait that ends before it sleeps leaves its turn to the next one, which waits for something else: an emission after a value,
    // and a value after an emission.
    TALK,
    Scene {
        name: "one parker serves both waits of who is slower and begins",
        parts: &[
            Part {
                pause: PAUSE,
                ..BEGINS
            },
            ANSWERS,
        ],
        ..TALK
    },
    Scene {
        name: "one parker serves both waits of who is slower and answers",
        parts: &[
            BEGINS,
            Part {
                pause: PAUSE,
                ..ANSWERS
            },
        ],
        ..TALK
    },
    // Each number is given once, to one emitter's receipt or to the other's, and each subscription has all values of both, each
    // emitter's in its order.
    Scene {
        name: "emitters wait for each subscription",
        extras: &[0, 1, 4],
        parts: &[
            Part { turns: 100, ..SAYS },
            Part {
                says: Some(1),
                turns: 100,
                ..SAYS
            },
            Part {
                turns: 200,
                ..HEARS
            },
            Part {
                turns: 200,
                ..HEARS
            },
            Part {
                turns: 200,
                ..HEARS
            },
        ],
        total: Total {
            accepted: 200,
            numbers: 19_900,
            heard: 600,
            ..ALL
        },
        ..ANSWERED
    },
];

// Lets time pass, up to so much, by the value that is next.
fn dawdle(most: u64, value: u64) {
    for _ in 0..most.min(value % 256 * 32) {
        hint::spin_loop();
    }
}

/// One side, which has one parker for both waits.
struct Side {
    part: Part,
    emitter: Option<Emitter<u64>>,
    subscription: Option<Subscription<u64>>,
    parker: Parker,
    said: Said,
    heard: Heard,
}

impl Side {
    fn new<R: Wait + Abort + RandomSource + AllocGlobal>(
        rt: &R,
        to: &mut SharedFlow<u64>,
        from: &mut SharedFlow<u64>,
        part: &Part,
    ) -> Side {
        let parker = Parker::new(rt).expect(rt, "a parker");
        Side {
            part: *part,
            emitter: emitter_of(rt, to, part),
            subscription: subscription_of(rt, from, part),
            parker,
            said: Said::by(part.says.unwrap_or(0)),
            heard: Heard::nothing(),
        }
    }

    // Emits the value of this turn, if it has an emitter.
    fn say(&mut self, rt: &impl Wait, turn: u64) {
        let Some(emitter) = &mut self.emitter else {
            return;
        };
        if emitter.in_flight() {
            return;
        }
        let value = self.said.value(turn);
        match emitted(rt, emitter, &mut self.parker, value) {
            Ok(Some(receipt)) => {
                self.said.take(&receipt);
            }
            Ok(None) => self.said.miss(),
            Err(_) => {}
        }
    }

    // Receives a value, if it has a subscription.
    fn hear(&mut self, rt: &impl Wait) {
        let Some(subscription) = &mut self.subscription else {
            return;
        };
        if let Ok(value) = received(rt, subscription, &mut self.parker) {
            self.heard.note(value);
        }
    }

    fn turn(&mut self, rt: &impl Wait, turn: u64) {
        if self.part.hears_first {
            self.hear(rt);
            self.say(rt, turn);
        } else {
            self.say(rt, turn);
            self.hear(rt);
        }
    }

    // Makes its turns. One that only receives ends with the last value, before which some may be lost.
    fn run(&mut self, rt: &impl Wait, gathering: &Gathering) {
        if !gathering.come() {
            return;
        }
        for turn in 0..self.part.turns {
            if turn % self.part.burst.max(1) == 0 {
                dawdle(self.part.pause, turn);
            }
            self.turn(rt, turn);
            if self.part.says.is_none() && self.heard.next[0] >= self.part.turns {
                return;
            }
        }
    }

    fn end(self, rt: &impl Wait, total: &mut Total) {
        let Side {
            part: _,
            emitter,
            subscription,
            parker: _,
            said,
            heard,
        } = self;
        if let Some(emitter) = emitter {
            emitter.close(rt);
        }
        let lost = ended(rt, subscription);
        total.add(&said, &heard, lost);
    }
}

fn emitter_of<R: Wait + Abort>(
    rt: &R,
    flow: &mut SharedFlow<u64>,
    part: &Part,
) -> Option<Emitter<u64>> {
    let id = part.says?;
    Some(flow.emitter(id).expect(rt, "an emitter"))
}

fn subscription_of<R: Wait + Abort>(
    rt: &R,
    flow: &mut SharedFlow<u64>,
    part: &Part,
) -> Option<Subscription<u64>> {
    if !part.hears {
        return None;
    }
    Some(flow.subscribe(rt).expect(rt, "a subscription"))
}

// Ends a subscription, if there is one, and says how many values it lost.
fn ended(rt: &impl Wait, subscription: Option<Subscription<u64>>) -> u64 {
    let Some(subscription) = subscription else {
        return 0;
    };
    let dropped = subscription.dropped();
    subscription.cancel(rt);
    dropped
}

impl Total {
    fn none() -> Total {
        Total {
            accepted: 0,
            dropped: 0,
            numbers: 0,
            heard: 0,
            rises: true,
            is_whole: true,
        }
    }

    fn add(&mut self, said: &Said, heard: &Heard, lost: u64) {
        self.accepted = self.accepted.saturating_add(said.accepted);
        self.dropped = self.dropped.saturating_add(said.dropped);
        self.numbers = self.numbers.saturating_add(said.numbers);
        self.heard = self
            .heard
            .saturating_add(heard.received)
            .saturating_add(lost);
        self.rises = self.rises && said.rises && heard.rises;
        self.is_whole = self.is_whole && heard.is_whole && lost == 0;
    }
}

// One side for each part, over two flows. One for which there is no place is ended.
fn joined<R: Wait + Abort + RandomSource + AllocGlobal>(
    rt: &R,
    (near, far): (&mut SharedFlow<u64>, &mut SharedFlow<u64>),
    parts: &[Part],
) -> Vec<Side> {
    let mut sides = Vec::new(rt.alloc());
    for part in parts {
        let side = if part.is_far {
            Side::new(rt, far, near, part)
        } else {
            Side::new(rt, near, far, part)
        };
        if let Err(refused) = sides.push(side) {
            refused.value.end(rt, &mut Total::none());
        }
    }
    sides
}

// Ends each side, and adds what it came to.
fn end_all(rt: &impl Wait, mut sides: Vec<Side>) -> Total {
    let mut total = Total::none();
    while let Some(side) = sides.pop() {
        side.end(rt, &mut total);
    }
    sides.destroy_empty();
    total
}

impl Scene<'_> {
    // Each side makes its turns, in a thread of its own or in one for all.
    fn run_all<R: Wait + Threads + Sync>(&self, rt: &R, sides: &mut [Side]) {
        let gathering = Gathering::of(self.threads.min(self.parts.len()) as u64);
        for_each_mut(
            rt,
            sides,
            self.threads.max(1),
            &|_, side: &mut Side| side.run(rt, &gathering),
        );
    }

    // What the sides came to over new flows with so many places.
    fn played<R>(&self, rt: &R, extra: u64) -> Total
    where
        R: Wait + Threads + Abort + RandomSource + AllocGlobal + Sync,
    {
        let config = config(0, extra, self.policy);
        let mut near = SharedFlow::new(rt.alloc(), config).expect(rt, "a flow");
        let mut far = SharedFlow::new(rt.alloc(), config).expect(rt, "another flow");
        let mut sides = joined(rt, (&mut near, &mut far), self.parts);
        self.run_all(rt, &mut sides);
        let mut total = end_all(rt, sides);
        // Some of it may be lost then.
        total.is_whole = total.is_whole || self.policy == Policy::DropOldest;
        total
    }

    fn compare<R>(&self, rt: &R, differences: &mut Differences) -> Result<(), Fail>
    where
        R: Wait + Threads + Abort + RandomSource + AllocGlobal + Sync,
    {
        for extra in self.extras {
            let total = self.played(rt, *extra);
            differences.compare(self.name, &total, &self.total)?;
        }
        Ok(())
    }
}

// Plays each of these scenes, and fails with those that came otherwise.
fn assert_scenes<R>(rt: &R, scenes: &[Scene<'_>]) -> Result<(), Fail>
where
    R: Wait + Threads + Abort + RandomSource + AllocGlobal + Sync,
{
    let mut differences = Differences::none(rt.alloc());
    for scene in scenes {
        scene.compare(rt, &mut differences)?;
    }
    assert_none(rt, &differences);
    Ok(())
}

#[test]
fn those_that_wait_are_answered(rt: HostRuntime) -> Result<(), Fail> {
    assert_scenes(&rt, PAIRS)
}

#[test]
fn those_that_wait_have_the_last_value(rt: HostRuntime) -> Result<(), Fail> {
    assert_scenes(&rt, DROPPING)
}

#[test]
fn those_that_wait_for_each_other_are_answered(rt: HostRuntime) -> Result<(), Fail> {
    assert_scenes(&rt, TALKS)
}
