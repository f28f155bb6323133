//! Acts of scripts: what a scenario does with one flow, state, buffer or source, in some dozen lines.

use crate::lines::{Script, Word};
use crate::sources::{numbers, policy, source, start};
use std::alloc::AllocError;
use workload_inputs::Random;

/// An act of this number, by chance of one kind or another.
pub(crate) fn act(script: &mut Script, random: &mut Random, act: u64) -> Result<(), AllocError> {
    match random.below(16) {
        0..=5 => flow(script, random, act),
        6..=8 => state(script, random, act),
        9..=10 => buffer(script, random, act),
        11..=12 => share(script, random, act),
        13 => stated(script, random, act),
        14 => pipes(script, random),
        _ => remarks(script, random, act),
    }
}

/// A flow with some subscriptions.
fn flow(script: &mut Script, random: &mut Random, act: u64) -> Result<(), AllocError> {
    let replay = random.below(4);
    let extra = 1 + random.below(8);
    script.line(&[
        Word::Text("shared"),
        Word::Name("f", act, 0),
        Word::Number(replay),
        Word::Number(extra),
        policy(random),
    ])?;
    let readers = 1 + random.below(4);
    for reader in 0..readers {
        script.line(&[
            Word::Text("sub"),
            Word::Name("f", act, 0),
            Word::Name("r", act, reader),
        ])?;
    }
    let steps = 20 + random.below(60);
    for step in 0..steps {
        flow_step(script, random, act, (readers, step))?;
    }
    Ok(())
}

/// One step on a flow with so many subscriptions: emissions, receipts, and now and then another call.
fn flow_step(
    script: &mut Script,
    random: &mut Random,
    act: u64,
    (readers, step): (u64, u64),
) -> Result<(), AllocError> {
    let flow = Word::Name("f", act, 0);
    let value = Word::Number(random.next() >> (random.below(60)));
    let reader = random.below(readers.max(1));
    match random.below(24) {
        0..=7 => script.line(&[Word::Text("try"), flow, value]),
        8..=18 => script.line(&[Word::Text("next"), Word::Name("r", act, reader)]),
        19..=20 => emission(script, random, act, (step, value)),
        21 => script.line(&[Word::Text("cache"), flow]),
        22 => script.line(&[Word::Text("count"), flow]),
        _ => seldom(script, random, act, (step, reader)),
    }
}

/// An emission, and what becomes of it.
fn emission(
    script: &mut Script,
    random: &mut Random,
    act: u64,
    (step, value): (u64, Word<'_>),
) -> Result<(), AllocError> {
    let name = Word::Name("e", act, step);
    script.line(&[Word::Text("emit"), Word::Name("f", act, 0), name, value])?;
    if random.is_one_of(1, 4) {
        script.line(&[Word::Text("withdraw"), name])
    } else {
        script.line(&[Word::Text("poll"), name])
    }
}

/// What happens seldom to a flow.
fn seldom(
    script: &mut Script,
    random: &mut Random,
    act: u64,
    (step, reader): (u64, u64),
) -> Result<(), AllocError> {
    let flow = Word::Name("f", act, 0);
    let list = numbers(random);
    match random.below(4) {
        0 => script.line(&[Word::Text("reset"), flow]),
        1 => script.line(&[Word::Text("cancel"), Word::Name("r", act, reader)]),
        2 => script.line(&[Word::Text("sub"), flow, Word::Name("l", act, step)]),
        _ => {
            script.words(&[Word::Text("sub"), flow, Word::Name("l", act, step)])?;
            script.words(&[Word::Text("with")])?;
            script.line(&[Word::List(list.as_slice())])
        }
    }
}

/// A state with some collectors.
fn state(script: &mut Script, random: &mut Random, act: u64) -> Result<(), AllocError> {
    let state = Word::Name("s", act, 0);
    script.line(&[Word::Text("state"), state, Word::Number(random.below(100))])?;
    let collectors = 1 + random.below(3);
    for collector in 0..collectors {
        script.line(&[
            Word::Text("collect"),
            state,
            Word::Name("c", act, collector),
        ])?;
    }
    let steps = 15 + random.below(40);
    for _ in 0..steps {
        state_step(script, random, act, collectors)?;
    }
    Ok(())
}

/// One step on a state with so many collectors.
fn state_step(
    script: &mut Script,
    random: &mut Random,
    act: u64,
    collectors: u64,
) -> Result<(), AllocError> {
    let state = Word::Name("s", act, 0);
    let value = Word::Number(random.below(10));
    let next = Word::Number(random.below(1000));
    let collector = Word::Name("c", act, random.below(collectors.max(1)));
    match random.below(8) {
        0..=2 => script.line(&[Word::Text("set"), state, next]),
        3 => script.line(&[Word::Text("cas"), state, value, next]),
        4 => script.line(&[Word::Text("value"), state]),
        _ => script.line(&[Word::Text("next"), collector]),
    }
}

/// A buffer behind a source.
fn buffer(script: &mut Script, random: &mut Random, act: u64) -> Result<(), AllocError> {
    let buffer = Word::Name("b", act, 0);
    let capacity = Word::Number(1 + random.below(16));
    script.words(&[Word::Text("buffer"), buffer, capacity, policy(random)])?;
    source(script, random)?;
    let steps = 15 + random.below(40);
    for _ in 0..steps {
        if random.is_one_of(1, 2) {
            script.line(&[Word::Text("fill"), buffer])?;
        } else {
            script.line(&[Word::Text("next"), buffer])?;
        }
    }
    Ok(())
}

/// A flow that a source is shared into.
fn share(script: &mut Script, random: &mut Random, act: u64) -> Result<(), AllocError> {
    let flow = Word::Name("h", act, 0);
    let (replay, extra) = (random.below(4), 1 + random.below(8));
    script.words(&[
        Word::Text("share"),
        flow,
        Word::Number(replay),
        Word::Number(extra),
        policy(random),
    ])?;
    script.words(start(random).as_slice())?;
    source(script, random)?;
    ticks(script, random, (act, "h", "sub"))
}

/// A state that a source sets.
fn stated(script: &mut Script, random: &mut Random, act: u64) -> Result<(), AllocError> {
    let state = Word::Name("t", act, 0);
    script.words(&[Word::Text("stated"), state, Word::Number(7)])?;
    script.words(start(random).as_slice())?;
    source(script, random)?;
    ticks(script, random, (act, "t", "collect"))
}

/// Rising moments, at which somebody comes, receives or goes.
fn ticks(
    script: &mut Script,
    random: &mut Random,
    (act, letter, joining): (u64, &'static str, &'static str),
) -> Result<(), AllocError> {
    let shared = Word::Name(letter, act, 0);
    let mut now = 0u64;
    for visit in 0..4 {
        let visitor = Word::Name("v", act, visit);
        script.line(&[Word::Text(joining), shared, visitor])?;
        for _ in 0..6 {
            now = now.wrapping_add(random.below(60));
            script.line(&[Word::Text("tick"), shared, Word::Number(now)])?;
            script.line(&[Word::Text("next"), visitor])?;
        }
        script.line(&[Word::Text("cancel"), visitor])?;
        script.line(&[Word::Text("count"), shared])?;
    }
    Ok(())
}

/// Some short cold pipes.
fn pipes(script: &mut Script, random: &mut Random) -> Result<(), AllocError> {
    for _ in 0..6 {
        let list = numbers(random);
        let amount = Word::Number(random.below(100));
        script.words(&[Word::Text("cold of"), Word::List(list.as_slice())])?;
        script.words(&[
            Word::Text("| add"),
            amount,
            Word::Text("| twice | drop 3 |"),
        ])?;
        match random.below(3) {
            0 => script.line(&[Word::Text("even | take 4")])?,
            1 => script.line(&[Word::Text("distinct | zip range 5 40")])?,
            _ => script.line(&[Word::Text("concat | done"), amount])?,
        }
    }
    Ok(())
}

/// Lines that have no answer, and some that are bad.
fn remarks(script: &mut Script, random: &mut Random, act: u64) -> Result<(), AllocError> {
    script.line(&[
        Word::Text("# scene"),
        Word::Number(act),
        Word::Text("begins here, and says what it is for"),
    ])?;
    script.line(&[])?;
    let value = Word::Number(random.next());
    match random.below(3) {
        0 => script.line(&[Word::Text("shared flow one two three")]),
        1 => script.line(&[Word::Text("next nobody")]),
        _ => script.line(&[Word::Text("emitt f e"), value]),
    }
}
