//! Scripts of cold pipes, some over few values and some over nearly as many as a pipe holds.

use crate::answering::answer;
use crate::fault::Fault;
use crate::lines::{Script, Word};
use flow_script::Engine;
use std::alloc::{AllocError, AllocGlobal};
use std::random::RandomSource;
use std::sync::Wait;
use workload_inputs::{Digest, Random, Scale};

/// How many scripts there are.
const SCRIPTS: u64 = 60;

/// How many pipes each has.
const LINES: u64 = 400;

/// How many values a pipe begins with: most have few, and one in eight as many as a pipe may have.
fn length(random: &mut Random) -> u64 {
    match random.below(8) {
        0 => 9000 + random.below(1000),
        1..=2 => 1000 + random.below(2000),
        3..=5 => 50 + random.below(200),
        _ => random.below(20),
    }
}

/// Adds a stage. It never gives more values than it gets.
fn stage(script: &mut Script, random: &mut Random) -> Result<(), AllocError> {
    let number = Word::Number(random.below(1000));
    let from = random.below(100_000);
    match random.below(10) {
        0..=2 => script.words(&[Word::Text("| add"), number]),
        3 => script.words(&[Word::Text("| even")]),
        4 => script.words(&[Word::Text("| even | twice")]),
        5 => script.words(&[Word::Text("| drop"), number]),
        6 => script.words(&[Word::Text("| distinct | take 9000")]),
        7 => script.words(&[
            Word::Text("| zip range"),
            Word::Number(from),
            Word::Number(from + 9900),
        ]),
        8 => script.words(&[Word::Text("| even | concat")]),
        _ => script.words(&[Word::Text("| catch"), number]),
    }
}

/// Adds a pipe.
fn pipe(script: &mut Script, random: &mut Random) -> Result<(), AllocError> {
    let from = random.next() >> (20 + random.below(44));
    let to = from.saturating_add(length(random));
    script.words(&[
        Word::Text("cold range"),
        Word::Number(from),
        Word::Number(to),
    ])?;
    for _ in 0..random.below(5) {
        stage(script, random)?;
    }
    if random.is_one_of(1, 12) {
        script.words(&[Word::Text("| take 60 | combine range 0 60")])?;
    }
    script.line(&[])
}

/// Writes and answers each script.
pub(crate) fn run<R>(rt: &R, seed: u64, scale: Scale) -> Result<Digest, Fault>
where
    R: AllocGlobal + RandomSource + Wait,
{
    let mut random = Random::new(seed);
    let mut digest = Digest::new();
    let mut script = Script::new(rt.alloc());
    let mut answers = Vec::new(rt.alloc());
    for _ in 0..scale.of(SCRIPTS) {
        script.clear();
        for _ in 0..scale.of(LINES) {
            pipe(&mut script, &mut random)?;
        }
        answer(rt, &script, Engine::Core, &mut answers, &mut digest)?;
    }
    Ok(digest)
}
