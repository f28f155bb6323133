//! Scripts that are drawn: most of 20 to 2,000 lines, some with eight subscriptions that all lose, and some with very many rows.

use crate::fault::Fault;
use crate::lines::{Script, Word};
use crate::scripts::write_script;
use flow_script::Engine;
use marble_drawing::{Form, draw_script};
use std::alloc::{AllocError, AllocGlobal};
use std::random::RandomSource;
use std::sync::Wait;
use workload_inputs::{Digest, Random, Scale};

/// How many scripts of common length are drawn.
const PICTURES: u64 = 160;

/// How many emissions there are where all subscriptions lose.
const LOSSES: u64 = 4000;

/// How many states there are where there are very many rows.
const ROWS: u64 = 2400;

/// Draws a script, and takes the picture into the digest.
fn draw<R>(
    rt: &R,
    script: &Script,
    (engine, form): (Engine, Form),
    digest: &mut Digest,
) -> Result<(), Fault>
where
    R: AllocGlobal + RandomSource + Wait,
{
    let picture = draw_script(rt, engine, form, script.text())?;
    digest.bytes(picture.as_bytes());
    Ok(())
}

/// Draws a script in both forms.
fn draw_both<R>(rt: &R, script: &Script, digest: &mut Digest) -> Result<(), Fault>
where
    R: AllocGlobal + RandomSource + Wait,
{
    draw(rt, script, (Engine::Core, Form::Svg), digest)?;
    draw(rt, script, (Engine::Core, Form::Text), digest)
}

/// A flow that drops the oldest, and eight subscriptions that take a value seldom.
fn write_losses(
    script: &mut Script,
    random: &mut Random,
    emissions: u64,
) -> Result<(), AllocError> {
    script.clear();
    let flow = Word::Name("f", 0, 0);
    script.line(&[Word::Text("shared"), flow, Word::Text("0 2 oldest")])?;
    for reader in 0..8 {
        script.line(&[Word::Text("sub"), flow, Word::Name("r", 0, reader)])?;
    }
    for _ in 0..emissions {
        script.line(&[Word::Text("try"), flow, Word::Number(random.below(100_000))])?;
        if random.is_one_of(1, 4) {
            let reader = random.below(8);
            script.line(&[Word::Text("next"), Word::Name("r", 0, reader)])?;
        }
    }
    Ok(())
}

/// Very many states, each with a few lines.
fn write_rows(script: &mut Script, random: &mut Random, states: u64) -> Result<(), AllocError> {
    script.clear();
    for number in 0..states {
        let state = Word::Name("s", number, 0);
        script.line(&[Word::Text("state"), state, Word::Number(random.below(100))])?;
        script.line(&[Word::Text("set"), state, Word::Number(random.below(1000))])?;
        script.line(&[Word::Text("value"), state])?;
    }
    Ok(())
}

/// Writes and draws each script.
pub(crate) fn run<R>(rt: &R, seed: u64, scale: Scale) -> Result<Digest, Fault>
where
    R: AllocGlobal + RandomSource + Wait,
{
    let mut random = Random::new(seed);
    let mut digest = Digest::new();
    let mut script = Script::new(rt.alloc());
    for number in 0..scale.of(PICTURES) {
        let bytes = 400 + random.below(30_000);
        write_script(&mut script, &mut random, bytes)?;
        let engine = if number % 4 == 3 {
            Engine::Lane
        } else {
            Engine::Core
        };
        let form = if number % 2 == 0 {
            Form::Svg
        } else {
            Form::Text
        };
        draw(rt, &script, (engine, form), &mut digest)?;
    }
    write_losses(&mut script, &mut random, scale.of(LOSSES))?;
    draw_both(rt, &script, &mut digest)?;
    write_rows(&mut script, &mut random, scale.of(ROWS))?;
    draw_both(rt, &script, &mut digest)?;
    Ok(digest)
}
