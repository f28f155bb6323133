//! Scripts of many kinds: most of 1 to 50 KiB, and two that are nearly as long as a script may be.

use crate::acts::act;
use crate::answering::answer;
use crate::fault::Fault;
use crate::lines::Script;
use flow_script::Engine;
use std::alloc::{AllocError, AllocGlobal};
use std::random::RandomSource;
use std::sync::Wait;
use workload_inputs::{Digest, Random, Scale};

/// How many scripts there are.
const SCRIPTS: u64 = 1500;

/// The bytes of a long script, below the limit by more than an act has.
const LONG: u64 = 1_000_000;

/// Puts a script of about so many bytes in the place of the last one.
pub(crate) fn write_script(
    script: &mut Script,
    random: &mut Random,
    bytes: u64,
) -> Result<(), AllocError> {
    script.clear();
    for number in 0..bytes {
        if script.len() >= bytes {
            break;
        }
        act(script, random, number)?;
    }
    Ok(())
}

/// Writes and answers each script, on one engine or the other.
pub(crate) fn run<R>(rt: &R, seed: u64, scale: Scale) -> Result<Digest, Fault>
where
    R: AllocGlobal + RandomSource + Wait,
{
    let mut random = Random::new(seed);
    let mut digest = Digest::new();
    let mut script = Script::new(rt.alloc());
    let mut answers = Vec::new(rt.alloc());
    for number in 0..scale.of(SCRIPTS) {
        let bytes = 1024 + random.below(49 * 1024);
        let engine = if number % 2 == 0 {
            Engine::Core
        } else {
            Engine::Lane
        };
        write_script(&mut script, &mut random, bytes)?;
        answer(rt, &script, engine, &mut answers, &mut digest)?;
    }
    for engine in [Engine::Core, Engine::Lane] {
        write_script(&mut script, &mut random, scale.of(LONG))?;
        answer(rt, &script, engine, &mut answers, &mut digest)?;
    }
    Ok(digest)
}
