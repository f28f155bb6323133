//! A script's answers, taken into a digest.

use crate::fault::Fault;
use crate::lines::Script;
use flow_script::{Engine, run_script};
use std::alloc::AllocGlobal;
use std::random::RandomSource;
use std::sync::Wait;
use workload_inputs::Digest;

/// Runs a script, and takes its answers into the digest. They are put where the last ones were.
pub(crate) fn answer<R>(
    rt: &R,
    script: &Script,
    engine: Engine,
    answers: &mut Vec<u8>,
    digest: &mut Digest,
) -> Result<(), Fault>
where
    R: AllocGlobal + RandomSource + Wait,
{
    answers.clear();
    let mut rest = script.text();
    run_script(rt, &mut rest, answers, engine)?;
    digest.bytes(answers.as_slice());
    Ok(())
}
