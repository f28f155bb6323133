//! Draws each script of the folder that it is run in anew, and compares it with the picture that is kept there.
//!
//! The status is 0 where each picture is the kept one.
#![tactic(auto)]

use flow_script::{Engine, ScriptFault, read_script};
use marble_drawing::{Form, draw_script};
use std::alloc::AllocGlobal;
use std::process::ExitCode;
use std::random::RandomSource;
use std::sync::Wait;
use std::{fs, io};

/// The names of the pictures.
const PICTURES: [&str; 5] = [
    "replay_cache",
    "policies",
    "hand_over",
    "conflation",
    "while_subscribed",
];

/// The bytes of a file, of which no more are wanted than a script may have.
fn bytes_of(rt: &HostRuntime, path: &str) -> Result<Vec<u8>, ScriptFault> {
    match fs::open(rt, path) {
        Ok(mut file) => read_script(rt.alloc(), &mut file),
        Err(_) => Err(ScriptFault::Read),
    }
}

/// The script of this name, and the picture of it that is kept.
fn files_of(rt: &HostRuntime, name: &str) -> Result<(Vec<u8>, Vec<u8>), ScriptFault> {
    let Ok(script) = format!(in rt.alloc(); "{name}.script") else {
        return Err(ScriptFault::NoMemory);
    };
    let Ok(kept) = format!(in rt.alloc(); "{name}.svg") else {
        return Err(ScriptFault::NoMemory);
    };
    let script = bytes_of(rt, script.as_str())?;
    let kept = bytes_of(rt, kept.as_str())?;
    Ok((script, kept))
}

/// Whether a script is drawn as the picture that is kept of it.
fn is_kept(
    rt: &(impl Wait + RandomSource + AllocGlobal),
    script: &[u8],
    kept: &[u8],
) -> Result<bool, ScriptFault> {
    let drawn = draw_script(rt, Engine::Core, Form::Svg, script)?;
    Ok(drawn.as_bytes() == kept)
}

fn main(rt: HostRuntime) -> io::Result<ExitCode> {
    let mut status = ExitCode::SUCCESS;
    for name in PICTURES {
        let compared = match files_of(&rt, name) {
            Ok((script, kept)) => is_kept(&rt, &script, &kept),
            Err(fault) => Err(fault),
        };
        match compared {
            Ok(true) => println!(rt; "{name}: the same")?,
            Ok(false) => {
                println!(rt; "{name}: another picture")?;
                status = ExitCode::FAILURE;
            }
            Err(fault) => {
                println!(rt; "{name}: {fault}")?;
                status = ExitCode::FAILURE;
            }
        }
    }
    Ok(status)
}
