//! Runs a script of commands on flows: the script comes on standard input, its answers go to standard output.
//!
//! The status is 0 at the end of the script, 1 for a fault, which is named on standard error, and 2, with nothing
//! written, where the command line is no engine.
#![tactic(auto)]

use flow_script::{ScriptFault, run_script};
use program_words::{Stop, engine_asked, status_of};
use std::io::{self, BufWriter, Write};
use std::process::ExitCode;

/// Gives the status of such an end, and names a fault on standard error.
fn end(rt: &HostRuntime, ended: Result<(), Stop<ScriptFault>>) -> ExitCode {
    status_of(rt, "flow_runner", ended)
}

fn main(rt: HostRuntime) -> ExitCode {
    let engine = match engine_asked(&rt) {
        Ok(engine) => engine,
        Err(fault) => return end(&rt, Err(Stop::from(fault))),
    };
    let Ok(mut writer) = BufWriter::new(rt.alloc(), io::writer(&rt)) else {
        return end(&rt, Err(Stop::Fault(ScriptFault::NoMemory)));
    };
    let ran = run_script(&rt, &mut rt.reader(), &mut writer, engine);
    // A script that ended early leaves the answers of the lines before in the buffer. After a write that failed nothing
    // more is written: what the buffer holds is let go.
    if !matches!(ran, Err(ScriptFault::Write)) {
        let _ = writer.flush();
    }
    let _ = writer.into_parts();
    end(&rt, ran.map_err(Stop::Fault))
}
