//! Lines of a script, from its bytes in memory to its answers in memory.

use crate::fault::Fault;
use crate::measured::{Measured, now};
use crate::report::{Line, Report};
use bench_figures::{Subject, Unit};
use flow_script::{Engine, run_script};
use std::alloc::{AllocGlobal, Global};
use std::fmt::Write as _;
use std::random::RandomSource;
use std::rt::Clock;
use std::sync::Wait;

/// The most bytes of the script: as many as one may have.
const BYTES: u64 = 1_048_576;

/// The most bytes of one round: a try of a number of at most ten digits, and a receipt for each subscription.
const ROUND_BYTES: u64 = 32;

/// A script, and what it answers.
#[derive(Drop)]
struct Script {
    text: String,
    answers: String,
    lines: u64,
}

/// Makes the measurement.
pub(crate) fn measure<R>(rt: &R, report: &mut Report)
where
    R: Clock + Print + AllocGlobal + RandomSource + Wait,
{
    if let Some(script) = report.noted(script_of(rt.alloc(), report.count(BYTES)))
        && let Some(lines) = report.noted(lines(rt, &script))
    {
        let line = Line {
            subject: Subject::Runner,
            scenario: "script",
            name: "line",
            unit: Unit::Nanoseconds,
        };
        report.figure(rt, line, script.lines, lines, script.lines);
    }
}

/// Measures how long the answers to a script take. The total is the number of its lines, where each was answered as it should be.
fn lines<R>(rt: &R, script: &Script) -> Result<Measured, Fault>
where
    R: Clock + AllocGlobal + RandomSource + Wait,
{
    let mut answers = Vec::with_capacity(rt.alloc(), script.answers.len())?;
    let mut rest = script.text.as_bytes();
    let start = now(rt);
    run_script(rt, &mut rest, &mut answers, Engine::Core)?;
    let mut measured = Measured::since(rt, start, 0);
    if answers.as_slice() == script.answers.as_bytes() {
        measured.total = script.lines;
    }
    Ok(measured)
}

/// A script of at most so many bytes: a flow, two subscriptions, then rounds of a try and a receipt for each of them.
fn script_of(alloc: Global, bytes: u64) -> Result<Script, Fault> {
    let mut script = Script {
        text: String::from_str(alloc, "shared f 0 64 suspend\nsub f a\nsub f b\n")?,
        answers: String::from_str(alloc, "ok\nok\nok\n")?,
        lines: 3,
    };
    for value in 0..bytes {
        if script.text.len() as u64 + ROUND_BYTES > bytes {
            break;
        }
        script.add_round(value)?;
    }
    Ok(script)
}

impl Script {
    /// Adds a try and two receipts.
    fn add_round(&mut self, value: u64) -> Result<(), Fault> {
        write!(self.text, "try f {value}\nnext a\nnext b\n")?;
        write!(self.answers, "accepted\nvalue {value}\nvalue {value}\n")?;
        self.lines = self.lines.wrapping_add(3);
        Ok(())
    }
}
