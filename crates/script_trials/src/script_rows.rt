//! Scripts with known answers, and readers and writers that fail.

ghost use Rattle.std.specs.Prelude.{◌≡◌, IfOk, List};
ghost use Rattle.flow_script.specs.Running.{On};
ghost use Rattle.script_run.specs.declared.line_answer.LineAnswer.{LineAnswer};
ghost use Rattle.script_run.specs.Scripts.{AnswersScript, text_of_answers};

mod buffers;
mod cuts;
mod memory;
mod pipes;
mod rows;
mod sharings;
mod streams;

use crate::tools::{assert_none, compare_text};
use flow_script::{CoreObject, Engine, LaneObject, ScriptFault, run_script};
use rows::{ROWS, Row};
use script_commands::ScriptObject;
use std::alloc::{AllocError, AllocGlobal, Global};
use std::io;
use std::io::{Read, Write};
use std::random::RandomSource;
use std::sync::Wait;
use std::test::Fail;
use streams::{Failure, Sink, Tap};
use trial_tools::Differences;

/// The first of the rows, and its answers.
const SCRIPT: &[u8] =
    b"shared f 0 2 suspend\nsub f a\ntry f 1\ntry f 2\ntry f 3\nnext a\ntry f 3\nnext a\nnext a\nnext a\ncancel a\nnext a\n";

const TEXT: &[u8] =
    b"ok\nok\naccepted\naccepted\nfull\nvalue 1\naccepted\nvalue 2\nvalue 3\npending\nok\nclosed\n";

/// Each script has the same answers with either.
const ENGINES: [Engine; 2] = [Engine::Core, Engine::Lane];

/// Runs a script, and says how it ended: as `run_script`, without its contract.
fn run<H: Wait + RandomSource + AllocGlobal, R: Read, W: Write>(
    rt: &H,
    reader: &mut R,
    writer: &mut W,
    engine: Engine,
) -> Result<(), ScriptFault> {
    run_script(rt, reader, writer, engine)
}

/// What a script answers.
fn answers<'r, H: Wait + RandomSource + AllocGlobal>(
    rt: &'r H,
    engine: Engine,
    script: &[u8],
) -> Result<Vec<u8>, Fail>
    ensures { IfOk result (λ text. On engine
        ((all : List LineAnswer) × AnswersScript ⟦<CoreObject<'r, 'r, H> as ScriptObject<'r>>⟧.makes
        ⟦<CoreObject<'r, 'r, H> as ScriptObject<'r>>⟧.asks
        ⟦<CoreObject<'r, 'r, H> as ScriptObject<'r>>⟧.joins script.now all × (text.items ≡ text_of_answers all))
        ((all : List LineAnswer) × AnswersScript ⟦<LaneObject<'r, 'r, H> as ScriptObject<'r>>⟧.makes
        ⟦<LaneObject<'r, 'r, H> as ScriptObject<'r>>⟧.asks
        ⟦<LaneObject<'r, 'r, H> as ScriptObject<'r>>⟧.joins script.now all × (text.items ≡ text_of_answers all))) }
{
    let mut reader = script;
    let mut text = Vec::new(rt.alloc());
    run_script(rt, &mut reader, &mut text, engine)?;
    Ok(text)
}

/// The same without a contract, so that no proof of a caller reads one.
fn answered(
    rt: &(impl Wait + RandomSource + AllocGlobal),
    engine: Engine,
    script: &[u8],
) -> Result<Vec<u8>, Fail> {
    answers(rt, engine, script)
}

/// The text with an end of line at each ` ; ` and at its end.
fn lines_of(alloc: Global, text: &str) -> Result<String, AllocError> {
    let mut lines = text.replace(alloc, " ; ", "\n")?;
    lines.push_str("\n")?;
    Ok(lines)
}

/// Compares what a row's script answers on this engine.
fn compare_row(
    rt: &(impl Wait + RandomSource + AllocGlobal),
    differences: &mut Differences,
    engine: Engine,
    row: &Row,
) -> Result<(), Fail> {
    let script = lines_of(rt.alloc(), row.script)?;
    let want = lines_of(rt.alloc(), row.answers)?;
    let text = answered(rt, engine, script.as_bytes())?;
    compare_text(differences, row.name, engine, &text, want.as_bytes())
}

#[test]
fn each_row_gives_its_answers(rt: HostRuntime) -> Result<(), Fail> {
    let mut differences = Differences::none(rt.alloc());
    for row in ROWS {
        compare_row(&rt, &mut differences, Engine::Core, row)?;
        compare_row(&rt, &mut differences, Engine::Lane, row)?;
    }
    assert_none(&rt, &differences);
    Ok(())
}

/// Lines, and how they are answered.
const LINES: &[(&[u8], &[u8])] = &[
    (b"", b""),
    (
        b"shared f 0 1 suspend\nbogus f",
        b"ok\nline 2: bad command\n",
    ),
    (b"\n# x\ntry f 1\n", b"line 3: bad command\n"),
    (b"shared f 0 1 suspend\r\n  count   f  \r\n", b"ok\n0\n"),
    (
        b"shared f 0 1 suspend\ncount f\r",
        b"ok\nline 2: bad command\n",
    ),
    (
        b"shared f 0 1 suspend\ncount f\r\r\n",
        b"ok\nline 2: bad command\n",
    ),
    (b"   \n \r\n\t\n", b"line 3: bad command\n"),
    (b"#x\n  # y\nx # z\n", b"line 3: bad command\n"),
    (
        b"shared f 0 0 oldest\nshared f 1 0 oldest\nshared f 0 0 oldest\n",
        b"refused 2\nok\nline 3: bad command\n",
    ),
    (
        b"shared f 0 1 drop\nshared f 0 1\nshared f 0 1 suspend 1\n",
        b"line 1: bad command\nline 2: bad command\nline 3: bad command\n",
    ),
    (b"shared f 18446744073709551615 1 suspend\n", b"refused 1\n"),
    (
        b"shared abcdefghijklmnop 0 1 latest\nshared abcdefghijklmnopq 0 1 latest\nshared 1a 0 1 latest\n",
        b"ok\nline 2: bad command\nline 3: bad command\n",
    ),
    (
        b"shared f 0 1 suspend\nsub f f\nsub f a\nsub f a\nsub a b\nnext f\ntry a 1\ncancel f\n",
        b"ok\nline 2: bad command\nok\nline 4: bad command\nline 5: bad command\nline 6: bad command\nline 7: bad command\nline 8: bad command\n",
    ),
    (
        b"shared f 0 0 suspend\nsub f a\nemit f a 1\nemit f e 1\nemit f e 2\npoll f\npoll a\nwithdraw e\nwithdraw e\nnext e\n",
        b"ok\nok\nline 3: bad command\nwaiting\nline 5: bad command\nline 6: bad command\nline 7: bad command\nleft\ngone\nline 10: bad command\n",
    ),
    (
        b"shared f 3 0 suspend\ntry f 18446744073709551615\ntry f 0\ncache f\nreset f\ncache f\ncount f\n",
        b"ok\naccepted\naccepted\n[18446744073709551615,0]\nok\n[]\n0\n",
    ),
    (
        b"state s 1\nstate s 2\nset s\nset x 1\ncas s 1\nvalue c\ncollect s s\ncollect s c\ncollect s c\n",
        b"ok\nline 2: bad command\nline 3: bad command\nline 4: bad command\nline 5: bad command\nline 6: bad command\nline 7: bad command\nok\nline 9: bad command\n",
    ),
    (
        b"state s 1\ncollect s c\nset c 2\ntry s 2\nsub s a\nreset s\ncache s\nnext s\ncancel s\ncount c\ncollect c d\ncollect s d 1\n",
        b"ok\nok\nline 3: bad command\nline 4: bad command\nline 5: bad command\nline 6: bad command\nline 7: bad command\nline 8: bad command\nline 9: bad command\nline 10: bad command\nline 11: bad command\nline 12: bad command\n",
    ),
    (
        b"shared f 0 1 suspend\nsub f a\nset f 1\ncas f 1 2\nvalue f\ncollect f c\nvalue a\nstate f 1\n",
        b"ok\nok\nline 3: bad command\nline 4: bad command\nline 5: bad command\nline 6: bad command\nline 7: bad command\nline 8: bad command\n",
    ),
    (
        b"shared f 0 1 suspend\nsub f a with\nsub f a with 1,p\nsub f a with 1, 2\nsub f a 1\nsub f a with 1,2 3\nsub f a with 1,\nstate s 1\nsub s b with 1\nsub f a with 007\nnext a\n",
        b"ok\nline 2: bad command\nline 3: bad command\nline 4: bad command\nline 5: bad command\nline 6: bad command\nline 7: bad command\nok\nline 9: bad command\nok\nvalue 7\n",
    ),
    (
        b"state s 18446744073709551615\nvalue s\nstate t 18446744073709551616\nset s 0\nvalue s\ncount s\n",
        b"ok\nvalue 18446744073709551615\nline 3: bad command\nok\nvalue 0\n0\n",
    ),
];

/// Compares what each script answers on this engine, and names a wrong one by its text.
fn compare_answers(
    rt: &(impl Wait + RandomSource + AllocGlobal),
    differences: &mut Differences,
    engine: Engine,
    lines: &[(&[u8], &[u8])],
) -> Result<(), Fail> {
    for (script, want) in lines {
        let text = answered(rt, engine, script)?;
        compare_text(differences, str::from_utf8(script)?, engine, &text, want)?;
    }
    Ok(())
}

/// All forms of lines, and the scripts of each subject.
#[test]
fn each_script_of_a_table_is_answered(rt: HostRuntime) -> Result<(), Fail> {
    let mut differences = Differences::none(rt.alloc());
    for lines in [
        LINES,
        buffers::LINES,
        sharings::LINES,
        pipes::WORKED,
        pipes::ONE_SOURCE,
        pipes::SEVERAL_SOURCES,
        pipes::BAD_COMMANDS,
    ] {
        compare_answers(&rt, &mut differences, Engine::Core, lines)?;
        compare_answers(&rt, &mut differences, Engine::Lane, lines)?;
    }
    assert_none(&rt, &differences);
    Ok(())
}

#[test]
fn each_fault_has_its_text(rt: HostRuntime) -> Result<(), Fail> {
    const TEXTS: &[(ScriptFault, &str)] = &[
        (ScriptFault::Read, "read fault"),
        (ScriptFault::TooLong, "script too long"),
        (ScriptFault::Write, "write fault"),
        (ScriptFault::NoMemory, "out of memory"),
    ];
    let mut differences = Differences::none(rt.alloc());
    for (fault, text) in TEXTS {
        let told = format!(in rt.alloc(); "{fault}")?;
        differences.compare("a fault", told.as_str(), *text)?;
    }
    assert_none(&rt, &differences);
    Ok(())
}

/// Adds a line of this length that counts a flow's subscriptions.
fn push_long_line(script: &mut Vec<u8>, len: usize) -> Result<(), Fail> {
    script.extend_from_slice(b"count f")?;
    for _ in 7..len {
        script.push(b' ')?;
    }
    script.push(b'\n')?;
    Ok(())
}

#[test]
fn a_line_has_at_most_1024_bytes(rt: HostRuntime) -> Result<(), Fail> {
    const WANT: &[u8] = b"ok\n0\nline 3: bad command\n";
    let mut differences = Differences::none(rt.alloc());
    let mut script = Vec::new(rt.alloc());
    script.extend_from_slice(b"shared f 0 1 suspend\n")?;
    push_long_line(&mut script, 1024)?;
    push_long_line(&mut script, 1025)?;
    for engine in ENGINES {
        let text = answered(&rt, engine, &script)?;
        compare_text(&mut differences, "long lines", engine, &text, WANT)?;
    }
    assert_none(&rt, &differences);
    Ok(())
}

/// How a reader fails.
const KINDS: [io::ErrorKind; 2] = [io::ErrorKind::TimedOut, io::ErrorKind::Interrupted];

/// Runs the script from a reader of at most so many bytes a read, which fails at this read, and compares the end and the text.
fn compare_read(
    rt: &(impl Wait + RandomSource + AllocGlobal),
    differences: &mut Differences,
    tap: &mut Tap<'_>,
    engine: Engine,
    fails_at: usize,
    want: Result<(), ScriptFault>,
) -> Result<(), Fail> {
    let mut text = Vec::new(rt.alloc());
    let ran = run(rt, tap, &mut text, engine);
    differences.compare("a failing read", (fails_at, ran), (fails_at, want))?;
    let answered = if want.is_ok() { TEXT } else { b"".as_slice() };
    compare_text(differences, "after a failing read", engine, &text, answered)
}

/// Each read fails of a reader that gives at most so many bytes a read, the last one, which finds the end, too. There is
/// none after that.
fn compare_reads(
    rt: &(impl Wait + RandomSource + AllocGlobal),
    differences: &mut Differences,
    engine: Engine,
    most: usize,
    reads: usize,
    kind: io::ErrorKind,
) -> Result<(), Fail> {
    for fails_at in 1..=reads.saturating_add(1) {
        let mut tap = Tap::new(SCRIPT, most, fails_at, kind);
        let want = if fails_at <= reads {
            Err(ScriptFault::Read)
        } else {
            Ok(())
        };
        compare_read(rt, differences, &mut tap, engine, fails_at, want)?;
    }
    Ok(())
}

#[test]
fn a_failing_read_writes_nothing(rt: HostRuntime) -> Result<(), Fail> {
    let singly = SCRIPT.len() + 1;
    let at_once = SCRIPT.len().div_ceil(100).saturating_add(1);
    let mut differences = Differences::none(rt.alloc());
    for engine in ENGINES {
        for kind in KINDS {
            compare_reads(&rt, &mut differences, engine, 1, singly, kind)?;
            compare_reads(&rt, &mut differences, engine, 100, at_once, kind)?;
        }
    }
    assert_none(&rt, &differences);
    Ok(())
}

/// Runs the script into a sink that fails at this byte, and compares the end, and what it took with this front of the answers.
fn compare_write(
    rt: &(impl Wait + RandomSource + AllocGlobal),
    differences: &mut Differences,
    engine: Engine,
    fails_at: usize,
    failure: Failure,
    wanted: (Result<(), ScriptFault>, &[u8]),
) -> Result<(), Fail> {
    let (end, front) = wanted;
    let mut sink = Sink::new(rt.alloc(), fails_at, failure);
    let mut script = SCRIPT;
    let ran = run(rt, &mut script, &mut sink, engine);
    let (found, wanted) = ((failure, fails_at, ran), (failure, fails_at, end));
    differences.compare("a failing write", found, wanted)?;
    compare_text(
        differences,
        "after a failing write",
        engine,
        sink.taken(),
        front,
    )
}

#[test]
fn a_failing_write_leaves_a_front_of_the_text(rt: HostRuntime) -> Result<(), Fail> {
    let mut differences = Differences::none(rt.alloc());
    for failure in [Failure::Error, Failure::Interrupted, Failure::Nothing] {
        for fails_at in 1..TEXT.len() + 1 {
            let front = TEXT.get(..fails_at - 1).ok_or("the text is longer")?;
            let wanted = (Err(ScriptFault::Write), front);
            compare_write(
                &rt,
                &mut differences,
                Engine::Core,
                fails_at,
                failure,
                wanted,
            )?;
            compare_write(
                &rt,
                &mut differences,
                Engine::Lane,
                fails_at,
                failure,
                wanted,
            )?;
        }
    }
    assert_none(&rt, &differences);
    Ok(())
}

/// Sinks that fail never, after all was written, or at the flush.
#[test]
fn a_late_failure_leaves_the_whole_text(rt: HostRuntime) -> Result<(), Fail> {
    let mut differences = Differences::none(rt.alloc());
    for engine in ENGINES {
        for (fails_at, failure, end) in [
            (0, Failure::Nothing, Ok(())),
            (TEXT.len() + 1, Failure::Nothing, Ok(())),
            (0, Failure::Flush, Err(ScriptFault::Write)),
        ] {
            compare_write(
                &rt,
                &mut differences,
                engine,
                fails_at,
                failure,
                (end, TEXT),
            )?;
        }
    }
    assert_none(&rt, &differences);
    Ok(())
}

/// Runs a script of so many bytes in one comment, which writes nothing.
fn compare_length(
    rt: &(impl Wait + RandomSource + AllocGlobal),
    differences: &mut Differences,
    engine: Engine,
    len: usize,
    want: Result<(), ScriptFault>,
) -> Result<(), Fail> {
    let mut script = Vec::new(rt.alloc());
    for _ in 0..len {
        script.push(b'#')?;
    }
    let mut text = Vec::new(rt.alloc());
    let mut rest = script.as_slice();
    let ran = run(rt, &mut rest, &mut text, engine);
    differences.compare("a long script", (len, ran), (len, want))?;
    compare_text(differences, "a long script", engine, &text, b"")
}

#[test]
fn a_script_past_the_limit_is_too_long(rt: HostRuntime) -> Result<(), Fail> {
    let mut differences = Differences::none(rt.alloc());
    for engine in ENGINES {
        compare_length(&rt, &mut differences, engine, 1_048_576, Ok(()))?;
        let too_long = Err(ScriptFault::TooLong);
        compare_length(&rt, &mut differences, engine, 1_048_577, too_long)?;
    }
    assert_none(&rt, &differences);
    Ok(())
}

#[test]
fn tens_of_thousands_of_names_are_found_fast(rt: HostRuntime) -> Result<(), Fail> {
    let mut script = String::new(rt.alloc());
    script.push_str("shared f 0 0 suspend\n")?;
    let mut want = String::new(rt.alloc());
    want.push_str("ok\n")?;
    for n in 0..65_000 {
        write!(script, "emit f e{n} 1\n")?;
        want.push_str("accepted\n")?;
    }
    for engine in ENGINES {
        let text = answered(&rt, engine, script.as_bytes())?;
        assert_eq!(rt; text.as_slice() == want.as_bytes(), true, "on {engine:?}");
    }
    Ok(())
}
