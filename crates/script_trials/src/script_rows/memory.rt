//! Scripts where an allocation is refused, as under `rt try --test --fail-alloc N`. Up to the first line that is refused
//! with 4, or the end for want of memory, the lines written are those of ample memory; once more, all are.

use super::rows::{FIRST_PATH, Row, SHARE_WHILE_SUBSCRIBED, STATE_CONFLATES};
use super::{ENGINES, lines_of, run};
use crate::tools::assert_none;
use flow_script::{Engine, ScriptFault};
use std::alloc::{AllocGlobal, Global};
use std::process::Abort;
use std::random::RandomSource;
use std::sync::Wait;
use std::test::Fail;
use trial_tools::{Differences, made_again};

/// How many bytes a text has at most: the writer has that room at first, and takes no memory later.
const ROOM: usize = 1024;

/// A shared flow, a sharing, and a state.
const FLOWS: &[Row] = &[FIRST_PATH, SHARE_WHILE_SUBSCRIBED, STATE_CONFLATES];

const BUFFERS: &[Row] = &[
    Row {
        name: "buffers_oldest",
        script: "buffer b 2 oldest of 1,2,3,p,4 ; fill b ; fill b ; fill b ; next b ; fill b ; next b ; next b ; next b ; fill b",
        answers: "ok ; took ; took ; overwrote ; value 2 ; pending ; value 3 ; value 4 ; finished ; ended",
    },
    Row {
        name: "buffers_latest",
        script: "buffer d 1 latest of 1,2,3 ; fill d ; fill d ; next d ; next d ; next d",
        answers: "ok ; took ; dropped ; value 1 ; value 3 ; finished",
    },
    Row {
        name: "buffers_suspend",
        script: "buffer s 1 suspend fail 6 1,2 ; fill s ; fill s ; next s ; next s ; next s",
        answers: "ok ; took ; full ; value 1 ; value 2 ; failed 6",
    },
    Row {
        name: "buffers_refused",
        script: "buffer z 0 suspend of 1 ; buffer z 65537 suspend of 1",
        answers: "refused 8 ; refused 1",
    },
];

const PIPES: &[Row] = &[Row {
    name: "pipes_of_several_sources",
    script: "cold of 1,2,3 | zip of 10,20 ; cold of 1 | zip fail 3 10 ; cold of 1,2 | zip fail 3 10 ; cold of 1,2 | combine of 10,20 ; cold of 5,8 | concat ; cold range 0 5 | even | twice ; cold of 18446744073709551615 | add 1 ; cold of 1 | done 9 ; cold fail 3 1 | catch fault 4 ; cold range 0 10001 ; cold range 0 10000 | drop 9999",
    answers: "[11,22] finished ; [11] finished ; [11] failed 3 ; [11,12,22] finished ; [5,6,8,9] finished ; [0,0,2,2,4,4] finished ; [0] finished ; [1,9] finished ; [1] failed 4 ; too many ; [9999] finished",
}];

/// How many bytes the first lines have that are the same in both texts.
fn same_lines(text: &[u8], other: &[u8]) -> usize {
    let mut count = 0;
    for (place, (byte, another)) in text.iter().zip(other.iter()).enumerate() {
        if byte != another {
            break;
        }
        if *byte == b'\n' {
            count = place.saturating_add(1);
        }
    }
    count
}

/// Is that what was to be written, or that up to the first line that is refused with 4, or up to the end for want of memory?
fn agrees(ran: Result<(), ScriptFault>, text: &[u8], want: &[u8]) -> bool {
    let count = same_lines(text, want);
    let rest = text.get(count..).unwrap_or(text);
    match ran {
        Ok(()) => text == want || rest.starts_with(b"refused 4\n"),
        Err(ScriptFault::NoMemory) => rest.is_empty(),
        Err(_) => false,
    }
}

/// A text like that of a row, with lines in place of ` ; `.
fn lines_again(alloc: Global, text: &str) -> Result<String, Fail> {
    Ok(made_again(&|| lines_of(alloc, text))?)
}

/// Runs the script, and how that ended. The text is what it wrote.
fn written(
    rt: &(impl Wait + RandomSource + AllocGlobal),
    engine: Engine,
    script: &[u8],
    text: &mut Vec<u8>,
) -> Result<(), ScriptFault> {
    text.clear();
    let mut rest = script;
    run(rt, &mut rest, text, engine)
}

/// Runs the script once, and once more where it wasn't answered whole. Whether the first answers agree with those of ample
/// memory, and the last are these.
fn is_answered(
    rt: &(impl Wait + RandomSource + AllocGlobal),
    engine: Engine,
    script: &[u8],
    want: &[u8],
) -> Result<(bool, bool), Fail> {
    let alloc = rt.alloc();
    let mut text = made_again(&|| Vec::with_capacity(alloc, ROOM))?;
    let ran = written(rt, engine, script, &mut text);
    let agreed = agrees(ran, &text, want);
    if ran == Ok(()) && text.as_slice() == want {
        return Ok((agreed, true));
    }
    let ran = written(rt, engine, script, &mut text);
    Ok((agreed, ran == Ok(()) && text.as_slice() == want))
}

/// Compares a row on an engine.
fn compare_row(
    rt: &(impl Wait + RandomSource + AllocGlobal),
    differences: &mut Differences,
    engine: Engine,
    row: &Row,
) -> Result<(), Fail> {
    let script = lines_again(rt.alloc(), row.script)?;
    let want = lines_again(rt.alloc(), row.answers)?;
    let answered = is_answered(rt, engine, script.as_bytes(), want.as_bytes())?;
    differences.compare(row.name, (engine, answered), (engine, (true, true)))
}

/// Compares each row on both engines.
fn assert_answered(
    rt: &(impl Abort + Wait + RandomSource + AllocGlobal),
    rows: &[Row],
) -> Result<(), Fail> {
    let mut differences = Differences::none(rt.alloc());
    for engine in ENGINES {
        for row in rows {
            compare_row(rt, &mut differences, engine, row)?;
        }
    }
    assert_none(rt, &differences);
    Ok(())
}

#[test]
fn scripts_of_flows_take_memory(rt: HostRuntime) -> Result<(), Fail> {
    assert_answered(&rt, FLOWS)
}

#[test]
fn scripts_of_buffers_take_memory(rt: HostRuntime) -> Result<(), Fail> {
    assert_answered(&rt, BUFFERS)
}

#[test]
fn scripts_of_pipes_take_memory(rt: HostRuntime) -> Result<(), Fail> {
    assert_answered(&rt, PIPES)
}
