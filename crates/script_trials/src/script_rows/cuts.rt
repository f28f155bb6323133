//! Scripts that are cut after each byte. The whole lines before the cut are answered as without it, and what is left of
//! the next one has an answer of its own.

use super::{ENGINES, SCRIPT, TEXT, answered};
use crate::tools::assert_none;
use flow_script::Engine;
use std::alloc::AllocGlobal;
use std::random::RandomSource;
use std::sync::Wait;
use std::test::Fail;
use trial_tools::Differences;

/// A script of one command a line, and its answers.
struct Row {
    name: &'static str,
    script: &'static [u8],
    answers: &'static [u8],
}

const ROWS: &[Row] = &[
    Row {
        name: "first_path",
        script: SCRIPT,
        answers: TEXT,
    },
    Row {
        name: "waiting_in_order",
        script: b"shared f 0 1 suspend\nsub f a\nemit f e1 1\nemit f e2 2\nemit f e3 3\nnext a\npoll e3\npoll e2\nnext a\npoll e3\nnext a\n",
        answers: b"ok\nok\naccepted\nwaiting\nwaiting\nvalue 1\nwaiting\ndone\nvalue 2\ndone\nvalue 3\n",
    },
    Row {
        name: "cold_pipes",
        script: b"cold of 1,2,3 | take 0\ncold of | drop 0\ncold fail 7 1,2 | take 2\ncold fail 7 1,2\ncold fail 7 1,2 | catch 9\ncold of 1,2 | catch 9 | concat 7\ncold of 1,1,2,2,1 | distinct\n",
        answers: b"refused 8\n[] finished\n[1,2] finished\n[1,2] failed 7\n[1,2,9] finished\n[1] failed 7\n[1,2,1] finished\n",
    },
];

/// How many lines end in the text.
fn ends_of_lines(text: &[u8]) -> usize {
    let mut count: usize = 0;
    for byte in text {
        if *byte == b'\n' {
            count = count.saturating_add(1);
        }
    }
    count
}

/// The first lines of the text, so many, or all where it has fewer.
fn first_lines(text: &[u8], count: usize) -> &[u8] {
    let mut lines: usize = 0;
    for (place, byte) in text.iter().enumerate() {
        if lines == count {
            return text.get(..place).unwrap_or(text);
        }
        if *byte == b'\n' {
            lines = lines.saturating_add(1);
        }
    }
    text
}

/// Are the whole lines of the front answered as in the whole script, and is what is left of a line answered by one more?
fn is_answered(
    rt: &(impl Wait + RandomSource + AllocGlobal),
    engine: Engine,
    row: &Row,
    front: &[u8],
) -> Result<bool, Fail> {
    let text = answered(rt, engine, front)?;
    let whole = ends_of_lines(front);
    let want = first_lines(row.answers, whole);
    let is_cut = !front.is_empty() && !front.ends_with(b"\n");
    let lines = if is_cut {
        whole.saturating_add(1)
    } else {
        whole
    };
    Ok(text.starts_with(want) && ends_of_lines(&text) == lines)
}

/// After how many bytes the script was cut where it was first answered otherwise. None where it never was.
fn first_wrong(
    rt: &(impl Wait + RandomSource + AllocGlobal),
    engine: Engine,
    row: &Row,
) -> Result<Option<usize>, Fail> {
    for count in 0..=row.script.len() {
        let front = row.script.get(..count).unwrap_or(row.script);
        if !is_answered(rt, engine, row, front)? {
            return Ok(Some(count));
        }
    }
    Ok(None)
}

#[test]
fn whole_lines_before_a_cut_are_answered(rt: HostRuntime) -> Result<(), Fail> {
    let mut differences = Differences::none(rt.alloc());
    for engine in ENGINES {
        for row in ROWS {
            let wrong = first_wrong(&rt, engine, row)?;
            differences.compare(row.name, (engine, wrong), (engine, None))?;
        }
    }
    assert_none(&rt, &differences);
    Ok(())
}
