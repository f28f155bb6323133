//! Marks of many scripts with made answers, beside those of the first form.

use crate::made::{Dice, reason};
use crate::same::have_same_places;
use crate::scripts::Piece::{Few, Host, Number, Other, Plain};
use crate::start;
use marble_marks::{Mark, Said, marks};
use marble_pictures::svg_picture;
use script_commands::{Answer, NameHash};
use std::alloc::{AllocError, AllocGlobal, Global};
use std::fmt::Write;
use std::random::RandomSource;
use std::test::Fail;

/// How many short scripts there are of each size.
const SCRIPTS: u64 = 300;

/// How many scripts of many names there are.
const LONG_SCRIPTS: u64 = 12;

/// So few that names are bound again and again, which no run of a script answers so.
const NAMES: &[&str] = &["a", "b", "c", "d", "e", "f", "g", "h"];

/// The names of flows, where these have names of their own.
const FLOWS: &[&str] = &["a", "b"];

/// The names of all others there.
const PARTIES: &[&str] = &["c", "d", "e", "f", "g", "h"];

/// The kinds of lines by which emissions wait, and by which they are accepted.
const WAITING: &[usize] = &[0, 2, 4, 6, 6, 6, 7, 7, 7, 10, 11, 14, 15];

/// Many names are parts of this.
const LETTERS: &str = "abcdefghijklmnopqrstuvwxyzABCDEFGHIJKLMNOPQRSTUVWXYZ";

/// Which names and how many lines a script has.
#[derive(Clone, Copy)]
enum Size {
    /// Few names that are bound again and again.
    Short,
    /// The same, of two flows whose emissions wait and are accepted, mostly while somebody is subscribed.
    Waiting,
    /// Hundreds of names, each bound now and then.
    Long,
}

/// An answer that is made twice.
#[derive(Clone, Copy)]
struct Made {
    number: u64,
    code: usize,
    value: u64,
}

impl Made {
    fn answer(self) -> Answer {
        match self.code {
            0 | 1 => Answer::Ok,
            2 | 3 => Answer::Accepted,
            4 => Answer::Waiting,
            5 => Answer::Done,
            6 => Answer::Removed,
            7 => Answer::Left,
            8 | 9 => Answer::Value(self.value),
            10 => Answer::Pending,
            11 => Answer::Truth(true),
            12 => Answer::Dropped,
            13 => Answer::Full,
            14 => Answer::BadCommand {
                line: self.number,
                reason: reason(self.value as usize),
            },
            15 => Answer::Gone,
            16 => Answer::On,
            17 => Answer::Off,
            18 => Answer::Failed(self.value),
            _ => Answer::Closed,
        }
    }
}

/// A script with answers to some of its lines.
#[derive(Drop)]
struct Answered {
    script: String,
    answers: Vec<Made>,
}

/// One of these names.
fn one_of(dice: &mut Dice, names: &[&'static str]) -> &'static str {
    names.get(dice.below(names.len())).copied().unwrap_or("a")
}

/// One of the names.
fn name(dice: &mut Dice, size: Size) -> &'static str {
    match size {
        Size::Short => one_of(dice, NAMES),
        Size::Waiting => one_of(dice, PARTIES),
        Size::Long => {
            let first = dice.below(46);
            let end = first.saturating_add(dice.below(6)).saturating_add(1);
            LETTERS.get(first..end).unwrap_or("a")
        }
    }
}

/// The name that a line of this kind begins with.
fn host(dice: &mut Dice, size: Size, kind: usize) -> &'static str {
    match (size, kind) {
        (Size::Waiting, 0 | 2 | 4 | 6 | 14 | 15) => one_of(dice, FLOWS),
        _ => name(dice, size),
    }
}

/// The kind of a line.
fn kind_of_line(dice: &mut Dice, size: Size) -> usize {
    match size {
        Size::Waiting => dice.one_of(WAITING),
        _ => dice.below(19),
    }
}

/// The codes of answers that a line of this kind has in most lines.
fn codes(kind: usize) -> &'static [usize] {
    match kind {
        0 | 1 | 2 | 3 | 11 | 12 | 14 => &[0],
        4 | 5 => &[2, 2, 2, 12, 13],
        6 => &[2, 4, 4],
        7 | 8 => &[8, 8, 10],
        9 => &[4, 5, 15],
        10 => &[6, 7, 15],
        13 => &[11],
        17 => &[16, 16, 17, 18],
        _ => &[8],
    }
}

/// A part of a line.
#[derive(Clone, Copy)]
enum Piece {
    Plain(&'static str),
    Host,
    /// A second name.
    Other,
    /// A number below 3.
    Few,
    /// A number below 4.
    Number,
}

/// The line of each kind, the last of which is a comment.
const LINES: &[&[Piece]] = &[
    &[
        Plain("shared "),
        Host,
        Plain(" "),
        Few,
        Plain(" "),
        Number,
        Plain(" oldest\n"),
    ],
    &[Plain("state "), Host, Plain(" "), Number, Plain("\n")],
    &[
        Plain("sub "),
        Host,
        Plain(" "),
        Other,
        Plain(" with "),
        Few,
        Plain(","),
        Number,
        Plain("\n"),
    ],
    &[Plain("collect "), Host, Plain(" "), Other, Plain("\n")],
    &[Plain("try "), Host, Plain(" "), Number, Plain("\n")],
    &[Plain("try "), Host, Plain(" "), Number, Plain("\n")],
    &[
        Plain("emit "),
        Host,
        Plain(" "),
        Other,
        Plain(" "),
        Number,
        Plain("\n"),
    ],
    &[Plain("next "), Host, Plain("\n")],
    &[Plain("next "), Host, Plain("\n")],
    &[Plain("poll "), Host, Plain("\n")],
    &[Plain("withdraw "), Host, Plain("\n")],
    &[Plain("cancel "), Host, Plain("\n")],
    &[Plain("set "), Host, Plain(" "), Number, Plain("\n")],
    &[
        Plain("cas "),
        Host,
        Plain(" "),
        Few,
        Plain(" "),
        Number,
        Plain("\n"),
    ],
    &[Plain("reset "), Host, Plain("\n")],
    &[Plain("sub "), Host, Plain(" "), Other, Plain("\n")],
    &[Plain("value "), Host, Plain("\n")],
    &[Plain("tick "), Host, Plain(" "), Number, Plain("\n")],
    &[Plain("# "), Host, Plain("\n")],
];

/// What stands in a line for the pieces that aren't plain.
#[derive(Clone, Copy)]
struct Filling {
    host: &'static str,
    other: &'static str,
    few: usize,
    number: usize,
}

impl Filling {
    fn new(dice: &mut Dice, size: Size, kind: usize) -> Filling {
        Filling {
            host: host(dice, size, kind),
            other: name(dice, size),
            few: dice.below(3),
            number: dice.below(4),
        }
    }

    fn push_to(self, script: &mut String, piece: Piece) -> Result<(), AllocError> {
        let number = match piece {
            Plain(plain) => return script.push_str(plain),
            Host => return script.push_str(self.host),
            Other => return script.push_str(self.other),
            Few => self.few,
            Number => self.number,
        };
        write!(script, "{number}")
    }
}

/// Adds these pieces.
fn push_pieces(script: &mut String, filling: Filling, pieces: &[Piece]) -> Result<(), AllocError> {
    for piece in pieces {
        filling.push_to(script, *piece)?;
    }
    Ok(())
}

/// Adds a line of this kind.
fn push_line(script: &mut String, filling: Filling, kind: usize) -> Result<(), AllocError> {
    match LINES.get(kind) {
        Some(line) => push_pieces(script, filling, line),
        None => Ok(()),
    }
}

/// A code of an answer for a line of this kind, mostly a usual one.
fn code_for(dice: &mut Dice, kind: usize) -> usize {
    let usual = codes(kind);
    if dice.below(8) == 0 {
        dice.below(19)
    } else {
        usual.get(dice.below(usual.len())).copied().unwrap_or(0)
    }
}

/// The answer to this line, of this kind, where it has one.
fn answer_for(dice: &mut Dice, line: usize, kind: usize) -> Option<Made> {
    let code = code_for(dice, kind);
    if kind < 18 && dice.below(12) > 0 {
        Some(Made {
            number: (line as u64).saturating_add(1),
            code,
            value: dice.below(9) as u64,
        })
    } else {
        None
    }
}

impl Answered {
    /// Adds a line, and its answer, where it has one.
    fn push_line(&mut self, dice: &mut Dice, size: Size, line: usize) -> Result<(), AllocError> {
        let kind = kind_of_line(dice, size);
        push_line(&mut self.script, Filling::new(dice, size, kind), kind)?;
        if let Some(made) = answer_for(dice, line, kind) {
            self.answers.push(made)?;
        }
        Ok(())
    }
}

/// A script with answers.
fn make_answered(alloc: Global, dice: &mut Dice, size: Size) -> Result<Answered, AllocError> {
    let count = match size {
        Size::Short | Size::Waiting => dice.below(80),
        Size::Long => dice.below(200).saturating_add(400),
    };
    let mut made = Answered {
        script: String::new(alloc),
        answers: Vec::new(alloc),
    };
    for line in 0..count {
        made.push_line(dice, size, line)?;
    }
    Ok(made)
}

/// The answers, for the marks as they are made now.
fn said_now(alloc: Global, answers: &[Made]) -> Result<Vec<Said>, AllocError> {
    let mut said = Vec::new(alloc);
    for made in answers {
        said.push(Said::new(alloc, made.number, made.answer())?)?;
    }
    Ok(said)
}

/// The answers, for the marks of the first form.
fn said_first(alloc: Global, answers: &[Made]) -> Result<Vec<start::Said>, AllocError> {
    let mut said = Vec::new(alloc);
    for made in answers {
        said.push(start::Said::new(alloc, made.number, made.answer())?)?;
    }
    Ok(said)
}

/// Whether two lists of marks, which are put in the order of their rows, give the same picture.
fn have_same_picture(
    alloc: Global,
    ones: &mut Vec<Mark<'_>>,
    others: &mut Vec<Mark<'_>>,
) -> Result<bool, AllocError> {
    let one = svg_picture(alloc, ones)?;
    let other = svg_picture(alloc, others)?;
    Ok(one.as_str() == other.as_str())
}

/// Whether two lists have the same marks in the same order.
fn are_same(
    alloc: Global,
    ones: &mut Vec<Mark<'_>>,
    others: &mut Vec<Mark<'_>>,
) -> Result<bool, AllocError> {
    let same = have_same_places(ones, others);
    Ok(same && have_same_picture(alloc, ones, others)?)
}

/// Whether both forms make the same marks of a script, in the same order, with these answers.
fn have_same_marks(
    alloc: Global,
    hash: NameHash,
    script: &[u8],
    ones_said: &[Said],
    others_said: &[start::Said],
) -> Result<bool, AllocError> {
    if script.len() > 1048576 {
        return Ok(false);
    }
    let mut ones = marks(alloc, hash, script, ones_said)?;
    let mut others = start::marks(alloc, script, others_said)?;
    are_same(alloc, &mut ones, &mut others)
}

/// Whether both forms make the same marks of a script with its answers.
fn is_same(alloc: Global, hash: NameHash, made: &Answered) -> Result<bool, AllocError> {
    let ones_said = said_now(alloc, &made.answers)?;
    let others_said = said_first(alloc, &made.answers)?;
    have_same_marks(
        alloc,
        hash,
        made.script.as_bytes(),
        &ones_said,
        &others_said,
    )
}

/// The first of so many scripts of which both forms don't make the same marks.
fn first_other<R>(rt: &R, size: Size, count: u64) -> Result<Option<u64>, AllocError>
where
    R: AllocGlobal + RandomSource,
{
    for seed in 0..count {
        let made = make_answered(rt.alloc(), &mut Dice::new(seed), size)?;
        if !is_same(rt.alloc(), NameHash::new(rt), &made)? {
            return Ok(Some(seed));
        }
    }
    Ok(None)
}

/// Marks are what they were.
#[test]
fn marks_are_what_they_were(rt: HostRuntime) -> Result<(), Fail> {
    for size in [Size::Short, Size::Waiting] {
        let other = first_other(&rt, size, SCRIPTS)?;
        assert_eq!(rt; other, None);
    }
    Ok(())
}

/// Marks of long scripts with many names are what they were.
#[test]
fn marks_of_many_names_are_what_they_were(rt: HostRuntime) -> Result<(), Fail> {
    let other = first_other(&rt, Size::Long, LONG_SCRIPTS)?;
    assert_eq!(rt; other, None);
    Ok(())
}
