//! Makes the marks of a picture.

ghost use Rattle.std.specs.Prelude.{◌≡◌, ◌≤◌, ◌++◌, ℕ, List, Option, length, map, IfOk, OnOk};
ghost use Rattle.std.specs.Option.{option_map};
ghost use Rattle.marble_marks.specs.AnsweredLines.{asked_in, asked_of, saying_in};
ghost use Rattle.marble_marks.specs.Happenings.{happening_in};
ghost use Rattle.marble_marks.specs.Marks.{shown, name_of, names_in, mark_in, line_mark, marks_at, marks_on, marks_of};
ghost use Rattle.marble_marks.specs.Homes.{home_of};
ghost use Rattle.marble_marks.specs.Preludes.{left_of, left_shown};
ghost use Rattle.marble_marks.specs.Receivings.{receipts_in, receipts_of};
ghost use Rattle.marble_marks.specs.Showing.{Shows};

use crate::answered::{AnsweredLine, answered_lines};
use crate::deed::acts;
use crate::guests::Guests;
use crate::happening::{Happening, happening_of};
use crate::homes::Homes;
use crate::ledger::losses_in;
use crate::loss::add_losses;
use crate::mark::{Kind, Mark};
use crate::numbers::add_numbers;
use crate::preludes::Preludes;
use crate::reply::Reply;
use crate::rows::Rows;
use crate::said::Said;
use crate::told::Told;
use script_commands::NameHash;
use std::alloc::{AllocError, Global};

/// What a line shows on a row.
fn shown<'a>(answered: &AnsweredLine<'a>) -> Option<Happening<'a>>
    ensures { option_map happening_in result ≡ shown (asked_in answered.now) }
{
    let command = answered.command?;
    happening_of(command, Reply::of(answered.answer))
}

/// The name that a line binds to a row of its own.
fn name_of<'a>(answered: &AnsweredLine<'a>) -> Option<&'a [u8]>
    ensures { option_map (λ name. name.now) result ≡ name_of (asked_in answered.now) }
{
    let Happening { name, kind } = shown(answered)?;
    match kind {
        Kind::Begun(_) => Some(name),
        _ => None,
    }
}

/// The names that have rows, in the order of these.
fn names_in<'a>(
    alloc: Global,
    answered_lines: &[AnsweredLine<'a>],
) -> Result<Vec<&'a [u8]>, AllocError>
    ensures { IfOk result (λ names. map (λ name. name.now) names.items ≡ names_in (map asked_in answered_lines.now)) }
{
    let mut names = Vec::new(alloc);
    for answered in answered_lines {
        if let Some(name) = name_of(answered) {
            names.push(name)?;
        }
    }
    Ok(names)
}

/// The mark at the head of a line's column.
fn line_mark<'a>(answered: &AnsweredLine<'a>) -> Mark<'a>
    ensures { mark_in result ≡ line_mark (asked_in answered.now) }
{
    let kind = match Reply::of(answered.answer) {
        Reply::Bad(reason) => Kind::Bad(answered.number, reason),
        _ => Kind::Line(answered.number),
    };
    Mark {
        column: answered.column,
        row: 0,
        kind,
        text: answered.line,
    }
}

/// Adds the marks of a line.
fn add_marks<'a>(
    marks: &mut Vec<Mark<'a>>,
    rows: &Rows<'_, 'a>,
    homes: &Homes<'a>,
    preludes: &mut Preludes<'a>,
    answered: &AnsweredLine<'a>,
) -> Result<(), AllocError>
    ensures added { OnOk result (map mark_in marks.new.items ≡ map mark_in marks.old.items ++ marks_at (map (λ known. known.now) rows.now.names.now) (home_of homes.now) (left_of preludes.old) (asked_in answered.now)) }
    ensures left { OnOk result ((name : List ℕ) → left_of preludes.new name ≡ left_shown (left_of preludes.old name) name (shown (asked_in answered.now))) }
{
    marks.push(line_mark(answered))?;
    let Some(Happening { name, kind }) = shown(answered) else {
        return Ok(());
    };
    let row = rows.row(homes.name(name, kind));
    marks.push(Mark {
        column: answered.column,
        row,
        kind: preludes.take(name, kind)?,
        text: answered.text,
    })?;
    if let Kind::Begun(begun) = kind {
        marks.push(Mark {
            column: 0,
            row,
            kind: Kind::Named(begun),
            text: name,
        })?;
    }
    Ok(())
}

/// The marks of these lines, where these names have rows.
fn marks_in<'a>(
    alloc: Global,
    hash: NameHash,
    rows: &Rows<'_, 'a>,
    answered_lines: &[AnsweredLine<'a>],
) -> Result<Vec<Mark<'a>>, AllocError>
    ensures { IfOk result (λ marks. map mark_in marks.items ≡ marks_on (map (λ known. known.now) rows.now.names.now) (map asked_in answered_lines.now)) }
{
    let mut marks = Vec::new(alloc);
    let mut homes = Homes::new(alloc, hash);
    let mut preludes = Preludes::new(alloc, hash);
    for answered in answered_lines {
        add_marks(&mut marks, rows, &homes, &mut preludes, answered)?;
        homes.note(answered)?;
        preludes.greet(answered)?;
    }
    Ok(marks)
}

/// The marks of a script with these answers, each to the line with its number, in their order. First come the
/// marks of what each answer shows by itself, in the order of the lines; then those of the emissions' numbers, and of the
/// values that made way. Names are hashed so.
pub fn marks<'a>(
    alloc: Global,
    hash: NameHash,
    script: &'a [u8],
    answers: &'a [Said],
) -> Result<Vec<Mark<'a>>, AllocError>
    requires { length script.now ≤ 1048576 }
    ensures marks { IfOk result (λ marks. Shows (asked_of script.now (map saying_in answers.now)) (map mark_in marks.items)) }
    ensures received { IfOk result (λ marks. receipts_in (map mark_in marks.items) ≡ receipts_of (asked_of script.now (map saying_in answers.now))) }
{
    let answered_lines = answered_lines(alloc, script, answers)?;
    let names = names_in(alloc, &answered_lines)?;
    let acts = acts(alloc, &answered_lines)?;
    let losses = losses_in(alloc, hash, &answered_lines)?;
    let rows = Rows::of(alloc, hash, &names)?;
    let told = Told::of(alloc, hash, &rows, &acts)?;
    let guests = Guests::of(alloc, &rows, &acts)?;
    let mut marks = marks_in(alloc, hash, &rows, &answered_lines)?;
    add_numbers(alloc, &mut marks, &told)?;
    add_losses(&mut marks, &guests, &losses)?;
    Ok(marks)
}
