//! Makes the marks of a picture.

ghost use Rattle.std.specs.Prelude.{◌≤◌, length};

use crate::start::answered::{AnsweredLine, answered_lines};
use crate::start::deed::acts;
use crate::start::happening::{Happening, happening_of};
use crate::start::ledger::losses_in;
use crate::start::loss::add_losses;
use crate::start::numbers::add_numbers;
use crate::start::reply::Reply;
use crate::start::said::Said;
use marble_marks::{Kind, Mark};
use script_commands::{Command, Joiner, Request};
use std::alloc::{AllocError, Global};

/// What a line shows on a row.
fn shown<'a>(answered: &AnsweredLine<'a>) -> Option<Happening<'a>> {
    let command = answered.command?;
    happening_of(command, Reply::of(answered.answer))
}

/// The name that a line binds to a row of its own.
fn name_of<'a>(answered: &AnsweredLine<'a>) -> Option<&'a [u8]> {
    let Happening { name, kind } = shown(answered)?;
    match kind {
        Kind::Begun(_) => Some(name),
        _ => None,
    }
}

/// The names that have rows, in the order of these.
fn names_in<'a>(
    alloc: Global,
    answered_lines: &[AnsweredLine<'a>],
) -> Result<Vec<&'a [u8]>, AllocError> {
    let mut names = Vec::new(alloc);
    for answered in answered_lines {
        if let Some(name) = name_of(answered) {
            names.push(name)?;
        }
    }
    Ok(names)
}

/// The row of a name.
pub(crate) fn row_of(names: &[&[u8]], name: &[u8]) -> usize {
    let mut row = 1;
    for known in names {
        if *known == name {
            return row;
        }
        row += 1;
    }
    row
}

/// The mark at the head of a line's column.
fn line_mark<'a>(answered: &AnsweredLine<'a>) -> Mark<'a> {
    let kind = match Reply::of(answered.answer) {
        Reply::Bad(reason) => Kind::Bad(answered.number, reason),
        _ => Kind::Line(answered.number),
    };
    Mark {
        column: answered.column,
        row: 0,
        kind,
        text: answered.line,
    }
}

/// The flow on which this line finishes an emission of this name at once, if it does.
fn home_in<'a>(answered: &AnsweredLine<'a>, ticket: &[u8]) -> Option<&'a [u8]> {
    match (answered.command, Reply::of(answered.answer)) {
        (
            Some(
                Command::Join {
                    host,
                    name,
                    joiner: Joiner::Emission(_),
                },
            ),
            Reply::Accepted | Reply::Dropped,
        ) if name == ticket => Some(host),
        _ => None,
    }
}

/// The name on whose row something of a name is shown, after these lines.
fn name_shown<'a>(before: &[AnsweredLine<'a>], name: &'a [u8], kind: Kind) -> &'a [u8] {
    let mut home = name;
    if let Kind::Gone = kind {
        for answered in before {
            home = home_in(answered, name).unwrap_or(home);
        }
    }
    home
}

/// How many values of its prelude a subscription of this name has still to take after this line, where it had so many before.
fn left_after(answered: &AnsweredLine<'_>, name: &[u8], left: usize) -> usize {
    match (answered.command, Reply::of(answered.answer)) {
        (
            Some(
                Command::Join {
                    name: guest,
                    joiner: Joiner::Subscription(prelude),
                    ..
                },
            ),
            Reply::Ok,
        ) if guest == name && prelude.count() > 0 => prelude.count(),
        (
            Some(
                Command::Ask {
                    name: asked,
                    request: Request::Next,
                },
            ),
            Reply::Value(_),
        ) if asked == name => left.saturating_sub(1),
        _ => left,
    }
}

/// What is shown of a name that shows this by its answer alone, after these lines.
fn kind_shown(before: &[AnsweredLine<'_>], name: &[u8], kind: Kind) -> Kind {
    let Kind::Received(value) = kind else {
        return kind;
    };
    let mut left = 0;
    for answered in before {
        left = left_after(answered, name, left);
    }
    if left > 0 {
        Kind::FromPrelude(value)
    } else {
        kind
    }
}

/// Adds the marks of a line after these.
fn add_marks<'a>(
    marks: &mut Vec<Mark<'a>>,
    names: &[&'a [u8]],
    before: &[AnsweredLine<'a>],
    answered: &AnsweredLine<'a>,
) -> Result<(), AllocError> {
    marks.push(line_mark(answered))?;
    let Some(Happening { name, kind }) = shown(answered) else {
        return Ok(());
    };
    let row = row_of(names, name_shown(before, name, kind));
    marks.push(Mark {
        column: answered.column,
        row,
        kind: kind_shown(before, name, kind),
        text: answered.text,
    })?;
    if let Kind::Begun(begun) = kind {
        marks.push(Mark {
            column: 0,
            row,
            kind: Kind::Named(begun),
            text: name,
        })?;
    }
    Ok(())
}

/// The marks of these lines, where these names have rows.
fn marks_in<'a>(
    alloc: Global,
    names: &[&'a [u8]],
    answered_lines: &[AnsweredLine<'a>],
) -> Result<Vec<Mark<'a>>, AllocError> {
    let mut marks = Vec::new(alloc);
    for (index, answered) in answered_lines.iter().enumerate() {
        let (before, _) = answered_lines.split_at(index);
        add_marks(&mut marks, names, before, answered)?;
    }
    Ok(marks)
}

/// The marks of a script with these answers, each to the line with its number, in their order. First come the
/// marks of what each answer shows by itself, in the order of the lines; then those of the emissions' numbers, and of the
/// values that made way.
pub(crate) fn marks<'a>(
    alloc: Global,
    script: &'a [u8],
    answers: &'a [Said],
) -> Result<Vec<Mark<'a>>, AllocError>
    requires { length script.now ≤ 1048576 }
{
    let answered_lines = answered_lines(alloc, script, answers)?;
    let names = names_in(alloc, &answered_lines)?;
    let acts = acts(alloc, &answered_lines)?;
    let losses = losses_in(alloc, &answered_lines)?;
    let mut marks = marks_in(alloc, &names, &answered_lines)?;
    add_numbers(alloc, &mut marks, &names, &acts)?;
    add_losses(&mut marks, &names, &acts, &losses)?;
    Ok(marks)
}
