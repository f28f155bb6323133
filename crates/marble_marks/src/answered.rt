//! The lines of a script that have an answer, each with its answer.

ghost use Rattle.std.specs.Prelude.{◌≡◌, ◌≤◌, Option, length, map, IfOk};
ghost use Rattle.std.specs.Option.{option_map};
ghost use Rattle.script_commands.specs.Commands.{order_of};
ghost use Rattle.marble_marks.specs.AnsweredLines.{order_in, asked_in, asked_of, saying_in, saying_at};

use crate::said::Said;
use script_commands::{Answer, Command};
use script_words::{Lines, Words};
use std::alloc::{AllocError, Global};

/// A line that has an answer, with its answer.
#[derive(Clone, Copy)]
pub(crate) struct AnsweredLine<'a> {
    /// The column that it is shown in.
    pub(crate) column: usize,
    /// The line's number.
    pub(crate) number: u64,
    pub(crate) line: &'a [u8],
    pub(crate) command: Option<Command<'a>>,
    pub(crate) answer: &'a Answer,
    /// The answer's text.
    pub(crate) text: &'a [u8],
}

/// The command that a line says, if it says one.
fn command_in(line: &[u8]) -> Option<Command<'_>>
    ensures { option_map order_of result ≡ order_in line.now }
{
    let mut words = Words::new(line);
    let first = words.next()?;
    Command::parse(first, words)
}

/// The first of these answers and the rest, where it is that of the line with this number.
fn split_said(answers: &[Said], number: u64) -> Option<(&Said, &[Said])>
    ensures { option_map (λ parts. (saying_in parts.0.now, map saying_in parts.1.now)) result ≡ saying_at number (map saying_in answers.now) }
{
    match answers {
        [first, rest @ ..] if first.number() == number => Some((first, rest)),
        _ => None,
    }
}

/// The lines of a script that have an answer, with these answers, which are in the order of their lines.
pub(crate) fn answered_lines<'a>(
    alloc: Global,
    script: &'a [u8],
    answers: &'a [Said],
) -> Result<Vec<AnsweredLine<'a>>, AllocError>
    requires { length script.now ≤ 1048576 }
    ensures { IfOk result (λ answered_lines. map asked_in answered_lines.items ≡ asked_of script.now (map saying_in answers.now)) }
{
    let mut answered_lines = Vec::new(alloc);
    let mut lines = Lines::new(script);
    let mut number: u64 = 0;
    let mut left = answers;
    while let Some(line) = lines.next() {
        number += 1;
        if let Some((said, rest)) = split_said(left, number) {
            left = rest;
            answered_lines.push(AnsweredLine {
                column: answered_lines.len() + 1,
                number,
                line,
                command: command_in(line),
                answer: said.answer(),
                text: said.text(),
            })?;
        }
    }
    Ok(answered_lines)
}
