//! The words of marks.

use marble_marks::{Kind, Mark, Row, Spot};
use std::alloc::{AllocError, Global};
use std::fmt::Write;

/// The most bytes of an answer that are shown where it happened.
const MOST_ANSWER_BYTES: usize = 14;

/// What a mark's words are for.
#[derive(Clone, Copy)]
pub(crate) enum Purpose {
    /// The name of a row.
    Name,
    /// The number beside an accepted value.
    Number,
    /// All else.
    Place,
}

impl Purpose {
    /// What this mark's words are for.
    pub(crate) fn of(mark: &Mark<'_>) -> Purpose {
        match mark.kind {
            Kind::Named(_) => Purpose::Name,
            Kind::Number(_, _) => Purpose::Number,
            _ => Purpose::Place,
        }
    }
}

/// A question mark for a byte that is no printable character of ASCII.
pub(crate) fn plain_byte(byte: u8) -> u8 {
    if byte >= b' ' && byte <= b'~' {
        byte
    } else {
        b'?'
    }
}

/// Adds a text, with a question mark for each byte that is no printable character of ASCII.
fn push_plain(text: &mut String, bytes: &[u8]) -> Result<(), AllocError> {
    for byte in bytes {
        text.push(plain_byte(*byte) as char)?;
    }
    Ok(())
}

/// Adds an answer, or its front and a sign for the rest.
fn push_answer(text: &mut String, answer: &[u8]) -> Result<(), AllocError> {
    if answer.len() <= MOST_ANSWER_BYTES {
        return push_plain(text, answer);
    }
    let (front, _) = answer.split_at(MOST_ANSWER_BYTES);
    push_plain(text, front)?;
    text.push_str("~")
}

/// The sign before a mark's value in a text without pictures.
pub(crate) fn sign(kind: Kind) -> &'static str {
    match kind {
        Kind::Bad(_, _) | Kind::Lost(_) => "x",
        Kind::Dropped(_) => "/",
        Kind::Full(_) => "!",
        Kind::Begun(Row::State(_)) | Kind::Set(_) => "=",
        Kind::Begun(Row::Ticket(_)) | Kind::Waiting => "?",
        Kind::AcceptedLater(_, _) => "<",
        Kind::Begun(_) => "o",
        Kind::Nothing => ".",
        Kind::Cancelled => "|",
        Kind::Ticked => ">",
        Kind::FromPrelude(_) => "+",
        _ => "",
    }
}

/// What a row is for, as its name says it.
fn role(row: Row) -> &'static str {
    match row {
        Row::Flow => "flow ",
        Row::State(_) => "state ",
        Row::Buffer => "buffer ",
        Row::Subscription => "sub ",
        Row::Collector => "collector ",
        Row::Ticket(_) => "ticket ",
    }
}

/// Adds what the begin of a row says.
fn push_begun(text: &mut String, row: Row) -> Result<(), AllocError> {
    match row {
        Row::State(value) | Row::Ticket(value) => write!(text, "{value}"),
        _ => Ok(()),
    }
}

/// Adds what a mark says without its sign.
fn push_words(text: &mut String, mark: &Mark<'_>) -> Result<(), AllocError> {
    match mark.kind {
        Kind::Line(value)
        | Kind::Bad(value, _)
        | Kind::Accepted(value)
        | Kind::AcceptedLater(value, _)
        | Kind::Lost(value)
        | Kind::Dropped(value)
        | Kind::Full(value)
        | Kind::Set(value)
        | Kind::Holds(value)
        | Kind::Received(value)
        | Kind::FromPrelude(value) => write!(text, "{value}"),
        Kind::Number(number, _) => write!(text, "#{number}"),
        Kind::Named(row) => {
            text.push_str(role(row))?;
            push_plain(text, mark.text)
        }
        Kind::Done | Kind::Removed | Kind::Left | Kind::Gone | Kind::Ticked | Kind::Said => {
            push_answer(text, mark.text)
        }
        Kind::Begun(row) => push_begun(text, row),
        Kind::Nothing | Kind::Waiting | Kind::Cancelled => Ok(()),
    }
}

/// What a mark says without its sign.
pub(crate) fn caption(alloc: Global, mark: &Mark<'_>) -> Result<String, AllocError> {
    let mut text = String::new(alloc);
    push_words(&mut text, mark)?;
    Ok(text)
}

/// The most characters of this part of the marks.
pub(crate) fn longest(
    alloc: Global,
    marks: &[Mark<'_>],
    part: Purpose,
) -> Result<usize, AllocError> {
    let mut most = 0;
    for mark in marks {
        if Purpose::of(mark) == part {
            let said = caption(alloc, mark)?;
            most = said.len().saturating_add(sign(mark.kind).len()).max(most);
        }
    }
    Ok(most)
}

/// The most characters of values that are accepted later, with their sign.
pub(crate) fn longest_late(alloc: Global, marks: &[Mark<'_>]) -> Result<usize, AllocError> {
    let mut most = 0;
    for mark in marks {
        if let Kind::AcceptedLater(_, _) = mark.kind {
            let said = caption(alloc, mark)?;
            most = said.len().saturating_add(1).max(most);
        }
    }
    Ok(most)
}

/// Where a mark stands among all that one line accepts.
pub(crate) fn spot_of(kind: Kind) -> Spot {
    match kind {
        Kind::AcceptedLater(_, spot) => spot,
        Kind::Number(_, spot) => spot,
        _ => Spot { index: 0, count: 1 },
    }
}

/// The most values that one line accepts.
pub(crate) fn most_accepted_later(marks: &[Mark<'_>]) -> usize {
    marks
        .iter()
        .map(|mark| spot_of(mark.kind).count)
        .max()
        .unwrap_or(0)
}

/// The last column of these marks.
pub(crate) fn last_column(marks: &[Mark<'_>]) -> usize {
    marks.iter().map(|mark| mark.column).max().unwrap_or(0)
}
