//! The words of marks.

ghost use Rattle.std.specs.Prelude.{◌≡◌, ◌<◌, ◌≤◌, ◌++◌, OnOk, length, map, decimal, string_bytes};
ghost use Rattle.marble_pictures.specs.Widths.{purpose_of};
ghost use Rattle.marble_pictures.specs.Captions.{plain_byte, plain, plain_answer, sign, role, begun_words, words_of};

use itoa::Buffer;
use marble_marks::{Kind, Mark, Row};
use std::alloc::AllocError;

/// The most bytes of an answer that are shown where it happened.
const MOST_ANSWER_BYTES: usize = 14;

/// What a mark's words are for.
#[derive(Clone, Copy)]
pub(crate) enum Purpose {
    /// The name of a row.
    Name,
    /// The number beside an accepted value.
    Number,
    /// All else.
    Place,
}

impl Purpose {
    /// What this mark's words are for.
    pub(crate) fn of(mark: &Mark<'_>) -> Purpose
        ensures { result ≡ purpose_of mark.now.kind }
    {
        match mark.kind {
            Kind::Named(_) => Purpose::Name,
            Kind::Number(_, _) => Purpose::Number,
            _ => Purpose::Place,
        }
    }
}

/// A question mark for a byte that is no printable character of ASCII.
pub(crate) fn plain_byte(byte: u8) -> u8
    ensures value { result ≡ plain_byte byte }
    ensures ascii { result < 128 }
{
    if byte >= b' ' && byte <= b'~' {
        byte
    } else {
        b'?'
    }
}

/// Adds a number.
pub(crate) fn push_number(text: &mut String, number: u64) -> Result<(), AllocError>
    ensures { OnOk result (string_bytes text.new ≡ string_bytes text.old ++ decimal number) }
{
    let mut buffer = Buffer::new();
    text.push_str(buffer.format(number))
}

/// Adds a text, and a number after it.
pub(crate) fn push_numbered(
    text: &mut String,
    before: &str,
    number: usize,
) -> Result<(), AllocError>
    ensures { OnOk result (string_bytes text.new ≡ string_bytes text.old ++ (before.now ++ decimal number)) }
{
    text.push_str(before)?;
    push_number(text, number as u64)
}

/// How many digits a number has.
fn digits(number: u64) -> usize
    ensures value { result ≡ length (decimal number) }
    ensures small { result ≤ 40 }
{
    let mut buffer = Buffer::new();
    buffer.format(number).len()
}

/// Adds a text, with a question mark for each byte that is no printable character of ASCII.
fn push_plain(text: &mut String, bytes: &[u8]) -> Result<(), AllocError>
    ensures { OnOk result (string_bytes text.new ≡ string_bytes text.old ++ plain bytes.now) }
{
    for byte in bytes {
        text.push(plain_byte(*byte) as char)?;
    }
    Ok(())
}

/// Adds an answer, or its front and a sign for the rest.
fn push_answer(text: &mut String, answer: &[u8]) -> Result<(), AllocError>
    ensures { OnOk result (string_bytes text.new ≡ string_bytes text.old ++ plain_answer answer.now) }
{
    if answer.len() <= MOST_ANSWER_BYTES {
        return push_plain(text, answer);
    }
    let (front, _) = answer.split_at(MOST_ANSWER_BYTES);
    push_plain(text, front)?;
    text.push_str("~")
}

/// The sign before a mark's value in a text without pictures.
pub(crate) fn sign(kind: Kind) -> &'static str
    ensures { result.now ≡ sign kind }
{
    match kind {
        Kind::Bad(_, _) | Kind::Lost(_) => "x",
        Kind::Dropped(_) => "/",
        Kind::Full(_) => "!",
        Kind::Begun(Row::State(_)) | Kind::Set(_) => "=",
        Kind::Begun(Row::Ticket(_)) | Kind::Waiting => "?",
        Kind::AcceptedLater(_, _) => "<",
        Kind::Begun(_) => "o",
        Kind::Nothing => ".",
        Kind::Cancelled => "|",
        Kind::Ticked => ">",
        Kind::FromPrelude(_) => "+",
        _ => "",
    }
}

/// What a row is for, as its name says it.
fn role(row: Row) -> &'static str
    ensures { result.now ≡ role row }
{
    match row {
        Row::Flow => "flow ",
        Row::State(_) => "state ",
        Row::Buffer => "buffer ",
        Row::Subscription => "sub ",
        Row::Collector => "collector ",
        Row::Ticket(_) => "ticket ",
    }
}

/// Adds what the begin of a row says.
fn push_begun(text: &mut String, row: Row) -> Result<(), AllocError>
    ensures { OnOk result (string_bytes text.new ≡ string_bytes text.old ++ begun_words row) }
{
    match row {
        Row::State(value) | Row::Ticket(value) => push_number(text, value),
        _ => Ok(()),
    }
}

/// Adds what a mark says without its sign.
pub(crate) fn push_words(text: &mut String, mark: &Mark<'_>) -> Result<(), AllocError>
    ensures { OnOk result (string_bytes text.new ≡ string_bytes text.old ++ words_of mark.now.kind mark.now.text.now) }
{
    match mark.kind {
        Kind::Line(value)
        | Kind::Bad(value, _)
        | Kind::Accepted(value)
        | Kind::AcceptedLater(value, _)
        | Kind::Lost(value)
        | Kind::Dropped(value)
        | Kind::Full(value)
        | Kind::Set(value)
        | Kind::Holds(value)
        | Kind::Received(value)
        | Kind::FromPrelude(value) => push_number(text, value),
        Kind::Number(number, _) => {
            text.push_str("#")?;
            push_number(text, number)
        }
        Kind::Named(row) => {
            text.push_str(role(row))?;
            push_plain(text, mark.text)
        }
        Kind::Done | Kind::Removed | Kind::Left | Kind::Gone | Kind::Ticked | Kind::Said => {
            push_answer(text, mark.text)
        }
        Kind::Begun(row) => push_begun(text, row),
        Kind::Nothing | Kind::Waiting | Kind::Cancelled => Ok(()),
    }
}

/// How many characters of an answer are shown.
fn answer_len(answer: &[u8]) -> usize
    ensures { result ≡ length (plain_answer answer.now) }
{
    if answer.len() <= MOST_ANSWER_BYTES {
        answer.len()
    } else {
        MOST_ANSWER_BYTES + 1
    }
}

/// How many characters the begin of a row says.
fn begun_len(row: Row) -> usize
    ensures { result ≡ length (begun_words row) }
{
    match row {
        Row::State(value) | Row::Ticket(value) => digits(value),
        _ => 0,
    }
}

/// How many characters a mark says without its sign.
pub(crate) fn words_len(mark: &Mark<'_>) -> usize
    ensures { result ≡ length (words_of mark.now.kind mark.now.text.now) }
{
    match mark.kind {
        Kind::Line(value)
        | Kind::Bad(value, _)
        | Kind::Accepted(value)
        | Kind::AcceptedLater(value, _)
        | Kind::Lost(value)
        | Kind::Dropped(value)
        | Kind::Full(value)
        | Kind::Set(value)
        | Kind::Holds(value)
        | Kind::Received(value)
        | Kind::FromPrelude(value) => digits(value),
        Kind::Number(number, _) => digits(number) + 1,
        Kind::Named(row) => role(row).len() + mark.text.len(),
        Kind::Done | Kind::Removed | Kind::Left | Kind::Gone | Kind::Ticked | Kind::Said => {
            answer_len(mark.text)
        }
        Kind::Begun(row) => begun_len(row),
        Kind::Nothing | Kind::Waiting | Kind::Cancelled => 0,
    }
}
