//! The command that a keyword says, looked for among those of as many letters.

ghost use Rattle.std.specs.Prelude.{◌≡◌};
ghost use Rattle.std.specs.Option.{option_map};
ghost use Rattle.script_words.specs.Lines.{words_of};
ghost use Rattle.script_commands.specs.Commands.{order_of, form_in};
ghost use Rattle.script_commands.specs.Keywords.{of_length};

use super::{Command, ask, cold, collect, compare_and_set, emit, set, subscribe, tick, try_emit};
use crate::making;
use crate::request::Request;
use script_words::Words;

/// The command of a keyword of three letters.
pub(super) fn of_three<'a>(first: &[u8], words: Words<'a>) -> Option<Command<'a>>
    ensures { option_map order_of result ≡ form_in (of_length 3) first.now (words_of words.entry.rest.now) }
{
    if first == b"sub".as_slice() {
        subscribe(words)
    } else if first == b"try".as_slice() {
        try_emit(words)
    } else if first == b"set".as_slice() {
        set(words)
    } else if first == b"cas".as_slice() {
        compare_and_set(words)
    } else {
        None
    }
}

/// The command of a keyword of four letters.
pub(super) fn of_four<'a>(first: &[u8], words: Words<'a>) -> Option<Command<'a>>
    ensures { option_map order_of result ≡ form_in (of_length 4) first.now (words_of words.entry.rest.now) }
{
    if first == b"cold".as_slice() {
        cold(words)
    } else if first == b"emit".as_slice() {
        emit(words)
    } else if first == b"next".as_slice() {
        ask(words, Request::Next)
    } else if first == b"fill".as_slice() {
        ask(words, Request::Fill)
    } else if first == b"poll".as_slice() {
        ask(words, Request::Poll)
    } else if first == b"tick".as_slice() {
        tick(words)
    } else {
        None
    }
}

/// The command of a keyword of five letters.
pub(super) fn of_five<'a>(first: &[u8], words: Words<'a>) -> Option<Command<'a>>
    ensures { option_map order_of result ≡ form_in (of_length 5) first.now (words_of words.entry.rest.now) }
{
    if first == b"state".as_slice() {
        making::state(words)
    } else if first == b"share".as_slice() {
        making::share(words)
    } else if first == b"count".as_slice() {
        ask(words, Request::Count)
    } else if first == b"cache".as_slice() {
        ask(words, Request::Cache)
    } else if first == b"reset".as_slice() {
        ask(words, Request::Reset)
    } else if first == b"value".as_slice() {
        ask(words, Request::Value)
    } else {
        None
    }
}

/// The command of a keyword of six letters.
pub(super) fn of_six<'a>(first: &[u8], words: Words<'a>) -> Option<Command<'a>>
    ensures { option_map order_of result ≡ form_in (of_length 6) first.now (words_of words.entry.rest.now) }
{
    if first == b"shared".as_slice() {
        making::shared(words)
    } else if first == b"buffer".as_slice() {
        making::buffer(words)
    } else if first == b"stated".as_slice() {
        making::stated(words)
    } else if first == b"cancel".as_slice() {
        ask(words, Request::Cancel)
    } else {
        None
    }
}

/// The command of a keyword of seven letters.
pub(super) fn of_seven<'a>(first: &[u8], words: Words<'a>) -> Option<Command<'a>>
    ensures { option_map order_of result ≡ form_in (of_length 7) first.now (words_of words.entry.rest.now) }
{
    if first == b"collect".as_slice() {
        collect(words)
    } else {
        None
    }
}

/// The command of a keyword of eight letters.
pub(super) fn of_eight<'a>(first: &[u8], words: Words<'a>) -> Option<Command<'a>>
    ensures { option_map order_of result ≡ form_in (of_length 8) first.now (words_of words.entry.rest.now) }
{
    if first == b"withdraw".as_slice() {
        ask(words, Request::Withdraw)
    } else {
        None
    }
}
