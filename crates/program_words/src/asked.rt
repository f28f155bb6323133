//! What the words of a command line ask for, where none is an option.

ghost use Rattle.std.specs.Prelude.{◌≡◌, map, IfOk, string_bytes};
ghost use Rattle.program_words.specs.Asked.{Answers, SaysMinutes, engine_by, plain_in};

use crate::fault::WordsFault;
use crate::plain::{plain_words, words_of};
use script_words::Engine;
use std::alloc::{AllocGlobal, Global};
use std::rt::Env;

/// The engine that one word names, and `core` where there is no word.
fn engine_of(words: &[&str]) -> Option<Engine>
    ensures { result ≡ engine_by (map (λ s. s.now) words.now) }
{
    match words {
        [] => Some(Engine::Core),
        [word] => Engine::named(word),
        [_, _, ..] => None,
    }
}

/// The engine that the words of a command line name, the first of which is the program's own name.
pub fn engine_in(alloc: Global, words: &[String]) -> Result<Engine, WordsFault>
    ensures { Answers engine_by (map string_bytes words.now) result }
{
    let plain = plain_words(alloc, words)?;
    engine_of(plain.as_slice()).ok_or(WordsFault::Usage)
}

/// The engine that the program's own command line names.
pub fn engine_asked<R: Env + AllocGlobal>(rt: &R) -> Result<Engine, WordsFault> {
    let words = words_of(rt)?;
    engine_in(rt.alloc(), words.as_slice())
}

/// How many minutes the words of a command line ask for, the first of which is the program's own name. None, where
/// there is no other.
pub fn minutes_in(alloc: Global, words: &[String]) -> Result<Option<u64>, WordsFault>
    ensures { IfOk result (λ minutes. SaysMinutes (plain_in (map string_bytes words.now)) minutes) }
{
    let plain = plain_words(alloc, words)?;
    match plain.as_slice() {
        [] => Ok(None),
        [word] => match word.parse::<u64>() {
            Ok(minutes) => Ok(Some(minutes)),
            Err(_) => Err(WordsFault::Usage),
        },
        [_, _, ..] => Err(WordsFault::Usage),
    }
}

/// How many minutes the program's own command line asks for.
pub fn minutes_asked<R: Env + AllocGlobal>(rt: &R) -> Result<Option<u64>, WordsFault> {
    let words = words_of(rt)?;
    minutes_in(rt.alloc(), words.as_slice())
}
