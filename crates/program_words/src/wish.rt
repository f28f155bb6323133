//! What a command line asks of a program that draws.

ghost use Rattle.std.specs.Prelude.{◌≡◌, map, string_bytes};
ghost use Rattle.program_words.specs.Wishes.{is_text, wish_of_one, wish_of_two, wish_by};

use crate::fault::WordsFault;
use crate::plain::words_of;
use script_words::Engine;
use std::alloc::AllocGlobal;
use std::rt::Env;

/// What a command line asks of a program that draws.
#[derive(Clone, Copy, Debug, PartialEq, Eq)]
pub struct Wish {
    pub engine: Engine,
    /// Whether the picture is of characters: the word `--text`.
    pub is_text: bool,
}

/// Whether a word asks for characters.
fn is_text(word: &str) -> bool
    ensures { result ≡ is_text word.now }
{
    word == "--text"
}

/// What one word asks for.
fn wish_of_one(word: &str) -> Option<Wish>
    ensures { result ≡ wish_of_one word.now }
{
    if is_text(word) {
        return Some(Wish {
            engine: Engine::Core,
            is_text: true,
        });
    }
    let engine = Engine::named(word)?;
    Some(Wish {
        engine,
        is_text: false,
    })
}

/// What an engine and the word for characters ask for, in this order.
fn wish_of_two(engine: &str, text: &str) -> Option<Wish>
    ensures { result ≡ wish_of_two engine.now text.now }
{
    if !is_text(text) {
        return None;
    }
    let engine = Engine::named(engine)?;
    Some(Wish {
        engine,
        is_text: true,
    })
}

/// What the words of a command line ask for, the first of which is the program's own name.
pub fn wish_in(words: &[String]) -> Option<Wish>
    ensures { result ≡ wish_by (map string_bytes words.now) }
{
    match words {
        [] | [_] => Some(Wish {
            engine: Engine::Core,
            is_text: false,
        }),
        [_, word] => wish_of_one(word.as_str()),
        [_, one, other] => {
            if is_text(one.as_str()) {
                wish_of_two(other.as_str(), one.as_str())
            } else {
                wish_of_two(one.as_str(), other.as_str())
            }
        }
        [_, _, _, _, ..] => None,
    }
}

/// What the program's own command line asks for.
pub fn wish_asked<R: Env + AllocGlobal>(rt: &R) -> Result<Wish, WordsFault> {
    let words = words_of(rt)?;
    wish_in(words.as_slice()).ok_or(WordsFault::Usage)
}
