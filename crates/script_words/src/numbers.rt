//! A list of numbers, as a line says it.

ghost use Rattle.std.specs.Prelude.{◌≡◌, [], length, slice_get};
ghost use Rattle.std.specs.Option.{option_map};
ghost use Rattle.script_words.specs.Lines.{words_of};
ghost use Rattle.script_words.specs.Numbers.{are_numbers, numbers_in, written, list_at};

use crate::fields::number_of;
use crate::words::Words;

/// Whether each part of a word is a number.
fn are_numbers(word: &[u8]) -> bool
    ensures { result ≡ are_numbers word.now }
{
    word.split(|byte| *byte == b',')
        .all(|part| number_of(part).is_some())
}

/// How many numbers a word says.
fn count_in(word: &[u8]) -> usize
    ensures { result ≡ length (numbers_in word.now) }
{
    word.split(|byte| *byte == b',')
        .filter_map(|part| number_of(part))
        .count()
}

/// The number with this index of those that a word says.
fn number_at(word: &[u8], index: usize) -> Option<u64>
    ensures { result ≡ slice_get (numbers_in word.now) index }
{
    word.split(|byte| *byte == b',')
        .filter_map(|part| number_of(part))
        .nth(index)
}

/// Numbers, which are read where they are wanted.
#[derive(Clone, Copy)]
pub struct Numbers<'a> {
    // A word that is a list of numbers, or nothing where none was written.
    word: Option<&'a [u8]>,
}

impl<'a> Numbers<'a> {
    /// No numbers.
    pub fn none() -> Numbers<'a>
        ensures { written result ≡ [] }
    {
        Numbers { word: None }
    }

    /// Takes a word that is a list of numbers.
    pub fn take(words: &mut Words<'a>) -> Option<Numbers<'a>>
        ensures { option_map (λ numbers. (written numbers, words_of words.new.rest.now)) result ≡ list_at (words_of words.old.rest.now) }
    {
        let word = words.next()?;
        if are_numbers(word) {
            Some(Numbers { word: Some(word) })
        } else {
            None
        }
    }

    /// How many there are.
    pub fn count(self) -> usize
        ensures { result ≡ length (written self.entry) }
    {
        match self.word {
            Some(word) => count_in(word),
            None => 0,
        }
    }

    /// The one with this index.
    pub fn at(self, index: usize) -> Option<u64>
        ensures { result ≡ slice_get (written self.entry) index }
    {
        match self.word {
            Some(word) => number_at(word, index),
            None => None,
        }
    }
}
