//! The text of a script, line by line.

use std::alloc::{AllocError, Global};

/// The most digits of a number.
const MOST_DIGITS: usize = 20;

/// A word of a line.
#[derive(Clone, Copy)]
pub(crate) enum Word<'a> {
    /// As it stands.
    Text(&'a str),
    Number(u64),
    /// The name of a part of an act: a letter, the number of the act, and that of the part.
    Name(&'a str, u64, u64),
    /// Numbers with commas between, at least one.
    List(&'a [u64]),
}

/// A script that is being written.
#[derive(Drop)]
pub(crate) struct Script {
    text: Vec<u8>,
}

impl Script {
    /// No line yet.
    pub(crate) fn new(alloc: Global) -> Script {
        Script {
            text: Vec::new(alloc),
        }
    }

    /// Its lines.
    pub(crate) fn text(&self) -> &[u8] {
        self.text.as_slice()
    }

    /// How many bytes it has.
    pub(crate) fn len(&self) -> u64 {
        self.text.len() as u64
    }

    /// Takes all lines out.
    pub(crate) fn clear(&mut self) {
        self.text.clear();
    }

    /// Adds a line of these words.
    pub(crate) fn line(&mut self, words: &[Word<'_>]) -> Result<(), AllocError> {
        self.words(words)?;
        self.text.extend_from_slice(b"\n".as_slice())
    }

    /// Adds text to the line that is being written.
    pub(crate) fn begin(&mut self, text: &str) -> Result<(), AllocError> {
        self.add(text)
    }

    /// Adds numbers with commas between to the line that is being written.
    pub(crate) fn items(&mut self, numbers: &[u64]) -> Result<(), AllocError> {
        self.list(numbers)
    }

    /// Adds these words, each with a space after it.
    pub(crate) fn words(&mut self, words: &[Word<'_>]) -> Result<(), AllocError> {
        for word in words {
            self.word(*word)?;
            self.add(" ")?;
        }
        Ok(())
    }

    fn word(&mut self, word: Word<'_>) -> Result<(), AllocError> {
        match word {
            Word::Text(text) => self.add(text),
            Word::Number(number) => self.number(number),
            Word::Name(letter, act, part) => self.name(letter, act, part),
            Word::List(numbers) => self.list(numbers),
        }
    }

    fn add(&mut self, text: &str) -> Result<(), AllocError> {
        self.text.extend_from_slice(text.as_bytes())
    }

    fn name(&mut self, letter: &str, act: u64, part: u64) -> Result<(), AllocError> {
        self.add(letter)?;
        self.number(act)?;
        self.add("x")?;
        self.number(part)
    }

    fn list(&mut self, numbers: &[u64]) -> Result<(), AllocError> {
        let mut is_first = true;
        for number in numbers {
            if !is_first {
                self.add(",")?;
            }
            is_first = false;
            self.number(*number)?;
        }
        Ok(())
    }

    /// Adds a number in decimal.
    fn number(&mut self, number: u64) -> Result<(), AllocError> {
        let mut digits = [b'0'; MOST_DIGITS];
        let mut left = number;
        let mut first = MOST_DIGITS;
        for at in (0..MOST_DIGITS).rev() {
            digits[at] = b'0' + (left % 10) as u8;
            left /= 10;
            first = at;
            if left == 0 {
                break;
            }
        }
        match digits.get(first..) {
            Some(text) => self.text.extend_from_slice(text),
            None => Ok(()),
        }
    }
}
