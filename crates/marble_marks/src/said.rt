//! The answer to a line of a script.

ghost use Rattle.std.specs.Prelude.{◌≡◌, IfOk, string_bytes};
ghost use Rattle.marble_marks.specs.AnsweredLines.{saying, saying_in};

use script_commands::Answer;
use std::alloc::{AllocError, Global};

/// The answer to a line of a script, beside its text.
#[derive(Drop)]
pub struct Said {
    /// The line's number, counted from 1.
    number: u64,
    answer: Answer,
    text: String,
}

impl Said {
    /// This answer to the line with this number.
    pub fn new(alloc: Global, number: u64, answer: Answer) -> Result<Said, AllocError>
        ensures { IfOk result (λ said. saying_in said ≡ saying number answer) }
    {
        let text = format!(in alloc; "{answer}")?;
        Ok(Said {
            number,
            answer,
            text,
        })
    }

    pub(crate) fn number(&self) -> u64
        ensures { result ≡ self.now.number }
    {
        self.number
    }

    pub(crate) fn answer(&self) -> &Answer
        ensures { result.now ≡ self.now.answer }
    {
        &self.answer
    }

    pub(crate) fn text(&self) -> &[u8]
        ensures { result.now ≡ string_bytes self.now.text }
    {
        self.text.as_bytes()
    }
}
