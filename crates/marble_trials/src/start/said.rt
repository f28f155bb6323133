//! The answer to a line of a script.

use script_commands::Answer;
use std::alloc::{AllocError, Global};

/// The answer to a line of a script, beside its text.
#[derive(Drop)]
pub struct Said {
    /// The line's number, counted from 1.
    number: u64,
    answer: Answer,
    text: String,
}

impl Said {
    /// This answer to the line with this number.
    pub fn new(alloc: Global, number: u64, answer: Answer) -> Result<Said, AllocError> {
        let text = format!(in alloc; "{answer}")?;
        Ok(Said {
            number,
            answer,
            text,
        })
    }

    pub(crate) fn number(&self) -> u64 {
        self.number
    }

    pub(crate) fn answer(&self) -> &Answer {
        &self.answer
    }

    pub(crate) fn text(&self) -> &[u8] {
        self.text.as_bytes()
    }
}
