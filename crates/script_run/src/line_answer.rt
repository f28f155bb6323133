//! An answer, and the line that it answers.

use script_commands::Answer;

/// What a line of a script is answered with.
#[derive(Drop)]
pub struct LineAnswer {
    /// The number of the line, which counts from 1.
    pub line: u64,
    /// What the line is answered with.
    pub answer: Answer,
}
