//! What is said, as it stands on standard input.

use std::alloc::{AllocError, AllocGlobal, Global};
use std::io;

/// A line of the chat.
#[derive(Drop)]
struct Line {
    /// The place of its user among the names.
    user: usize,
    text: String,
}

/// Who takes part, and what is said. The chat carries the place of a line in it, since a value of a flow is one word.
#[derive(Drop)]
pub(crate) struct Script {
    names: Vec<String>,
    lines: Vec<Line>,
}

impl Script {
    /// Reads it from standard input: a line has a name, a space, and what that user says.
    pub(crate) fn read<R: Input + AllocGlobal>(rt: &R) -> io::Result<Script> {
        let alloc = rt.alloc();
        let mut script = Script {
            names: Vec::new(alloc),
            lines: Vec::new(alloc),
        };
        for line in rt.lines(alloc) {
            script.add(alloc, line?.as_str())?;
        }
        Ok(script)
    }

    fn add(&mut self, alloc: Global, line: &str) -> Result<(), AllocError> {
        let (name, text) = line.split_once(' ').unwrap_or((line, ""));
        let user = self.user_named(alloc, name)?;
        let text = String::from_str(alloc, text)?;
        self.lines.push(Line { user, text })?;
        Ok(())
    }

    /// The place of a name, which is a new one where it wasn't there.
    fn user_named(&mut self, alloc: Global, name: &str) -> Result<usize, AllocError> {
        if let Some(user) = self.names.iter().position(|known| known.as_str() == name) {
            return Ok(user);
        }
        let user = self.names.len();
        self.names.push(String::from_str(alloc, name)?)?;
        Ok(user)
    }

    /// The names of the users: as many threads take part.
    pub(crate) fn names(&self) -> &[String] {
        self.names.as_slice()
    }

    /// How many lines there are.
    pub(crate) fn count(&self) -> u64 {
        self.lines.len() as u64
    }

    /// Whether the line at this place is one of this user.
    pub(crate) fn is_of(&self, place: u64, user: usize) -> bool {
        self.lines
            .get(place as usize)
            .is_some_and(|line| line.user == user)
    }

    /// What is said at this place.
    pub(crate) fn text(&self, place: u64) -> &str {
        match self.lines.get(place as usize) {
            Some(line) => line.text.as_str(),
            None => "",
        }
    }

    /// Whether somebody heard all that this user says, in order and once.
    pub(crate) fn is_all_of(&self, heard: &[u64], user: usize) -> bool {
        let of_user = heard
            .iter()
            .copied()
            .filter(|place| self.is_of(*place, user));
        of_user.eq((0..self.count()).filter(|place| self.is_of(*place, user)))
    }
}
