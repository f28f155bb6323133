//! What a table says that didn't come.

use std::alloc::Global;
use std::fmt::Debug;
use std::test::Fail;

/// What came otherwise than a table says, a line for each. The rows after a wrong one are run all the same.
#[derive(Drop)]
pub struct Differences {
    lines: String,
}

impl Differences {
    /// Nothing did so far.
    pub fn none(alloc: Global) -> Differences {
        Differences {
            lines: String::new(alloc),
        }
    }

    /// Notes it under this name where what was found isn't what was wanted.
    pub fn compare<T: PartialEq + Debug + Drop>(
        &mut self,
        name: &str,
        found: T,
        wanted: T,
    ) -> Result<(), Fail> {
        if found != wanted {
            write!(self.lines, "\n{name}: {found:?}, and not {wanted:?}")?;
        }
        Ok(())
    }

    /// All that was noted: an empty text where nothing was.
    pub fn lines(&self) -> &str {
        self.lines.as_str()
    }
}
