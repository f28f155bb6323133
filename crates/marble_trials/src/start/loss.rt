//! Values that made way before they were taken.

use crate::start::deed::{Act, Deed};
use crate::start::marking::row_of;
use marble_marks::{Kind, Mark};
use std::alloc::AllocError;

/// A value that a guest of a flow or a state lost, by the indices of the lines that tell it.
#[derive(Clone, Copy)]
pub(crate) struct Loss {
    /// By which line it made way for another.
    pub(crate) line: usize,
    /// By which line the guest joined.
    pub(crate) joined: usize,
    /// By which line the value had come.
    pub(crate) brought: usize,
}

impl<'a> Deed<'a> {
    /// The flow or state that this brings a value to.
    fn host_met(self) -> Option<&'a [u8]> {
        match self {
            Deed::Accepts { host, .. } | Deed::Sets { host, .. } => Some(host),
            _ => None,
        }
    }

    /// The guest that this lets join, if it joins this flow or state.
    fn guest_met(self, host: &[u8]) -> Option<&'a [u8]> {
        match self {
            Deed::Joins {
                host: at,
                guest,
                ..
            } => { if at == host { Some(guest) } else { None } }
            _ => None,
        }
    }

    /// The value that this brings to this flow or state, or that it begins with.
    fn value_met(self, host: &[u8]) -> Option<u64> {
        match self {
            Deed::Accepts { host: at, value }
            | Deed::Sets { host: at, value }
            | Deed::Begins { host: at, value } => { if at == host { Some(value) } else { None } }
            _ => None,
        }
    }
}

impl Loss {
    /// Its mark.
    fn mark<'a>(self, names: &[&[u8]], acts: &[Act<'_>]) -> Option<Mark<'a>> {
        let line = acts.get(self.line)?;
        let joined = acts.get(self.joined)?;
        let brought = acts.get(self.brought)?;
        let host = line.deed.host_met()?;
        let guest = joined.deed.guest_met(host)?;
        let value = brought.deed.value_met(host)?;
        Some(Mark {
            column: line.column,
            row: row_of(names, guest),
            kind: Kind::Lost(value),
            text: b"",
        })
    }
}

/// Adds the marks of these losses.
pub(crate) fn add_losses(
    marks: &mut Vec<Mark<'_>>,
    names: &[&[u8]],
    acts: &[Act<'_>],
    losses: &[Loss],
) -> Result<(), AllocError> {
    for loss in losses {
        if let Some(mark) = loss.mark(names, acts) {
            marks.push(mark)?;
        }
    }
    Ok(())
}
