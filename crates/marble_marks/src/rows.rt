//! The rows of names.

ghost use Rattle.std.specs.Prelude.{◌≡◌, ℕ, List, IfOk, map, unwrap_or};
ghost use Rattle.marble_marks.specs.Marks.{row_of};
ghost use Rattle.marble_marks.specs.Firsts.{noted_of};

use crate::firsts::Firsts;
use script_commands::NameHash;
use std::alloc::{AllocError, Global};

/// The names that have rows, each with its row.
#[derive(Drop)]
pub(crate) struct Rows<'n, 'a> {
    pub(crate) names: &'n [&'a [u8]],
    found: Firsts<'a>,
    /// The row of what has none of its own.
    below: usize,
    ghost each: { (name : List ℕ) → unwrap_or (noted_of found name) below ≡ row_of (map (λ known. known.now) names.now) name },
}

impl<'n, 'a> Rows<'n, 'a> {
    /// The rows of these names, in their order.
    pub(crate) fn of(
        alloc: Global,
        hash: NameHash,
        names: &'n [&'a [u8]],
    ) -> Result<Rows<'n, 'a>, AllocError>
        ensures { IfOk result (λ rows. rows.names.now ≡ names.now) }
    {
        let mut found = Firsts::new(alloc, hash);
        let mut row = 1;
        for name in names {
            found.note(*name, row)?;
            row += 1;
        }
        Ok(Rows {
            names,
            found,
            below: row,
        })
    }

    /// The row of a name.
    pub(crate) fn row(&self, name: &[u8]) -> usize
        ensures { result ≡ row_of (map (λ known. known.now) self.now.names.now) name.now }
    {
        self.found.get(name).unwrap_or(self.below)
    }
}
