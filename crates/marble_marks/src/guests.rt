//! The rows of guests, by the lines by which they join.
//!
//! Very many values may make way for few guests, so their rows are looked up once for each line and not for each value.

ghost use Rattle.std.specs.Prelude.{◌≡◌, IfOk, map};
ghost use Rattle.std.specs.Option.{option_map};
ghost use Rattle.std.specs.List.{slice_get};
ghost use Rattle.marble_marks.specs.Deeds.{doing_in, done_in};
ghost use Rattle.marble_marks.specs.Guests.{row_joined, row_of_guest};

use crate::deed::{Act, Deed};
use crate::rows::Rows;
use std::alloc::{AllocError, Global};

/// Lines, each with the row of the guest that joins by it.
#[derive(Drop)]
pub(crate) struct Guests<'b, 'n, 'a> {
    pub(crate) acts: &'b [Act<'a>],
    pub(crate) names: &'n [&'a [u8]],
    found: Vec<usize>,
    ghost each: { found.items ≡ map (row_of_guest (map (λ known. known.now) names.now)) (map done_in acts.now) },
}

/// The row of the guest that this lets join, and else 0.
fn row_joined(rows: &Rows<'_, '_>, deed: Deed<'_>) -> usize
    ensures { result ≡ row_joined (map (λ known. known.now) rows.now.names.now) (doing_in deed.entry) }
{
    match deed {
        Deed::Joins { guest, .. } => rows.row(guest),
        _ => 0,
    }
}

/// The row of each guest.
fn rows_joined(
    alloc: Global,
    rows: &Rows<'_, '_>,
    acts: &[Act<'_>],
) -> Result<Vec<usize>, AllocError>
    ensures { IfOk result (λ found. found.items ≡ map (row_of_guest (map (λ known. known.now) rows.now.names.now)) (map done_in acts.now)) }
{
    let mut found = Vec::new(alloc);
    for act in acts {
        found.push(row_joined(rows, act.deed))?;
    }
    Ok(found)
}

impl<'b, 'n, 'a> Guests<'b, 'n, 'a> {
    /// The guests that join by these lines.
    pub(crate) fn of(
        alloc: Global,
        rows: &Rows<'n, 'a>,
        acts: &'b [Act<'a>],
    ) -> Result<Guests<'b, 'n, 'a>, AllocError>
        ensures { IfOk result (λ guests. (guests.acts.now ≡ acts.now) × (guests.names.now ≡ rows.now.names.now)) }
    {
        let found = rows_joined(alloc, rows, acts)?;
        Ok(Guests {
            acts,
            names: rows.names,
            found,
        })
    }

    /// The row of the guest that joins by the line with this index, if there is such a line.
    pub(crate) fn row(&self, line: usize) -> Option<usize>
        ensures { result ≡ option_map (row_of_guest (map (λ known. known.now) self.now.names.now)) (slice_get (map done_in self.now.acts.now) line) }
    {
        self.found.get(line).copied()
    }
}
