//! Pictures of marks that no script makes.

use crate::fault::Fault;
use crate::tally::Tally;
use marble_marks::{Kind, Mark};
use marble_pictures::text_picture;
use std::alloc::Global;

/// One mark for each of so many rows, in the order of the rows, in one strip.
fn marks_of(alloc: Global, rows: u64) -> Result<Vec<Mark<'static>>, Fault> {
    let mut marks = Vec::new(alloc);
    for row in 0..rows as usize {
        marks.push(Mark {
            column: 1 + row.wrapping_mul(7) % 20,
            row: row.saturating_add(1),
            kind: Kind::Received(1),
            text: b"",
        })?;
    }
    Ok(marks)
}

/// A picture of them.
fn picture_of(alloc: Global, rows: u64) -> Result<String, Fault> {
    let mut marks = marks_of(alloc, rows)?;
    Ok(text_picture(alloc, &mut marks)?)
}

/// The picture of very many rows is taken in.
pub(crate) fn text_rows(alloc: Global, rows: u64, tally: &mut Tally) {
    if let Some(picture) = tally.noted(picture_of(alloc, rows)) {
        tally.bytes(picture.as_bytes());
    }
}
