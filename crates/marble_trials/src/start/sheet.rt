//! Where the parts of a picture stand.

use crate::start::caption::{
    Purpose, caption, last_column, longest, longest_late, most_accepted_later, spot_of,
};
use crate::start::line::state_value;
use crate::start::steps::Position;
use marble_marks::{Mark, Spot};
use std::alloc::{AllocError, Global};

/// How wide a character is.
pub(crate) const CHARACTER: usize = 8;
/// How wide a character of a number beside a value is.
const SMALL_CHARACTER: usize = 6;
/// How high a row is.
const ROW: usize = 44;

/// The most characters of a state's value, which stands to the right of its column's middle.
fn longest_value(alloc: Global, marks: &[Mark<'_>]) -> Result<usize, AllocError> {
    let mut most = 0;
    for mark in marks {
        if state_value(mark.kind).is_some() {
            let said = caption(alloc, mark)?;
            most = said.len().max(most);
        }
    }
    Ok(most)
}

/// Where columns and rows are.
#[derive(Clone, Copy)]
pub(crate) struct Sheet {
    /// How wide the names are.
    names: usize,
    /// How wide a column is.
    column: usize,
    /// How far those that one line accepts stand apart.
    slot: usize,
    pub(crate) last_column: usize,
    last_row: usize,
}

impl Sheet {
    /// The sheet for these marks, which stand in the order of their rows.
    pub(crate) fn of(alloc: Global, marks: &[Mark<'_>]) -> Result<Sheet, AllocError> {
        let names = longest(alloc, marks, Purpose::Name)?;
        let places = longest(alloc, marks, Purpose::Place)?.saturating_mul(CHARACTER);
        let numbers = longest(alloc, marks, Purpose::Number)?.saturating_mul(SMALL_CHARACTER);
        let values = longest_value(alloc, marks)?.saturating_mul(CHARACTER);
        // Half of a frame's words stand before the middle of the next column.
        let value_and_frame = values.saturating_add(places / 2);
        let column = places.max(numbers).max(value_and_frame).saturating_add(20);
        let late = longest_late(alloc, marks)?.saturating_mul(CHARACTER);
        let slot = late.max(numbers).saturating_add(16);
        Ok(Sheet {
            names: names.saturating_mul(CHARACTER).saturating_add(16),
            column: column.max(slot.saturating_mul(most_accepted_later(marks))),
            slot,
            last_column: last_column(marks),
            last_row: marks.last().map_or(0, |mark| mark.row),
        })
    }

    /// The middle of a column.
    pub(crate) fn x(self, column: usize) -> usize {
        let left = column.saturating_sub(1).saturating_mul(self.column);
        left.saturating_add(self.names)
            .saturating_add(self.column / 2)
    }

    /// The middle of a row.
    pub(crate) fn y(self, row: usize) -> usize {
        row.saturating_mul(ROW).saturating_add(ROW / 2)
    }

    /// The place of a mark: what one line accepts stands side by side, its middle at that of the column.
    pub(crate) fn place(self, mark: &Mark<'_>) -> Position {
        let Spot { index, count } = spot_of(mark.kind);
        let half = (self.slot / 2).saturating_mul(count.saturating_sub(1));
        let first = self.x(mark.column).saturating_sub(half);
        Position {
            x: first.saturating_add(self.slot.saturating_mul(index)),
            y: self.y(mark.row),
        }
    }

    /// Where the lines of rows end.
    pub(crate) fn end(self) -> usize {
        self.x(self.last_column).saturating_add(self.column)
    }

    pub(crate) fn width(self) -> usize {
        self.end().saturating_add(8)
    }

    pub(crate) fn height(self) -> usize {
        self.y(self.last_row).saturating_add(ROW / 2)
    }
}
