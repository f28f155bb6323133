//! Where the parts of a picture stand.

ghost use Rattle.std.specs.Prelude.{◌≡◌};
ghost use Rattle.marble_pictures.specs.Symbols.{x_of, y_of, place_of};

use crate::steps::Position;
use crate::widths::{Widths, spot_of};
use marble_marks::Mark;

/// How wide a character is.
pub(crate) const CHARACTER: usize = 8;
/// How wide a character of a number beside a value is.
const SMALL_CHARACTER: usize = 6;
/// How high a row is.
const ROW: usize = 44;

/// Where columns and rows are.
#[derive(Clone, Copy)]
pub(crate) struct Sheet {
    /// How wide the names are.
    names: usize,
    /// How wide a column is.
    column: usize,
    /// How far those that one line accepts stand apart.
    slot: usize,
    pub(crate) last_column: usize,
    last_row: usize,
}

impl Sheet {
    /// The sheet for these marks, which stand in the order of their rows.
    pub(crate) fn of(marks: &[Mark<'_>]) -> Sheet {
        let widths = Widths::of(marks);
        let places = widths.place.saturating_mul(CHARACTER);
        let numbers = widths.number.saturating_mul(SMALL_CHARACTER);
        // A state's value stands to the right of its column's middle, and half of a frame's words stand before the middle
        // of the next column.
        let values = widths.value.saturating_mul(CHARACTER);
        let value_and_frame = values.saturating_add(places / 2);
        let column = places.max(numbers).max(value_and_frame).saturating_add(20);
        let late = widths.late.saturating_mul(CHARACTER);
        let slot = late.max(numbers).saturating_add(16);
        Sheet {
            names: widths.name.saturating_mul(CHARACTER).saturating_add(16),
            column: column.max(slot.saturating_mul(widths.slots)),
            slot,
            last_column: widths.last_column,
            last_row: marks.last().map_or(0, |mark| mark.row),
        }
    }

    /// The middle of a column.
    pub(crate) fn x(self, column: usize) -> usize
        ensures { result ≡ x_of self column }
    {
        let left = column.saturating_sub(1).saturating_mul(self.column);
        left.saturating_add(self.names)
            .saturating_add(self.column / 2)
    }

    /// The middle of a row.
    pub(crate) fn y(self, row: usize) -> usize
        ensures { result ≡ y_of row }
    {
        row.saturating_mul(ROW).saturating_add(ROW / 2)
    }

    /// The place of a mark: where one line accepts several, they stand side by side in its column.
    pub(crate) fn place(self, mark: &Mark<'_>) -> Position
        ensures { result ≡ place_of self mark.now }
    {
        let spot = spot_of(mark.kind);
        let before = spot.count.saturating_sub(1).saturating_mul(self.slot / 2);
        let middle = Position {
            x: self.x(mark.column),
            y: self.y(mark.row),
        };
        middle
            .left(before)
            .right(spot.index.saturating_mul(self.slot))
    }

    /// Where the lines of rows end.
    pub(crate) fn end(self) -> usize {
        self.x(self.last_column).saturating_add(self.column)
    }

    pub(crate) fn width(self) -> usize {
        self.end().saturating_add(8)
    }

    pub(crate) fn height(self) -> usize {
        self.y(self.last_row).saturating_add(ROW / 2)
    }
}
