//! Places, and the way of a row's line.

use crate::start::line::{Line, Span, state_value};
use crate::start::sheet::Sheet;
use marble_marks::Mark;

/// How far below the middle of its row the line of a state's lowest value is.
pub(crate) const LOWEST: usize = 13;

/// A place of a picture.
#[derive(Clone, Copy)]
pub(crate) struct Position {
    pub(crate) x: usize,
    pub(crate) y: usize,
}

impl Position {
    pub(crate) fn left(self, by: usize) -> Position {
        Position {
            x: self.x.saturating_sub(by),
            y: self.y,
        }
    }

    pub(crate) fn right(self, by: usize) -> Position {
        Position {
            x: self.x.saturating_add(by),
            y: self.y,
        }
    }

    pub(crate) fn up(self, by: usize) -> Position {
        Position {
            x: self.x,
            y: self.y.saturating_sub(by),
        }
    }

    pub(crate) fn down(self, by: usize) -> Position {
        Position {
            x: self.x,
            y: self.y.saturating_add(by),
        }
    }
}

/// How far a row is drawn.
#[derive(Clone, Copy)]
pub(crate) struct Pen {
    pub(crate) row: usize,
    /// Where the row's line goes on.
    pub(crate) at: Position,
    pub(crate) line: Line,
    /// Whether the row is a state's.
    pub(crate) is_state: bool,
    /// The span of the row's values, where it is a state's.
    span: Span,
}

impl Pen {
    /// At the front of a row.
    pub(crate) fn new(sheet: Sheet, marks: &[Mark<'_>], row: usize) -> Pen {
        let y = sheet.y(row);
        Pen {
            row,
            at: Position { x: 0, y },
            line: Line::None,
            is_state: false,
            span: Span::of(marks, row),
        }
    }

    /// How many steps above the lowest value of its row a mark stands.
    pub(crate) fn step(self, mark: &Mark<'_>) -> usize {
        match state_value(mark.kind) {
            Some(value) => self.span.step(value) as usize,
            None => 0,
        }
    }

    /// Where the row's line goes on at a mark of it.
    pub(crate) fn place(self, sheet: Sheet, mark: &Mark<'_>) -> Position {
        let place = sheet.place(mark);
        match state_value(mark.kind) {
            Some(_) => place.down(LOWEST).up(self.step(mark)),
            None => Position {
                x: place.x,
                y: self.at.y,
            },
        }
    }
}
