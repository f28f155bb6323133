//! Where a picture's lines go, and its marks stand.

use crate::start::caption::Purpose;
use crate::start::line::{Line, state_value};
use crate::start::sheet::Sheet;
use crate::start::steps::{Pen, Position};
use crate::start::symbol::{Placed, Segment};
use marble_marks::Mark;
use std::alloc::{AllocError, Global};

/// Adds a faint line down each column.
fn add_guides(segments: &mut Vec<Segment>, sheet: Sheet) -> Result<(), AllocError> {
    let top = sheet.y(0).saturating_add(12);
    let foot = sheet.height().saturating_sub(4);
    for column in 1..=sheet.last_column {
        let x = sheet.x(column);
        segments.push(Segment {
            class: "guide",
            from: Position { x, y: top },
            to: Position { x, y: foot },
        })?;
    }
    Ok(())
}

/// Adds the row's line from where it was up to here.
fn add_row_line(segments: &mut Vec<Segment>, pen: Pen, x: usize) -> Result<(), AllocError> {
    let class = match pen.line {
        Line::None => return Ok(()),
        Line::Dashed => "dashed",
        Line::Solid if pen.is_state => "step",
        Line::Solid => "row",
    };
    segments.push(Segment {
        class,
        from: pen.at,
        to: Position { x, y: pen.at.y },
    })?;
    Ok(())
}

/// Adds the row's line up to a mark, and where a state goes to another value, the step there.
fn add_way(
    segments: &mut Vec<Segment>,
    sheet: Sheet,
    pen: &mut Pen,
    mark: &Mark<'_>,
) -> Result<(), AllocError> {
    let place = pen.place(sheet, mark);
    let Position { x, y } = place;
    add_row_line(segments, *pen, x)?;
    if pen.line.is_there() && y != pen.at.y {
        segments.push(Segment {
            class: "step",
            from: Position { x, y: pen.at.y },
            to: place,
        })?;
    }
    pen.is_state = pen.is_state || state_value(mark.kind).is_some();
    pen.line = pen.line.after(mark.kind);
    pen.at = place;
    Ok(())
}

/// The lines under these marks, which stand row by row.
pub(crate) fn ways(
    alloc: Global,
    sheet: Sheet,
    marks: &[Mark<'_>],
) -> Result<Vec<Segment>, AllocError> {
    let mut segments = Vec::new(alloc);
    add_guides(&mut segments, sheet)?;
    let mut pen = Pen::new(sheet, marks, 0);
    for mark in marks {
        if mark.row != pen.row {
            add_row_line(&mut segments, pen, sheet.end())?;
            pen = Pen::new(sheet, marks, mark.row);
        }
        if Purpose::of(mark) == Purpose::Place {
            add_way(&mut segments, sheet, &mut pen, mark)?;
        }
    }
    add_row_line(&mut segments, pen, sheet.end())?;
    Ok(segments)
}

/// These marks, each with how high it stands in its row.
pub(crate) fn placed<'a>(
    alloc: Global,
    sheet: Sheet,
    marks: &[Mark<'a>],
) -> Result<Vec<Placed<'a>>, AllocError> {
    let mut placed = Vec::new(alloc);
    let mut pen = Pen::new(sheet, marks, 0);
    for mark in marks {
        if mark.row != pen.row {
            pen = Pen::new(sheet, marks, mark.row);
        }
        placed.push(Placed {
            mark: *mark,
            step: pen.step(mark),
        })?;
    }
    Ok(placed)
}
