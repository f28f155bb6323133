//! A picture in characters, in strips of at most 120 columns.

use crate::start::caption::{
    Purpose, caption, last_column, longest, longest_late, most_accepted_later, sign,
};
use crate::start::line::Line;
use marble_marks::Mark;
use std::alloc::{AllocError, Global};

/// The most characters of a line of the picture.
const MOST_CHARACTERS: usize = 120;

/// A row as it is written, from its front on.
#[derive(Drop)]
struct Pen {
    text: String,
    row: usize,
    line: Line,
    /// Whether the row has a mark in this strip.
    is_seen: bool,
    /// How many rows of this strip have a line there, and no mark.
    left_out: usize,
}

/// Which columns a strip has, and how wide they are.
#[derive(Clone, Copy)]
struct Strip {
    first: usize,
    /// The column after the last.
    end: usize,
    width: usize,
    names: usize,
}

/// Adds a character so many times.
fn repeat(text: &mut String, letter: char, count: usize) -> Result<(), AllocError> {
    for _ in 0..count {
        text.push(letter)?;
    }
    Ok(())
}

impl Pen {
    /// Goes on to a column, along the row's line.
    fn fill(&mut self, strip: Strip, column: usize) -> Result<(), AllocError> {
        let wanted = column
            .saturating_sub(strip.first)
            .saturating_mul(strip.width)
            .saturating_add(strip.names);
        let missing = wanted.saturating_sub(self.text.len());
        let letter = match self.line {
            Line::None => ' ',
            Line::Solid => '-',
            Line::Dashed => '~',
        };
        repeat(&mut self.text, letter, missing)
    }

    /// Ends the row, and begins another.
    fn end(&mut self, strip: Strip, picture: &mut String, row: usize) -> Result<(), AllocError> {
        let names = strip.names.saturating_sub(self.text.len());
        repeat(&mut self.text, ' ', names)?;
        self.fill(strip, strip.end)?;
        if self.is_seen {
            picture.push_str(self.text.as_str().trim_end())?;
            picture.push('\n')?;
        } else if self.line.is_there() {
            self.left_out = self.left_out.saturating_add(1);
        }
        self.text.clear();
        self.row = row;
        self.line = Line::None;
        self.is_seen = false;
        Ok(())
    }

    /// Adds a mark of the row.
    fn mark(&mut self, alloc: Global, strip: Strip, mark: &Mark<'_>) -> Result<(), AllocError> {
        if Purpose::of(mark) == Purpose::Name {
            return self.text.push_str(caption(alloc, mark)?.as_str());
        }
        if mark.column >= strip.end {
            return Ok(());
        }
        if mark.column >= strip.first {
            let names = strip.names.saturating_sub(self.text.len());
            repeat(&mut self.text, ' ', names)?;
            self.fill(strip, mark.column)?;
            self.text.push_str(sign(mark.kind))?;
            self.text.push_str(caption(alloc, mark)?.as_str())?;
            self.is_seen = true;
        }
        self.line = self.line.after(mark.kind);
        Ok(())
    }
}

/// Adds a strip of the picture. The marks stand row by row.
fn push_strip(
    alloc: Global,
    picture: &mut String,
    marks: &[Mark<'_>],
    strip: Strip,
) -> Result<(), AllocError> {
    let mut pen = Pen {
        text: String::new(alloc),
        row: 0,
        line: Line::None,
        is_seen: false,
        left_out: 0,
    };
    for mark in marks {
        if mark.row != pen.row {
            pen.end(strip, picture, mark.row)?;
        }
        pen.mark(alloc, strip, mark)?;
    }
    pen.end(strip, picture, 0)?;
    if pen.left_out > 0 {
        let left_out = pen.left_out;
        picture.push_str(format!(in alloc;
            "(rows that only go on, left out: {left_out})\n"
        )?.as_str())?;
    }
    Ok(())
}

/// The picture of these marks in characters, at most 120 in a line, and then broken into strips.
pub fn text_picture(alloc: Global, marks: &mut Vec<Mark<'_>>) -> Result<String, AllocError> {
    marks.sort_by_key(|mark| (mark.row, mark.column))?;
    let names = longest(alloc, marks, Purpose::Name)?.saturating_add(2);
    let number = longest(alloc, marks, Purpose::Number)?;
    let one = longest(alloc, marks, Purpose::Place)?.saturating_add(number);
    let late = longest_late(alloc, marks)?.saturating_add(number);
    let width = one
        .max(late.saturating_mul(most_accepted_later(marks)))
        .saturating_add(1);
    let columns = (MOST_CHARACTERS.saturating_sub(names) / width).max(1);
    let last = last_column(marks);
    let mut picture = String::new(alloc);
    let mut first = 1;
    while first <= last {
        let end = first.saturating_add(columns).min(last.saturating_add(1));
        let strip = Strip {
            first,
            end,
            width,
            names,
        };
        if first > 1 {
            picture.push('\n')?;
        }
        push_strip(alloc, &mut picture, marks, strip)?;
        let Some(next) = first.checked_add(columns) else {
            break;
        };
        first = next;
    }
    Ok(picture)
}
