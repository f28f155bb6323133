//! A picture in characters, in strips of at most 120 columns.
//!
//! Each row has a track: the marks that no strip has come to yet, and its line there. A strip takes up the rows whose next
//! mark it has, and says how many others there are whose line goes on. A row whose next mark stands beyond the next strip
//! waits in a heap by the strip of that mark. So each mark is written once, and there are at most as many lines of rows as
//! there are marks.

ghost use Rattle.std.specs.Prelude.{◌<◌, ◌≤◌, length};
ghost use Rattle.std.specs.List.Sorted.{IsPermutation};

use crate::caption::{Purpose, push_numbered, push_words, sign};
use crate::line::Line;
use crate::widths::Widths;
use marble_marks::Mark;
use std::alloc::{AllocError, Global};
use std::cmp::Reverse;
use std::collections::{BinaryHeap, VecDeque};

/// The most characters of a line of the picture.
const MOST_CHARACTERS: usize = 120;

/// How many characters a row's line is written by at once.
const PIECE: usize = 32;

const NO_LINE: &str = "                                ";

const SOLID_LINE: &str = "--------------------------------";

const DASHED_LINE: &str = "~~~~~~~~~~~~~~~~~~~~~~~~~~~~~~~~";

/// A row as it is written, from its front on.
#[derive(Drop)]
struct Pen {
    text: String,
    line: Line,
    /// Whether it has a mark in this strip.
    is_seen: bool,
}

/// A row, as far as strips have come.
#[derive(Clone, Copy)]
struct Track<'m, 'a> {
    /// Its marks up to its last name.
    names: &'m [Mark<'a>],
    /// Its marks that no strip has come to yet.
    left: &'m [Mark<'a>],
    /// Its line before them.
    line: Line,
}

/// Which columns a strip has, and how wide they are.
#[derive(Clone, Copy)]
struct Strip {
    first: usize,
    /// The column after the last.
    end: usize,
    width: usize,
    names: usize,
}

/// Rows that have more in them, each by its track's index, in the order of rows.
#[derive(Drop)]
struct Queue {
    /// Those whose next mark the next strip has.
    next: VecDeque<usize>,
    /// The others, after the index of the strip that has their next mark.
    later: BinaryHeap<Reverse<(usize, usize)>>,
    /// How many rows have a line here, those without a further mark among them.
    lasting: usize,
}

/// Adds so many characters of a line, `PIECE` of which are given.
fn push_line(text: &mut String, piece: &str, count: usize) -> Result<(), AllocError> {
    let mut missing = count;
    while missing > PIECE {
        text.push_str(piece)?;
        missing -= PIECE;
    }
    match piece.get(..missing) {
        Some(rest) => text.push_str(rest),
        None => Ok(()),
    }
}

impl Pen {
    /// Goes on to a column, along the row's line.
    fn fill(&mut self, strip: Strip, column: usize) -> Result<(), AllocError> {
        let wanted = column
            .saturating_sub(strip.first)
            .saturating_mul(strip.width)
            .saturating_add(strip.names);
        let missing = wanted.saturating_sub(self.text.len());
        let piece = match self.line {
            Line::None => NO_LINE,
            Line::Solid => SOLID_LINE,
            Line::Dashed => DASHED_LINE,
        };
        push_line(&mut self.text, piece, missing)
    }

    /// Leaves room for the names of rows.
    fn pass_names(&mut self, strip: Strip) -> Result<(), AllocError> {
        let names = strip.names.saturating_sub(self.text.len());
        push_line(&mut self.text, NO_LINE, names)
    }

    /// Adds a mark of the row.
    fn mark(&mut self, strip: Strip, mark: &Mark<'_>) -> Result<(), AllocError> {
        if Purpose::of(mark) == Purpose::Name {
            return push_words(&mut self.text, mark);
        }
        self.pass_names(strip)?;
        self.fill(strip, mark.column)?;
        self.text.push_str(sign(mark.kind))?;
        push_words(&mut self.text, mark)?;
        self.is_seen = true;
        self.line = self.line.after(mark.kind);
        Ok(())
    }

    /// Adds the names among these marks that stand before a strip, or those that stand after it.
    fn names(
        &mut self,
        strip: Strip,
        marks: &[Mark<'_>],
        are_before: bool,
    ) -> Result<(), AllocError> {
        for mark in marks {
            let stands_there = if are_before {
                mark.column < strip.first
            } else {
                mark.column >= strip.end
            };
            if stands_there && Purpose::of(mark) == Purpose::Name {
                push_words(&mut self.text, mark)?;
            }
        }
        Ok(())
    }

    /// Adds the marks of a row that stand in a strip, which are the first of these, and gives the others.
    fn marks<'m, 'a>(
        &mut self,
        strip: Strip,
        marks: &'m [Mark<'a>],
    ) -> Result<&'m [Mark<'a>], AllocError> {
        let mut left = marks;
        while let [mark, rest @ ..] = left
            && mark.column < strip.end
        {
            self.mark(strip, mark)?;
            left = rest;
        }
        Ok(left)
    }

    /// Adds a row to a strip of the picture, if it has a mark there.
    fn row<'m, 'a>(
        &mut self,
        strip: Strip,
        picture: &mut String,
        track: Track<'m, 'a>,
    ) -> Result<Track<'m, 'a>, AllocError> {
        self.text.clear();
        self.line = track.line;
        self.is_seen = false;
        self.names(strip, track.names, true)?;
        let left = self.marks(strip, track.left)?;
        self.names(strip, track.names, false)?;
        self.pass_names(strip)?;
        self.fill(strip, strip.end)?;
        if self.is_seen {
            picture.push_str(self.text.as_str().trim_end())?;
            picture.push('\n')?;
        }
        Ok(Track {
            names: track.names,
            left,
            line: self.line,
        })
    }
}

impl<'m, 'a> Track<'m, 'a> {
    /// A row of these marks, before the first strip, which begins at column 1.
    fn new(marks: &'m [Mark<'a>]) -> Track<'m, 'a> {
        let mut left = marks;
        let mut line = Line::None;
        while let [mark, rest @ ..] = left
            && mark.column == 0
        {
            line = line.after(mark.kind);
            left = rest;
        }
        let (names, _) = marks.split_at(up_to_names(marks));
        Track { names, left, line }
    }
}

/// How many of these marks stand up to the last that is a name.
fn up_to_names(marks: &[Mark<'_>]) -> usize
    ensures { result ≤ length marks.now }
{
    let mut end = 0;
    for (index, mark) in marks.iter().enumerate() {
        if Purpose::of(mark) == Purpose::Name {
            end = index + 1;
        }
    }
    end
}

/// The rows of these marks, which stand row by row.
fn tracks<'m, 'a>(alloc: Global, marks: &'m [Mark<'a>]) -> Result<Vec<Track<'m, 'a>>, AllocError> {
    let mut tracks = Vec::new(alloc);
    for row in marks.chunk_by(|mark, next| mark.row == next.row) {
        tracks.push(Track::new(row))?;
    }
    Ok(tracks)
}

impl Queue {
    /// Puts a row where the strip with this index, which is the next, or a later one finds it, if there is more of it.
    fn put(
        &mut self,
        columns: usize,
        strip: usize,
        index: usize,
        track: &Track<'_, '_>,
    ) -> Result<(), AllocError> {
        if track.line.is_there() {
            self.lasting = self.lasting.saturating_add(1);
        }
        let Some(mark) = track.left.first() else {
            return Ok(());
        };
        let found = mark.column.saturating_sub(1) / columns.max(1);
        if found <= strip {
            self.next.push_back(index)?;
        } else {
            self.later.push(Reverse((found, index)))?;
        }
        Ok(())
    }

    /// The rows before the first strip.
    fn of(alloc: Global, columns: usize, tracks: &[Track<'_, '_>]) -> Result<Queue, AllocError> {
        let mut queue = Queue {
            next: VecDeque::new(alloc),
            later: BinaryHeap::new(alloc),
            lasting: 0,
        };
        for (index, track) in tracks.iter().enumerate() {
            queue.put(columns, 0, index, track)?;
        }
        Ok(queue)
    }

    /// The next of the rows that waited for the strip with this index.
    fn due(&self, strip: usize) -> Option<usize> {
        match self.later.peek() {
            Some(Reverse((found, index))) if *found <= strip => Some(*index),
            _ => None,
        }
    }

    /// Takes the next row that the strip with this index has, where so many that didn't wait for it are still to come.
    fn take(&mut self, strip: usize, left: &mut usize) -> Option<usize> {
        let due = self.due(strip);
        let front = if *left == 0 {
            None
        } else {
            self.next.front().copied()
        };
        match (front, due) {
            (Some(first), Some(second)) if second < first => {
                let _ = self.later.pop();
                due
            }
            (Some(_), _) => {
                *left -= 1;
                self.next.pop_front()
            }
            (None, Some(_)) => {
                let _ = self.later.pop();
                due
            }
            (None, None) => None,
        }
    }
}

/// A picture as it is written.
#[derive(Drop)]
struct Rows<'m, 'a> {
    tracks: Vec<Track<'m, 'a>>,
    queue: Queue,
    pen: Pen,
    /// How many columns a strip has.
    columns: usize,
}

impl<'m, 'a> Rows<'m, 'a> {
    /// These marks, which stand row by row, before the first strip.
    fn of(
        alloc: Global,
        columns: usize,
        marks: &'m [Mark<'a>],
    ) -> Result<Rows<'m, 'a>, AllocError> {
        let tracks = tracks(alloc, marks)?;
        let queue = Queue::of(alloc, columns, &tracks)?;
        Ok(Rows {
            tracks,
            queue,
            pen: Pen {
                text: String::new(alloc),
                line: Line::None,
                is_seen: false,
            },
            columns,
        })
    }

    /// Adds a row to the strip with this index. Gives whether a line that goes on from before is seen by it.
    fn push_row(
        &mut self,
        picture: &mut String,
        (number, strip): (usize, Strip),
        index: usize,
    ) -> Result<bool, AllocError> {
        let Some(track) = self.tracks.get_mut(index) else {
            return Ok(false);
        };
        let goes_on = track.line.is_there();
        *track = self.pen.row(strip, picture, *track)?;
        if goes_on {
            self.queue.lasting = self.queue.lasting.saturating_sub(1);
        }
        self.queue
            .put(self.columns, number.saturating_add(1), index, track)?;
        Ok(goes_on && self.pen.is_seen)
    }

    /// Adds the rows of the strip with this index. Gives how many others have a line there.
    fn push_rows(
        &mut self,
        picture: &mut String,
        number: usize,
        strip: Strip,
    ) -> Result<usize, AllocError> {
        let mut left = self.queue.next.len();
        let mut left_out = self.queue.lasting;
        for _ in 0..self.tracks.len() {
            let Some(index) = self.queue.take(number, &mut left) else {
                return Ok(left_out);
            };
            if self.push_row(picture, (number, strip), index)? {
                left_out = left_out.saturating_sub(1);
            }
        }
        Ok(left_out)
    }

    /// Adds the strip with this index to the picture, and says how many rows that go on are left out of it, if any.
    fn push_strip(
        &mut self,
        picture: &mut String,
        number: usize,
        strip: Strip,
    ) -> Result<(), AllocError> {
        let left_out = self.push_rows(picture, number, strip)?;
        if left_out > 0 {
            push_numbered(picture, "(rows that only go on, left out: ", left_out)?;
            picture.push_str(")\n")?;
        }
        Ok(())
    }
}

/// How wide a column is: it has room for all that one line accepts.
fn width_of(widths: Widths) -> usize
    ensures { 0 < result }
{
    let one = widths.place.saturating_add(widths.number);
    let late = widths.late.saturating_add(widths.number);
    one.max(late.saturating_mul(widths.slots)).saturating_add(1)
}

/// The picture of these marks in characters, at most 120 in a line, and then broken into strips.
///
/// A row stands in each strip in which it has a mark, so where it begins and ends, too. Behind the rows of a strip it is
/// said of how many others the line goes on there: they are left out, so that a picture grows with its marks.
pub fn text_picture(alloc: Global, marks: &mut Vec<Mark<'_>>) -> Result<String, AllocError>
    ensures kept { IsPermutation marks.old.items marks.new.items }
{
    marks.sort_by_key(|mark| (mark.row, mark.column))?;
    let widths = Widths::of(marks);
    let names = widths.name.saturating_add(2);
    let width = width_of(widths);
    let columns = (MOST_CHARACTERS.saturating_sub(names) / width).max(1);
    let last = widths.last_column;
    let mut rows = Rows::of(alloc, columns, marks)?;
    let mut picture = String::new(alloc);
    let mut first = 1;
    while first <= last {
        let end = first.saturating_add(columns).min(last.saturating_add(1));
        let strip = Strip {
            first,
            end,
            width,
            names,
        };
        if first > 1 {
            picture.push('\n')?;
        }
        rows.push_strip(&mut picture, first.saturating_sub(1) / columns, strip)?;
        let Some(next) = first.checked_add(columns) else {
            break;
        };
        first = next;
    }
    Ok(picture)
}
