//! What marks look like.

use crate::start::caption::{caption, plain_byte};
use crate::start::sheet::{CHARACTER, Sheet};
use crate::start::steps::{LOWEST, Position};
use marble_marks::{Kind, Mark, Row};
use script_commands::Reason;
use std::alloc::{AllocError, Global};
use std::fmt::Write;

/// A line from one place to another.
#[derive(Clone, Copy)]
pub(crate) struct Segment {
    pub(crate) class: &'static str,
    pub(crate) from: Position,
    pub(crate) to: Position,
}

/// A mark, and how many steps above the lowest value of its row it stands, where it is a state's value.
#[derive(Clone, Copy)]
pub(crate) struct Placed<'a> {
    pub(crate) mark: Mark<'a>,
    pub(crate) step: usize,
}

/// What shows that the value in a frame didn't go on.
#[derive(Clone, Copy)]
enum Strike {
    /// It did.
    None,
    /// Two lines through it.
    Cross,
    /// One line through it, which rises.
    Stroke,
    /// A wall at each side.
    Walls,
}

/// A frame round a text.
#[derive(Clone, Copy)]
struct Frame {
    class: &'static str,
    /// How round its corners are.
    round: usize,
    strike: Strike,
}

/// Adds a character as SVG wants it: what has a meaning there by its name, and a question mark for a byte that is no
/// printable character of ASCII.
fn push_escaped_byte(picture: &mut String, byte: u8) -> Result<(), AllocError> {
    if byte == b'<' {
        picture.push_str("&lt;")
    } else if byte == b'>' {
        picture.push_str("&gt;")
    } else if byte == b'&' {
        picture.push_str("&amp;")
    } else if byte == b'"' {
        picture.push_str("&quot;")
    } else {
        picture.push(plain_byte(byte) as char)
    }
}

/// Adds a text as SVG wants it.
pub(crate) fn push_escaped(picture: &mut String, bytes: &[u8]) -> Result<(), AllocError> {
    for byte in bytes {
        push_escaped_byte(picture, *byte)?;
    }
    Ok(())
}

/// Adds a line.
fn push_line(
    picture: &mut String,
    class: &str,
    from: Position,
    to: Position,
) -> Result<(), AllocError> {
    let Position { x: x1, y: y1 } = from;
    let Position { x: x2, y: y2 } = to;
    write!(
        picture,
        "<line class=\"{class}\" x1=\"{x1}\" y1=\"{y1}\" x2=\"{x2}\" y2=\"{y2}\"/>\n"
    )
}

impl Segment {
    /// Adds it.
    pub(crate) fn push_to(&self, picture: &mut String) -> Result<(), AllocError> {
        push_line(picture, self.class, self.from, self.to)
    }
}

/// Adds the begin of a text at this place.
fn push_opening(picture: &mut String, class: &str, at: Position) -> Result<(), AllocError> {
    let Position { x, y } = at;
    write!(picture, "<text class=\"{class}\" x=\"{x}\" y=\"{y}\">")
}

/// Adds a text at this place.
fn push_text(
    picture: &mut String,
    class: &str,
    said: &str,
    at: Position,
) -> Result<(), AllocError> {
    push_opening(picture, class, at)?;
    push_escaped(picture, said.as_bytes())?;
    picture.push_str("</text>\n")
}

/// Half the width of a frame round a text.
fn half_width(said: &str) -> usize {
    said.len().saturating_mul(CHARACTER / 2).saturating_add(7)
}

/// Adds the line of a cross that falls.
fn push_falling(picture: &mut String, at: Position, half: usize) -> Result<(), AllocError> {
    let reach = half.saturating_sub(2);
    push_line(
        picture,
        "cross",
        at.up(9).left(reach),
        at.down(9).right(reach),
    )
}

/// Adds the line of a cross that rises.
fn push_rising(picture: &mut String, at: Position, half: usize) -> Result<(), AllocError> {
    let reach = half.saturating_sub(2);
    push_line(
        picture,
        "cross",
        at.down(9).left(reach),
        at.up(9).right(reach),
    )
}

/// Adds a cross that reaches a little less to both sides than a frame.
fn push_cross(picture: &mut String, at: Position, half: usize) -> Result<(), AllocError> {
    push_falling(picture, at, half)?;
    push_rising(picture, at, half)
}

/// Adds an edge.
fn push_rect(
    picture: &mut String,
    class: &str,
    corner: Position,
    width: usize,
    round: usize,
) -> Result<(), AllocError> {
    let Position { x, y } = corner;
    write!(
        picture,
        "<rect class=\"{class}\" x=\"{x}\" y=\"{y}\" width=\"{width}\" height=\"22\" rx=\"{round}\"/>\n"
    )
}

/// Adds a wall, which is higher than a frame.
fn push_wall(picture: &mut String, at: Position) -> Result<(), AllocError> {
    push_line(picture, "wall", at.up(14), at.down(14))
}

/// Adds what shows that a value didn't go on, if anything does.
fn push_strike(
    picture: &mut String,
    strike: Strike,
    at: Position,
    half: usize,
) -> Result<(), AllocError> {
    match strike {
        Strike::None => Ok(()),
        Strike::Cross => push_cross(picture, at, half),
        Strike::Stroke => push_rising(picture, at, half),
        Strike::Walls => {
            push_wall(picture, at.left(half))?;
            push_wall(picture, at.right(half))
        }
    }
}

/// Adds the edge of a frame that reaches so far to both sides.
fn push_edge(
    picture: &mut String,
    frame: Frame,
    half: usize,
    at: Position,
) -> Result<(), AllocError> {
    let corner = at.up(11).left(half);
    push_rect(
        picture,
        frame.class,
        corner,
        half.saturating_mul(2),
        frame.round,
    )
}

/// Adds a text that stands in a frame.
fn push_framed(picture: &mut String, said: &str, at: Position) -> Result<(), AllocError> {
    push_text(picture, "framed", said, at.down(4))
}

/// Adds a frame that reaches so far to both sides, and the text in it.
fn push_around(
    picture: &mut String,
    frame: Frame,
    half: usize,
    said: &str,
    at: Position,
) -> Result<(), AllocError> {
    push_edge(picture, frame, half, at)?;
    push_strike(picture, frame.strike, at, half)?;
    push_framed(picture, said, at)
}

/// Adds a text in a frame.
fn push_frame(
    picture: &mut String,
    frame: Frame,
    said: &str,
    at: Position,
) -> Result<(), AllocError> {
    push_around(picture, frame, half_width(said), said, at)
}

/// Adds the begin of the head of a line's column.
fn push_heading(picture: &mut String, said: &str, at: Position) -> Result<(), AllocError> {
    let Position { x, y } = at;
    write!(
        picture,
        "<text class=\"head\" x=\"{x}\" y=\"{y}\">{said}<title>"
    )
}

/// Adds the head of a line's column, with the line's text to it, at this place.
fn push_head_at(
    picture: &mut String,
    line: &[u8],
    said: &str,
    at: Position,
) -> Result<(), AllocError> {
    push_heading(picture, said, at)?;
    push_escaped(picture, line)?;
    picture.push_str("</title></text>\n")
}

/// Adds the head of a line's column: its number, with the line's text to it.
fn push_head(
    picture: &mut String,
    line: &[u8],
    said: &str,
    at: Position,
) -> Result<(), AllocError> {
    push_head_at(picture, line, said, at.down(4))
}

/// Adds the head of a bad line's column.
fn push_crossed_head(
    picture: &mut String,
    reason: Reason,
    line: &[u8],
    half: usize,
    said: &str,
    at: Position,
) -> Result<(), AllocError> {
    push_cross(picture, at, half)?;
    push_heading(picture, said, at.down(4))?;
    push_escaped(picture, line)?;
    let why = reason.sentence();
    write!(picture, "&#10;bad command: {why}</title></text>\n")
}

/// The frame of the begin of a row, where it has one.
fn begun_frame(row: Row) -> Option<Frame> {
    match row {
        Row::Ticket(_) => Some(Frame {
            class: "before",
            round: 11,
            strike: Strike::None,
        }),
        _ => None,
    }
}

/// A round frame with this strike.
fn round(class: &'static str, strike: Strike) -> Option<Frame> {
    Some(Frame {
        class,
        round: 11,
        strike,
    })
}

/// A frame with square corners and this strike.
fn square(class: &'static str, strike: Strike) -> Option<Frame> {
    Some(Frame {
        class,
        round: 2,
        strike,
    })
}

/// The frame of a mark that has one.
fn frame_of(kind: Kind) -> Option<Frame> {
    match kind {
        Kind::Accepted(_) => round("accepted", Strike::None),
        Kind::AcceptedLater(_, _) => round("accepted before", Strike::None),
        Kind::Received(_) => round("received", Strike::None),
        Kind::FromPrelude(_) => square("received prelude", Strike::None),
        Kind::Lost(_) => round("lost", Strike::Cross),
        Kind::Dropped(_) => round("dropped", Strike::Stroke),
        Kind::Full(_) => square("full", Strike::Walls),
        Kind::Begun(row) => begun_frame(row),
        Kind::Done | Kind::Removed | Kind::Left | Kind::Gone | Kind::Said => square(
            "said",
            Strike::None,
        ),
        _ => None,
    }
}

/// Adds a bar across a row's line.
fn push_bar(picture: &mut String, at: Position) -> Result<(), AllocError> {
    push_line(picture, "bar", at.up(10), at.down(10))
}

/// Adds a small ring.
fn push_ring(picture: &mut String, at: Position) -> Result<(), AllocError> {
    let Position { x, y } = at;
    write!(picture, "<circle cx=\"{x}\" cy=\"{y}\" r=\"4\"/>\n")
}

/// Adds a value of a state, so many steps above its lowest.
fn push_value(
    picture: &mut String,
    step: usize,
    said: &str,
    at: Position,
) -> Result<(), AllocError> {
    let place = at.down(LOWEST).up(step).right(4).up(5);
    push_text(picture, "value", said, place)
}

/// Adds the begin of a row without a frame.
fn push_begun(
    picture: &mut String,
    row: Row,
    step: usize,
    said: &str,
    at: Position,
) -> Result<(), AllocError> {
    match row {
        Row::State(_) => push_value(picture, step, said, at),
        _ => push_bar(picture, at),
    }
}

/// Adds a tick: its answer in a frame, with what a tick is, and an arrowhead that points down at it.
fn push_ticked(picture: &mut String, said: &str, at: Position) -> Result<(), AllocError> {
    let frame = Frame {
        class: "said",
        round: 2,
        strike: Strike::None,
    };
    push_edge(picture, frame, half_width(said), at)?;
    let Position { x, y } = at.up(12);
    write!(picture, "<path d=\"M{x} {y}l-5-8h10z\"/>\n")?;
    push_opening(picture, "framed", at.down(4))?;
    push_escaped(picture, said.as_bytes())?;
    picture.push_str(
        "<title>a tick: the flow takes what its upstream gives, if anything</title></text>\n",
    )
}

/// Adds what a mark without a frame shows.
fn push_bare(
    picture: &mut String,
    placed: &Placed<'_>,
    said: &str,
    at: Position,
) -> Result<(), AllocError> {
    match placed.mark.kind {
        Kind::Line(_) => push_head(picture, placed.mark.text, said, at),
        Kind::Bad(_, reason) => {
            let half = half_width(said);
            push_crossed_head(picture, reason, placed.mark.text, half, said, at)
        }
        Kind::Named(_) => {
            let Position { y, .. } = at.down(4);
            push_text(picture, "name", said, Position { x: 8, y })
        }
        Kind::Number(_, _) => push_text(picture, "number", said, at.up(14)),
        Kind::Set(_) | Kind::Holds(_) => push_value(picture, placed.step, said, at),
        Kind::Begun(row) => push_begun(picture, row, placed.step, said, at),
        Kind::Cancelled => push_bar(picture, at),
        Kind::Ticked => push_ticked(picture, said, at),
        _ => push_ring(picture, at),
    }
}

/// Adds what a mark with this frame, if there is one, shows.
fn push_looking(
    picture: &mut String,
    frame: Option<Frame>,
    placed: &Placed<'_>,
    said: &str,
    at: Position,
) -> Result<(), AllocError> {
    match frame {
        Some(frame) => push_frame(picture, frame, said, at),
        None => push_bare(picture, placed, said, at),
    }
}

/// Adds what a mark shows.
pub(crate) fn push_symbol(
    alloc: Global,
    picture: &mut String,
    sheet: Sheet,
    placed: &Placed<'_>,
) -> Result<(), AllocError> {
    let said = caption(alloc, &placed.mark)?;
    let at = sheet.place(&placed.mark);
    let frame = frame_of(placed.mark.kind);
    push_looking(picture, frame, placed, said.as_str(), at)
}
