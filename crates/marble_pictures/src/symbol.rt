//! What marks look like.

ghost use Rattle.std.specs.Prelude.{◌≡◌, ◌<◌, ◌≤◌, ◌++◌, ◌∷◌, [], IfOk, OnOk, IsTrue, length, take, string_bytes};
ghost use Rattle.std.specs.Option.{option_map};
ghost use Rattle.marble_pictures.specs.Captions.{words_of};
ghost use Rattle.marble_pictures.specs.Symbols.{escaped_byte, escaped, line_text, segment_text, opening_text, said_text, half_width, falling_text, rising_text, cross_text, left_wall, right_wall, walls_text, rect_text, rounded, squared, look_in, begun_look, look_of, strike_text, edge_text, framed_text, frame_around, frame_text, heading_text, titled_text, head_at, head_text, why_text, bad_head_at, bad_head, crossed_head, bar_text, ring_text, value_text, begun_text, arrow_text, ticked_words, ticked_text, bare_text, symbol_by, symbol_text};

use crate::caption::{plain_byte, push_numbered, push_words};
use crate::sheet::{CHARACTER, Sheet};
use crate::steps::{LOWEST, Position};
use marble_marks::{Kind, Mark, Row};
use script_commands::Reason;
use std::alloc::AllocError;

/// How many bytes are added one by one, before those that stand for themselves are looked for again. So a text of which few do
/// costs what it costs byte by byte.
const BYTE_BY_BYTE: usize = 256;

/// A line from one place to another.
#[derive(Clone, Copy)]
pub(crate) struct Segment {
    pub(crate) class: &'static str,
    pub(crate) from: Position,
    pub(crate) to: Position,
}

/// A mark, and how many steps above the lowest value of its row it stands, where it is a state's value.
#[derive(Clone, Copy)]
pub(crate) struct Placed<'a> {
    pub(crate) mark: Mark<'a>,
    pub(crate) step: usize,
}

/// What shows that the value in a frame didn't go on.
#[derive(Clone, Copy)]
enum Strike {
    /// It did.
    None,
    /// Two lines through it.
    Cross,
    /// One line through it, which rises.
    Stroke,
    /// A wall at each side.
    Walls,
}

/// A frame round a text.
#[derive(Clone, Copy)]
struct Frame {
    class: &'static str,
    /// How round its corners are.
    round: usize,
    strike: Strike,
}

// Inlined, so that a text of which every second character has a name costs no call for each.
/// Adds a character as SVG wants it: what has a meaning there by its name, and a question mark for a byte that is no
/// printable character of ASCII.
#[inline(always)]
fn push_escaped_byte(picture: &mut String, byte: u8) -> Result<(), AllocError>
    ensures { OnOk result (string_bytes picture.new ≡ string_bytes picture.old ++ escaped_byte byte) }
{
    if byte == b'<' {
        picture.push_str("&lt;")
    } else if byte == b'>' {
        picture.push_str("&gt;")
    } else if byte == b'&' {
        picture.push_str("&amp;")
    } else if byte == b'"' {
        picture.push_str("&quot;")
    } else {
        picture.push(plain_byte(byte) as char)
    }
}

/// Whether a byte stands for itself.
fn is_itself(byte: u8) -> bool
    ensures { IsTrue result → escaped_byte byte ≡ byte ∷ [] }
{
    byte >= b' ' && byte <= b'~' && byte != b'<' && byte != b'>' && byte != b'&' && byte != b'"'
}

/// How many bytes at the front of a text stand for themselves.
fn plain_front(bytes: &[u8]) -> usize
    ensures within { result ≤ length bytes.now }
    ensures themselves { escaped (take result bytes.now) ≡ take result bytes.now }
{
    for (index, byte) in bytes.iter().enumerate() {
        if !is_itself(*byte) {
            return index;
        }
    }
    bytes.len()
}

/// Adds a text as SVG wants it, byte by byte.
fn push_each(picture: &mut String, bytes: &[u8]) -> Result<(), AllocError>
    ensures { OnOk result (string_bytes picture.new ≡ string_bytes picture.old ++ escaped bytes.now) }
{
    for byte in bytes {
        push_escaped_byte(picture, *byte)?;
    }
    Ok(())
}

/// Adds bytes that stand for themselves.
fn push_front(picture: &mut String, front: &[u8]) -> Result<(), AllocError>
    requires { escaped front.now ≡ front.now }
    ensures { OnOk result (string_bytes picture.new ≡ string_bytes picture.old ++ escaped front.now) }
{
    match std::str::from_utf8(front) {
        Ok(text) => picture.push_str(text),
        Err(_) => push_each(picture, front),
    }
}

/// Adds the front of a text as SVG wants it, byte by byte, and gives what is left.
fn push_few<'a>(picture: &mut String, bytes: &'a [u8]) -> Result<&'a [u8], AllocError>
    ensures front { IfOk result (λ left. string_bytes picture.new ++ escaped left.now ≡ string_bytes picture.old ++ escaped bytes.now) }
    ensures shorter { IfOk result (λ left. 0 < length bytes.now → length left.now < length bytes.now) }
    ensures within { IfOk result (λ left. length left.now ≤ length bytes.now) }
{
    let (few, rest) = bytes.split_at(bytes.len().min(BYTE_BY_BYTE));
    push_each(picture, few)?;
    Ok(rest)
}

/// Adds a text as SVG wants it: what stands for itself at its front together, as most texts do whole, then some bytes one by one,
/// and so on.
pub(crate) fn push_escaped(picture: &mut String, bytes: &[u8]) -> Result<(), AllocError>
    ensures { OnOk result (string_bytes picture.new ≡ string_bytes picture.old ++ escaped bytes.now) }
{
    let mut left = bytes;
    while !left.is_empty() {
        let (front, back) = left.split_at(plain_front(left));
        push_front(picture, front)?;
        left = push_few(picture, back)?;
    }
    Ok(())
}

/// Adds a line.
#[tactic(auto, unfolding(crate::specs::Symbols::line_text))]
fn push_line(
    picture: &mut String,
    class: &str,
    from: Position,
    to: Position,
) -> Result<(), AllocError>
    ensures { OnOk result (string_bytes picture.new ≡ string_bytes picture.old ++ line_text class.now from to) }
{
    picture.push_str("<line class=\"")?;
    picture.push_str(class)?;
    push_numbered(picture, "\" x1=\"", from.x)?;
    push_numbered(picture, "\" y1=\"", from.y)?;
    push_numbered(picture, "\" x2=\"", to.x)?;
    push_numbered(picture, "\" y2=\"", to.y)?;
    picture.push_str("\"/>\n")
}

impl Segment {
    /// Adds it.
    pub(crate) fn push_to(&self, picture: &mut String) -> Result<(), AllocError>
        ensures { OnOk result (string_bytes picture.new ≡ string_bytes picture.old ++ segment_text self.now) }
    {
        push_line(picture, self.class, self.from, self.to)
    }
}

/// Adds the begin of a text at this place.
#[tactic(auto, unfolding(crate::specs::Symbols::opening_text))]
fn push_opening(picture: &mut String, class: &str, at: Position) -> Result<(), AllocError>
    ensures { OnOk result (string_bytes picture.new ≡ string_bytes picture.old ++ opening_text class.now at) }
{
    picture.push_str("<text class=\"")?;
    picture.push_str(class)?;
    push_numbered(picture, "\" x=\"", at.x)?;
    push_numbered(picture, "\" y=\"", at.y)?;
    picture.push_str("\">")
}

/// Adds a text at this place.
fn push_text(picture: &mut String, class: &str, said: &str, at: Position) -> Result<(), AllocError>
    ensures { OnOk result (string_bytes picture.new ≡ string_bytes picture.old ++ said_text class.now said.now at) }
{
    push_opening(picture, class, at)?;
    push_escaped(picture, said.as_bytes())?;
    picture.push_str("</text>\n")
}

/// Half the width of a frame round a text.
fn half_width(said: &str) -> usize
    ensures { result ≡ half_width said.now }
{
    said.len().saturating_mul(CHARACTER / 2).saturating_add(7)
}

/// Adds the line of a cross that falls.
fn push_falling(picture: &mut String, at: Position, half: usize) -> Result<(), AllocError>
    ensures { OnOk result (string_bytes picture.new ≡ string_bytes picture.old ++ falling_text at half) }
{
    let reach = half.saturating_sub(2);
    push_line(
        picture,
        "cross",
        at.up(9).left(reach),
        at.down(9).right(reach),
    )
}

/// Adds the line of a cross that rises.
fn push_rising(picture: &mut String, at: Position, half: usize) -> Result<(), AllocError>
    ensures { OnOk result (string_bytes picture.new ≡ string_bytes picture.old ++ rising_text at half) }
{
    let reach = half.saturating_sub(2);
    push_line(
        picture,
        "cross",
        at.down(9).left(reach),
        at.up(9).right(reach),
    )
}

/// Adds a cross that reaches a little less to both sides than a frame.
fn push_cross(picture: &mut String, at: Position, half: usize) -> Result<(), AllocError>
    ensures { OnOk result (string_bytes picture.new ≡ string_bytes picture.old ++ cross_text at half) }
{
    push_falling(picture, at, half)?;
    push_rising(picture, at, half)
}

/// Adds the wall on the left of a frame, which is higher than that.
fn push_left_wall(picture: &mut String, at: Position, half: usize) -> Result<(), AllocError>
    ensures { OnOk result (string_bytes picture.new ≡ string_bytes picture.old ++ left_wall at half) }
{
    push_line(
        picture,
        "wall",
        at.up(14).left(half),
        at.down(14).left(half),
    )
}

/// Adds the wall on the right of a frame.
fn push_right_wall(picture: &mut String, at: Position, half: usize) -> Result<(), AllocError>
    ensures { OnOk result (string_bytes picture.new ≡ string_bytes picture.old ++ right_wall at half) }
{
    push_line(
        picture,
        "wall",
        at.up(14).right(half),
        at.down(14).right(half),
    )
}

/// Adds a wall at each side of a frame.
fn push_walls(picture: &mut String, at: Position, half: usize) -> Result<(), AllocError>
    ensures { OnOk result (string_bytes picture.new ≡ string_bytes picture.old ++ walls_text at half) }
{
    push_left_wall(picture, at, half)?;
    push_right_wall(picture, at, half)
}

/// Adds an edge.
#[tactic(auto, unfolding(crate::specs::Symbols::rect_text))]
fn push_rect(
    picture: &mut String,
    class: &str,
    corner: Position,
    width: usize,
    round: usize,
) -> Result<(), AllocError>
    ensures { OnOk result (string_bytes picture.new ≡ string_bytes picture.old ++ rect_text class.now corner width round) }
{
    picture.push_str("<rect class=\"")?;
    picture.push_str(class)?;
    push_numbered(picture, "\" x=\"", corner.x)?;
    push_numbered(picture, "\" y=\"", corner.y)?;
    push_numbered(picture, "\" width=\"", width)?;
    push_numbered(picture, "\" height=\"22\" rx=\"", round)?;
    picture.push_str("\"/>\n")
}

/// Adds what shows that a value didn't go on, if anything does.
fn push_strike(
    picture: &mut String,
    strike: Strike,
    at: Position,
    half: usize,
) -> Result<(), AllocError>
    ensures { OnOk result (string_bytes picture.new ≡ string_bytes picture.old ++ strike_text strike at half) }
{
    match strike {
        Strike::None => Ok(()),
        Strike::Cross => push_cross(picture, at, half),
        Strike::Stroke => push_rising(picture, at, half),
        Strike::Walls => push_walls(picture, at, half),
    }
}

/// Adds the edge of a frame that reaches so far to both sides.
fn push_edge(
    picture: &mut String,
    frame: Frame,
    half: usize,
    at: Position,
) -> Result<(), AllocError>
    ensures { OnOk result (string_bytes picture.new ≡ string_bytes picture.old ++ edge_text (look_in frame) half at) }
{
    let corner = at.up(11).left(half);
    push_rect(
        picture,
        frame.class,
        corner,
        half.saturating_mul(2),
        frame.round,
    )
}

/// Adds a text that stands in a frame.
fn push_framed(picture: &mut String, said: &str, at: Position) -> Result<(), AllocError>
    ensures { OnOk result (string_bytes picture.new ≡ string_bytes picture.old ++ framed_text said.now at) }
{
    push_text(picture, "framed", said, at.down(4))
}

/// Adds a frame that reaches so far to both sides, and the text in it.
fn push_around(
    picture: &mut String,
    frame: Frame,
    half: usize,
    said: &str,
    at: Position,
) -> Result<(), AllocError>
    ensures { OnOk result (string_bytes picture.new ≡ string_bytes picture.old ++ frame_around (look_in frame) half said.now at) }
{
    push_edge(picture, frame, half, at)?;
    push_strike(picture, frame.strike, at, half)?;
    push_framed(picture, said, at)
}

/// Adds a text in a frame.
fn push_frame(
    picture: &mut String,
    frame: Frame,
    said: &str,
    at: Position,
) -> Result<(), AllocError>
    ensures { OnOk result (string_bytes picture.new ≡ string_bytes picture.old ++ frame_text (look_in frame) said.now at) }
{
    push_around(picture, frame, half_width(said), said, at)
}

/// Adds the begin of the head of a line's column.
#[tactic(auto, unfolding(crate::specs::Symbols::heading_text))]
fn push_heading(picture: &mut String, said: &str, at: Position) -> Result<(), AllocError>
    ensures { OnOk result (string_bytes picture.new ≡ string_bytes picture.old ++ heading_text said.now at) }
{
    push_numbered(picture, "<text class=\"head\" x=\"", at.x)?;
    push_numbered(picture, "\" y=\"", at.y)?;
    picture.push_str("\">")?;
    picture.push_str(said)?;
    picture.push_str("<title>")
}

/// Adds the begin of that head, with the line's text to it.
fn push_titled(
    picture: &mut String,
    line: &[u8],
    said: &str,
    at: Position,
) -> Result<(), AllocError>
    ensures { OnOk result (string_bytes picture.new ≡ string_bytes picture.old ++ titled_text line.now said.now at) }
{
    push_heading(picture, said, at)?;
    push_escaped(picture, line)
}

/// Adds the head of a line's column, with the line's text to it, at this place.
fn push_head_at(
    picture: &mut String,
    line: &[u8],
    said: &str,
    at: Position,
) -> Result<(), AllocError>
    ensures { OnOk result (string_bytes picture.new ≡ string_bytes picture.old ++ head_at line.now said.now at) }
{
    push_titled(picture, line, said, at)?;
    picture.push_str("</title></text>\n")
}

/// Adds the head of a line's column: its number, with the line's text to it.
fn push_head(picture: &mut String, line: &[u8], said: &str, at: Position) -> Result<(), AllocError>
    ensures { OnOk result (string_bytes picture.new ≡ string_bytes picture.old ++ head_text line.now said.now at) }
{
    push_head_at(picture, line, said, at.down(4))
}

/// Adds why a line is bad, on a line of its own.
fn push_why(picture: &mut String, reason: Reason) -> Result<(), AllocError>
    ensures { OnOk result (string_bytes picture.new ≡ string_bytes picture.old ++ why_text reason) }
{
    picture.push_str("&#10;bad command: ")?;
    picture.push_str(reason.sentence())
}

/// Adds the head of a bad line's column, with the line's text and the reason to it, at this place.
fn push_bad_head_at(
    picture: &mut String,
    reason: Reason,
    line: &[u8],
    said: &str,
    at: Position,
) -> Result<(), AllocError>
    ensures { OnOk result (string_bytes picture.new ≡ string_bytes picture.old ++ bad_head_at reason line.now said.now at) }
{
    push_titled(picture, line, said, at)?;
    push_why(picture, reason)?;
    picture.push_str("</title></text>\n")
}

/// Adds the head of a bad line's column: its number, with the line's text and the reason to it.
fn push_bad_head(
    picture: &mut String,
    reason: Reason,
    line: &[u8],
    said: &str,
    at: Position,
) -> Result<(), AllocError>
    ensures { OnOk result (string_bytes picture.new ≡ string_bytes picture.old ++ bad_head reason line.now said.now at) }
{
    push_bad_head_at(picture, reason, line, said, at.down(4))
}

/// Adds the head of a bad line's column, which is crossed out.
fn push_crossed_head(
    picture: &mut String,
    reason: Reason,
    line: &[u8],
    half: usize,
    said: &str,
    at: Position,
) -> Result<(), AllocError>
    ensures { OnOk result (string_bytes picture.new ≡ string_bytes picture.old ++ crossed_head reason line.now half said.now at) }
{
    push_cross(picture, at, half)?;
    push_bad_head(picture, reason, line, said, at)
}

impl Frame {
    /// A frame with round corners.
    fn round(class: &'static str) -> Frame
        ensures { look_in result ≡ rounded class.now }
    {
        Frame {
            class,
            round: 11,
            strike: Strike::None,
        }
    }

    /// A frame with square corners.
    fn square(class: &'static str) -> Frame
        ensures { look_in result ≡ squared class.now }
    {
        Frame {
            class,
            round: 2,
            strike: Strike::None,
        }
    }
}

/// The frame of the begin of a row, where it has one.
fn begun_frame(row: Row) -> Option<Frame>
    ensures { option_map look_in result ≡ begun_look row }
{
    match row {
        Row::Ticket(_) => Some(Frame::round("before")),
        _ => None,
    }
}

/// The frame of a mark that has one.
fn frame_of(kind: Kind) -> Option<Frame>
    ensures { option_map look_in result ≡ look_of kind }
{
    match kind {
        Kind::Accepted(_) => Some(Frame::round("accepted")),
        Kind::AcceptedLater(_, _) => Some(Frame::round("accepted before")),
        Kind::Received(_) => Some(Frame::round("received")),
        Kind::FromPrelude(_) => Some(Frame::square("received prelude")),
        Kind::Lost(_) => Some(Frame {
            strike: Strike::Cross,
            ..Frame::round("lost")
        }),
        Kind::Dropped(_) => Some(Frame {
            strike: Strike::Stroke,
            ..Frame::round("dropped")
        }),
        Kind::Full(_) => Some(Frame {
            strike: Strike::Walls,
            ..Frame::square("full")
        }),
        Kind::Begun(row) => begun_frame(row),
        Kind::Done | Kind::Removed | Kind::Left | Kind::Gone | Kind::Said => {
            Some(Frame::square("said"))
        }
        _ => None,
    }
}

/// Adds a bar across a row's line.
fn push_bar(picture: &mut String, at: Position) -> Result<(), AllocError>
    ensures { OnOk result (string_bytes picture.new ≡ string_bytes picture.old ++ bar_text at) }
{
    push_line(picture, "bar", at.up(10), at.down(10))
}

/// Adds a small ring.
#[tactic(auto, unfolding(crate::specs::Symbols::ring_text))]
fn push_ring(picture: &mut String, at: Position) -> Result<(), AllocError>
    ensures { OnOk result (string_bytes picture.new ≡ string_bytes picture.old ++ ring_text at) }
{
    push_numbered(picture, "<circle cx=\"", at.x)?;
    push_numbered(picture, "\" cy=\"", at.y)?;
    picture.push_str("\" r=\"4\"/>\n")
}

/// Adds a value of a state, so many steps above its lowest.
fn push_value(picture: &mut String, step: usize, said: &str, at: Position) -> Result<(), AllocError>
    ensures { OnOk result (string_bytes picture.new ≡ string_bytes picture.old ++ value_text step said.now at) }
{
    let place = at.down(LOWEST).up(step).right(4).up(5);
    push_text(picture, "value", said, place)
}

/// Adds the begin of a row without a frame.
fn push_begun(
    picture: &mut String,
    row: Row,
    step: usize,
    said: &str,
    at: Position,
) -> Result<(), AllocError>
    ensures { OnOk result (string_bytes picture.new ≡ string_bytes picture.old ++ begun_text row step said.now at) }
{
    match row {
        Row::State(_) => push_value(picture, step, said, at),
        _ => push_bar(picture, at),
    }
}

/// Adds an arrowhead, whose point is here.
#[tactic(auto, unfolding(crate::specs::Symbols::arrow_text))]
fn push_arrow(picture: &mut String, at: Position) -> Result<(), AllocError>
    ensures { OnOk result (string_bytes picture.new ≡ string_bytes picture.old ++ arrow_text at) }
{
    push_numbered(picture, "<path d=\"M", at.x)?;
    push_numbered(picture, " ", at.y)?;
    picture.push_str("l-5-8h10z\"/>\n")
}

/// Adds the answer to a tick, with what a tick is.
fn push_ticked_words(picture: &mut String, said: &str, at: Position) -> Result<(), AllocError>
    ensures { OnOk result (string_bytes picture.new ≡ string_bytes picture.old ++ ticked_words said.now at) }
{
    push_opening(picture, "framed", at)?;
    push_escaped(picture, said.as_bytes())?;
    picture.push_str(
        "<title>a tick: the flow takes what its upstream gives, if anything</title></text>\n",
    )
}

/// Adds a tick: its answer in a frame, and an arrowhead that points down at it.
fn push_ticked(picture: &mut String, said: &str, at: Position) -> Result<(), AllocError>
    ensures { OnOk result (string_bytes picture.new ≡ string_bytes picture.old ++ ticked_text said.now at) }
{
    push_edge(picture, Frame::square("said"), half_width(said), at)?;
    push_arrow(picture, at.up(12))?;
    push_ticked_words(picture, said, at.down(4))
}

/// Adds what a mark shows that isn't a frame alone.
fn push_bare(
    picture: &mut String,
    placed: &Placed<'_>,
    said: &str,
    at: Position,
) -> Result<(), AllocError>
    ensures { OnOk result (string_bytes picture.new ≡ string_bytes picture.old ++ bare_text placed.now.mark.kind placed.now.mark.text.now placed.now.step said.now at) }
{
    match placed.mark.kind {
        Kind::Line(_) => push_head(picture, placed.mark.text, said, at),
        Kind::Bad(_, reason) => {
            let half = half_width(said);
            push_crossed_head(picture, reason, placed.mark.text, half, said, at)
        }
        Kind::Named(_) => {
            let Position { y, .. } = at.down(4);
            push_text(picture, "name", said, Position { x: 8, y })
        }
        Kind::Number(_, _) => push_text(picture, "number", said, at.up(14)),
        Kind::Set(_) | Kind::Holds(_) => push_value(picture, placed.step, said, at),
        Kind::Begun(row) => push_begun(picture, row, placed.step, said, at),
        Kind::Cancelled => push_bar(picture, at),
        Kind::Ticked => push_ticked(picture, said, at),
        _ => push_ring(picture, at),
    }
}

/// Adds what a mark with this frame, if there is one, shows.
fn push_looking(
    picture: &mut String,
    frame: Option<Frame>,
    placed: &Placed<'_>,
    said: &str,
    at: Position,
) -> Result<(), AllocError>
    ensures { OnOk result (string_bytes picture.new ≡ string_bytes picture.old ++ symbol_by (option_map look_in frame) placed.now.mark.kind placed.now.mark.text.now placed.now.step said.now at) }
{
    match frame {
        Some(frame) => push_frame(picture, frame, said, at),
        None => push_bare(picture, placed, said, at),
    }
}

/// Adds what a mark shows.
pub(crate) fn push_symbol(
    picture: &mut String,
    scratch: &mut String,
    sheet: Sheet,
    placed: &Placed<'_>,
) -> Result<(), AllocError>
    ensures { OnOk result (string_bytes picture.new ≡ string_bytes picture.old ++ symbol_text sheet placed.now) }
{
    scratch.clear();
    push_words(scratch, &placed.mark)?;
    let at = sheet.place(&placed.mark);
    let frame = frame_of(placed.mark.kind);
    push_looking(picture, frame, placed, scratch.as_str(), at)
}
