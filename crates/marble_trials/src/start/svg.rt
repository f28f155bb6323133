//! A picture as SVG.

use crate::start::caption::caption;
use crate::start::sheet::Sheet;
use crate::start::symbol::{Placed, Segment, push_escaped, push_symbol};
use crate::start::ways::{placed, ways};
use marble_marks::{Kind, Mark};
use std::alloc::{AllocError, Global};
use std::fmt::Write;

/// The colours, told apart by those who see few of them too, and how text is set.
const STYLE: &str = "<style>
text{font:13px monospace;text-anchor:middle;fill:#000}
.name,.value{text-anchor:start}
.head{fill:#444;font-size:11px}
.number{fill:#444;font-size:10px}
.framed,.head{paint-order:stroke;stroke:#fff;stroke-opacity:.7;stroke-width:3px}
line{stroke:#444;stroke-width:2}
.dashed{stroke-dasharray:5 4}
.step{stroke:#009e73;stroke-width:3;stroke-linecap:square}
.guide{stroke:#eee;stroke-width:1}
.cross,.wall{stroke:#d55e00;stroke-width:2}
circle{fill:#fff;stroke:#444}
rect{fill:#fff;stroke:#444}
.accepted{fill:#56b4e9}
.before{stroke-dasharray:3 3}
.accepted.before{fill:#cfe9f8}
.received{fill:#f0e442}
.lost,.dropped,.full{stroke:#d55e00}
.said{stroke:#999}
.sheet{stroke:none}
</style>
";

/// What every picture says of itself, before the names of its rows.
const ABOUT: &str = "<title id=\"title\">Marble diagram of a script of flows</title>
<desc id=\"about\">Time runs to the right, one column for each line of the script that has an answer, under that line's \
number. There is a row for each of these:";

/// What marks stand on.
const SHEET: &str = "<rect class=\"sheet\" width=\"100%\" height=\"100%\"/>\n";

/// Adds the head.
fn push_head(picture: &mut String, width: usize, height: usize) -> Result<(), AllocError> {
    let names = "//www.w3.org/2000/svg";
    write!(
        picture,
        "<svg xmlns=\"http:{names}\" width=\"{width}\" height=\"{height}\" viewBox=\"0 0 {width} {height}\" role=\"img\" aria-labelledby=\"title about\">\n"
    )
}

/// Whether this is the name of a row.
fn is_name(kind: Kind) -> bool {
    match kind {
        Kind::Named(_) => true,
        _ => false,
    }
}

/// Adds the name of a row.
fn push_name_of_row(picture: &mut String, words: &[u8]) -> Result<(), AllocError> {
    picture.push_str(" ")?;
    push_escaped(picture, words)?;
    picture.push_str(".")
}

/// Adds the name of a row, where this is its mark.
fn push_name(alloc: Global, picture: &mut String, mark: &Mark<'_>) -> Result<(), AllocError> {
    if !is_name(mark.kind) {
        return Ok(());
    }
    let words = caption(alloc, mark)?;
    push_name_of_row(picture, words.as_bytes())
}

/// Adds the names of the rows.
fn push_names(alloc: Global, picture: &mut String, marks: &[Mark<'_>]) -> Result<(), AllocError> {
    for mark in marks {
        push_name(alloc, picture, mark)?;
    }
    Ok(())
}

/// Adds the description: what a picture is, and its rows.
fn push_about(alloc: Global, picture: &mut String, marks: &[Mark<'_>]) -> Result<(), AllocError> {
    picture.push_str(ABOUT)?;
    push_names(alloc, picture, marks)?;
    picture.push_str("</desc>\n")
}

/// Adds all that stands before lines and marks.
fn push_front(
    alloc: Global,
    picture: &mut String,
    width: usize,
    height: usize,
    marks: &[Mark<'_>],
) -> Result<(), AllocError> {
    push_head(picture, width, height)?;
    push_about(alloc, picture, marks)?;
    picture.push_str(STYLE)?;
    picture.push_str(SHEET)
}

/// Adds the lines that are under the marks.
fn push_segments(picture: &mut String, segments: &[Segment]) -> Result<(), AllocError> {
    for segment in segments {
        segment.push_to(picture)?;
    }
    Ok(())
}

/// Adds what the marks show.
fn push_symbols(
    alloc: Global,
    picture: &mut String,
    sheet: Sheet,
    placed: &[Placed<'_>],
) -> Result<(), AllocError> {
    for one in placed {
        push_symbol(alloc, picture, sheet, one)?;
    }
    Ok(())
}

/// Adds the whole picture.
fn push_all(
    alloc: Global,
    picture: &mut String,
    width: usize,
    height: usize,
    marks: &[Mark<'_>],
    sheet: Sheet,
    segments: &[Segment],
    placed: &[Placed<'_>],
) -> Result<(), AllocError> {
    push_front(alloc, picture, width, height, marks)?;
    push_segments(picture, segments)?;
    push_symbols(alloc, picture, sheet, placed)?;
    picture.push_str("</svg>\n")
}

/// The picture of these marks, which stand in the order of their rows.
fn drawn(alloc: Global, marks: &[Mark<'_>]) -> Result<String, AllocError> {
    let sheet = Sheet::of(alloc, marks)?;
    let segments = ways(alloc, sheet, marks)?;
    let placed = placed(alloc, sheet, marks)?;
    let width = sheet.width();
    let height = sheet.height();
    let mut picture = String::new(alloc);
    push_all(
        alloc,
        &mut picture,
        width,
        height,
        marks,
        sheet,
        segments.as_slice(),
        placed.as_slice(),
    )?;
    Ok(picture)
}

/// The picture of these marks as SVG. They are put in the order of their rows.
pub fn svg_picture(alloc: Global, marks: &mut Vec<Mark<'_>>) -> Result<String, AllocError> {
    marks.sort_by_key(|mark| (mark.row, mark.column))?;
    drawn(alloc, marks)
}
