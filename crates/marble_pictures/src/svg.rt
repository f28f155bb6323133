//! A picture as SVG.

ghost use Rattle.std.specs.Prelude.{◌≡◌, ◌++◌, IfOk, OnOk, string_bytes};
ghost use Rattle.std.specs.List.{flat_map};
ghost use Rattle.std.specs.List.Sorted.{IsPermutation};
ghost use Rattle.marble_pictures.specs.Symbols.{segment_text, symbol_text};
ghost use Rattle.marble_pictures.specs.Drawings.{head_text, is_name, name_of_row, name_text, about_text, front_text, svg_text, Draws};

use crate::caption::{push_numbered, push_words};
use crate::sheet::Sheet;
use crate::symbol::{Placed, Segment, push_escaped, push_symbol};
use crate::ways::{placed, ways};
use marble_marks::{Kind, Mark};
use std::alloc::{AllocError, Global};

/// The colours, told apart by those who see few of them too, and how text is set.
const STYLE: &str = "<style>
text{font:13px monospace;text-anchor:middle;fill:#000}
.name,.value{text-anchor:start}
.head{fill:#444;font-size:11px}
.number{fill:#444;font-size:10px}
.framed,.head{paint-order:stroke;stroke:#fff;stroke-opacity:.7;stroke-width:3px}
line{stroke:#444;stroke-width:2}
.dashed{stroke-dasharray:5 4}
.step{stroke:#009e73;stroke-width:3;stroke-linecap:square}
.guide{stroke:#eee;stroke-width:1}
.cross,.wall{stroke:#d55e00;stroke-width:2}
circle{fill:#fff;stroke:#444}
rect{fill:#fff;stroke:#444}
.accepted{fill:#56b4e9}
.before{stroke-dasharray:3 3}
.accepted.before{fill:#cfe9f8}
.received{fill:#f0e442}
.lost,.dropped,.full{stroke:#d55e00}
.said{stroke:#999}
.sheet{stroke:none}
</style>
";

/// What every picture says of itself, before the names of its rows.
const ABOUT: &str = "<title id=\"title\">Marble diagram of a script of flows</title>
<desc id=\"about\">Time runs to the right, one column for each line of the script that has an answer, under that line's \
number. There is a row for each of these:";

/// What marks stand on.
const SHEET: &str = "<rect class=\"sheet\" width=\"100%\" height=\"100%\"/>\n";

/// Adds the head.
#[tactic(auto, unfolding(crate::specs::Drawings::head_text))]
fn push_head(picture: &mut String, width: usize, height: usize) -> Result<(), AllocError>
    ensures { OnOk result (string_bytes picture.new ≡ string_bytes picture.old ++ head_text width height) }
{
    picture.push_str("<svg xmlns=\"http:")?;
    push_numbered(picture, "//www.w3.org/2000/svg\" width=\"", width)?;
    push_numbered(picture, "\" height=\"", height)?;
    push_numbered(picture, "\" viewBox=\"0 0 ", width)?;
    push_numbered(picture, " ", height)?;
    picture.push_str("\" role=\"img\" aria-labelledby=\"title about\">\n")
}

/// Whether this is the name of a row.
fn is_name(kind: Kind) -> bool
    ensures { result ≡ is_name kind }
{
    match kind {
        Kind::Named(_) => true,
        _ => false,
    }
}

/// Adds the name of a row.
fn push_name_of_row(picture: &mut String, words: &[u8]) -> Result<(), AllocError>
    ensures { OnOk result (string_bytes picture.new ≡ string_bytes picture.old ++ name_of_row words.now) }
{
    picture.push_str(" ")?;
    push_escaped(picture, words)?;
    picture.push_str(".")
}

/// Adds the name of a row, where this is its mark.
fn push_name(picture: &mut String, scratch: &mut String, mark: &Mark<'_>) -> Result<(), AllocError>
    ensures { OnOk result (string_bytes picture.new ≡ string_bytes picture.old ++ name_text mark.now) }
{
    if !is_name(mark.kind) {
        return Ok(());
    }
    scratch.clear();
    push_words(scratch, mark)?;
    push_name_of_row(picture, scratch.as_bytes())
}

/// Adds the names of the rows.
fn push_names(
    picture: &mut String,
    scratch: &mut String,
    marks: &[Mark<'_>],
) -> Result<(), AllocError>
    ensures { OnOk result (string_bytes picture.new ≡ string_bytes picture.old ++ flat_map name_text marks.now) }
{
    for mark in marks {
        push_name(picture, scratch, mark)?;
    }
    Ok(())
}

/// Adds the description: what a picture is, and its rows.
fn push_about(
    picture: &mut String,
    scratch: &mut String,
    marks: &[Mark<'_>],
) -> Result<(), AllocError>
    ensures { OnOk result (string_bytes picture.new ≡ string_bytes picture.old ++ about_text marks.now) }
{
    picture.push_str(ABOUT)?;
    push_names(picture, scratch, marks)?;
    picture.push_str("</desc>\n")
}

/// Adds all that stands before lines and marks.
fn push_front(
    picture: &mut String,
    scratch: &mut String,
    width: usize,
    height: usize,
    marks: &[Mark<'_>],
) -> Result<(), AllocError>
    ensures { OnOk result (string_bytes picture.new ≡ string_bytes picture.old ++ front_text width height marks.now) }
{
    push_head(picture, width, height)?;
    push_about(picture, scratch, marks)?;
    picture.push_str(STYLE)?;
    picture.push_str(SHEET)
}

/// Adds the lines that are under the marks.
fn push_segments(picture: &mut String, segments: &[Segment]) -> Result<(), AllocError>
    ensures { OnOk result (string_bytes picture.new ≡ string_bytes picture.old ++ flat_map segment_text segments.now) }
{
    for segment in segments {
        segment.push_to(picture)?;
    }
    Ok(())
}

/// Adds what the marks show.
fn push_symbols(
    picture: &mut String,
    scratch: &mut String,
    sheet: Sheet,
    placed: &[Placed<'_>],
) -> Result<(), AllocError>
    ensures { OnOk result (string_bytes picture.new ≡ string_bytes picture.old ++ flat_map (symbol_text sheet) placed.now) }
{
    for one in placed {
        push_symbol(picture, scratch, sheet, one)?;
    }
    Ok(())
}

/// Adds the whole picture.
fn push_all(
    picture: &mut String,
    scratch: &mut String,
    width: usize,
    height: usize,
    marks: &[Mark<'_>],
    sheet: Sheet,
    segments: &[Segment],
    placed: &[Placed<'_>],
) -> Result<(), AllocError>
    ensures { OnOk result (string_bytes picture.new ≡ string_bytes picture.old ++ svg_text width height marks.now sheet segments.now placed.now) }
{
    push_front(picture, scratch, width, height, marks)?;
    push_segments(picture, segments)?;
    push_symbols(picture, scratch, sheet, placed)?;
    picture.push_str("</svg>\n")
}

/// The picture of these marks, which stand in the order of their rows.
fn drawn(alloc: Global, marks: &[Mark<'_>]) -> Result<String, AllocError>
    ensures { IfOk result (λ picture. Draws marks.now (string_bytes picture)) }
{
    let sheet = Sheet::of(marks);
    let segments = ways(alloc, sheet, marks)?;
    let placed = placed(alloc, sheet, marks)?;
    let width = sheet.width();
    let height = sheet.height();
    let mut picture = String::new(alloc);
    let mut scratch = String::new(alloc);
    push_all(
        &mut picture,
        &mut scratch,
        width,
        height,
        marks,
        sheet,
        segments.as_slice(),
        placed.as_slice(),
    )?;
    Ok(picture)
}

/// The picture of these marks as SVG. They are put in the order of their rows.
pub fn svg_picture(alloc: Global, marks: &mut Vec<Mark<'_>>) -> Result<String, AllocError>
    ensures kept { IsPermutation marks.old.items marks.new.items }
    ensures drawn { IfOk result (λ picture. Draws marks.new.items (string_bytes picture)) }
{
    marks.sort_by_key(|mark| (mark.row, mark.column))?;
    drawn(alloc, marks)
}
