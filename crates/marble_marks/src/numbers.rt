//! Marks the numbers of emissions, and where one that had to wait was accepted.
//!
//! An emission's number is how many its flow had accepted before it. One that had to wait is accepted by the line that makes room
//! for it.

ghost use Rattle.std.specs.Prelude.{◌≡◌, ◌≤◌, ◌<◌, ◌+◌, ◌++◌, OnOk, map, length, []};
ghost use Rattle.marble_marks.specs.Deeds.{done_in};
ghost use Rattle.marble_marks.specs.Marks.{mark_in, seen, row_of};
ghost use Rattle.marble_marks.specs.Standings.{stand_in, begun};
ghost use Rattle.marble_marks.specs.Moves.{on_row};
ghost use Rattle.marble_marks.specs.Numbers.{at_once, all_late, move_marks, moved, moves_seen, numbered_in};

use crate::mark::{Kind, Mark, Spot};
use crate::moves::{Move, moves_by_row, moves_of};
use crate::standing::{Standing, Step};
use crate::told::Told;
use std::alloc::{AllocError, Global};

/// A mark without a text.
fn plain<'a>(column: usize, row: usize, kind: Kind) -> Mark<'a>
    ensures { mark_in result ≡ seen column row kind [] }
{
    Mark {
        column,
        row,
        kind,
        text: b"",
    }
}

/// Adds the number of a value that is accepted at once.
fn add_at_once(
    marks: &mut Vec<Mark<'_>>,
    row: usize,
    number: usize,
    it: Move,
) -> Result<(), AllocError>
    ensures { OnOk result (map mark_in marks.new.items ≡ map mark_in marks.old.items ++ at_once it.column row number it.step) }
{
    if let Step::Accepted = it.step {
        let kind = Kind::Number(number as u64, Spot::ALONE);
        marks.push(plain(it.column, row, kind))?;
    }
    Ok(())
}

/// Adds the marks of these values, which a line accepts.
fn add_late(
    marks: &mut Vec<Mark<'_>>,
    column: usize,
    row: usize,
    first: usize,
    values: &[u64],
) -> Result<(), AllocError>
    requires { first + length values.now < 18446744073709551616 }
    ensures { OnOk result (map mark_in marks.new.items ≡ map mark_in marks.old.items ++ all_late column row first values.now) }
{
    let count = values.len();
    let mut index = 0;
    for value in values {
        let spot = Spot { index, count };
        let number = first + index;
        marks.push(plain(column, row, Kind::AcceptedLater(*value, spot)))?;
        marks.push(plain(column, row, Kind::Number(number as u64, spot)))?;
        index += 1;
    }
    Ok(())
}

/// Adds the marks of what a line does to a flow, and accepts what waits.
fn add_move(
    alloc: Global,
    marks: &mut Vec<Mark<'_>>,
    row: usize,
    standing: &mut Standing,
    it: Move,
) -> Result<(), AllocError>
    requires { standing.old.accepted + length standing.old.waiting.items < 18446744073709551615 }
    ensures added { OnOk result (map mark_in marks.new.items ≡ map mark_in marks.old.items ++ move_marks row (stand_in standing.old) it) }
    ensures moved { OnOk result (stand_in standing.new ≡ moved (stand_in standing.old) it) }
    ensures few { OnOk result (standing.new.accepted + length standing.new.waiting.items ≤ standing.old.accepted + length standing.old.waiting.items + 1) }
{
    add_at_once(marks, row, standing.accepted(), it)?;
    standing.take(it.step)?;
    let first = standing.accepted();
    let values = standing.settle(alloc)?;
    add_late(marks, it.column, row, first, &values)
}

/// Adds the marks of what comes to the flow with this row.
fn add_numbers_on(
    alloc: Global,
    marks: &mut Vec<Mark<'_>>,
    row: usize,
    moves: &[Move],
) -> Result<(), AllocError>
    ensures { OnOk result (map mark_in marks.new.items ≡ map mark_in marks.old.items ++ moves_seen row begun moves.now) }
{
    let mut standing = Standing::new(alloc);
    for it in moves {
        add_move(alloc, marks, row, &mut standing, *it)?;
    }
    Ok(())
}

/// Adds the marks of the emissions on the flow of this name.
fn add_numbers_of(
    alloc: Global,
    marks: &mut Vec<Mark<'_>>,
    told: &Told<'_, '_, '_, '_>,
    by_row: &[Vec<Move>],
    name: &[u8],
) -> Result<(), AllocError>
    ensures { OnOk result (map mark_in marks.new.items ≡ map mark_in marks.old.items ++ moves_seen (row_of (map (λ known. known.now) told.now.rows.now.names.now) name.now) begun (on_row by_row.now (row_of (map (λ known. known.now) told.now.rows.now.names.now) name.now))) }
{
    let row = told.rows.row(name);
    add_numbers_on(alloc, marks, row, moves_of(by_row, row))
}

/// Adds the marks of all emissions.
pub(crate) fn add_numbers(
    alloc: Global,
    marks: &mut Vec<Mark<'_>>,
    told: &Told<'_, '_, '_, '_>,
) -> Result<(), AllocError>
    ensures { OnOk result (map mark_in marks.new.items ≡ map mark_in marks.old.items ++ numbered_in (map (λ known. known.now) told.now.rows.now.names.now) (map done_in told.now.acts.now)) }
{
    let by_row = moves_by_row(alloc, told)?;
    let names = told.rows.names;
    for name in names {
        add_numbers_of(alloc, marks, told, &by_row, name)?;
    }
    Ok(())
}
