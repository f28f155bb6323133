//! What comes to each flow, by its row.

ghost use Rattle.std.specs.Prelude.{◌≡◌, ◌≤◌, ◌<◌, ◌++◌, ℕ, [], length, map, true, IfOk, OnOk};
ghost use Rattle.marble_marks.specs.Deeds.{doing_in, done_in};
ghost use Rattle.marble_marks.specs.Waiting.{is_met};
ghost use Rattle.marble_marks.specs.Moves.{flow_row, step_of, move_of, on_row, put_at, row_moves, moves_on};

use crate::deed::{Act, Deed};
use crate::standing::Step;
use crate::told::Told;
use std::alloc::{AllocError, Global};

/// What a line does to a flow, and in which column that is shown.
#[derive(Clone, Copy)]
pub(crate) struct Move {
    pub(crate) column: usize,
    pub(crate) step: Step,
}

/// The row of the flow that this does something to.
fn flow_row(told: &Told<'_, '_, '_, '_>, deed: Deed<'_>) -> Option<usize>
    ensures { result ≡ flow_row (map (λ known. known.now) told.now.rows.now.names.now) (map done_in told.now.acts.now) (doing_in deed.entry) }
{
    match deed {
        Deed::Opens { host, .. }
        | Deed::Accepts { host, .. }
        | Deed::Waits { host, .. }
        | Deed::Joins { host, .. }
        | Deed::Empties { host } => Some(told.rows.row(host)),
        Deed::Takes { guest } | Deed::Ends { guest } => told.host_row(guest),
        _ => None,
    }
}

/// What this does to that flow. An emission that is taken back later is never accepted.
fn step_of(told: &Told<'_, '_, '_, '_>, deed: Deed<'_>) -> Option<Step>
    ensures { is_met (map done_in told.now.acts.now) (doing_in deed.entry) ≡ true → result ≡ step_of (map (λ known. known.now) told.now.rows.now.names.now) (map done_in told.now.acts.now) (doing_in deed.entry) }
{
    match deed {
        Deed::Opens { replay, extra, .. } => Some(Step::Opened {
            replay: replay as usize,
            extra: extra as usize,
        }),
        Deed::Accepts { .. } => Some(Step::Accepted),
        Deed::Waits { ticket, value, .. } => {
            if told.is_removed(ticket) {
                None
            } else {
                Some(Step::Waits(value))
            }
        }
        Deed::Joins { guest, prelude, .. } => Some(Step::Joined {
            row: told.rows.row(guest),
            prelude,
        }),
        Deed::Takes { guest } => Some(Step::Took {
            row: told.rows.row(guest),
        }),
        Deed::Ends { guest } => Some(Step::Ended {
            row: told.rows.row(guest),
        }),
        Deed::Empties { .. } => Some(Step::Emptied),
        _ => None,
    }
}

/// What a line does to a flow.
fn move_of(told: &Told<'_, '_, '_, '_>, act: Act<'_>) -> Option<Move>
    ensures { is_met (map done_in told.now.acts.now) (doing_in act.entry.deed) ≡ true → result ≡ move_of (map (λ known. known.now) told.now.rows.now.names.now) (map done_in told.now.acts.now) (done_in act.entry) }
{
    let step = step_of(told, act.deed)?;
    Some(Move {
        column: act.column,
        step,
    })
}

/// So many rows with nothing on them.
fn empty(alloc: Global, rows: usize) -> Result<Vec<Vec<Move>>, AllocError>
    ensures { IfOk result (λ by_row. (length by_row.items ≡ rows) × ((row : ℕ) → on_row by_row.items row ≡ [])) }
{
    let mut by_row = Vec::new(alloc);
    while by_row.len() < rows {
        by_row.push(Vec::new(alloc))?;
    }
    Ok(by_row)
}

/// Adds this to a row, if there is such a row.
fn put(by_row: &mut Vec<Vec<Move>>, row: usize, it: Move) -> Result<(), AllocError>
    ensures length { OnOk result (length by_row.new.items ≡ length by_row.old.items) }
    ensures put { OnOk result ((other : ℕ) → other < length by_row.old.items → on_row by_row.new.items other ≡ put_at (on_row by_row.old.items other) row it other) }
{
    let Some(moves) = by_row.get_mut(row) else {
        return Ok(());
    };
    moves.push(it)?;
    Ok(())
}

/// Adds what this does to the row of its flow.
fn put_act(
    by_row: &mut Vec<Vec<Move>>,
    told: &Told<'_, '_, '_, '_>,
    act: Act<'_>,
) -> Result<(), AllocError>
    ensures length { OnOk result (length by_row.new.items ≡ length by_row.old.items) }
    ensures put { OnOk result (is_met (map done_in told.now.acts.now) (doing_in act.entry.deed) ≡ true → (other : ℕ) → other < length by_row.old.items → on_row by_row.new.items other ≡ on_row by_row.old.items other ++ row_moves (map (λ known. known.now) told.now.rows.now.names.now) (map done_in told.now.acts.now) other (done_in act.entry)) }
{
    let Some(row) = flow_row(told, act.deed) else {
        return Ok(());
    };
    let Some(it) = move_of(told, act) else {
        return Ok(());
    };
    put(by_row, row, it)
}

/// What comes to the flow with each row, in the order of these lines.
pub(crate) fn moves_by_row(
    alloc: Global,
    told: &Told<'_, '_, '_, '_>,
) -> Result<Vec<Vec<Move>>, AllocError>
    ensures { IfOk result (λ by_row. (row : ℕ) → row ≤ length told.now.rows.now.names.now → on_row by_row.items row ≡ moves_on (map (λ known. known.now) told.now.rows.now.names.now) (map done_in told.now.acts.now) row (map done_in told.now.acts.now)) }
{
    let names = told.rows.names;
    let mut by_row = empty(alloc, names.len() + 1)?;
    let all = told.acts;
    for act in all {
        put_act(&mut by_row, told, *act)?;
    }
    Ok(by_row)
}

/// What comes to the flow with this row.
pub(crate) fn moves_of(by_row: &[Vec<Move>], row: usize) -> &[Move]
    ensures { result.now ≡ on_row by_row.now row }
{
    match by_row.get(row) {
        Some(moves) => moves.as_slice(),
        None => &[],
    }
}
