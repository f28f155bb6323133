//! Marks the numbers of emissions, and where one that had to wait was accepted.
//!
//! A flow accepts what is emitted in the order in which that began. After each line it accepts the emission that waited longest,
//! and the next, while no live subscription has as many values pending as it has places. One that was taken back is none.

use crate::start::deed::{Act, Deed};
use crate::start::marking::row_of;
use marble_marks::{Kind, Mark, Spot};
use std::alloc::{AllocError, Global};

/// A live subscription.
#[derive(Clone, Copy)]
struct Guest<'a> {
    name: &'a [u8],
    /// How many values of its prelude it has still to take.
    prelude: usize,
    /// The number of the value that it takes next after these.
    next: usize,
}

/// A flow, as far as lines tell of it.
#[derive(Drop)]
struct Flow<'a> {
    replay: usize,
    places: usize,
    accepted: usize,
    reset_at: usize,
    waiting: Vec<u64>,
    guests: Vec<Guest<'a>>,
}

/// Where marks of a flow stand.
#[derive(Clone, Copy)]
struct Cell {
    column: usize,
    row: usize,
}

/// Whether an emission is taken back in one of these lines.
fn is_removed(ticket: &[u8], acts: &[Act<'_>]) -> bool {
    for act in acts {
        if let Deed::Removes { ticket: name } = act.deed
            && name == ticket
        {
            return true;
        }
    }
    false
}

/// What a guest joins first in these lines.
fn joined_by<'a>(acts: &[Act<'a>], name: &[u8]) -> Option<&'a [u8]> {
    for act in acts {
        if let Deed::Joins { host, guest, .. } = act.deed
            && guest == name
        {
            return Some(host);
        }
    }
    None
}

/// The flow that a line does something to, where these are all the lines.
fn flow_of<'a>(all: &[Act<'a>], deed: Deed<'a>) -> Option<&'a [u8]> {
    match deed {
        Deed::Opens { host, .. }
        | Deed::Accepts { host, .. }
        | Deed::Waits { host, .. }
        | Deed::Joins { host, .. }
        | Deed::Empties { host } => Some(host),
        Deed::Takes { guest } | Deed::Ends { guest } => joined_by(all, guest),
        _ => None,
    }
}

/// Adds a mark without a text.
fn add(marks: &mut Vec<Mark<'_>>, cell: Cell, kind: Kind) -> Result<(), AllocError> {
    marks.push(Mark {
        column: cell.column,
        row: cell.row,
        kind,
        text: b"",
    })?;
    Ok(())
}

impl Guest<'_> {
    /// It receives a value.
    fn take(&mut self, accepted: usize) {
        if self.prelude > 0 {
            self.prelude -= 1;
        } else if self.next < accepted {
            self.next += 1;
        }
    }
}

impl<'a> Flow<'a> {
    fn new(alloc: Global) -> Flow<'a> {
        Flow {
            replay: 0,
            places: 0,
            accepted: 0,
            reset_at: 0,
            waiting: Vec::new(alloc),
            guests: Vec::new(alloc),
        }
    }

    /// Accepts a value, which gets the next number.
    fn accept(
        &mut self,
        marks: &mut Vec<Mark<'_>>,
        cell: Cell,
        spot: Spot,
    ) -> Result<(), AllocError> {
        add(marks, cell, Kind::Number(self.accepted as u64, spot))?;
        self.accepted = self.accepted.saturating_add(1);
        Ok(())
    }

    /// A subscription begins, at the oldest value of the replay cache.
    fn join(&mut self, name: &'a [u8], prelude: usize) -> Result<(), AllocError> {
        let oldest = self.accepted.saturating_sub(self.replay);
        self.guests.push(Guest {
            name,
            prelude,
            next: oldest.max(self.reset_at),
        })?;
        Ok(())
    }

    /// A subscription receives a value.
    fn give(&mut self, name: &[u8]) {
        for guest in self.guests.iter_mut() {
            if guest.name == name {
                guest.take(self.accepted);
            }
        }
    }

    /// Whether each live subscription has a place, once so many more were accepted.
    fn has_room(&self, more: usize) -> bool {
        for guest in &self.guests {
            let pending = self
                .accepted
                .saturating_add(more)
                .saturating_sub(guest.next);
            if pending >= self.places {
                return false;
            }
        }
        true
    }

    /// How many of those that wait are accepted, one after another.
    fn accepted_later(&self) -> usize {
        for count in 0..self.waiting.len() {
            if !self.has_room(count) {
                return count;
            }
        }
        self.waiting.len()
    }

    /// Accepts what waits, while there is room.
    fn settle(&mut self, marks: &mut Vec<Mark<'_>>, cell: Cell) -> Result<(), AllocError> {
        let count = self.accepted_later();
        for index in 0..count {
            if !self.waiting.is_empty() {
                let spot = Spot { index, count };
                let value = self.waiting.remove(0);
                add(marks, cell, Kind::AcceptedLater(value, spot))?;
                self.accept(marks, cell, spot)?;
            }
        }
        Ok(())
    }

    /// What a line does to it, where these are all the lines.
    fn read(
        &mut self,
        marks: &mut Vec<Mark<'_>>,
        all: &[Act<'a>],
        cell: Cell,
        deed: Deed<'a>,
    ) -> Result<(), AllocError> {
        match deed {
            Deed::Opens { replay, extra, .. } => {
                self.replay = replay as usize;
                self.places = replay.saturating_add(extra).max(1) as usize;
            }
            Deed::Accepts { .. } => self.accept(marks, cell, Spot::ALONE)?,
            Deed::Waits { ticket, value, .. } => {
                if !is_removed(ticket, all) {
                    self.waiting.push(value)?;
                }
            }
            Deed::Joins { guest, prelude, .. } => self.join(guest, prelude)?,
            Deed::Takes { guest } => self.give(guest),
            Deed::Ends { guest } => self.guests.retain(|other| other.name != guest),
            Deed::Empties { .. } => self.reset_at = self.accepted,
            _ => {}
        }
        self.settle(marks, cell)
    }
}

/// Adds the marks of the emissions on the flow of this name.
fn add_numbers_on(
    alloc: Global,
    marks: &mut Vec<Mark<'_>>,
    names: &[&[u8]],
    all: &[Act<'_>],
    name: &[u8],
) -> Result<(), AllocError> {
    let row = row_of(names, name);
    let mut flow = Flow::new(alloc);
    for act in all {
        if flow_of(all, act.deed) == Some(name) {
            let column = act.column;
            flow.read(marks, all, Cell { column, row }, act.deed)?;
        }
    }
    Ok(())
}

/// Adds the marks of all emissions.
pub(crate) fn add_numbers(
    alloc: Global,
    marks: &mut Vec<Mark<'_>>,
    names: &[&[u8]],
    all: &[Act<'_>],
) -> Result<(), AllocError> {
    for name in names {
        add_numbers_on(alloc, marks, names, all, name)?;
    }
    Ok(())
}
