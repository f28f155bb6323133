//! What lines tell of emissions that had to wait, and of guests.
//!
//! A line may take an emission back under whose name nothing waits. Of such a name nothing is noted: so there is no more to look
//! through than there are rows, however the names are chosen.

ghost use Rattle.std.specs.Prelude.{◌≡◌, ℕ, List, IfOk, OnOk, map, is_some, true};
ghost use Rattle.marble_marks.specs.Deeds.{doing_in, done_in};
ghost use Rattle.marble_marks.specs.Waiting.{waits_as, is_waiting, removes, is_removed};
ghost use Rattle.marble_marks.specs.Moves.{joins_as, row_met, host_row};
ghost use Rattle.marble_marks.specs.Firsts.{noted_of, first};

use crate::deed::{Act, Deed};
use crate::firsts::Firsts;
use crate::rows::Rows;
use script_commands::NameHash;
use std::alloc::{AllocError, Global};

/// What these lines tell.
#[derive(Drop)]
pub(crate) struct Told<'r, 'b, 'n, 'a> {
    pub(crate) rows: &'r Rows<'n, 'a>,
    pub(crate) acts: &'b [Act<'a>],
    /// Which emissions were taken back.
    removed: Firsts<'a>,
    /// The row of the flow or state that each guest joined first.
    hosts: Firsts<'a>,
    ghost removed_once: { (ticket : List ℕ) → is_waiting ticket (map done_in acts.now) ≡ true → is_some (noted_of removed ticket) ≡ is_removed ticket (map done_in acts.now) },
    ghost first_hosts: { (guest : List ℕ) → noted_of hosts guest ≡ host_row (map (λ known. known.now) rows.now.names.now) guest (map done_in acts.now) },
}

/// Notes an emission that has to wait.
fn note_waiting<'a>(waiting: &mut Firsts<'a>, act: Act<'a>) -> Result<(), AllocError>
    ensures { OnOk result ((ticket : List ℕ) → noted_of waiting.new ticket ≡ first (noted_of waiting.old ticket) (waits_as ticket (doing_in act.entry.deed)) act.entry.column) }
{
    match act.deed {
        Deed::Waits { ticket, .. } => waiting.note(ticket, act.column),
        _ => Ok(()),
    }
}

/// Notes an emission that is taken back.
fn note_removed<'a>(
    removed: &mut Firsts<'a>,
    waiting: &Firsts<'_>,
    act: Act<'a>,
) -> Result<(), AllocError>
    ensures { OnOk result ((ticket : List ℕ) → is_some (noted_of waiting.now ticket) ≡ true → noted_of removed.new ticket ≡ first (noted_of removed.old ticket) (removes ticket (doing_in act.entry.deed)) act.entry.column) }
{
    match act.deed {
        Deed::Removes { ticket } => removed.note_known(waiting, ticket, act.column),
        _ => Ok(()),
    }
}

/// Notes the host of a guest that joins.
fn note_host<'a>(
    hosts: &mut Firsts<'a>,
    rows: &Rows<'_, 'a>,
    act: Act<'a>,
) -> Result<(), AllocError>
    ensures { OnOk result ((guest : List ℕ) → noted_of hosts.new guest ≡ first (noted_of hosts.old guest) (joins_as guest (doing_in act.entry.deed)) (row_met (map (λ known. known.now) rows.now.names.now) (doing_in act.entry.deed))) }
{
    match act.deed {
        Deed::Joins { host, guest, .. } => hosts.note(guest, rows.row(host)),
        _ => Ok(()),
    }
}

/// Which emissions have to wait.
fn waiting_in<'a>(alloc: Global, hash: NameHash, acts: &[Act<'a>]) -> Result<Firsts<'a>, AllocError>
    ensures { IfOk result (λ waiting. (ticket : List ℕ) → is_some (noted_of waiting ticket) ≡ is_waiting ticket (map done_in acts.now)) }
{
    let mut waiting = Firsts::new(alloc, hash);
    for act in acts {
        note_waiting(&mut waiting, *act)?;
    }
    Ok(waiting)
}

/// Which emissions were taken back, of those that have to wait.
fn removed_in<'a>(
    alloc: Global,
    hash: NameHash,
    waiting: &Firsts<'_>,
    acts: &[Act<'a>],
) -> Result<Firsts<'a>, AllocError>
    ensures { IfOk result (λ removed. (ticket : List ℕ) → is_some (noted_of waiting.now ticket) ≡ true → is_some (noted_of removed ticket) ≡ is_removed ticket (map done_in acts.now)) }
{
    let mut removed = Firsts::new(alloc, hash);
    for act in acts {
        note_removed(&mut removed, waiting, *act)?;
    }
    Ok(removed)
}

/// The rows of what guests join first.
fn hosts_in<'a>(
    alloc: Global,
    hash: NameHash,
    rows: &Rows<'_, 'a>,
    acts: &[Act<'a>],
) -> Result<Firsts<'a>, AllocError>
    ensures { IfOk result (λ hosts. (guest : List ℕ) → noted_of hosts guest ≡ host_row (map (λ known. known.now) rows.now.names.now) guest (map done_in acts.now)) }
{
    let mut hosts = Firsts::new(alloc, hash);
    for act in acts {
        note_host(&mut hosts, rows, *act)?;
    }
    Ok(hosts)
}

impl<'r, 'b, 'n, 'a> Told<'r, 'b, 'n, 'a> {
    /// What these lines tell, where names have these rows.
    pub(crate) fn of(
        alloc: Global,
        hash: NameHash,
        rows: &'r Rows<'n, 'a>,
        acts: &'b [Act<'a>],
    ) -> Result<Told<'r, 'b, 'n, 'a>, AllocError>
        ensures { IfOk result (λ told. (told.acts.now ≡ acts.now) × (told.rows.now ≡ rows.now)) }
    {
        let waiting = waiting_in(alloc, hash, acts)?;
        let removed = removed_in(alloc, hash, &waiting, acts)?;
        let hosts = hosts_in(alloc, hash, rows, acts)?;
        Ok(Told {
            rows,
            acts,
            removed,
            hosts,
        })
    }

    /// Whether an emission, which has to wait, is taken back in one of these lines.
    pub(crate) fn is_removed(&self, ticket: &[u8]) -> bool
        ensures { is_waiting ticket.now (map done_in self.now.acts.now) ≡ true → result ≡ is_removed ticket.now (map done_in self.now.acts.now) }
    {
        self.removed.get(ticket).is_some()
    }

    /// The row of what a guest joins first, if it joins anything.
    pub(crate) fn host_row(&self, guest: &[u8]) -> Option<usize>
        ensures { result ≡ host_row (map (λ known. known.now) self.now.rows.now.names.now) guest.now (map done_in self.now.acts.now) }
    {
        self.hosts.get(guest)
    }
}
