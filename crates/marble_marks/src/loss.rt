//! Values that made way before they were taken.

ghost use Rattle.std.specs.Prelude.{◌≡◌, ◌++◌, OnOk, map};
ghost use Rattle.std.specs.Option.{option_map};
ghost use Rattle.std.specs.List.{filter_map};
ghost use Rattle.marble_marks.specs.Deeds.{doing_in, done_in};
ghost use Rattle.marble_marks.specs.Losses.{host_met, guest_met, value_met, lost_at, lost_by, loss_mark};
ghost use Rattle.marble_marks.specs.Marks.{mark_in};

use crate::deed::Deed;
use crate::guests::Guests;
use crate::mark::{Kind, Mark};
use std::alloc::AllocError;

/// A value that a guest of a flow or a state lost, by the indices of the lines that tell it.
#[derive(Clone, Copy)]
pub(crate) struct Loss {
    /// By which line it made way for another.
    pub(crate) line: usize,
    /// By which line the guest joined.
    pub(crate) joined: usize,
    /// By which line the value had come.
    pub(crate) brought: usize,
}

impl<'a> Deed<'a> {
    /// The flow or state that this brings a value to.
    fn host_met(self) -> Option<&'a [u8]>
        ensures { option_map (λ host. host.now) result ≡ host_met (doing_in self.entry) }
    {
        match self {
            Deed::Accepts { host, .. } | Deed::Sets { host, .. } => Some(host),
            _ => None,
        }
    }

    /// The guest that this lets join, if it joins this flow or state.
    fn guest_met(self, host: &[u8]) -> Option<&'a [u8]>
        ensures { option_map (λ guest. guest.now) result ≡ guest_met host.now (doing_in self.entry) }
    {
        match self {
            Deed::Joins {
                host: at,
                guest,
                ..
            } => { if at == host { Some(guest) } else { None } }
            _ => None,
        }
    }

    /// The value that this brings to this flow or state, or that it begins with.
    fn value_met(self, host: &[u8]) -> Option<u64>
        ensures { result ≡ value_met host.now (doing_in self.entry) }
    {
        match self {
            Deed::Accepts { host: at, value }
            | Deed::Sets { host: at, value }
            | Deed::Begins { host: at, value } => { if at == host { Some(value) } else { None } }
            _ => None,
        }
    }
}

impl Loss {
    /// Its mark.
    fn mark<'a>(self, guests: &Guests<'_, '_, '_>) -> Option<Mark<'a>>
        ensures { option_map mark_in result ≡ loss_mark (map (λ known. known.now) guests.now.names.now) (map done_in guests.now.acts.now) self }
    {
        let acts = guests.acts;
        let line = acts.get(self.line)?;
        let joined = acts.get(self.joined)?;
        let row = guests.row(self.joined)?;
        let brought = acts.get(self.brought)?;
        let host = line.deed.host_met()?;
        let _ = joined.deed.guest_met(host)?;
        let value = brought.deed.value_met(host)?;
        Some(Mark {
            column: line.column,
            row,
            kind: Kind::Lost(value),
            text: b"",
        })
    }
}

/// Adds the marks of these losses.
pub(crate) fn add_losses(
    marks: &mut Vec<Mark<'_>>,
    guests: &Guests<'_, '_, '_>,
    losses: &[Loss],
) -> Result<(), AllocError>
    ensures { OnOk result (map mark_in marks.new.items ≡ map mark_in marks.old.items ++ filter_map (loss_mark (map (λ known. known.now) guests.now.names.now) (map done_in guests.now.acts.now)) losses.now) }
{
    for loss in losses {
        if let Some(mark) = loss.mark(guests) {
            marks.push(mark)?;
        }
    }
    Ok(())
}
