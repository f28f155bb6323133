//! The flows of emissions that were finished at once.
//!
//! Such an emission has no row: what is answered of it later stands on its flow's.

ghost use Rattle.std.specs.Prelude.{◌≡◌, ℕ, List, None, OnOk};
ghost use Rattle.std.specs.Option.{option_map};
ghost use Rattle.marble_marks.specs.AnsweredLines.{asked_in};
ghost use Rattle.marble_marks.specs.Homes.{home_in, home_put, home_after, home_of, name_by};

use crate::answered::AnsweredLine;
use crate::mark::Kind;
use crate::reply::Reply;
use script_commands::{Command, Joiner, NameHash};
use std::alloc::{AllocError, Global};
use std::collections::HashMap;

/// The flow of each emission that was accepted or dropped at once.
#[derive(Drop)]
pub(crate) struct Homes<'a> {
    noted: HashMap<&'a [u8], &'a [u8], NameHash>,
}

/// The emission that a line finishes at once, if it does, and its flow.
fn home_in<'a>(answered: &AnsweredLine<'a>) -> Option<(&'a [u8], &'a [u8])>
    ensures { option_map (λ home. (home.0.now, home.1.now)) result ≡ home_in (asked_in answered.now) }
{
    match answered.command {
        Some(
            Command::Join {
                host,
                name,
                joiner: Joiner::Emission(_),
            },
        ) => match Reply::of(answered.answer) {
            Reply::Accepted | Reply::Dropped => Some((name, host)),
            _ => None,
        },
        _ => None,
    }
}

impl<'a> Homes<'a> {
    /// Of no emission. Names are hashed so.
    pub(crate) fn new(alloc: Global, hash: NameHash) -> Homes<'a>
        ensures { (ticket : List ℕ) → home_of result ticket ≡ None }
    {
        Homes {
            noted: HashMap::with_hasher(alloc, hash),
        }
    }

    /// Notes the flow of an emission.
    fn put(&mut self, ticket: &'a [u8], host: &'a [u8]) -> Result<(), AllocError>
        ensures { OnOk result ((other : List ℕ) → home_of self.new other ≡ home_put (home_of self.old other) other (Some (ticket.entry.now, host.entry.now))) }
    {
        self.noted.insert(ticket, host)?;
        Ok(())
    }

    /// Notes what a line finishes at once.
    pub(crate) fn note(&mut self, answered: &AnsweredLine<'a>) -> Result<(), AllocError>
        ensures { OnOk result ((ticket : List ℕ) → home_of self.new ticket ≡ home_after (home_of self.old ticket) ticket (asked_in answered.now)) }
    {
        match home_in(answered) {
            Some((ticket, host)) => self.put(ticket, host),
            None => Ok(()),
        }
    }

    /// The name on whose row something of a name is shown.
    pub(crate) fn name(&self, name: &'a [u8], kind: Kind) -> &'a [u8]
        ensures { result.now ≡ name_by (home_of self.now name.now) name.now kind }
    {
        match kind {
            Kind::Gone => self.noted.get(name).copied().unwrap_or(name),
            _ => name,
        }
    }
}
