//! The values of preludes.
//!
//! The first values that a subscription with a prelude receives are of it, as many as it has.

ghost use Rattle.std.specs.Prelude.{◌≡◌, ℕ, List, IfOk, OnOk, bytes_eq, if◌then◌else◌};
ghost use Rattle.std.specs.Option.{option_map};
ghost use Rattle.marble_marks.specs.AnsweredLines.{asked_in};
ghost use Rattle.marble_marks.specs.Preludes.{greeted_in, left_put, left_received, left_of, kind_by};

use crate::answered::AnsweredLine;
use crate::mark::Kind;
use crate::reply::Reply;
use script_commands::{Command, Joiner, NameHash};
use std::alloc::{AllocError, Global};
use std::collections::HashMap;

/// How many values of its prelude each subscription that has one has still to take.
#[derive(Drop)]
pub(crate) struct Preludes<'a> {
    left: HashMap<&'a [u8], usize, NameHash>,
}

/// The subscription that begins with a prelude by a line, if one does, and how many values that has.
fn greeted_in<'a>(answered: &AnsweredLine<'a>) -> Option<(&'a [u8], usize)>
    ensures { option_map (λ greeted. (greeted.0.now, greeted.1)) result ≡ greeted_in (asked_in answered.now) }
{
    match answered.command {
        Some(
            Command::Join {
                name,
                joiner: Joiner::Subscription(prelude),
                ..
            },
        ) => match Reply::of(answered.answer) {
            Reply::Ok => {
                let count = prelude.count();
                if count == 0 {
                    None
                } else {
                    Some((name, count))
                }
            }
            _ => None,
        },
        _ => None,
    }
}

impl<'a> Preludes<'a> {
    /// Of no subscription. Names are hashed so.
    pub(crate) fn new(alloc: Global, hash: NameHash) -> Preludes<'a>
        ensures { (name : List ℕ) → left_of result name ≡ 0 }
    {
        Preludes {
            left: HashMap::with_hasher(alloc, hash),
        }
    }

    /// Notes how many values are left to a subscription.
    fn put(&mut self, name: &'a [u8], count: usize) -> Result<(), AllocError>
        ensures { OnOk result ((other : List ℕ) → left_of self.new other ≡ left_put (left_of self.old other) other (Some (name.entry.now, count))) }
    {
        self.left.insert(name, count)?;
        Ok(())
    }

    /// Notes the prelude that a subscription begins with by a line.
    pub(crate) fn greet(&mut self, answered: &AnsweredLine<'a>) -> Result<(), AllocError>
        ensures { OnOk result ((name : List ℕ) → left_of self.new name ≡ left_put (left_of self.old name) name (greeted_in (asked_in answered.now))) }
    {
        match greeted_in(answered) {
            Some((name, count)) => self.put(name, count),
            None => Ok(()),
        }
    }

    /// How many values are left to a subscription. Where none has any, no name is hashed.
    fn left(&self, name: &[u8]) -> usize
        ensures { result ≡ left_of self.now name.now }
    {
        if self.left.is_empty() {
            return 0;
        }
        self.left.get(name).copied().unwrap_or(0)
    }

    /// What is shown of a name that shows this by its answer alone: a value that is received is one of its prelude, while it has any
    /// left, and is taken.
    pub(crate) fn take(&mut self, name: &'a [u8], kind: Kind) -> Result<Kind, AllocError>
        ensures kind { IfOk result (λ shown. shown ≡ kind_by (left_of self.old name.entry.now) kind) }
        ensures left { OnOk result ((other : List ℕ) → left_of self.new other ≡ (if bytes_eq name.entry.now other then left_received (left_of self.old other) kind else left_of self.old other)) }
    {
        let Kind::Received(value) = kind else {
            return Ok(kind);
        };
        let left = self.left(name);
        if left == 0 {
            return Ok(kind);
        }
        self.put(name, left - 1)?;
        Ok(Kind::FromPrelude(value))
    }
}
