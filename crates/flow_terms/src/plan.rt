//! A plan of commands for a sharing.
ghost use Rattle.std.specs.Prelude.{◌≡◌, ◌↔◌, ◌<◌, slice_get, IsOk, IsTrue, IfOk, IfErr, IfSome};
ghost use Rattle.std.specs.List.{list_all};
ghost use Rattle.flow_terms.specs.declared.refusal.Refusal.TheVariants.{BadPlan};
ghost use Rattle.flow_terms.specs.Plans.{entries_of, is_entry, is_plan};

use crate::command::Command;
use crate::refusal::Refusal;

// The most entries of a plan.
const MOST_ENTRIES: usize = 32;

// What stands where a plan has no entry.
const NO_ENTRY: Entry = Entry {
    at: 0,
    low: 0,
    high: 0,
    command: Command::Stop,
};

/// One command of a plan, and which poll takes it: one at the moment `at` or later, in milliseconds, which finds from
/// `low` to `high` subscriptions.
#[derive(Clone, Copy, Debug, PartialEq, Eq)]
pub struct Entry {
    /// The first moment at which it may be taken.
    pub at: u64,
    /// The fewest subscriptions.
    pub low: u32,
    /// The most subscriptions.
    pub high: u32,
    /// What it commands.
    pub command: Command,
}

/// Commands that are taken in their order, at most one in a poll: a sharing strategy of a caller's own, as Kotlin's
/// `SharingStarted { }` makes one. It takes no memory.
#[derive(Clone, Copy, Debug, PartialEq, Eq)]
pub struct Plan {
    entries: [Entry; MOST_ENTRIES],
    count: usize,
}

// Whether some count of subscriptions takes each of them.
fn are_entries(entries: &[Entry]) -> bool
    ensures { result ≡ list_all is_entry entries.now }
{
    entries.iter().all(|entry| entry.low <= entry.high)
}

impl Plan {
    /// The plan of these entries. One without entries never shares.
    ///
    /// Refused as `BadPlan` where there are over 32, or where an entry has a `low` above its `high`.
    pub fn of(entries: &[Entry]) -> Result<Plan, Refusal>
        ensures plan { IfOk result (λ plan. entries_of plan ≡ entries.now) }
        ensures fits { IsOk result ↔ IsTrue (is_plan entries.now) }
        ensures refused { IfErr result (λ refusal. refusal ≡ BadPlan) }
    {
        if entries.len() > MOST_ENTRIES || !are_entries(entries) {
            return Err(Refusal::BadPlan);
        }
        let mut kept = [NO_ENTRY; MOST_ENTRIES];
        kept[..entries.len()].copy_from_slice(entries);
        Ok(Plan {
            entries: kept,
            count: entries.len(),
        })
    }

    /// The entry that is taken after so many others, if there is one.
    pub fn entry(&self, index: usize) -> Option<Entry>
        ensures entry { result ≡ slice_get (entries_of self.now) index }
        ensures few { IfSome result (λ _. index < 32) }
    {
        if index < self.count {
            self.entries.get(index).copied()
        } else {
            None
        }
    }
}
