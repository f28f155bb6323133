//! When a source is collected, as a line says it.

ghost use Rattle.std.specs.Prelude.{◌≡◌, ◌↔◌, ◌<◌, Some, None, IsOk, IsTrue, IfOk, IfErr, IfSome, length, position, slice_get};
ghost use Rattle.std.specs.Option.{option_map};
ghost use Rattle.flow_terms.specs.declared.refusal.Refusal.TheVariants.{BadPlan};
ghost use Rattle.flow_terms.specs.Plans.{entries_of, is_plan};
ghost use Rattle.script_words.specs.Lines.{words_of};
ghost use Rattle.script_words.specs.Starts.{starting_in, starting_at, start_refusal, StartsAs};
ghost use Rattle.script_words.specs.Plans.{is_colon, cut, number_field, count_field, command_of, entry_of, are_entries, entries_in, entries_written, entries_at};

use crate::fields::number_of;
use crate::words::Words;
use flow_terms::{Command, Entry, Plan, Refusal, Started};

// More entries make no plan.
const MOST_ENTRIES: usize = 32;

// What stands where no entry was read.
const NO_ENTRY: Entry = Entry {
    at: 0,
    low: 0,
    high: 0,
    command: Command::Stop,
};

/// Where the first colon stands.
fn colon_at(word: &[u8]) -> Option<usize>
    ensures at { result ≡ position is_colon word.now }
    ensures within { IfSome result (λ at. at < length word.now) }
{
    word.iter().position(|byte| *byte == b':')
}

/// What stands before the first colon, and after it.
fn cut<'a>(word: &'a [u8]) -> Option<(&'a [u8], &'a [u8])>
    ensures { option_map (λ parts. (parts.0.now, parts.1.now)) result ≡ cut word.now }
{
    let at = colon_at(word)?;
    let (field, _) = word.split_at(at);
    let (_, rest) = word.split_at(at + 1);
    Some((field, rest))
}

/// The number before the first colon, and what stands after it.
#[tactic(auto, unfolding(crate::specs::Plans::number_field))]
fn number_field<'a>(word: &'a [u8]) -> Option<(u64, &'a [u8])>
    ensures { option_map (λ field. (field.0, field.1.now)) result ≡ number_field word.now }
{
    let (field, rest) = cut(word)?;
    let number = number_of(field)?;
    Some((number, rest))
}

/// The count before the first colon, which is below 2^32, and what stands after it.
#[tactic(auto, unfolding(crate::specs::Plans::count_field))]
fn count_field<'a>(word: &'a [u8]) -> Option<(u32, &'a [u8])>
    ensures { option_map (λ field. (field.0, field.1.now)) result ≡ count_field word.now }
{
    let (number, rest) = number_field(word)?;
    if number < 1 << 32 {
        Some((number as u32, rest))
    } else {
        None
    }
}

/// The command that a word says.
fn command_of(word: &[u8]) -> Option<Command>
    ensures { result ≡ command_of word.now }
{
    if word == b"start".as_slice() {
        Some(Command::Start)
    } else if word == b"stop".as_slice() {
        Some(Command::Stop)
    } else if word == b"clear".as_slice() {
        Some(Command::StopAndReset)
    } else {
        None
    }
}

/// The entry that a part of a plan says: `AT:LOW:HIGH:WORD`.
#[tactic(auto, unfolding(crate::specs::Plans::entry_of))]
fn entry_of(word: &[u8]) -> Option<Entry>
    ensures { result ≡ entry_of word.now }
{
    let (at, rest) = number_field(word)?;
    let (low, rest) = count_field(rest)?;
    let (high, rest) = count_field(rest)?;
    let command = command_of(rest)?;
    Some(Entry {
        at,
        low,
        high,
        command,
    })
}

/// Whether each part of a word is an entry.
fn are_entries(word: &[u8]) -> bool
    ensures { result ≡ are_entries word.now }
{
    word.split(|byte| *byte == b',')
        .all(|part| entry_of(part).is_some())
}

/// The entries of a plan, which are read where they are wanted.
#[derive(Clone, Copy)]
pub struct Entries<'a> {
    // A word that says a list of entries.
    word: &'a [u8],
}

impl<'a> Entries<'a> {
    /// The entries that a word says.
    pub fn of(word: &'a [u8]) -> Option<Entries<'a>>
        ensures { option_map (λ entries. entries_written entries) result ≡ entries_at word.now }
    {
        if are_entries(word) {
            Some(Entries { word })
        } else {
            None
        }
    }
}

/// How many entries a word says.
fn count_in(word: &[u8]) -> usize
    ensures { result ≡ length (entries_in word.now) }
{
    word.split(|byte| *byte == b',')
        .filter_map(|part| entry_of(part))
        .count()
}

/// The entry with this index of those that a word says.
fn entry_at(word: &[u8], index: usize) -> Option<Entry>
    ensures { result ≡ slice_get (entries_in word.now) index }
{
    word.split(|byte| *byte == b',')
        .filter_map(|part| entry_of(part))
        .nth(index)
}

impl<'a> Entries<'a> {
    /// Their plan. Refused as `BadPlan` where they make none. Takes no memory.
    pub fn plan(self) -> Result<Plan, Refusal>
        ensures plan { IfOk result (λ plan. entries_of plan ≡ entries_written self.entry) }
        ensures fits { IsOk result ↔ IsTrue (is_plan (entries_written self.entry)) }
        ensures refused { IfErr result (λ refusal. refusal ≡ BadPlan) }
    {
        let count = count_in(self.word);
        if count > MOST_ENTRIES {
            return Err(Refusal::BadPlan);
        }
        let mut entries = [NO_ENTRY; MOST_ENTRIES];
        for index in 0..count {
            entries[index] = entry_at(self.word, index).unwrap_or(NO_ENTRY);
        }
        Plan::of(&entries[..count])
    }
}

/// When a source is collected, as a line says it. A plan is read where it is wanted, so that a command stays small.
#[derive(Clone, Copy)]
pub enum Start<'a> {
    /// From the first poll on: `eager`.
    Eager,
    /// From the first poll that counts anybody: `lazy`.
    Lazy,
    /// While anybody is counted, and for a while after: `while STOP EXPIRE`.
    While { stop: u64, expire: Option<u64> },
    /// As these entries command: `plan ITEMS`.
    Plan(Entries<'a>),
}

impl<'a> Start<'a> {
    /// Takes the words that say when a source is collected.
    pub fn take(words: &mut Words<'a>) -> Option<Start<'a>>
        ensures { option_map (λ start. (starting_in start, words_of words.new.rest.now)) result ≡ starting_at (words_of words.old.rest.now) }
    {
        let first = words.next()?;
        if first == b"plan".as_slice() {
            let word = words.next()?;
            let entries = Entries::of(word)?;
            Some(Start::Plan(entries))
        } else if first == b"eager".as_slice() {
            Some(Start::Eager)
        } else if first == b"lazy".as_slice() {
            Some(Start::Lazy)
        } else if first == b"while".as_slice() {
            let (stop, expire) = words.spans()?;
            Some(Start::While { stop, expire })
        } else {
            None
        }
    }

    /// What it says. Refused as `BadPlan` where the entries make no plan.
    pub fn started(self) -> Result<Started, Refusal>
        ensures started { IfOk result (λ started. (start_refusal (starting_in self.entry) ≡ None) × StartsAs (starting_in self.entry) started) }
        ensures refused { IfErr result (λ refusal. start_refusal (starting_in self.entry) ≡ Some refusal) }
    {
        match self {
            Start::Eager => Ok(Started::Eagerly),
            Start::Lazy => Ok(Started::Lazily),
            Start::While { stop, expire } => Ok(Started::WhileSubscribed { stop, expire }),
            Start::Plan(entries) => Ok(Started::Custom(entries.plan()?)),
        }
    }
}
