//! Lists of a script: each is one word, items with commas between.

ghost use Rattle.std.specs.Prelude.{◌≡◌, [], IfOk};
ghost use Rattle.std.specs.Option.{option_map};
ghost use Rattle.script_commands.specs.Items.{item_of, is_list, items_in, items_of, written, step_in, steps_in, steps_of};

use cold_flow::Step;
use script_words::number_of;
use std::alloc::{AllocError, Global};

/// An item of a list.
#[derive(Clone, Copy)]
pub enum Item {
    /// A value.
    Number(u64),
    /// One pending answer: `p`.
    Pending,
}

impl Item {
    /// The item that a part of a list says.
    pub fn of(word: &[u8]) -> Option<Item>
        ensures { result ≡ item_of word.now }
    {
        if word == b"p".as_slice() {
            return Some(Item::Pending);
        }
        let number = number_of(word)?;
        Some(Item::Number(number))
    }

    /// What a run of the list does at this item.
    fn step(self) -> Step<u64, u64>
        ensures { result ≡ step_in self }
    {
        match self {
            Item::Number(number) => Step::Value(number),
            Item::Pending => Step::Pending,
        }
    }
}

/// Whether each part of a word is an item.
fn is_list(word: &[u8]) -> bool
    ensures { result ≡ is_list word.now }
{
    word.split(|byte| *byte == b',')
        .all(|part| Item::of(part).is_some())
}

/// The steps of a list.
fn steps_of(alloc: Global, word: &[u8]) -> Result<Vec<Step<u64, u64>>, AllocError>
    ensures { IfOk result (λ steps. steps.items ≡ steps_in (items_in word.now)) }
{
    word.split(|byte| *byte == b',')
        .filter_map(|part| Item::of(part))
        .map(|item| item.step())
        .collect(alloc)
}

/// The items of a list, which are read where they are wanted.
#[derive(Clone, Copy)]
pub struct Items<'a> {
    // A word that is a list, or nothing where no list was written.
    word: Option<&'a [u8]>,
}

impl<'a> Items<'a> {
    /// No items.
    pub fn none() -> Items<'a>
        ensures { written result ≡ [] }
    {
        Items { word: None }
    }

    /// The items of a word that is a list.
    pub fn of(word: &'a [u8]) -> Option<Items<'a>>
        ensures { option_map written result ≡ items_of word.now }
    {
        if is_list(word) {
            Some(Items { word: Some(word) })
        } else {
            None
        }
    }

    /// One step for each item, and the failure after them, if there is one.
    pub fn steps(self, alloc: Global, fault: Option<u64>) -> Result<Vec<Step<u64, u64>>, AllocError>
        ensures { IfOk result (λ steps. steps.items ≡ steps_of (written self.entry) fault) }
    {
        let mut steps = match self.word {
            Some(word) => steps_of(alloc, word)?,
            None => Vec::new(alloc),
        };
        if let Some(fault) = fault {
            steps.reserve(1)?;
            steps.push_reserved(Step::Fail(fault));
        }
        Ok(steps)
    }
}
