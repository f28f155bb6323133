//! What is noted of names first.

ghost use Rattle.std.specs.Prelude.{◌≡◌, ℕ, List, None, OnOk, bytes_eq, is_some, true, false};
ghost use Rattle.marble_marks.specs.Firsts.{noted_of, first};

use script_commands::NameHash;
use std::alloc::{AllocError, Global};
use std::collections::HashMap;

/// A number for each of some names: the first that was noted of it.
#[derive(Drop)]
pub(crate) struct Firsts<'a> {
    noted: HashMap<&'a [u8], usize, NameHash>,
}

impl<'a> Firsts<'a> {
    /// Nothing is noted. Names are hashed so.
    pub(crate) fn new(alloc: Global, hash: NameHash) -> Firsts<'a>
        ensures { (name : List ℕ) → noted_of result name ≡ None }
    {
        Firsts {
            noted: HashMap::with_hasher(alloc, hash),
        }
    }

    /// Notes a number of a name that has none.
    pub(crate) fn note(&mut self, name: &'a [u8], number: usize) -> Result<(), AllocError>
        ensures { OnOk result ((other : List ℕ) → noted_of self.new other ≡ first (noted_of self.old other) (bytes_eq name.entry.now other) number) }
    {
        if self.noted.contains_key(name) {
            return Ok(());
        }
        self.noted.insert(name, number)?;
        Ok(())
    }

    /// Notes a number of a name that has none here, if it has one there.
    pub(crate) fn note_known(
        &mut self,
        known: &Firsts<'_>,
        name: &'a [u8],
        number: usize,
    ) -> Result<(), AllocError>
        ensures noted { OnOk result ((other : List ℕ) → is_some (noted_of known.now other) ≡ true → noted_of self.new other ≡ first (noted_of self.old other) (bytes_eq name.entry.now other) number) }
        ensures unknown { OnOk result (is_some (noted_of known.now name.entry.now) ≡ false → (other : List ℕ) → noted_of self.new other ≡ noted_of self.old other) }
    {
        if known.get(name).is_none() {
            return Ok(());
        }
        self.note(name, number)
    }

    /// The number that was noted of a name.
    pub(crate) fn get(&self, name: &[u8]) -> Option<usize>
        ensures { result ≡ noted_of self.now name.now }
    {
        self.noted.get(name).copied()
    }
}
