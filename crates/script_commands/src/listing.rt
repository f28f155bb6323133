//! A list of values, as an answer shows it.

ghost use Rattle.std.specs.Prelude.{◌≡◌, ◌++◌, Some, OnOk};
ghost use Rattle.script_commands.specs.Listings.{listing};

use crate::decimals::{BATCH, add_counted, add_items};
use std::alloc::AllocError;
use std::fmt;
use std::marker::Model;

/// Shows values as a list, with commas between. Contracts see the values.
#[derive(Drop)]
pub struct Listing {
    values: Vec<u64>,
}

impl Model for Listing {
    ghost use Rattle.std.specs.Prelude.{List, ℕ};

    ghost Value = { List ℕ };

    ghost view = { λ l. l.values.items };
}

impl Listing {
    /// Shows these values.
    pub fn new(values: Vec<u64>) -> Listing
        ensures { result ≡ values.items }
    {
        Listing { values }
    }

    /// Adds what the list shows to a text.
    pub(crate) fn add_to(&self, text: &mut Vec<u8>) -> Result<(), AllocError>
        ensures { OnOk result (text.new.items ≡ text.old.items ++ listing self.now) }
    {
        let [first, rest @ ..] = self.values.as_slice() else {
            return text.extend_from_slice(b"[]");
        };
        add_counted(text, b"[", *first)?;
        let mut left = rest;
        while !left.is_empty() {
            let (batch, others) = left.split_at(left.len().min(BATCH));
            add_items(text, batch)?;
            left = others;
        }
        text.push(b']')?;
        Ok(())
    }
}

impl fmt::Display for Listing {
    ghost output = { λ values. Some (listing values) };

    fn fmt<W: fmt::Write>(&self, f: &mut fmt::Formatter<W>) -> fmt::Result {
        let [first, rest @ ..] = self.values.as_slice() else {
            return write!(f, "[]");
        };
        write!(f, "[{first}")?;
        for value in rest {
            write!(f, ",{value}")?;
        }
        write!(f, "]")
    }
}
