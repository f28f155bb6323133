//! Numbers in decimal, added to a text.

ghost use Rattle.std.specs.Prelude.{◌≡◌, ◌≤◌, ◌++◌, OnOk, length, drop, flat_map, decimal};
ghost use Rattle.script_commands.specs.Listings.{next_item};

use itoa::{Buffer, write_digits};
use std::alloc::AllocError;

/// How many values of a list are put together before they are added to a text.
pub(crate) const BATCH: usize = 64;

/// The most bytes of so many values, each after a comma.
const BATCH_BYTES: usize = 1344;

/// Adds a number.
pub(crate) fn add_decimal(text: &mut Vec<u8>, number: u64) -> Result<(), AllocError>
    ensures { OnOk result (text.new.items ≡ text.old.items ++ decimal number) }
{
    let mut buffer = Buffer::new();
    text.extend_from_slice(buffer.format(number).as_bytes())
}

/// Adds a word and a number.
pub(crate) fn add_counted(text: &mut Vec<u8>, word: &[u8], number: u64) -> Result<(), AllocError>
    ensures { OnOk result (text.new.items ≡ text.old.items ++ (word.now ++ decimal number)) }
{
    text.extend_from_slice(word)?;
    add_decimal(text, number)
}

/// Writes values, each after a comma, so that they end where the bytes end, and says where they begin.
fn put_items(values: &[u64], bytes: &mut [u8; BATCH_BYTES]) -> usize
    requires { length values.now ≤ 64 }
    ensures within { result ≤ 1344 }
    ensures items { drop result bytes.new ≡ flat_map next_item values.now }
{
    let mut start = BATCH_BYTES;
    let mut left = values.len();
    while left > 0 {
        left -= 1;
        start = write_digits(values[left], bytes, start) - 1;
        bytes[start] = b',';
    }
    start
}

/// Adds values, at most as many as are put together at once, each after a comma.
pub(crate) fn add_items(text: &mut Vec<u8>, values: &[u64]) -> Result<(), AllocError>
    requires { length values.now ≤ 64 }
    ensures { OnOk result (text.new.items ≡ text.old.items ++ flat_map next_item values.now) }
{
    let mut bytes = [0; BATCH_BYTES];
    let start = put_items(values, &mut bytes);
    text.extend_from_slice(&bytes[start..])
}
