//! The forms of a word: numbers, names and policies.

ghost use Rattle.std.specs.Prelude.{◌≡◌, ◌≤◌, ◌+◌, ◌*◌, ◌-◌, Some};
ghost use Rattle.script_words.specs.Fields.{number_of, is_name, are_name_bytes, below_limit, policy_of, expiry_of};

use flow_terms::Policy;

/// The most digits of a number.
const MOST_DIGITS: usize = 20;

/// The most bytes of a name.
const MOST_NAME_BYTES: usize = 16;

/// The number with one more digit at its end, where it is below 2^64.
fn with_digit(number: u64, digit: u8) -> Option<u64>
    requires { 48 ≤ digit }
    ensures { result ≡ below_limit (Some (number * 10 + (digit - 48))) }
{
    number.checked_mul(10)?.checked_add(u64::from(digit - b'0'))
}

/// The number that a word of one to twenty digits says, where it is below 2^64.
pub fn number_of(word: &[u8]) -> Option<u64>
    ensures { result ≡ number_of word.now }
{
    if word.is_empty() || word.len() > MOST_DIGITS {
        return None;
    }
    let mut number: u64 = 0;
    for digit in word {
        if !digit.is_ascii_digit() {
            return None;
        }
        number = with_digit(number, *digit)?;
    }
    Some(number)
}

fn are_name_bytes(bytes: &[u8]) -> bool
    ensures { result ≡ are_name_bytes bytes.now }
{
    for byte in bytes {
        if !byte.is_ascii_lowercase() && !byte.is_ascii_digit() {
            return false;
        }
    }
    true
}

/// Whether the word is a lower case letter and at most 15 lower case letters or digits.
pub fn is_name(word: &[u8]) -> bool
    ensures { result ≡ is_name word.now }
{
    match word {
        [first, rest @ ..] => {
            first.is_ascii_lowercase() && rest.len() < MOST_NAME_BYTES && are_name_bytes(rest)
        }
        [] => false,
    }
}

/// The policy that a word says.
pub fn policy_of(word: &[u8]) -> Option<Policy>
    ensures { result ≡ policy_of word.now }
{
    if word == b"suspend".as_slice() {
        Some(Policy::Suspend)
    } else if word == b"oldest".as_slice() {
        Some(Policy::DropOldest)
    } else if word == b"latest".as_slice() {
        Some(Policy::DropLatest)
    } else {
        None
    }
}

/// How long after a stop what is shared is reset, as a word says it: a number, or nothing for `never`.
pub fn expiry_of(word: &[u8]) -> Option<Option<u64>>
    ensures { result ≡ expiry_of word.now }
{
    if word == b"never".as_slice() {
        return Some(None);
    }
    let number = number_of(word)?;
    Some(Some(number))
}
