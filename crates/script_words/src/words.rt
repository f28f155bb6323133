//! The words of a line.

ghost use Rattle.std.specs.Prelude.{◌≡◌, ◌∷◌, [], IfSome, IsNone, OnSome, position};
ghost use Rattle.std.specs.Option.{option_map};
ghost use Rattle.flow_terms.specs.declared.started.Started.TheVariants.{WhileSubscribed};
ghost use Rattle.script_words.specs.Cuts.{LeavesEnd};
ghost use Rattle.script_words.specs.Lines.{words_of, is_space, is_no_space};
ghost use Rattle.script_words.specs.Words.{name_at, number_at, policy_at, expiry_at, while_at, ended};

use crate::fields::{expiry_of, is_name, number_of, policy_of};
use flow_terms::Policy;

/// What is left of a line, taken word by word.
#[derive(Clone, Copy)]
pub struct Words<'a> {
    /// The bytes that are left.
    pub rest: &'a [u8],
}

/// Where the first space stands.
fn space_at(bytes: &[u8]) -> Option<usize>
    ensures { result ≡ position is_space bytes.now }
{
    bytes.iter().position(|byte| *byte == b' ')
}

/// Where the first byte stands that is no space.
fn word_at(bytes: &[u8]) -> Option<usize>
    ensures { result ≡ position is_no_space bytes.now }
{
    bytes.iter().position(|byte| *byte != b' ')
}

impl<'a> Words<'a> {
    /// The words of a whole line.
    pub fn new(line: &'a [u8]) -> Words<'a>
        ensures { result.rest.now ≡ line.now }
    {
        Words { rest: line }
    }

    /// The next word.
    pub fn next(&mut self) -> Option<&'a [u8]>
        ensures none { IsNone result → words_of self.old.rest.now ≡ [] }
        ensures some { IfSome result (λ word. words_of self.old.rest.now ≡ word.now ∷ words_of self.new.rest.now) }
        ensures between { OnSome result (LeavesEnd self.old.rest.now self.new.rest.now) }
    {
        let rest = self.rest;
        let Some(start) = word_at(rest) else {
            return None;
        };
        let (_, rest) = rest.split_at(start);
        match space_at(rest) {
            Some(end) => {
                let (word, rest) = rest.split_at(end);
                self.rest = rest;
                Some(word)
            }
            None => {
                self.rest = &[];
                Some(rest)
            }
        }
    }

    /// Takes a word that is a name.
    pub fn name(&mut self) -> Option<&'a [u8]>
        ensures { option_map (λ name. (name.now, words_of self.new.rest.now)) result ≡ name_at (words_of self.old.rest.now) }
    {
        let word = self.next()?;
        if is_name(word) { Some(word) } else { None }
    }

    /// Takes a word that is a number.
    pub fn number(&mut self) -> Option<u64>
        ensures { option_map (λ number. (number, words_of self.new.rest.now)) result ≡ number_at (words_of self.old.rest.now) }
    {
        let word = self.next()?;
        number_of(word)
    }

    /// Takes a word that says a policy.
    pub fn policy(&mut self) -> Option<Policy>
        ensures { option_map (λ policy. (policy, words_of self.new.rest.now)) result ≡ policy_at (words_of self.old.rest.now) }
    {
        let word = self.next()?;
        policy_of(word)
    }

    /// Takes a word that is a number or `never`.
    fn expiry(&mut self) -> Option<Option<u64>>
        ensures { option_map (λ expiry. (expiry, words_of self.new.rest.now)) result ≡ expiry_at (words_of self.old.rest.now) }
    {
        let word = self.next()?;
        expiry_of(word)
    }

    /// Takes the two words after `while`: how long after the last subscription it stops, and how long after that it resets.
    pub(crate) fn spans(&mut self) -> Option<(u64, Option<u64>)>
        ensures { option_map (λ spans. (WhileSubscribed spans.0 spans.1, words_of self.new.rest.now)) result ≡ while_at (words_of self.old.rest.now) }
    {
        let stop = self.number()?;
        let expire = self.expiry()?;
        Some((stop, expire))
    }

    /// Nothing where a word is left.
    pub fn end(&mut self) -> Option<()>
        ensures { option_map (λ _. tt) result ≡ ended (words_of self.old.rest.now) }
    {
        match self.next() {
            Some(_) => None,
            None => Some(()),
        }
    }
}
