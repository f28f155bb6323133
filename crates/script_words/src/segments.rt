//! The segments of a pipe: its source and its stages, between bars.

ghost use Rattle.std.specs.Prelude.{◌≡◌, ◌∷◌, [], IsNone, IfSome};
ghost use Rattle.script_words.specs.Lines.{words_of};
ghost use Rattle.script_words.specs.Segments.{is_bar, segments_of, after_bar, segments_left};

use crate::words::Words;

/// Whether a word is a bar.
fn is_bar(word: &[u8]) -> bool
    ensures { result ≡ is_bar word.now }
{
    word == b"|".as_slice()
}

/// The words before the first bar, and those after it where there is one.
fn cut<'a>(words: Words<'a>) -> (Words<'a>, Option<Words<'a>>)
    ensures { segments_of (words_of words.entry.rest.now) ≡ words_of result.0.rest.now ∷ after_bar result.1 }
{
    let mut left = words;
    let mut rest = words;
    while let Some(word) = rest.next() {
        if is_bar(word) {
            let (front, _) = words.rest.split_at(words.rest.len() - left.rest.len());
            return (Words::new(front), Some(rest));
        }
        left = rest;
    }
    (words, None)
}

/// What is left of a pipe, taken segment by segment.
#[derive(Clone, Copy)]
pub struct Segments<'a> {
    // The words after the last bar that was passed; nothing after the last segment.
    rest: Option<Words<'a>>,
}

impl<'a> Segments<'a> {
    /// The segments of these words, of which there is at least one.
    pub fn new(words: Words<'a>) -> Segments<'a>
        ensures { segments_left result ≡ segments_of (words_of words.entry.rest.now) }
    {
        Segments { rest: Some(words) }
    }

    /// The words of the next segment.
    pub fn next(&mut self) -> Option<Words<'a>>
        ensures none { IsNone result → segments_left self.old ≡ [] }
        ensures some { IfSome result (λ words. segments_left self.old ≡ words_of words.rest.now ∷ segments_left self.new) }
    {
        let (segment, rest) = cut(self.rest?);
        self.rest = rest;
        Some(segment)
    }
}
