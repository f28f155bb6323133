//! Why a line of a script is bad.

ghost use Rattle.std.specs.Prelude.{◌≡◌};
ghost use Rattle.script_commands.specs.Commands.{forms};
ghost use Rattle.script_commands.specs.Reasons.{sentence_of, has_keyword, against_words};

/// Why a line is bad: the first thing that is wrong of it.
#[derive(Clone, Copy)]
pub enum Reason {
    /// It has more than 1,024 bytes.
    TooLong,
    /// Its first word is no command.
    NoCommand,
    /// What stands after its first word isn't what that command takes.
    Words,
    /// The name that it asks, or that is to be joined, stands for nothing.
    Unbound,
    /// The name that it is to bind stands for something already.
    Bound,
    /// The name stands for something that doesn't know the command.
    OtherKind,
}

impl Reason {
    /// Why no command comes of words of which this is the first.
    #[tactic(auto, unfolding(crate::specs::Reasons::against_words))]
    pub fn of_words(first: &[u8]) -> Reason
        ensures { result ≡ against_words first.now }
    {
        if is_keyword(first) {
            Reason::Words
        } else {
            Reason::NoCommand
        }
    }

    /// The reason as a sentence.
    pub fn sentence(self) -> &'static str
        ensures { result.now ≡ sentence_of self }
    {
        match self {
            Reason::TooLong => "it has more than 1,024 bytes",
            Reason::NoCommand => "its first word is no command",
            Reason::Words => "what stands after its first word isn't what that command takes",
            Reason::Unbound => "the name that it needs stands for nothing",
            Reason::Bound => "its new name stands for something already",
            Reason::OtherKind => "the name that it needs stands for something of another kind",
        }
    }
}

/// Whether a command has this first word.
fn is_keyword(first: &[u8]) -> bool
    ensures { result ≡ has_keyword forms first.now }
{
    first == b"shared".as_slice()
        || first == b"state".as_slice()
        || first == b"buffer".as_slice()
        || first == b"share".as_slice()
        || first == b"stated".as_slice()
        || first == b"cold".as_slice()
        || first == b"sub".as_slice()
        || first == b"collect".as_slice()
        || first == b"emit".as_slice()
        || first == b"next".as_slice()
        || first == b"cancel".as_slice()
        || first == b"count".as_slice()
        || first == b"cache".as_slice()
        || first == b"reset".as_slice()
        || first == b"fill".as_slice()
        || first == b"poll".as_slice()
        || first == b"withdraw".as_slice()
        || first == b"value".as_slice()
        || first == b"try".as_slice()
        || first == b"set".as_slice()
        || first == b"cas".as_slice()
        || first == b"tick".as_slice()
}
