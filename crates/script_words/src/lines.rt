//! The lines of a script.

ghost use Rattle.std.specs.Prelude.{◌≡◌, ◌∷◌, ◌<◌, [], length, IfSome, IsNone, OnSome, position};
ghost use Rattle.script_words.specs.Lines.{lines_of, without_return, is_newline};

/// What is left of a script, taken line by line.
#[derive(Clone, Copy)]
pub struct Lines<'a> {
    /// The bytes that are left.
    pub rest: &'a [u8],
}

/// The line without one carriage return at its end.
fn without_return(line: &[u8]) -> &[u8]
    ensures { result.now ≡ without_return line.now }
{
    if !line.is_empty() && line[line.len() - 1] == b'\r' {
        &line[..line.len() - 1]
    } else {
        line
    }
}

/// Where the first newline stands.
fn newline_at(bytes: &[u8]) -> Option<usize>
    ensures { result ≡ position is_newline bytes.now }
{
    bytes.iter().position(|byte| *byte == b'\n')
}

impl<'a> Lines<'a> {
    /// The lines of a whole script.
    pub fn new(script: &'a [u8]) -> Lines<'a>
        ensures { result.rest.now ≡ script.now }
    {
        Lines { rest: script }
    }

    /// The next line without its end.
    pub fn next(&mut self) -> Option<&'a [u8]>
        ensures none { IsNone result → lines_of self.old.rest.now ≡ [] }
        ensures some { IfSome result (λ line. lines_of self.old.rest.now ≡ line.now ∷ lines_of self.new.rest.now) }
        ensures shorter { OnSome result (length self.new.rest.now < length self.old.rest.now) }
    {
        let rest = self.rest;
        if rest.is_empty() {
            return None;
        }
        match newline_at(rest) {
            Some(end) => {
                let (line, _) = rest.split_at(end);
                let (_, rest) = rest.split_at(end + 1);
                self.rest = rest;
                Some(without_return(line))
            }
            None => {
                self.rest = &[];
                Some(rest)
            }
        }
    }
}
