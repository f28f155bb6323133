//! What the shared flows of a script stand on.

ghost use Rattle.std.specs.Prelude.{◌≡◌};
ghost use Rattle.script_words.specs.Engines.{engine_of};

/// What the shared flows of a script stand on. With memory a script has the same answers with either.
#[derive(Clone, Copy, Debug, PartialEq, Eq)]
pub enum Engine {
    /// `core`: each is a flow on one thread.
    Core,
    /// `lane`: each is a flow for threads, on a lane.
    Lane,
}

impl Engine {
    /// The engine of this name.
    pub fn named(word: &str) -> Option<Engine>
        ensures { result ≡ engine_of word.now }
    {
        match word {
            "core" => Some(Engine::Core),
            "lane" => Some(Engine::Lane),
            _ => None,
        }
    }
}
