//! Pictures that were laid out by hand.

use marble_marks::{Said, marks};
use marble_pictures::{svg_picture, text_picture};
use script_commands::{Answer, NameHash};
use std::alloc::{AllocError, AllocGlobal, Global};
use std::random::RandomSource;
use std::test::Fail;

/// An answer to a line.
#[derive(Clone, Copy)]
enum Told {
    Ok,
    Accepted,
    Dropped,
    Waiting,
    Done,
    Removed,
    Gone,
    Value(u64),
}

/// A script each of whose lines has an answer, and its picture.
#[derive(Clone, Copy)]
struct Drawn {
    script: &'static str,
    answers: &'static [Told],
    picture: &'static str,
}

/// `poll` and `withdraw` of emissions that were accepted or dropped at once are answered on their flow's row.
const AT_ONCE: Drawn = Drawn {
    script: "shared f 0 1 latest
sub f a
emit f e 5
poll e
emit f g 6
withdraw g
next a
",
    answers: &[
        Told::Ok,
        Told::Ok,
        Told::Accepted,
        Told::Gone,
        Told::Dropped,
        Told::Gone,
        Told::Value(5),
    ],
    picture: "        1      2      3      4      5      6      7
flow f  o-------------5#0----gone---/6-----gone----------
sub a          o----------------------------------5------
",
};

/// One that had to wait is answered on its own row, also once it is done.
const WAITED: Drawn = Drawn {
    script: "shared f 0 1 suspend
sub f a
emit f e 1
emit f g 2
next a
poll g
poll g
poll e
",
    answers: &[
        Told::Ok,
        Told::Ok,
        Told::Accepted,
        Told::Waiting,
        Told::Value(1),
        Told::Done,
        Told::Gone,
        Told::Gone,
    ],
    picture: "          1      2      3      4      5      6      7      8
flow f    o-------------1#0-----------<2#1-----------------gone---
sub a            o--------------------1---------------------------
ticket g                       ?2~~~~~~~~~~~~done   gone
",
};

/// What one line accepts stands side by side in its column, less what was taken back; that it is done is told later, on rows of
/// their own.
const TOGETHER: Drawn = Drawn {
    script: "shared f 0 1 suspend
sub f a
try f 1
emit f e 2
emit f g 3
emit f h 4
withdraw g
cancel a
poll h
poll e
",
    answers: &[
        Told::Ok,
        Told::Ok,
        Told::Accepted,
        Told::Waiting,
        Told::Waiting,
        Told::Waiting,
        Told::Removed,
        Told::Ok,
        Told::Done,
        Told::Done,
    ],
    picture: "          1         2         3         4         5         6         7         8         9         10
flow f    o-------------------1#0-----------------------------------------------<2#1<4#2----------------------
sub a               o-----------------------------------------------------------|
ticket e                                ?2~~~~~~~~~~~~~~~~~~~~~~~~~~~~~~~~~~~~~~~~~~~~~~~~~~~~~~~~~~done
ticket g                                          ?3~~~~~~~~~~~~~~~~~~removed
ticket h                                                    ?4~~~~~~~~~~~~~~~~~~~~~~~~~~~~done
",
};

/// The same as SVG: columns are 76 wide, and the middle of the eighth is at 650; the two stand 16 to the left and to the right of it.
const TOGETHER_AS_SVG: &str =
    "<rect class=\"accepted before\" x=\"623\" y=\"55\" width=\"22\" height=\"22\" rx=\"11\"/>
<text class=\"framed\" x=\"634\" y=\"70\">2</text>
<text class=\"number\" x=\"634\" y=\"52\">#1</text>
<rect class=\"accepted before\" x=\"655\" y=\"55\" width=\"22\" height=\"22\" rx=\"11\"/>
<text class=\"framed\" x=\"666\" y=\"70\">4</text>
<text class=\"number\" x=\"666\" y=\"52\">#2</text>
";

/// The values of a prelude have a mark of their own; what the flow gives has not.
const PRELUDE: Drawn = Drawn {
    script: "shared f 1 1 suspend
try f 10
sub f a with 7,8
next a
next a
next a
",
    answers: &[
        Told::Ok,
        Told::Accepted,
        Told::Ok,
        Told::Value(7),
        Told::Value(8),
        Told::Value(10),
    ],
    picture: "        1    2    3    4    5    6
flow f  o----10#0---------------------
sub a             o----+7---+8---10---
",
};

impl Told {
    fn answer(self) -> Answer {
        match self {
            Told::Ok => Answer::Ok,
            Told::Accepted => Answer::Accepted,
            Told::Dropped => Answer::Dropped,
            Told::Waiting => Answer::Waiting,
            Told::Done => Answer::Done,
            Told::Removed => Answer::Removed,
            Told::Gone => Answer::Gone,
            Told::Value(value) => Answer::Value(value),
        }
    }
}

/// These answers, the first to line 1.
fn said_of(alloc: Global, answers: &[Told]) -> Result<Vec<Said>, AllocError> {
    let mut said = Vec::new(alloc);
    let mut number: u64 = 1;
    for told in answers {
        said.push(Said::new(alloc, number, told.answer())?)?;
        number = number.saturating_add(1);
    }
    Ok(said)
}

/// What a picture is written as.
#[derive(Clone, Copy)]
enum Form {
    Text,
    Svg,
}

impl Form {
    /// The picture of a script with these answers.
    fn picture(
        self,
        alloc: Global,
        hash: NameHash,
        script: &[u8],
        said: &[Said],
    ) -> Result<String, AllocError> {
        if script.len() > 1048576 {
            return Ok(String::new(alloc));
        }
        let mut marks = marks(alloc, hash, script, said)?;
        match self {
            Form::Text => text_picture(alloc, &mut marks),
            Form::Svg => svg_picture(alloc, &mut marks),
        }
    }
}

impl Drawn {
    /// The picture of the script.
    fn made<R>(self, rt: &R, form: Form) -> Result<String, AllocError>
    where
        R: AllocGlobal + RandomSource,
    {
        let said = said_of(rt.alloc(), self.answers)?;
        let script = self.script.as_bytes();
        form.picture(rt.alloc(), NameHash::new(rt), script, &said)
    }
}

/// Whether this stands in a picture, and nothing else there was accepted.
fn has_once(picture: &str, accepted_later: &str) -> bool {
    match picture.split_once(accepted_later) {
        Some((before, after)) => {
            !before.contains("accepted before") && !after.contains("accepted before")
        }
        None => false,
    }
}

/// Each is drawn.
#[test]
fn pictures_by_hand_are_drawn(rt: HostRuntime) -> Result<(), Fail> {
    for drawn in [AT_ONCE, WAITED, TOGETHER, PRELUDE] {
        let picture = drawn.made(&rt, Form::Text)?;
        assert!(rt; picture.as_str() == drawn.picture);
    }
    let picture = TOGETHER.made(&rt, Form::Svg)?;
    assert!(rt; has_once(picture.as_str(), TOGETHER_AS_SVG));
    Ok(())
}
