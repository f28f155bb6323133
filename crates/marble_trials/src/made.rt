//! Lists of marks that are made by numbers without an order.

use marble_marks::{Kind, Mark, Row, Spot};
use script_commands::Reason;
use std::alloc::{AllocError, Global};

/// Texts of marks. Those of names and answers are shown up to lengths on both sides of each limit.
const TEXTS: &[&[u8]] = &[
    b"",
    b"a",
    b"value 7",
    b"thirteen more",
    b"fourteen bytes",
    b"fifteen of them",
    b" spaces at both ends ",
    b"<line> & \"more\" of it\t\xc3\xa9",
    b"a name of thirty-one characters",
    b"a name of thirty-two characters.",
    b"a name of thirty-three characters",
    b"a name that goes on and on until it is wider than all of a picture, which has a hundred and twenty characters at most, of which",
];

/// Numbers of so many digits, and their neighbours.
const NUMBERS: &[u64] = &[
    0,
    1,
    9,
    10,
    99,
    100,
    12345,
    999999999,
    1000000000,
    9999999999999999999,
    10000000000000000000,
    u64::MAX,
];

/// How high a row of an SVG is: rows so far down that their place is no number any more stand at the last one.
const ROW: usize = 44;

/// One of the reasons why a line is bad.
pub(crate) fn reason(index: usize) -> Reason {
    match index {
        0 => Reason::TooLong,
        1 => Reason::NoCommand,
        2 => Reason::Words,
        3 => Reason::Unbound,
        4 => Reason::Bound,
        _ => Reason::OtherKind,
    }
}

/// What shows this number.
fn numbered(code: usize, number: u64, spot: Spot) -> Kind {
    match code {
        0 => Kind::Line(number),
        4 => Kind::Accepted(number),
        5 => Kind::AcceptedLater(number, spot),
        6 => Kind::Number(number, spot),
        7 => Kind::Lost(number),
        8 => Kind::Dropped(number),
        9 => Kind::Full(number),
        10 => Kind::Set(number),
        11 => Kind::Holds(number),
        12 => Kind::FromPrelude(number),
        _ => Kind::Received(number),
    }
}

/// What shows no number.
fn plain(code: usize) -> Kind {
    match code {
        13 => Kind::Nothing,
        14 => Kind::Waiting,
        15 => Kind::Done,
        16 => Kind::Removed,
        17 => Kind::Left,
        18 => Kind::Cancelled,
        19 => Kind::Ticked,
        20 => Kind::Gone,
        _ => Kind::Said,
    }
}

/// Numbers without an order, by a linear congruence.
#[derive(Clone, Copy)]
pub(crate) struct Dice {
    state: u64,
}

impl Dice {
    pub(crate) fn new(seed: u64) -> Dice {
        Dice { state: seed }
    }

    /// A number below a limit that isn't 0.
    pub(crate) fn below(&mut self, limit: usize) -> usize {
        self.state = self
            .state
            .wrapping_mul(6364136223846793005)
            .wrapping_add(1442695040888963407);
        (self.state >> 33) as usize % limit.max(1)
    }

    /// One of these, of which there is at least one.
    pub(crate) fn one_of(&mut self, all: &[usize]) -> usize {
        all.get(self.below(all.len())).copied().unwrap_or(1)
    }

    fn number(&mut self) -> u64 {
        NUMBERS.get(self.below(NUMBERS.len())).copied().unwrap_or(0)
    }

    fn row(&mut self) -> Row {
        match self.below(6) {
            0 => Row::Flow,
            1 => Row::State(self.number()),
            2 => Row::Buffer,
            3 => Row::Subscription,
            4 => Row::Collector,
            _ => Row::Ticket(self.number()),
        }
    }

    /// Mostly the only one.
    fn spot(&mut self) -> Spot {
        match self.below(4) {
            0 => Spot {
                index: self.below(4),
                count: self.below(5),
            },
            _ => Spot::ALONE,
        }
    }

    /// What a mark shows that isn't a name.
    fn shown(&mut self) -> Kind {
        match self.below(23) {
            1 => Kind::Bad(self.number(), reason(self.below(6))),
            2 | 3 => Kind::Begun(self.row()),
            code if code < 13 || code == 22 => numbered(code, self.number(), self.spot()),
            code => plain(code),
        }
    }

    fn text(&mut self, texts: usize) -> &'static [u8] {
        TEXTS.get(self.below(texts)).copied().unwrap_or(b"")
    }
}

/// What lists of marks are made.
#[derive(Clone, Copy)]
pub(crate) enum Plan {
    /// Up to 59 marks in a few rows.
    Any,
    /// Few marks in many rows, the last there can be among them, or in so many columns that most strips have none.
    Sparse,
}

/// How a list of marks is made.
#[derive(Clone, Copy)]
struct Shape {
    marks: usize,
    columns: usize,
    rows: usize,
    /// The number of the first row.
    first_row: usize,
    /// How many of the texts come in it.
    texts: usize,
    /// Whether names stand in any column.
    has_names_anywhere: bool,
}

impl Shape {
    fn any(dice: &mut Dice) -> Shape {
        Shape {
            marks: dice.below(60),
            columns: dice.one_of(&[1, 2, 5, 20, 50, 150]),
            rows: dice.below(12).saturating_add(1),
            first_row: 0,
            texts: dice.below(TEXTS.len()).saturating_add(1),
            has_names_anywhere: dice.below(3) == 0,
        }
    }

    fn sparse(dice: &mut Dice) -> Shape {
        let rows = dice.below(600).saturating_add(1);
        Shape {
            marks: dice.below(24),
            columns: dice.one_of(&[3, 60, 300]),
            rows,
            first_row: dice.one_of(&[
                usize::MAX.saturating_sub(rows.saturating_sub(1)),
                usize::MAX / ROW,
                0,
            ]),
            texts: dice.below(TEXTS.len()).saturating_add(1),
            has_names_anywhere: dice.below(3) == 0,
        }
    }

    fn mark(self, dice: &mut Dice) -> Mark<'static> {
        let row = self.first_row.saturating_add(dice.below(self.rows));
        let column = dice.below(self.columns);
        let text = dice.text(self.texts);
        if dice.below(6) > 0 {
            let kind = dice.shown();
            return Mark {
                column,
                row,
                kind,
                text,
            };
        }
        let kind = Kind::Named(dice.row());
        Mark {
            column: if self.has_names_anywhere { column } else { 0 },
            row,
            kind,
            text,
        }
    }
}

impl Plan {
    fn shape(self, dice: &mut Dice) -> Shape {
        match self {
            Plan::Any => Shape::any(dice),
            Plan::Sparse => Shape::sparse(dice),
        }
    }

    /// Marks by this plan.
    pub(crate) fn marks(
        self,
        alloc: Global,
        dice: &mut Dice,
    ) -> Result<Vec<Mark<'static>>, AllocError> {
        let shape = self.shape(dice);
        let mut marks = Vec::new(alloc);
        for _ in 0..shape.marks {
            marks.push(shape.mark(dice))?;
        }
        Ok(marks)
    }
}
