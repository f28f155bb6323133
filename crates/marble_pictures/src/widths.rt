//! How wide the words of marks are.

ghost use Rattle.std.specs.Prelude.{◌≡◌};
ghost use Rattle.marble_pictures.specs.Widths.{spot_of, for_late, wider, widths_of};

use crate::caption::{Purpose, sign, words_len};
use crate::line::state_value;
use marble_marks::{Kind, Mark, Spot};

/// The most characters of the words of marks, and how many columns they have.
#[derive(Clone, Copy)]
pub(crate) struct Widths {
    /// Of the name of a row.
    pub(crate) name: usize,
    /// Of a number beside an accepted value.
    pub(crate) number: usize,
    /// Of all else, with its sign.
    pub(crate) place: usize,
    /// Of a state's value.
    pub(crate) value: usize,
    /// Of a value that is accepted later, with its sign.
    pub(crate) late: usize,
    /// The most values that one line accepts.
    pub(crate) slots: usize,
    pub(crate) last_column: usize,
}

/// Where a mark stands among all that one line accepts.
pub(crate) fn spot_of(kind: Kind) -> Spot
    ensures { result ≡ spot_of kind }
{
    match kind {
        Kind::AcceptedLater(_, spot) | Kind::Number(_, spot) => spot,
        _ => Spot::ALONE,
    }
}

/// The most characters of values that are accepted later, with one more mark, which has so many.
fn for_late(kind: Kind, shown: usize, most: usize) -> usize
    ensures { result ≡ for_late kind shown most }
{
    match kind {
        Kind::AcceptedLater(_, _) => shown.max(most),
        _ => most,
    }
}

impl Widths {
    /// With one more mark.
    fn wider(self, mark: &Mark<'_>) -> Widths
        ensures { result ≡ wider self mark.now }
    {
        let said = words_len(mark);
        let shown = said.saturating_add(sign(mark.kind).len());
        let part = Purpose::of(mark);
        Widths {
            name: if part == Purpose::Name {
                shown.max(self.name)
            } else {
                self.name
            },
            number: if part == Purpose::Number {
                shown.max(self.number)
            } else {
                self.number
            },
            place: if part == Purpose::Place {
                shown.max(self.place)
            } else {
                self.place
            },
            value: if state_value(mark.kind).is_some() {
                said.max(self.value)
            } else {
                self.value
            },
            late: for_late(mark.kind, shown, self.late),
            slots: spot_of(mark.kind).count.max(self.slots),
            last_column: mark.column.max(self.last_column),
        }
    }

    /// Of these marks.
    pub(crate) fn of(marks: &[Mark<'_>]) -> Widths
        ensures { result ≡ widths_of marks.now }
    {
        let mut widths = Widths {
            name: 0,
            number: 0,
            place: 0,
            value: 0,
            late: 0,
            slots: 0,
            last_column: 0,
        };
        for mark in marks {
            widths = widths.wider(mark);
        }
        widths
    }
}
